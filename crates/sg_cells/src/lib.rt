//! Ports, through which actors reach the shared words, the order of turns, and gates.
//!
//! An actor's code is generic over ports. A port names no program: it says which steps lead from one state of it to another,
//! which calls it lets its actor make and what its actor may see. What a program asks of a port is said in `sg_words`, by
//! `specs/Programs.antt`.
#![tactic(auto)]

mod gate;
mod port;
mod schedule;

pub use gate::{Gate, OpenGate};
pub use port::{BlockPort, FragPort, Port, SweepPort, WordPort};
pub use schedule::ScheduleDriver;

#[cfg(test)]
mod tests;
