//! Runs a program on the simulated heap: from the bytes of a source to the trace in a sink.
//!
//! The top call is [`run`], whose contract is the repository's main promise.
#![tactic(auto)]

mod execution;
mod input;
mod output;
mod refusal;
mod replay;
mod summary;
mod top;

pub use refusal::one_cause;
pub use replay::one_text;
pub use sg_cells::{Gate, OpenGate};
pub use top::run;

#[cfg(test)]
mod parts;
#[cfg(test)]
mod tests;
