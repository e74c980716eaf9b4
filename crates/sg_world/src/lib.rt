//! A run of a program, epoch by epoch and stop by stop.
#![tactic(auto)]

mod reports;
mod serving;
mod stop;
mod wants;
mod world;

pub use world::World;

#[cfg(test)]
mod tests;
