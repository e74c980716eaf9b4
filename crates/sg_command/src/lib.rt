//! The words of the command line: which job they ask for, and what is written where they ask for none.
#![tactic(auto)]

mod job;
mod laws;
mod numbers;
mod turns;

pub use job::{Job, command, usage};
pub use laws::one_job;

#[cfg(test)]
mod tests;
