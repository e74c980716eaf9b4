//! The text of the reports of a run.
#![tactic(auto)]

mod trace;

pub use trace::{append_epoch, append_number, append_stop};

#[cfg(test)]
mod tests;
