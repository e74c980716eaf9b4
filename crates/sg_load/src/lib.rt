//! The load of a generated program: what a run of it comes to.
#![tactic(auto)]

mod laws;
mod summary;

pub use laws::{answers_are_counted, tallies_are_alone};
pub use summary::{Tally, append_summary, count_epoch, count_stop};

#[cfg(test)]
mod tests;
