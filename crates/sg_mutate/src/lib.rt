//! An epoch: the mutators take turns over a lent space until each has left. Beside it the laws of turns, by which a turn of a mutator by
//! atomic steps is a turn over graph and book.
#![tactic(auto)]

mod epochs;
mod laws;

pub use epochs::{EpochEnd, epoch};
pub use laws::{ends_are_taken, opens_boarded, turns_are_taken, turns_owe_less};
