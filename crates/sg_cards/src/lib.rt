//! The cards: which fields of old and large objects hold young references, found by the dirty cards alone.
//!
//! A card stands for 64 words of blocks or pages. Words are read by their numbers, one step each.
#![tactic(auto)]

mod cards;
mod found;
mod scan;
mod search;
mod steps;
#[cfg(test)]
mod tests;
mod words;

pub use cards::{card_of, clean};
pub use found::{Seed, Seeds};
pub use search::seeds;
pub use steps::Steps;
pub use words::Words;
