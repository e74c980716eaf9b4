//! The answer to a statement at a stop, when no mutator is at work: the place of a new object, in a fragment or a slot.
#![tactic(auto)]

mod placing;

pub use placing::{Room, answer_to};

#[cfg(test)]
mod tests;
