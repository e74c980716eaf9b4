//! The mutator: one statement of its script after another, turn by turn, by atomic steps on the words that mutators share.
//!
//! Its code reaches these words through a port alone, of any kind: a lent space, or a seat of a table.
#![tactic(auto)]

mod accesses;
mod making;
mod mutator;
mod registers;
mod searching;
mod tools;
mod turns;

pub use mutator::{Held, Mutator, Stage};
pub use tools::ObjectTest;
