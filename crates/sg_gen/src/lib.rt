//! Programs that are made from a number: four mutators, each of which grows, reads and shrinks lists of its own.
#![tactic(auto)]

mod generated;

pub use generated::script;

#[cfg(test)]
mod tests;
