//! Fragments of the nursery over any port, and the port over a lent space.
#![tactic(auto)]

mod claims;
mod plain;

pub use claims::{Claimed, Looked, claim, look};
pub use plain::PlainPort;

#[cfg(test)]
mod tests;
