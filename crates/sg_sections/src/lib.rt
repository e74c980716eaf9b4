//! What stands in each section of a space: the objects of the nursery, and the blocks of the major heap that are in use.
#![tactic(auto)]

mod blocks;
mod told;

pub use told::sections;

#[cfg(test)]
mod tests;
