//! The nursery around a round of copying: the tags of pinned objects before it, the sweep after it, and the gaps between what stays.
#![tactic(auto)]

mod pieces;
pub mod sweep;
pub mod tag;

pub use pieces::build;

#[cfg(test)]
mod tests;
