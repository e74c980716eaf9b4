//! Marking: which objects of a space strong fields reach from roots, told by the objects' marks.
#![tactic(auto)]

mod laws;
mod marking;
#[cfg(test)]
mod tests;

pub use laws::marking_law;
pub use marking::mark;
