//! The simulated address space: a nursery, a major heap, a large space and the rows behind it, over 64-bit words.
#![tactic(auto)]

mod blocks;
mod laws;
mod objects;
mod rows;
mod space;
mod walks;

pub use laws::placing_law;
pub use objects::Object;
pub use sg_words::Layout;
pub use space::Space;

#[cfg(test)]
mod tests;
