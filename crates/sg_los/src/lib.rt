//! The pages of large objects: how many an object needs, taking the lowest free run of them, and freeing those of an object.
#![tactic(auto)]

mod laws;
mod pages;

pub use laws::large_law;
pub use pages::{free_pages, pages_for, take_pages};

#[cfg(test)]
mod tests;
