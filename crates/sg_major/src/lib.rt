//! The major pause: what the roots reach is kept, where it stands, and all blocks are left to be swept.
#![tactic(auto)]

mod counts;
mod law;
mod nursery;
mod pause;
mod roots;

pub use law::major_law;
pub use pause::major;

#[cfg(test)]
mod tests;
