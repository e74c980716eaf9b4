//! The minor pause: what it keeps, and the pieces of the nursery between the objects that stay.
#![tactic(auto)]

mod found;
mod join;
mod law;
mod pause;
mod slots;

pub use found::found_in;
pub use join::join_law;
pub use law::{heap_law, pause_law};
pub use pause::minor;
pub use sg_nursery::build;
pub use slots::first_slots;

#[cfg(test)]
mod tests;
