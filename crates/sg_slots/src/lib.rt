//! The search for a slot of the major heap, over any port.
#![tactic(auto)]

mod search;

pub use search::{Found, claim_slot, find, lowest_clear};
