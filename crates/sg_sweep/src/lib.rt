//! The sweep of a block of the major heap, over any port.
//!
//! Who sweeps a block takes it over by an exchange of its word, so that of two actors one at most sweeps it.
#![tactic(auto)]

mod sweep;

pub use sweep::{Sweep, prepare, sweep_block, take_over, write_out};
