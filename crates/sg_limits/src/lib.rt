//! Which limit a line breaks by itself.
//!
//! The faults of lines stand in `specs/Faults.antt`; [`line_fault`] tells the first limit that a line breaks by itself.
#![tactic(auto)]

mod laws;
mod limits;
mod which;

pub use laws::line_limits;
pub use limits::line_fault;
pub use which::Which;
