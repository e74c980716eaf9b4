//! Programs: settings, classes, statements and scripts, and what a statement answers or asks for.
//!
//! What a script does with its repeats written out, the limits that a program keeps to and the kinds of its operands stand
//! in `specs/`.
#![tactic(auto)]

mod answers;
mod counts;
mod laws;
pub mod limits;
mod program;

pub use answers::{Answer, Leave, Request};
pub use counts::{script_finals, script_total, total};
pub use laws::{items_do_what_is_written, items_unfold};
pub use program::{Class, Config, Item, Name, Program, Script, Statement};
