//! Which lines are a text, and which program a text is.
//!
//! The grammar stands in `specs/Text.antt`; [`order_of`] decides whether sentences stand in its order.
#![tactic(auto)]

mod laws;
mod order;

pub use laws::{one_program, one_reading};
pub use order::{Order, order_of};
