//! One list of turns has one text. The function does nothing: it has the law for its contract.
#![tactic(auto)]

mod laws;

pub use laws::one_text;
