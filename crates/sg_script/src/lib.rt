//! A place in a script: which statement comes next, with repeats gone through and not written out.
#![tactic(auto)]

mod cursor;

pub use cursor::Cursor;

#[cfg(test)]
mod tests;
