//! What the lines of a text say.
//!
//! The words and the sentences of the language stand in `specs/Words.antt` and `specs/Lines.antt`, and what the lines of a text say
//! in `specs/Numbered.antt`; [`scan`] reads it.
#![tactic(auto)]

mod line;
mod lines;
mod scanner;
mod sentence;
#[cfg(test)]
mod tests;
mod words;

pub use line::{Cell, Form, Line, Maker, Setting};
pub use scanner::{Extent, Scanned, one_saying, scan};
