//! A space that holds a graph of named objects by the book of their addresses, what its first words are to the names, and that it
//! still holds the graph when its blocks are swept.
#![tactic(auto)]

mod law;

pub use law::{front_law, sweep_law};
