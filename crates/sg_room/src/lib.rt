//! Whether requests for words all find room in the fragments of a space, and requests for slots in its blocks, told before any of
//! them is placed.
#![tactic(auto)]

mod room;
mod slots;
mod words;

pub use room::lacks_room;
pub use slots::lacks_slots;
pub use words::lacks_words;

#[cfg(test)]
mod tests;
