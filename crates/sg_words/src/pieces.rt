use crate::address::Addr;

/// A gap between the objects that stand in the nursery; sizes are in words.
#[derive(Clone, Copy, Debug, PartialEq, Eq)]
pub enum Piece {
    /// A gap of 32 words or more, from which mutators may take memory.
    Frag { at: Addr, words: u32 },
    /// A gap of fewer words, which stays unused until the next collection.
    Waste { at: Addr, words: u32 },
}

/// An object that moved, by its addresses before and after.
#[derive(Clone, Copy, Debug, PartialEq, Eq)]
pub struct Move {
    pub from: Addr,
    pub to: Addr,
}
