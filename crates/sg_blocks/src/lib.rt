//! The slots of a block: their size classes, and the number that stands for a block's word.
//!
//! A block has 256 words. Sizes are in words.
#![tactic(auto)]

ghost use Rattle.std.specs.Prelude.{◌≡◌, ◌*◌, ◌^◌, ◌<◌, ◌≤◌, ℕ, Some, IfSome, MatchOption};
ghost use Rattle.sg_words.specs.Blocks.{IsSizeClass, slots as slots_of};
ghost use Rattle.sg_blocks.specs.Numbers.{IsBlockWord, block_number, place_of, IsSizeFor};

use sg_words::BlockWord;

/// The least size class that holds so many words; `None` exactly where they are none, or more than 64.
#[tactic(auto, unfolding(sg_words::specs::Blocks::slot_size))]
pub fn size_for(words: u32) -> Option<u32>
    ensures { IsSizeFor words result }
{
    match words {
        0 => None,
        1..=4 => Some(4),
        5..=6 => Some(6),
        7..=8 => Some(8),
        9..=12 => Some(12),
        13..=16 => Some(16),
        17..=24 => Some(24),
        25..=32 => Some(32),
        33..=48 => Some(48),
        49..=64 => Some(64),
        _ => None,
    }
}

/// How many slots of this size a block has.
#[inline]
pub fn slots(size: u32) -> u32
    requires { IsSizeClass size }
    ensures { result ≡ slots_of size }
{
    256 / size
}

/// The first word of this slot of a block whose slots have this size, counted from the block's first word.
#[inline]
pub fn slot_word(size: u32, slot: u32) -> u32
    requires class { IsSizeClass size }
    requires fits { size * slot < 2 ^ 32 }
    ensures { result ≡ size * slot }
{
    size * slot
}

/// A word for which a number stands: each has its own.
pub trait Numbered: Sized {
    /// The number that stands for it.
    ghost number: { Self → ℕ };

    /// It has a number.
    ghost IsNumbered: { Self → Type 0 };

    /// The number that stands for this word.
    fn to_word(self) -> u64
        requires { IsNumbered self }
        ensures { result ≡ number self };

    /// The word for which this number stands; `None` exactly where it stands for none.
    fn of_word(w: u64) -> Option<Self>
        ensures reads { IfSome result (λ word. IsNumbered word × (number word ≡ w)) }
        ensures only { (word : Self) → IsNumbered word → number word ≡ w → result ≡ Some word };
}

/// A free block's word has the number 0. A swept one's has 1 more than four times the place of its size class, from 0 to 8; one's that is to be
/// swept has 2 more, and one's that is being swept 3 more.
impl Numbered for BlockWord {
    ghost number = { block_number };

    ghost IsNumbered = { IsBlockWord };

    fn to_word(self) -> u64 {
        number_of(self)
    }

    fn of_word(w: u64) -> Option<BlockWord> {
        match w % 4 {
            0 => if w == 0 { Some(BlockWord::Free) } else { None },
            1 => Some(BlockWord::Swept {
                size: class_at(w / 4)?,
            }),
            2 => Some(BlockWord::Need {
                size: class_at(w / 4)?,
            }),
            _ => Some(BlockWord::Sweeping {
                size: class_at(w / 4)?,
            }),
        }
    }
}

/// The number of this block's word by the same rule, also where the size in it is no size class: its place is 9 then.
pub fn number_of(word: BlockWord) -> u64
    ensures { result ≡ block_number word }
{
    match word {
        BlockWord::Free => 0,
        BlockWord::Swept { size } => 4 * place(size) + 1,
        BlockWord::Need { size } => 4 * place(size) + 2,
        BlockWord::Sweeping { size } => 4 * place(size) + 3,
    }
}

/// The place of this size class among them; 9 where it is none.
fn place(size: u32) -> u64
    ensures place { result ≡ place_of size }
    ensures few { result < 10 }
{
    match size {
        4 => 0,
        6 => 1,
        8 => 2,
        12 => 3,
        16 => 4,
        24 => 5,
        32 => 6,
        48 => 7,
        64 => 8,
        _ => 9,
    }
}

/// The size class at this place; `None` exactly where there is none.
fn class_at(place: u64) -> Option<u32>
    ensures { MatchOption result (9 ≤ place) (λ size. IsSizeClass size × (place_of size ≡ place)) }
{
    match place {
        0 => Some(4),
        1 => Some(6),
        2 => Some(8),
        3 => Some(12),
        4 => Some(16),
        5 => Some(24),
        6 => Some(32),
        7 => Some(48),
        8 => Some(64),
        _ => None,
    }
}

#[cfg(test)]
mod tests {
    use super::*;

    // Worked by hand: each size class at its edges, its slots, and the first word of its last slot.
    #[test]
    fn slots_of_classes(rt: HostRuntime) {
        assert!(rt; size_for(0) == None);
        assert!(rt; size_for(1) == Some(4));
        assert!(rt; size_for(4) == Some(4));
        assert!(rt; size_for(5) == Some(6));
        assert!(rt; size_for(12) == Some(12));
        assert!(rt; size_for(13) == Some(16));
        assert!(rt; size_for(48) == Some(48));
        assert!(rt; size_for(49) == Some(64));
        assert!(rt; size_for(64) == Some(64));
        assert!(rt; size_for(65) == None);
        assert!(rt; slots(6) == 42);
        assert!(rt; slots(24) == 10);
        assert!(rt; slot_word(6, 41) == 246);
        assert!(rt; BlockWord::Free.to_word() == 0);
        assert!(rt; (BlockWord::Swept { size: 4 }).to_word() == 1);
        assert!(rt; (BlockWord::Sweeping { size: 64 }).to_word() == 35);
        assert!(rt; BlockWord::of_word(6) == Some(BlockWord::Need { size: 6 }));
        assert!(rt; BlockWord::of_word(4) == None);
        assert!(rt; BlockWord::of_word(37) == None);
    }
}
