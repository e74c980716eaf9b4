ghost use Rattle.std.specs.Prelude.{◌≡◌, ◌+◌, ◌<◌, ◌≤◌, ◌⊎◌, ℕ};
ghost use Rattle.sg_words.specs.Sections.{IsLayout};
ghost use Rattle.sg_space.specs.Space.{cards_in};
ghost use Rattle.sg_cards.specs.Numbering.{cards_from, blocks_from, pages_from, numbers_end, of_block, numbered};

use crate::steps::Steps;
use sg_blocks::number_of;
use sg_space::Space;
use sg_words::{Addr, FIRST_WORD, Layout};
use std::sync::ledger::Ledger;

/// Words that are read by their numbers: first those from address 4096 to the end of the weak links, by address; then one for each card, 1 where
/// it is dirty and else 0; then for each block its word's number, its occupancy and its marks; then one for each page.
pub trait Words {
    /// How many words there are.
    ghost count: { Self → ℕ };

    /// Each word by its number.
    ghost word_of: { Self → ℕ → ℕ };

    /// The word with this number: one step.
    fn word<L: Ledger>(&self, i: u64, steps: &mut Steps<L>) -> u64
        requires { i < count self.now }
        ensures value { result ≡ word_of self.now i }
        ensures step { steps.new ≡ steps.old + 1 };

    /// Of this many words from number `first` on, the first, and the one behind the last, of a range outside of which each is 0, counted from
    /// `first`: one step.
    fn range_of_dirty<L: Ledger>(&self, first: u64, cards: u32, steps: &mut Steps<L>) -> (u32, u32)
        requires { first + cards ≤ count self.now }
        ensures order { result.0 ≤ result.1 }
        ensures within { result.1 ≤ cards }
        ensures clean { (c : ℕ) → c < cards → (c < result.0) ⊎ (result.1 ≤ c) → word_of self.now (first + c) ≡ 0 }
        ensures step { steps.new ≡ steps.old + 1 };
}

/// The number of the first card's word.
#[inline]
pub(crate) fn cards_number(layout: &Layout) -> u64
    requires { IsLayout layout.now }
    ensures { result ≡ cards_from layout.now }
{
    layout.end_word() - FIRST_WORD
}

/// How many cards there are.
#[inline]
pub(crate) fn cards_of(layout: &Layout) -> u32
    requires { IsLayout layout.now }
    ensures { result ≡ cards_in layout.now }
{
    4 * layout.blocks + 2 * layout.pages
}

/// The number of the first block's word.
pub(crate) fn blocks_number(layout: &Layout) -> u64
    requires { IsLayout layout.now }
    ensures { result ≡ blocks_from layout.now }
{
    cards_number(layout) + cards_of(layout) as u64
}

/// The number of the first page's word.
pub(crate) fn pages_number(layout: &Layout) -> u64
    requires { IsLayout layout.now }
    ensures { result ≡ pages_from layout.now }
{
    blocks_number(layout) + 3 * layout.blocks as u64
}

impl Words for Space {
    ghost count = { λ s. numbers_end s.layout };

    ghost word_of = { numbered };

    #[inline(always)]
    fn word<L: Ledger>(&self, i: u64, steps: &mut Steps<L>) -> u64 {
        steps.tick();
        let layout = self.layout();
        let first = cards_number(&layout);
        let behind = blocks_number(&layout);
        if i < first {
            self.read(Addr::at_word(FIRST_WORD + i))
        } else if i < behind {
            self.dirty((i - first) as u32) as u64
        } else {
            word_behind(self, &layout, i)
        }
    }

    // By the range that the space keeps.
    fn range_of_dirty<L: Ledger>(
        &self,
        first: u64,
        cards: u32,
        steps: &mut Steps<L>,
    ) -> (u32, u32) {
        steps.tick();
        let layout = self.layout();
        if first == cards_number(&layout) && cards == cards_of(&layout) {
            self.dirty_range()
        } else {
            (0, cards)
        }
    }
}

/// The word of this number, behind those of the cards.
fn word_behind(space: &Space, layout: &Layout, i: u64) -> u64
    requires layout { layout.now ≡ space.now.layout }
    requires from { blocks_from space.now.layout ≤ i }
    requires to { i < numbers_end space.now.layout }
    ensures { result ≡ numbered space.now i }
{
    let _ = space.layout();
    let pages = pages_number(layout);
    if i < pages {
        let part = i - blocks_number(layout);
        part_of(space, (part / 3) as u32, part % 3)
    } else {
        space.page((i - pages) as u32)
    }
}

/// Word `i` of the three words of this block.
fn part_of(space: &Space, block: u32, i: u64) -> u64
    requires { block < space.now.layout.blocks }
    ensures { result ≡ of_block space.now block i }
{
    let _ = space.layout();
    match i {
        0 => number_of(space.block(block)),
        1 => space.used(block),
        _ => space.marks(block),
    }
}
