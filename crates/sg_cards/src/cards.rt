ghost use Rattle.std.specs.Prelude.{◌≡◌, ◌<◌, ◌≤◌, ◌↔◌, ◌≢◌, ℕ, Option, true, length, slice_index};
ghost use Rattle.sg_words.specs.Address.{word_at};
ghost use Rattle.sg_words.specs.Sections.{IsLayout};
ghost use Rattle.sg_words.specs.Blocks.{card_of as card_at, HasCard};
ghost use Rattle.sg_space.specs.Space.{cards_in};
ghost use Rattle.sg_space.specs.Standing.{IsSoundBy, IsSound};
ghost use Rattle.sg_cards.specs.Seeds.{HasSeed, AreCarded};

use crate::scan::{CARD_WORDS, young_in};
use crate::steps::Steps;
use sg_space::Space;
use sg_words::{Addr, Layout};
use std::marker::Brand;
use std::sync::ledger::{Blank, Ledger};

/// The card of the word at this byte address, which is one of the blocks or of the pages.
pub fn card_of(layout: &Layout, a: Addr) -> u32
    requires layout { IsLayout layout.now }
    requires has { HasCard layout.now (word_at a) }
    ensures { result ≡ card_at layout.now (word_at a) }
{
    ((a.word() - layout.old_word()) / CARD_WORDS as u64) as u32
}

/// Cleans the cards that aren't needed: afterwards a card is dirty exactly where it was, and has a strong field of a standing old or large object
/// that holds a young reference. So where each such field had a dirty card, exactly the cards without one are clean. Takes no memory, and time
/// linear in the range of cards that may be dirty and in the words of the dirty ones.
pub fn clean(space: &mut Space)
    requires { IsSound space.old }
    ensures still { space.new ≡ record space.old { cards = space.new.cards } }
    ensures count { length space.new.cards ≡ length space.old.cards }
    ensures sound { (owner : ℕ → Option ℕ) → IsSoundBy space.old owner → IsSoundBy space.new owner }
    ensures dirty { (owner : ℕ → Option ℕ) → IsSoundBy space.old owner → (c : ℕ) → c < cards_in space.old.layout →
        ((slice_index space.new.cards c ≡ 1) ↔ ((slice_index space.old.cards c ≡ 1) × HasSeed space.old owner c)) }
    ensures clean { AreCarded space.old → (owner : ℕ → Option ℕ) → IsSoundBy space.old owner → (c : ℕ) → c < cards_in space.old.layout →
        ((slice_index space.new.cards c ≡ 0) ↔ ¬ HasSeed space.old owner c) }
{
    clean_range::<Brand>(space, Blank::new(1));
    space.narrow_dirty();
    // That each card is 0 or 1 stands in what the layout ensures.
    let _ = space.layout();
}

/// The same, counting its steps in this ledger.
fn clean_range<L: Ledger>(space: &mut Space, blank: Blank)
    requires sound { IsSound space.old }
    requires name { blank.name ≡ L.name }
    requires parts { blank.parts ≡ L.parts }
    requires some { 0 < L.parts }
    ensures still { space.new ≡ record space.old { cards = space.new.cards } }
    ensures count { length space.new.cards ≡ length space.old.cards }
    ensures dirty { (owner : ℕ → Option ℕ) → IsSoundBy space.old owner → (c : ℕ) → c < cards_in space.old.layout →
        ((slice_index space.new.cards c ≡ 1) ↔ ((slice_index space.old.cards c ≡ 1) × HasSeed space.old owner c)) }
{
    let mut steps = Steps::<L>::new(blank);
    let (from, to) = space.dirty_range();
    for card in from..to {
        clean_card(space, card, &mut steps);
    }
}

/// Cleans this card, where it isn't needed.
fn clean_card<L: Ledger>(space: &mut Space, card: u32, steps: &mut Steps<L>)
    requires sound { IsSound space.old }
    requires card { card < length space.old.cards }
    ensures still { space.new ≡ record space.old { cards = space.new.cards } }
    ensures count { length space.new.cards ≡ length space.old.cards }
    ensures here { (owner : ℕ → Option ℕ) → IsSoundBy space.old owner →
        ((slice_index space.new.cards card ≡ 1) ↔ ((slice_index space.old.cards card ≡ 1) × HasSeed space.old owner card)) }
    ensures others { (c : ℕ) → c ≢ card → slice_index space.new.cards c ≡ slice_index space.old.cards c }
{
    if !space.dirty(card) {
        return;
    }
    if is_needed(space, card, steps) {
        return;
    }
    space.set_dirty(card, false);
}

/// Whether this card has a strong field of a standing old or large object that holds a young reference.
fn is_needed<L: Ledger>(space: &Space, card: u32, steps: &mut Steps<L>) -> bool
    requires sound { IsSound space.now }
    requires card { card < length space.now.cards }
    ensures { (owner : ℕ → Option ℕ) → IsSoundBy space.now owner → ((result ≡ true) ↔ HasSeed space.now owner card) }
{
    let layout = space.layout();
    let found = young_in(space, &layout, space.shapes(), card, steps);
    has_some(&found)
}

/// Whether one of these words isn't 0.
fn has_some(found: &[u64]) -> bool
    ensures { (result ≡ true) ↔ ((j : ℕ) × (j < length found.now) × (slice_index found.now j ≢ 0)) }
{
    for word in found {
        if *word != 0 {
            return true;
        }
    }
    false
}
