ghost use Rattle.std.specs.Prelude.{◌≡◌, ◌<◌, IfOk};
ghost use Rattle.sg_space.specs.Standing.{IsSound};
ghost use Rattle.sg_cards.specs.Seeds.{AreCarded};

use crate::*;
use sg_desc::{Descriptor, Shape};
use sg_space::Space;
use sg_words::{Addr, BlockWord, Layout};
use std::alloc::{AllocError, Global};
use std::marker::Brand;
use std::sync::ledger::{Blank, Ledger};
use std::test::Fail;

// A nursery of 256 words, from word 512, and a block, from word 768, of cards 0 to 3.
const LAYOUT: Layout = Layout {
    nursery: 256,
    blocks: 1,
    pages: 0,
};

// A vector of 62 references at the front of the block: its last field, which is the last word of card 0, holds the address of the nursery's first
// word. Cards 0 and 1 are dirty.
fn of_vector(alloc: Global) -> Result<Space, AllocError>
    ensures sound { IfOk result IsSound }
    ensures carded { IfOk result AreCarded }
{
    let shapes = [Shape {
        fields: 0,
        kind: Descriptor::VectorRefs,
    }];
    let mut space = Space::new(alloc, LAYOUT, shapes.as_slice())?;
    space.set_block(0, BlockWord::Swept { size: 64 });
    space.set_used(0, 1);
    space.write(Addr::at_word(769), 62);
    space.write(Addr::at_word(768), 8);
    space.write(Addr::at_word(831), 4096);
    space.set_dirty(0, true);
    space.set_dirty(1, true);
    Ok(space)
}

// What is found by the space's own words.
fn seeds_of(alloc: Global, space: &Space) -> Result<Seeds, AllocError>
    requires sound { IsSound space.now }
    requires carded { AreCarded space.now }
{
    seeds_by::<Brand>(alloc, space, Blank::new(1))
}

// The same, counted in this ledger.
fn seeds_by<L: Ledger>(alloc: Global, space: &Space, blank: Blank) -> Result<Seeds, AllocError>
    requires sound { IsSound space.now }
    requires carded { AreCarded space.now }
    requires name { blank.name ≡ L.name }
    requires parts { blank.parts ≡ L.parts }
    requires some { 0 < L.parts }
{
    let layout = space.layout();
    let mut steps = Steps::<L>::new(blank);
    seeds(alloc, space, &layout, space.shapes(), &mut steps)
}

// Which of the four cards are dirty; they are clean where there are fewer.
fn dirty_cards(space: &Space) -> [bool; 4] {
    let mut dirty = [false; 4];
    let (_, to) = space.dirty_range();
    for card in 0..to.min(4) {
        dirty[card as usize] = space.dirty(card);
    }
    dirty
}

// Worked by hand: the one seed is the last word of card 0; card 1 has none, and is cleaned.
#[test]
fn one_seed_of_a_vector(rt: HostRuntime) -> Result<(), Fail> {
    let mut space = of_vector(rt.alloc())?;
    assert_eq!(rt; dirty_cards(&space), [true, true, false, false]);
    let found = seeds_of(rt.alloc(), &space)?;
    assert_eq!(rt; found.all().len(), 1);
    let seed = found.all().first().ok_or("a seed")?;
    assert_eq!(rt; seed.slot, Addr::at_word(831));
    assert_eq!(rt; seed.target, Addr::at_word(512));
    clean(&mut space);
    assert_eq!(rt; dirty_cards(&space), [true, false, false, false]);
    assert_eq!(rt; space.dirty_range(), (0, 1));
    Ok(())
}

// The card of a word of the block.
fn card_at(word: u64) -> Option<u32> {
    if word < LAYOUT.old_word() || word >= LAYOUT.large_word() {
        return None;
    }
    Some(card_of(&LAYOUT, Addr::at_word(word)))
}

// Worked by hand: the cards of their first and last words.
#[test]
fn cards_of_words(rt: HostRuntime) -> Result<(), Fail> {
    for case in [(768, 0), (831, 0), (832, 1), (895, 1), (896, 2), (1023, 3)] {
        let (word, card) = case;
        assert_eq!(rt; card_at(word), Some(card));
    }
    assert_eq!(rt; card_at(767), None);
    assert_eq!(rt; card_at(1024), None);
    Ok(())
}
