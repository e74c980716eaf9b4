ghost use Rattle.std.specs.Prelude.{◌≡◌, ◌+◌, ◌*◌, ◌<◌, ◌≤◌, ◌⊎◌, ℕ, Bool, false, Option, List, IfOk, length, slice_index};
ghost use Rattle.std.specs.List.{Contains};
ghost use Rattle.sg_space.specs.Space.{Contents};
ghost use Rattle.sg_space.specs.Standing.{word};
ghost use Rattle.sg_mark.specs.Marking.{CanMark};

use crate::*;
use sg_desc::{Descriptor, Shape};
use sg_space::Space;
use sg_words::{Addr, FIRST_WORD, Layout};
use std::alloc::{AllocError, Global};
use std::test::Fail;

const LAYOUT: Layout = Layout {
    nursery: 256,
    blocks: 1,
    pages: 0,
};

// These words stand from the nursery's first word on.
fn fill(space: &mut Space, words: &[u64])
    requires { length words.now ≤ 256 }
    ensures still { space.new ≡ record space.old { words = space.new.words } }
    ensures length { length space.new.words ≡ length space.old.words }
    ensures written { (i : ℕ) → i < length words.now → word space.new (512 + i) ≡ slice_index words.now i }
    ensures others { (x : ℕ) → (x < 512) ⊎ (512 + length words.now ≤ x) → word space.new x ≡ word space.old x }
{
    let _ = space.layout();
    for (i, word) in words.iter().enumerate() {
        space.write(Addr::at_word(FIRST_WORD + i as u64), *word);
    }
}

// Seven objects of four words each at the nursery's front, 32 bytes from one to the next. Those with the tag 8 have a reference and a number,
// the one with the tag 16 is a vector of two references. 0 to 2 are a chain and a cycle, and the number of 0 is the address of 6; the vector 3 refers
// to 2 and 4, and 5 refers to 4, too.
fn of_seven(alloc: Global) -> Result<Space, AllocError>
    ensures { IfOk result (λ s. (owner : ℕ → Option ℕ) × ((roots : List ℕ) → ((a : ℕ) → Contains roots a → (j : ℕ) × (j < 7) × (a ≡ 4096 + 32 * j)) → CanMark s owner (λ _. false) s roots)) }
{
    let shapes = [
        Shape {
            fields: 2,
            kind: Descriptor::Run { first: 0, count: 1 },
        },
        Shape {
            fields: 0,
            kind: Descriptor::VectorRefs,
        },
    ];
    let words = [
        8, 2, 4128, 4288, 8, 2, 4160, 0, 8, 2, 4096, 0, 16, 2, 4160, 4224, 8, 2, 0, 0, 8, 2, 4224,
        0, 8, 2, 4096, 0,
    ];
    let mut space = Space::new(alloc, LAYOUT, shapes.as_slice())?;
    space.set_next(0, 4320);
    fill(&mut space, words.as_slice());
    let _ = space.layout();
    Ok(space)
}

// Which of the seven are marked.
fn marks_of(space: &Space) -> [bool; 7] {
    let mut marks = [false; 7];
    for j in 0..7 {
        let front = FIRST_WORD + 4 * j as u64;
        if front < space.layout().old_word() {
            marks[j] = space.marked(Addr::at_word(front));
        }
    }
    marks
}

// The marks after a marking from 0, and then after one from 3 and 5.
fn marked_twice(alloc: Global) -> Result<([bool; 7], [bool; 7]), AllocError> {
    let mut space = of_seven(alloc)?;
    let root = [Addr::at_word(512)];
    let roots = [Addr::at_word(524), Addr::at_word(532)];
    mark(alloc, &mut space, root.as_slice())?;
    let first = marks_of(&space);
    marking_law();
    mark(alloc, &mut space, roots.as_slice())?;
    Ok((first, marks_of(&space)))
}

// Worked by hand: 0 keeps the cycle alone, as its number isn't followed; nothing refers to 6.
#[test]
fn exactly_what_is_reached(rt: HostRuntime) -> Result<(), Fail> {
    let (first, second) = marked_twice(rt.alloc())?;
    assert_eq!(rt; first, [true, true, true, false, false, false, false]);
    assert_eq!(rt; second, [true, true, true, true, true, true, false]);
    Ok(())
}
