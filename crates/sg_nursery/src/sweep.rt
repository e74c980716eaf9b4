ghost use Rattle.std.specs.Prelude.{◌≡◌, ℕ, ◌+◌, ◌<◌, ◌≤◌, ◌↔◌, IfOk, IfSome, IfNone, IsTrue, length, slice_index, [], ◌∷◌};
ghost use Rattle.std.specs.List.Sorted.{IsStrictlyIncreasing};
ghost use Rattle.sg_words.specs.Address.{byte_at, word_at};
ghost use Rattle.sg_words.specs.Sections.{nursery_base, old_base};
ghost use Rattle.sg_space.specs.Space.{IsContents};
ghost use Rattle.sg_space.specs.Standing.{word};
ghost use Rattle.sg_space.specs.Changes.{IsStill};
ghost use Rattle.sg_nursery.specs.Pieces.{first_word, word_behind};
ghost use Rattle.sg_nursery.specs.Parts.{AreRounded, AreStaying, AreKept, AreCleaned, blank, IsRounded, IsStaying, WentTo};

use sg_space::{Object, Space};
use sg_words::{Addr, FIRST_WORD, Move, Tag, forwarded_to, write_tag};
use std::alloc::{AllocError, Global};

/// What a round of copying has made of the objects of the nursery. Each list is by address.
#[derive(Drop)]
pub struct Kept {
    /// The objects that stay.
    pub standing: Vec<Object>,
    /// The objects that moved.
    pub moves: Vec<Move>,
    /// The objects that stay because there was no room for them.
    pub fails: Vec<Addr>,
}

/// After a round: tells the objects by what has become of them, gives what stays its plain tag again, and makes the words of
/// all others zero. `told` are the objects of the nursery as they stood before, `pins` those that are pinned by a word.
/// Linear in the words of the objects.
pub fn sweep(
    alloc: Global,
    space: &mut Space,
    told: &[Object],
    pins: &[Addr],
) -> Result<Kept, AllocError>
    requires contents { IsContents space.old }
    requires rounded { AreRounded space.old.layout (word space.old) told.now }
    requires pins { AreStaying (word space.old) told.now pins.now }
    ensures kept { IfOk result (λ kept. AreKept space.old.layout (word space.old) told.now pins.now kept.standing.items kept.moves.items kept.fails.items) }
    ensures cleaned { IfOk result (λ _. AreCleaned told.now (word space.old) (word space.new)) }
    ensures still { IfOk result (λ _. IsStill space.old space.new) }
{
    let kept = find_kept(alloc, space, told, pins)?;
    clean(space, told);
    Ok(kept)
}

// Tells the objects by what has become of them.
fn find_kept(
    alloc: Global,
    space: &Space,
    told: &[Object],
    pins: &[Addr],
) -> Result<Kept, AllocError>
    requires contents { IsContents space.now }
    requires rounded { AreRounded space.now.layout (word space.now) told.now }
    requires pins { AreStaying (word space.now) told.now pins.now }
    ensures { IfOk result (λ kept. AreKept space.now.layout (word space.now) told.now pins.now kept.standing.items kept.moves.items kept.fails.items) }
{
    let mut kept = Kept {
        standing: Vec::new(alloc),
        moves: Vec::new(alloc),
        fails: Vec::new(alloc),
    };
    let mut index = 0;
    for object in told {
        if stays(space, object) {
            kept.standing.push(*object)?;
            if is_next(pins, index, object.at) {
                index += 1;
            } else {
                kept.fails.push(object.at)?;
            }
        } else if let Some(to) = went_to(space, object) {
            kept.moves.push(Move {
                from: object.at,
                to,
            })?;
        }
    }
    Ok(kept)
}

// Whether this address is the one at the index.
fn is_next(pins: &[Addr], index: usize, at: Addr) -> bool
    ensures { IsTrue result ↔ ((index < length pins.now) × (slice_index pins.now index ≡ at)) }
{
    index < pins.len() && pins[index] == at
}

// Whether the object stays.
fn stays(space: &Space, object: &Object) -> bool
    requires within { (nursery_base ≤ first_word object.now) × (first_word object.now < old_base space.now.layout) }
    requires class { object.now.class < 256 }
    ensures { IsTrue result ↔ IsStaying (word space.now) object.now }
{
    space.read(object.at)
        == write_tag(Tag::Pinned {
            class: object.class,
        })
}

// Where the object went, if it did.
fn went_to(space: &Space, object: &Object) -> Option<Addr>
    requires within { (nursery_base ≤ first_word object.now) × (first_word object.now < old_base space.now.layout) }
    ensures some { IfSome result (WentTo (word space.now) object.now) }
    ensures none { IfNone result ((to : ℕ) → WentTo (word space.now) object.now to → ⊥) }
{
    forwarded_to(space.read(object.at))
}

/// A run ends before it has more words than these: the C library fills so many by plain stores, and more by an instruction that
/// valgrind counts once for each byte.
const LONGEST_RUN: u64 = 128;

/// The words of dead objects that stand one behind another, which are to become zero: from one word number to before another.
#[derive(Clone, Copy)]
struct Run {
    from: u64,
    to: u64,
}

// Gives what stays its plain tag again, and makes the words of all other objects zero: at once those of objects that stand
// one behind another.
fn clean(space: &mut Space, told: &[Object])
    requires contents { IsContents space.old }
    requires rounded { AreRounded space.old.layout (word space.old) told.now }
    ensures cleaned { AreCleaned told.now (word space.old) (word space.new) }
    ensures still { IsStill space.old space.new }
{
    let mut run = Run {
        from: FIRST_WORD,
        to: FIRST_WORD,
    };
    for object in told {
        run = clean_next(space, run, object);
    }
    clear(space, run);
}

// Cleans one more object, behind a run whose words are still to become zero; the answer is the run that is left behind it.
fn clean_next(space: &mut Space, run: Run, object: &Object) -> Run
    requires contents { IsContents space.old }
    requires from { nursery_base ≤ run.from }
    requires order { run.from ≤ run.to }
    requires below { run.to ≤ first_word object.now }
    requires class { object.now.class < 256 }
    requires some { 0 < object.now.words }
    requires whole { byte_at (first_word object.now) ≡ object.now.at }
    requires within { word_behind object.now ≤ old_base space.old.layout }
    ensures from { nursery_base ≤ result.from }
    ensures order { result.from ≤ result.to }
    ensures behind { result.to ≤ word_behind object.now }
    ensures cleaned { AreCleaned (object.now ∷ []) (blank run.from run.to (word space.old)) (blank result.from result.to (word space.new)) }
    ensures still { IsStill space.old space.new }
{
    if stays(space, object) {
        clear(space, run);
        space.write(
            object.at,
            write_tag(Tag::Plain {
                class: object.class,
            }),
        );
        return Run {
            from: run.to,
            to: run.to,
        };
    }
    let first = object.at.word();
    let to = first + object.words as u64;
    if first == run.to && to <= run.from + LONGEST_RUN {
        return Run { from: run.from, to };
    }
    clear(space, run);
    Run { from: first, to }
}

// Makes the words of a run zero.
fn clear(space: &mut Space, run: Run)
    requires contents { IsContents space.old }
    requires from { nursery_base ≤ run.from }
    requires order { run.from ≤ run.to }
    requires within { run.to ≤ old_base space.old.layout }
    ensures cleared { (y : ℕ) → word space.new y ≡ blank run.from run.to (word space.old) y }
    ensures still { IsStill space.old space.new }
{
    space.clear(Addr::at_word(run.from), run.to - run.from);
}
