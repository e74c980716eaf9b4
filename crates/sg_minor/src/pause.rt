ghost use Rattle.std.specs.Prelude.{◌≡◌, ℕ, IfOk};
ghost use Rattle.sg_program.specs.declared.program.Program.{Program};
ghost use Rattle.sg_graph.specs.Graph.{Graph};
ghost use Rattle.sg_graph.specs.Book.{Book};
ghost use Rattle.sg_graph.specs.Invariants.{IsPlain};
ghost use Rattle.sg_space.specs.Space.{IsContents};
ghost use Rattle.sg_space.specs.Standing.{word};
ghost use Rattle.sg_nursery.specs.Parts.{AreRounded, AreStaying};
ghost use Rattle.sg_heap.specs.Holding.{HoldsHeap, OwesNothing};
ghost use Rattle.sg_minor.specs.Joined.{AreFound};
ghost use Rattle.sg_minor.specs.Law.{HasPaused};
ghost use Rattle.sg_minor.specs.Parts.{HoldsSome, HasTraced, HasFinished};

use crate::join::join_law;
use crate::law::pause_law;
use crate::slots::first_slots;
use sg_cards::{Seed, Seeds, clean};
use sg_copy::copy_one;
use sg_graph::MinorReport;
use sg_heap::front_law;
use sg_nursery::build;
use sg_nursery::sweep::sweep;
use sg_nursery::tag::tag;
use sg_pins::pinned_among;
use sg_space::{Object, Space};
use sg_words::{Addr, List};
use std::alloc::{AllocError, Global};

/// A minor pause with these ambiguous words. Of the young objects it keeps those that a word points into, those to which
/// a global or an old object refers, and all to which these lead. What a word points into stays; each other one moves to the
/// lowest free slot of its size class, or fails and stays where no block has one. The nursery is zero but for what stays, and its gaps of
/// 32 words or more are the fragments from now on. Cards that aren't needed any more become clean.
///
/// `found` is what `seeds` gives for this space.
///
/// Takes time linear in the words of the nursery that aren't the rest of a fragment, the fragments, the seeds, the words of what is kept, the
/// blocks and the dirty cards, and the time of a sort of the ambiguous words. Where memory runs out the space is lost.
pub fn minor(
    alloc: Global,
    space: Space,
    ambiguous: &[u64],
    found: Seeds,
) -> Result<(Space, MinorReport), AllocError>
    requires some { HoldsSome space }
    requires found { AreFound space found }
    ensures paused { IfOk result (λ r. (p : Program) (g : Graph) (b : Book) → HoldsHeap p space g b → OwesNothing p b → IsPlain p g → HasPaused p g b ambiguous.now r.0 r.1) }
    ensures contents { IfOk result (λ r. IsContents r.0) }
    ensures stop { IfOk result (λ r. r.0.stop ≡ space.stop) }
    ensures layout { IfOk result (λ r. r.0.layout ≡ space.layout) }
    ensures shapes { IfOk result (λ r. r.0.shapes ≡ space.shapes) }
{
    // The laws: these calls do nothing.
    front_law();
    pause_law();
    join_law();
    let traced = trace(alloc, space, ambiguous, found.all())?;
    let (space, report) = finish(alloc, traced)?;
    let mut space = space;
    clean(&mut space);
    let _layout = space.layout();
    Ok((space, report))
}

/// A pause between its round of copying and its sweep.
#[derive(Drop)]
struct Traced {
    /// The space after the round. The first words of what stood in the nursery tell what has become of it.
    space: Space,
    /// The objects that stood in the nursery, by address.
    told: List<Object>,
    /// Those of them that an ambiguous word points into, by address.
    pins: List<Addr>,
}

// Finds what the pause begins from, and copies what it leads to.
fn trace(
    alloc: Global,
    space: Space,
    ambiguous: &[u64],
    seeds: &[Seed],
) -> Result<Traced, AllocError>
    requires some { HoldsSome space }
    requires found { AreFound space seeds.now }
    ensures traced { IfOk result (λ traced. HasTraced space ambiguous.now seeds.now traced.told traced.pins traced.space) }
    ensures before { IfOk result (λ _. IsContents space) }
{
    // The laws: these calls do nothing.
    front_law();
    join_law();
    let layout = space.layout();
    let told = space.walk_nursery(alloc)?;
    let pins = pinned_among(alloc, ambiguous, told.as_slice())?;
    let slots = first_slots(alloc, &space, layout, seeds)?;
    let mut space = space;
    tag(&mut space, pins.as_slice());
    let round = copy_one(alloc, space, &slots, pins.as_slice())?;
    Ok(Traced {
        space: round.space,
        told,
        pins,
    })
}

// Sweeps the nursery, and makes its gaps the fragments.
fn finish(alloc: Global, traced: Traced) -> Result<(Space, MinorReport), AllocError>
    requires contents { IsContents traced.space }
    requires rounded { AreRounded traced.space.layout (word traced.space) traced.told }
    requires pins { AreStaying (word traced.space) traced.told traced.pins }
    ensures finished { IfOk result (λ r. HasFinished traced.space traced.told traced.pins r.0 r.1) }
    ensures contents { IfOk result (λ r. IsContents r.0) }
{
    let mut space = traced.space;
    let kept = sweep(
        alloc,
        &mut space,
        traced.told.as_slice(),
        traced.pins.as_slice(),
    )?;
    let pieces = build(alloc, &space, &kept.standing)?;
    space.set_fragments(pieces.as_slice());
    Ok((
        space,
        MinorReport {
            pins: traced.pins,
            moves: List::from_vec(kept.moves),
            fails: List::from_vec(kept.fails),
            spares: 0,
            pieces,
        },
    ))
}
