ghost use Rattle.std.specs.Prelude.{◌≡◌, ℕ, ◌<◌, ◌≤◌, IfOk, length};
ghost use Rattle.std.specs.Int.{bit_at};
ghost use Rattle.sg_program.specs.declared.program.Program.{Program};
ghost use Rattle.sg_graph.specs.Graph.{Graph};
ghost use Rattle.sg_graph.specs.Book.{Book};
ghost use Rattle.sg_graph.specs.Invariants.{IsPlain};
ghost use Rattle.sg_space.specs.Space.{IsContents};
ghost use Rattle.sg_space.specs.Standing.{used_in, marks_in};
ghost use Rattle.sg_heap.specs.Holding.{HoldsHeap, OwesNothing};
ghost use Rattle.sg_nursery.specs.Pieces.{AreStanding};
ghost use Rattle.sg_major.specs.Law.{HasCollected};
ghost use Rattle.sg_major.specs.Parts.{CollectsSome, HasNoBuffer, IsUnmarked, OwesBlocks, HasTraced, HasFinished};

use crate::counts::{marked_slots, occupied_slots};
use crate::law::major_law;
use crate::nursery::{find_marked, sift};
use crate::roots::roots_of;
use sg_graph::{MajorReport, quiet_pause};
use sg_heap::front_law;
use sg_mark::mark;
use sg_nursery::build;
use sg_space::{Object, Space, placing_law};
use sg_words::{BlockWord, List};
use std::alloc::{AllocError, Global};

/// A major pause with these ambiguous words. Of the objects of all sections it keeps those that a word points into, those that globals hold,
/// and all to which the strong fields of these lead. Nothing moves. The nursery is zero but for what is kept, and its gaps of
/// 32 words or more are the fragments from now on. Each block in which something stood is left to be swept: what isn't kept in it is still
/// in its words, and its marks tell what is.
///
/// Takes time linear in the words of the nursery that aren't the rest of a fragment, the fragments, the blocks and the words of what is kept, and
/// the time of a sort of the ambiguous words. Takes memory for the young objects, the ambiguous words and the roots, and 4 bytes for each word of the
/// nursery, the blocks and the pages. Where memory runs out the space is lost.
pub fn major(
    alloc: Global,
    space: Space,
    ambiguous: &[u64],
) -> Result<(Space, MajorReport), AllocError>
    requires some { CollectsSome space }
    ensures collected { IfOk result (λ r. (p : Program) (g : Graph) (b : Book) → HoldsHeap p space g b → IsPlain p g → OwesNothing p b → HasNoBuffer b → HasCollected p g b ambiguous.now r.0 r.1) }
    ensures contents { IfOk result (λ r. IsContents r.0) }
    ensures stop { IfOk result (λ r. r.0.stop ≡ space.stop) }
    ensures layout { IfOk result (λ r. r.0.layout ≡ space.layout) }
    ensures shapes { IfOk result (λ r. r.0.shapes ≡ space.shapes) }
{
    // The laws: these calls do nothing.
    major_law();
    front_law();
    quiet_pause();
    placing_law();
    let traced = trace(alloc, space, ambiguous)?;
    finish(alloc, traced)
}

/// A pause behind marking.
#[derive(Drop)]
struct Traced {
    /// The space, in which exactly what is kept is marked.
    space: Space,
    /// The objects that stood in the nursery, by address.
    told: List<Object>,
}

// Marks what the roots reach.
fn trace(alloc: Global, space: Space, ambiguous: &[u64]) -> Result<Traced, AllocError>
    requires some { CollectsSome space }
    ensures traced { IfOk result (λ traced. HasTraced space ambiguous.now traced.told traced.space) }
    ensures before { IfOk result (λ _. IsContents space) }
    ensures contents { IfOk result (λ traced. IsContents traced.space) }
{
    // The law: this call does nothing.
    front_law();
    let mut space = space;
    unmark(&mut space);
    let told = space.walk_nursery(alloc)?;
    let roots = roots_of(alloc, &space, ambiguous, told.as_slice())?;
    mark(alloc, &mut space, &roots)?;
    let _layout = space.layout();
    Ok(Traced { space, told })
}

// Takes the marks of all blocks away.
fn unmark(space: &mut Space)
    ensures unmarked { IsUnmarked space.old space.new }
    ensures contents { IsContents space.old }
{
    for b in 0..space.layout().blocks {
        space.clear_marks(b);
    }
}

// Counts what is kept, sweeps the nursery, makes its gaps the fragments, and leaves the blocks to be swept.
fn finish(alloc: Global, traced: Traced) -> Result<(Space, MajorReport), AllocError>
    requires contents { IsContents traced.space }
    requires standing { AreStanding traced.space.layout traced.told }
    requires occupied { (c i : ℕ) → bit_at (marks_in traced.space c) i ≡ 1 → bit_at (used_in traced.space c) i ≡ 1 }
    ensures finished { IfOk result (λ r. HasFinished traced.space traced.told r.0 r.1) }
    ensures contents { IfOk result (λ r. IsContents r.0) }
{
    let mut space = traced.space;
    let standing = find_marked(alloc, &space, traced.told.as_slice())?;
    let stood = traced.told.as_slice().len() as u32 + occupied_slots(&space);
    let kept = standing.len() as u32 + marked_slots(&space);
    sift(&mut space, traced.told.as_slice());
    let pieces = build(alloc, &space, &standing)?;
    space.set_fragments(pieces.as_slice());
    owe(&mut space);
    Ok((
        space,
        MajorReport {
            kept,
            freed: stood - kept,
            pieces,
        },
    ))
}

// Leaves each swept block to be swept again.
fn owe(space: &mut Space)
    ensures owes { OwesBlocks space.old space.new }
    ensures contents { IsContents space.new }
{
    for b in 0..space.layout().blocks {
        if let BlockWord::Swept { size } = space.block(b) {
            space.set_block(b, BlockWord::Need { size });
        }
    }
}
