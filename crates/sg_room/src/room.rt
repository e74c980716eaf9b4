ghost use Rattle.std.specs.Prelude.{◌≡◌, ◌↔◌, ◌⊎◌, true, IfOk};
ghost use Rattle.std.specs.List.{AllByRecursion};
ghost use Rattle.sg_words.specs.Blocks.{IsSizeClass};
ghost use Rattle.sg_program.specs.declared.program.Program.{Program};
ghost use Rattle.sg_graph.specs.Graph.{Graph};
ghost use Rattle.sg_graph.specs.Book.{Book};
ghost use Rattle.sg_graph.specs.Laws.{LacksWords, LacksSlots};
ghost use Rattle.sg_space.specs.Standing.{block_in, used_in};
ghost use Rattle.sg_heap.specs.Holding.{HoldsHeap};

use crate::slots::lacks_slots;
use crate::words::lacks_words;
use sg_space::Space;
use std::alloc::{AllocError, Global};

/// Whether giving each of these numbers of words in turn at the front of the lowest fragment that has them finds no room for
/// one, or giving each of these sizes in turn the lowest clear slot of the first block that has one finds no slot for one. The
/// space stays as it is. Takes memory for the fragments, and for the blocks where some size is asked for; linear in the
/// fragments for each number, and in the blocks for each size.
pub fn lacks_room(
    alloc: Global,
    space: &Space,
    needs: &[u32],
    sizes: &[u32],
) -> Result<bool, AllocError>
    requires classes { AllByRecursion IsSizeClass sizes.now }
    ensures told { IfOk result (λ lacks. (p : Program) (g : Graph) (b : Book) → HoldsHeap p space.now g b →
        (lacks ≡ true) ↔
        (LacksWords b.fragments b.limit b.next needs.now ⊎ LacksSlots p.config.blocks (block_in space.now) (used_in space.now) sizes.now)) }
{
    let words = lacks_words(alloc, space, needs)?;
    if words {
        return Ok(true);
    }
    lacks_slots(alloc, space, sizes)
}
