// What finds no slot in the blocks of the major heap.
ghost use Rattle.std.specs.Prelude.{◌≡◌, ◌↔◌, true, length, IfOk, MatchOption};
ghost use Rattle.std.specs.List.{AllByRecursion};
ghost use Rattle.sg_words.specs.Blocks.{IsSizeClass};
ghost use Rattle.sg_program.specs.declared.program.Program.{Program};
ghost use Rattle.sg_graph.specs.Graph.{Graph};
ghost use Rattle.sg_graph.specs.Book.{Book};
ghost use Rattle.sg_graph.specs.Laws.{LacksSlots, IsClearAt, HasNoClear};
ghost use Rattle.sg_space.specs.Space.{IsContents};
ghost use Rattle.sg_space.specs.Standing.{block_in, used_in};
ghost use Rattle.sg_heap.specs.Holding.{HoldsHeap};
ghost use Rattle.sg_room.specs.Slots.{IsFirstClear, HasNoneClear};

use sg_blocks::slots;
use sg_space::Space;
use sg_words::{BlockWord, first_clear};
use std::alloc::{AllocError, Global};

/// A slot of a block.
#[derive(Clone, Copy)]
struct Position {
    block: usize,
    slot: u32,
}

/// Whether giving each of these sizes in turn the lowest clear slot of the first block that is free or has such slots finds no slot
/// for one. The space stays as it is. Where no size is asked for it takes no memory and looks at no block; else it takes memory
/// for the blocks, and is linear in the blocks for each size.
pub fn lacks_slots(alloc: Global, space: &Space, sizes: &[u32]) -> Result<bool, AllocError>
    requires classes { AllByRecursion IsSizeClass sizes.now }
    ensures told { IfOk result (λ lacks. (p : Program) (g : Graph) (b : Book) → HoldsHeap p space.now g b →
        (lacks ≡ true) ↔ LacksSlots p.config.blocks (block_in space.now) (used_in space.now) sizes.now) }
{
    if sizes.is_empty() {
        return Ok(false);
    }
    let mut words = block_words(alloc, space)?;
    let mut used = occupancies(alloc, space)?;
    for size in sizes {
        match first_slot(&words, &used, *size) {
            Some(at) => {
                words[at.block] = BlockWord::Swept { size: *size };
                used[at.block] |= 1 << at.slot;
            }
            None => return Ok(true),
        }
    }
    Ok(false)
}

/// The words of the blocks. Linear in them.
fn block_words(alloc: Global, space: &Space) -> Result<Vec<BlockWord>, AllocError>
    ensures words { IfOk result (λ words. words.items ≡ space.now.blocks) }
    ensures contents { IsContents space.now }
{
    let mut words = Vec::new(alloc);
    for block in 0..space.layout().blocks {
        words.push(space.block(block))?;
    }
    Ok(words)
}

/// The occupancies of the blocks. Linear in them.
fn occupancies(alloc: Global, space: &Space) -> Result<Vec<u64>, AllocError>
    ensures { IfOk result (λ used. used.items ≡ space.now.used) }
{
    let mut used = Vec::new(alloc);
    for block in 0..space.layout().blocks {
        used.push(space.used(block))?;
    }
    Ok(used)
}

/// The lowest clear slot of `size` words in the first block that has one, where these are the blocks' words and their occupancies.
/// `None` where no block has one. Linear in the blocks.
fn first_slot(words: &[BlockWord], used: &[u64], size: u32) -> Option<Position>
    requires class { IsSizeClass size }
    requires as_many { length words.now ≡ length used.now }
    ensures { MatchOption result (HasNoneClear words.now used.now size) (λ at. IsFirstClear words.now used.now size at.block at.slot) }
{
    for block in 0..words.len() {
        if let Some(slot) = clear_slot(words[block], used[block], size) {
            return Some(Position { block, slot });
        }
    }
    None
}

/// The lowest clear slot of a block with this word and this occupancy, where it is free or has slots of `size` words.
fn clear_slot(word: BlockWord, used: u64, size: u32) -> Option<u32>
    requires class { IsSizeClass size }
    ensures { MatchOption result (HasNoClear word used size) (λ slot. IsClearAt word used size slot) }
{
    if word == BlockWord::Free || word == (BlockWord::Swept { size }) {
        return first_clear(used, slots(size));
    }
    None
}
