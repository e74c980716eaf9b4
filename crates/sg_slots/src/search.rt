ghost use Rattle.std.specs.Prelude.{◌≡◌, ◌≤◌, ◌<◌, ◌^◌, ℕ, List, MatchOption, Option};
ghost use Rattle.std.specs.Int.{bit_at};
ghost use Rattle.sg_words.specs.declared.steps.Step.{Step};
ghost use Rattle.sg_words.specs.Words.{Words};
ghost use Rattle.sg_words.specs.Blocks.{IsSizeClass};
ghost use Rattle.sg_cells.specs.Made.{Makes};
ghost use Rattle.sg_slots.specs.Looks.{IsFull, IsLowest, AreLooks, MayLook};
ghost use Rattle.sg_slots.specs.Claims.{ShowsGrowing, IsSettled, MayClaim, Claims};

use sg_blocks::slots;
use sg_cells::BlockPort;
use sg_words::BlockWord;

/// What a search for a slot finds.
#[derive(Clone, Copy, Debug, PartialEq, Eq)]
pub enum Found {
    /// This block was seen free.
    Free { block: u32 },
    /// This slot of this block is the lowest one that was seen clear.
    Slot { block: u32, slot: u32 },
    /// No block from the first one on was seen free, and none has a clear slot of this size.
    None,
}

/// Looks for a slot of `size` words, from this block on: at the first block that is seen free, or that is seen swept of this size with a clear
/// slot. Loads alone: one for each block that it passes over, and one more for each that has slots of this size.
pub fn find<P: BlockPort>(port: &mut P, size: u32, from: u32) -> Found
    requires class { IsSizeClass size }
    requires may { MayLook P.leads P.sees P.may size (P.blocks port.old) from port.old }
    ensures { (es : List Step) × Makes P.leads P.sees port.old es port.new × AreLooks size (P.blocks port.old) from es result }
{
    let slots = slots(size);
    let blocks = port.blocks();
    for block in from..blocks {
        let word = port.block(block);
        if word == BlockWord::Free {
            return Found::Free { block };
        }
        if word == (BlockWord::Swept { size }) {
            if let Some(slot) = lowest_clear(port.used(block), slots) {
                return Found::Slot { block, slot };
            }
        }
    }
    Found::None
}

/// Claims the lowest clear slot of `size` words of the first block that is free or swept of this size and not full: the block and the slot.
/// `None` exactly where each block was seen of another size or full. It makes each exchange at once, and looks at that block again after a lost
/// one, or one of a block's word. Linear in the blocks.
pub fn claim_slot<P: BlockPort>(port: &mut P, size: u32) -> Option<(u32, u32)>
    requires class { IsSizeClass size }
    requires may { MayClaim P.leads P.sees P.may size (P.blocks port.old) port.old }
    requires shows { (known : P → Words) × ShowsGrowing P.leads P.sees size (P.blocks port.old) known × IsSettled (known port.old) (P.blocks port.old) }
    ensures { Claims P.leads P.sees size (P.blocks port.old) port.old port.new result }
{
    let mut from = 0;
    // 0 where nothing is known of block `from`; else it is known to be swept, and so many bits less one are known to be set.
    let mut known = 0;
    loop {
        match find(port, size, from) {
            Found::None => return None,
            Found::Free { block } => {
                let _ = port.swap_block(block, BlockWord::Free, BlockWord::Swept { size });
                from = block;
                known = 1;
            }
            Found::Slot { block, slot } => {
                let found = port.take_slot(block, slot);
                if (found >> slot) & 1 == 0 {
                    return Some((block, slot));
                }
                from = block;
                known = slot + 2;
            }
        }
    }
}

/// The lowest clear bit of the first `slots` ones; `None` exactly where all are set.
#[inline]
pub fn lowest_clear(used: u64, slots: u32) -> Option<u32>
    requires { slots ≤ 64 }
    ensures { MatchOption result (IsFull used slots) (IsLowest used slots) }
{
    if used == u64::MAX {
        return None;
    }
    let slot = used.trailing_ones();
    if slot < slots { Some(slot) } else { None }
}
