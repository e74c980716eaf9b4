//! The claim of a slot in a space that nothing else has meanwhile.
#![tactic(auto)]

ghost use Rattle.std.specs.Prelude.{◌≡◌, length};
ghost use Rattle.sg_words.specs.Words.{Saw};
ghost use Rattle.sg_words.specs.Blocks.{IsSizeClass};
ghost use Rattle.sg_space.specs.Space.{words_of};
ghost use Rattle.sg_frag.specs.Plain.{Led};
ghost use Rattle.sg_slots.specs.Claims.{IsSettled, Claims};

#[cfg(test)]
mod tests;

use sg_frag::PlainPort;
use sg_slots::claim_slot;
use sg_space::Space;

/// Claims the lowest clear slot of `size` words of the first block that is free or swept of this size and not full: the block and the slot. `None`
/// exactly where each block is of another size or full. No block may be still to be swept. Linear in the blocks.
pub fn claim_in(space: &mut Space, size: u32) -> Option<(u32, u32)>
    requires class { IsSizeClass size }
    requires settled { IsSettled (words_of space.old) (length space.old.blocks) }
    ensures { Claims Led (λ s t. Saw (words_of s) t) size (length space.old.blocks) space.old space.new result }
{
    // That there is an occupancy for each block stands in what the layout ensures.
    let _ = space.layout();
    let mut port = PlainPort::new(space);
    claim_over(&mut port, size)
}

/// The same over the port's space.
fn claim_over(port: &mut PlainPort<'_>, size: u32) -> Option<(u32, u32)>
    requires class { IsSizeClass size }
    requires whole { length port.old.space.now.used ≡ length port.old.space.now.blocks }
    requires settled { IsSettled (words_of port.old.space.now) (length port.old.space.now.blocks) }
    ensures same { port.new.space.ghost_name ≡ port.old.space.ghost_name }
    ensures claims { Claims Led (λ s t. Saw (words_of s) t) size (length port.old.space.now.blocks) port.old.space.now port.new.space.now result }
{
    claim_slot(port, size)
}
