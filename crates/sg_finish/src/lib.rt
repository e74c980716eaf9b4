//! The sweeping of all blocks of a space that nothing else has meanwhile.
#![tactic(auto)]

ghost use Rattle.std.specs.Prelude.{◌≡◌, ◌<◌, ◌≤◌, ℕ, length};
ghost use Rattle.sg_space.specs.Space.{IsContents};
ghost use Rattle.sg_space.specs.Standing.{block_in, marks_in};
ghost use Rattle.sg_space.specs.Swept.{HasSwept};
ghost use Rattle.sg_finish.specs.Finishing.{HasSweptOf, IsSweepable, freed_of, freed_below};

#[cfg(test)]
mod tests;

use sg_frag::PlainPort;
use sg_space::Space;
use sg_sweep::{Sweep, sweep_block};

/// Sweeps every block that is to be swept; the answer is how many slots became zero. Linear in the blocks, and in the words of those that are to be
/// swept. Takes no memory.
pub fn finish(space: &mut Space) -> u32
    requires { (c : ℕ) → c < length space.old.blocks → IsSweepable (block_in space.old c) }
    ensures swept { HasSwept space.old space.new }
    ensures freed { result ≡ freed_below space.old (length space.old.blocks) }
{
    let mut freed = 0;
    for block in 0..space.layout().blocks {
        freed += sweep_at(space, block);
    }
    freed
}

/// Sweeps this block where it is to be swept.
fn sweep_at(space: &mut Space, block: u32) -> u32
    requires there { block < length space.old.blocks }
    requires sweepable { IsSweepable (block_in space.old block) }
    ensures swept { HasSweptOf space.old (λ c. c ≡ block) space.new }
    ensures freed { result ≡ freed_of (block_in space.old block) (marks_in space.old block) }
    ensures few { result ≤ 64 }
{
    // That a space has the words of its blocks stands in what the layout ensures.
    let _ = space.layout();
    let mut port = PlainPort::new(space);
    sweep_over(&mut port, block)
}

/// The same over the port's space.
fn sweep_over(port: &mut PlainPort<'_>, block: u32) -> u32
    requires contents { IsContents port.old.space.now }
    requires there { block < length port.old.space.now.blocks }
    requires sweepable { IsSweepable (block_in port.old.space.now block) }
    ensures same { port.new.space.ghost_name ≡ port.old.space.ghost_name }
    ensures swept { HasSweptOf port.old.space.now (λ c. c ≡ block) port.new.space.now }
    ensures freed { result ≡ freed_of (block_in port.old.space.now block) (marks_in port.old.space.now block) }
    ensures few { result ≤ 64 }
{
    match sweep_block(port, block) {
        Sweep::Done { freed } => freed,
        Sweep::NotOwed { .. } => 0,
        Sweep::Lost { .. } => 0,
    }
}
