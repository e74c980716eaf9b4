// How many slots of the blocks are occupied, and how many are marked.

ghost use Rattle.std.specs.Prelude.{◌≡◌, ◌≤◌, ◌*◌, ◌^◌, ◌<◌};
ghost use Rattle.sg_space.specs.Space.{IsContents};
ghost use Rattle.sg_space.specs.Standing.{used_in, marks_in};
ghost use Rattle.sg_major.specs.Parts.{bits_below, bits_in};

use sg_space::Space;

/// How many slots of all blocks are occupied. Linear in the blocks.
pub(crate) fn occupied_slots(space: &Space) -> u32
    requires { IsContents space.now }
    ensures count { result ≡ bits_in (used_in space.now) space.now.layout.blocks }
    ensures few { result ≤ 262144 }
{
    let mut count = 0;
    for b in 0..space.layout().blocks {
        count += bits(space.used(b));
    }
    count
}

/// How many slots of all blocks are marked. Linear in the blocks.
pub(crate) fn marked_slots(space: &Space) -> u32
    requires { IsContents space.now }
    ensures count { result ≡ bits_in (marks_in space.now) space.now.layout.blocks }
    ensures few { result ≤ 262144 }
{
    let mut count = 0;
    for b in 0..space.layout().blocks {
        count += bits(space.marks(b));
    }
    count
}

// How many bits of the mask are set.
fn bits(mask: u64) -> u32
    ensures count { result ≡ bits_below mask 64 }
    ensures few { result ≤ 64 }
{
    mask.count_ones()
}
