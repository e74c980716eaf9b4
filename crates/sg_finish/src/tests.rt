ghost use Rattle.std.specs.Prelude.{◌≡◌, ◌<◌, ℕ, true, length};
ghost use Rattle.sg_words.specs.Blocks.{IsSizeClass};
ghost use Rattle.sg_space.specs.Standing.{block_in};
ghost use Rattle.sg_finish.specs.Finishing.{IsSweepable};

use crate::*;
use sg_space::Space;
use sg_words::{Addr, BlockWord, Layout};
use std::test::Fail;

// Two blocks.
const LAYOUT: Layout = Layout {
    nursery: 256,
    blocks: 2,
    pages: 0,
};

// Whether this is a size class.
fn is_class(size: u32) -> bool
    ensures { result ≡ true → IsSizeClass size }
{
    match size {
        4 => true,
        6 => true,
        8 => true,
        12 => true,
        16 => true,
        24 => true,
        32 => true,
        48 => true,
        64 => true,
        _ => false,
    }
}

// Whether a block with this word may be swept.
fn is_sweepable(word: BlockWord) -> bool
    ensures { result ≡ true → IsSweepable word }
{
    match word {
        BlockWord::Free => true,
        BlockWord::Swept { .. } => true,
        BlockWord::Need { size } => is_class(size),
        BlockWord::Sweeping { .. } => false,
    }
}

// Whether each block may be swept.
fn are_sweepable(space: &Space) -> bool
    ensures { result ≡ true → (c : ℕ) → c < length space.now.blocks → IsSweepable (block_in space.now c) }
{
    let blocks = space.layout().blocks;
    for block in 0..blocks {
        if !is_sweepable(space.block(block)) {
            return false;
        }
    }
    true
}

// The sweep of a space, where it may be made.
fn finish_at(space: &mut Space) -> Option<u32> {
    if !are_sweepable(space) {
        return None;
    }
    Some(finish(space))
}

// The word of this block becomes one with this size, and its occupancy this mask; each of its words becomes 7.
fn begin(space: &mut Space, block: u32, word: BlockWord, used: u64) {
    if block < space.layout().blocks {
        space.set_block(block, word);
    }
    if block < space.layout().blocks {
        space.set_used(block, used);
    }
    for at in 0..256 {
        put(space, block, at, 7);
    }
}

// This slot of a block that is to be swept is marked.
fn mark(space: &mut Space, block: u32, size: u32, slot: u32) {
    if !is_class(size) || block >= space.layout().blocks || slot >= 256 / size {
        return;
    }
    if space.block(block) != (BlockWord::Need { size }) {
        return;
    }
    let first = space.layout().old_word() + 256 * block as u64 + size as u64 * slot as u64;
    space.set_marked(Addr::at_word(first), true);
}

// A word of a block is stored.
fn put(space: &mut Space, block: u32, at: u32, w: u64) {
    let layout = space.layout();
    if block < layout.blocks && at < 256 {
        space.write(
            Addr::at_word(layout.old_word() + 256 * block as u64 + at as u64),
            w,
        );
    }
}

// A word of a block.
fn word(space: &Space, block: u32, at: u32) -> Option<u64> {
    let layout = space.layout();
    if block >= layout.blocks || at >= 256 {
        return None;
    }
    Some(space.read(Addr::at_word(layout.old_word() + 256 * block as u64 + at as u64)))
}

// A block's word and its occupancy, where there is such a block.
fn block_at(space: &Space, block: u32) -> Option<(BlockWord, u64)> {
    if block >= space.layout().blocks {
        return None;
    }
    Some((space.block(block), space.used(block)))
}

// Worked by hand: four slots of 64 words, of which the first and the third are marked.
#[test]
fn two_of_four(rt: HostRuntime) -> Result<(), Fail> {
    let mut space = Space::new(rt.alloc(), LAYOUT, &[])?;
    begin(&mut space, 0, BlockWord::Need { size: 64 }, 15);
    mark(&mut space, 0, 64, 0);
    mark(&mut space, 0, 64, 2);
    assert_eq!(rt; finish_at(&mut space), Some(2));
    assert_eq!(rt;
        block_at(&space, 0),
        Some((BlockWord::Swept { size: 64 }, 5))
    );
    for at in [0, 63, 128, 191] {
        assert_eq!(rt; word(&space, 0, at), Some(7), "at {at}");
    }
    for at in [64, 127, 192, 255] {
        assert_eq!(rt; word(&space, 0, at), Some(0), "at {at}");
    }
    Ok(())
}

// Worked by hand: nothing is marked, or all is.
#[test]
fn all_or_nothing(rt: HostRuntime) -> Result<(), Fail> {
    let mut space = Space::new(rt.alloc(), LAYOUT, &[])?;
    begin(&mut space, 0, BlockWord::Need { size: 64 }, 15);
    begin(&mut space, 1, BlockWord::Need { size: 64 }, 15);
    for slot in 0..4 {
        mark(&mut space, 1, 64, slot);
    }
    assert_eq!(rt; finish_at(&mut space), Some(4));
    assert_eq!(rt; block_at(&space, 0), Some((BlockWord::Free, 0)));
    assert_eq!(rt;
        block_at(&space, 1),
        Some((BlockWord::Swept { size: 64 }, 15))
    );
    for at in [0, 100, 255] {
        assert_eq!(rt; word(&space, 0, at), Some(0), "at {at}");
        assert_eq!(rt; word(&space, 1, at), Some(7), "at {at}");
    }
    Ok(())
}

// Worked by hand: a block has ten slots of 24 words, and 16 words behind the last one, which stay. The other block isn't to be swept, and stays.
#[test]
fn the_last_slot(rt: HostRuntime) -> Result<(), Fail> {
    let mut space = Space::new(rt.alloc(), LAYOUT, &[])?;
    begin(&mut space, 0, BlockWord::Swept { size: 24 }, 1023);
    begin(&mut space, 1, BlockWord::Need { size: 24 }, 1023);
    mark(&mut space, 1, 24, 9);
    mark(&mut space, 1, 24, 10);
    assert_eq!(rt; finish_at(&mut space), Some(9));
    assert_eq!(rt;
        block_at(&space, 0),
        Some((BlockWord::Swept { size: 24 }, 1023))
    );
    assert_eq!(rt;
        block_at(&space, 1),
        Some((BlockWord::Swept { size: 24 }, 512))
    );
    for at in [0, 23, 24, 215] {
        assert_eq!(rt; word(&space, 0, at), Some(7), "at {at}");
        assert_eq!(rt; word(&space, 1, at), Some(0), "at {at}");
    }
    for at in [216, 239, 240, 255] {
        assert_eq!(rt; word(&space, 1, at), Some(7), "at {at}");
    }
    Ok(())
}

// A block that is being swept may not be swept by another actor.
#[test]
fn none_is_being_swept(rt: HostRuntime) -> Result<(), Fail> {
    let mut space = Space::new(rt.alloc(), LAYOUT, &[])?;
    begin(&mut space, 1, BlockWord::Sweeping { size: 24 }, 0);
    assert_eq!(rt; finish_at(&mut space), None);
    Ok(())
}
