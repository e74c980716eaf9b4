ghost use Rattle.std.specs.Prelude.{◌≡◌, true, length};
ghost use Rattle.sg_words.specs.Blocks.{IsSizeClass};
ghost use Rattle.sg_space.specs.Space.{words_of};
ghost use Rattle.sg_slots.specs.Claims.{IsSettled};

use crate::*;
use sg_space::Space;
use sg_words::{BlockWord, Layout};
use std::test::Fail;

// Two blocks.
const LAYOUT: Layout = Layout {
    nursery: 256,
    blocks: 2,
    pages: 0,
};

// A claim in a space, where it may be made.
fn claim_at(space: &mut Space, size: u32) -> Option<(u32, u32)> {
    if !is_class(size) || !is_settled(space) {
        return None;
    }
    claim_in(space, size)
}

// Whether this is a size class.
fn is_class(size: u32) -> bool
    ensures { result ≡ true → IsSizeClass size }
{
    match size {
        4 => true,
        6 => true,
        8 => true,
        12 => true,
        16 => true,
        24 => true,
        32 => true,
        48 => true,
        64 => true,
        _ => false,
    }
}

// Whether no block is still to be swept.
fn is_settled(space: &Space) -> bool
    ensures { result ≡ true → IsSettled (words_of space.now) (length space.now.blocks) }
{
    let blocks = space.layout().blocks;
    for block in 0..blocks {
        match space.block(block) {
            BlockWord::Free => {}
            BlockWord::Swept { .. } => {}
            _ => return false,
        }
    }
    true
}

// A block's word and its occupancy, where there is such a block.
fn block_at(space: &Space, block: u32) -> Option<(BlockWord, u64)> {
    if block >= space.layout().blocks {
        return None;
    }
    Some((space.block(block), space.used(block)))
}

// The first `count` slots of this block are taken, where there is such a block.
fn take(space: &mut Space, block: u32, count: u32) {
    if block < space.layout().blocks && count < 64 {
        space.set_used(block, (1 << count) - 1);
    }
}

// Worked by hand: each size class and the last slot of it in a block. The first claim takes the first slot of a free block; where all but the last
// one are taken it takes that one; then the next block is taken.
#[test]
fn claims_of_each_class(rt: HostRuntime) -> Result<(), Fail> {
    for case in [
        (4, 63),
        (6, 41),
        (8, 31),
        (12, 20),
        (16, 15),
        (24, 9),
        (32, 7),
        (48, 4),
        (64, 3),
    ] {
        let (size, last) = case;
        let swept = BlockWord::Swept { size };
        let mut space = Space::new(rt.alloc(), LAYOUT, &[])?;
        assert_eq!(rt; claim_at(&mut space, size), Some((0, 0)));
        assert_eq!(rt; block_at(&space, 0), Some((swept, 1)));
        take(&mut space, 0, last);
        assert_eq!(rt; claim_at(&mut space, size), Some((0, last)));
        assert_eq!(rt; block_at(&space, 1), Some((BlockWord::Free, 0)));
        assert_eq!(rt; claim_at(&mut space, size), Some((1, 0)));
        assert_eq!(rt; block_at(&space, 1), Some((swept, 1)));
    }
    Ok(())
}

// Worked by hand: a block of another size is passed over, though it has slots; where none of the size has one and none is free there is none.
#[test]
fn another_size_is_passed(rt: HostRuntime) -> Result<(), Fail> {
    let mut space = Space::new(rt.alloc(), LAYOUT, &[])?;
    assert_eq!(rt; claim_at(&mut space, 64), Some((0, 0)));
    assert_eq!(rt; claim_at(&mut space, 12), Some((1, 0)));
    take(&mut space, 0, 3);
    assert_eq!(rt; claim_at(&mut space, 64), Some((0, 3)));
    assert_eq!(rt; claim_at(&mut space, 64), None);
    assert_eq!(rt; claim_at(&mut space, 12), Some((1, 1)));
    assert_eq!(rt; claim_at(&mut space, 4), None);
    assert_eq!(rt;
        block_at(&space, 0),
        Some((BlockWord::Swept { size: 64 }, 15))
    );
    assert_eq!(rt;
        block_at(&space, 1),
        Some((BlockWord::Swept { size: 12 }, 3))
    );
    Ok(())
}
