use crate::{lacks_room, lacks_slots, lacks_words};
use sg_space::{Layout, Space};
use sg_words::{Addr, BlockWord, Piece};
use std::test::Fail;

// Worked by hand: a fragment of 64 words and one of 70, so 64 words find room in the first, then in the second, then nowhere.
#[test]
fn two_fragments(rt: HostRuntime) -> Result<(), Fail> {
    let layout = Layout {
        nursery: 256,
        blocks: 1,
        pages: 0,
    };
    let pieces = [
        Piece::Frag {
            at: Addr::at_word(512),
            words: 64,
        },
        Piece::Frag {
            at: Addr::at_word(600),
            words: 70,
        },
    ];
    let mut space = Space::new(rt.alloc(), layout, &[])?;
    space.set_fragments(&pieces);
    assert!(rt; !lacks_words(rt.alloc(), &space, &[])?);
    assert!(rt; !lacks_words(rt.alloc(), &space, &[64, 64])?);
    assert!(rt; lacks_words(rt.alloc(), &space, &[64, 64, 64])?);
    assert!(rt; !lacks_words(rt.alloc(), &space, &[6, 64, 58])?);
    assert!(rt; lacks_words(rt.alloc(), &space, &[6, 64, 59])?);
    assert!(rt; lacks_words(rt.alloc(), &space, &[71, 1])?);
    Ok(())
}

// Worked by hand: the first block has slots of four words, of which the last one alone is clear; the other block is free. A size takes the other
// one where the first has no slot for it, and no other size has a slot there from then on.
#[test]
fn two_blocks(rt: HostRuntime) -> Result<(), Fail> {
    let layout = Layout {
        nursery: 256,
        blocks: 2,
        pages: 0,
    };
    let mut space = Space::new(rt.alloc(), layout, &[])?;
    space.set_block(0, BlockWord::Swept { size: 4 });
    space.set_used(0, u64::MAX >> 1);
    assert!(rt; !lacks_slots(rt.alloc(), &space, &[])?);
    assert!(rt; lacks_slots(rt.alloc(), &space, &[4, 4, 6])?);
    assert!(rt; lacks_slots(rt.alloc(), &space, &[6, 4, 4])?);
    assert!(rt; !lacks_slots(rt.alloc(), &space, &[4, 6])?);
    assert!(rt; !lacks_slots(rt.alloc(), &space, &[6, 4])?);
    assert!(rt; !lacks_slots(rt.alloc(), &space, &[6, 6])?);
    assert!(rt; lacks_slots(rt.alloc(), &space, &[6, 8])?);
    assert!(rt; !lacks_slots(rt.alloc(), &space, &[64, 64, 64, 64, 4])?);
    assert!(rt; lacks_slots(rt.alloc(), &space, &[64, 64, 64, 64, 64])?);
    assert!(rt; lacks_room(rt.alloc(), &space, &[256], &[6, 8])?);
    assert!(rt; !lacks_room(rt.alloc(), &space, &[256], &[6, 4])?);
    assert!(rt; lacks_room(rt.alloc(), &space, &[257], &[6, 4])?);
    Ok(())
}
