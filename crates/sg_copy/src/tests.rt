use crate::*;
use sg_desc::{Descriptor, Shape};
use sg_space::{Layout, Space};
use sg_words::Addr;
use std::test::Fail;

// Worked values from outside: an object of one plain field at the nursery's front, to which one global refers, goes to the first slot
// of the first block.
#[test]
fn one_object_moves(rt: HostRuntime) -> Result<(), Fail> {
    let layout = Layout {
        nursery: 256,
        blocks: 1,
        pages: 0,
    };
    let shapes = [Shape {
        fields: 1,
        kind: Descriptor::PtrFree,
    }];
    let mut space = Space::new(rt.alloc(), layout, shapes.as_slice())?;
    let object = Addr::at_word(512);
    let slot = layout.global(0);
    space.write(object, 8);
    space.write(object.plus(1), 1);
    space.write(slot, 4096);
    let slots = [slot];
    let wholes = [];
    let round = copy_one(rt.alloc(), space, slots.as_slice(), wholes.as_slice())?;
    let copy = Addr::at_word(768);
    assert_eq!(rt; round.moves.len(), 1);
    assert_eq!(rt; round.moves[0].from, object);
    assert_eq!(rt; round.moves[0].to, copy);
    assert_eq!(rt; round.fails.len(), 0);
    assert_eq!(rt; round.spares, 0);
    Ok(())
}
