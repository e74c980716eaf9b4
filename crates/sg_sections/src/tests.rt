ghost use Rattle.std.specs.Prelude.{◌≡◌, ◌+◌, ◌<◌, ◌≤◌, IfOk, slice_set};
ghost use Rattle.sg_words.specs.Sections.{words_end};
ghost use Rattle.sg_sections.specs.Parts.{HoldsSwept};

use crate::sections;
use sg_desc::{Descriptor, Shape};
use sg_graph::BlockLine;
use sg_space::{Layout, Space};
use sg_words::{Addr, BlockWord};
use std::alloc::{AllocError, Global};
use std::test::Fail;

// The object of three fields whose first word is `x`.
fn put(space: &mut Space, x: u64)
    requires above { 512 ≤ x }
    requires below { x + 1 < words_end space.old.layout }
    ensures { space.new ≡ record space.old { words = slice_set (slice_set space.old.words (x + 1) 3) x 8 } }
{
    let _layout = space.layout();
    space.write(Addr::at_word(x + 1), 3);
    space.write(Addr::at_word(x), 8);
}

// Objects of five words: two at the front of the nursery, and two in the first and the third slot of the second block, whose slots have six
// words.
fn two_and_two(alloc: Global) -> Result<Space, AllocError>
    ensures { IfOk result HoldsSwept }
{
    let layout = Layout {
        nursery: 256,
        blocks: 2,
        pages: 0,
    };
    let shapes = [Shape {
        fields: 3,
        kind: Descriptor::PtrFree,
    }];
    let mut space = Space::new(alloc, layout, shapes.as_slice())?;
    space.set_next(0, 4176);
    space.set_block(1, BlockWord::Swept { size: 6 });
    space.set_used(1, 5);
    put(&mut space, 512);
    put(&mut space, 517);
    put(&mut space, 1024);
    put(&mut space, 1036);
    Ok(space)
}

// The block in which nothing stands isn't told of.
#[test]
fn sections_of_four_objects(rt: HostRuntime) -> Result<(), Fail> {
    let space = two_and_two(rt.alloc())?;
    let told = sections(rt.alloc(), &space)?;
    let blocks = told.blocks.into_vec();
    let line = BlockLine {
        block: 1,
        size: 6,
        used: 2,
    };
    assert_eq!(rt; told.young, 2);
    assert_eq!(rt; told.young_words, 10);
    assert_eq!(rt; blocks.len(), 1);
    assert_eq!(rt; blocks[0], line);
    Ok(())
}
