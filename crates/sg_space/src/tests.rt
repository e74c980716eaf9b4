ghost use Rattle.sg_space.specs.Standing.{IsSound};

use crate::*;
use sg_desc::{Descriptor, Shape};
use sg_words::{Addr, BlockWord, List};
use std::alloc::{AllocError, Global};
use std::test::Fail;

#[derive(Drop)]
struct Found {
    told: List<Object>,
    last_byte: Option<Addr>,
    free_byte: Option<Addr>,
    second: Option<Object>,
    inside: Option<Object>,
}

fn look(alloc: Global, space: &Space) -> Result<Found, AllocError>
    requires { IsSound space.now }
{
    Ok(Found {
        told: space.walk_nursery(alloc)?,
        last_byte: space.containing(4127),
        free_byte: space.containing(4160),
        second: space.object_at(Addr::at_word(516)),
        inside: space.object_at(Addr::at_word(514)),
    })
}

// Worked values from outside: two objects of two fields each at the nursery's front.
#[test]
fn two_objects(rt: HostRuntime) -> Result<(), Fail> {
    let layout = Layout {
        nursery: 256,
        blocks: 1,
        pages: 0,
    };
    let shapes = [Shape {
        fields: 2,
        kind: Descriptor::PtrFree,
    }];
    let first = Addr::at_word(512);
    let second = Addr::at_word(516);
    let mut space = Space::new(rt.alloc(), layout, shapes.as_slice())?;
    space.set_next(0, 4160);
    space.write(first.plus(1), 2);
    space.write(first, 8);
    space.write(second.plus(1), 2);
    space.write(second, 8);
    let found = look(rt.alloc(), &space)?;
    let told = found.told.into_vec();
    let one = Object {
        at: first,
        class: 0,
        fields: 2,
        words: 4,
    };
    let two = Object {
        at: second,
        class: 0,
        fields: 2,
        words: 4,
    };
    assert_eq!(rt; told.len(), 2);
    assert_eq!(rt; told[0], one);
    assert_eq!(rt; told[1], two);
    assert_eq!(rt; found.last_byte, Some(first));
    assert_eq!(rt; found.free_byte, None);
    assert_eq!(rt; found.second, Some(two));
    assert_eq!(rt; found.inside, None);
    Ok(())
}

// Blocks 0 and 1 are full of slots of 64 words, block 2 has slots of 4: a search for 64 words passes over them, and comes back to one that
// changes; a search for 4 words passes over the first two alone.
#[test]
fn passed_blocks(rt: HostRuntime) -> Result<(), Fail> {
    let layout = Layout {
        nursery: 256,
        blocks: 5,
        pages: 0,
    };
    let mut space = Space::new(rt.alloc(), layout, [].as_slice())?;
    space.set_block(0, BlockWord::Swept { size: 64 });
    space.set_used(0, 15);
    space.set_block(1, BlockWord::Swept { size: 64 });
    space.set_used(1, 7);
    space.set_block(2, BlockWord::Swept { size: 4 });
    let before = space.pass_over(64, 0);
    let occupied = space.occupy(1, 3);
    let passed = space.pass_over(64, 0);
    let small = space.pass_over(4, 0);
    let behind = space.pass_over(64, 4);
    space.set_used(1, 14);
    let freed = space.pass_over(64, 0);
    space.set_used(1, 15);
    space.set_block(3, BlockWord::Swept { size: 64 });
    let last = space.pass_over(64, 0);
    space.set_used(3, 15);
    let free = space.pass_over(64, 0);
    space.set_block(0, BlockWord::Need { size: 64 });
    let owed = space.pass_over(64, 0);
    assert_eq!(rt; before, 1);
    assert_eq!(rt; occupied, 7);
    assert_eq!(rt; passed, 3);
    assert_eq!(rt; small, 2);
    assert_eq!(rt; behind, 4);
    assert_eq!(rt; freed, 1);
    assert_eq!(rt; last, 3);
    assert_eq!(rt; free, 4);
    assert_eq!(rt; owed, 0);
    Ok(())
}
