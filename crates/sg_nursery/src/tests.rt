use crate::build;
use sg_space::{Layout, Object, Space};
use sg_words::{Addr, Piece};
use std::test::Fail;

// A nursery from word 512 to word 768, with objects at words 544 to 547 and 579 to 581: the gaps have 32, 31 and 186 words.
#[test]
fn gaps_of_a_nursery(rt: HostRuntime) -> Result<(), Fail> {
    let layout = Layout {
        nursery: 256,
        blocks: 1,
        pages: 0,
    };
    let first = Addr::of(4352).ok_or("an address")?;
    let second = Addr::of(4632).ok_or("an address")?;
    let standing = [
        Object {
            at: first,
            class: 0,
            fields: 2,
            words: 4,
        },
        Object {
            at: second,
            class: 1,
            fields: 1,
            words: 3,
        },
    ];
    let space = Space::new(rt.alloc(), layout, &[])?;
    let found = build(rt.alloc(), &space, &standing)?.into_vec();
    let front = Addr::of(4096).ok_or("an address")?;
    assert_eq!(rt; found.len(), 3);
    assert_eq!(rt;
        found[0],
        Piece::Frag {
            at: front,
            words: 32
        }
    );
    assert_eq!(rt;
        found[1],
        Piece::Waste {
            at: first.plus(4),
            words: 31
        }
    );
    assert_eq!(rt;
        found[2],
        Piece::Frag {
            at: second.plus(3),
            words: 186
        }
    );
    Ok(())
}
