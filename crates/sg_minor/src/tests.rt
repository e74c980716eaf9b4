use crate::{found_in, minor};
use sg_space::{Layout, Space};
use sg_words::{Addr, Piece};
use std::test::Fail;

// In a nursery without objects no word pins anything, and the whole nursery is one fragment.
#[test]
fn a_pause_without_objects(rt: HostRuntime) -> Result<(), Fail> {
    let layout = Layout {
        nursery: 256,
        blocks: 1,
        pages: 0,
    };
    let space = Space::new(rt.alloc(), layout, &[])?;
    let found = found_in(rt.alloc(), &space)?;
    let (space, report) = minor(rt.alloc(), space, &[4096, 7], found)?;
    let front = Addr::of(4096).ok_or("an address")?;
    assert_eq!(rt; report.pins.into_vec().len(), 0);
    assert_eq!(rt; report.moves.into_vec().len(), 0);
    assert_eq!(rt; report.fails.into_vec().len(), 0);
    let pieces = report.pieces.into_vec();
    assert_eq!(rt; pieces.len(), 1);
    assert_eq!(rt;
        pieces[0],
        Piece::Frag {
            at: front,
            words: 256
        }
    );
    assert_eq!(rt; space.fragments(), 1);
    Ok(())
}
