use super::*;
use sg_space::{Layout, Space};
use sg_words::Addr;
use std::test::Fail;

// A look over a lent space, where there is such a fragment.
fn look_at(space: &mut Space, f: u32, least: u32) -> Option<Looked> {
    if f >= space.fragments() {
        return None;
    }
    let mut port = PlainPort::new(space);
    Some(look(&mut port, f, least))
}

// A claim over a lent space, where it may be made.
fn claim_at(space: &mut Space, f: u32, seen: u64, want: u32, least: u32) -> Option<Claimed> {
    if f >= space.fragments() || least < 1 || want < least {
        return None;
    }
    let _ = Addr::of(seen)?;
    let limit = space.end_of(f) / 8;
    if limit >= 1 << 37 || seen / 8 + least as u64 > limit {
        return None;
    }
    let mut port = PlainPort::new(space);
    Some(claim(&mut port, f, seen, want, least))
}

// Worked by hand: a nursery of 256 words, from 4096 to 6144, is one fragment. A claim of 64 words takes 4096 to 4608; one that
// still believes in 4096 is lost to 4608, first with enough words left and then with 192, too few for 193; the last claim takes
// what is left.
#[test]
fn claims_of_one_fragment(rt: HostRuntime) -> Result<(), Fail> {
    let layout = Layout {
        nursery: 256,
        blocks: 1,
        pages: 0,
    };
    let mut space = Space::new(rt.alloc(), layout, &[])?;
    let start = Addr::of(4096).ok_or("an address")?;
    let end = Addr::of(4608).ok_or("an address")?;
    let last = Addr::of(6144).ok_or("an address")?;
    assert_eq!(rt;
        look_at(&mut space, 0, 256),
        Some(Looked::Ready { next: 4096 })
    );
    assert_eq!(rt;
        look_at(&mut space, 0, 257),
        Some(Looked::Small { rest: 256 })
    );
    assert_eq!(rt; look_at(&mut space, 1, 4), None);
    assert_eq!(rt;
        claim_at(&mut space, 0, 4096, 64, 4),
        Some(Claimed::Got { start, end })
    );
    assert_eq!(rt;
        claim_at(&mut space, 0, 4096, 64, 4),
        Some(Claimed::Moved { next: 4608 })
    );
    assert_eq!(rt;
        claim_at(&mut space, 0, 4096, 256, 193),
        Some(Claimed::Small { rest: 192 })
    );
    assert_eq!(rt;
        claim_at(&mut space, 0, 4608, 256, 192),
        Some(Claimed::Got {
            start: end,
            end: last
        })
    );
    assert_eq!(rt; look_at(&mut space, 0, 1), Some(Looked::Small { rest: 0 }));
    Ok(())
}
