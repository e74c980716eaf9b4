ghost use Rattle.std.specs.Prelude.{◌≡◌, ◌*◌, ◌<◌, ◌≤◌};
ghost use Rattle.sg_nursery.specs.Pieces.{AreStanding};

use crate::counts::{marked_slots, occupied_slots};
use crate::major;
use crate::nursery::{find_marked, sift};
use sg_space::{Layout, Object, Space};
use sg_words::{Addr, BlockWord, Piece};
use std::alloc::{AllocError, Global};
use std::test::Fail;

const LAYOUT: Layout = Layout {
    nursery: 256,
    blocks: 2,
    pages: 0,
};

// In a space without objects nothing is kept or freed, and the whole nursery is one fragment.
#[test]
fn a_pause_without_objects(rt: HostRuntime) -> Result<(), Fail> {
    let space = Space::new(rt.alloc(), LAYOUT, &[])?;
    let (space, report) = major(rt.alloc(), space, &[4096, 7])?;
    let front = Addr::of(4096).ok_or("an address")?;
    assert_eq!(rt; report.kept, 0);
    assert_eq!(rt; report.freed, 0);
    let pieces = report.pieces.into_vec();
    assert_eq!(rt; pieces.len(), 1);
    assert_eq!(rt;
        pieces[0],
        Piece::Frag {
            at: front,
            words: 256
        }
    );
    assert_eq!(rt; space.fragments(), 1);
    Ok(())
}

// An object of three words.
fn object_at(word: u64) -> Object
    requires from { 512 ≤ word }
    requires to { word < 768 }
    ensures { result ≡ record { at = 8 * word; class = 0; fields = 1; words = 3 } }
{
    Object {
        at: Addr::at_word(word),
        class: 0,
        fields: 1,
        words: 3,
    }
}

// Those of these objects that are marked, and the space without the others.
fn sifted(alloc: Global, space: Space, told: &[Object]) -> Result<(Vec<Object>, Space), AllocError>
    requires { AreStanding space.layout told.now }
{
    let mut space = space;
    let _ = space.layout();
    let standing = find_marked(alloc, &space, told)?;
    sift(&mut space, told);
    Ok((standing, space))
}

// Three objects from the nursery's first word on, of which the first and the third are marked.
#[test]
fn marked_objects_stay(rt: HostRuntime) -> Result<(), Fail> {
    let told = [object_at(512), object_at(515), object_at(518)];
    let mut space = Space::new(rt.alloc(), LAYOUT, &[])?;
    space.write(Addr::at_word(512), 8);
    space.write(Addr::at_word(514), 5);
    space.write(Addr::at_word(515), 8);
    space.write(Addr::at_word(517), 6);
    space.write(Addr::at_word(518), 8);
    space.set_marked(Addr::at_word(512), true);
    space.set_marked(Addr::at_word(518), true);
    let (standing, space) = sifted(rt.alloc(), space, &told)?;
    assert_eq!(rt; standing.len(), 2);
    assert_eq!(rt; standing[0].at, Addr::at_word(512));
    assert_eq!(rt; standing[1].at, Addr::at_word(518));
    assert_eq!(rt; space.read(Addr::at_word(512)), 8);
    assert_eq!(rt; space.read(Addr::at_word(514)), 5);
    assert_eq!(rt; space.read(Addr::at_word(515)), 0);
    assert_eq!(rt; space.read(Addr::at_word(517)), 0);
    assert_eq!(rt; space.read(Addr::at_word(518)), 8);
    Ok(())
}

// Two blocks with three occupied slots, the last slot of a block among them, and no mark.
#[test]
fn slots_are_counted(rt: HostRuntime) -> Result<(), Fail> {
    let mut space = Space::new(rt.alloc(), LAYOUT, &[])?;
    space.set_block(0, BlockWord::Swept { size: 4 });
    space.set_block(1, BlockWord::Swept { size: 64 });
    space.set_used(0, 1 << 63);
    space.set_used(1, 5);
    let _ = space.layout();
    assert_eq!(rt; occupied_slots(&space), 3);
    assert_eq!(rt; marked_slots(&space), 0);
    Ok(())
}
