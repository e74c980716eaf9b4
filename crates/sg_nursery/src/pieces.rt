ghost use Rattle.std.specs.Prelude.{◌≡◌, ◌≤◌, ◌+◌, ◌*◌, ◌-◌, ◌/◌, ◌%◌, ◌^◌, ◌<◌, OnOk, IfOk, length};
ghost use Rattle.sg_words.specs.Address.{word_at};
ghost use Rattle.sg_words.specs.Sections.{IsLayout};
ghost use Rattle.sg_words.specs.Pieces.{IsPieceOf, fronts_of};
ghost use Rattle.sg_nursery.specs.Pieces.{AreStanding, ArePieces, IsGrown};

use sg_space::{Layout, Object, Space};
use sg_words::{Addr, List, Piece};
use std::alloc::{AllocError, Global};

/// The nursery's first byte.
const NURSERY: u64 = 4096;

/// The gaps of the nursery between these objects, in order of address: a fragment where a gap has 32 words or more, a
/// waste where it has fewer. Linear in the objects.
pub fn build(alloc: Global, space: &Space, standing: &[Object]) -> Result<List<Piece>, AllocError>
    requires layout { IsLayout space.now.layout }
    requires standing { AreStanding space.now.layout standing.now }
    ensures pieces { IfOk result (λ pieces. ArePieces space.now.layout standing.now pieces) }
    ensures few { IfOk result (λ pieces. length (fronts_of pieces) ≤ 2048) }
{
    let pieces = gaps(alloc, space.layout(), standing)?;
    Ok(List::from_vec(pieces))
}

// The gaps of the nursery of such a layout.
fn gaps(alloc: Global, layout: Layout, standing: &[Object]) -> Result<Vec<Piece>, AllocError>
    requires layout { IsLayout layout }
    requires standing { AreStanding layout standing.now }
    ensures { IfOk result (λ pieces. ArePieces layout standing.now pieces.items) }
{
    let mut pieces = Vec::new(alloc);
    let mut front = NURSERY;
    for object in standing {
        let at = object.at.get();
        add_gap(&mut pieces, front, at)?;
        front = at + 8 * object.words as u64;
    }
    add_gap(&mut pieces, front, layout.old_base())?;
    Ok(pieces)
}

// Adds the piece of the words from `front` to `end`, where there are any. Both are byte addresses.
fn add_gap(pieces: &mut Vec<Piece>, front: u64, end: u64) -> Result<(), AllocError>
    requires front { (4096 ≤ front) × (front % 8 ≡ 0) }
    requires end { (end < 2 ^ 40) × (end % 8 ≡ 0) }
    requires order { (front ≤ end) × (end ≤ front + 8 * 65536) }
    ensures { OnOk result (IsGrown pieces.old.items (word_at front) (word_at end - word_at front) pieces.new.items) }
{
    if front < end {
        let at = Addr::of(front).unwrap();
        pieces.push(piece(at, ((end - front) / 8) as u32))?;
    }
    Ok(())
}

// The piece of a gap.
fn piece(at: Addr, words: u32) -> Piece
    ensures { IsPieceOf result (word_at at) words }
{
    if 32 <= words {
        Piece::Frag { at, words }
    } else {
        Piece::Waste { at, words }
    }
}
