ghost use Rattle.std.specs.Prelude.{◌≡◌, ◌≢◌, ℕ, ◌+◌, ◌<◌, ◌≤◌, List, IfOk, length, map, slice_index, vec_capacity, replicate};
ghost use Rattle.std.specs.List.{All};
ghost use Rattle.sg_words.specs.Address.{IsAddress, word_at};
ghost use Rattle.sg_words.specs.Sections.{IsInSection};
ghost use Rattle.sg_words.specs.declared.pieces.Move.{Move as AnyMove};
ghost use Rattle.sg_copy.specs.Copying.{CanCopy, HasCopiedTo};
ghost use Rattle.sg_copy.specs.Rounds.{AreItems, IsReady, HasRun, IsForwarded, found_move, no_cells};

use crate::copier::Copier;
use crate::gray::Gray;
use crate::plain::PlainRound;
use sg_round::{bounded, goes_always, one_worker, tells_so_far};
use sg_space::Space;
use sg_words::{Addr, Move, forwarded_to};
use std::alloc::{AllocError, Global};

/// What a round of copying leaves.
#[derive(Drop)]
pub struct Round {
    /// The space: copies stand in slots of blocks, and in the place of a moved object stands where it went.
    pub space: Space,
    /// The objects that moved, in the order in which they did.
    pub moves: Vec<Move>,
    /// The objects for which there was no slot, in the order in which they were found. They stay, pinned.
    pub fails: Vec<Addr>,
    /// How many claimed slots no object moved to.
    pub spares: u32,
}

/// Copies the young objects that these slots, and the strong fields of these pinned objects, lead to over strong fields, each to the
/// lowest clear slot of the lowest block that can take it; and sends each slot that refers to one of them. It goes through the slots first,
/// then through the pinned objects, and then through what it found there, be it copied or failed, in the order in which it found it. The card
/// of a slot that still refers to a young object becomes dirty.
///
/// Takes memory for the slots, the pinned objects and three times the nursery's words, before it changes anything; and time linear in the
/// slots, the words of what is copied, and for each copy the blocks from the last one that took its size on. Where memory runs out the space
/// is lost.
pub fn copy_one(
    alloc: Global,
    space: Space,
    slots: &[Addr],
    wholes: &[Addr],
) -> Result<Round, AllocError>
    requires { CanCopy space (map word_at slots.now) (map word_at wholes.now) }
    ensures copied { IfOk result (λ round. HasCopiedTo space (map word_at slots.now) (map word_at wholes.now) round.space round.moves.items round.fails.items) }
    ensures spares { IfOk result (λ round. round.spares ≡ 0) }
{
    let mut space = space;
    let items = items_of(alloc, slots, wholes, space.layout().nursery as usize)?;
    let mut copier = Copier::new(alloc, &space, 0, 1, items)?;
    run(&mut space, &mut copier);
    let (moves, fails) = copier.into_told();
    know_addresses(fails.as_slice());
    let moves = with_copies(&space, moves);
    Ok(Round {
        space,
        moves,
        fails,
        spares: 0,
    })
}

/// The items: the slots first, then the objects; with room for so many more.
fn items_of(
    alloc: Global,
    slots: &[Addr],
    wholes: &[Addr],
    room: usize,
) -> Result<Vec<Gray>, AllocError>
    requires { room ≤ 65536 }
    ensures items { IfOk result (λ items. AreItems (map word_at slots.now) (map word_at wholes.now) items.items) }
    ensures room { IfOk result (λ items. length items.items + room ≤ vec_capacity items) }
{
    let mut items = Vec::with_capacity(alloc, slots.len() + wholes.len() + room)?;
    for slot in slots {
        items.push(Gray::Slot { at: *slot })?;
    }
    for whole in wholes {
        items.push(Gray::Whole { at: *whole })?;
    }
    Ok(items)
}

/// Gives turns over the lent space until nothing is left to do.
fn run(space: &mut Space, copier: &mut Copier)
    requires { (slots : List ℕ) × (wholes : List ℕ) × IsReady space.old slots wholes copier.old }
    ensures { (slots wholes : List ℕ) → IsReady space.old slots wholes copier.old → HasRun space.old slots wholes space.new copier.new }
{
    let mut port = PlainRound::new(space);
    give_turns(&mut port, copier);
}

/// Gives turns over the port's space.
fn give_turns(port: &mut PlainRound<'_>, copier: &mut Copier)
    requires empty { port.old.cells ≡ no_cells }
    requires ready { (slots : List ℕ) × (wholes : List ℕ) × IsReady port.old.space.now slots wholes copier.old }
    ensures same { port.new.space.ghost_name ≡ port.old.space.ghost_name }
    ensures run { (slots wholes : List ℕ) → IsReady port.old.space.now slots wholes copier.old →
        HasRun port.old.space.now slots wholes port.new.space.now copier.new }
{
    // The laws that it rests on: these calls do nothing.
    tells_so_far();
    bounded();
    goes_always();
    one_worker();
    while !copier.ended() {
        copier.turn_on(port);
    }
}

/// That each of these is an address is true of the type: this call does nothing.
fn know_addresses(addresses: &[Addr])
    ensures { All IsAddress addresses.now }
{
    for at in addresses {
        let _ = at.get();
    }
}

/// The same with where each of the objects went.
fn with_copies(space: &Space, moves: Vec<Move>) -> Vec<Move>
    requires there { All (λ (m : AnyMove). IsInSection space.now.layout (word_at m.from)) moves.items }
    requires forwarded { All (λ (m : AnyMove). IsForwarded space.now m) moves.items }
    ensures addresses { All (λ (m : AnyMove). IsAddress m.from) moves.items }
    ensures moves { result.items ≡ map (λ (m : AnyMove). found_move space.now m) moves.items }
{
    let mut moves = moves;
    find_copies(space, moves.as_mut_slice());
    moves
}

/// Finds where each of the objects went, by their first words.
fn find_copies(space: &Space, moves: &mut [Move])
    requires there { All (λ (m : AnyMove). IsInSection space.now.layout (word_at m.from)) moves.old }
    requires forwarded { All (λ (m : AnyMove). IsForwarded space.now m) moves.old }
    ensures addresses { All (λ (m : AnyMove). IsAddress m.from) moves.old }
    ensures moves { moves.new ≡ map (λ (m : AnyMove). found_move space.now m) moves.old }
{
    for k in 0..moves.len() {
        moves[k] = find_copy(space, moves[k]);
    }
}

/// Where this object went, by its first word.
fn find_copy(space: &Space, moved: Move) -> Move
    requires there { IsInSection space.now.layout (word_at moved.from) }
    requires forwarded { IsForwarded space.now moved }
    ensures address { IsAddress moved.from }
    ensures moved { result ≡ found_move space.now moved }
{
    let _ = moved.from.get();
    match forwarded_to(space.read(moved.from)) {
        Some(to) => Move {
            from: moved.from,
            to,
        },
        None => moved,
    }
}
