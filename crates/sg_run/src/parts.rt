// The walks of a space and the parts of a pause, each called by itself on a space in which a program has made objects.
ghost use Rattle.std.specs.Prelude.{IfOk, IfSome};
ghost use Rattle.sg_space.specs.Standing.{IsSound};
ghost use Rattle.sg_minor.specs.Parts.{HoldsSome};
ghost use Rattle.sg_world.specs.Worlds.{CanRun};

use crate::top::accept;
use sg_cells::ScheduleDriver;
use sg_copy::{Round, copy_one};
use sg_finish::finish;
use sg_graph::Program;
use sg_heap::sweep_law;
use sg_minor::{first_slots, found_in, heap_law};
use sg_nursery::tag::tag;
use sg_pins::pin_queue;
use sg_space::{Object, Space};
use sg_words::{Addr, BlockWord, FIRST_WORD, Move};
use sg_world::World;
use std::alloc::{AllocError, Global};
use std::test::Fail;

// Two pauses. The first one moves the object of global 0 and the one to which that leads, both to slots of 4 words of block 0, and pins
// the one of r2.
const FIRST: &str =
    "sgen 1\nnursery 320\nblocks 2\npages 0\nbuffer 16\nclass Node map r.\nclass Box plain 2\nclass Row refs\nclass Tail plain 1\nmutator\nnew r0 Node\nnew r1 Box\nput r0 0 r1\nnum r9 1\nputd r0 1 r9\nnum r9 7\nputd r1 0 r9\ngput 0 r0\nnewv r2 Row 3\ndrop r0\ndrop r1\n";

// Objects that the first pause moves too: one takes block 1 for slots of 64 words, and a list of 60 leaves two slots of block 0.
const FILL: &str =
    "newv r3 Row 62\ngput 1 r3\ndrop r3\nrepeat 60\nnew r4 Node\nput r4 0 r3\nmove r3 r4\nend\ngput 2 r3\ndrop r3\ndrop r4\n";

// Six objects more, and what refers to what: the old Node refers to a young one, so that card 0 is dirty. The second pause doesn't come to
// be made.
const SECOND: &str =
    "collect minor\nnew r3 Node\nnew r4 Box\nnewv r5 Row 3\nnew r6 Tail\nnew r7 Box\nnewv r8 Row 11\ngget r0 0\nput r0 0 r3\nput r3 0 r5\nnum r9 5\nputd r3 1 r9\nnum r9 4200\nputd r4 0 r9\nnum r9 9\nputd r4 1 r9\nput r5 0 r4\nput r5 1 r3\nput r5 2 r6\nnum r9 3\nputd r6 0 r9\nnum r9 8\nputd r7 1 r9\nput r2 0 r7\nput r2 1 r0\nput r8 10 r3\ngput 5 r4\ngput 63 r5\ncollect minor\nend\n";

/// The space of this program at its second stop, swept and before the pause; `None` where the program comes to no second stop.
fn at_second_stop(alloc: Global, program: &Program) -> Result<Option<Space>, AllocError>
    requires { CanRun program.now }
    ensures { IfOk result (λ found. IfSome found HoldsSome) }
{
    let mut order = ScheduleDriver::new(alloc, &[])?;
    let world = World::start(alloc, program)?;
    let (world, first) = world.epoch(alloc, &mut order)?;
    if first.last {
        return Ok(None);
    }
    let (world, _) = world.stop(alloc)?;
    let (world, second) = world.epoch(alloc, &mut order)?;
    if second.last {
        return Ok(None);
    }
    // The law that it rests on: this call does nothing.
    sweep_law();
    let mut space = world.into_space();
    let _ = space.layout();
    finish(&mut space);
    Ok(Some(space))
}

/// The same of the program that is made of these parts; `None` also where that is refused.
fn made(alloc: Global, fill: &str) -> Result<Option<Space>, AllocError>
    ensures { IfOk result (λ found. IfSome found HoldsSome) }
{
    let text = format!(in alloc; "{FIRST}{fill}{SECOND}")?;
    match accept(alloc, text.as_bytes())? {
        Ok(program) => at_second_stop(alloc, &program),
        Err(_) => Ok(None),
    }
}

/// A space that holds a graph is sound. This does nothing.
fn is_sound(space: &Space)
    requires { HoldsSome space.now }
    ensures { IsSound space.now }
{
    // The law that it rests on: this call does nothing.
    heap_law();
    let _ = space.layout();
}

/// A round of copying over what a pause with these ambiguous words would begin from.
fn round_with(alloc: Global, space: Space, ambiguous: &[u64]) -> Result<Round, AllocError>
    requires { HoldsSome space }
{
    // The law that it rests on: this call does nothing.
    heap_law();
    is_sound(&space);
    let pins = pin_queue(alloc, ambiguous, &space)?;
    let found = found_in(alloc, &space)?;
    let slots = first_slots(alloc, &space, space.layout(), found.all())?;
    let mut space = space;
    tag(&mut space, pins.as_slice());
    copy_one(alloc, space, &slots, pins.as_slice())
}

fn addresses(alloc: Global, bytes: &[u64]) -> Result<Vec<Addr>, Fail> {
    let mut all = Vec::new(alloc);
    for at in bytes {
        all.push(Addr::of(*at).ok_or("an address")?)?;
    }
    Ok(all)
}

fn moved(alloc: Global, pairs: &[(u64, u64)]) -> Result<Vec<Move>, Fail> {
    let mut all = Vec::new(alloc);
    for (from, to) in pairs {
        all.push(Move {
            from: Addr::of(*from).ok_or("an address")?,
            to: Addr::of(*to).ok_or("an address")?,
        })?;
    }
    Ok(all)
}

// What these runs of words have at the number `x`, each from its number on; 0 where none has it.
fn word_in(runs: &[(u64, &[u64])], x: u64) -> u64 {
    for (from, words) in runs {
        if *from <= x && x - *from < words.len() as u64 {
            return words[(x - *from) as usize];
        }
    }
    0
}

// What FILL has at the number `x`: slots 3 to 60 of block 0 have a Node each that refers to the one behind it, slot 61 has the last one,
// and a Row of 62 fields is at the front of block 1.
fn filled(x: u64) -> u64 {
    if x == 1088 {
        return 24;
    }
    if x == 1089 {
        return 62;
    }
    if x < 844 || x > 1079 {
        return 0;
    }
    match x % 4 {
        0 => 8,
        1 => 2,
        2 if x < 1076 => 8 * (x + 2),
        _ => 0,
    }
}

/// The number of the first word of the space that isn't as the runs say, or, where the space was filled and none has it, as FILL says.
fn first_other(space: &Space, runs: &[(u64, &[u64])], full: bool) -> Option<u64> {
    let end = space.layout().end_word();
    for x in FIRST_WORD..end {
        let said = word_in(runs, x);
        let expected = if full && said == 0 { filled(x) } else { said };
        if space.read(Addr::at_word(x)) != expected {
            return Some(x);
        }
    }
    None
}

/// The words and the occupancies of the two blocks; `None` where there are more or fewer.
fn blocks_in(space: &Space) -> Option<[(BlockWord, u64); 2]> {
    if space.layout().blocks != 2 {
        return None;
    }
    Some([
        (space.block(0), space.used(0)),
        (space.block(1), space.used(1)),
    ])
}

/// The numbers of the dirty cards.
fn dirty_in(alloc: Global, space: &Space) -> Result<Vec<u32>, AllocError> {
    let layout = space.layout();
    let mut dirty = Vec::new(alloc);
    for card in 0..4 * layout.blocks + 2 * layout.pages {
        if space.dirty(card) {
            dirty.push(card)?;
        }
    }
    Ok(dirty)
}

// The objects that stand at the second stop, in order of address, the first seven in the nursery:
//
// | Address | Words | Is | Fields |
// |---|---|---|---|
// | 4160 | 5 | a Row, which was pinned | the Box at 4328, the old Node, none |
// | 4200 | 4 | a Node | the Row at 4264; 5 |
// | 4232 | 4 | a Box, of global 5 | 4200, 9: numbers |
// | 4264 | 5 | a Row, of global 63 | the Box at 4232, the Node at 4200, the Tail |
// | 4304 | 3 | a Tail | 3 |
// | 4328 | 4 | a Box | 0, 8 |
// | 4456 | 13 | a Row, to which nothing refers | in its last field the Node at 4200 |
// | 6656 | 4 | a Node, of global 0 | the Node at 4200; 1 |
// | 6688 | 4 | a Box, to which the Node did refer | 7, 0 |
//
// Before the first there are 8 words that are waste, between 4360 and 4456 the rest of a buffer, from 4560 to 4584 another one,
// and behind it the fragment's rest, to 6656. The last two stand in slots 0 and 1 of block 0, and block 1, at 8704, is free. Global 0 is
// at 10752, and the space ends at 19968.
#[test]
fn walks(rt: HostRuntime) -> Result<(), Fail> {
    let space = made(rt.alloc(), "")?.ok_or("a second stop")?;
    is_sound(&space);
    // address, class, fields
    let rows: [(u64, u16, u32); 9] = [
        (4160, 2, 3),
        (4200, 0, 2),
        (4232, 1, 2),
        (4264, 2, 3),
        (4304, 3, 1),
        (4328, 1, 2),
        (4456, 2, 11),
        (6656, 0, 2),
        (6688, 1, 2),
    ];
    let mut young = Vec::new(rt.alloc());
    for (at, class, fields) in rows {
        let object = Object {
            at: Addr::of(at).ok_or("an address")?,
            class,
            fields,
            words: fields + 2,
        };
        assert_eq!(rt; space.object_at(object.at), Some(object), "at {at}");
        if at < 6656 {
            young.push(object)?;
        }
    }
    let told = space.walk_nursery(rt.alloc())?;
    assert_eq!(rt; young.len(), 7);
    assert_eq!(rt; told.as_slice(), young.as_slice());
    // No object begins in waste, inside one or at its last word, in a buffer's or a fragment's rest, in a slot that is clear, in a free
    // block, among the globals and behind them.
    let others: [u64; 18] = [
        4096, 4152, 4168, 4192, 4296, 4352, 4360, 4448, 4464, 4552, 4560, 4584, 6648, 6664, 6720,
        8704, 10752, 19960,
    ];
    for at in others {
        assert_eq!(rt;
            space.object_at(Addr::of(at).ok_or("an address")?),
            None,
            "at {at}"
        );
    }
    Ok(())
}

// On the same space.
#[test]
fn pins(rt: HostRuntime) -> Result<(), Fail> {
    let space = made(rt.alloc(), "")?.ok_or("a second stop")?;
    is_sound(&space);
    // words, and what they pin
    let rows: [(&[u64], &[u64]); 14] = [
        (&[], &[]),
        // the first byte, one inside, the last one, and one past the end, which is the next one's first
        (&[4160], &[4160]),
        (&[4171], &[4160]),
        (&[4199], &[4160]),
        (&[4200], &[4200]),
        // before the first object, and in the rests of buffers and of the fragment
        (&[4096, 4159], &[]),
        (&[4359], &[4328]),
        (&[4360, 4455], &[]),
        (&[4456], &[4456]),
        (&[4559], &[4456]),
        (&[4560, 4583, 4584, 6655], &[]),
        // outside of the nursery: old objects, globals, and what is no address
        (
            &[
                6656,
                6688,
                8704,
                10752,
                0,
                7,
                4095,
                1_099_511_627_776,
                u64::MAX,
            ],
            &[],
        ),
        // twice, in any order, among others
        (
            &[4331, 4201, u64::MAX, 4167, 4360, 4201, 6656, 4231, 4160],
            &[4160, 4200, 4328],
        ),
        (
            &[4456, 4328, 4304, 4264, 4232, 4200, 4160],
            &[4160, 4200, 4232, 4264, 4304, 4328, 4456],
        ),
    ];
    for (ambiguous, expected) in rows {
        let pinned = pin_queue(rt.alloc(), ambiguous, &space)?;
        let expected = addresses(rt.alloc(), expected)?;
        assert_eq!(rt; pinned.as_slice(), expected.as_slice(), "of {ambiguous:?}");
    }
    Ok(())
}

type Words = &'static [u64];

/// A round, and what it leaves.
#[derive(Drop)]
struct Case {
    /// What the program makes beside, before its first pause.
    fill: &'static str,
    ambiguous: Words,
    moves: &'static [(u64, u64)],
    fails: Words,
    /// The words and the occupancies of the two blocks.
    blocks: [(BlockWord, u64); 2],
    dirty: &'static [u32],
    /// Runs of words from a number on; all others are 0, or as FILL has them.
    words: &'static [(u64, Words)],
}

/// What of the round isn't as the case says; `None` where all is.
fn difference(alloc: Global, case: &Case) -> Result<Option<&'static str>, Fail> {
    let space = made(alloc, case.fill)?.ok_or("a second stop")?;
    let round = round_with(alloc, space, case.ambiguous)?;
    let moves = moved(alloc, case.moves)?;
    let fails = addresses(alloc, case.fails)?;
    let dirty = dirty_in(alloc, &round.space)?;
    if round.moves.as_slice() != moves.as_slice() {
        return Ok(Some("moves"));
    }
    if round.fails.as_slice() != fails.as_slice() {
        return Ok(Some("fails"));
    }
    if round.spares != 0 {
        return Ok(Some("spares"));
    }
    if dirty.as_slice() != case.dirty {
        return Ok(Some("cards"));
    }
    if blocks_in(&round.space) != Some(case.blocks) {
        return Ok(Some("blocks"));
    }
    if first_other(&round.space, case.words, !case.fill.is_empty()).is_some() {
        return Ok(Some("words"));
    }
    Ok(None)
}

// No word pins anything. By the globals the Box and the Row move, by the old Node the Node; then the Row leads to the Tail. The Row has 5
// words, for which block 1 becomes one of slots of 6. A word of a plain field, 4200, is no reference. What is old, dead and not pinned, or
// past the globals stays. The card stays dirty: a round cleans none.
#[test]
fn a_round(rt: HostRuntime) -> Result<(), Fail> {
    let case = Case {
        fill: "",
        ambiguous: &[],
        moves: &[(4232, 6720), (4264, 8704), (4200, 6752), (4304, 6784)],
        fails: &[],
        blocks: [
            (BlockWord::Swept { size: 4 }, 31),
            (BlockWord::Swept { size: 6 }, 1),
        ],
        dirty: &[0],
        words: &[
            (520, &[24, 3, 4328, 6656, 0]),
            (525, &[6753, 2, 4264, 5]),
            (529, &[6721, 2, 4200, 9]),
            (533, &[8705, 3, 4232, 4200, 4304]),
            (538, &[6785, 1, 3]),
            (541, &[16, 2, 0, 8]),
            (557, &[24, 11, 0, 0, 0, 0, 0, 0, 0, 0, 0, 0, 4200]),
            (832, &[8, 2, 6752, 1]),
            (836, &[16, 2, 7, 0]),
            (840, &[16, 2, 4200, 9]),
            (844, &[8, 2, 8704, 5]),
            (848, &[32, 1, 3]),
            (1088, &[24, 3, 6720, 6752, 6784]),
            (1344, &[6656, 0, 0, 0, 0, 6720]),
            (1407, &[8704]),
        ],
    };
    assert_eq!(rt; difference(rt.alloc(), &case)?, None);
    Ok(())
}

// Words pin the first Row and the first Node. The pinned Row leads to the second Box, before the Row of global 63 leads to the Tail; the
// Node stays. The copy of that Row refers to it still, in word 1091, so that card 4 becomes dirty.
#[test]
fn a_round_with_pins(rt: HostRuntime) -> Result<(), Fail> {
    let case = Case {
        fill: "",
        ambiguous: &[4199, 4201, 4199],
        moves: &[(4232, 6720), (4264, 8704), (4328, 6752), (4304, 6784)],
        fails: &[],
        blocks: [
            (BlockWord::Swept { size: 4 }, 31),
            (BlockWord::Swept { size: 6 }, 1),
        ],
        dirty: &[0, 4],
        words: &[
            (520, &[26, 3, 6752, 6656, 0]),
            (525, &[10, 2, 8704, 5]),
            (529, &[6721, 2, 4200, 9]),
            (533, &[8705, 3, 4232, 4200, 4304]),
            (538, &[6785, 1, 3]),
            (541, &[6753, 2, 0, 8]),
            (557, &[24, 11, 0, 0, 0, 0, 0, 0, 0, 0, 0, 0, 4200]),
            (832, &[8, 2, 4200, 1]),
            (836, &[16, 2, 7, 0]),
            (840, &[16, 2, 4200, 9]),
            (844, &[16, 2, 0, 8]),
            (848, &[32, 1, 3]),
            (1088, &[24, 3, 6720, 4200, 6784]),
            (1344, &[6656, 0, 0, 0, 0, 6720]),
            (1407, &[8704]),
        ],
    };
    assert_eq!(rt; difference(rt.alloc(), &case)?, None);
    Ok(())
}

// No block is free, and block 0 has two slots left. The Box takes one; the Row fails, since it would need a slot of 6 words; the Node
// takes the other one, and for the Tail, to which the Row leads, none is left. The copy of the Node refers to the Row still, in word 1086,
// so that card 3 becomes dirty. A slot of the nursery and a global have no card.
#[test]
fn a_round_that_fails(rt: HostRuntime) -> Result<(), Fail> {
    let case = Case {
        fill: FILL,
        ambiguous: &[],
        moves: &[(4232, 8640), (4200, 8672)],
        fails: &[4264, 4304],
        blocks: [
            (BlockWord::Swept { size: 4 }, u64::MAX),
            (BlockWord::Swept { size: 64 }, 1),
        ],
        dirty: &[0, 3],
        words: &[
            (520, &[24, 3, 4328, 6656, 0]),
            (525, &[8673, 2, 4264, 5]),
            (529, &[8641, 2, 4200, 9]),
            (533, &[26, 3, 8640, 8672, 4304]),
            (538, &[34, 1, 3]),
            (541, &[16, 2, 0, 8]),
            (557, &[24, 11, 0, 0, 0, 0, 0, 0, 0, 0, 0, 0, 4200]),
            (832, &[8, 2, 8672, 1]),
            (836, &[8, 2, 6752, 0]),
            (840, &[16, 2, 7, 0]),
            (1080, &[16, 2, 4200, 9]),
            (1084, &[8, 2, 4264, 5]),
            (1344, &[6656, 8704, 6688, 0, 0, 8640]),
            (1407, &[4264]),
        ],
    };
    assert_eq!(rt; difference(rt.alloc(), &case)?, None);
    Ok(())
}
