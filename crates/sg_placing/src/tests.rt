ghost use Rattle.std.specs.Prelude.{◌≡◌, ◌≤◌, ℕ, IfOk};
ghost use Rattle.sg_program.specs.declared.answers.Request.{Request};
ghost use Rattle.sg_program.specs.Scripts.{IsRequestOf};
ghost use Rattle.sg_rules.specs.Resting.{IsRunnable};
ghost use Rattle.sg_placing.specs.Tried.{tried, CanAnswer};

use crate::{Room, answer_to};
use sg_desc::{Descriptor, Shape};
use sg_graph::{Answer, Class, Config, Name, Program, Statement};
use sg_order::first_opening;
use sg_space::Space;
use sg_words::{Layout, List};
use std::alloc::{AllocError, Global};
use std::test::Fail;

fn program(alloc: Global) -> Result<Program, AllocError>
    ensures { IfOk result (λ program. program ≡ tried) }
{
    let mut classes = Vec::new(alloc);
    classes.push(Class {
        name: Name {
            bytes: List::from_vec(Vec::new(alloc)),
        },
        shape: Shape {
            fields: 0,
            kind: Descriptor::VectorPlain,
        },
    })?;
    classes.push(Class {
        name: Name {
            bytes: List::from_vec(Vec::new(alloc)),
        },
        shape: Shape {
            fields: 2,
            kind: Descriptor::PtrFree,
        },
    })?;
    Ok(Program {
        config: Config {
            nursery: 256,
            blocks: 2,
            pages: 0,
            buffer: 16,
            workers: 1,
            cement: 1,
        },
        classes: List::from_vec(classes),
        mutators: List::from_vec(Vec::new(alloc)),
    })
}

/// A space without an object.
fn fresh(alloc: Global) -> Result<Space, AllocError>
    ensures { IfOk result CanAnswer }
{
    // The law that it rests on: this call does nothing.
    first_opening();
    let layout = Layout {
        nursery: 256,
        blocks: 2,
        pages: 0,
    };
    let shapes = [
        Shape {
            fields: 0,
            kind: Descriptor::VectorPlain,
        },
        Shape {
            fields: 2,
            kind: Descriptor::PtrFree,
        },
    ];
    let space = Space::new(alloc, layout, shapes.as_slice())?;
    Ok(space)
}

fn answer(program: &Program, space: &mut Space, asking: Statement, room: Room) -> Answer
    requires program { program.now ≡ tried }
    requires space { CanAnswer space.old }
    requires run { IsRunnable tried asking }
    requires asks { (request : Request) × IsRequestOf tried asking request }
    ensures { CanAnswer space.new }
{
    answer_to(program, space, asking, room)
}

/// The number of the word at the front of an object, where there is one.
fn word_of(answer: Answer) -> Option<u64> {
    match answer {
        Answer::At(at) => Some(at.word()),
        _ => None,
    }
}

/// The number of the first word of a new object of two fields that is made in the major heap; `None` where there is no slot for it.
fn first_old_word(program: &Program, space: &mut Space, room: Room) -> Option<u64>
    requires program { program.now ≡ tried }
    requires space { CanAnswer space.old }
    ensures { CanAnswer space.new }
{
    word_of(answer(program, space, Statement::Mature { r: 0, class: 1 }, room))
}

/// The number of the first word of a new vector of so many fields; `None` where it has no place.
fn first_word(program: &Program, space: &mut Space, count: u32, room: Room) -> Option<u64>
    requires program { program.now ≡ tried }
    requires space { CanAnswer space.old }
    ensures { CanAnswer space.new }
{
    if count > 62 {
        return None;
    }
    let asking = Statement::NewV {
        r: 0,
        class: 0,
        count,
    };
    word_of(answer(program, space, asking, room))
}

// Worked by hand: four objects of 64 words fill the nursery, the last one exactly. Then a slot of the first block is taken for such an object,
// one of the next block for an object of four words, and so on until no block has a slot of the size.
#[test]
fn places_of_vectors(rt: HostRuntime) -> Result<(), Fail> {
    let program = program(rt.alloc())?;
    let mut space = fresh(rt.alloc())?;
    for case in [
        (62, Room::Fragments, Some(512)),
        (62, Room::SlotsToo, Some(576)),
        (62, Room::Fragments, Some(640)),
        (62, Room::SlotsToo, Some(704)),
        (62, Room::Fragments, None),
        (0, Room::Fragments, None),
        (62, Room::SlotsToo, Some(768)),
        (2, Room::SlotsToo, Some(1024)),
        (2, Room::Fragments, None),
        (1, Room::SlotsToo, Some(1028)),
        (62, Room::SlotsToo, Some(832)),
        (47, Room::SlotsToo, Some(896)),
        (62, Room::SlotsToo, Some(960)),
        (62, Room::SlotsToo, None),
        (3, Room::SlotsToo, None),
        (2, Room::SlotsToo, Some(1032)),
    ] {
        let (count, room, word) = case;
        assert_eq!(rt;
            first_word(&program, &mut space, count, room),
            word,
            "at {count}"
        );
    }
    Ok(())
}

// Worked by hand: an object that is made in the major heap takes a slot of the first block, which is free, though the nursery has room; the next
// one takes the slot behind it. A vector of 62 fields takes the other block as soon as the nursery is full. The first block's other 62 slots are
// given, and then no block has a slot of the size, while one of the other size is left.
#[test]
fn places_of_mature(rt: HostRuntime) -> Result<(), Fail> {
    let program = program(rt.alloc())?;
    let mut space = fresh(rt.alloc())?;
    assert_eq!(rt;
        first_old_word(&program, &mut space, Room::Fragments),
        Some(768)
    );
    assert_eq!(rt;
        first_old_word(&program, &mut space, Room::SlotsToo),
        Some(772)
    );
    for word in [512, 576, 640, 704, 1024] {
        assert_eq!(rt;
            first_word(&program, &mut space, 62, Room::SlotsToo),
            Some(word)
        );
    }
    for slot in 2..64 {
        assert_eq!(rt;
            first_old_word(&program, &mut space, Room::Fragments),
            Some(768 + 4 * slot)
        );
    }
    assert_eq!(rt; first_old_word(&program, &mut space, Room::SlotsToo), None);
    assert_eq!(rt;
        first_word(&program, &mut space, 62, Room::SlotsToo),
        Some(1088)
    );
    Ok(())
}

// A collection and the question what stands in each section are answered where they ask, and take no place.
#[test]
fn nothing_is_placed(rt: HostRuntime) -> Result<(), Fail> {
    let program = program(rt.alloc())?;
    let mut space = fresh(rt.alloc())?;
    let minor = Statement::Collect { major: false };
    let major = Statement::Collect { major: true };
    assert_eq!(rt;
        answer(&program, &mut space, minor, Room::Fragments),
        Answer::Fine
    );
    assert_eq!(rt;
        answer(&program, &mut space, major, Room::SlotsToo),
        Answer::Fine
    );
    assert_eq!(rt;
        answer(&program, &mut space, Statement::Sections, Room::SlotsToo),
        Answer::Fine
    );
    assert_eq!(rt;
        first_word(&program, &mut space, 2, Room::SlotsToo),
        Some(512)
    );
    Ok(())
}
