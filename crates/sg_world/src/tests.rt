ghost use Rattle.std.specs.Prelude.{◌≡◌, ◌≤◌, [], IfOk};
ghost use Rattle.std.specs.List.{flat_map, AllByRecursion};
ghost use Rattle.sg_program.specs.declared.program.Item.{out-Item};
ghost use Rattle.sg_program.specs.declared.program.Item.TheOpen.{One};
ghost use Rattle.sg_program.specs.Scripts.{written, written_out};
ghost use Rattle.sg_program.specs.Invariants.{item_depth, item_times};
ghost use Rattle.sg_world.specs.Worlds.{CanRun};

use crate::World;
use sg_cells::ScheduleDriver;
use sg_desc::{Descriptor, Shape};
use sg_graph::{
    Answer, Class, Config, EpochReport, Item, Leave, Name, Part, Program, Request, Script,
    Statement, StopReport,
};
use sg_program::items_unfold;
use sg_words::{Addr, List, Piece};
use std::alloc::{AllocError, Global};
use std::test::Fail;

fn item(statement: Statement) -> Item
    ensures out { out-Item result ≡ One statement }
    ensures depth { item_depth result ≡ 0 }
    ensures times { item_times result ≡ [] }
{
    Item::One(statement)
}

/// A script of these statements, without repeats.
fn script(alloc: Global, statements: &[Statement]) -> Result<Script, AllocError>
    ensures out { IfOk result (λ script. written_out script.items ≡ statements.now) }
    ensures written { IfOk result (λ script. written script.items ≡ statements.now) }
    ensures times { IfOk result (λ script. flat_map item_times script.items ≡ []) }
    ensures nesting { IfOk result (λ script. AllByRecursion (λ item. item_depth item ≤ 4) script.items) }
{
    // The law that it rests on: this call does nothing.
    items_unfold();
    let mut items = Vec::with_capacity(alloc, statements.len())?;
    for statement in statements {
        items.push(item(*statement))?;
    }
    Ok(Script {
        items: List::from_vec(items),
    })
}

/// Two mutators: one makes an object of two fields, asks for a major pause and drops the object; the other makes two such objects.
fn program(alloc: Global) -> Result<Program, AllocError>
    ensures { IfOk result CanRun }
{
    let mut bytes = Vec::new(alloc);
    bytes.push(80)?;
    let mut classes = Vec::new(alloc);
    classes.push(Class {
        name: Name {
            bytes: List::from_vec(bytes),
        },
        shape: Shape {
            fields: 2,
            kind: Descriptor::PtrFree,
        },
    })?;
    let first = [
        Statement::New { r: 0, class: 0 },
        Statement::Collect { major: true },
        Statement::Drop { r: 0 },
    ];
    let second = [
        Statement::New { r: 0, class: 0 },
        Statement::New { r: 1, class: 0 },
    ];
    let mut mutators = Vec::new(alloc);
    mutators.push(script(alloc, &first)?)?;
    mutators.push(script(alloc, &second)?)?;
    Ok(Program {
        config: Config {
            nursery: 256,
            blocks: 1,
            pages: 0,
            buffer: 16,
            workers: 1,
            cement: 1,
        },
        classes: List::from_vec(classes),
        mutators: List::from_vec(mutators),
    })
}

/// One mutator: it makes as many objects in the major heap as its one block has slots for, drops the second one and makes one more.
fn crowded(alloc: Global) -> Result<Program, AllocError>
    ensures { IfOk result CanRun }
{
    let mut bytes = Vec::new(alloc);
    bytes.push(80)?;
    let mut classes = Vec::new(alloc);
    classes.push(Class {
        name: Name {
            bytes: List::from_vec(bytes),
        },
        shape: Shape {
            fields: 62,
            kind: Descriptor::PtrFree,
        },
    })?;
    let statements = [
        Statement::Mature { r: 0, class: 0 },
        Statement::Mature { r: 1, class: 0 },
        Statement::Mature { r: 2, class: 0 },
        Statement::Mature { r: 3, class: 0 },
        Statement::Drop { r: 1 },
        Statement::Mature { r: 4, class: 0 },
    ];
    let mut mutators = Vec::new(alloc);
    mutators.push(script(alloc, &statements)?)?;
    Ok(Program {
        config: Config {
            nursery: 256,
            blocks: 1,
            pages: 0,
            buffer: 16,
            workers: 1,
            cement: 1,
        },
        classes: List::from_vec(classes),
        mutators: List::from_vec(mutators),
    })
}

/// What a world tells of an epoch, the stop behind it and the next epoch, and whether all have ended then.
#[derive(Drop)]
struct Ran {
    first: EpochReport,
    stop: StopReport,
    second: EpochReport,
    done: bool,
}

/// `None` where no stop comes.
fn go_twice(alloc: Global, program: &Program) -> Result<Option<Ran>, AllocError>
    requires { CanRun program.now }
{
    let mut order = ScheduleDriver::new(alloc, &[])?;
    let world = World::start(alloc, program)?;
    let (world, first) = world.epoch(alloc, &mut order)?;
    if first.last {
        return Ok(None);
    }
    let (world, stop) = world.stop(alloc)?;
    let (world, second) = world.epoch(alloc, &mut order)?;
    Ok(Some(Ran {
        first,
        stop,
        second,
        done: world.done(),
    }))
}

fn tells(part: &Part, mutator: u32, first: u32, answer: Answer, leave: Leave) -> bool {
    part.mutator == mutator
        && part.first == first
        && part.answers.as_slice() == [answer].as_slice()
        && part.leave == leave
}

// By hand: the turns go round. Each mutator prepares the claim of the nursery's front; the first one's is made, at word 512, with a
// buffer of 16 words, and the other's is lost and made at word 528. The minor pause pins both objects, and its gaps have 12 and 236 words; the
// major one behind it keeps both.
// No buffer is left, so that the next object is made at word 532.
#[test]
fn two_mutators(rt: HostRuntime) -> Result<(), Fail> {
    let program = program(rt.alloc())?;
    let Some(ran) = go_twice(rt.alloc(), &program)? else {
        return Err("no stop".into());
    };
    let Ran {
        first,
        stop,
        second,
        done,
    } = ran;
    let front = Addr::of(4096).ok_or("an address")?;
    let middle = Addr::of(4224).ok_or("an address")?;
    let back = Addr::of(4256).ok_or("an address")?;
    assert_eq!(rt; first.number, 0);
    let parts = first.parts.into_vec();
    assert_eq!(rt; parts.len(), 2);
    assert!(rt;
        tells(
            &parts[0],
            0,
            0,
            Answer::At(front),
            Leave::Wants(Request::Major)
        )
    );
    assert!(rt; tells(&parts[1], 1, 0, Answer::At(middle), Leave::Yield));
    assert_eq!(rt; stop.number, 0);
    let minor = stop.minor.ok_or("a pause")?;
    let pins = minor.pins.into_vec();
    assert_eq!(rt; pins.len(), 2);
    assert_eq!(rt; pins[0], front);
    assert_eq!(rt; pins[1], middle);
    assert_eq!(rt; minor.moves.into_vec().len(), 0);
    assert_eq!(rt; minor.fails.into_vec().len(), 0);
    assert_eq!(rt; minor.spares, 0);
    let pieces = minor.pieces.into_vec();
    assert_eq!(rt; pieces.len(), 2);
    assert_eq!(rt;
        pieces[0],
        Piece::Waste {
            at: front.plus(4),
            words: 12
        }
    );
    assert_eq!(rt;
        pieces[1],
        Piece::Frag {
            at: back,
            words: 236
        }
    );
    let served = stop.served.into_vec();
    assert_eq!(rt; served.len(), 1);
    assert_eq!(rt; served[0].mutator, 0);
    assert_eq!(rt; served[0].statement, 1);
    assert_eq!(rt; served[0].answer, Answer::Fine);
    assert!(rt; served[0].sections.is_none());
    let major = stop.major.ok_or("a major pause")?;
    assert_eq!(rt; major.kept, 2);
    assert_eq!(rt; major.freed, 0);
    assert_eq!(rt; major.pieces.into_vec().len(), 2);
    assert_eq!(rt; second.number, 1);
    assert!(rt; second.last);
    let parts = second.parts.into_vec();
    assert_eq!(rt; parts.len(), 2);
    assert!(rt; tells(&parts[0], 0, 2, Answer::Fine, Leave::Ended));
    assert!(rt; tells(&parts[1], 1, 1, Answer::At(back), Leave::Ended));
    assert!(rt; done);
    Ok(())
}

// By hand: the major heap begins at word 768, and an object of 64 words has one of four slots of its block. The last one finds no slot, so that a stop
// is asked for: the minor pause frees no block, the major one finds that the second object isn't held any more, and behind the sweep its slot is open.
#[test]
fn a_full_block(rt: HostRuntime) -> Result<(), Fail> {
    let program = crowded(rt.alloc())?;
    let Some(ran) = go_twice(rt.alloc(), &program)? else {
        return Err("no stop".into());
    };
    let Ran {
        first,
        stop,
        second,
        done,
    } = ran;
    let parts = first.parts.into_vec();
    assert_eq!(rt; parts.len(), 1);
    assert_eq!(rt; parts[0].leave, Leave::Wants(Request::Slot { size: 64 }));
    let answers = parts[0].answers.as_slice();
    assert_eq!(rt; answers.len(), 5);
    let front = Addr::of(6144).ok_or("an address")?;
    let open = Addr::of(6656).ok_or("an address")?;
    assert_eq!(rt; answers[0], Answer::At(front));
    assert_eq!(rt; answers[1], Answer::At(open));
    assert_eq!(rt; answers[2], Answer::At(front.plus(128)));
    assert_eq!(rt; answers[3], Answer::At(front.plus(192)));
    assert_eq!(rt; answers[4], Answer::Fine);
    let minor = stop.minor.ok_or("a pause")?;
    assert_eq!(rt; minor.pins.into_vec().len(), 0);
    let major = stop.major.ok_or("a major pause")?;
    assert_eq!(rt; major.kept, 3);
    assert_eq!(rt; major.freed, 1);
    let served = stop.served.into_vec();
    assert_eq!(rt; served.len(), 1);
    assert_eq!(rt; served[0].statement, 5);
    assert_eq!(rt; served[0].answer, Answer::At(open));
    assert!(rt; second.last);
    assert!(rt; done);
    Ok(())
}
