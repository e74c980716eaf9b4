ghost use Rattle.std.specs.Prelude.{◌≡◌, ◌+◌, ◌++◌, ◌∷◌, [], ℕ, List as Sequence, length, map, true, ◌↔◌, IfOk};
ghost use Rattle.sg_words.specs.Schedule.{Schedule};
ghost use Rattle.sg_program.specs.declared.program.Program.{Program as AnyProgram};
ghost use Rattle.sg_program.specs.declared.program.Class.{Class as AnyClass};
ghost use Rattle.sg_program.specs.Invariants.{IsWithinLimits};
ghost use Rattle.sg_graph.specs.declared.reports.EpochReport.{EpochReport as AnyEpoch};
ghost use Rattle.sg_graph.specs.Epoch.{Said};
ghost use Rattle.sg_graph.specs.Run.{Phase, Epoch, Stop};
ghost use Rattle.sg_graph.specs.Follows.{whole_schedule};
ghost use Rattle.sg_world.specs.Worlds.{CanRun, IsBetween, IsAtStop, ComesTo};
ghost use Rattle.sg_world.specs.Starting.{AreNew};
ghost use Rattle.sg_world.specs.Telling.{HaveEnded};

use crate::reports::{epoch_report, going, have_ended};
use crate::serving::serve_all;
use crate::stop::{Halted, ambiguous, halt, may_owe, settle_buffers};
use crate::wants::wants_of;
use sg_actor::Mutator;
use sg_cells::ScheduleDriver;
use sg_desc::Shape;
use sg_graph::{
    Class, Config, EpochReport, Program, StopReport, keeps_in_major, keeps_pointed_into,
};
use sg_mutate::epoch;
use sg_order::{first_opening, held_is_sound, held_whoever, stays_ready};
use sg_space::{Layout, Space};
use sg_words::List;
use std::alloc::{AllocError, Global};
use std::marker::Model;

/// A program's space and its mutators, between two epochs or before a stop.
#[derive(Drop)]
pub struct World<'a> {
    program: &'a Program,
    space: Space,
    mutators: List<Mutator<'a>>,
    number: u32,
    /// Whether some block may be owed.
    owes: bool,
}

impl<'a> Model for World<'a> {
    ghost use Rattle.sg_program.specs.contracts.program.Item as e;
    ghost use Rattle.std.specs.Coded.{codes};
    ghost use Rattle.sg_world.specs.Worlds.{Worldly};

    ghost Value = { Worldly };

    ghost coded = { Prim.hlevel (codes, e.the_row.coded) };

    ghost view = { λ w. record { program = w.program.now; space = w.space; mutators = w.mutators; number = w.number; owes = w.owes } };
}

impl<'a> World<'a> {
    /// A world before the program's first epoch. Takes all the memory that its mutators need, and time linear in the words of
    /// the space and in the written statements.
    pub fn start(alloc: Global, program: &'a Program) -> Result<World<'a>, AllocError>
        requires { CanRun program.now }
        ensures { IfOk result (λ world. (turns : Sequence ℕ) → IsBetween program.now turns [] world (whole_schedule turns)) }
    {
        // The law that it rests on: this call does nothing.
        first_opening();
        let shapes = shapes_of(alloc, program.classes.as_slice())?;
        Ok(World {
            program,
            space: Space::new(alloc, layout_of(&program.config), &shapes)?,
            mutators: List::from_vec(mutators_of(alloc, program)?),
            number: 0,
            owes: false,
        })
    }

    /// The epoch that comes next: the mutators take turns in the order of the driver until each has left. Takes memory for the report:
    /// its answers. Linear in the turns.
    pub fn epoch(
        self,
        alloc: Global,
        order: &mut ScheduleDriver,
    ) -> Result<(World<'a>, EpochReport), AllocError>
        requires { (p : AnyProgram) × (turns : Sequence ℕ) × (phases : Sequence Phase) × IsBetween p turns phases self order.old }
        ensures comes { IfOk result (λ r. (p : AnyProgram) (turns : Sequence ℕ) (phases : Sequence Phase) → IsBetween p turns phases self.entry order.old →
            ComesTo p turns phases r.1 r.0 order.new) }
        ensures number { IfOk result (λ r. r.0.number ≡ self.entry.number) }
    {
        // The laws that it rests on: these calls do nothing.
        stays_ready();
        held_is_sound();
        held_whoever();
        let ran = going(alloc, self.mutators.as_slice())?;
        let end = epoch(alloc, self.space, self.mutators, order)?;
        let _ = end.space.layout();
        let report = epoch_report(alloc, self.number, ran.as_slice(), end.mutators.as_slice())?;
        let world = World {
            program: self.program,
            space: end.space,
            mutators: end.mutators,
            number: self.number,
            owes: self.owes,
        };
        Ok((world, report))
    }

    /// The stop that comes next: the owed sweep, the pauses that the requests want, and an answer to each request. Takes the time and the memory
    /// of these pauses, and memory for the report.
    pub fn stop(self, alloc: Global) -> Result<(World<'a>, StopReport), AllocError>
        requires { (p : AnyProgram) × (turns : Sequence ℕ) × (phases : Sequence Phase) × (report : AnyEpoch) × (order : Sequence Said)
            × (swept : Sequence ℕ) × (schedule : Schedule) × IsAtStop p turns phases report order swept self schedule }
        ensures between { IfOk result (λ r. (p : AnyProgram) (turns : Sequence ℕ) (phases : Sequence Phase) (report : AnyEpoch) (order : Sequence Said)
            (swept : Sequence ℕ) (schedule : Schedule) → IsAtStop p turns phases report order swept self.entry schedule →
            IsBetween p turns (phases ++ Epoch report order swept ∷ Stop r.1 ∷ []) r.0 schedule) }
        ensures number { IfOk result (λ r. r.0.number ≡ self.entry.number + 1) }
    {
        // The laws that it rests on: these calls do nothing.
        keeps_pointed_into();
        keeps_in_major();
        stays_ready();
        held_is_sound();
        let mut mutators = self.mutators.into_vec();
        let words = ambiguous(alloc, mutators.as_slice())?;
        let wants = wants_of(alloc, mutators.as_slice())?;
        let halted = halt(alloc, self.space, self.owes, words.as_slice(), &wants)?;
        let Halted {
            space,
            minor,
            major,
            room,
        } = halted;
        settle_buffers(&minor, mutators.as_mut_slice());
        let owes = may_owe(&major, room);
        let mut space = space;
        let served = serve_all(
            alloc,
            self.program,
            &mut space,
            mutators.as_mut_slice(),
            room,
        )?;
        let report = StopReport {
            number: self.number,
            minor,
            major,
            served,
        };
        let world = World {
            program: self.program,
            space,
            mutators: List::from_vec(mutators),
            number: self.number + 1,
            owes,
        };
        Ok((world, report))
    }

    /// The space as it is, for a caller that looks into it. Nothing goes on in this world any more.
    pub fn into_space(self) -> Space
        ensures { result ≡ self.entry.space }
    {
        self.space
    }

    /// Whether every mutator has ended.
    pub fn done(&self) -> bool
        ensures { result ≡ true ↔ HaveEnded self.now.mutators }
    {
        have_ended(self.mutators.as_slice())
    }
}

/// The program's mutators, before their first statements.
fn mutators_of<'a>(alloc: Global, program: &'a Program) -> Result<Vec<Mutator<'a>>, AllocError>
    requires { IsWithinLimits program.now }
    ensures { IfOk result (λ mutators. AreNew program.now (length program.now.mutators) mutators.items) }
{
    let count = program.mutators.as_slice().len();
    let mut mutators = Vec::with_capacity(alloc, count)?;
    for k in 0..count {
        mutators.push(Mutator::new(alloc, k as u32, program)?)?;
    }
    Ok(mutators)
}

/// The sections of a program's space.
fn layout_of(config: &Config) -> Layout
    ensures { result ≡ record { nursery = config.now.nursery; blocks = config.now.blocks; pages = config.now.pages } }
{
    Layout {
        nursery: config.nursery,
        blocks: config.blocks,
        pages: config.pages,
    }
}

/// The shapes of these classes, in order.
fn shapes_of(alloc: Global, classes: &[Class]) -> Result<Vec<Shape>, AllocError>
    ensures { IfOk result (λ shapes. shapes.items ≡ map (λ (class : AnyClass). class.shape) classes.now) }
{
    let mut shapes = Vec::with_capacity(alloc, classes.len())?;
    for class in classes {
        shapes.push(class.shape)?;
    }
    Ok(shapes)
}
