// A whole run, and its trace, piece by piece.
ghost use Rattle.std.specs.Prelude.{◌≡◌, ℕ, ◌+◌, ◌≤◌, ◌++◌, List, [], ◌∷◌, IfOk, IfErr};
ghost use Rattle.std.specs.Io.KnownBytes.{Appends};
ghost use Rattle.sg_io.specs.Progress.{TakesSome};
ghost use Rattle.sg_graph.specs.declared.reports.EpochReport.{EpochReport as AnyEpoch};
ghost use Rattle.sg_graph.specs.declared.reports.StopReport.{StopReport as AnyStop};
ghost use Rattle.sg_words.specs.Schedule.{Schedule};
ghost use Rattle.sg_graph.specs.Run.{Phase, Epoch, Stop};
ghost use Rattle.sg_graph.specs.Follows.{IsRunBy, IsWholeRunBy};
ghost use Rattle.sg_trace.specs.Trace.{text, epoch_text, stop_text};
ghost use Rattle.sg_graph.specs.Epoch.{Said};
ghost use Rattle.sg_program.specs.declared.program.Program.{Program as AnyProgram};
ghost use Rattle.sg_world.specs.Worlds.{CanRun, IsBetween, IsAtStop, ComesTo};
ghost use Rattle.sg_run.specs.Running.{StopsRunning, BreaksOff};

use crate::output::write_piece;
use sg_cells::ScheduleDriver;
use sg_graph::Program;
use sg_io::{Failed, Sink};
use sg_trace::{append_epoch, append_stop};
use sg_world::World;
use std::alloc::Global;

/// Why a run stopped early.
#[derive(Clone, Copy, Debug, PartialEq, Eq)]
pub(crate) enum RunError {
    /// The sink failed.
    Sink,
    /// There was no memory.
    Memory,
}

/// Runs a program to its end, with the turns of its mutators in the order of this list and then in rotation, and writes the text of
/// its run piece by piece: each epoch is a piece, and each stop.
///
/// Where it stops early, a front of the text of the run as far as it went was taken, with all pieces before. Takes the
/// memory of one piece beside that of the run. Linear in the turns and in the words of the space, beside the pauses.
pub(crate) fn execute<O: Sink>(
    alloc: Global,
    program: &Program,
    turns: &[u32],
    sink: &mut O,
) -> Result<(), RunError>
    requires { CanRun program.now }
    ensures whole { IfOk result (λ _. (phases : List Phase) × IsWholeRunBy program.now turns.now phases × Appends (O.taken sink.old) (O.taken sink.new) (text phases)) }
    ensures front { IfErr result (λ _. (phases : List Phase) × IsRunBy program.now turns.now phases × TakesSome (O.taken sink.old) (O.taken sink.new) (text phases)) }
    ensures cause { IfErr result (λ error. StopsRunning error (O.faults sink.old) (O.faults sink.new)) }
{
    let Ok(mut order) = ScheduleDriver::new(alloc, turns) else {
        return Err(RunError::Memory);
    };
    let Ok(mut world) = World::start(alloc, program) else {
        return Err(RunError::Memory);
    };
    loop {
        let (after, last) = write_epoch(alloc, world, &mut order, sink)?;
        if last {
            return Ok(());
        }
        world = write_stop(alloc, after, sink)?;
    }
}

/// Lets the world go on to the end of its next epoch, and writes the epoch's text. The answer is the world then, and whether that epoch was the last.
fn write_epoch<'a, O: Sink>(
    alloc: Global,
    world: World<'a>,
    order: &mut ScheduleDriver,
    sink: &mut O,
) -> Result<(World<'a>, bool), RunError>
    requires { (p : AnyProgram) × (turns : List ℕ) × (phases : List Phase) × IsBetween p turns phases world order.old }
    ensures written { IfOk result (λ r. (report : AnyEpoch) × (r.1 ≡ report.last)
        × ((p : AnyProgram) (turns : List ℕ) (phases : List Phase) → IsBetween p turns phases world.entry order.old → ComesTo p turns phases report r.0 order.new)
        × Appends (O.taken sink.old) (O.taken sink.new) (epoch_text report)) }
    ensures number { IfOk result (λ r. r.0.number ≡ world.entry.number) }
    ensures front { IfErr result (λ _. (p : AnyProgram) (turns : List ℕ) (phases : List Phase) → IsBetween p turns phases world.entry order.old → BreaksOff p turns phases (O.taken sink.old) (O.taken sink.new)) }
    ensures cause { IfErr result (λ error. StopsRunning error (O.faults sink.old) (O.faults sink.new)) }
    ensures never_falls { O.faults sink.old ≤ O.faults sink.new }
{
    let Ok((after, report)) = world.epoch(alloc, order) else {
        return Err(RunError::Memory);
    };
    let mut piece = Vec::new(alloc);
    let Ok(()) = append_epoch(alloc, &mut piece, &report) else {
        return Err(RunError::Memory);
    };
    match write_piece(sink, piece.as_slice()) {
        Ok(()) => Ok((after, report.last)),
        Err(Failed) => Err(RunError::Sink),
    }
}

/// Makes the stop that comes next, and writes its text. The answer is the world behind it.
fn write_stop<'a, O: Sink>(
    alloc: Global,
    world: World<'a>,
    sink: &mut O,
) -> Result<World<'a>, RunError>
    requires { (p : AnyProgram) × (turns : List ℕ) × (phases : List Phase) × (report : AnyEpoch) × (order : List Said) × (swept : List ℕ) × (schedule : Schedule)
        × IsAtStop p turns phases report order swept world schedule }
    ensures written { IfOk result (λ next. (stop : AnyStop)
        × ((p : AnyProgram) (turns : List ℕ) (phases : List Phase) (report : AnyEpoch) (order : List Said) (swept : List ℕ) (schedule : Schedule) → IsAtStop p turns phases report order swept world.entry schedule →
        IsBetween p turns (phases ++ Epoch report order swept ∷ Stop stop ∷ []) next schedule)
        × Appends (O.taken sink.old) (O.taken sink.new) (stop_text stop)) }
    ensures number { IfOk result (λ next. next.number ≡ world.entry.number + 1) }
    ensures front { IfErr result (λ _. (p : AnyProgram) (turns : List ℕ) (phases : List Phase) (report : AnyEpoch) (order : List Said) (swept : List ℕ) (schedule : Schedule) → IsAtStop p turns phases report order swept world.entry schedule →
        BreaksOff p turns (phases ++ Epoch report order swept ∷ []) (O.taken sink.old) (O.taken sink.new)) }
    ensures cause { IfErr result (λ error. StopsRunning error (O.faults sink.old) (O.faults sink.new)) }
    ensures never_falls { O.faults sink.old ≤ O.faults sink.new }
{
    let Ok((next, stop)) = world.stop(alloc) else {
        return Err(RunError::Memory);
    };
    let mut piece = Vec::new(alloc);
    let Ok(()) = append_stop(alloc, &mut piece, &stop) else {
        return Err(RunError::Memory);
    };
    match write_piece(sink, piece.as_slice()) {
        Ok(()) => Ok(next),
        Err(Failed) => Err(RunError::Sink),
    }
}
