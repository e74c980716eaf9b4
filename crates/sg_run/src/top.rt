// The top call: the words, the input, the run and its text.
ghost use Rattle.std.specs.Prelude.{◌≡◌, ◌≢◌, ◌≤◌, List, map, string_bytes, IsFalse, IfOk, IfErr, IfSome};
ghost use Rattle.std.specs.Io.KnownBytes.{IsAtEnd};
ghost use Rattle.sg_parse.specs.declared.refusal.Refusal.{Refusal as AnyRefusal};
ghost use Rattle.sg_parse.specs.Accepted.{IsAccepted, IsAcceptedAs};
ghost use Rattle.sg_world.specs.Worlds.{CanRun};
ghost use Rattle.sg_run.specs.Ends.{ends_of};
ghost use Rattle.sg_run.specs.Input.{StopsReading};
ghost use Rattle.sg_command.specs.Command.{IsLoad};
ghost use Rattle.sg_run.specs.Jobs.{HasLoad};
ghost use Rattle.sg_run.specs.Summing.{Summarizes};
ghost use Rattle.sg_run.specs.declared.refusal.Cause.TheVariants.{Refused};
ghost use Rattle.sg_run.specs.Causes.{IsCause, refusal_line as line_of};
ghost use Rattle.sg_run.specs.Refusing.{Refuses};
ghost use Rattle.sg_run.specs.Status.{status_of};
ghost use Rattle.sg_run.specs.Top.{Headline, Usage, Refusal as RefusalClause, ReadFault, WriteFault, Front, Complete, Promises};
ghost use Rattle.sg_run.specs.Performing.{Performs, RunsBy};

use crate::execution::{RunError, execute};
use crate::input::{ReadError, read_input};
use crate::output::write_piece;
use crate::refusal::{Cause, refusal_line};
use crate::summary::summary_of;
use sg_cells::Gate;
use sg_command::{Job, command, one_job, usage};
use sg_graph::{Program, runs_by_turns};
use sg_io::{Failed, Sink, Source};
use sg_kinds::check;
use sg_parse::{Refusal, parse};
use sg_program::items_do_what_is_written;
use sg_rules::built_runs;
use std::alloc::{AllocError, Global};
use std::thread::Threads;

// How a call ended.
#[derive(Clone, Copy)]
enum Ending {
    Done,
    NoCommand,
    NotAccepted,
    SourceFailed,
    SinkFailed,
    NoMemory,
}

impl Ending {
    fn status(self) -> u8
        ensures { result ≡ status_of self }
    {
        match self {
            Ending::Done => 0,
            Ending::NoCommand => 1,
            Ending::NotAccepted => 2,
            Ending::SourceFailed => 3,
            Ending::SinkFailed => 4,
            Ending::NoMemory => 5,
        }
    }
}

/// Does what the words after the program's name say: `run` reads a program from the source to its end, runs it, and
/// writes the trace to the sink as the run goes on: each epoch is a piece, and each stop; `replay` does the same with the turns
/// of the mutators in the order of a list. `gen` reads nothing: it makes a program of four mutators from a seed and a size, runs it,
/// and writes a summary as one piece: how many statements each mutator answered, and the sum of the numbers that it read. The answer is the
/// exit status:
///
/// - 0: done, the whole trace or summary was written.
/// - 1: the words are no command; a usage line for each command was written and nothing was read.
/// - 2: the input isn't accepted; one line was written that tells why: `refused long` where it is longer than 1,048,576 bytes,
///   else `refused syntax LINE` at the first line that the grammar refuses, else `refused class LINE` at the first one that
///   misnames a class, else `refused limit LINE WHICH` at the first one that breaks a limit, else `refused later LINE` at the
///   first one that isn't run yet, else `refused kind MUTATOR STATEMENT` at the first misuse of a kind.
/// - 3: a read failed, and nothing was written.
/// - 4: a write failed, and a front of what would have been written was taken.
/// - 5: memory ran out. This may come in place of any other status, and a front of what would have been written was
///   taken.
///
/// The words decide first, then reading, then acceptance, then the run. It takes time linear in the bytes of the input, in
/// the statements that are done (those of a repeat as often as it says) times the fragments of the nursery, and in the words
/// of the space, beside the time of the pauses.
pub fn run<R: Threads + Sync, S: Source, O: Sink, G: Gate + Sync>(
    rt: &R,
    alloc: Global,
    words: &[String],
    source: &mut S,
    sink: &mut O,
    gate: &G,
) -> u8
    ensures headline { Headline (map string_bytes words.now) (ends_of S.left S.faults O.taken O.faults source.old sink.old)
        (ends_of S.left S.faults O.taken O.faults source.new sink.new) result }
    ensures usage { Usage (map string_bytes words.now) (ends_of S.left S.faults O.taken O.faults source.old sink.old)
        (ends_of S.left S.faults O.taken O.faults source.new sink.new) result }
    ensures refusal { RefusalClause (map string_bytes words.now) (ends_of S.left S.faults O.taken O.faults source.old sink.old)
        (ends_of S.left S.faults O.taken O.faults source.new sink.new) result }
    ensures read_fault { ReadFault (map string_bytes words.now) (ends_of S.left S.faults O.taken O.faults source.old sink.old)
        (ends_of S.left S.faults O.taken O.faults source.new sink.new) result }
    ensures write_fault { WriteFault (ends_of S.left S.faults O.taken O.faults source.old sink.old)
        (ends_of S.left S.faults O.taken O.faults source.new sink.new) result }
    ensures front { Front (map string_bytes words.now) (ends_of S.left S.faults O.taken O.faults source.old sink.old)
        (ends_of S.left S.faults O.taken O.faults source.new sink.new) result }
    ensures complete { Complete (map string_bytes words.now) (ends_of S.left S.faults O.taken O.faults source.old sink.old)
        (ends_of S.left S.faults O.taken O.faults source.new sink.new) result }
    ensures status { result ≤ 5 }
{
    let _ = rt;
    let _ = gate;
    conclude(alloc, words, source, sink).status()
}

fn conclude<S: Source, O: Sink>(
    alloc: Global,
    words: &[String],
    source: &mut S,
    sink: &mut O,
) -> Ending
    ensures { Promises (map string_bytes words.now) (ends_of S.left S.faults O.taken O.faults source.old sink.old)
        (ends_of S.left S.faults O.taken O.faults source.new sink.new) (status_of result) }
{
    // The laws that it rests on: these calls do nothing.
    one_job();
    runs_by_turns();
    let job = match command(alloc, words) {
        Ok(job) => job,
        Err(AllocError) => return Ending::NoMemory,
    };
    match job {
        Some(job) => perform(alloc, &job, source, sink),
        None => match write_piece(sink, usage()) {
            Ok(()) => Ending::NoCommand,
            Err(Failed) => Ending::SinkFailed,
        },
    }
}

// Does a job.
fn perform<S: Source, O: Sink>(alloc: Global, job: &Job, source: &mut S, sink: &mut O) -> Ending
    requires { HasLoad job.now }
    ensures { Performs job.now (ends_of S.left S.faults O.taken O.faults source.old sink.old)
        (ends_of S.left S.faults O.taken O.faults source.new sink.new) (status_of result) }
{
    // The law that it rests on: this call does nothing.
    runs_by_turns();
    match job {
        Job::Run => run_program(alloc, &[], source, sink),
        Job::Replay { turns } => run_program(alloc, turns.as_slice(), source, sink),
        Job::Gen { seed, size } => summarize(alloc, *seed, *size, sink),
    }
}

// Runs the program of this seed and size, and writes the summary of its run.
fn summarize<O: Sink>(alloc: Global, seed: u64, size: u32, sink: &mut O) -> Ending
    requires { IsLoad seed size }
    ensures { Summarizes seed size (O.taken sink.old) (O.taken sink.new) (O.faults sink.old) (O.faults sink.new) result }
{
    let text = match summary_of(alloc, seed, size) {
        Ok(text) => text,
        Err(AllocError) => return Ending::NoMemory,
    };
    match write_piece(sink, text.as_slice()) {
        Ok(()) => Ending::Done,
        Err(Failed) => Ending::SinkFailed,
    }
}

// Reads a program to its end, runs it, and writes its trace; or writes why the input isn't accepted.
fn run_program<S: Source, O: Sink>(
    alloc: Global,
    turns: &[u32],
    source: &mut S,
    sink: &mut O,
) -> Ending
    ensures { RunsBy turns.now (ends_of S.left S.faults O.taken O.faults source.old sink.old)
        (ends_of S.left S.faults O.taken O.faults source.new sink.new) (status_of result) }
{
    let program = match read_program(alloc, source) {
        Ok(Ok(program)) => program,
        Ok(Err(cause)) => return refuse(alloc, sink, cause),
        Err(ReadError::Source) => return Ending::SourceFailed,
        Err(ReadError::Memory) => return Ending::NoMemory,
    };
    match execute(alloc, &program, turns, sink) {
        Ok(()) => Ending::Done,
        Err(RunError::Sink) => Ending::SinkFailed,
        Err(RunError::Memory) => Ending::NoMemory,
    }
}

// Writes the line that tells the cause.
fn refuse<O: Sink>(alloc: Global, sink: &mut O, cause: Cause) -> Ending
    ensures { Refuses (O.taken sink.old) (O.taken sink.new) (O.faults sink.old) (O.faults sink.new) (line_of cause) result }
{
    let line = match refusal_line(alloc, cause) {
        Ok(line) => line,
        Err(AllocError) => return Ending::NoMemory,
    };
    match write_piece(sink, line.as_slice()) {
        Ok(()) => Ending::NotAccepted,
        Err(Failed) => Ending::SinkFailed,
    }
}

// The program as which the source's bytes are accepted, or why they aren't.
fn read_program<S: Source>(
    alloc: Global,
    source: &mut S,
) -> Result<Result<Program, Cause>, ReadError>
    ensures found { IfOk result (λ read. IfOk read (λ program. IfSome (S.left source.old) (λ input. IsAcceptedAs input program))) }
    ensures cause { IfOk result (λ read. IfErr read (λ cause. IfSome (S.left source.old) (λ input. IsCause input cause))) }
    ensures told { IfOk result (λ read. IfErr read (λ cause. cause ≢ Refused AnyRefusal.Memory)) }
    ensures none { IfOk result (λ read. IfErr read (λ _. IfSome (S.left source.old) (λ input. ¬ IsAccepted input))) }
    ensures can { IfOk result (λ read. IfOk read CanRun) }
    ensures at_end { IfOk result (λ read. IfOk read (λ _. IsAtEnd (S.left source.new))) }
    ensures stops { IfErr result (λ error. StopsReading error (S.faults source.old) (S.faults source.new)) }
{
    let bytes = read_input(alloc, source)?;
    match accept(alloc, bytes.as_slice()) {
        Ok(read) => Ok(read),
        Err(AllocError) => Err(ReadError::Memory),
    }
}

// The program as which the bytes are accepted, or why they aren't.
pub(crate) fn accept(alloc: Global, bytes: &[u8]) -> Result<Result<Program, Cause>, AllocError>
    ensures found { IfOk result (λ read. IfOk read (IsAcceptedAs bytes.now)) }
    ensures cause { IfOk result (λ read. IfErr read (IsCause bytes.now)) }
    ensures told { IfOk result (λ read. IfErr read (λ cause. cause ≢ Refused AnyRefusal.Memory)) }
    ensures none { IfOk result (λ read. IfErr read (λ _. ¬ IsAccepted bytes.now)) }
    ensures can { IfOk result (λ read. IfOk read CanRun) }
{
    // The laws that it rests on: these calls do nothing.
    items_do_what_is_written();
    built_runs();
    let program = match parse(alloc, bytes) {
        Ok(program) => program,
        Err(refusal) => {
            if is_memory(refusal) {
                return Err(AllocError);
            }
            return Ok(Err(Cause::Refused(refusal)));
        }
    };
    match check(&program) {
        Ok(()) => Ok(Ok(program)),
        Err(fault) => Ok(Err(Cause::Misused(fault))),
    }
}

// Whether memory was wanted.
fn is_memory(refusal: Refusal) -> bool
    ensures { IsFalse result → refusal ≢ AnyRefusal.Memory }
{
    match refusal {
        Refusal::Memory => true,
        Refusal::TooLong => false,
        Refusal::Syntax { .. } => false,
        Refusal::Class { .. } => false,
        Refusal::Limit { .. } => false,
        Refusal::Later { .. } => false,
    }
}
