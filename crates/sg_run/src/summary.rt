// The summary of a generated program's run.
ghost use Rattle.std.specs.Prelude.{◌≡◌, length, List, [], IfOk};
ghost use Rattle.sg_graph.specs.Run.{Phase};
ghost use Rattle.sg_graph.specs.Follows.{IsWholeRunBy};
ghost use Rattle.sg_command.specs.Command.{IsLoad};
ghost use Rattle.sg_gen.specs.Generated.{script_text};
ghost use Rattle.sg_load.specs.Summary.{tallies_of};
ghost use Rattle.sg_load.specs.Generated.{generated as generated_of};
ghost use Rattle.sg_parse.specs.Accepted.{IsAcceptedAs};
ghost use Rattle.sg_world.specs.Worlds.{CanRun};
ghost use Rattle.sg_run.specs.Jobs.{SumsUp};

use crate::top::accept;
use sg_accepted::generated_are_accepted;
use sg_cells::ScheduleDriver;
use sg_gen::script;
use sg_grammar::one_reading;
use sg_graph::{Program, runs_by_turns};
use sg_load::{Tally, answers_are_counted, append_summary, count_epoch, count_stop};
use sg_world::World;
use std::alloc::{AllocError, Global};

/// The summary of a whole run of the program of this seed and size, with the turns in rotation. The one error is want of memory. Takes the
/// memory of the run and of the program's text, and the time of reading it and of the run.
pub(crate) fn summary_of(alloc: Global, seed: u64, size: u32) -> Result<Vec<u8>, AllocError>
    requires { IsLoad seed size }
    ensures { IfOk result (λ text. SumsUp seed size text.items) }
{
    // The law that it rests on: this call does nothing.
    runs_by_turns();
    let program = generated(alloc, seed, size)?;
    let tallies = tallies_in_run(alloc, &program)?;
    let mut text = Vec::new(alloc);
    append_summary(&mut text, seed, size, &tallies)?;
    Ok(text)
}

/// The program as which the text of this seed and size is accepted.
fn generated(alloc: Global, seed: u64, size: u32) -> Result<Program, AllocError>
    requires { IsLoad seed size }
    ensures accepted { IfOk result (λ program. IsAcceptedAs (script_text seed size) program) }
    ensures same { IfOk result (λ program. program ≡ generated_of seed size) }
    ensures can { IfOk result CanRun }
{
    // The laws that it rests on: these calls do nothing.
    generated_are_accepted();
    one_reading();
    let text = script(alloc, seed, size)?;
    let Ok(program) = accept(alloc, text.as_slice())? else {
        unreachable!();
    };
    Ok(program)
}

/// What the answers of each of four mutators come to in a whole run of this program.
fn tallies_in_run(alloc: Global, program: &Program) -> Result<[Tally; 4], AllocError>
    requires can { CanRun program.now }
    requires four { length program.now.mutators ≡ 4 }
    ensures { IfOk result (λ tallies. (phases : List Phase) × IsWholeRunBy program.now [] phases × (tallies ≡ tallies_of phases)) }
{
    // The laws that it rests on: these calls do nothing.
    answers_are_counted();
    runs_by_turns();
    let mut order = ScheduleDriver::new(alloc, &[])?;
    let mut world = World::start(alloc, program)?;
    let mut tallies = [Tally {
        statements: 0,
        sum: 0,
    }; 4];
    loop {
        let (after, report) = world.epoch(alloc, &mut order)?;
        count_epoch(&mut tallies, &report);
        if report.last {
            return Ok(tallies);
        }
        let (next, stop) = after.stop(alloc)?;
        count_stop(&mut tallies, &stop);
        world = next;
    }
}
