//! The job that the words of the command line ask for.
ghost use Rattle.std.specs.Prelude.{◌≡◌, map, string_bytes, IfOk, MatchOption};
ghost use Rattle.sg_command.specs.Command.{IsCommand, IsAnyCommand, usage_lines};

use crate::numbers::load_in;
use crate::turns::turns_in;
use sg_words::List;
use std::alloc::{AllocError, Global};

/// What a command asks for.
#[derive(Debug, Drop)]
pub enum Job {
    /// To read a program from the source, to run it, and to write its trace to the sink.
    Run,
    /// The same, with the turns of the mutators in the order of a list.
    Replay {
        /// The numbers of the list in order: 1 to 65,536 of them, each from 0 to 63.
        turns: List<u32>,
    },
    /// To make a program of four mutators from a seed and a size, to run it, and to write the summary of its run to the sink.
    Gen {
        /// From which its numbers are drawn.
        seed: u64,
        /// How many statements its mutators have together, rounded down to a multiple of 24: 24 to 80,000.
        size: u32,
    },
}

/// The job that the words behind the program's name ask for, or none where they are no command: `run`, `replay N,N,N` with a
/// list of numbers, or `gen SEED SIZE`.
///
/// The one error is want of memory for the list. It takes time linear in the bytes of the words.
pub fn command(alloc: Global, words: &[String]) -> Result<Option<Job>, AllocError>
    ensures { IfOk result (λ job. MatchOption job (¬ IsAnyCommand (map string_bytes words.now)) (IsCommand (map string_bytes words.now))) }
{
    match words {
        [name] if name.as_str() == "run" => Ok(Some(Job::Run)),
        [name, list] if name.as_str() == "replay" => match turns_in(alloc, list.as_bytes())? {
            Some(turns) => Ok(Some(Job::Replay { turns })),
            None => Ok(None),
        },
        [name, seed, size] if name.as_str() == "gen" => match load_in(
            seed.as_str(),
            size.as_str(),
        ) {
            Some((seed, size)) => Ok(Some(Job::Gen { seed, size })),
            None => Ok(None),
        },
        _ => Ok(None),
    }
}

/// The lines that tell the commands, one for each.
pub fn usage() -> &'static [u8]
    ensures { result.now ≡ usage_lines }
{
    b"usage: sgenlab run\nusage: sgenlab replay N,N,N\nusage: sgenlab gen SEED SIZE\n"
}
