//! The program `sgenlab`: `sgenlab run` reads a program from standard input, runs it and writes its trace to standard
//! output; `sgenlab replay N,N,N` does so with the turns of the mutators in the order of a list. The exit status tells how
//! it ended.
#![tactic(auto)]

use sg_io::{OutOfMemory, StdSink, StdSource};
use sg_run::{OpenGate, run};
use std::alloc::AllocError;
use std::env;
use std::io::ErrorKind;
use std::process::ExitCode;

// The exit status where memory ran out.
const NO_MEMORY: u8 = 5;

fn main(rt: HostRuntime) -> ExitCode {
    let words = match given_words(&rt) {
        Ok(words) => words,
        Err(AllocError) => return ExitCode::from(NO_MEMORY),
    };
    let mut source = StdSource::new(rt.stdin());
    let mut sink = StdSink::new(rt.stdout());
    let status = run(
        &rt,
        rt.alloc(),
        words.as_slice(),
        &mut source,
        &mut sink,
        &OpenGate,
    );
    ExitCode::from(status)
}

// The words after the program's name; none where one of them is no text, so that they are no command.
fn given_words(rt: &HostRuntime) -> Result<Vec<String>, OutOfMemory> {
    match env::args(rt) {
        Ok(all) => all.skip(1).collect(rt.alloc()),
        Err(error) if error.kind() == ErrorKind::OutOfMemory => Err(AllocError),
        Err(_) => Ok(Vec::new(rt.alloc())),
    }
}
