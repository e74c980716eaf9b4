// Std's readers and writers as sources and sinks.
ghost use Rattle.std.specs.Prelude.{◌≡◌};
ghost use Rattle.std.specs.Io.{ReadsAtMost};
ghost use Rattle.std.specs.Io.KnownBytes.{ReadConsumes};
ghost use Rattle.sg_io.specs.Faults.{CountsFaults, CountsEach, next_number};
ghost use Rattle.sg_io.specs.Progress.{Progresses, Takes};
ghost use Rattle.sg_io.specs.Ends.{EndsExactly};

use crate::calls::next;
use crate::failed::Failed;
use crate::ports::{Sink, Source};
use std::io::{Read, Write};

/// A reader of std as a source: its bytes are the reader's, told where the reader's are.
#[derive(Drop)]
pub struct StdSource<R> {
    inner: R,
    faults: u64,
}

impl<R: Read> StdSource<R> {
    /// The reader as a source, with no fault so far.
    pub fn new(inner: R) -> StdSource<R>
        ensures left { ⟦<StdSource<R> as Source>⟧.left result ≡ R.remaining inner }
        ensures faults { ⟦<StdSource<R> as Source>⟧.faults result ≡ 0 }
    {
        StdSource { inner, faults: 0 }
    }
}

impl<R: Read> Source for StdSource<R> {
    ghost left = { λ s. R.remaining s.inner };

    ghost faults = { λ s. s.faults };

    /// Calls the reader once. Each of its errors, an interruption too, is a fault, also for an empty
    /// `buf`; nothing is tried again.
    fn read(&mut self, buf: &mut [u8]) -> Result<usize, Failed>
        ensures bound { ReadsAtMost result buf.new }
        ensures bytes { ReadConsumes (⟦<StdSource<R> as Source>⟧.left self.old)
            (⟦<StdSource<R> as Source>⟧.left self.new) result buf.new }
        ensures end { EndsExactly (⟦<StdSource<R> as Source>⟧.left self.old) result buf.new }
        ensures cause { CountsFaults (⟦<StdSource<R> as Source>⟧.faults self.old)
            (⟦<StdSource<R> as Source>⟧.faults self.new) result }
        ensures counted { CountsEach (⟦<StdSource<R> as Source>⟧.faults self.old)
            (⟦<StdSource<R> as Source>⟧.faults self.new) result }
    {
        match self.inner.read(buf) {
            Ok(count) => Ok(count),
            Err(_) => {
                self.faults = next(self.faults);
                Err(Failed)
            }
        }
    }
}

/// A writer of std as a sink: the bytes taken are those that the writer holds, told where the writer's are.
#[derive(Drop)]
pub struct StdSink<W> {
    inner: W,
    faults: u64,
}

impl<W: Write> StdSink<W> {
    /// The writer as a sink, with no fault so far.
    pub fn new(inner: W) -> StdSink<W>
        ensures taken { ⟦<StdSink<W> as Sink>⟧.taken result ≡ W.contents inner }
        ensures faults { ⟦<StdSink<W> as Sink>⟧.faults result ≡ 0 }
    {
        StdSink { inner, faults: 0 }
    }
}

impl<W: Write> Sink for StdSink<W> {
    ghost taken = { λ s. W.contents s.inner };

    ghost faults = { λ s. s.faults };

    /// Calls the writer's `write` once, and its `flush` once after a write that did not fail. An error of
    /// either, an interruption too, is a fault, also for an empty piece, and so is a write that takes
    /// nothing of a piece that is not empty; nothing is tried again.
    fn write(&mut self, bytes: &[u8]) -> Result<usize, Failed>
        ensures progress { Progresses result bytes.now }
        ensures bytes { Takes (⟦<StdSink<W> as Sink>⟧.taken self.old)
            (⟦<StdSink<W> as Sink>⟧.taken self.new) result bytes.now }
        ensures cause { CountsFaults (⟦<StdSink<W> as Sink>⟧.faults self.old)
            (⟦<StdSink<W> as Sink>⟧.faults self.new) result }
        ensures counted { CountsEach (⟦<StdSink<W> as Sink>⟧.faults self.old)
            (⟦<StdSink<W> as Sink>⟧.faults self.new) result }
    {
        match write_and_flush(&mut self.inner, bytes) {
            Ok(taken) => Ok(taken),
            Err(Failed) => {
                self.faults = next(self.faults);
                Err(Failed)
            }
        }
    }
}

// One write and, where it did not fail, one flush.
fn write_and_flush<W: Write>(inner: &mut W, bytes: &[u8]) -> Result<usize, Failed>
    ensures progress { Progresses result bytes.now }
    ensures bytes { Takes (W.contents inner.old) (W.contents inner.new) result bytes.now }
{
    let written = inner.write(bytes).map_err(|_| Failed)?;
    inner.flush().map_err(|_| Failed)?;
    if written == 0 && !bytes.is_empty() {
        return Err(Failed);
    }
    Ok(written)
}
