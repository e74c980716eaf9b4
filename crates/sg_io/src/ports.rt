// What reads and writes promise, whatever stands behind them.
ghost use Rattle.std.specs.Prelude.{ℕ, List, Option};
ghost use Rattle.std.specs.Io.{ReadsAtMost};
ghost use Rattle.std.specs.Io.KnownBytes.{ReadConsumes};
ghost use Rattle.sg_io.specs.Faults.{CountsFaults};
ghost use Rattle.sg_io.specs.Progress.{Progresses, Takes};
ghost use Rattle.sg_io.specs.Ends.{EndsExactly};

use crate::failed::Failed;

/// Where bytes come from.
pub trait Source {
    // The bytes still held, where they are told.
    ghost left: { Self → Option (List ℕ) };

    // The faults so far: a number that never falls.
    ghost faults: { Self → ℕ };

    /// Reads some bytes into the front of `buf`, and answers how many.
    ///
    /// `Ok(n)` has `n <= buf.len()`. Where the bytes are told, the first `n` of those left leave the
    /// source and stand at the front of `buf`. `Ok(0)` for a `buf` with room means the end of the
    /// input; where the bytes are told, it comes exactly where none is left. `Err(Failed)` comes only
    /// where the count of faults rose in this call (or stands at `u64::MAX`), and then no byte has left
    /// the source; what stands in `buf` is open. The cost is one call of what stands behind the source.
    fn read(&mut self, buf: &mut [u8]) -> Result<usize, Failed>
        ensures bound { ReadsAtMost result buf.new }
        ensures bytes { ReadConsumes (left self.old) (left self.new) result buf.new }
        ensures end { EndsExactly (left self.old) result buf.new }
        ensures cause { CountsFaults (faults self.old) (faults self.new) result };
}

/// Where bytes go.
pub trait Sink {
    // The bytes taken so far, where they are told.
    ghost taken: { Self → Option (List ℕ) };

    // The faults so far: a number that never falls.
    ghost faults: { Self → ℕ };

    /// Takes some first bytes of `bytes`, and answers how many.
    ///
    /// `Ok(n)` has `n <= bytes.len()`, and `1 <= n` for a piece that is not empty; exactly the first `n`
    /// bytes were taken. `Err(Failed)` comes only where the count of faults rose in this call (or stands
    /// at `u64::MAX`), and then some first bytes were taken, possibly none or all. The cost is one
    /// call of what stands behind the sink.
    fn write(&mut self, bytes: &[u8]) -> Result<usize, Failed>
        ensures progress { Progresses result bytes.now }
        ensures bytes { Takes (taken self.old) (taken self.new) result bytes.now }
        ensures cause { CountsFaults (faults self.old) (faults self.new) result };
}
