// A source over bytes in memory, some of whose calls are told to fail.
ghost use Rattle.std.specs.Prelude.{◌≡◌, ◌↔◌, ◌++◌, min, length, take, drop, Some, IsErr, IfOk, MatchResult};
ghost use Rattle.std.specs.Io.{ReadsAtMost};
ghost use Rattle.std.specs.Io.KnownBytes.{ReadConsumes};
ghost use Rattle.sg_io.specs.Faults.{CountsFaults, CountsEach, next_number};
ghost use Rattle.sg_io.specs.Ends.{EndsExactly};
ghost use Rattle.sg_io.specs.Memory.{Reading, reading_from_start, ReadIsToFail};

use crate::calls::{is_listed, next};
use crate::failed::{Failed, OutOfMemory};
use crate::ports::Source;
use std::alloc::Global;
use std::marker::Model;

/// Bytes in memory as a source. Contracts see the bytes left, the number of the next call, the numbers
/// of the calls that fail, and the count of faults.
#[derive(Drop)]
pub struct MemorySource {
    bytes: Vec<u8>,
    at: usize,
    fails: Vec<u32>,
    call: u64,
    faults: u64,
}

impl Model for MemorySource {
    ghost use Rattle.std.specs.Prelude.{◌≤◌, ◌<◌, ◌^◌, drop, length};
    ghost use Rattle.sg_io.specs.Memory.{Reading};

    ghost Value = { Reading };

    ghost view = { λ s. record { left = drop s.at s.bytes.items; next_call = s.call; failing = s.fails.items; faults = s.faults } };

    ghost invariant = { λ s. s.at ≤ length s.bytes.items };
}

impl MemorySource {
    /// A source that holds a copy of `bytes`. Its reads are numbered from 0, and those whose number is
    /// in `fails` fail.
    ///
    /// The only error is want of memory, for the two copies. The cost is linear in both.
    pub fn new(alloc: Global, bytes: &[u8], fails: &[u32]) -> Result<MemorySource, OutOfMemory>
        ensures fresh { IfOk result (λ s. s ≡ reading_from_start bytes.now fails.now) }
    {
        let bytes = Vec::from_slice(alloc, bytes)?;
        let fails = Vec::from_slice(alloc, fails)?;
        Ok(MemorySource {
            bytes,
            at: 0,
            fails,
            call: 0,
            faults: 0,
        })
    }
}

impl Source for MemorySource {
    ghost left = { λ s. Some s.left };

    ghost faults = { λ s. s.faults };

    /// Fills as much of `buf` as the bytes left allow, unless this call is to fail.
    ///
    /// A call fails exactly where its number is listed. It then changes nothing but the number of the
    /// next call and the count of faults. The number of the next call stops at `u64::MAX`, which no
    /// list holds, since listed numbers are `u32`. The cost is linear in what is copied and in the list.
    fn read(&mut self, buf: &mut [u8]) -> Result<usize, Failed>
        ensures bound { ReadsAtMost result buf.new }
        ensures bytes { ReadConsumes (Some self.old.left) (Some self.new.left) result buf.new }
        ensures end { EndsExactly (Some self.old.left) result buf.new }
        ensures cause { CountsFaults self.old.faults self.new.faults result }
        ensures fails { IsErr result ↔ ReadIsToFail self.old }
        ensures count { IfOk result (λ n. n ≡ min (length buf.old) (length self.old.left)) }
        ensures buffer { MatchResult result (λ n. buf.new ≡ take n self.old.left ++ drop n buf.old) (λ _. buf.new ≡ buf.old) }
        ensures counted { CountsEach self.old.faults self.new.faults result }
        ensures numbered { self.new.next_call ≡ next_number self.old.next_call }
        ensures listed { self.new.failing ≡ self.old.failing }
    {
        let is_to_fail = is_listed(&self.fails, self.call);
        self.call = next(self.call);
        if is_to_fail {
            self.faults = next(self.faults);
            return Err(Failed);
        }
        let taken = copy_prefix(&self.bytes[self.at..], buf);
        self.at += taken;
        Ok(taken)
    }
}

// Copies as many bytes as both have, and answers how many.
fn copy_prefix(from: &[u8], to: &mut [u8]) -> usize
    ensures count { result ≡ min (length to.old) (length from.now) }
    ensures copied { to.new ≡ take result from.now ++ drop result to.old }
{
    let count = to.len().min(from.len());
    to[..count].copy_from_slice(&from[..count]);
    count
}
