// A sink into memory of a fixed size, some of whose calls are told to fail.
ghost use Rattle.std.specs.Prelude.{◌≡◌, ◌↔◌, ◌+◌, ◌-◌, ◌≤◌, min, length, take, Some, IsErr, IfOk, IfErr, OnErr, MatchResult, vec_len, vec_capacity, ◌++◌};
ghost use Rattle.sg_io.specs.Faults.{CountsFaults, CountsEach, next_number};
ghost use Rattle.sg_io.specs.Progress.{Progresses, Takes};
ghost use Rattle.sg_io.specs.Memory.{Writing, writing_from_start, WriteIsToFail};

use crate::calls::{is_listed, next};
use crate::failed::{Failed, OutOfMemory};
use crate::ports::Sink;
use std::alloc::Global;
use std::marker::Model;

/// Memory of a fixed size as a sink. Contracts see the bytes taken, the room left, the number of the
/// next call, the numbers of the calls that fail, and the count of faults.
#[derive(Drop)]
pub struct MemorySink {
    bytes: Vec<u8>,
    room: usize,
    fails: Vec<u32>,
    call: u64,
    faults: u64,
}

impl Model for MemorySink {
    ghost use Rattle.std.specs.Prelude.{◌≤◌, ◌+◌, vec_len, vec_capacity};
    ghost use Rattle.sg_io.specs.Memory.{Writing};

    ghost Value = { Writing };

    ghost view = { λ s. record { taken = s.bytes.items; room = s.room; next_call = s.call; failing = s.fails.items; faults = s.faults } };

    ghost invariant = { λ s. vec_len s.bytes + s.room ≤ vec_capacity s.bytes };
}

impl MemorySink {
    /// A sink with room for `room` bytes. Its writes are numbered from 0, and those whose number is in
    /// `fails` fail.
    ///
    /// All its memory is taken here: a write takes none. The only error is want of memory. The cost is
    /// linear in `fails`, beside taking the room.
    pub fn new(alloc: Global, room: usize, fails: &[u32]) -> Result<MemorySink, OutOfMemory>
        ensures fresh { IfOk result (λ s. s ≡ writing_from_start room fails.now) }
    {
        let bytes = Vec::with_capacity(alloc, room)?;
        let fails = Vec::from_slice(alloc, fails)?;
        Ok(MemorySink {
            bytes,
            room,
            fails,
            call: 0,
            faults: 0,
        })
    }

    /// The bytes taken so far, in order.
    pub fn taken(&self) -> &[u8]
        ensures { result.now ≡ self.now.taken }
    {
        self.bytes.as_slice()
    }
}

impl Sink for MemorySink {
    ghost taken = { λ s. Some s.taken };

    ghost faults = { λ s. s.faults };

    /// Takes as much of `bytes` as there is room for, unless this call is to fail.
    ///
    /// A call fails exactly where its number is listed, or where `bytes` is not empty and there is no
    /// room left. It then takes nothing. The number of the next call stops at `u64::MAX`, which no
    /// list holds, since listed numbers are `u32`. The cost is linear in what is taken and in the list.
    fn write(&mut self, bytes: &[u8]) -> Result<usize, Failed>
        ensures progress { Progresses result bytes.now }
        ensures bytes { Takes (Some self.old.taken) (Some self.new.taken) result bytes.now }
        ensures cause { CountsFaults self.old.faults self.new.faults result }
        ensures fails { IsErr result ↔ WriteIsToFail self.old bytes.now }
        ensures count { IfOk result (λ n. n ≡ min (length bytes.now) self.old.room) }
        ensures room { MatchResult result (λ n. self.new.room + n ≡ self.old.room) (λ _. self.new.room ≡ self.old.room) }
        ensures refused { OnErr result (self.new.taken ≡ self.old.taken) }
        ensures counted { CountsEach self.old.faults self.new.faults result }
        ensures numbered { self.new.next_call ≡ next_number self.old.next_call }
        ensures listed { self.new.failing ≡ self.old.failing }
    {
        let is_to_fail = is_listed(&self.fails, self.call);
        self.call = next(self.call);
        let is_full = self.room == 0 && !bytes.is_empty();
        if is_to_fail || is_full {
            self.faults = next(self.faults);
            return Err(Failed);
        }
        let count = bytes.len().min(self.room);
        append_within(&mut self.bytes, &bytes[..count]);
        self.room -= count;
        Ok(count)
    }
}

// Appends bytes for which there is room, so no memory is wanted.
fn append_within(to: &mut Vec<u8>, piece: &[u8])
    requires { vec_len to.old + length piece.now ≤ vec_capacity to.old }
    ensures items { to.new.items ≡ to.old.items ++ piece.now }
    ensures len { vec_len to.new ≡ vec_len to.old + length piece.now }
    ensures capacity { vec_capacity to.old ≤ vec_capacity to.new }
{
    to.extend_from_slice(piece).unwrap();
}
