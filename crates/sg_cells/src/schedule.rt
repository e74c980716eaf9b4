ghost use Rattle.std.specs.Prelude.{◌≡◌, ◌+◌, ◌%◌, ◌<◌, ◌≤◌, true, false, IfOk, [], ◌∷◌};
ghost use Rattle.std.specs.Int.{bit_at};
ghost use Rattle.sg_cells.specs.Ended.{HasEnded, SomeIsLeft};
ghost use Rattle.sg_words.specs.Schedule.{Schedule, IsFirstGoing, Gives};

use std::alloc::{AllocError, Global};
use std::marker::Model;

/// Gives turns in the order of a list of numbers, and in rotation once the list is used up. The place in the list goes on over
/// phases.
#[derive(Drop)]
pub struct ScheduleDriver {
    turns: Vec<u32>,
    at: usize,
    next: u32,
}

impl Model for ScheduleDriver {
    ghost use Rattle.std.specs.Prelude.{◌<◌, ◌≤◌, drop, length};
    ghost use Rattle.sg_words.specs.Schedule.{Schedule};

    ghost Value = { Schedule };

    ghost view = { λ s. record { left = drop s.at s.turns.items; next = s.next } };

    ghost invariant = { λ s. (s.at ≤ length s.turns.items) × (s.next < 17) };
}

impl ScheduleDriver {
    /// A driver before the first number of this list.
    pub fn new(alloc: Global, turns: &[u32]) -> Result<ScheduleDriver, AllocError>
        ensures { IfOk result (λ driver. driver ≡ record { left = turns.now; next = 0 }) }
    {
        Ok(ScheduleDriver {
            turns: turns.to_vec(alloc)?,
            at: 0,
            next: 0,
        })
    }

    /// A phase begins: where the list is used up, the rotation begins with actor 0 again.
    pub fn begin(&mut self)
        ensures { self.new ≡ record self.old { next = 0 } }
    {
        self.next = 0;
    }

    /// The actor of the next turn, of so many actors, that isn't lost on one that has ended. Bit k of `ended` says whether actor k
    /// has ended. Takes constant time beside the actors and the numbers that are spent.
    pub fn next_actor(&mut self, actors: u32, ended: u32) -> u32
        requires some { 1 ≤ actors }
        requires few { actors ≤ 17 }
        requires left { SomeIsLeft actors ended }
        ensures gives { Gives actors (HasEnded ended) self.old result self.new }
        ensures within { result < actors }
        ensures going { ¬ HasEnded ended result }
    {
        while self.at < self.turns.len() {
            let actor = self.turns[self.at] % actors;
            self.at += 1;
            if is_going(ended, actor) {
                return actor;
            }
        }
        let actor = first_going(self.next, actors, ended);
        self.next = (actor + 1) % actors;
        actor
    }
}

/// The first of these actors, from `first` on and round, that hasn't ended.
fn first_going(first: u32, actors: u32, ended: u32) -> u32
    requires first { first < 17 }
    requires some { 1 ≤ actors }
    requires few { actors ≤ 17 }
    requires left { SomeIsLeft actors ended }
    ensures { IsFirstGoing first actors (HasEnded ended) result }
{
    for i in 0..actors {
        let actor = (first + i) % actors;
        if is_going(ended, actor) {
            return actor;
        }
    }
    unreachable!()
}

/// Whether this actor hasn't ended.
fn is_going(ended: u32, actor: u32) -> bool
    requires { actor < 17 }
    ensures going { result ≡ true → ¬ HasEnded ended actor }
    ensures ended { result ≡ false → HasEnded ended actor }
{
    (ended >> actor) & 1 == 0
}
