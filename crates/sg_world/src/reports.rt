// What an epoch's report tells.
ghost use Rattle.std.specs.Prelude.{◌≡◌, ◌≢◌, ◌≤◌, ℕ, ◌↔◌, true, None, Some, length, slice_get, IfOk};
ghost use Rattle.sg_words.specs.Lists.{Pairwise};
ghost use Rattle.sg_actor.specs.State.{leave_of};
ghost use Rattle.sg_world.specs.Telling.{going_in, HasLeftAt, TellsOf, TellsAt, HaveEnded};

use sg_actor::Mutator;
use sg_graph::{EpochReport, Part};
use sg_words::List;
use std::alloc::{AllocError, Global};

/// The numbers of the mutators that haven't ended, in order. Takes memory for them.
pub(crate) fn going(alloc: Global, mutators: &[Mutator<'_>]) -> Result<Vec<u32>, AllocError>
    requires { length mutators.now ≤ 16 }
    ensures { IfOk result (λ numbers. numbers.items ≡ going_in mutators.now) }
{
    let mut numbers = Vec::with_capacity(alloc, mutators.len())?;
    for k in 0..mutators.len() {
        if !mutators[k].ended() {
            numbers.push(k as u32)?;
        }
    }
    Ok(numbers)
}

/// The report of the epoch with this number, in which the mutators with these numbers ran. Takes memory for the answers, which are copied.
pub(crate) fn epoch_report(
    alloc: Global,
    number: u32,
    ran: &[u32],
    mutators: &[Mutator<'_>],
) -> Result<EpochReport, AllocError>
    requires { (i k : ℕ) → slice_get ran.now i ≡ Some k → HasLeftAt mutators.now k }
    ensures number { IfOk result (λ report. report.number ≡ number) }
    ensures last { IfOk result (λ report. report.last ≡ true ↔ HaveEnded mutators.now) }
    ensures parts { IfOk result (λ report. Pairwise (TellsAt mutators.now) ran.now report.parts) }
{
    let mut parts = Vec::with_capacity(alloc, ran.len())?;
    for k in ran {
        let part = part_of(alloc, &mutators[*k as usize])?;
        parts.push(part)?;
    }
    Ok(EpochReport {
        number,
        last: have_ended(mutators),
        parts: List::from_vec(parts),
    })
}

/// What the report says of one mutator.
fn part_of(alloc: Global, mutator: &Mutator<'_>) -> Result<Part, AllocError>
    requires { leave_of mutator.now.stage ≢ None }
    ensures { IfOk result (TellsOf mutator.now) }
{
    let Some(leave) = mutator.leave() else {
        unreachable!();
    };
    Ok(Part {
        mutator: mutator.number(),
        first: mutator.first(),
        answers: List::from_vec(Vec::from_slice(alloc, mutator.answers())?),
        leave,
    })
}

/// Whether all of these have ended.
pub(crate) fn have_ended(mutators: &[Mutator<'_>]) -> bool
    ensures { result ≡ true ↔ HaveEnded mutators.now }
{
    for k in 0..mutators.len() {
        if !mutators[k].ended() {
            return false;
        }
    }
    true
}
