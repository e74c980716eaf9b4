// What the answers of a run come to, and the text that tells it.
ghost use Rattle.std.specs.Prelude.{◌≡◌, ◌+◌, ◌≤◌, ◌<◌, ◌^◌, ◌++◌, ℕ, length, IfOk};
ghost use Rattle.std.specs.List.{AllByRecursion};
ghost use Rattle.std.specs.Fmt.{decimal};
ghost use Rattle.sg_load.specs.Summary.{answers_in_part, answers_in_parts, answers_in_service, answers_in_services, counted, counted_from, IsLow, tally_line, tally_lines, summary_text};

use itoa::Buffer;
use sg_graph::{Answer, EpochReport, Part, Service, StopReport};
use std::alloc::AllocError;

/// What the answers of one mutator come to.
#[derive(Clone, Copy, Debug, PartialEq, Eq)]
pub struct Tally {
    /// How many of its statements were answered.
    pub statements: u64,
    /// The sum of the answers that are numbers.
    pub sum: u128,
}

/// The tally of each mutator, by its number, gets the mutator's answers of an epoch. Linear in the tallies times the parts, and in the
/// answers.
pub fn count_epoch(tallies: &mut [Tally], report: &EpochReport)
    requires few { AllByRecursion (λ tally. tally.statements ≤ 2 ^ 32) tallies.old }
    requires short { (k : ℕ) → k < length tallies.old → length (answers_in_parts k report.now.parts) ≤ 2 ^ 32 }
    requires low { AllByRecursion IsLow tallies.old }
    ensures counted { tallies.new ≡ counted_from 0 tallies.old (λ k. answers_in_parts k report.now.parts) }
    ensures low { AllByRecursion IsLow tallies.new }
{
    for k in 0..tallies.len() {
        tallies[k] = count_parts(tallies[k], k as u64, report.parts.as_slice());
    }
}

/// The same with the answers that a stop served.
pub fn count_stop(tallies: &mut [Tally], report: &StopReport)
    requires few { AllByRecursion (λ tally. tally.statements ≤ 2 ^ 32) tallies.old }
    requires short { (k : ℕ) → k < length tallies.old → length (answers_in_services k report.now.served) ≤ 2 ^ 32 }
    requires low { AllByRecursion IsLow tallies.old }
    ensures counted { tallies.new ≡ counted_from 0 tallies.old (λ k. answers_in_services k report.now.served) }
    ensures low { AllByRecursion IsLow tallies.new }
{
    for k in 0..tallies.len() {
        tallies[k] = count_services(tallies[k], k as u64, report.served.as_slice());
    }
}

/// The tally with the answers of mutator `k` in these parts more.
fn count_parts(tally: Tally, k: u64, parts: &[Part]) -> Tally
    requires few { tally.statements + length (answers_in_parts k parts.now) ≤ 2 ^ 33 }
    requires low { IsLow tally }
    ensures counted { result ≡ counted tally (answers_in_parts k parts.now) }
    ensures low { IsLow result }
{
    let mut so_far = tally;
    for part in parts {
        if u64::from(part.mutator) == k {
            so_far = count(so_far, part.answers.as_slice());
        }
    }
    so_far
}

/// The tally with the answers of mutator `k` among these services more.
fn count_services(tally: Tally, k: u64, served: &[Service]) -> Tally
    requires few { tally.statements + length (answers_in_services k served.now) ≤ 2 ^ 33 }
    requires low { IsLow tally }
    ensures counted { result ≡ counted tally (answers_in_services k served.now) }
    ensures low { IsLow result }
{
    let mut so_far = tally;
    for service in served {
        if u64::from(service.mutator) == k {
            so_far = count(so_far, &[service.answer]);
        }
    }
    so_far
}

/// The tally with these answers more.
fn count(tally: Tally, answers: &[Answer]) -> Tally
    requires few { tally.statements + length answers.now ≤ 2 ^ 33 }
    requires low { IsLow tally }
    ensures counted { result ≡ counted tally answers.now }
    ensures low { IsLow result }
{
    let mut sum = tally.sum;
    for answer in answers {
        if let Answer::Number(number) = *answer {
            sum += u128::from(number);
        }
    }
    Tally {
        statements: tally.statements + answers.len() as u64,
        sum,
    }
}

/// Appends the summary: the line `gen SEED SIZE`, a line `mutator I statements N sum S` for each tally, and the line `end`. The one error
/// is want of memory, and then a front of it may have been appended. Linear in the text.
pub fn append_summary(
    out: &mut Vec<u8>,
    seed: u64,
    size: u32,
    tallies: &[Tally],
) -> Result<(), AllocError>
    ensures { IfOk result (λ _. out.new.items ≡ out.old.items ++ summary_text seed size tallies.now) }
{
    out.extend_from_slice(b"gen ")?;
    append_number(out, u128::from(seed))?;
    out.push(b' ')?;
    append_number(out, u128::from(size))?;
    out.push(b'\n')?;
    append_tallies(out, tallies)?;
    out.extend_from_slice(b"end\n")?;
    Ok(())
}

fn append_tallies(out: &mut Vec<u8>, tallies: &[Tally]) -> Result<(), AllocError>
    ensures { IfOk result (λ _. out.new.items ≡ out.old.items ++ tally_lines 0 tallies.now) }
{
    for (k, tally) in tallies.iter().enumerate() {
        append_tally(out, k as u64, *tally)?;
    }
    Ok(())
}

fn append_tally(out: &mut Vec<u8>, k: u64, tally: Tally) -> Result<(), AllocError>
    ensures { IfOk result (λ _. out.new.items ≡ out.old.items ++ tally_line k tally) }
{
    out.extend_from_slice(b"mutator ")?;
    append_number(out, u128::from(k))?;
    out.extend_from_slice(b" statements ")?;
    append_number(out, u128::from(tally.statements))?;
    out.extend_from_slice(b" sum ")?;
    append_number(out, tally.sum)?;
    out.push(b'\n')?;
    Ok(())
}

fn append_number(out: &mut Vec<u8>, number: u128) -> Result<(), AllocError>
    ensures { IfOk result (λ _. out.new.items ≡ out.old.items ++ decimal number) }
{
    let mut buffer = Buffer::new();
    out.extend_from_slice(buffer.format(number).as_bytes())
}
