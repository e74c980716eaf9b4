// Why an input isn't accepted, and the line that tells it.
ghost use Rattle.std.specs.Prelude.{◌≡◌, ◌++◌, IfOk};
ghost use Rattle.std.specs.Fmt.{decimal};
ghost use Rattle.sg_run.specs.declared.refusal.Cause.TheVariants.{Misused};
ghost use Rattle.sg_run.specs.Causes.{HasOneCause, which_text, refusal_text, cause_text, refusal_line};

use sg_kinds::{KindFault, one_misuse};
use sg_parse::{Refusal, Which, one_reading, one_refusal};
use sg_trace::append_number;
use std::alloc::{AllocError, Global};

/// Why an input isn't accepted.
#[derive(Clone, Copy, Debug, PartialEq, Eq)]
pub(crate) enum Cause {
    /// It isn't read.
    Refused(Refusal),
    /// It is read, and this is its first misuse of a kind.
    Misused(KindFault),
}

/// The law of one cause: no input has two causes, nor one cause at two places, and no accepted one has any. It does
/// nothing; its contract is the law.
pub fn one_cause()
    ensures { HasOneCause }
{
    // The laws that it follows from: these calls do nothing.
    one_reading();
    one_refusal();
    one_misuse();
}

/// The line that tells the cause.
pub(crate) fn refusal_line(alloc: Global, cause: Cause) -> Result<Vec<u8>, AllocError>
    ensures { IfOk result (λ line. line.items ≡ refusal_line cause) }
{
    let mut line = Vec::from_slice(alloc, b"refused ")?;
    match cause {
        Cause::Refused(refusal) => append_refusal(&mut line, refusal)?,
        Cause::Misused(fault) => append_misuse(&mut line, fault)?,
    }
    line.extend_from_slice(b"\n")?;
    Ok(line)
}

fn append_misuse(line: &mut Vec<u8>, fault: KindFault) -> Result<(), AllocError>
    ensures { IfOk result (λ _. line.new.items ≡ line.old.items ++ cause_text (Misused fault)) }
{
    line.extend_from_slice(b"kind ")?;
    append_number(line, u64::from(fault.mutator))?;
    line.extend_from_slice(b" ")?;
    append_number(line, u64::from(fault.statement))
}

fn append_refusal(line: &mut Vec<u8>, refusal: Refusal) -> Result<(), AllocError>
    ensures { IfOk result (λ _. line.new.items ≡ line.old.items ++ refusal_text refusal) }
{
    match refusal {
        Refusal::TooLong => line.extend_from_slice(b"long"),
        Refusal::Syntax { line: number } => append_at(line, b"syntax ", number),
        Refusal::Class { line: number } => append_at(line, b"class ", number),
        Refusal::Limit {
            line: number,
            which,
        } => {
            append_at(line, b"limit ", number)?;
            line.extend_from_slice(b" ")?;
            line.extend_from_slice(name_of(which))
        }
        Refusal::Later { line: number } => append_at(line, b"later ", number),
        Refusal::Memory => Ok(()),
    }
}

/// A word, and the number of a line.
fn append_at(line: &mut Vec<u8>, word: &[u8], number: u32) -> Result<(), AllocError>
    ensures { IfOk result (λ _. line.new.items ≡ line.old.items ++ word.now ++ decimal number) }
{
    line.extend_from_slice(word)?;
    append_number(line, u64::from(number))
}

/// The name of a limit.
fn name_of(which: Which) -> &'static [u8]
    ensures { result.now ≡ which_text which }
{
    match which {
        Which::Nursery => b"nursery",
        Which::Blocks => b"blocks",
        Which::Pages => b"pages",
        Which::Buffer => b"buffer",
        Which::Workers => b"workers",
        Which::Cement => b"cement",
        Which::Classes => b"classes",
        Which::Fields => b"fields",
        Which::Vector => b"vector",
        Which::Global => b"global",
        Which::Weak => b"weak",
        Which::Times => b"times",
        Which::Nesting => b"nesting",
        Which::Statements => b"statements",
        Which::Finals => b"finals",
        Which::Mutators => b"mutators",
    }
}
