//! The kinds of what registers and stacks hold: exactly the first misuse of a program.
#![tactic(auto)]

ghost use Rattle.std.specs.Prelude.{IfErr, OnOk};
ghost use Rattle.std.specs.List.{AllByRecursion};
ghost use Rattle.sg_program.specs.declared.program.Script.{Script};
ghost use Rattle.sg_program.specs.Invariants.{IsWithinLimits};
ghost use Rattle.sg_program.specs.Kinds.{HasNoMisuse, IsFirstMisuse};

use sg_program::Program;

mod law;
mod places;
mod table;
#[cfg(test)]
mod tests;
mod walk;

pub use law::one_misuse;

/// A statement that finds an operand of another kind than it needs, a full stack or an empty one; or the last statement of a
/// repeat's body that ends with other kinds than it began with. Mutators and statements are numbered from 0, statements in the
/// order in which they are written.
#[derive(Clone, Copy, Debug, PartialEq, Eq)]
pub struct KindFault {
    pub mutator: u32,
    pub statement: u32,
}

/// Looks for the first misuse. Each repeat's body is looked at once. Takes no memory, and time linear in the written
/// statements.
pub fn check(p: &Program) -> Result<(), KindFault>
    requires { IsWithinLimits p.now }
    ensures fine { OnOk result (AllByRecursion (λ (script : Script). HasNoMisuse script.items) p.now.mutators) }
    ensures fault { IfErr result (λ fault. IsFirstMisuse p.now fault.mutator fault.statement) }
    ensures wrong { IfErr result (λ fault. ¬ AllByRecursion (λ (script : Script). HasNoMisuse script.items) p.now.mutators) }
{
    for (k, script) in p.mutators.as_slice().iter().enumerate() {
        let mut table = table::Table::first();
        if let Err(statement) = walk::walk(&mut table, script.items.as_slice()) {
            return Err(KindFault {
                mutator: k as u32,
                statement,
            });
        }
    }
    Ok(())
}
