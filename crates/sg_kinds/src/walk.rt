ghost use Rattle.std.specs.Prelude.{◌≡◌, ℕ, ◌≤◌, [], ◌∷◌, length, true, false, OnOk, OnErr, IfOk, IfErr};
ghost use Rattle.std.specs.List.{AllByRecursion};
ghost use Rattle.sg_program.specs.Scripts.{written};
ghost use Rattle.sg_program.specs.Invariants.{HasOperands};
ghost use Rattle.sg_program.specs.Kinds.{Needs, kinds_after, Leads, Misuses};
ghost use Rattle.sg_kinds.specs.Table.{kinds_of};

use crate::table::Table;
use sg_program::{Item, Statement};

/// Goes through the items and says how many statements they are as they are written, or which of them is the first misuse.
#[cycle(items)]
pub(crate) fn walk(table: &mut Table, items: &[Item]) -> Result<u32, u32>
    requires few { length (written items.now) ≤ 1048576 }
    requires operands { AllByRecursion HasOperands (written items.now) }
    ensures count { IfOk result (λ n. n ≡ length (written items.now)) }
    ensures leads { IfOk result (λ n. Leads (kinds_of table.old) items.now (kinds_of table.new)) }
    ensures misuse { IfErr result (λ n. Misuses (kinds_of table.old) items.now n) }
{
    let mut count = 0;
    for item in items {
        match pass(table, item) {
            Ok(n) => count += n,
            Err(n) => return Err(count + n),
        }
    }
    Ok(count)
}

// The same of one item.
#[cycle(items)]
fn pass(table: &mut Table, item: &Item) -> Result<u32, u32>
    requires few { length (written (item.now ∷ [])) ≤ 1048576 }
    requires operands { AllByRecursion HasOperands (written (item.now ∷ [])) }
    ensures count { IfOk result (λ n. n ≡ length (written (item.now ∷ []))) }
    ensures leads { IfOk result (λ n. Leads (kinds_of table.old) (item.now ∷ []) (kinds_of table.new)) }
    ensures misuse { IfErr result (λ n. Misuses (kinds_of table.old) (item.now ∷ []) n) }
{
    match item {
        Item::One(statement) => {
            if take(table, statement) {
                Ok(1)
            } else {
                Err(0)
            }
        }
        Item::Repeat { body, .. } => {
            let before = *table;
            match walk(table, body.as_slice()) {
                Err(n) => Err(n),
                Ok(count) => {
                    if before.is_same(table) {
                        Ok(count)
                    } else {
                        Err(count - 1)
                    }
                }
            }
        }
    }
}

// Whether the statement finds the kinds that it needs. If so, the table has the kinds after it.
fn take(table: &mut Table, statement: &Statement) -> bool
    requires { HasOperands statement.now }
    ensures needs { result ≡ true → Needs (kinds_of table.old) statement.now }
    ensures after { result ≡ true → kinds_of table.new ≡ kinds_after (kinds_of table.old) statement.now }
    ensures lacks { result ≡ false → ¬ Needs (kinds_of table.old) statement.now }
{
    let meets = table.meets(statement);
    if meets {
        table.follow(statement);
    }
    meets
}
