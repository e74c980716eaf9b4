//! How many statements a program does.
ghost use Rattle.std.specs.Prelude.{◌≡◌, ◌-◌, ◌^◌, min, length};
ghost use Rattle.std.specs.List.{count_by};
ghost use Rattle.sg_program.specs.Counts.{is_counted, capped, weight, weight_of_all};
ghost use Rattle.sg_program.specs.Scripts.{is_final, written_out, statements_in};

use crate::program::{Item, Program, Script, Statement};

/// Whether a statement is counted: each one, or the statements `final` alone.
fn is_counted(statement: Statement, finals: bool) -> bool
    ensures { result ≡ is_counted finals statement }
{
    !finals || matches!(statement, Statement::Final { .. })
}

/// How many counted statements an item does.
fn weigh(item: &Item, finals: bool) -> u64
    ensures { result ≡ capped (weight finals item.now) }
{
    match item {
        Item::One(statement) => u64::from(is_counted(*statement, finals)),
        Item::Repeat { times, body } => {
            let mut sum: u64 = 0;
            for inner in body.as_slice() {
                sum = sum.saturating_add(weigh(inner, finals));
            }
            sum.saturating_mul(u64::from(*times))
        }
    }
}

/// The same, without a call for a statement.
#[inline]
fn weigh_one(item: &Item, finals: bool) -> u64
    ensures { result ≡ capped (weight finals item.now) }
{
    match item {
        Item::One(statement) => u64::from(is_counted(*statement, finals)),
        Item::Repeat { .. } => weigh(item, finals),
    }
}

/// How many counted statements items do.
fn weigh_all(items: &[Item], finals: bool) -> u64
    ensures { result ≡ capped (weight_of_all finals items.now) }
{
    let mut sum: u64 = 0;
    for item in items {
        sum = sum.saturating_add(weigh_one(item, finals));
    }
    sum
}

/// How many statements a script does, repeats counted; held at `u64::MAX` where there are more. Takes no memory, and time
/// linear in the written items.
pub fn script_total(script: &Script) -> u64
    ensures { result ≡ min (length (written_out script.now.items)) (2 ^ 64 - 1) }
{
    weigh_all(script.items.as_slice(), false)
}

/// How many statements `final` a script does, repeats counted; held at `u64::MAX` where there are more. Takes no memory, and
/// time linear in the written items.
pub fn script_finals(script: &Script) -> u64
    ensures { result ≡ min (count_by is_final (written_out script.now.items)) (2 ^ 64 - 1) }
{
    weigh_all(script.items.as_slice(), true)
}

/// How many statements a program does, repeats counted; held at `u64::MAX` where there are more. Takes no memory, and time
/// linear in the written items.
pub fn total(p: &Program) -> u64
    ensures { result ≡ min (statements_in p.now) (2 ^ 64 - 1) }
{
    let mut sum: u64 = 0;
    for script in p.mutators.as_slice() {
        sum = sum.saturating_add(script_total(script));
    }
    sum
}

#[cfg(test)]
mod tests {
    use super::*;
    use crate::program::{Class, Config};
    use sg_words::List;
    use sqlite_items::Items;
    use std::alloc::{AllocError, Global};
    use std::test::Fail;

    fn repeat(alloc: Global, times: u32, inner: Item) -> Result<Item, AllocError> {
        let mut body = Vec::new(alloc);
        body.push(Item::One(Statement::Final { r: 1 }))?;
        body.push(inner)?;
        Ok(Item::Repeat {
            times,
            body: Items::from_vec(body),
        })
    }

    fn program(alloc: Global, item: Item) -> Result<Program, AllocError> {
        let config = Config {
            nursery: 4096,
            blocks: 64,
            pages: 64,
            buffer: 64,
            workers: 1,
            cement: 4,
        };
        let mut items = Vec::new(alloc);
        items.push(item)?;
        items.push(Item::One(Statement::Sections))?;
        let mut mutators = Vec::new(alloc);
        mutators.push(Script {
            items: List::from_vec(items),
        })?;
        let classes: Vec<Class> = Vec::new(alloc);
        Ok(Program {
            config,
            classes: List::from_vec(classes),
            mutators: List::from_vec(mutators),
        })
    }

    #[test]
    fn repeats_are_counted(rt: HostRuntime) -> Result<(), Fail> {
        let alloc = rt.alloc();
        let inner = repeat(alloc, 4, Item::One(Statement::Drop { r: 0 }))?;
        let p = program(alloc, repeat(alloc, 3, inner)?)?;
        assert_eq!(rt; total(&p), 28);
        for script in p.mutators.as_slice() {
            assert_eq!(rt; script_total(script), 28);
            assert_eq!(rt; script_finals(script), 15);
        }
        let mut most = Item::One(Statement::Drop { r: 0 });
        for _ in 0..3 {
            most = repeat(alloc, u32::MAX, most)?;
        }
        assert_eq!(rt; total(&program(alloc, most)?), u64::MAX);
        Ok(())
    }
}
