ghost use Rattle.std.specs.Prelude.{◌≡◌, ◌≤◌, suc, max, IfOk};
ghost use Rattle.std.specs.List.{AllByRecursion};
ghost use Rattle.sg_program.specs.Invariants.{item_depth};

use crate::Cursor;
use sg_program::{Item, Statement};
use sqlite_items::Items;
use std::alloc::{AllocError, Global};
use std::test::Fail;

fn drop_of(r: u8) -> Item
    ensures { item_depth result ≡ 0 }
{
    Item::One(Statement::Drop { r })
}

fn empty(alloc: Global, times: u32) -> Item
    ensures { item_depth result ≡ 1 }
{
    Item::Repeat {
        times,
        body: Items::new(alloc),
    }
}

fn pair(alloc: Global, times: u32, first: Item, second: Item) -> Result<Item, AllocError>
    ensures { IfOk result (λ item. item_depth item ≡ suc (max (item_depth first) (item_depth second))) }
{
    let mut body = Items::new(alloc);
    body.push(first)?;
    body.push(second)?;
    Ok(Item::Repeat { times, body })
}

fn add(items: &mut Vec<Item>, item: Item) -> Result<(), AllocError>
    requires items { AllByRecursion (λ item. item_depth item ≤ 4) items.old.items }
    requires item { item_depth item ≤ 4 }
    ensures { IfOk result (λ _. AllByRecursion (λ item. item_depth item ≤ 4) items.new.items) }
{
    items.push(item)?;
    Ok(())
}

// drop 1, repeat 3 { drop 2, repeat 2 { drop 3, drop 4 } }, repeat 5 { }, repeat 2 { repeat 0 { drop 7, drop 8 }, drop 5 }, drop 6
fn script(alloc: Global) -> Result<Vec<Item>, AllocError>
    ensures { IfOk result (λ items. AllByRecursion (λ item. item_depth item ≤ 4) items.items) }
{
    let mut items = Vec::new(alloc);
    add(&mut items, drop_of(1))?;
    let inner = pair(alloc, 2, drop_of(3), drop_of(4))?;
    add(&mut items, pair(alloc, 3, drop_of(2), inner)?)?;
    add(&mut items, empty(alloc, 5))?;
    let never = pair(alloc, 0, drop_of(7), drop_of(8))?;
    add(&mut items, pair(alloc, 2, never, drop_of(5))?)?;
    add(&mut items, drop_of(6))?;
    Ok(items)
}

// The registers of the statements, in the order in which a cursor goes past them.
fn registers(alloc: Global, items: &[Item]) -> Result<Vec<u8>, AllocError>
    requires { AllByRecursion (λ item. item_depth item ≤ 4) items.now }
{
    let mut found = Vec::new(alloc);
    let mut cursor = Cursor::new(alloc, items)?;
    while let Some(statement) = cursor.peek() {
        if let Statement::Drop { r } = statement {
            found.push(r)?;
        }
        cursor.advance();
    }
    Ok(found)
}

// Worked by hand: a repeat in a repeat, an empty one, and one that is done no time.
#[test]
fn repeats_in_repeats(rt: HostRuntime) -> Result<(), Fail> {
    let items = script(rt.alloc())?;
    let found = registers(rt.alloc(), items.as_slice())?;
    let expected = [1, 2, 3, 4, 3, 4, 2, 3, 4, 3, 4, 2, 3, 4, 3, 4, 5, 5, 6];
    assert_eq!(rt; found.as_slice(), expected.as_slice());
    Ok(())
}

// A script whose only item is an empty repeat has no statement.
#[test]
fn nothing_to_do(rt: HostRuntime) -> Result<(), Fail> {
    let mut items = Vec::new(rt.alloc());
    add(&mut items, empty(rt.alloc(), 1_048_576))?;
    let found = registers(rt.alloc(), items.as_slice())?;
    assert_eq!(rt; found.len(), 0);
    Ok(())
}
