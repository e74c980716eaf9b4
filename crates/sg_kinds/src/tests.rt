ghost use Rattle.std.specs.Prelude.{◌≡◌, ◌≤◌, [], ◌∷◌, length, true, IfSome};
ghost use Rattle.std.specs.List.{AllByRecursion};
ghost use Rattle.sg_program.specs.Scripts.{written};
ghost use Rattle.sg_program.specs.Invariants.{HasOperands};

use crate::table::Table;
use crate::walk::walk;
use sg_program::{Item, Statement};
use sqlite_items::Items;
use std::alloc::{AllocError, Global};
use std::test::Fail;

// Whether each register is one.
fn has_operands(statement: &Statement) -> bool
    ensures { result ≡ true → HasOperands statement.now }
{
    match *statement {
        Statement::Put { r, s, .. } => r < 16 && s < 16,
        Statement::PutD { r, s, .. } => r < 16 && s < 16,
        Statement::Num { d, .. } => d < 16,
        Statement::Move { d, s } => d < 16 && s < 16,
        Statement::Hide { d, s, .. } => d < 16 && s < 16,
        Statement::Unhide { d, s } => d < 16 && s < 16,
        Statement::Drop { r } => r < 16,
        Statement::Push { r } => r < 16,
        Statement::Pop { r } => r < 16,
        _ => false,
    }
}

// How many statements these items are, if there are at most a thousand and their registers are registers.
#[cycle(counted)]
fn count(items: &[Item]) -> Option<u32>
    ensures number { IfSome result (λ n. n ≡ length (written items.now)) }
    ensures few { IfSome result (λ n. n ≤ 1000) }
    ensures operands { IfSome result (λ n. AllByRecursion HasOperands (written items.now)) }
{
    let mut total = 0;
    for item in items {
        match count_one(item) {
            None => return None,
            Some(n) => total += n,
        }
        if total > 1000 {
            return None;
        }
    }
    Some(total)
}

// The same of one item.
#[cycle(counted)]
fn count_one(item: &Item) -> Option<u32>
    ensures number { IfSome result (λ n. n ≡ length (written (item.now ∷ []))) }
    ensures few { IfSome result (λ n. n ≤ 1000) }
    ensures operands { IfSome result (λ n. AllByRecursion HasOperands (written (item.now ∷ []))) }
{
    match item {
        Item::One(statement) => {
            if has_operands(statement) {
                Some(1)
            } else {
                None
            }
        }
        Item::Repeat { body, .. } => match count(body.as_slice()) {
            None => None,
            Some(n) => Some(n),
        },
    }
}

// The number of the first misuse, if there is one, of items that are within the limits.
fn first_misuse(items: &[Item]) -> Option<Option<u32>> {
    match count(items) {
        None => None,
        Some(_) => {
            let mut table = Table::first();
            match walk(&mut table, items) {
                Ok(_) => Some(None),
                Err(n) => Some(Some(n)),
            }
        }
    }
}

fn repeat(body: Vec<Item>) -> Item {
    Item::Repeat {
        times: 3,
        body: Items::from_vec(body),
    }
}

fn number(d: u8) -> Item {
    Item::One(Statement::Num { d, n: 7 })
}

fn clear(r: u8) -> Item {
    Item::One(Statement::Drop { r })
}

fn push(r: u8) -> Item {
    Item::One(Statement::Push { r })
}

fn pop(r: u8) -> Item {
    Item::One(Statement::Pop { r })
}

fn pushes(alloc: Global, times: u32) -> Result<Vec<Item>, AllocError> {
    let mut items = Vec::new(alloc);
    for _ in 0..times {
        items.push(push(0))?;
    }
    Ok(items)
}

#[test]
fn operands(rt: HostRuntime) -> Result<(), Fail> {
    let alloc = rt.alloc();
    let put = Statement::Put {
        r: 0,
        field: 0,
        s: 1,
    };
    let put_number = Statement::PutD {
        r: 1,
        field: 0,
        s: 0,
    };
    let hide = Statement::Hide {
        d: 2,
        s: 1,
        offset: 8,
    };
    let unhide = Statement::Unhide { d: 3, s: 2 };
    let fine = Vec::from_array(
        alloc,
        [
            number(0),
            Item::One(put_number),
            Item::One(hide),
            Item::One(unhide),
        ],
    )?;
    assert_eq!(rt; first_misuse(fine.as_slice()), Some(None));
    let wrong = Vec::from_array(alloc, [number(0), Item::One(put)])?;
    assert_eq!(rt; first_misuse(wrong.as_slice()), Some(Some(1)));
    let plain = Vec::from_array(alloc, [Item::One(unhide)])?;
    assert_eq!(rt; first_misuse(plain.as_slice()), Some(Some(0)));
    let inside = Vec::from_array(
        alloc,
        [
            number(0),
            repeat(Vec::from_array(alloc, [clear(1), Item::One(put)])?),
        ],
    )?;
    assert_eq!(rt; first_misuse(inside.as_slice()), Some(Some(2)));
    Ok(())
}

#[test]
fn ends_of_bodies(rt: HostRuntime) -> Result<(), Fail> {
    let alloc = rt.alloc();
    let kind = Vec::from_array(
        alloc,
        [
            clear(1),
            repeat(Vec::from_array(alloc, [clear(1), number(1), clear(0)])?),
        ],
    )?;
    assert_eq!(rt; first_misuse(kind.as_slice()), Some(Some(3)));
    let depth = Vec::from_array(alloc, [repeat(Vec::from_array(alloc, [push(0)])?)])?;
    assert_eq!(rt; first_misuse(depth.as_slice()), Some(Some(0)));
    let inner = repeat(Vec::from_array(alloc, [push(0), push(1)])?);
    let outer = repeat(Vec::from_array(alloc, [clear(0), inner, pop(0), pop(0)])?);
    let nested = Vec::from_array(alloc, [clear(0), outer])?;
    assert_eq!(rt; first_misuse(nested.as_slice()), Some(Some(3)));
    let empty = repeat(Vec::new(alloc));
    let body = repeat(Vec::from_array(alloc, [empty, push(0), number(0), pop(0)])?);
    let fine = Vec::from_array(alloc, [body, push(0), pop(1)])?;
    assert_eq!(rt; first_misuse(fine.as_slice()), Some(None));
    Ok(())
}

#[test]
fn stacks(rt: HostRuntime) -> Result<(), Fail> {
    let alloc = rt.alloc();
    let full = pushes(alloc, 64)?;
    assert_eq!(rt; first_misuse(full.as_slice()), Some(None));
    let more = pushes(alloc, 65)?;
    assert_eq!(rt; first_misuse(more.as_slice()), Some(Some(64)));
    let empty = Vec::from_array(alloc, [push(0), pop(1), pop(0)])?;
    assert_eq!(rt; first_misuse(empty.as_slice()), Some(Some(2)));
    let popped = Vec::from_array(
        alloc,
        [
            number(0),
            push(0),
            clear(0),
            pop(0),
            Item::One(Statement::Put {
                r: 0,
                field: 0,
                s: 1,
            }),
        ],
    )?;
    assert_eq!(rt; first_misuse(popped.as_slice()), Some(Some(4)));
    Ok(())
}
