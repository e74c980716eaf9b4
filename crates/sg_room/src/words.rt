// What finds no room in the fragments of the nursery.
ghost use Rattle.std.specs.Prelude.{◌≡◌, ◌<◌, ◌↔◌, true, length, IfOk, MatchOption};
ghost use Rattle.sg_program.specs.declared.program.Program.{Program};
ghost use Rattle.sg_graph.specs.Graph.{Graph};
ghost use Rattle.sg_graph.specs.Book.{Book};
ghost use Rattle.sg_graph.specs.Laws.{LacksWords};
ghost use Rattle.sg_heap.specs.Holding.{HoldsHeap};
ghost use Rattle.sg_room.specs.Room.{AreNextWords, IsLowestWithRoom, HasNoRoom};

use sg_space::Space;
use std::alloc::{AllocError, Global};

/// Whether giving each of these numbers of words in turn at the front of the lowest fragment that has them finds no room for
/// one. The space stays as it is. Takes memory for the fragments; linear in the fragments for each number.
pub fn lacks_words(alloc: Global, space: &Space, needs: &[u32]) -> Result<bool, AllocError>
    ensures told { IfOk result (λ lacks. (p : Program) (g : Graph) (b : Book) → HoldsHeap p space.now g b →
        (lacks ≡ true) ↔ LacksWords b.fragments b.limit b.next needs.now) }
{
    let mut next = next_words(alloc, space)?;
    for need in needs {
        match lowest_with_room(space, &next, *need) {
            Some(fragment) => next[fragment] += *need as u64,
            None => return Ok(true),
        }
    }
    Ok(false)
}

/// The numbers of the fragments' next words. Linear in the fragments.
fn next_words(alloc: Global, space: &Space) -> Result<Vec<u64>, AllocError>
    ensures { IfOk result (λ next. AreNextWords space.now next.items) }
{
    let mut next = Vec::new(alloc);
    for fragment in 0..space.fragments() {
        next.push(space.next(fragment) / 8)?;
    }
    Ok(next)
}

/// The lowest fragment with so many words from its next word on, whose number stands in `next`. `None` where no fragment has
/// them. Linear in the fragments.
fn lowest_with_room(space: &Space, next: &[u64], words: u32) -> Option<usize>
    requires { length next.now ≡ length space.now.ends }
    ensures { MatchOption result (HasNoRoom space.now next.now words) (λ fragment. IsLowestWithRoom space.now next.now words fragment) }
{
    for fragment in 0..space.fragments() {
        let first = next[fragment as usize];
        let end = space.end_of(fragment) / 8;
        if first <= end && words as u64 <= end - first {
            return Some(fragment as usize);
        }
    }
    None
}
