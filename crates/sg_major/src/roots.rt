// The roots of a major pause.

ghost use Rattle.std.specs.Prelude.{ℕ, ◌<◌, Option, IfOk};
ghost use Rattle.sg_space.specs.Standing.{IsSound, IsSoundBy, TellsYoung};
ghost use Rattle.sg_major.specs.Parts.{AreRoots, AddsThose, IsPointedBehind, IsGlobal, ArePointedBehind, HoldsAt};

use sg_pins::pinned_among;
use sg_space::{Object, Space};
use sg_words::{Addr, GLOBALS};
use std::alloc::{AllocError, Global};

/// The addresses of the objects that an ambiguous word points into, and those that the globals hold; an address may come more than once.
/// `told` are the objects of the nursery. Takes memory for them, and the time of a walk over the young objects, of a sort of the words, and of
/// a look at each word and each global.
pub(crate) fn roots_of(
    alloc: Global,
    space: &Space,
    ambiguous: &[u64],
    told: &[Object],
) -> Result<Vec<Addr>, AllocError>
    requires sound { IsSound space.now }
    requires told { (owner : ℕ → Option ℕ) → IsSoundBy space.now owner → TellsYoung space.now owner told.now }
    ensures { IfOk result (λ roots. (owner : ℕ → Option ℕ) → IsSoundBy space.now owner → AreRoots space.now owner ambiguous.now roots.items) }
{
    let mut roots = pinned_among(alloc, ambiguous, told)?.into_vec();
    add_pointed(space, ambiguous, &mut roots)?;
    add_globals(space, &mut roots)?;
    Ok(roots)
}

// Adds the objects behind the nursery that these words point into.
fn add_pointed(space: &Space, words: &[u64], roots: &mut Vec<Addr>) -> Result<(), AllocError>
    requires { IsSound space.now }
    ensures { IfOk result (λ _. (owner : ℕ → Option ℕ) → IsSoundBy space.now owner → AddsThose (ArePointedBehind space.now owner words.now) roots.old.items roots.new.items) }
{
    for v in words {
        add_one(space, *v, roots)?;
    }
    Ok(())
}

// Adds the object behind the nursery that this word points into, if it does.
fn add_one(space: &Space, v: u64, roots: &mut Vec<Addr>) -> Result<(), AllocError>
    requires { IsSound space.now }
    ensures { IfOk result (λ _. (owner : ℕ → Option ℕ) → IsSoundBy space.now owner → AddsThose (IsPointedBehind space.now owner v) roots.old.items roots.new.items) }
{
    if v / 8 < space.layout().old_word() {
        return Ok(());
    }
    if let Some(a) = space.containing(v) {
        roots.push(a)?;
    }
    Ok(())
}

// Adds what the globals hold.
fn add_globals(space: &Space, roots: &mut Vec<Addr>) -> Result<(), AllocError>
    ensures { IfOk result (λ _. AddsThose (IsGlobal space.now) roots.old.items roots.new.items) }
{
    for x in 0..GLOBALS {
        add_global(space, x, roots)?;
    }
    Ok(())
}

// Adds what this global holds, unless it holds nothing.
fn add_global(space: &Space, x: u32, roots: &mut Vec<Addr>) -> Result<(), AllocError>
    requires { x < 64 }
    ensures { IfOk result (λ _. AddsThose (HoldsAt space.now x) roots.old.items roots.new.items) }
{
    if let Some(a) = Addr::of(space.read(space.layout().global(x))) {
        roots.push(a)?;
    }
    Ok(())
}
