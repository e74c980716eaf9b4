ghost use Rattle.std.specs.Prelude.{◌≡◌, ℕ, Option, IfOk, map};
ghost use Rattle.std.specs.List.Sorted.{IsPermutation, IsNonDecreasing, IsStrictlyIncreasing};
ghost use Rattle.sg_space.specs.declared.objects.Object.{Object as Told};
ghost use Rattle.sg_space.specs.Standing.{IsSoundBy, IsSound, TellsYoung};
ghost use Rattle.sg_space.specs.Space.{Contents};
ghost use Rattle.sg_pins.specs.Pins.{ArePinned, AreReached};

use crate::merge;
use sg_space::{Object, Space};
use sg_words::{Addr, List};
use std::alloc::{AllocError, Global};

/// The addresses of the objects of the nursery that some ambiguous word points into, in increasing order and each once.
/// The words may be any numbers. Takes the time of a walk of the nursery and of a sort of the words.
pub fn pin_queue(alloc: Global, ambiguous: &[u64], space: &Space) -> Result<List<Addr>, AllocError>
    requires { IsSound space.now }
    ensures { IfOk result (λ pinned. (owner : ℕ → Option ℕ) → IsSoundBy space.now owner → ArePinned space.now.layout owner ambiguous.now pinned) }
{
    let told = space.walk_nursery(alloc)?;
    pinned_among(alloc, ambiguous, told.as_slice())
}

/// The addresses of those of these objects, which stand in order of address, that some ambiguous word points into, in
/// increasing order and each once. Takes the time of a walk over the objects and of a sort of the words.
pub fn pinned_among(
    alloc: Global,
    ambiguous: &[u64],
    objects: &[Object],
) -> Result<List<Addr>, AllocError>
    requires { IsStrictlyIncreasing (map (λ (o : Told). o.at) objects.now) }
    ensures reached { IfOk result (λ pinned. AreReached ambiguous.now objects.now pinned) }
    ensures pinned { IfOk result (λ pinned. (s : Contents) (owner : ℕ → Option ℕ) → IsSoundBy s owner → TellsYoung s owner objects.now → ArePinned s.layout owner ambiguous.now pinned) }
{
    let words = sorted(alloc, ambiguous)?;
    let pinned = merge::pointed_into(alloc, objects, &words)?;
    Ok(List::from_vec(pinned))
}

// The words in order.
pub(crate) fn sorted(alloc: Global, words: &[u64]) -> Result<Vec<u64>, AllocError>
    ensures permutation { IfOk result (λ ascending. IsPermutation words.now ascending.items) }
    ensures sorted { IfOk result (λ ascending. IsNonDecreasing ascending.items) }
{
    let mut ascending = Vec::from_slice(alloc, words)?;
    ascending.sort()?;
    Ok(ascending)
}
