ghost use Rattle.std.specs.Prelude.{◌≡◌, ℕ, ◌<◌, ◌≤◌, ◌↔◌, IfOk, IsTrue, map, length, slice_index};
ghost use Rattle.std.specs.List.Sorted.{IsNonDecreasing, IsStrictlyIncreasing};
ghost use Rattle.sg_space.specs.declared.objects.Object.{Object as Told};
ghost use Rattle.sg_pins.specs.Pins.{AreReached};

use sg_space::Object;
use sg_words::Addr;
use std::alloc::{AllocError, Global};

// The addresses of those objects that some word points into. Linear in the objects and the words.
pub(crate) fn pointed_into(
    alloc: Global,
    objects: &[Object],
    words: &[u64],
) -> Result<Vec<Addr>, AllocError>
    requires objects { IsStrictlyIncreasing (map (λ (o : Told). o.at) objects.now) }
    requires words { IsNonDecreasing words.now }
    ensures { IfOk result (λ pinned. AreReached words.now objects.now pinned.items) }
{
    let mut pinned = Vec::new(alloc);
    let mut index = 0;
    for object in objects {
        let at = object.at.get();
        index = skip_below(words, index, at);
        if is_below(words, index, at + 8 * object.words as u64) {
            pinned.push(object.at)?;
        }
    }
    Ok(pinned)
}

// The place of the first word from `from` on that isn't below `at`, or the number of words where each is.
fn skip_below(words: &[u64], from: usize, at: u64) -> usize
    requires { from ≤ length words.now }
    ensures within { result ≤ length words.now }
    ensures below { (k : ℕ) → from ≤ k → k < result → slice_index words.now k < at }
    ensures first { result < length words.now → at ≤ slice_index words.now result }
{
    for index in from..words.len() {
        if at <= words[index] {
            return index;
        }
    }
    words.len()
}

// Whether there is a word at `index`, and it is below `end`.
fn is_below(words: &[u64], index: usize, end: u64) -> bool
    ensures { IsTrue result ↔ ((index < length words.now) × (slice_index words.now index < end)) }
{
    index < words.len() && words[index] < end
}
