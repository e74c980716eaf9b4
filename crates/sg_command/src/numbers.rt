//! A seed and a size, as two words spell them.
ghost use Rattle.std.specs.Prelude.{◌≡◌, ℕ, ◌^◌, ◌<◌, ◌≤◌, MatchOption};
ghost use Rattle.std.specs.Fmt.{decimal};
ghost use Rattle.sg_command.specs.Command.{IsLoad};

use itoa::Buffer;

/// The least size of a program that is made.
const LEAST: u64 = 24;

/// The greatest one.
const GREATEST: u64 = 80_000;

/// The number of 64 bits that the word spells in decimal: without leading zeros, and without a sign.
fn number_in(word: &str) -> Option<u64>
    ensures { MatchOption result (¬ ((n : ℕ) × (n < 2 ^ 64) × (word.now ≡ decimal n))) (λ n. word.now ≡ decimal n) }
{
    let Ok(number) = word.parse::<u64>() else {
        return None;
    };
    let mut buffer = Buffer::new();
    if buffer.format(number) == word {
        Some(number)
    } else {
        None
    }
}

/// The seed and the size that the two words spell. Linear in their bytes.
pub(crate) fn load_in(seed: &str, size: &str) -> Option<(u64, u32)>
    ensures { MatchOption result (¬ ((n m : ℕ) × (seed.now ≡ decimal n) × (size.now ≡ decimal m) × IsLoad n m))
        (λ load. (seed.now ≡ decimal load.0) × (size.now ≡ decimal load.1) × IsLoad load.0 load.1) }
{
    let seed = number_in(seed)?;
    let size = number_in(size)?;
    if LEAST <= size && size <= GREATEST {
        Some((seed, size as u32))
    } else {
        None
    }
}
