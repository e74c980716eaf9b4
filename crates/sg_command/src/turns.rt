//! A list of turns, as a word spells it.
ghost use Rattle.std.specs.Prelude.{◌≡◌, ℕ, ◌+◌, ◌<◌, ◌≤◌, List as Sequence, IfOk, MatchOption};
ghost use Rattle.std.specs.Fmt.{decimal};
ghost use Rattle.sg_command.specs.Command.{Spells};

use sg_words::List;
use std::alloc::{AllocError, Global};

/// The highest number of a turn.
const HIGHEST: u32 = 63;

/// The most numbers of a list.
const MOST: usize = 65_536;

/// The digit that the byte is.
fn digit(byte: u8) -> Option<u32>
    ensures { MatchOption result (¬ ((d : ℕ) × (d < 10) × (byte ≡ 48 + d))) (λ d. (d < 10) × (byte ≡ 48 + d)) }
{
    if byte.is_ascii_digit() {
        Some(u32::from(byte - b'0'))
    } else {
        None
    }
}

/// The number of a turn that the word spells.
#[tactic(auto, using(crate::proofs::Numerals::turn_length))]
fn turn(word: &[u8]) -> Option<u32>
    ensures { MatchOption result (¬ ((n : ℕ) × (n ≤ 63) × (word.now ≡ decimal n))) (λ n. (n ≤ 63) × (word.now ≡ decimal n)) }
{
    match word {
        [last] => digit(*last),
        [first, last] => {
            let tens = digit(*first)?;
            let ones = digit(*last)?;
            let number = 10 * tens + ones;
            if tens > 0 && number <= HIGHEST {
                Some(number)
            } else {
                None
            }
        }
        _ => None,
    }
}

/// The list of turns that the word spells. It takes time linear in the bytes.
pub(crate) fn turns_in(alloc: Global, word: &[u8]) -> Result<Option<List<u32>>, AllocError>
    ensures { IfOk result (λ found. MatchOption found (¬ ((turns : Sequence ℕ) × Spells word.now turns)) (Spells word.now)) }
{
    let mut turns = Vec::new(alloc);
    for part in word.split(|byte| *byte == b',') {
        let Some(number) = turn(part) else {
            return Ok(None);
        };
        if turns.len() >= MOST {
            return Ok(None);
        }
        turns.push(number)?;
    }
    Ok(Some(List::from_vec(turns)))
}
