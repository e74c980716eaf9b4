ghost use Rattle.std.specs.Prelude.{◌≡◌, ◌+◌, ◌<◌, ◌≤◌, ◌^◌, ℕ, [], ◌∷◌};
ghost use Rattle.sg_words.specs.Address.{IsAddress, byte_at, word_at};
ghost use Rattle.sg_words.specs.declared.steps.Place.TheVariants.{Next};
ghost use Rattle.sg_words.specs.declared.steps.Step.TheVariants.{Load};
ghost use Rattle.sg_words.specs.declared.steps.Call.TheVariants.{Loads, Swaps};
ghost use Rattle.sg_frag.specs.Claims.{IsLooked, IsClaimed, IsRest, end_of_claim};

use sg_cells::FragPort;
use sg_words::Addr;

/// What a look at a fragment finds. Sizes are in words.
#[derive(Clone, Copy, Debug, PartialEq, Eq)]
pub enum Looked {
    /// It has the words: its next word, a byte address, as it was seen.
    Ready { next: u64 },
    /// It has so many words left, too few.
    Small { rest: u32 },
}

/// How a claim ended. Sizes are in words.
#[derive(Clone, Copy, Debug, PartialEq, Eq)]
pub enum Claimed {
    /// The words from `start` to before `end` were claimed.
    Got { start: Addr, end: Addr },
    /// The exchange was lost; the fragment still has the words, from this byte address on.
    Moved { next: u64 },
    /// The exchange was lost, and the fragment has so many words left, too few.
    Small { rest: u32 },
}

/// Whether fragment `f` has `least` words left: one load of its next word.
pub fn look<P: FragPort>(port: &mut P, f: u32, least: u32) -> Looked
    requires exists { f < P.fragments port.old }
    requires may { P.may port.old (Loads (Next f)) }
    ensures { (seen : ℕ) × P.leads port.old (Load (Next f) seen ∷ []) port.new × P.sees port.old (Load (Next f) seen) × IsLooked (P.limit port.old f) least seen result }
{
    let limit = port.end(f) / 8;
    let next = port.next(f);
    match rest_from(next, limit, least) {
        None => Looked::Ready { next },
        Some(rest) => Looked::Small { rest },
    }
}

/// Claims words of fragment `f` from its next word on, which was seen to be `seen`: as many as `want`, or as there are, of which
/// `least` are needed. One exchange.
pub fn claim<P: FragPort>(port: &mut P, f: u32, seen: u64, want: u32, least: u32) -> Claimed
    requires exists { f < P.fragments port.old }
    requires some { 1 ≤ least }
    requires enough { least ≤ want }
    requires address { IsAddress seen }
    requires leaves { word_at seen + least ≤ P.limit port.old f }
    requires within { P.limit port.old f < 2 ^ 37 }
    requires may { P.may port.old (Swaps (Next f) seen (end_of_claim (P.limit port.old f) seen want)) }
    ensures { IsClaimed P.leads P.sees port.old f (P.limit port.old f) seen want least port.new result }
{
    let limit = port.end(f) / 8;
    let first = seen / 8;
    let end = first + (limit - first).min(want as u64);
    match port.swap_next(f, seen, 8 * end) {
        Ok(()) => Claimed::Got {
            start: Addr::at_word(first),
            end: Addr::at_word(end),
        },
        Err(next) => match rest_from(next, limit, least) {
            None => Claimed::Moved { next },
            Some(rest) => Claimed::Small { rest },
        },
    }
}

/// How many words there are from this byte address to before the word `limit`, where these are fewer than `least`.
fn rest_from(next: u64, limit: u64, least: u32) -> Option<u32>
    ensures { IsRest limit least next result }
{
    let rest = limit.saturating_sub(next / 8);
    if next / 8 + least as u64 <= limit {
        None
    } else {
        Some(rest as u32)
    }
}
