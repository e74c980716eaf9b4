ghost use Rattle.std.specs.Prelude.{◌≡◌, ◌≤◌, ◌<◌, ℕ, MatchOption};
ghost use Rattle.std.specs.Int.{bit_at};

/// The lowest clear bit of `mask` below `n`; `None` exactly where all `n` bits are set.
#[inline]
pub fn first_clear(mask: u64, n: u32) -> Option<u32>
    requires { n ≤ 64 }
    ensures { MatchOption result ((i : ℕ) → i < n → bit_at mask i ≡ 1) (λ b. (b < n) × (bit_at mask b ≡ 0) × ((i : ℕ) → i < b → bit_at mask i ≡ 1)) }
{
    if mask == u64::MAX {
        return None;
    }
    let bit = mask.trailing_ones();
    if bit < n { Some(bit) } else { None }
}
