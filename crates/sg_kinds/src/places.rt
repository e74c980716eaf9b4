ghost use Rattle.std.specs.Prelude.{◌≡◌, ℕ, ◌<◌, ◌≤◌, ◌↔◌, IsTrue, length, slice_index_or};
ghost use Rattle.sg_kinds.specs.declared.table.Kind.TheVariants.{Ref};

use crate::table::Kind;

/// Whether the first n places hold the same.
pub(crate) fn agree(xs: &[Kind], ys: &[Kind], n: usize) -> bool
    requires xs { n ≤ length xs.now }
    requires ys { n ≤ length ys.now }
    ensures { IsTrue result ↔ ((k : ℕ) → k < n → slice_index_or xs.now k Ref ≡ slice_index_or ys.now k Ref) }
{
    for k in 0..n {
        if xs[k] != ys[k] {
            return false;
        }
    }
    true
}
