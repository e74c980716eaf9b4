// The numbers of calls, and the list of those that are to fail.
ghost use Rattle.std.specs.Prelude.{◌≡◌, ◌↔◌, IsTrue, Contains};
ghost use Rattle.sg_io.specs.Faults.{next_number};

// Whether the call of that number is to fail. Linear in the list.
pub(crate) fn is_listed(fails: &[u32], call: u64) -> bool
    ensures { IsTrue result ↔ Contains fails.now call }
{
    fails.iter().any(|number| u64::from(*number) == call)
}

// The next number, or `u64::MAX` after itself.
pub(crate) fn next(number: u64) -> u64
    ensures { result ≡ next_number number }
{
    number.saturating_add(1)
}
