// Writing a piece to a sink.
ghost use Rattle.std.specs.Prelude.{◌≡◌, ◌≤◌, length, drop, MatchResult};
ghost use Rattle.std.specs.Io.KnownBytes.{Appends};
ghost use Rattle.sg_io.specs.Faults.{CountsFaults};
ghost use Rattle.sg_io.specs.Progress.{TakesSome};

use sg_io::{Failed, Sink};

/// Writes the whole piece: what the sink left is offered again from where it stopped, until all of it is taken or a
/// write fails. Then some first bytes were taken, possibly none or all.
pub(crate) fn write_piece<O: Sink>(sink: &mut O, piece: &[u8]) -> Result<(), Failed>
    ensures taken { MatchResult result (λ _. Appends (O.taken sink.old) (O.taken sink.new) piece.now)
        (λ _. TakesSome (O.taken sink.old) (O.taken sink.new) piece.now) }
    ensures cause { CountsFaults (O.faults sink.old) (O.faults sink.new) result }
{
    let mut at = 0;
    while at < piece.len() {
        match sink.write(from(piece, at)) {
            Ok(count) => at += count,
            Err(Failed) => return Err(Failed),
        }
    }
    Ok(())
}

fn from(piece: &[u8], at: usize) -> &[u8]
    requires { at ≤ length piece.now }
    ensures { result.now ≡ drop at piece.now }
{
    &piece[at..]
}
