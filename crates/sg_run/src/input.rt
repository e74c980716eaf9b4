// Reading a source to its end.
ghost use Rattle.std.specs.Prelude.{◌≤◌, length, IfOk, IfErr, IfSome};
ghost use Rattle.std.specs.Io.KnownBytes.{IsAtEnd};
ghost use Rattle.sg_run.specs.Input.{ServesFor, StopsReading};

use sg_io::Source;
use std::alloc::Global;

// The most bytes that an accepted input has.
const LONGEST: usize = 1_048_576;

// The most bytes that are asked for at once.
const PIECE: usize = 4096;

/// Why reading stopped early.
#[derive(Clone, Copy, Debug, PartialEq, Eq)]
pub(crate) enum ReadError {
    /// The source failed.
    Source,
    /// There was no memory for the bytes.
    Memory,
}

/// Reads the source to its end, or until more bytes were read than an accepted input has.
///
/// It reads in pieces of at most 4,096 bytes: each takes at least one byte, ends the input or fails. Linear in the
/// bytes.
pub(crate) fn read_input<S: Source>(alloc: Global, source: &mut S) -> Result<Vec<u8>, ReadError>
    ensures whole { IfOk result (λ bytes. IfSome (S.left source.old) (ServesFor bytes.items)) }
    ensures at_end { IfOk result (λ bytes. length bytes.items ≤ 1048576 → IsAtEnd (S.left source.new)) }
    ensures never_falls { S.faults source.old ≤ S.faults source.new }
    ensures cause { IfErr result (λ error. StopsReading error (S.faults source.old) (S.faults source.new)) }
{
    let mut bytes = Vec::new(alloc);
    let mut piece = [0u8; PIECE];
    while bytes.len() <= LONGEST {
        let count = match source.read(&mut piece) {
            Ok(count) => count,
            Err(_) => return Err(ReadError::Source),
        };
        if count == 0 {
            return Ok(bytes);
        }
        if bytes.extend_from_slice(&piece[..count]).is_err() {
            return Err(ReadError::Memory);
        }
    }
    Ok(bytes)
}
