// Each public call once on its happy path, a call that is told to fail, an error in mid-stream and a full sink.
ghost use Rattle.std.specs.Io.KnownBytes.{ReadConsumes};
ghost use Rattle.sg_io.specs.Faults.{CountsFaults};
ghost use Rattle.sg_io.specs.Progress.{Takes};

use crate::{Failed, MemorySink, MemorySource, Sink, Source, StdSink, StdSource};
use std::io;
use std::io::{ErrorKind, Read, Write};
use std::test::Fail;

// Through the bound, as a caller that knows nothing else of the source.
fn read_some<S: Source>(source: &mut S, buf: &mut [u8]) -> Result<usize, Failed>
    ensures bytes { ReadConsumes (S.left source.old) (S.left source.new) result buf.new }
    ensures cause { CountsFaults (S.faults source.old) (S.faults source.new) result }
{
    source.read(buf)
}

// Through the bound, as a caller that knows nothing else of the sink.
fn write_some<O: Sink>(sink: &mut O, piece: &[u8]) -> Result<usize, Failed>
    ensures bytes { Takes (O.taken sink.old) (O.taken sink.new) result piece.now }
    ensures cause { CountsFaults (O.faults sink.old) (O.faults sink.new) result }
{
    sink.write(piece)
}

// A reader and writer whose call of one number fails, flushes counted too; any other gives or takes a byte.
#[derive(Drop)]
struct Flaky {
    calls: u8,
    failing: u8,
}

impl Flaky {
    fn new(failing: u8) -> Flaky {
        Flaky { calls: 0, failing }
    }

    fn begin(&mut self) -> io::Result<()> {
        self.calls = self.calls.saturating_add(1);
        if self.calls == self.failing {
            return Err(io::Error::from(ErrorKind::Interrupted));
        }
        Ok(())
    }
}

impl Read for Flaky {
    fn read(&mut self, buf: &mut [u8]) -> io::Result<usize> {
        self.begin()?;
        if buf.is_empty() {
            return Ok(0);
        }
        buf[0] = b'x';
        Ok(1)
    }
}

impl Write for Flaky {
    fn write(&mut self, buf: &[u8]) -> io::Result<usize> {
        self.begin()?;
        Ok(buf.len().min(1))
    }

    fn flush(&mut self) -> io::Result<()> {
        self.begin()
    }
}

#[test]
fn adapters_pass_bytes_and_faults_on(rt: HostRuntime) -> Result<(), Fail> {
    let mut written = Vec::new(rt.alloc());
    let mut source = StdSource::new(b"abcde".as_slice());
    let mut sink = StdSink::new(&mut written);
    let mut buf = [0u8; 3];
    for expected in [3, 2, 0] {
        assert_eq!(rt; read_some(&mut source, &mut buf), Ok(expected));
        if expected <= buf.len() {
            assert_eq!(rt; write_some(&mut sink, &buf[..expected]), Ok(expected));
        }
    }
    assert_eq!(rt; written.as_slice(), b"abcde".as_slice());

    let mut source = StdSource::new(Flaky::new(2));
    for expected in [Ok(1), Err(Failed), Ok(1)] {
        assert_eq!(rt; read_some(&mut source, &mut buf), expected);
    }

    // The second call is the flush after the first write, the third the second write.
    let writes = [
        (1, "", Err(Failed), Ok(0)),
        (2, "xyz", Err(Failed), Ok(1)),
        (3, "xyz", Ok(1), Err(Failed)),
    ];
    for (failing, piece, first, second) in writes {
        let mut sink = StdSink::new(Flaky::new(failing));
        assert_eq!(rt; write_some(&mut sink, piece.as_bytes()), first);
        assert_eq!(rt; write_some(&mut sink, piece.as_bytes()), second);
    }

    let mut room = [0u8; 2];
    let mut full = StdSink::new(room.as_mut_slice());
    for (piece, expected) in [("abc", Ok(2)), ("c", Err(Failed)), ("", Ok(0))] {
        assert_eq!(rt;
            write_some(&mut full, piece.as_bytes()),
            expected,
            "at {piece}"
        );
    }
    Ok(())
}

#[test]
fn memory_fails_where_it_is_told(rt: HostRuntime) -> Result<(), Fail> {
    let mut source = MemorySource::new(rt.alloc(), b"abcde", &[1, 9])?;
    let reads = [Ok("ab"), Err(Failed), Ok("cd"), Ok("e"), Ok("")];
    for expected in reads {
        let mut buf = [0u8; 2];
        let answer = read_some(&mut source, &mut buf);
        assert_eq!(rt; answer, expected.map(|text| text.len()));
        if let Ok(text) = expected {
            assert!(rt; buf.starts_with(text.as_bytes()), "at {text}");
        }
    }

    let mut sink = MemorySink::new(rt.alloc(), 4, &[0])?;
    let writes = [
        ("abc", Err(Failed)),
        ("abc", Ok(3)),
        ("de", Ok(1)),
        ("e", Err(Failed)),
        ("", Ok(0)),
    ];
    for (piece, expected) in writes {
        assert_eq!(rt;
            write_some(&mut sink, piece.as_bytes()),
            expected,
            "at {piece}"
        );
    }
    assert_eq!(rt; sink.taken(), b"abcd".as_slice());
    Ok(())
}
