//! A standard stream that fails: its adapter tells the fault.
use std::io;
use std::process::Abort;
use zk_base::{Failed, Sink, Source, StdSink, StdSource};

/// Reads once for each row: what is answered, and what stands in the buffer then.
pub fn reads<R: Abort, S: Source>(
    rt: &R,
    source: &mut S,
    rows: &[(Result<usize, Failed>, &[u8; 8])],
) {
    let mut into = [0; 8];
    for (answer, text) in rows {
        assert!(rt; source.read(&mut into) == *answer);
        assert!(rt; into.as_slice() == text.as_slice());
    }
}

/// Writes each piece: what is answered.
pub fn writes<R: Abort, S: Sink>(rt: &R, sink: &mut S, rows: &[(&[u8], Result<usize, Failed>)]) {
    for (piece, answer) in rows {
        if !piece.is_empty() {
            assert!(rt; sink.write(piece) == *answer);
        }
    }
}

/// A stream that moves two bytes and then fails.
#[derive(Drop)]
struct Broken {
    calls: u8,
}

impl io::Read for Broken {
    fn read(&mut self, buf: &mut [u8]) -> io::Result<usize> {
        if self.calls > 0 || buf.len() < 2 {
            return Err(io::Error::from(io::ErrorKind::BrokenPipe));
        }
        self.calls = 1;
        buf[0] = b'o';
        buf[1] = b'k';
        Ok(2)
    }
}

impl io::Write for Broken {
    fn write(&mut self, buf: &[u8]) -> io::Result<usize> {
        if self.calls > 1 {
            return Err(io::Error::from(io::ErrorKind::BrokenPipe));
        }
        self.calls += 1;
        Ok(buf.len().min(2 - self.calls as usize))
    }

    fn flush(&mut self) -> io::Result<()> {
        Ok(())
    }
}

/// The reader gives two bytes and fails; the writer takes one byte, then none, and then it fails.
#[test]
fn a_stream_that_fails_is_a_fault(rt: HostRuntime) {
    let mut source = StdSource::new(Broken { calls: 0 });
    reads(
        &rt,
        &mut source,
        &[(Ok(2), b"ok\0\0\0\0\0\0"), (Err(Failed), b"ok\0\0\0\0\0\0")],
    );
    let mut sink = StdSink::new(Broken { calls: 0 });
    writes(
        &rt,
        &mut sink,
        &[(b"abc", Ok(1)), (b"bc", Err(Failed)), (b"bc", Err(Failed))],
    );
}
