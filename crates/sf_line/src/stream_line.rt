//! A transport over streams.

ghost use Rattle.std.specs.Prelude.{◌≡◌, ◌<◌, ◌≤◌, length, take, IfSome, IfNone};
ghost use Rattle.std.specs.Io.KnownBytes.{Consumes, Appends, Keeps, IsAtEnd};

use crate::line::{Failures, Line, LineFault};
use std::io::{ErrorKind, Read, Write};

/// The maximum number of attempts if signals interrupt a call.
const TRIES_INTERRUPTED: u32 = 1024;

/// One read, retried if a signal interrupts it.
fn read_some<R: Read>(reader: &mut R, buffer: &mut [u8]) -> Option<usize>
    ensures within { IfSome result (λ n. n ≤ length buffer.new) }
    ensures taken { IfSome result (λ n. Consumes (R.remaining reader.old) (R.remaining reader.new)
        (take n buffer.new)) }
    ensures ended { IfSome result (λ n. n ≡ 0 → 0 < length buffer.new
        → IsAtEnd (R.remaining reader.new)) }
    ensures none { IfNone result (Keeps (R.remaining reader.old) (R.remaining reader.new)) }
{
    for _ in 0..TRIES_INTERRUPTED {
        match reader.read(buffer) {
            Ok(n) => return Some(n),
            Err(error) if error.kind() == ErrorKind::Interrupted => {}
            Err(_) => return None,
        }
    }
    None
}

/// One write, retried if a signal interrupts it.
fn write_some<W: Write>(writer: &mut W, bytes: &[u8]) -> Option<usize>
    ensures within { IfSome result (λ n. n ≤ length bytes.now) }
    ensures added { IfSome result (λ n. Appends (W.contents writer.old) (W.contents writer.new)
        (take n bytes.now)) }
    ensures none { IfNone result (Keeps (W.contents writer.old) (W.contents writer.new)) }
{
    for _ in 0..TRIES_INTERRUPTED {
        match writer.write(bytes) {
            Ok(n) => return Some(n),
            Err(error) if error.kind() == ErrorKind::Interrupted => {}
            Err(_) => return None,
        }
    }
    None
}

/// A transport over any reader and writer. It exposes their bytes if they do, and logs no calls.
///
/// A call interrupted by a signal is attempted up to 1024 times. Nothing is flushed: sockets and
/// standard output don't buffer, and the owner of a buffering writer flushes it.
#[derive(Debug, Drop)]
pub struct StreamLine<R, W> {
    reader: R,
    writer: W,
    failures: Failures,
}

impl<R, W> StreamLine<R, W> {
    ghost use Rattle.sf_line.specs.StreamLines.{reader_of, writer_of, failures_of};

    /// A new transport.
    pub fn new(reader: R, writer: W) -> StreamLine<R, W>
        ensures reader { reader_of result ≡ reader }
        ensures writer { writer_of result ≡ writer }
        ensures failures { failures_of result ≡ 0 }
    {
        StreamLine {
            reader,
            writer,
            failures: Failures::none(),
        }
    }
}

impl<R: Read, W: Write> Line for StreamLine<R, W> {
    ghost use Rattle.std.specs.Prelude.{None};
    ghost use Rattle.sf_line.specs.StreamLines.{reader_of, writer_of, failures_of};

    ghost incoming = { λ l. R.remaining (reader_of l) };

    ghost outgoing = { λ l. W.contents (writer_of l) };

    ghost calls = { λ _. None };

    ghost failed = { λ l. failures_of l };

    fn read(&mut self, buffer: &mut [u8]) -> Result<usize, LineFault> {
        match read_some(&mut self.reader, buffer) {
            Some(n) => Ok(n),
            None => Err(self.failures.add()),
        }
    }

    fn write(&mut self, bytes: &[u8]) -> Result<usize, LineFault> {
        match write_some(&mut self.writer, bytes) {
            Some(n) if n > 0 || bytes.is_empty() => Ok(n),
            _ => Err(self.failures.add()),
        }
    }

    fn failures(&self) -> u64 {
        self.failures.count()
    }
}
