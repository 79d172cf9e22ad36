//! A blocking stream as one that a connection can use.

ghost use Rattle.std.specs.Prelude.{◌≡◌, ◌≤◌};

use crate::connection::Wants;
use crate::stream::Stream;
use crate::waiting::{StreamCounts, WaitingStream};
use sf_line::{Line, LineFault};

/// A blocking stream. Its reads and writes wait, so `wait` doesn't.
#[derive(Debug, Drop)]
pub struct LineStream<L> {
    line: L,
    counts: StreamCounts,
}

impl<L> LineStream<L> {
    /// A stream over this one.
    pub fn new(line: L) -> LineStream<L>
        ensures { result.line ≡ line }
    {
        LineStream {
            line,
            counts: StreamCounts::new(),
        }
    }

    /// The blocking stream.
    pub fn into_line(self) -> L
        ensures { result ≡ self.line }
    {
        let LineStream { line, counts: _ } = self;
        line
    }
}

impl<L: Line> Stream for LineStream<L> {
    ghost use Rattle.std.specs.Prelude.{None};

    ghost view = { λ s. record {
      incoming = L.incoming s.line;
      outgoing = L.outgoing s.line;
      failed = s.counts.failures;
    } };

    ghost waits = { λ s. record { made = None; left = s.counts.waits_left } };

    fn try_read(&mut self, buffer: &mut [u8]) -> Result<Option<usize>, LineFault> {
        match self.line.read(buffer) {
            Ok(n) => Ok(Some(n)),
            Err(_) => Err(self.counts.fail()),
        }
    }

    fn try_write(&mut self, bytes: &[u8]) -> Result<Option<usize>, LineFault> {
        match self.line.write(bytes) {
            Ok(n) => Ok(Some(n)),
            Err(_) => Err(self.counts.fail()),
        }
    }
}

impl<L: Line> WaitingStream for LineStream<L> {
    fn wait(&mut self, _wants: Wants) -> Result<(), LineFault> {
        self.counts.wait()
    }
}
