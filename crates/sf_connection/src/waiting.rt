//! Streams that a thread waits for.

ghost use Rattle.std.specs.Prelude.{◌≡◌, ◌<◌, ◌≤◌, ◌^◌, ◌-◌, OnOk, OnErr};
ghost use Rattle.sf_line.specs.Lines.{Rose};
ghost use Rattle.sf_connection.specs.Waits.{RecordsWaits, wait_made};

use crate::connection::Wants;
use crate::stream::Stream;
use sf_line::LineFault;

/// A stream that a thread can wait for, but not forever: each wait uses up a try.
pub trait WaitingStream: Stream {
    /// Blocks until the stream is ready for what a connection wants, or not as long. If it wants
    /// only to read, the next read may block in its place.
    fn wait(&mut self, wants: Wants) -> Result<(), LineFault>
        ensures incoming { (Self.view self.new).incoming ≡ (Self.view self.old).incoming }
        ensures outgoing { (Self.view self.new).outgoing ≡ (Self.view self.old).outgoing }
        ensures failures { (Self.view self.old).failed ≤ (Self.view self.new).failed }
        ensures fault { OnErr result (Rose (Self.view self.old).failed (Self.view self.new).failed) }
        ensures made { RecordsWaits (Self.waits self.old).made (Self.waits self.new).made
            (wait_made wants (Self.view self.old)) }
        ensures left { OnOk result ((Self.waits self.new).left < (Self.waits self.old).left) };
}

/// The errors of a stream, and the waits that are left: 2^64 - 1 for a new stream.
#[derive(Clone, Copy, Debug, PartialEq, Eq)]
pub struct StreamCounts {
    failures: u64,
    waits_left: u64,
}

impl StreamCounts {
    /// No errors and no waits.
    pub fn new() -> StreamCounts
        ensures failures { result.failures ≡ 0 }
        ensures left { result.waits_left ≡ 2 ^ 64 - 1 }
    {
        StreamCounts {
            failures: 0,
            waits_left: u64::MAX,
        }
    }

    /// Counts an error.
    pub fn fail(&mut self) -> LineFault
        ensures failures { self.old.failures ≤ self.new.failures }
        ensures fault { Rose self.old.failures self.new.failures }
        ensures left { self.new.waits_left ≡ self.old.waits_left }
    {
        self.failures = self.failures.saturating_add(1);
        LineFault
    }

    /// Counts a wait, or an error if none is left.
    pub fn wait(&mut self) -> Result<(), LineFault>
        ensures failures { self.old.failures ≤ self.new.failures }
        ensures fault { OnErr result (Rose self.old.failures self.new.failures) }
        ensures left { OnOk result (self.new.waits_left < self.old.waits_left) }
        ensures spent { OnErr result (self.old.waits_left ≡ 0) }
    {
        if self.waits_left == 0 {
            return Err(self.fail());
        }
        self.waits_left -= 1;
        Ok(())
    }
}
