//! A stream over memory that blocks where a script says.

use sf_connection::{Stream, StreamCounts, WaitingStream, Wants};
use sf_line::LineFault;
use std::alloc::Global;

/// What the next transfers do. After the last one nothing blocks or fails.
#[derive(Clone, Copy, Debug, PartialEq, Eq)]
pub(crate) enum Turn {
    /// Transfers at most so many bytes.
    Some(usize),
    Blocks,
    Fails,
}

/// A stream over memory with a script for its reads, and one for its writes.
#[derive(Drop)]
pub(crate) struct ScriptedStream<'a> {
    input: &'a [u8],
    output: Vec<u8>,
    reads: &'a [Turn],
    writes: &'a [Turn],
    /// The number of writes.
    made: usize,
    /// What it was waited for.
    waits: Vec<Wants>,
    counts: StreamCounts,
}

/// Removes the first turn of a script.
fn next_turn(script: &mut &[Turn]) -> Turn {
    match script.split_first() {
        Some((turn, rest)) => {
            *script = rest;
            *turn
        }
        None => Turn::Some(usize::MAX),
    }
}

impl<'a> ScriptedStream<'a> {
    pub(crate) fn new(
        alloc: Global,
        input: &'a [u8],
        reads: &'a [Turn],
        writes: &'a [Turn],
    ) -> ScriptedStream<'a> {
        ScriptedStream {
            input,
            output: Vec::new(alloc),
            reads,
            writes,
            made: 0,
            waits: Vec::new(alloc),
            counts: StreamCounts::new(),
        }
    }

    /// The bytes written.
    pub(crate) fn output(&self) -> &[u8] {
        self.output.as_slice()
    }

    /// The number of writes.
    pub(crate) fn made(&self) -> usize {
        self.made
    }

    /// What it was waited for.
    pub(crate) fn waits(&self) -> &[Wants] {
        self.waits.as_slice()
    }
}

impl Stream for ScriptedStream<'_> {
    ghost use Rattle.std.specs.Prelude.{Some, None};

    ghost view = { λ s. record {
      incoming = Some s.input.now;
      outgoing = Some s.output.items;
      failed = s.counts.failures;
    } };

    ghost waits = { λ s. record { made = None; left = s.counts.waits_left } };

    fn try_read(&mut self, buffer: &mut [u8]) -> Result<Option<usize>, LineFault> {
        let most = match next_turn(&mut self.reads) {
            Turn::Some(most) => most.max(1),
            Turn::Blocks => return Ok(None),
            Turn::Fails => return Err(self.counts.fail()),
        };
        let n = buffer.len().min(self.input.len()).min(most);
        let (front, rest) = self.input.split_at(n);
        buffer[..n].copy_from_slice(front);
        self.input = rest;
        Ok(Some(n))
    }

    fn try_write(&mut self, bytes: &[u8]) -> Result<Option<usize>, LineFault> {
        let most = match next_turn(&mut self.writes) {
            Turn::Some(most) => most.max(1),
            Turn::Blocks => return Ok(None),
            Turn::Fails => return Err(self.counts.fail()),
        };
        let n = bytes.len().min(most);
        if self.output.extend_from_slice(&bytes[..n]).is_err() {
            return Err(self.counts.fail());
        }
        self.made = self.made.saturating_add(1);
        Ok(Some(n))
    }
}

impl WaitingStream for ScriptedStream<'_> {
    fn wait(&mut self, wants: Wants) -> Result<(), LineFault> {
        if self.waits.push(wants).is_err() {
            return Err(self.counts.fail());
        }
        self.counts.wait()
    }
}
