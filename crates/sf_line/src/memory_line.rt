//! A transport over memory, for tests.

ghost use Rattle.std.specs.Prelude.{◌≡◌, ◌<◌, []};

use crate::line::{Failures, Line, LineFault};
use crate::line_call::LineCall;
use std::alloc::Global;

/// Maximum chunk sizes: of the first call, and of each later one.
#[derive(Clone, Copy, Debug, PartialEq, Eq)]
pub struct Pieces {
    first: usize,
    later: usize,
    ghost some_first: { 0 < first },
    ghost some_later: { 0 < later },
}

impl Pieces {
    /// Sizes in bytes.
    pub fn new(first: usize, later: usize) -> Pieces
        requires first { 0 < first }
        requires later { 0 < later }
        ensures first { result.first ≡ first }
        ensures later { result.later ≡ later }
    {
        Pieces { first, later }
    }

    /// The size of the next chunk.
    fn take(&mut self) -> usize
        ensures { 0 < result }
    {
        let piece = self.first;
        self.first = self.later;
        piece
    }
}

/// A transport that reads from a slice and writes to memory, in chunks of chosen sizes, so a test
/// can fragment the bytes anywhere. It logs its calls. A call fails only if memory runs out.
#[derive(Debug, Drop)]
pub struct MemoryLine<'a> {
    input: &'a [u8],
    output: Vec<u8>,
    reads: Pieces,
    writes: Pieces,
    calls: Vec<LineCall>,
    failures: Failures,
}

impl<'a> MemoryLine<'a> {
    ghost use Rattle.sf_line.specs.MemoryLines.{input_of, output_of, reads_of, writes_of, calls_of, failures_of};

    /// A new transport. It allocates nothing until its first call.
    pub fn new(alloc: Global, input: &'a [u8], reads: Pieces, writes: Pieces) -> MemoryLine<'a>
        ensures input { input_of result ≡ input.now }
        ensures output { output_of result ≡ [] }
        ensures reads { reads_of result ≡ reads }
        ensures writes { writes_of result ≡ writes }
        ensures calls { calls_of result ≡ [] }
        ensures failures { failures_of result ≡ 0 }
    {
        MemoryLine {
            input,
            output: Vec::new(alloc),
            reads,
            writes,
            calls: Vec::new(alloc),
            failures: Failures::none(),
        }
    }

    /// The bytes written.
    pub fn output(&self) -> &[u8]
        ensures { result.now ≡ output_of self.now }
    {
        self.output.as_slice()
    }

    /// The successful calls, in order.
    pub fn calls(&self) -> &[LineCall]
        ensures { result.now ≡ calls_of self.now }
    {
        self.calls.as_slice()
    }
}

impl<'a> Line for MemoryLine<'a> {
    ghost use Rattle.std.specs.Prelude.{Some};
    ghost use Rattle.sf_line.specs.MemoryLines.{input_of, output_of, calls_of, failures_of};

    ghost incoming = { λ l. Some (input_of l) };

    ghost outgoing = { λ l. Some (output_of l) };

    ghost calls = { λ l. Some (calls_of l) };

    ghost failed = { λ l. failures_of l };

    fn read(&mut self, buffer: &mut [u8]) -> Result<usize, LineFault> {
        let n = buffer.len().min(self.input.len()).min(self.reads.take());
        if self.calls.push(LineCall::Read(n)).is_err() {
            return Err(self.failures.add());
        }
        let (front, rest) = self.input.split_at(n);
        buffer[..n].copy_from_slice(front);
        self.input = rest;
        Ok(n)
    }

    fn write(&mut self, bytes: &[u8]) -> Result<usize, LineFault> {
        let n = bytes.len().min(self.writes.take());
        if self.calls.push(LineCall::Write(n)).is_err() {
            return Err(self.failures.add());
        }
        if self.output.extend_from_slice(&bytes[..n]).is_err() {
            self.calls.pop();
            return Err(self.failures.add());
        }
        Ok(n)
    }

    fn failures(&self) -> u64 {
        self.failures.count()
    }
}
