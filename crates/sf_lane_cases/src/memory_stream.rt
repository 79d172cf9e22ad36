//! A stream over memory that may block.

ghost use Rattle.std.specs.Prelude.{◌≡◌, ◌≤◌};
ghost use Rattle.sf_line.specs.Lines.{Rose};

use sf_connection::Stream;
use sf_line::LineFault;
use std::alloc::Global;

/// A stream over memory. It transfers at most so many bytes at once. If it is slow, it blocks every
/// other time. Contracts know none of its bytes.
#[derive(Drop)]
pub(crate) struct MemoryStream<'a> {
    input: &'a [u8],
    output: Vec<u8>,
    most: usize,
    is_slow: bool,
    blocks: bool,
    failures: u64,
}

impl<'a> MemoryStream<'a> {
    pub(crate) fn new(
        alloc: Global,
        input: &'a [u8],
        most: usize,
        is_slow: bool,
    ) -> MemoryStream<'a> {
        MemoryStream {
            input,
            output: Vec::new(alloc),
            most: most.max(1),
            is_slow,
            blocks: false,
            failures: 0,
        }
    }

    /// The number of bytes that were written.
    pub(crate) fn written(&self) -> usize {
        self.output.len()
    }

    /// Whether the next transfer blocks.
    fn does_block(&mut self) -> bool
        ensures { self.new.failures ≡ self.old.failures }
    {
        self.blocks = self.is_slow && !self.blocks;
        self.blocks
    }

    /// Counts a failure and returns its error.
    fn fail(&mut self) -> LineFault
        ensures rose { Rose self.old.failures self.new.failures }
        ensures more { self.old.failures ≤ self.new.failures }
    {
        self.failures = self.failures.saturating_add(1);
        LineFault
    }
}

impl Stream for MemoryStream<'_> {
    ghost use Rattle.std.specs.Prelude.{None};

    ghost view = { λ s. record { incoming = None; outgoing = None; failed = s.failures } };

    fn try_read(&mut self, buffer: &mut [u8]) -> Result<Option<usize>, LineFault> {
        if self.does_block() {
            return Ok(None);
        }
        let n = buffer.len().min(self.input.len()).min(self.most);
        let (front, rest) = self.input.split_at(n);
        buffer[..n].copy_from_slice(front);
        self.input = rest;
        Ok(Some(n))
    }

    fn try_write(&mut self, bytes: &[u8]) -> Result<Option<usize>, LineFault> {
        if self.does_block() {
            return Ok(None);
        }
        let n = bytes.len().min(self.most.max(1));
        if self.output.extend_from_slice(&bytes[..n]).is_err() {
            return Err(self.fail());
        }
        Ok(Some(n))
    }
}
