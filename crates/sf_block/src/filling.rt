//! Copies of the blocks of a long write.

ghost use Rattle.std.specs.Prelude.{◌≡◌, ◌+◌, ◌++◌, ◌^◌, ◌<◌, ◌≤◌, [], length, if◌then◌else◌, IfOk, IfSome, IsTrue};
ghost use Rattle.sf_block.specs.Blocks.{Filled, Copies, unfilled};

use crate::{BLOCK, MOST_SHARED, ROW};
use sf_field::{ByteBuffer, ByteString};
use std::alloc::{AllocError, Global};
use std::marker::Model;
use std::mem;

/// Consecutive copies of whole blocks that are in place, for writes with more bytes than their
/// blocks may share. The buffers for all runs of the write are reserved, so copying allocates
/// nothing.
#[derive(Debug, Drop)]
pub(crate) struct Filling {
    /// The number of the first block.
    from: u64,
    bytes: ByteBuffer,
    /// The unused buffers; the last one is used next.
    room: Vec<ByteBuffer>,
}

impl Model for Filling {
    ghost use Rattle.sf_block.specs.Blocks.{Filled};

    ghost Value = { Filled };

    ghost view = { λ f. record { from = f.from; bytes = f.bytes } };
}

impl Filling {
    /// No copies, and no buffers.
    pub(crate) fn new(alloc: Global) -> Filling
        ensures { result ≡ unfilled }
    {
        Filling {
            from: 0,
            bytes: ByteBuffer::new(),
            room: Vec::new(alloc),
        }
    }

    /// No copies, and buffers for the blocks of a write, without a last one that is not whole. None
    /// if the write is so short that its blocks share its bytes.
    pub(crate) fn reserve(alloc: Global, offset: u64, len: usize) -> Result<Filling, AllocError>
        requires { offset + len < 2 ^ 64 }
        ensures { IfOk result (λ filling. filling.bytes ≡ []) }
    {
        let mut filling = Filling::new(alloc);
        if len <= MOST_SHARED {
            return Ok(filling);
        }
        let first = offset / BLOCK;
        let end = (offset + len as u64) / BLOCK;
        for run in (first / ROW..end.div_ceil(ROW)).rev() {
            let blocks = end.min(run * ROW + ROW) - first.max(run * ROW);
            let buffer = ByteBuffer::with_capacity(alloc, (blocks * BLOCK) as usize)?;
            filling.room.push(buffer)?;
        }
        filling.bytes = filling.next();
        Ok(filling)
    }

    /// Appends a block if it is whole and there is room, and returns whether it did. Allocates
    /// nothing.
    pub(crate) fn push(&mut self, number: u64, block: &[u8]) -> bool
        ensures { Copies self.old self.new number block.now result }
    {
        if self.bytes.is_empty() {
            self.from = number;
        }
        block.len() == BLOCK as usize && self.bytes.append(block)
    }

    /// Takes the copies, with the number of the first block, if there are any, and starts the next
    /// buffer. Allocates nothing.
    pub(crate) fn take(&mut self) -> Option<(u64, ByteString)>
        ensures taken { IfSome result (λ taken. (taken.0 ≡ self.old.from)
            × (taken.1 ≡ self.old.bytes)) }
        ensures empty { self.new.bytes ≡ [] }
    {
        if self.bytes.is_empty() {
            return None;
        }
        let next = self.next();
        let copies = mem::replace(&mut self.bytes, next);
        Some((self.from, copies.into_string()))
    }

    /// The next buffer.
    fn next(&mut self) -> ByteBuffer
        ensures empty { result ≡ [] }
        ensures same { self.new ≡ self.old }
    {
        match self.room.pop() {
            Some(buffer) if buffer.is_empty() => buffer,
            _ => ByteBuffer::new(),
        }
    }
}
