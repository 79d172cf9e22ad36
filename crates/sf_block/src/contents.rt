//! The bytes of a file in blocks.

ghost use Rattle.std.specs.Prelude.{◌≡◌, ◌⊎◌, ◌+◌, ◌++◌, ◌-◌, ◌*◌, ◌/◌, ◌%◌, ◌<◌, ◌≤◌, ◌^◌, ℕ, List, [], length, take, drop, replicate, slice_index_or, Some, IsSome, IfOk, OnOk, OnErr};
ghost use Rattle.sf_block.specs.Contents.{complete, resized, written, writing, blocks_of};
ghost use Rattle.sf_block.specs.Blocks.{run_in, block_in, block_written, bytes_from, HasPlace, HasBytes, IsHeld, IsNoted, IsRunOf};

use crate::blocks::Blocks;
use crate::filling::Filling;
use crate::pending::{Next, Pending};
use crate::queue::BlockQueue;
use crate::runs::Runs;
use crate::{BLOCK, MOST_KEPT, MOST_SHARED, ROW, RUN};
use sf_field::ByteString;
use std::alloc::{AllocError, Global};
use std::marker::Model;

/// The bytes of a file, with at most one pending write.
#[derive(Debug)]
pub struct Contents {
    len: u64,
    blocks: Blocks,
    runs: Runs,
    /// The rest of a write, each block with its place made.
    pending: Pending,
}

impl Drop for Contents {
    // By hand, so that a proof sees one call instead of the parts.
    fn drop(self) {
        let Self {
            len: _,
            blocks: _blocks,
            runs: _runs,
            pending: _pending,
        } = self;
    }
}

impl Model for Contents {
    ghost use Rattle.std.specs.Prelude.{ℕ, ◌≡◌, ◌+◌, ◌^◌, ◌<◌, ◌≤◌, length};
    ghost use Rattle.sf_block.specs.Contents.{FileBytes};
    ghost use Rattle.sf_block.specs.Blocks.{HasPlace, block_now, byte_in, bytes_from, AreRuns, IsHeld, EndsBefore};

    ghost Value = { FileBytes };

    ghost view = { λ c. record {
      bytes = bytes_from (block_now c.blocks c.pending.first c.pending.fresh) 0 c.len;
      left = length c.pending.fresh;
    } };

    ghost invariant = { λ c.
        ((k : ℕ) → length (block_now c.blocks c.pending.first c.pending.fresh k) ≤ 4096)
        × ((i : ℕ) → c.len ≤ i
        → byte_in (block_now c.blocks c.pending.first c.pending.fresh) i ≡ 0)
        × ((k : ℕ) → c.pending.first ≤ k → k < c.pending.first + length c.pending.fresh
        → HasPlace c.blocks k)
        × (c.pending.first + length c.pending.fresh < 2 ^ 64)
        × AreRuns c.runs (block_now c.blocks c.pending.first c.pending.fresh) c.len
        × IsHeld c.blocks c.pending.filled.from c.pending.filled.bytes
        × EndsBefore c.pending.filled c.pending.first
        × (length c.pending.fresh ≡ 0 → length c.pending.filled.bytes ≡ 0) };
}

impl Contents {
    /// An empty file. Allocates nothing.
    pub fn new(alloc: Global) -> Contents
        ensures { result ≡ complete [] }
    {
        Contents {
            len: 0,
            blocks: Blocks::new(alloc),
            runs: Runs::new(alloc),
            pending: Pending::new(),
        }
    }

    /// A copy that shares the blocks.
    pub fn try_copy(&self, alloc: Global) -> Result<Contents, AllocError>
        requires { self.now.left ≡ 0 }
        ensures { IfOk result (λ copy. copy ≡ self.now) }
    {
        Ok(Contents {
            len: self.len,
            blocks: self.blocks.try_copy(alloc)?,
            runs: self.runs.try_copy(alloc)?,
            pending: Pending::new(),
        })
    }

    /// A copy that shares the blocks, pending ones included: it has as many left to copy.
    pub(crate) fn share(&self, alloc: Global) -> Result<Contents, AllocError>
        ensures { IfOk result (λ copy. copy ≡ self.now) }
    {
        Ok(Contents {
            len: self.len,
            blocks: self.blocks.try_copy(alloc)?,
            runs: self.runs.try_copy(alloc)?,
            pending: self.pending.share(alloc)?,
        })
    }

    /// The size in bytes.
    pub fn len(&self) -> u64
        ensures { result ≡ length self.now.bytes }
    {
        self.len
    }

    /// The number of blocks of a write that are still to be copied.
    pub fn left(&self) -> usize
        ensures { result ≡ self.now.left }
    {
        self.pending.left()
    }

    /// Starts a write: makes all its allocations, or fails with no change. The bytes are as after
    /// the write, and each of its blocks is still to be copied.
    pub fn start_write(
        &mut self,
        alloc: Global,
        offset: u64,
        bytes: &ByteString,
    ) -> Result<(), AllocError>
        requires whole { self.old.left ≡ 0 }
        requires some { 0 < length bytes.now }
        requires fits { offset + length bytes.now < 2 ^ 64 }
        ensures ok { OnOk result (self.new ≡ writing self.old.bytes offset bytes.now) }
        ensures err { OnErr result (self.new ≡ self.old) }
    {
        let fresh = renewed(alloc, &self.blocks, offset, bytes)?;
        let filling = Filling::reserve(alloc, offset, bytes.len())?;
        let pending = Pending::of(alloc, offset / BLOCK, fresh, filling)?;
        make_places(alloc, &mut self.blocks, &mut self.runs, offset, bytes)?;
        self.pending = pending;
        self.len = self.len.max(offset + bytes.len() as u64);
        Ok(())
    }

    /// Copies one block of a write into place. Allocates nothing.
    pub fn copy_block(&mut self)
        requires { 0 < self.old.left }
        ensures { self.new ≡ record { bytes = self.old.bytes; left = self.old.left - 1 } }
    {
        if let Some(
            Next {
                number,
                block,
                copied,
            },
        ) = self.pending.next()
        {
            self.blocks.put(number, block);
            if !copied || (number + 1) % ROW == 0 || self.pending.left() == 0 {
                settle(
                    &mut self.blocks,
                    &mut self.runs,
                    &mut self.pending,
                    self.len,
                );
            }
        }
    }

    /// Copies the rest of a write into place. Allocates nothing.
    pub fn copy_rest(&mut self)
        ensures { self.new ≡ complete self.old.bytes }
    {
        while self.left() > 0 {
            self.copy_block();
        }
    }

    /// Starts a write and copies all its blocks.
    pub fn write(
        &mut self,
        alloc: Global,
        offset: u64,
        bytes: &ByteString,
    ) -> Result<(), AllocError>
        requires whole { self.old.left ≡ 0 }
        requires some { 0 < length bytes.now }
        requires fits { offset + length bytes.now < 2 ^ 64 }
        ensures ok { OnOk result (self.new ≡ complete (written self.old.bytes offset bytes.now)) }
        ensures err { OnErr result (self.new ≡ self.old) }
    {
        self.start_write(alloc, offset, bytes)?;
        self.copy_rest();
        Ok(())
    }

    /// Truncates the file to a size, or extends it with zeros, as POSIX's `ftruncate` does.
    /// Allocates nothing: zeros at the end need no block.
    pub fn set_len(&mut self, n: u64)
        requires { self.old.left ≡ 0 }
        ensures { self.new ≡ complete (resized self.old.bytes n) }
    {
        if n >= self.len {
            self.len = n;
            return;
        }
        self.blocks.cut(n);
        self.runs.cut(n / RUN);
        self.len = n;
    }

    /// Returns up to `most` bytes from an offset on: none from the end on. Half a run or more is
    /// shared if the run is in one buffer. All else is copied, so that a few bytes keep no run
    /// alive.
    pub fn read(&self, alloc: Global, offset: u64, most: usize) -> Result<ByteString, AllocError>
        requires whole { self.now.left ≡ 0 }
        ensures { IfOk result (λ bytes. bytes ≡ take most (drop offset self.now.bytes)) }
    {
        let start = offset.min(self.len);
        let n = (most as u64).min(self.len - start);
        let from = start % RUN;
        if n >= RUN / 2 && n <= RUN - from {
            if let Some(run) = self.runs.get(start / RUN) {
                return run.part(from as usize, (from + n) as usize);
            }
        }
        ByteString::from_vec(gather(alloc, &self.blocks, &self.runs, start, n as usize)?)
    }

    /// The number of zero bytes from an offset on that take no memory: up to the next row of
    /// blocks, or the end.
    pub fn gap(&self, offset: u64) -> u64
        requires { self.now.left ≡ 0 }
        ensures { take result (drop offset self.now.bytes) ≡ replicate result 0 }
    {
        let end = match self.blocks.next_row(offset / RUN) {
            Some(row) => row.saturating_mul(RUN).min(self.len),
            None => self.len,
        };
        end.saturating_sub(offset)
    }
}

/// Makes places for the blocks of a write, and for the runs that it covers.
fn make_places(
    alloc: Global,
    blocks: &mut Blocks,
    runs: &mut Runs,
    offset: u64,
    bytes: &ByteString,
) -> Result<(), AllocError>
    requires some { 0 < length bytes.now }
    requires fits { offset + length bytes.now < 2 ^ 64 }
    ensures same { (k : ℕ) → block_in blocks.new k ≡ block_in blocks.old k }
    ensures there { OnOk result ((k : ℕ) → offset / 4096 ≤ k
        → k < offset / 4096 + blocks_of offset bytes.now → HasPlace blocks.new k) }
    ensures noted { OnOk result ((k : ℕ) (run : List ℕ) → run_in runs.new k ≡ Some run
        → IsNoted runs.old offset bytes.now k run) }
    ensures fewer { OnErr result ((k : ℕ) (run : List ℕ) → run_in runs.new k ≡ Some run
        → run_in runs.old k ≡ Some run) }
{
    let first = offset / BLOCK;
    let last = (offset + (bytes.len() as u64 - 1)) / BLOCK;
    blocks.make_places(alloc, first, (last + 1 - first) as usize)?;
    runs.note(offset, bytes)
}

/// The blocks that a write touches, as after the write. Whole ones are parts of the written bytes.
fn renewed(
    alloc: Global,
    blocks: &Blocks,
    offset: u64,
    bytes: &ByteString,
) -> Result<BlockQueue, AllocError>
    requires some { 0 < length bytes.now }
    requires fits { offset + length bytes.now < 2 ^ 64 }
    requires small { (k : ℕ) → length (block_in blocks.now k) ≤ 4096 }
    ensures count { IfOk result (λ fresh. length fresh ≡ blocks_of offset bytes.now) }
    ensures blocks { IfOk result (λ fresh. (j : ℕ) → j < length fresh
        → slice_index_or fresh j []
        ≡ block_written (block_in blocks.now) offset bytes.now (offset / 4096 + j)) }
{
    let end = offset + bytes.len() as u64;
    let first = offset / BLOCK;
    let last = (end - 1) / BLOCK;
    let mut fresh = BlockQueue::with_capacity(alloc, (last + 1 - first) as usize)?;
    for number in first..last + 1 {
        fresh.push(block_with(alloc, blocks, number, offset, bytes)?)?;
    }
    Ok(fresh)
}

/// A block as after a write.
fn block_with(
    alloc: Global,
    blocks: &Blocks,
    number: u64,
    offset: u64,
    bytes: &ByteString,
) -> Result<ByteString, AllocError>
    requires fits { offset + length bytes.now < 2 ^ 64 }
    requires from { offset < number * 4096 + 4096 }
    requires to { number * 4096 < offset + length bytes.now }
    requires small { length (block_in blocks.now number) ≤ 4096 }
    ensures { IfOk result (λ block. block
        ≡ block_written (block_in blocks.now) offset bytes.now number) }
{
    let start = offset.max(number * BLOCK);
    let end = (offset + bytes.len() as u64).min((number * BLOCK).saturating_add(BLOCK));
    let from = (start - offset) as usize;
    let to = (end - offset) as usize;
    let place = (start - number * BLOCK) as usize;
    if to - from == BLOCK as usize {
        return bytes.part(from, to);
    }
    with_part(alloc, blocks.get(number), place, bytes, from, to)
}

/// A block with a part of other bytes written at an offset. If that part is all of it, and the
/// other bytes aren't too many, it is shared.
fn with_part(
    alloc: Global,
    old: &[u8],
    place: usize,
    bytes: &ByteString,
    from: usize,
    to: usize,
) -> Result<ByteString, AllocError>
    requires part { (from ≤ to) × (to ≤ length bytes.now) }
    requires fits { place + (to - from) ≤ 4096 }
    ensures { IfOk result (λ block. block
        ≡ written old.now place (take (to - from) (drop from bytes.now))) }
{
    let n = to - from;
    if place == 0 && n >= old.len() && n * MOST_KEPT >= bytes.len() && bytes.len() <= MOST_SHARED {
        return bytes.part(from, to);
    }
    spliced(alloc, old, place, &bytes.as_slice()[from..to])
}

/// A copy of bytes with others written at an offset; a gap before them is zeros.
fn spliced(alloc: Global, old: &[u8], place: usize, bytes: &[u8]) -> Result<ByteString, AllocError>
    requires { place + length bytes.now ≤ 4096 }
    ensures { IfOk result (λ block. block ≡ written old.now place bytes.now) }
{
    let end = place + bytes.len();
    let mut block = Vec::with_capacity(alloc, end.max(old.len()))?;
    block.extend_from_slice(&old[..place.min(old.len())])?;
    block.resize(place, 0)?;
    block.extend_from_slice(bytes)?;
    block.extend_from_slice(&old[end.min(old.len())..])?;
    ByteString::from_vec(block)
}

/// Replaces blocks that share a write's bytes by their copies, so that the write's bytes are freed.
/// Adds a complete run. Allocates nothing.
fn settle(blocks: &mut Blocks, runs: &mut Runs, pending: &mut Pending, len: u64)
    requires held { IsHeld blocks.old pending.old.filled.from pending.old.filled.bytes }
    requires fits { pending.old.filled.from + length pending.old.filled.bytes / 4096 < 2 ^ 64 }
    ensures same { (k : ℕ) → block_in blocks.new k ≡ block_in blocks.old k }
    ensures kept { (k : ℕ) → HasPlace blocks.old k → HasPlace blocks.new k }
    ensures empty { pending.new.filled.bytes ≡ [] }
    ensures first { pending.new.first ≡ pending.old.first }
    ensures fresh { pending.new.fresh ≡ pending.old.fresh }
    ensures runs { (k : ℕ) (run : List ℕ) → run_in runs.new k ≡ Some run
        → (run_in runs.old k ≡ Some run)
        ⊎ IsRunOf pending.old.filled.from pending.old.filled.bytes len k run }
{
    if let Some((first, copies)) = pending.take() {
        share(blocks, first, &copies);
        let number = first / ROW;
        if first % ROW == 0 && copies.len() as u64 == RUN && number < len / RUN {
            runs.put(number, copies);
        }
    }
}

/// Replaces blocks by equal parts of a buffer.
fn share(blocks: &mut Blocks, first: u64, buffer: &ByteString)
    requires held { IsHeld blocks.old first buffer.now }
    requires fits { first + length buffer.now / 4096 < 2 ^ 64 }
    ensures same { (k : ℕ) → block_in blocks.new k ≡ block_in blocks.old k }
    ensures kept { (k : ℕ) → HasPlace blocks.old k → HasPlace blocks.new k }
{
    for i in 0..buffer.len() as u64 / BLOCK {
        let from = (i * BLOCK) as usize;
        if let Ok(part) = buffer.part(from, from + BLOCK as usize) {
            blocks.put(first + i, part);
        }
    }
}

/// A copy of `n` bytes from an offset on.
fn gather(
    alloc: Global,
    blocks: &Blocks,
    runs: &Runs,
    start: u64,
    n: usize,
) -> Result<Vec<u8>, AllocError>
    requires fits { start + n < 2 ^ 64 }
    requires runs { HasBytes runs.now (block_in blocks.now) }
    ensures { IfOk result (λ copy. copy.items ≡ bytes_from (block_in blocks.now) start n) }
{
    let mut copy = Vec::with_capacity(alloc, n)?;
    while copy.len() < n {
        let at = start + copy.len() as u64;
        let most = n - copy.len();
        append_from(&mut copy, blocks, runs, at, most)?;
    }
    Ok(copy)
}

/// Appends up to `most` bytes from an offset on: to the end of its run if that is in one buffer,
/// else to the end of its block.
fn append_from(
    copy: &mut Vec<u8>,
    blocks: &Blocks,
    runs: &Runs,
    at: u64,
    most: usize,
) -> Result<(), AllocError>
    requires some { 0 < most }
    requires fits { length copy.old.items + most < 2 ^ 64 }
    requires runs { HasBytes runs.now (block_in blocks.now) }
    ensures grows { OnOk result (length copy.old.items < length copy.new.items) }
    ensures most { OnOk result (length copy.new.items ≤ length copy.old.items + most) }
    ensures bytes { OnOk result (copy.new.items ≡ copy.old.items
        ++ bytes_from (block_in blocks.now) at (length copy.new.items - length copy.old.items)) }
{
    if let Some(run) = runs.get(at / RUN) {
        let n = ((RUN - at % RUN) as usize).min(most);
        return append(copy, run.as_slice(), (at % RUN) as usize, n);
    }
    let n = ((BLOCK - at % BLOCK) as usize).min(most);
    append(copy, blocks.get(at / BLOCK), (at % BLOCK) as usize, n)
}

/// Appends `n` bytes of a block or a run from an offset on; beyond its end they are zeros.
fn append(copy: &mut Vec<u8>, block: &[u8], place: usize, n: usize) -> Result<(), AllocError>
    requires { length copy.old.items + n < 2 ^ 64 }
    ensures { OnOk result (copy.new.items
        ≡ copy.old.items ++ resized (drop place block.now) n) }
{
    let end = copy.len() + n;
    let there = &block[place.min(block.len())..];
    copy.extend_from_slice(&there[..n.min(there.len())])?;
    copy.resize(end, 0)
}
