//! Blocks by number.

ghost use Rattle.std.specs.Prelude.{◌≡◌, ◌≢◌, ◌<◌, ◌≤◌, ◌+◌, ◌*◌, ◌^◌, ℕ, nat_lt, [], length, if◌then◌else◌, take, slice_index_or, None, IsSome, IfOk, IfSome, IfNone, OnOk};
ghost use Rattle.sf_block.specs.Blocks.{entry_in, row_in, block_in, byte_in, HasPlace, Puts, PutsInRow};

use crate::copies::{TryCopy, copy_of};
use crate::row::Row;
use crate::spare::{LONGEST, allowance};
use crate::{BLOCK, ROW};
use sf_field::ByteString;
use std::alloc::{AllocError, Global};
use std::collections::BTreeMap;
use std::marker::Model;
use std::mem;

/// The blocks of a file, in rows of eight. A missing block is zeros.
#[derive(Debug, Drop)]
pub(crate) struct Blocks {
    /// The first row, with as many places as needed; a small file has no other.
    near: Row,
    /// The other rows by number.
    far: BTreeMap<u64, Row>,
    /// The free list: rows of a truncated file. Each new row frees one, in order. If memory is
    /// freed all at once, or from the last row on, the allocator returns it to the system, which
    /// clears it before reuse.
    shed: BTreeMap<u64, Row>,
}

impl Model for Blocks {
    ghost use Rattle.sf_block.specs.Blocks.{FileBlocks};

    ghost Value = { FileBlocks };

    ghost view = { λ blocks. record { near = blocks.near; far = blocks.far.entries } };
}

impl Blocks {
    /// No blocks. Allocates nothing.
    pub(crate) fn new(alloc: Global) -> Blocks
        ensures { result ≡ record { near = []; far = [] } }
    {
        Blocks {
            near: Row::new(alloc),
            far: BTreeMap::new(alloc),
            shed: BTreeMap::new(alloc),
        }
    }

    /// A copy that shares the bytes.
    pub(crate) fn try_copy(&self, alloc: Global) -> Result<Blocks, AllocError>
        ensures { IfOk result (λ copy. copy ≡ self.now) }
    {
        Ok(Blocks {
            near: self.near.try_copy(alloc)?,
            far: copy_of(alloc, &self.far)?,
            shed: BTreeMap::new(alloc),
        })
    }

    /// The bytes of a block; zeros at its end may be missing, and a missing block has none.
    pub(crate) fn get(&self, number: u64) -> &[u8]
        ensures { result.now ≡ block_in self.now number }
    {
        let i = (number % ROW) as usize;
        match number / ROW {
            0 => self.near.get(i),
            row => match self.far.get(&row) {
                Some(row) => row.get(i),
                None => &[],
            },
        }
    }

    /// Makes places for `count` blocks from a number on; a new place has no bytes.
    pub(crate) fn make_places(
        &mut self,
        alloc: Global,
        first: u64,
        count: usize,
    ) -> Result<(), AllocError>
        requires { first + count < 2 ^ 64 }
        ensures same { (k : ℕ) → block_in self.new k ≡ block_in self.old k }
        ensures there { OnOk result ((k : ℕ) → first ≤ k → k < first + count
            → HasPlace self.new k) }
    {
        let end = first + count as u64;
        for number in first / ROW..end.div_ceil(ROW) {
            self.make_row(alloc, number, (end - number * ROW).min(ROW) as usize)?;
        }
        Ok(())
    }

    /// Makes places for the first `count` blocks of a row.
    fn make_row(&mut self, alloc: Global, number: u64, count: usize) -> Result<(), AllocError>
        ensures same { (r j : ℕ) → slice_index_or (row_in self.new r) j []
            ≡ slice_index_or (row_in self.old r) j [] }
        ensures kept { (r : ℕ) → length (row_in self.old r) ≤ length (row_in self.new r) }
        ensures there { OnOk result (count ≤ length (row_in self.new number)) }
    {
        if number == 0 {
            return self.near.fill(count);
        }
        self.add_row(alloc, number)?;
        self.fill_row(number, count)
    }

    /// Inserts an empty row if it is missing.
    fn add_row(&mut self, alloc: Global, number: u64) -> Result<(), AllocError>
        requires { 0 < number }
        ensures same { (r : ℕ) → row_in self.new r ≡ row_in self.old r }
        ensures there { OnOk result (IsSome (entry_in self.new.far number)) }
    {
        if !self.far.contains_key(&number) {
            self.far.insert(number, Row::new(alloc))?;
            self.shed.pop_first();
        }
        Ok(())
    }

    /// Makes places for the first blocks of a row that exists.
    fn fill_row(&mut self, number: u64, count: usize) -> Result<(), AllocError>
        requires later { 0 < number }
        requires there { IsSome (entry_in self.old.far number) }
        ensures same { (r j : ℕ) → slice_index_or (row_in self.new r) j []
            ≡ slice_index_or (row_in self.old r) j [] }
        ensures kept { (r : ℕ) → length (row_in self.old r) ≤ length (row_in self.new r) }
        ensures there { OnOk result (count ≤ length (row_in self.new number)) }
    {
        match self.far.get_mut(&number) {
            Some(row) => row.fill(count),
            None => Ok(()),
        }
    }

    /// Puts a block in its place, which must exist.
    pub(crate) fn put(&mut self, number: u64, block: ByteString)
        requires { HasPlace self.old number }
        ensures { Puts self.old self.new number block }
    {
        let i = (number % ROW) as usize;
        match number / ROW {
            0 => self.near.put(i, block),
            row => {
                if let Some(row) = self.far.get_mut(&row) {
                    row.put(i, block);
                }
            }
        }
    }

    /// Zeros the bytes from an offset on. The removed rows are freed at once if memory
    /// is short.
    pub(crate) fn cut(&mut self, n: u64)
        ensures bytes { (i : ℕ) → byte_in (block_in self.new) i
            ≡ (if nat_lt i n then byte_in (block_in self.old) i else 0) }
        ensures less { (k : ℕ) → length (block_in self.new k) ≤ length (block_in self.old k) }
    {
        self.shed_from(n);
        if !self.shed.is_empty() && allowance(self.near.allocator(), LONGEST).is_none() {
            self.shed.clear();
        }
    }

    /// Zeros the bytes from an offset on. Removed rows go to the free list. Allocates nothing.
    fn shed_from(&mut self, n: u64)
        ensures bytes { (i : ℕ) → byte_in (block_in self.new) i
            ≡ (if nat_lt i n then byte_in (block_in self.old) i else 0) }
        ensures less { (k : ℕ) → length (block_in self.new k) ≤ length (block_in self.old k) }
    {
        if n == 0 && self.shed.is_empty() {
            self.near.clear();
            mem::swap(&mut self.far, &mut self.shed);
            return;
        }
        self.drop_from(n / BLOCK + 1);
        self.truncate(n / BLOCK, (n % BLOCK) as usize);
    }

    /// Truncates a block.
    fn truncate(&mut self, number: u64, n: usize)
        ensures { Puts self.old self.new number (take n (block_in self.old number)) }
    {
        let i = (number % ROW) as usize;
        match number / ROW {
            0 => self.near.truncate(i, n),
            row => {
                if let Some(row) = self.far.get_mut(&row) {
                    row.truncate(i, n);
                }
            }
        }
    }

    /// Removes the blocks from a number on.
    fn drop_from(&mut self, end: u64)
        ensures { (k : ℕ) → block_in self.new k
            ≡ (if nat_lt k end then block_in self.old k else []) }
    {
        self.drop_rows(end / ROW + 1);
        self.cut_row(end / ROW, (end % ROW) as usize);
    }

    /// Removes the blocks of a row from an index on.
    fn cut_row(&mut self, number: u64, i: usize)
        ensures at { (j : ℕ) → slice_index_or (row_in self.new number) j []
            ≡ (if nat_lt j i then slice_index_or (row_in self.old number) j [] else []) }
        ensures others { (r : ℕ) → r ≢ number → row_in self.new r ≡ row_in self.old r }
    {
        match number {
            0 => self.near.cut(i),
            _ => {
                if let Some(row) = self.far.get_mut(&number) {
                    row.cut(i);
                }
            }
        }
    }

    /// The greatest row number after the first row.
    fn last(&self) -> Option<u64>
        ensures there { IfSome result (λ number. IsSome (entry_in self.now.far number)) }
        ensures greatest { IfSome result (λ number. (r : ℕ) → number < r
            → entry_in self.now.far r ≡ None) }
        ensures none { IfNone result ((r : ℕ) → entry_in self.now.far r ≡ None) }
    {
        match self.far.last_key_value() {
            Some((number, _)) => Some(*number),
            None => None,
        }
    }

    /// The number of the first row, from a number on, that is not missing.
    pub(crate) fn next_row(&self, from: u64) -> Option<u64>
        ensures some { IfSome result (λ number. (k : ℕ) → from * 8 ≤ k → k < number * 8
            → block_in self.now k ≡ []) }
        ensures none { IfNone result ((k : ℕ) → from * 8 ≤ k → block_in self.now k ≡ []) }
    {
        if from == 0 && !self.near.is_empty() {
            return Some(0);
        }
        self.next_far(from)
    }

    /// The same, without the first row.
    fn next_far(&self, from: u64) -> Option<u64>
        ensures some { IfSome result (λ number. (r : ℕ) → from ≤ r → r < number
            → entry_in self.now.far r ≡ None) }
        ensures none { IfNone result ((r : ℕ) → from ≤ r → entry_in self.now.far r ≡ None) }
    {
        match self.far.range(from..).next() {
            Some((number, _)) => Some(*number),
            None => None,
        }
    }

    /// Removes the rows from a number on, but not the first.
    fn drop_rows(&mut self, end: u64)
        requires { 0 < end }
        ensures { (r : ℕ) → row_in self.new r
            ≡ (if nat_lt r end then row_in self.old r else []) }
    {
        while let Some(last) = self.last() {
            if last < end {
                return;
            }
            self.far.pop_last();
        }
    }
}
