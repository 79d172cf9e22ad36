//! Rows of blocks.

ghost use Rattle.std.specs.Prelude.{◌≡◌, ◌<◌, ◌≤◌, ◌↔◌, ℕ, nat_lt, [], length, if◌then◌else◌, take, slice_index_or, IsTrue, IfOk, OnOk};
ghost use Rattle.sf_block.specs.Blocks.{PutsInRow};

use crate::LEAST_SHARED;
use crate::copies::TryCopy;
use sf_field::ByteString;
use std::alloc::{AllocError, Global};
use std::marker::Model;

/// Up to eight blocks; a missing one is zeros.
#[derive(Debug, Drop)]
pub(crate) struct Row {
    list: Vec<ByteString>,
}

impl Model for Row {
    ghost use Rattle.std.specs.Prelude.{ℕ, List};

    ghost Value = { List (List ℕ) };

    ghost view = { λ row. row.list.items };
}

impl Row {
    /// No blocks. Allocates nothing.
    pub(crate) fn new(alloc: Global) -> Row
        ensures { result ≡ [] }
    {
        Row {
            list: Vec::new(alloc),
        }
    }

    /// The allocator of its list.
    pub(crate) fn allocator(&self) -> Global {
        *self.list.allocator()
    }

    /// Whether the row has no place.
    pub(crate) fn is_empty(&self) -> bool
        ensures { IsTrue result ↔ (self.now ≡ []) }
    {
        self.list.is_empty()
    }

    /// The bytes of a block; zeros at its end may be missing, and a missing block has none.
    pub(crate) fn get(&self, i: usize) -> &[u8]
        ensures { result.now ≡ slice_index_or self.now i [] }
    {
        match self.list.get(i) {
            Some(block) => block.as_slice(),
            None => &[],
        }
    }

    /// Makes places for `count` blocks; a new place has no bytes. The first allocation is exact.
    pub(crate) fn fill(&mut self, count: usize) -> Result<(), AllocError>
        ensures same { (j : ℕ) → slice_index_or self.new j [] ≡ slice_index_or self.old j [] }
        ensures kept { length self.old ≤ length self.new }
        ensures there { OnOk result (count ≤ length self.new) }
    {
        if self.list.is_empty() {
            self.list = Vec::with_capacity(*self.list.allocator(), count)?;
        }
        while self.list.len() < count {
            self.list.push(ByteString::new())?;
        }
        Ok(())
    }

    /// Puts a block in its place, if that exists.
    pub(crate) fn put(&mut self, i: usize, block: ByteString)
        ensures { i < length self.old → PutsInRow self.old self.new i block }
    {
        if let Some(place) = self.list.get_mut(i) {
            *place = block;
        }
    }

    /// Truncates a block. If few bytes are left, they are copied if memory allows, so that they
    /// keep no large buffer alive.
    pub(crate) fn truncate(&mut self, i: usize, n: usize)
        ensures { PutsInRow self.old self.new i (take n (slice_index_or self.old i [])) }
    {
        let alloc = *self.list.allocator();
        if let Some(block) = self.list.get_mut(i) {
            block.truncate(n);
            separate(alloc, block);
        }
    }

    /// Removes the blocks from an index on.
    pub(crate) fn cut(&mut self, i: usize)
        ensures { (j : ℕ) → slice_index_or self.new j []
            ≡ (if nat_lt j i then slice_index_or self.old j [] else []) }
    {
        self.list.truncate(i);
    }

    /// Removes all blocks and frees their memory.
    pub(crate) fn clear(&mut self)
        ensures { self.new ≡ [] }
    {
        self.list = Vec::new(*self.list.allocator());
    }
}

/// Copies bytes that are too few to share, if memory allows.
fn separate(alloc: Global, block: &mut ByteString)
    ensures { block.new ≡ block.old }
{
    if block.len() < LEAST_SHARED {
        if let Ok(copy) = ByteString::from_slice(alloc, block.as_slice()) {
            *block = copy;
        }
    }
}

impl TryCopy for Row {
    fn try_copy(&self, alloc: Global) -> Result<Row, AllocError> {
        let mut list = Vec::with_capacity(alloc, self.list.len())?;
        for block in &self.list {
            let share = block.share()?;
            list.push(share)?;
        }
        Ok(Row { list })
    }
}
