//! The bytes of a file, with no pending write.

ghost use Rattle.std.specs.Prelude.{◌≡◌, ◌+◌, ◌<◌, ◌^◌, ℕ, [], length, take, drop, replicate, IfOk, OnOk, OnErr};
ghost use Rattle.sf_block.specs.Contents.{resized, written};

use crate::contents::Contents;
use sf_field::ByteString;
use std::alloc::{AllocError, Global};
use std::marker::Model;

/// The bytes of a file. Each write is done in one call.
#[derive(Debug)]
pub struct WholeContents {
    contents: Contents,
}

impl Drop for WholeContents {
    // By hand, so that a proof sees one call instead of the parts.
    fn drop(self) {
        let Self {
            contents: _contents,
        } = self;
    }
}

impl Model for WholeContents {
    ghost use Rattle.std.specs.Prelude.{List, ℕ, ◌≡◌};

    ghost Value = { List ℕ };

    ghost view = { λ whole. whole.contents.bytes };

    ghost invariant = { λ whole. whole.contents.left ≡ 0 };
}

impl WholeContents {
    /// An empty file. Allocates nothing.
    pub fn new(alloc: Global) -> WholeContents
        ensures { result ≡ [] }
    {
        WholeContents {
            contents: Contents::new(alloc),
        }
    }

    /// A copy that shares the blocks.
    pub fn try_copy(&self, alloc: Global) -> Result<WholeContents, AllocError>
        ensures { IfOk result (λ copy. copy ≡ self.now) }
    {
        Ok(WholeContents {
            contents: self.contents.try_copy(alloc)?,
        })
    }

    /// The bytes of `contents`, with shared blocks. Blocks still to be copied count as copied.
    pub fn of(contents: &Contents, alloc: Global) -> Result<WholeContents, AllocError>
        ensures { IfOk result (λ whole. whole ≡ contents.now.bytes) }
    {
        let mut contents = contents.share(alloc)?;
        contents.copy_rest();
        Ok(WholeContents { contents })
    }

    /// The size in bytes.
    pub fn len(&self) -> u64
        ensures { result ≡ length self.now }
    {
        self.contents.len()
    }

    /// Returns up to `most` bytes from an offset on: none from the end on. Half a run or more is
    /// shared if the run is in one buffer. All else is copied, so that a few bytes keep no run
    /// alive.
    pub fn read(&self, alloc: Global, offset: u64, most: usize) -> Result<ByteString, AllocError>
        ensures { IfOk result (λ bytes. bytes ≡ take most (drop offset self.now)) }
    {
        self.contents.read(alloc, offset, most)
    }

    /// The number of zero bytes from an offset on that take no memory: up to the next 32 KiB run
    /// that was written to, or the end.
    pub fn gap(&self, offset: u64) -> u64
        ensures { take result (drop offset self.now) ≡ replicate result 0 }
    {
        self.contents.gap(offset)
    }

    /// Writes bytes at an offset, as POSIX's `pwrite` does; a gap before them is filled with zeros
    /// and takes no memory. Unlike `pwrite`, empty bytes also extend the file to the offset.
    pub fn write(
        &mut self,
        alloc: Global,
        offset: u64,
        bytes: &ByteString,
    ) -> Result<(), AllocError>
        requires { offset + length bytes.now < 2 ^ 64 }
        ensures ok { OnOk result (self.new ≡ written self.old offset bytes.now) }
        ensures err { OnErr result (self.new ≡ self.old) }
    {
        if bytes.is_empty() {
            self.move_end(offset);
            return Ok(());
        }
        self.contents.write(alloc, offset, bytes)
    }

    /// Extends the file to an offset, if it is shorter.
    fn move_end(&mut self, offset: u64)
        ensures { self.new ≡ written self.old offset [] }
    {
        if offset > self.contents.len() {
            self.contents.set_len(offset);
        }
    }

    /// Truncates the file to a size, or extends it with zeros, as POSIX's `ftruncate` does.
    /// Allocates nothing.
    pub fn set_len(&mut self, n: u64)
        ensures { self.new ≡ resized self.old n }
    {
        self.contents.set_len(n);
    }
}
