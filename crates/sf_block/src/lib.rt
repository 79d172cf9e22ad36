//! The bytes of a file, in memory.
//!
//! Start with `WholeContents`, which contracts see as a list of bytes. `specs/Contents.antt`
//! defines a resize (`resized`) and a write (`written`), as POSIX's `ftruncate` and `pwrite` do.
//! `Contents` stores numbered blocks of 4096 bytes in rows of eight (`specs/Blocks.antt`). A
//! missing block is zeros, so a gap takes no memory. A write first allocates all memory that it
//! needs, or fails with no change. Then its blocks are copied one by one without allocation. So the
//! contracts of `Contents` also count the blocks that are still to be copied.
#![tactic(auto)]

mod block_laws;
mod blocks;
mod contents;
mod copies;
mod filling;
mod pending;
mod queue;
mod row;
mod runs;
mod spare;
mod whole;

pub use block_laws::{copied_whole, few_blocks};
pub use contents::Contents;
pub use spare::allowance;
pub use whole::WholeContents;

/// Bytes of a whole block.
const BLOCK: u64 = 4096;

/// Blocks of a row, and of a run.
const ROW: u64 = 8;

/// Bytes of a run: the size of a client's usual READ and WRITE.
const RUN: u64 = 32768;

/// A truncated block with fewer bytes is copied into a buffer of its own.
const LEAST_SHARED: usize = 2048;

/// A block keeps at most this multiple of its size alive in a shared buffer.
const MOST_KEPT: usize = 16;

/// Writes up to this size are shared by their blocks; larger ones are copied, since a block would
/// keep them alive.
const MOST_SHARED: usize = 32768;
