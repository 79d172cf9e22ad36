//! The memory that calls leave to sessions. A session ends if it finds no memory for a packet, so
//! calls must run out of memory first.

use sf_block::allowance;
use sf_call::Request;
use sf_field::{PairOp, PathOp};
use std::alloc::Global;

/// Bytes that calls may take before the first check.
const FIRST: usize = 1 << 18;

/// Bytes of a block, of which a WRITE may fill a few bytes only.
const BLOCK: usize = 1 << 12;

/// Bytes of a new name, with its inode and its call's record.
const NAME: usize = 1 << 10;

/// The bytes that calls may take before the next check.
#[derive(Drop)]
pub(crate) struct Room {
    unchecked: usize,
}

impl Room {
    pub(crate) fn new() -> Room {
        Room { unchecked: FIRST }
    }

    /// Whether a call may begin: it takes no memory for good, or enough is left.
    pub(crate) fn allows(&mut self, alloc: Global, request: &Request) -> bool {
        let size = bytes_of(request);
        if size <= self.unchecked {
            self.unchecked -= size;
            return true;
        }
        match allowance(alloc, size) {
            Some(bytes) => {
                self.unchecked = bytes;
                true
            }
            None => {
                self.unchecked = 0;
                false
            }
        }
    }
}

/// The bytes that a call may take for good.
fn bytes_of(request: &Request) -> usize {
    match request {
        Request::OnPath(PathOp::Open(flags, _), _) if flags.create => NAME,
        Request::OnPath(PathOp::Mkdir(_), _) | Request::OnPaths(PairOp::Link, _, _) => NAME,
        Request::Write { data, .. } => data.len().saturating_add(NAME + BLOCK),
        _ => 0,
    }
}
