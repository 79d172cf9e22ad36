//! Whether memory is left.

ghost use Rattle.std.specs.Prelude.{◌<◌};

use std::alloc::{AllocError, Global};

/// Bytes of a block that is always mapped by itself. Its end changes no threshold of malloc.
const AMPLE: usize = 33 << 20;

/// Bytes that are left otherwise: those of a few large packets.
const LEFT: usize = 1 << 21;

/// Bytes of a piece of them: fewer than what is mapped.
const PIECE: usize = 96 << 10;

/// Bytes of the longest packet.
pub(crate) const LONGEST: usize = 1 << 18;

/// How many bytes calls may take before memory is checked again, so that it is left for packets
/// like one with `size` bytes of data. `None` if too little is left. It may lie in pieces, each for
/// a few packets. No clause says this, since no clause sees the allocator.
pub fn allowance(alloc: Global, size: usize) -> Option<usize> {
    if spare(alloc, AMPLE).is_ok() {
        return Some(AMPLE / 2);
    }
    let piece = if size <= 1 << 15 {
        PIECE
    } else {
        size.saturating_mul(4).clamp(PIECE, LEFT)
    };
    spare_pieces(alloc, piece).ok()?;
    Some(LEFT / 8)
}

/// Memory, which the caller frees at once.
#[inline(never)]
fn spare(alloc: Global, len: usize) -> Result<Vec<u8>, AllocError> {
    Vec::with_capacity(alloc, len)
}

fn spare_pieces(alloc: Global, piece: usize) -> Result<(), AllocError>
    requires { 0 < piece }
{
    let mut pieces = Vec::new(alloc);
    for _ in 0..LEFT / piece {
        pieces.push(spare(alloc, piece)?)?;
    }
    Ok(())
}
