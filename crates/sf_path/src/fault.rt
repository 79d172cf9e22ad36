//! Errors of path parsing.

ghost use Rattle.std.specs.Prelude.{◌≡◌};
ghost use Rattle.sf_path.specs.declared.fault.PathFault.TheVariants.{OutOfMemory};

use std::alloc::AllocError;
use thiserror::Error;

/// Why a text is not a path. If several of the first three errors apply, the lowest is returned,
/// before any allocation.
#[derive(Clone, Copy, Debug, PartialEq, Eq, Error)]
pub enum PathFault {
    #[error("path above 4096 bytes")]
    TooLong = 1,
    #[error("name above 255 bytes")]
    NameTooLong = 2,
    #[error("byte 0 in a path")]
    NulByte = 3,
    #[error("out of memory")]
    OutOfMemory = 4,
}

impl From<AllocError> for PathFault {
    ghost from_gives = { λ _ e. e ≡ OutOfMemory };

    fn from(_e: AllocError) -> PathFault {
        PathFault::OutOfMemory
    }
}
