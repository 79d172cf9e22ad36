//! Errors of a core.

ghost use Rattle.std.specs.Prelude.{◌≡◌};
ghost use Rattle.sf_call.specs.declared.fault.BeginFault.TheVariants.{OutOfMemory};

use std::alloc::{AllocError, AllocFailed};
use thiserror::Error;

/// Why a session could not join.
#[derive(Clone, Copy, Debug, PartialEq, Eq, Error)]
pub enum JoinFault {
    #[error("out of memory")]
    OutOfMemory = 1,
    /// The limit of sessions is reached.
    #[error("too many sessions")]
    Sessions = 2,
    /// No session number is left.
    #[error("numbers spent")]
    NumbersSpent = 3,
}

/// Why a call could not begin.
#[derive(Clone, Copy, Debug, PartialEq, Eq, Error)]
pub enum BeginFault {
    #[error("out of memory")]
    OutOfMemory = 1,
    /// No call number is left.
    #[error("numbers spent")]
    NumbersSpent = 2,
}

impl From<AllocError> for BeginFault {
    ghost from_gives = { λ _ e. e ≡ OutOfMemory };

    fn from(_e: AllocError) -> BeginFault {
        BeginFault::OutOfMemory
    }
}

impl<T: Drop> From<AllocFailed<T>> for BeginFault {
    ghost from_gives = { λ _ e. e ≡ OutOfMemory };

    fn from(_e: AllocFailed<T>) -> BeginFault {
        BeginFault::from(AllocError)
    }
}
