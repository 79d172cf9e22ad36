//! Errors that stop serving.

ghost use Rattle.std.specs.Prelude.{◌≡◌};
ghost use Rattle.sf_session.specs.declared.fault.ServeFault.TheVariants.{Line, OutOfMemory};

use sf_call::JoinFault;
use sf_line::LineFault;
use std::alloc::AllocError;
use thiserror::Error;

/// Why serving stopped before the session's end.
#[derive(Clone, Copy, Debug, PartialEq, Eq, Error)]
pub enum ServeFault {
    #[error("the line failed")]
    Line = 1,
    #[error("out of memory")]
    OutOfMemory = 2,
    #[error("too many sessions")]
    Sessions = 3,
    #[error("numbers are spent")]
    NumbersSpent = 4,
}

impl From<LineFault> for ServeFault {
    ghost from_gives = { λ _ fault. fault ≡ Line };

    fn from(_fault: LineFault) -> ServeFault {
        ServeFault::Line
    }
}

impl From<AllocError> for ServeFault {
    ghost from_gives = { λ _ fault. fault ≡ OutOfMemory };

    fn from(_error: AllocError) -> ServeFault {
        ServeFault::OutOfMemory
    }
}

impl From<JoinFault> for ServeFault {
    ghost use Rattle.sf_session.specs.Sessions.{join_refusal};

    ghost from_gives = { λ refusal fault. fault ≡ join_refusal refusal };

    fn from(refusal: JoinFault) -> ServeFault {
        match refusal {
            JoinFault::OutOfMemory => ServeFault::OutOfMemory,
            JoinFault::Sessions => ServeFault::Sessions,
            JoinFault::NumbersSpent => ServeFault::NumbersSpent,
        }
    }
}
