//! Errors of building a tree.

use sf_reply::StatusCode;
use thiserror::Error;

/// Why a request failed. Requests that were done before it remain done.
#[derive(Clone, Copy, Debug, PartialEq, Eq, Error)]
pub enum TreeFault {
    #[error("out of memory")]
    OutOfMemory,
    #[error("too many sessions")]
    Sessions,
    #[error("numbers are spent")]
    NumbersSpent,
    /// Another session's call blocks this one.
    #[error("the call of another session is in the way")]
    Blocked,
    /// The server replied with this error status.
    #[error("status: {0:?}")]
    Status(StatusCode),
    /// The path is too long for a request.
    #[error("too long a path")]
    Path,
    /// There was no reply, or one of the wrong type.
    #[error("not the reply that was due")]
    Reply,
}

/// The failed request: its packet type, and the length in bytes of the prefix of the given path
/// that it was about.
#[derive(Clone, Copy, Debug, PartialEq, Eq)]
pub struct Place {
    pub kind: u32,
    pub length: usize,
}

/// The request that failed, and why.
#[derive(Clone, Copy, Debug, PartialEq, Eq)]
pub struct Refused {
    pub fault: TreeFault,
    pub place: Place,
}
