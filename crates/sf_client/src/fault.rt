//! Errors of a client.

use sf_reply::StatusCode;
use thiserror::Error;

/// Why a call failed. After `Stream` and `Protocol` the client has failed; otherwise it remains
/// usable.
#[derive(Clone, Copy, Debug, PartialEq, Eq, Error)]
pub enum ClientFault {
    /// The transport failed.
    #[error("the line failed")]
    Stream,
    /// The input was not the expected reply: no packet (also at the end of the input), no valid
    /// reply, another id or kind of reply, or a version other than 3.
    #[error("not the reply that was due")]
    Protocol,
    /// The server replied with this error status.
    #[error("refused: {0:?}")]
    Status(StatusCode),
    #[error("out of memory")]
    OutOfMemory,
    /// The file to get has this size in bytes, which exceeds the limit of 2^30.
    #[error("a file of {0} bytes is too large to get")]
    TooLarge(u64),
    /// An earlier call failed with `Stream` or `Protocol`.
    #[error("the client has failed before")]
    Failed,
}
