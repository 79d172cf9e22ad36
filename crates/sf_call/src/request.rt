//! Requests on the tree.

ghost use Rattle.std.specs.Prelude.{◌≡◌, IfOk};

use sf_field::{ByteString, HandleOp, PairOp, PathOp};
use sf_path::Path;
use std::alloc::AllocError;

/// A decoded request on the tree (draft-ietf-secsh-filexfer-02, section 6). LSTAT is STAT, as the
/// tree has no symbolic links. A handle is the number of the call that opened it.
#[derive(Debug, PartialEq, Eq, Drop)]
pub enum Request {
    OnPath(PathOp, Path),
    /// The old path, then the new one.
    OnPaths(PairOp, Path, Path),
    ByHandle(HandleOp, u64),
    Write {
        handle: u64,
        offset: u64,
        data: ByteString,
    },
}

impl Request {
    /// A copy that shares the paths and the bytes of a WRITE, so it allocates nothing. It fails
    /// only if one of them already has 2^63 owners.
    pub fn share(&self) -> Result<Request, AllocError>
        ensures { IfOk result (λ copy. copy ≡ self.now) }
    {
        Ok(match self {
            Request::OnPath(op, path) => Request::OnPath(*op, path.share()?),
            Request::OnPaths(op, old, new) => Request::OnPaths(*op, old.share()?, new.share()?),
            Request::ByHandle(op, handle) => Request::ByHandle(*op, *handle),
            Request::Write {
                handle,
                offset,
                data,
            } => Request::Write {
                handle: *handle,
                offset: *offset,
                data: data.share()?,
            },
        })
    }
}
