//! What requests do (draft-ietf-secsh-filexfer-02, section 6), by what they do it to.

use crate::attrs::Attrs;
use crate::open_flags::OpenFlags;

/// What a request does to one path.
#[derive(Clone, Copy, Debug, PartialEq, Eq)]
pub enum PathOp {
    Stat,
    SetStat(Attrs),
    Mkdir(Attrs),
    Rmdir,
    Remove,
    OpenDir,
    Open(OpenFlags, Attrs),
}

/// What a request does to an old and a new path.
#[derive(Clone, Copy, Debug, PartialEq, Eq)]
pub enum PairOp {
    Rename,
    /// OpenSSH's extension `posix-rename@openssh.com`: it replaces the object at the new path.
    PosixRename,
    /// OpenSSH's extension `hardlink@openssh.com`: the new path names the old one's file.
    Link,
}

/// What a request does by a handle. WRITE, which carries data, is not among them.
#[derive(Clone, Copy, Debug, PartialEq, Eq)]
pub enum HandleOp {
    Close,
    FStat,
    FSetStat(Attrs),
    /// Up to `len` bytes from `offset` on.
    Read { offset: u64, len: u32 },
    ReadDir,
}
