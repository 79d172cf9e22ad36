//! The type and the attributes of files and directories.

use libc::{S_IFBLK, S_IFCHR, S_IFDIR, S_IFIFO, S_IFLNK, S_IFMT, S_IFREG, S_IFSOCK};
use sf_field::{Attrs, NO_ATTRS, Owner, Times};
use std::fs::{self, Metadata};
use std::io;
use std::os::unix::fs::MetadataExt;

/// The type of a file.
#[derive(Clone, Copy, Debug, PartialEq, Eq)]
pub enum Kind {
    File,
    Directory,
    /// Another type, by its name.
    Other(&'static str),
}

/// The device of a file, and its number there.
#[derive(Clone, Copy, Debug, PartialEq, Eq)]
pub struct FileId {
    device: u64,
    inode: u64,
}

/// The type, size and attributes of a file or directory. A directory's attributes have no size.
#[derive(Clone, Copy, Debug)]
pub struct Found {
    pub kind: Kind,
    pub size: u64,
    pub attrs: Attrs,
    pub id: FileId,
    /// When it was written: seconds and nanoseconds.
    pub written: (i64, i64),
}

impl Found {
    /// How a file with this description has changed.
    pub fn change_to(&self, now: &Found) -> Option<&'static str> {
        if now.size < self.size {
            Some("it shrank")
        } else if now.size > self.size {
            Some("it grew")
        } else if now.written != self.written {
            Some("it was written")
        } else {
            None
        }
    }
}

const LINK: &str = "symbolic link";

fn kind_of(mode: u32) -> Kind {
    let kind = mode & S_IFMT;
    if kind == S_IFREG {
        Kind::File
    } else if kind == S_IFDIR {
        Kind::Directory
    } else {
        Kind::Other(other_kind(kind))
    }
}

fn other_kind(kind: u32) -> &'static str {
    if kind == S_IFLNK {
        LINK
    } else if kind == S_IFIFO {
        "FIFO"
    } else if kind == S_IFSOCK {
        "socket"
    } else if kind == S_IFCHR || kind == S_IFBLK {
        "device"
    } else {
        "unknown kind"
    }
}

/// Whole seconds since 1970, from 0 to 2^32 - 1.
fn seconds(time: i64) -> u32 {
    match u64::try_from(time) {
        Ok(seconds) => u32::try_from(seconds).unwrap_or(u32::MAX),
        Err(_) => 0,
    }
}

fn found_of(found: &Metadata) -> Found {
    let kind = kind_of(found.mode());
    let size = match kind {
        Kind::File => Some(found.size()),
        _ => None,
    };
    let owner = Owner {
        uid: found.uid(),
        gid: found.gid(),
    };
    let times = Times {
        atime: seconds(found.atime()),
        mtime: seconds(found.mtime()),
    };
    Found {
        kind,
        size: found.size(),
        attrs: Attrs {
            size,
            owner: Some(owner),
            permissions: Some(found.mode() & 0o7777),
            times: Some(times),
        },
        id: FileId {
            device: found.dev(),
            inode: found.ino(),
        },
        written: (found.mtime(), found.mtime_nsec()),
    }
}

/// The result of `stat`, or the system's error number.
pub(crate) fn settled(found: io::Result<Metadata>) -> Result<Found, i32> {
    match found {
        Ok(found) => Ok(found_of(&found)),
        Err(error) => Err(error.raw_os_error().unwrap_or(libc::EIO)),
    }
}

/// The type and attributes of an absolute path. A symbolic link at its end isn't followed.
pub(crate) fn look_at(rt: &HostRuntime, path: &[u8]) -> Result<Found, i32> {
    match str::from_utf8(path) {
        Ok(text) => settled(fs::symlink_metadata(rt, text)),
        Err(_) => look_by_link(rt, path),
    }
}

/// As `look_at`, for a path that isn't UTF-8, which `std::fs` doesn't accept. It uses a temporary
/// symbolic link in `/tmp`.
fn look_by_link(rt: &HostRuntime, path: &[u8]) -> Result<Found, i32> {
    let mut target = [0u8; 1];
    if os::readlink(path, &mut target) >= 0 {
        return Ok(link());
    }
    let mut name = *b"/tmp/sftpd.XXXXXX";
    let reserved = os::create_temp(&mut name);
    if reserved < 0 {
        return Err(os::errno());
    }
    // The file only reserves the name.
    libc::close(reserved);
    if os::unlink(&name) < 0 || os::symlink(path, &name) < 0 {
        return Err(os::errno());
    }
    let found = match str::from_utf8(&name) {
        Ok(text) => settled(fs::metadata(rt, text)),
        Err(_) => Err(libc::EIO),
    };
    let _ = os::unlink(&name);
    found
}

/// A symbolic link, of which no more is asked.
fn link() -> Found {
    Found {
        kind: Kind::Other(LINK),
        size: 0,
        attrs: NO_ATTRS,
        id: FileId {
            device: 0,
            inode: 0,
        },
        written: (0, 0),
    }
}
