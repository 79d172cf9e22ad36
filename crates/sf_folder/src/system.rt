//! Open files and directories, by the system's calls.

ghost use Rattle.std.specs.Prelude.{◌≡◌, ◌≤◌, ◌<◌, ℕ, List, length, take, false, Option, IfOk, IfErr, IfSome, pos};
ghost use Rattle.sf_folder.specs.Contents.{AreBytesAt, AreZeros, IsZeroFrom};
ghost use Rattle.sf_folder.specs.Names.{ListsMore};

use crate::names::add_names;
use crate::stat::{Found, look_at, settled};
use libc::{AT_FDCWD, lseek, pread};
use os::FromRawFd;
use std::alloc::{AllocError, Global};
use std::fs;
use std::os::fd::{AsRawFd, OwnedFd, RawFd};

/// Why a directory or a file can't be read.
#[derive(Clone, Copy, Debug, PartialEq, Eq)]
pub enum ReadFault {
    OutOfMemory,
    /// With the system's error number.
    System(i32),
}

impl From<AllocError> for ReadFault {
    fn from(_error: AllocError) -> ReadFault {
        ReadFault::OutOfMemory
    }
}

/// What to seek in a file.
#[derive(Clone, Copy, Debug, PartialEq, Eq)]
pub enum Sought {
    Data,
    Hole,
}

/// The system's error if no data follows.
pub const ENXIO: i32 = 6;

/// An open file or directory.
pub trait Descriptor: Drop + Sized {
    /// The names that the directory still lists, without `.` and `..`, if they are known.
    ghost listing: { Self → Option (List (List ℕ)) };

    /// The bytes of the file, if they are known and don't change.
    ghost contents: { Self → Option (List ℕ) };

    /// The type and attributes of a name. A symbolic link isn't followed.
    fn find(&self, name: &[u8]) -> Result<Found, i32>;

    /// The type and attributes of what is open.
    fn found(&self) -> Result<Found, i32>
        ensures { IfOk result (λ found. IfSome (contents self.now)
            (λ bytes. found.size ≡ length bytes)) };

    /// Opens a directory by its name. A symbolic link isn't followed.
    fn open_directory(&self, name: &[u8]) -> Result<Self, i32>;

    /// Opens a file by its name, for reading.
    fn open_file(&self, name: &[u8]) -> Result<Self, i32>;

    /// Adds the next names. Returns false if there are none.
    fn list(&mut self, alloc: Global, names: &mut Vec<Vec<u8>>) -> Result<bool, ReadFault>
        ensures { IfOk result (λ more. ListsMore more (listing self.old) (listing self.new)
            names.old.items names.new.items) };

    /// Reads bytes at an offset. It returns 0 only at the end.
    fn read(&self, offset: u64, buffer: &mut [u8]) -> Result<usize, i32>
        ensures within { IfOk result (λ n. n ≤ length buffer.new) }
        ensures read { IfOk result (λ n. IfSome (contents self.now)
            (λ bytes. AreBytesAt bytes offset (take n buffer.new))) }
        ensures ended { IfOk result (λ n. IfSome (contents self.now)
            (λ bytes. n ≡ 0 → 0 < length buffer.new → length bytes ≤ offset)) };

    /// The offset of the next data or hole at or after an offset.
    fn seek(&self, offset: u64, what: Sought) -> Result<u64, i32>
        ensures data { IfOk result (λ place. IfSome (contents self.now)
            (λ bytes. what ≡ Sought.Data → AreZeros bytes offset place)) }
        ensures none { IfErr result (λ error. IfSome (contents self.now)
            (λ bytes. what ≡ Sought.Data → error ≡ pos 6 → IsZeroFrom bytes offset)) };
}

/// A descriptor of the system.
#[derive(Drop)]
pub(crate) struct SystemDescriptor<'a> {
    rt: &'a HostRuntime,
    file: OwnedFd,
}

/// The descriptor that a system call returned, or its error.
fn opened<'a>(rt: &'a HostRuntime, fd: i32) -> Result<SystemDescriptor<'a>, i32> {
    if fd < 0 {
        return Err(os::errno());
    }
    let file = unsafe { OwnedFd::from_raw_fd(fd) };
    Ok(SystemDescriptor { rt, file })
}

/// Opens the directory at a path. If the path is a symbolic link's, it is followed.
pub(crate) fn open_root<'a>(
    rt: &'a HostRuntime,
    path: &[u8],
) -> Result<SystemDescriptor<'a>, ReadFault> {
    if path.is_empty() {
        return Err(ReadFault::System(libc::ENOENT));
    }
    let mut inside = Vec::new(rt.alloc());
    inside.extend_from_slice(path)?;
    // With a slash appended a link is followed.
    inside.extend_from_slice(b"/")?;
    match opened(rt, os::open_dir_at(AT_FDCWD, &inside)) {
        Ok(directory) => Ok(directory),
        Err(error) => Err(ReadFault::System(error)),
    }
}

impl SystemDescriptor<'_> {
    fn fd(&self) -> RawFd {
        self.file.as_raw_fd()
    }

    /// The path of what is open, which reaches it wherever it is.
    fn own_path(&self) -> Result<String, AllocError> {
        let fd = self.fd();
        format!(in self.rt.alloc(); "/proc/self/fd/{fd}")
    }

    /// The path of a name in this directory.
    fn path_of(&self, name: &[u8]) -> Result<Vec<u8>, AllocError> {
        let mut path = self.own_path()?.into_bytes();
        path.extend_from_slice(b"/")?;
        path.extend_from_slice(name)?;
        Ok(path)
    }
}

impl<'a> Descriptor for SystemDescriptor<'a> {
    ghost use Rattle.std.specs.Prelude.{None};

    // What the system returns is not known.
    ghost listing = { λ _. None };

    ghost contents = { λ _. None };

    fn find(&self, name: &[u8]) -> Result<Found, i32> {
        match self.path_of(name) {
            Ok(path) => look_at(self.rt, &path),
            Err(_) => Err(libc::ENOMEM),
        }
    }

    fn found(&self) -> Result<Found, i32> {
        match self.own_path() {
            Ok(path) => settled(fs::metadata(self.rt, path.as_str())),
            Err(_) => Err(libc::ENOMEM),
        }
    }

    fn open_directory(&self, name: &[u8]) -> Result<SystemDescriptor<'a>, i32> {
        opened(self.rt, os::open_dir_at(self.fd(), name))
    }

    fn open_file(&self, name: &[u8]) -> Result<SystemDescriptor<'a>, i32> {
        match self.path_of(name) {
            Ok(path) => opened(self.rt, os::open_read(&path)),
            Err(_) => Err(libc::ENOMEM),
        }
    }

    fn list(&mut self, alloc: Global, names: &mut Vec<Vec<u8>>) -> Result<bool, ReadFault> {
        let mut buffer = [0u8; 8192];
        let count = os::read_dir(self.fd(), &mut buffer);
        let error = os::errno();
        if error != 0 {
            return Err(ReadFault::System(error));
        }
        if count == 0 {
            return Ok(false);
        }
        add_names(alloc, names, &buffer[..count])?;
        Ok(true)
    }

    fn read(&self, offset: u64, buffer: &mut [u8]) -> Result<usize, i32> {
        let Ok(offset) = i64::try_from(offset) else {
            return Ok(0);
        };
        let got = pread(self.fd(), buffer, offset);
        match usize::try_from(got) {
            Ok(got) => Ok(got),
            Err(_) => Err(os::errno()),
        }
    }

    fn seek(&self, offset: u64, what: Sought) -> Result<u64, i32> {
        let Ok(offset) = i64::try_from(offset) else {
            return Err(libc::EINVAL);
        };
        let place = lseek(self.fd(), offset, whence(what));
        match u64::try_from(place) {
            Ok(place) => Ok(place),
            Err(_) => Err(os::errno()),
        }
    }
}

/// The `whence` of Linux's `lseek`.
fn whence(what: Sought) -> i32 {
    match what {
        Sought::Data => 3,
        Sought::Hole => 4,
    }
}
