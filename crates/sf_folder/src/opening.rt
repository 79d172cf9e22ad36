//! Opens what a name in a directory reaches.

use crate::stat::{Found, Kind};
use crate::system::{Descriptor, ReadFault};

/// How often a name is opened if it is replaced meanwhile.
const TRIES: u32 = 16;

/// What was opened by a name.
#[derive(Drop)]
pub(crate) enum Opened<D: Descriptor> {
    Directory(D, Found),
    File(D, Found),
    /// Another type, which is not opened.
    Other(&'static str),
    /// Nothing, and why.
    Changed(&'static str),
}

/// What was opened decides. `None` if it is not what the name was before: a symbolic link may have
/// been followed.
fn opened_as<D: Descriptor>(open: D, before: Found) -> Result<Option<Opened<D>>, i32> {
    let found = open.found()?;
    if found.id != before.id {
        return Ok(None);
    }
    Ok(match found.kind {
        Kind::Directory => Some(Opened::Directory(open, found)),
        Kind::File => Some(Opened::File(open, found)),
        Kind::Other(_) => None,
    })
}

/// Opens a directory or file that was found by a name.
fn open_found<D: Descriptor>(
    directory: &D,
    name: &[u8],
    found: Found,
) -> Result<Option<Opened<D>>, i32> {
    match found.kind {
        Kind::Directory => opened_as(directory.open_directory(name)?, found),
        Kind::File => opened_as(directory.open_file(name)?, found),
        Kind::Other(kind) => Ok(Some(Opened::Other(kind))),
    }
}

/// Opens what a name reaches now, and tries again if the name is replaced meanwhile.
pub(crate) fn open_name<D: Descriptor>(directory: &D, name: &[u8]) -> Result<Opened<D>, ReadFault> {
    let mut last = None;
    for _ in 0..TRIES {
        let found = match directory.find(name) {
            Ok(found) => found,
            Err(libc::ENOENT) => return Ok(Opened::Changed("it was removed")),
            Err(error) => return Err(ReadFault::System(error)),
        };
        match open_found(directory, name, found) {
            Ok(Some(opened)) => return Ok(opened),
            Ok(None) => last = None,
            Err(libc::ENOENT) => last = Some(libc::ENOENT),
            Err(libc::ENOTDIR) => last = Some(libc::ENOTDIR),
            Err(libc::ELOOP) => last = Some(libc::ELOOP),
            Err(error) => return Err(ReadFault::System(error)),
        }
    }
    match last {
        None => Ok(Opened::Changed("it was replaced")),
        Some(error) => Err(ReadFault::System(error)),
    }
}
