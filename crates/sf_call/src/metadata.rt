//! The attributes of a directory or a file, apart from its size.

ghost use Rattle.std.specs.Prelude.{◌≡◌};
ghost use Rattle.sf_call.specs.Attributes.{new_metadata, modified_at, new_id, new_owner, with_parts, sent, type_bits};

use sf_field::{Attrs, Owner, Times};

/// The stored attributes of a directory or a file. Only the low twelve bits of the permissions
/// count.
#[derive(Clone, Copy, Debug, PartialEq, Eq)]
pub struct Metadata {
    pub owner: Owner,
    pub permissions: u32,
    pub times: Times,
}

#[derive(Clone, Copy, Debug, PartialEq, Eq)]
/// The type of a file, as in `st_mode` (POSIX).
pub enum FileType {
    Directory,
    File,
}

impl FileType {
    /// The file type bits of `st_mode` (POSIX).
    pub fn bits(self) -> u32
        ensures { result ≡ type_bits self }
    {
        match self {
            FileType::Directory => 0o040000,
            FileType::File => 0o100000,
        }
    }
}

impl Metadata {
    /// The attributes of an object created at a timestamp, in seconds since 1970. The defaults are
    /// user 0, group 0, `permissions`, and the timestamp as both times. Given `attrs` replace them;
    /// a size is ignored.
    pub fn new_object(permissions: u32, moment: u32, attrs: &Attrs) -> Metadata
        ensures { result ≡ new_metadata permissions moment attrs.now }
    {
        let made = Metadata {
            owner: Owner { uid: 0, gid: 0 },
            permissions,
            times: Times {
                atime: moment,
                mtime: moment,
            },
        };
        made.with_parts(attrs)
    }

    /// Replaces the attributes that `attrs` gives; a size is ignored, and so is a user or a group
    /// of 4294967295.
    pub fn with_parts(self, attrs: &Attrs) -> Metadata
        ensures { result ≡ with_parts self attrs.now }
    {
        Metadata {
            owner: match attrs.owner {
                Some(given) => new_owner(given, self.owner),
                None => self.owner,
            },
            permissions: attrs
                .permissions
                .map_or(self.permissions, |bits| bits % 0o10000),
            times: attrs.times.unwrap_or(self.times),
        }
    }

    /// Sets the modification time, in seconds since 1970.
    pub fn modified_at(self, moment: u32) -> Metadata
        ensures { result ≡ modified_at moment self }
    {
        let times = Times {
            mtime: moment,
            ..self.times
        };
        Metadata { times, ..self }
    }

    /// The attributes as sent: all four fields (draft-ietf-secsh-filexfer-02, section 5).
    pub fn sent(self, file_type: FileType, size: u64) -> Attrs
        ensures { result ≡ sent file_type size self }
    {
        Attrs {
            size: Some(size),
            owner: Some(self.owner),
            permissions: Some(file_type.bits() + self.permissions % 0o10000),
            times: Some(self.times),
        }
    }
}

/// The owner after `given` was set: a user or a group of 4294967295 leaves that one as it is, as in
/// POSIX's `chown`.
fn new_owner(given: Owner, stored: Owner) -> Owner
    ensures { result ≡ new_owner given stored }
{
    Owner {
        uid: new_id(given.uid, stored.uid),
        gid: new_id(given.gid, stored.gid),
    }
}

fn new_id(given: u32, stored: u32) -> u32
    ensures { result ≡ new_id given stored }
{
    if given == u32::MAX { stored } else { given }
}
