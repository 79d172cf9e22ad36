//! Open file handles.

ghost use Rattle.std.specs.Prelude.{◌≡◌, IfOk};

use sf_path::Name;
use std::alloc::{AllocError, Global};

/// An open file handle: its session, the inode number (`label`) of its object, and its access mode.
#[derive(Debug, Drop)]
pub struct Handle {
    pub session: u64,
    pub label: u64,
    pub read: bool,
    pub write: bool,
    pub append: bool,
    /// The last name that READDIR returned, if any.
    pub listed: Option<Name>,
}

impl Handle {
    /// Copies the handle; allocates for `listed` alone.
    pub fn try_copy(&self, alloc: Global) -> Result<Handle, AllocError>
        ensures { IfOk result (λ copy. copy ≡ self.now) }
    {
        let listed = match &self.listed {
            None => None,
            Some(name) => Some(name.try_copy(alloc)?),
        };
        Ok(Handle {
            session: self.session,
            label: self.label,
            read: self.read,
            write: self.write,
            append: self.append,
            listed,
        })
    }
}
