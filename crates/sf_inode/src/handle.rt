//! The open handles of a session.

ghost use Rattle.std.specs.Prelude.{◌≡◌, ℕ, [], ◌∷◌, length, IfOk, OnOk, OnErr, IfSome, IfNone};
ghost use Rattle.std.specs.Option.{option_copied};
ghost use Rattle.std.specs.Ordering.{nat_cmp};
ghost use Rattle.std.specs.Map.{lookup, remove_entry};
ghost use Rattle.std.specs.BTreeMap.{is_at, insert_entry};

use crate::NodeId;
use sf_path::Name;
use std::alloc::{AllocError, Global};
use std::collections::BTreeMap;
use std::marker::Model;

/// The access mode of a handle.
#[derive(Clone, Copy, Debug, PartialEq, Eq)]
pub struct Marks {
    pub read: bool,
    pub write: bool,
    pub append: bool,
}

/// An open handle. `label` is its inode's number.
#[derive(Debug, Drop)]
pub struct OpenHandle {
    pub node: NodeId,
    pub label: u64,
    pub marks: Marks,
    /// The last name that READDIR returned, if any.
    pub listed: Option<Name>,
}

/// The handles of a session by number.
#[derive(Drop)]
pub(crate) struct SessionHandles {
    handles: BTreeMap<u64, OpenHandle>,
}

impl Model for SessionHandles {
    ghost use Rattle.std.specs.Prelude.{List, ℕ};
    ghost use Rattle.sf_inode.specs.declared.handle.OpenHandle.{OpenHandle};

    ghost Value = { List (ℕ × OpenHandle) };

    ghost view = { λ session. session.handles.entries };
}

ghost use Rattle.sf_inode.specs.Stores.{listed_of};

impl SessionHandles {
    /// A session with one handle.
    pub(crate) fn of_one(
        alloc: Global,
        number: u64,
        handle: OpenHandle,
    ) -> Result<SessionHandles, AllocError>
        ensures { IfOk result (λ session. session ≡ (number, handle) ∷ []) }
    {
        let mut handles = BTreeMap::new(alloc);
        handles.insert(number, handle)?;
        Ok(SessionHandles { handles })
    }

    /// Inserts a handle. On failure nothing changes.
    pub(crate) fn insert(&mut self, number: u64, handle: OpenHandle) -> Result<(), AllocError>
        ensures ok { OnOk result (self.new ≡ insert_entry nat_cmp self.old number handle) }
        ensures err { OnErr result (self.new ≡ self.old) }
    {
        self.handles.insert(number, handle)?;
        Ok(())
    }

    /// Removes a handle, if it is open.
    #[tactic(auto, using(crate::proofs::Absent::absent_removed))]
    pub(crate) fn remove(&mut self, number: u64) -> Option<OpenHandle>
        ensures value { result ≡ lookup (is_at (nat_cmp number)) self.old }
        ensures rest { self.new ≡ remove_entry (is_at (nat_cmp number)) self.old }
        ensures none { IfNone result (self.new ≡ self.old) }
    {
        self.handles.remove(&number)
    }

    /// The handle with this number.
    pub(crate) fn get(&self, number: u64) -> Option<&OpenHandle>
        ensures { option_copied result ≡ lookup (is_at (nat_cmp number)) self.now }
    {
        self.handles.get(&number)
    }

    /// Sets the last name that a handle's listing returned, if the handle is open.
    pub(crate) fn set_listed(&mut self, number: u64, name: Name)
        ensures { self.new ≡ listed_of number name self.old }
    {
        if let Some(handle) = self.handles.get_mut(&number) {
            handle.listed = Some(name);
        }
    }

    /// The number of handles.
    pub(crate) fn len(&self) -> usize
        ensures { result ≡ length self.now }
    {
        self.handles.len()
    }

    /// Removes the handle with the least number.
    pub(crate) fn pop_first(&mut self) -> Option<OpenHandle>
        ensures some { IfSome result (λ handle. (number : ℕ)
            × (self.old ≡ (number, handle) ∷ self.new)) }
        ensures none { IfNone result (self.old ≡ []) }
    {
        match self.handles.pop_first() {
            Some((_, handle)) => Some(handle),
            None => None,
        }
    }
}
