//! The entries of a directory.

ghost use Rattle.std.specs.Prelude.{◌≡◌, [], take, IsOk, IfOk, IfNone, OnOk, OnErr};
ghost use Rattle.std.specs.Option.{option_copied};
ghost use Rattle.std.specs.Map.{lookup, remove_entry};
ghost use Rattle.std.specs.BTreeMap.{insert_entry};
ghost use Rattle.sf_path.specs.Order.{same_name, name_cmp};
ghost use Rattle.sf_inode.specs.Nodes.{entries_past};
ghost use Rattle.sf_inode.specs.Leaves.{below};
ghost use Rattle.sf_call.specs.Tree.{is_nil};

use crate::NodeId;
use sf_path::{Name, Path};
use std::alloc::{AllocError, Global};
use std::collections::BTreeMap;
use std::marker::Model;
use std::ops::Bound;

/// The names of a directory with the slots of their inodes, in name order.
#[derive(Drop)]
pub(crate) struct Entries {
    nodes: BTreeMap<Name, NodeId>,
}

impl Model for Entries {
    ghost use Rattle.std.specs.Prelude.{List, ℕ};

    ghost Value = { List (List ℕ × ℕ) };

    ghost view = { λ entries. entries.nodes.entries };
}

impl Entries {
    /// No entries. Allocates nothing.
    pub(crate) fn new(alloc: Global) -> Entries
        ensures { result ≡ [] }
    {
        Entries {
            nodes: BTreeMap::new(alloc),
        }
    }

    /// Whether there is no entry.
    pub(crate) fn is_empty(&self) -> bool
        ensures { result ≡ is_nil self.now }
    {
        self.nodes.is_empty()
    }

    /// The inode of a name.
    pub(crate) fn find(&self, name: &Name) -> Option<NodeId>
        ensures { result ≡ lookup (same_name name.now) self.now }
    {
        self.nodes.get(name).copied()
    }

    /// Inserts or replaces an entry.
    pub(crate) fn insert(&mut self, name: Name, node: NodeId) -> Result<(), AllocError>
        ensures ok { OnOk result (self.new ≡ insert_entry name_cmp self.old name node) }
        ensures err { OnErr result (self.new ≡ self.old) }
    {
        self.nodes.insert(name, node)?;
        Ok(())
    }

    /// Removes a name and returns its inode. An empty directory uses no memory.
    #[tactic(auto, using(crate::proofs::Absent::absent_removed))]
    pub(crate) fn remove(&mut self, name: &Name) -> Option<NodeId>
        ensures node { result ≡ lookup (same_name name.now) self.old }
        ensures rest { self.new ≡ remove_entry (same_name name.now) self.old }
        ensures none { IfNone result (self.new ≡ self.old) }
    {
        let node = self.nodes.remove(name);
        if self.nodes.is_empty() {
            self.nodes.clear();
        }
        node
    }

    /// The entries of the directory at a path, as paths.
    pub(crate) fn below(
        &self,
        alloc: Global,
        path: &Path,
    ) -> Result<Vec<(Path, NodeId)>, AllocError>
        ensures { IfOk result (λ children. children.items ≡ below path.now self.now) }
    {
        let mut children = Vec::with_capacity(alloc, self.nodes.len())?;
        for (name, node) in &self.nodes {
            children.push((path.below(alloc, name)?, *node))?;
        }
        Ok(children)
    }

    /// The first entries after the last one that was listed, at most `most`. Allocates for these
    /// alone.
    pub(crate) fn first_past(
        &self,
        alloc: Global,
        last: Option<&Name>,
        most: usize,
    ) -> Result<Vec<(Name, NodeId)>, AllocError>
        ensures ok { IfOk result (λ found. found.items
            ≡ take most (entries_past (option_copied last.entry) self.now)) }
        ensures none_left { entries_past (option_copied last.entry) self.now ≡ [] → IsOk result }
    {
        let start = match last {
            None => Bound::Unbounded,
            Some(last) => Bound::Excluded(last),
        };
        let mut found = Vec::new(alloc);
        for (name, node) in self.nodes.range((start, Bound::Unbounded)).take(most) {
            found.push((name.try_copy(alloc)?, *node))?;
        }
        Ok(found)
    }
}
