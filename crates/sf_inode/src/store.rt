//! The store of inodes and open handles.

ghost use Rattle.std.specs.Prelude.{◌≡◌, ◌≤◌, ℕ, ◌+◌, ◌-◌, ◌<◌, ◌^◌, [], true, false, length, take, Some, None, IfSome, IfNone, IsOk, IfOk, OnOk, OnErr, is_some, option_map};
ghost use Rattle.std.specs.Option.{option_map_or};
ghost use Rattle.std.specs.declared.alloc.Global.{Global};
ghost use Rattle.sf_call.specs.Attributes.{attrs_of, with_parts, modified_at};
ghost use Rattle.sf_inode.specs.Nodes.{new_node, object_in, with_metadata, with_holder, entries_past};
ghost use Rattle.sf_inode.specs.Stores.{IsFirst, Inserted, with_nodes, node_in, child_of, holder_of, looked_up, edited, entry_taken, entry_put, released, forgotten, after_close, unlinked, link_count_at, linked, relinked, bytes_of, is_file_at, file_size, is_directory_at, is_bare_at, blocks_left_at, file_set, bytes_set, left_set, after_open, handle_put, open_handle_at, handles_of, handle_dropped, handle_listed, node_entries, closed, each_let_go, closed_all, new_entry};
ghost use Rattle.std.specs.Option.{option_copied};
ghost use Rattle.sf_block.specs.Contents.{resized, written, writing};

use crate::NodeId;
use crate::entries::Entries;
use crate::handle::{Marks, OpenHandle, SessionHandles};
use crate::node::{Content, NewNode, Node};
use sf_block::Contents;
use sf_call::Metadata;
use sf_field::{Attrs, ByteString, Owner, Times};
use sf_path::Name;
use slab::Slab;
use std::alloc::{AllocError, Global};
use std::collections::BTreeMap;
use std::marker::Model;

mod leaves;

/// A store with fewer slots is not shrunk.
const MANY: usize = 64;

/// All inodes, and the open handles of all sessions.
#[derive(Drop)]
pub struct Store {
    alloc: Global,
    nodes: Slab<Node>,
    root: NodeId,
    sessions: BTreeMap<u64, SessionHandles>,
    look_ups: u64,
    /// The calls of `trim` since slots were last freed.
    trims: usize,
}

impl Model for Store {
    ghost use Rattle.sf_inode.specs.Stores.{StoreState};

    ghost Value = { StoreState };

    ghost view = { λ store. record {
      nodes = store.nodes.slots;
      root = store.root;
      sessions = store.sessions.entries;
      look_ups = store.look_ups;
    } };
}

impl Store {
    /// A store with an empty root directory.
    pub fn new(alloc: Global) -> Result<Store, AllocError>
        ensures { IfOk result (λ store. IsFirst store) }
    {
        let metadata = Metadata {
            owner: Owner { uid: 0, gid: 0 },
            permissions: 0o755,
            times: Times { atime: 0, mtime: 0 },
        };
        let mut nodes = Slab::new(alloc);
        nodes.reserve(1)?;
        let root = nodes.insert_reserved(Node {
            label: 0,
            metadata,
            content: Content::Directory(Entries::new(alloc)),
            holder: None,
            names: 1,
            opens: 0,
        });
        Ok(Store {
            alloc,
            nodes,
            root,
            sessions: BTreeMap::new(alloc),
            look_ups: 0,
            trims: 0,
        })
    }

    /// The allocator of the store; there is one `Global`.
    pub fn alloc(&self) -> Global
        ensures { (any : Global) → result ≡ any }
    {
        self.alloc
    }

    /// Frees unused slots if few of many are used. It shrinks at most once per n / 16 calls, for n
    /// slots, so a call after each change is cheap. Inodes keep their slots, so slots up to the
    /// last used one stay.
    pub fn trim(&mut self)
        ensures nodes { (id : ℕ) → node_in self.new.nodes id ≡ node_in self.old.nodes id }
        ensures rest { self.new ≡ with_nodes self.old self.new.nodes }
    {
        self.trims = self.trims.saturating_add(1);
        let room = self.nodes.capacity();
        if room < MANY || self.nodes.len() > room / 4 || self.trims < room / 16 {
            return;
        }
        self.nodes.shrink_to_fit();
        if self.nodes.capacity() < room {
            self.trims = 0;
        }
    }

    /// The slot of the root, which never changes.
    pub fn root(&self) -> NodeId
        ensures { result ≡ self.now.root }
    {
        self.root
    }

    /// The number of lookups, up to 2^64 - 1.
    pub fn look_ups(&self) -> u64
        ensures { result ≡ self.now.look_ups }
    {
        self.look_ups
    }

    /// Looks up a name in a directory. Counts as one lookup.
    pub fn find(&mut self, dir: NodeId, name: &Name) -> Option<NodeId>
        ensures found { result ≡ child_of self.old.nodes dir name.now }
        ensures counted { self.new ≡ looked_up self.old }
    {
        self.look_ups = self.look_ups.saturating_add(1);
        self.entry(dir, name)
    }

    fn entry(&self, dir: NodeId, name: &Name) -> Option<NodeId>
        ensures { result ≡ child_of self.now.nodes dir name.now }
    {
        match self.nodes.get(dir) {
            Some(node) => node.entry(name),
            None => None,
        }
    }

    /// The attributes of an inode as sent.
    pub fn attrs(&self, node: NodeId) -> Option<Attrs>
        ensures { result
            ≡ option_map (λ it. attrs_of (object_in it.metadata it.content))
            (node_in self.now.nodes node) }
    {
        match self.nodes.get(node) {
            Some(it) => Some(it.attrs()),
            None => None,
        }
    }

    /// Whether an inode exists and is a directory.
    pub fn is_directory(&self, node: NodeId) -> bool
        ensures { result ≡ is_directory_at self.now.nodes node }
    {
        match self.nodes.get(node) {
            Some(it) => it.is_directory(),
            None => false,
        }
    }

    /// Whether an inode exists and has no entries; a file has none.
    pub fn is_empty(&self, node: NodeId) -> bool
        ensures { result ≡ is_bare_at self.now.nodes node }
    {
        match self.nodes.get(node) {
            Some(it) => it.is_bare(),
            None => false,
        }
    }

    /// The number of the call that holds an inode, if any.
    pub fn holder(&self, node: NodeId) -> Option<u64>
        ensures { result ≡ holder_of self.now.nodes node }
    {
        match self.nodes.get(node) {
            Some(it) => it.holder,
            None => None,
        }
    }

    /// Makes a call the holder of an inode.
    pub fn hold(&mut self, node: NodeId, number: u64)
        ensures { self.new ≡ edited (with_holder (Some number)) self.old node }
    {
        if let Some(it) = self.nodes.get_mut(node) {
            it.holder = Some(number);
        }
    }

    /// Clears the holder of an inode.
    pub fn free(&mut self, node: NodeId)
        ensures { self.new ≡ edited (with_holder None) self.old node }
    {
        if let Some(it) = self.nodes.get_mut(node) {
            it.holder = None;
        }
    }

    /// Sets the given attributes, except the size.
    pub fn set(&mut self, node: NodeId, attrs: &Attrs)
        ensures { self.new ≡ edited (with_metadata (λ m. with_parts m attrs.now)) self.old node }
    {
        if let Some(it) = self.nodes.get_mut(node) {
            it.set(attrs);
        }
    }

    /// Sets the modification time alone, in seconds since 1970.
    pub fn touch(&mut self, node: NodeId, moment: u32)
        ensures { self.new ≡ edited (with_metadata (modified_at moment)) self.old node }
    {
        if let Some(it) = self.nodes.get_mut(node) {
            it.touch(moment);
        }
    }

    /// Creates an inode with a new entry in a directory.
    pub fn insert(&mut self, dir: NodeId, name: Name, made: NewNode) -> Result<NodeId, AllocError>
        ensures ok { IfOk result (λ id. Inserted self.old self.new (new_entry dir name id)
            (new_node made)) }
        ensures err { OnErr result (self.new ≡ self.old) }
    {
        self.nodes.reserve(1)?;
        let id = self.nodes.vacant_key();
        if let Some(above) = self.nodes.get_mut(dir) {
            above.insert_entry(name, id)?;
        }
        self.nodes.insert_reserved(Node::new(self.alloc, made));
        Ok(id)
    }

    /// Removes an entry and returns its inode.
    fn take_entry(&mut self, dir: NodeId, name: &Name) -> Option<NodeId>
        ensures node { result ≡ child_of self.old.nodes dir name.now }
        ensures rest { self.new ≡ entry_taken self.old dir name.now }
        ensures none { IfNone result (self.new ≡ self.old) }
    {
        match self.nodes.get_mut(dir) {
            Some(above) => above.remove_entry(name),
            None => None,
        }
    }

    /// Deletes an inode that has neither link nor open handle.
    fn release(&mut self, node: NodeId)
        ensures { self.new ≡ released self.old node }
    {
        let is_unused = match self.nodes.get(node) {
            Some(it) => it.is_unused(),
            None => return,
        };
        if is_unused {
            self.nodes.try_remove(node);
        }
    }

    /// An inode loses a link.
    fn forget(&mut self, node: NodeId)
        ensures { self.new ≡ forgotten self.old node }
    {
        if let Some(it) = self.nodes.get_mut(node) {
            it.names = it.names.saturating_sub(1);
        }
        self.release(node);
    }

    /// An inode loses an open handle.
    fn let_go(&mut self, node: NodeId)
        ensures { self.new ≡ after_close self.old node }
    {
        if let Some(it) = self.nodes.get_mut(node) {
            it.opens = it.opens.saturating_sub(1);
        }
        self.release(node);
    }

    /// Removes an entry, and deletes its inode if it is unused.
    pub fn unlink(&mut self, dir: NodeId, name: &Name)
        ensures { self.new ≡ unlinked self.old dir name.now }
    {
        if let Some(node) = self.take_entry(dir, name) {
            self.forget(node);
        }
    }

    /// The number of links of an inode.
    pub fn links(&self, node: NodeId) -> u64
        ensures { result ≡ link_count_at self.now.nodes node }
    {
        match self.nodes.get(node) {
            Some(it) => it.names,
            None => 0,
        }
    }

    /// Links an inode at an absent name of a directory.
    pub fn link(&mut self, dir: NodeId, name: Name, node: NodeId) -> Result<(), AllocError>
        ensures ok { OnOk result (self.new ≡ linked self.old dir name node) }
        ensures err { OnErr result (self.new ≡ self.old) }
    {
        self.put_entry(dir, name, node)?;
        if let Some(it) = self.nodes.get_mut(node) {
            it.names = it.names.saturating_add(1);
        }
        Ok(())
    }

    /// Moves an entry to a new name. If the name has an entry of another inode, that is replaced,
    /// and the inode is deleted if it is unused.
    pub fn relink(
        &mut self,
        old_dir: NodeId,
        old_name: &Name,
        new_dir: NodeId,
        new_name: Name,
    ) -> Result<(), AllocError>
        ensures ok { OnOk result (self.new
            ≡ relinked self.old old_dir old_name.now new_dir new_name) }
        ensures err { OnErr result (self.new ≡ self.old) }
    {
        let Some(node) = self.entry(old_dir, old_name) else {
            return Ok(());
        };
        let target = self.entry(new_dir, &new_name);
        self.put_entry(new_dir, new_name, node)?;
        self.take_entry(old_dir, old_name);
        if let Some(target) = target {
            self.forget(target);
        }
        Ok(())
    }

    /// Inserts or replaces an entry.
    fn put_entry(&mut self, dir: NodeId, name: Name, node: NodeId) -> Result<(), AllocError>
        ensures ok { OnOk result (self.new ≡ entry_put self.old dir name node) }
        ensures err { OnErr result (self.new ≡ self.old) }
    {
        if let Some(above) = self.nodes.get_mut(dir) {
            above.insert_entry(name, node)?;
        }
        Ok(())
    }

    /// The contents of a file; `None` for a directory.
    pub fn file(&self, node: NodeId) -> Option<&Contents>
        ensures some { IfSome result (λ file. (is_file_at self.now.nodes node ≡ true)
            × (file.now.bytes ≡ bytes_of self.now.nodes node)
            × (file.now.left ≡ blocks_left_at self.now.nodes node)) }
        ensures none { IfNone result (is_file_at self.now.nodes node ≡ false) }
    {
        self.nodes.get(node)?.file()
    }

    /// The size of a file in bytes; `None` for a directory.
    pub fn file_len(&self, node: NodeId) -> Option<u64>
        ensures { result ≡ file_size self.now.nodes node }
    {
        Some(self.file(node)?.len())
    }

    /// The number of blocks of a file that are still to be copied.
    pub fn left(&self, node: NodeId) -> usize
        ensures { result ≡ blocks_left_at self.now.nodes node }
    {
        match self.nodes.get(node) {
            Some(it) => it.left(),
            None => 0,
        }
    }

    /// Starts a write to a file at an offset; a gap before it is filled with zeros. Makes all its
    /// allocations, and copies no block.
    pub fn start_write(
        &mut self,
        node: NodeId,
        offset: u64,
        bytes: &ByteString,
    ) -> Result<(), AllocError>
        requires settled { blocks_left_at self.old.nodes node ≡ 0 }
        requires some { 0 < length bytes.now }
        requires fits { offset + length bytes.now < 2 ^ 64 }
        ensures ok { OnOk result (self.new
            ≡ file_set self.old node (writing (bytes_of self.old.nodes node) offset bytes.now)) }
        ensures err { OnErr result (self.new ≡ self.old) }
    {
        match self.nodes.get_mut(node) {
            Some(it) => it.start_write(self.alloc, offset, bytes),
            None => Ok(()),
        }
    }

    /// Copies one block of the pending write of a file. Allocates nothing.
    pub fn copy_block(&mut self, node: NodeId)
        requires { 0 < blocks_left_at self.old.nodes node }
        ensures { self.new ≡ left_set self.old node (blocks_left_at self.old.nodes node - 1) }
    {
        if let Some(it) = self.nodes.get_mut(node) {
            it.copy_block();
        }
    }

    /// Copies the rest of the pending write of a file. Allocates nothing.
    pub fn copy_rest(&mut self, node: NodeId)
        ensures { self.new ≡ left_set self.old node 0 }
    {
        if let Some(it) = self.nodes.get_mut(node) {
            it.copy_rest();
        }
    }

    /// Truncates a file to a size, or extends it with zeros. Allocates nothing.
    pub fn set_len(&mut self, node: NodeId, n: u64)
        requires { blocks_left_at self.old.nodes node ≡ 0 }
        ensures { self.new ≡ bytes_set self.old node (resized (bytes_of self.old.nodes node) n) }
    {
        if let Some(it) = self.nodes.get_mut(node) {
            it.set_len(n);
        }
    }

    /// Opens an inode with a handle of a session, with no name listed yet.
    pub fn open(
        &mut self,
        session: u64,
        number: u64,
        node: NodeId,
        marks: Marks,
    ) -> Result<(), AllocError>
        ensures ok { OnOk result (self.new ≡ after_open self.old session number node marks) }
        ensures err { OnErr result (self.new ≡ self.old) }
    {
        let label = match self.nodes.get(node) {
            Some(it) => it.label,
            None => return Ok(()),
        };
        let handle = OpenHandle {
            node,
            label,
            marks,
            listed: None,
        };
        self.put_handle(session, number, handle)?;
        if let Some(it) = self.nodes.get_mut(node) {
            it.opens = it.opens.saturating_add(1);
        }
        Ok(())
    }

    fn put_handle(
        &mut self,
        session: u64,
        number: u64,
        handle: OpenHandle,
    ) -> Result<(), AllocError>
        ensures ok { OnOk result (self.new ≡ handle_put self.old session number handle) }
        ensures err { OnErr result (self.new ≡ self.old) }
    {
        match self.sessions.get_mut(&session) {
            Some(handles) => {
                handles.insert(number, handle)?;
                Ok(())
            }
            None => {
                let handles = SessionHandles::of_one(self.alloc, number, handle)?;
                self.sessions.insert(session, handles)?;
                Ok(())
            }
        }
    }

    /// The handle with this number in the session.
    pub fn handle(&self, session: u64, number: u64) -> Option<&OpenHandle>
        ensures { option_copied result ≡ open_handle_at self.now session number }
    {
        match self.sessions.get(&session) {
            Some(handles) => handles.get(number),
            None => None,
        }
    }

    /// The number of open handles of a session.
    pub fn handles(&self, session: u64) -> usize
        ensures { result
            ≡ option_map_or (λ handles. length handles) (handles_of self.now session) 0 }
    {
        match self.sessions.get(&session) {
            Some(handles) => handles.len(),
            None => 0,
        }
    }

    /// Closes a handle of a session and returns whether it was open. Its inode is deleted if it is
    /// unused.
    pub fn close(&mut self, session: u64, number: u64) -> bool
        ensures told { result ≡ is_some (open_handle_at self.old session number) }
        ensures closed { self.new ≡ closed self.old session number }
        ensures none { result ≡ false → self.new ≡ self.old }
    {
        if let Some(handle) = self.take_handle(session, number) {
            self.let_go(handle.node);
            return true;
        }
        false
    }

    #[tactic(auto, using(std::proofs::lemmas::Map::Steps::set_value_same))]
    fn take_handle(&mut self, session: u64, number: u64) -> Option<OpenHandle>
        ensures value { result ≡ open_handle_at self.old session number }
        ensures rest { self.new
            ≡ handle_dropped self.old session number (handles_of self.old session) }
        ensures none { IfNone result (self.new ≡ self.old) }
    {
        match self.sessions.get_mut(&session) {
            Some(handles) => handles.remove(number),
            None => None,
        }
    }

    /// Closes all handles of a session.
    pub fn close_all(&mut self, session: u64)
        ensures { self.new ≡ closed_all self.old session }
    {
        if let Some(handles) = self.sessions.remove(&session) {
            self.let_each_go(handles);
        }
    }

    fn let_each_go(&mut self, mut handles: SessionHandles)
        ensures { self.new ≡ each_let_go self.old handles }
    {
        while let Some(handle) = handles.pop_first() {
            self.let_go(handle.node);
        }
    }

    /// Sets the last name that a handle's listing returned.
    pub fn listed(&mut self, session: u64, number: u64, name: &Name) -> Result<(), AllocError>
        ensures ok { OnOk result (self.new ≡ handle_listed self.old session number name.now) }
        ensures err { OnErr result (self.new ≡ self.old) }
    {
        let own = name.try_copy(self.alloc)?;
        if let Some(handles) = self.sessions.get_mut(&session) {
            handles.set_listed(number, own);
        }
        Ok(())
    }

    /// The first entries of a directory after the last one that was listed, at most `most`.
    /// Allocates for these alone, and nothing if none are left.
    pub fn entries_after(
        &self,
        dir: NodeId,
        last: Option<&Name>,
        most: usize,
    ) -> Result<Vec<(Name, NodeId)>, AllocError>
        ensures ok { IfOk result (λ found. found.items ≡ take most
            (entries_past (option_copied last.entry) (node_entries self.now.nodes dir))) }
        ensures none_left { entries_past (option_copied last.entry)
            (node_entries self.now.nodes dir) ≡ [] → IsOk result }
    {
        match self.nodes.get(dir) {
            Some(it) => it.first_past(self.alloc, last, most),
            None => Ok(Vec::new(self.alloc)),
        }
    }
}
