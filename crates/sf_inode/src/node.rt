//! Inodes: files, and directories with their entries.

ghost use Rattle.std.specs.Prelude.{◌≡◌, ◌+◌, ◌-◌, ◌<◌, ◌≤◌, ◌^◌, [], Some, None, true, false, length, take, IfSome, IfNone, IsOk, IfOk, OnOk, OnErr};
ghost use Rattle.std.specs.Option.{option_copied};
ghost use Rattle.sf_field.specs.declared.attrs.Attrs.{Attrs};
ghost use Rattle.sf_call.specs.Attributes.{attrs_of, with_parts, modified_at};
ghost use Rattle.sf_inode.specs.Nodes.{child_in, entries_in, entries_past, is_directory_content, is_file_content, is_bare_content, object_in, new_node, with_content, with_metadata, less_content, more_content, bytes_in, blocks_left_in, with_file, with_bytes, with_left, is_unused};
ghost use Rattle.sf_inode.specs.Leaves.{below};
ghost use Rattle.sf_inode.specs.Stores.{shown_node};
ghost use Rattle.sf_block.specs.Contents.{resized, written, writing};

use crate::NodeId;
use crate::entries::Entries;
use sf_block::{Contents, WholeContents};
use sf_call::{FileType, Leaf, Metadata};
use sf_field::{Attrs, ByteString};
use sf_path::{Name, Path};
use std::alloc::{AllocError, Global};

/// A new empty directory or file.
#[derive(Clone, Copy, Debug)]
pub struct NewNode {
    /// The inode number: unique, and above 0.
    pub label: u64,
    pub file_type: FileType,
    pub metadata: Metadata,
}

#[derive(Drop)]
pub(crate) enum Content {
    Directory(Entries),
    File(Contents),
}

#[derive(Drop)]
pub(crate) struct Node {
    // The fields that lookups, STAT and listings read come first, next to each other.
    pub(crate) holder: Option<u64>,
    pub(crate) metadata: Metadata,
    /// The number of links.
    pub(crate) names: u64,
    pub(crate) content: Content,
    pub(crate) label: u64,
    /// The number of open handles.
    pub(crate) opens: u64,
}

impl Node {
    /// A new file or directory with one link, no holder and no open handle.
    pub(crate) fn new(alloc: Global, made: NewNode) -> Node
        ensures { result ≡ new_node made }
    {
        let content = match made.file_type {
            FileType::Directory => Content::Directory(Entries::new(alloc)),
            FileType::File => Content::File(Contents::new(alloc)),
        };
        Node {
            label: made.label,
            metadata: made.metadata,
            content,
            holder: None,
            names: 1,
            opens: 0,
        }
    }

    /// Whether it is a directory.
    pub(crate) fn is_directory(&self) -> bool
        ensures { result ≡ is_directory_content self.now.content }
    {
        matches!(self.content, Content::Directory(_))
    }

    /// Whether it has no entries; a file has none.
    pub(crate) fn is_bare(&self) -> bool
        ensures { result ≡ is_bare_content self.now.content }
    {
        match &self.content {
            Content::Directory(entries) => entries.is_empty(),
            Content::File(_) => true,
        }
    }

    /// The inode of an entry; a file has no entries.
    pub(crate) fn entry(&self, name: &Name) -> Option<NodeId>
        ensures { result ≡ child_in self.now.content name.now }
    {
        match &self.content {
            Content::Directory(entries) => entries.find(name),
            Content::File(_) => None,
        }
    }

    /// The first entries after the last one that was listed, at most `most`.
    pub(crate) fn first_past(
        &self,
        alloc: Global,
        last: Option<&Name>,
        most: usize,
    ) -> Result<Vec<(Name, NodeId)>, AllocError>
        ensures ok { IfOk result (λ found. found.items
            ≡ take most (entries_past (option_copied last.entry) (entries_in self.now.content))) }
        ensures none_left { entries_past (option_copied last.entry) (entries_in self.now.content)
            ≡ [] → IsOk result }
    {
        match &self.content {
            Content::Directory(entries) => entries.first_past(alloc, last, most),
            Content::File(_) => Ok(Vec::new(alloc)),
        }
    }

    /// The entries of a directory at a path, as paths; a file has none.
    pub(crate) fn below(
        &self,
        alloc: Global,
        path: &Path,
    ) -> Result<Vec<(Path, NodeId)>, AllocError>
        ensures { IfOk result (λ children. children.items
            ≡ below path.now (entries_in self.now.content)) }
    {
        match &self.content {
            Content::Directory(entries) => entries.below(alloc, path),
            Content::File(_) => Ok(Vec::new(alloc)),
        }
    }

    /// A path to the inode, with its object. The bytes of a file are shared.
    pub(crate) fn leaf(&self, alloc: Global, path: Path) -> Result<Leaf, AllocError>
        ensures { IfOk result (λ leaf. leaf ≡ (path, shown_node self.now)) }
    {
        let contents = match &self.content {
            Content::Directory(_) => None,
            Content::File(contents) => Some(WholeContents::of(contents, alloc)?),
        };
        Ok(Leaf::new(path, self.label, self.metadata, contents))
    }

    /// All attributes as sent; the size of a directory is 0.
    pub(crate) fn attrs(&self) -> Attrs
        ensures { result ≡ attrs_of (object_in self.now.metadata self.now.content) }
    {
        match &self.content {
            Content::Directory(_) => self.metadata.sent(FileType::Directory, 0),
            Content::File(contents) => self.metadata.sent(FileType::File, contents.len()),
        }
    }

    /// Removes an entry of a directory and returns its inode; a file is unchanged.
    pub(crate) fn remove_entry(&mut self, name: &Name) -> Option<NodeId>
        ensures node { result ≡ child_in self.old.content name.now }
        ensures rest { self.new ≡ with_content (less_content name.now) self.old }
        ensures none { IfNone result (self.new ≡ self.old) }
    {
        match &mut self.content {
            Content::Directory(entries) => entries.remove(name),
            Content::File(_) => None,
        }
    }

    /// Inserts or replaces an entry of a directory; a file is unchanged.
    pub(crate) fn insert_entry(&mut self, name: Name, node: NodeId) -> Result<(), AllocError>
        ensures ok { OnOk result (self.new ≡ with_content (more_content name node) self.old) }
        ensures err { OnErr result (self.new ≡ self.old) }
    {
        if let Content::Directory(entries) = &mut self.content {
            entries.insert(name, node)?;
        }
        Ok(())
    }

    /// Sets the given attributes, except the size.
    pub(crate) fn set(&mut self, attrs: &Attrs)
        ensures { self.new ≡ with_metadata (λ m. with_parts m attrs.now) self.old }
    {
        self.metadata = self.metadata.with_parts(attrs);
    }

    /// Sets the modification time, in seconds since 1970.
    pub(crate) fn touch(&mut self, moment: u32)
        ensures { self.new ≡ with_metadata (modified_at moment) self.old }
    {
        self.metadata = self.metadata.modified_at(moment);
    }

    /// The contents, if it is a file.
    pub(crate) fn file(&self) -> Option<&Contents>
        ensures some { IfSome result (λ file. (is_file_content self.now.content ≡ true)
            × (file.now.bytes ≡ bytes_in self.now.content)
            × (file.now.left ≡ blocks_left_in self.now.content)) }
        ensures none { IfNone result (is_file_content self.now.content ≡ false) }
    {
        match &self.content {
            Content::Directory(_) => None,
            Content::File(contents) => Some(contents),
        }
    }

    /// The number of blocks of a file that are still to be copied.
    pub(crate) fn left(&self) -> usize
        ensures { result ≡ blocks_left_in self.now.content }
    {
        match &self.content {
            Content::Directory(_) => 0,
            Content::File(contents) => contents.left(),
        }
    }

    /// Starts a write at an offset; a gap before it is filled with zeros. Makes all its
    /// allocations, and copies no block.
    pub(crate) fn start_write(
        &mut self,
        alloc: Global,
        offset: u64,
        bytes: &ByteString,
    ) -> Result<(), AllocError>
        requires settled { blocks_left_in self.old.content ≡ 0 }
        requires some { 0 < length bytes.now }
        requires fits { offset + length bytes.now < 2 ^ 64 }
        ensures ok { OnOk result (self.new
            ≡ with_content (with_file (writing (bytes_in self.old.content) offset bytes.now))
            self.old) }
        ensures err { OnErr result (self.new ≡ self.old) }
    {
        match &mut self.content {
            Content::Directory(_) => Ok(()),
            Content::File(contents) => contents.start_write(alloc, offset, bytes),
        }
    }

    /// Copies one block of the pending write of a file. Allocates nothing.
    pub(crate) fn copy_block(&mut self)
        requires { 0 < blocks_left_in self.old.content }
        ensures { self.new
            ≡ with_content (with_left (blocks_left_in self.old.content - 1)) self.old }
    {
        if let Content::File(contents) = &mut self.content {
            contents.copy_block();
        }
    }

    /// Copies the rest of the pending write of a file. Allocates nothing.
    pub(crate) fn copy_rest(&mut self)
        ensures { self.new ≡ with_content (with_left 0) self.old }
    {
        if let Content::File(contents) = &mut self.content {
            contents.copy_rest();
        }
    }

    /// Truncates a file to a size, or extends it with zeros. Allocates nothing.
    pub(crate) fn set_len(&mut self, n: u64)
        requires { blocks_left_in self.old.content ≡ 0 }
        ensures { self.new ≡ with_content (with_bytes (resized (bytes_in self.old.content) n))
            self.old }
    {
        if let Content::File(contents) = &mut self.content {
            contents.set_len(n);
        }
    }

    /// Whether it has neither link nor open handle.
    pub(crate) fn is_unused(&self) -> bool
        ensures { result ≡ is_unused self.now }
    {
        self.names == 0 && self.opens == 0
    }
}
