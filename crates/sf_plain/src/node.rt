//! Directories and files.

ghost use Rattle.std.specs.Prelude.{◌≡◌, false, IfOk};
ghost use Rattle.sf_field.specs.declared.attrs.Attrs.{Attrs};
ghost use Rattle.sf_call.specs.Attributes.{attrs_of};
ghost use Rattle.sf_call.specs.Attributes.Object.{Directory, File};
ghost use Rattle.sf_call.specs.Tree.{directory_metadata};
ghost use Rattle.sf_call.specs.Calls.{refuses_size, with_attrs};
ghost use Rattle.sf_plain.specs.Nodes.{object_of_parts};

use crate::copies::TryCopy;
use sf_block::WholeContents;
use sf_call::{FileType, Leaf, MAX_FILE_SIZE, Metadata};
use sf_field::Attrs;
use sf_path::Path;
use std::alloc::{AllocError, Global};
use std::marker::Model;

/// A directory, or a file with its contents.
#[derive(Drop)]
pub(crate) struct Node {
    kind: Kind,
}

#[derive(Drop)]
enum Kind {
    Directory(Metadata),
    File(Metadata, WholeContents),
}

/// A borrowed view of a node.
#[derive(Clone, Copy)]
pub(crate) enum Parts<'a> {
    Directory(Metadata),
    File(Metadata, &'a WholeContents),
}

impl Model for Node {
    ghost use Rattle.sf_call.specs.Attributes.{Object};
    ghost use Rattle.sf_plain.specs.Nodes.{object_of_kind};

    ghost Value = { Object };

    ghost view = { λ node. object_of_kind node.kind };
}

impl Node {
    /// A directory. Its entries are in the tree's names.
    pub(crate) fn directory(metadata: Metadata) -> Node
        ensures { result ≡ Directory metadata }
    {
        Node {
            kind: Kind::Directory(metadata),
        }
    }

    /// A file with its contents.
    pub(crate) fn file(metadata: Metadata, contents: WholeContents) -> Node
        ensures { result ≡ File metadata contents }
    {
        Node {
            kind: Kind::File(metadata, contents),
        }
    }

    /// A borrowed view.
    pub(crate) fn parts(&self) -> Parts<'_>
        ensures { object_of_parts result ≡ self.now }
    {
        match &self.kind {
            Kind::Directory(metadata) => Parts::Directory(*metadata),
            Kind::File(metadata, contents) => Parts::File(*metadata, contents),
        }
    }

    /// The metadata, if it is a directory.
    pub(crate) fn as_directory(&self) -> Option<Metadata>
        ensures { result ≡ directory_metadata self.now }
    {
        match &self.kind {
            Kind::Directory(metadata) => Some(*metadata),
            Kind::File(_, _) => None,
        }
    }

    /// The leaf of a path to it, with this inode number.
    pub(crate) fn leaf(&self, alloc: Global, path: Path, label: u64) -> Result<Leaf, AllocError>
        ensures { IfOk result (λ leaf. leaf ≡ (path, (label, self.now))) }
    {
        Ok(match &self.kind {
            Kind::Directory(metadata) => Leaf::new(path, label, *metadata, None),
            Kind::File(metadata, contents) => {
                Leaf::new(path, label, *metadata, Some(contents.try_copy(alloc)?))
            }
        })
    }

    /// The attributes as sent.
    pub(crate) fn attrs(&self) -> Attrs
        ensures { result ≡ attrs_of self.now }
    {
        match &self.kind {
            Kind::Directory(metadata) => metadata.sent(FileType::Directory, 0),
            Kind::File(metadata, contents) => metadata.sent(FileType::File, contents.len()),
        }
    }

    /// Whether setting this size fails.
    pub(crate) fn refuses_size(&self, size: Option<u64>) -> bool
        ensures { result ≡ refuses_size self.now size }
    {
        match (&self.kind, size) {
            (_, None) => false,
            (Kind::Directory(_), Some(_)) => true,
            (Kind::File(_, _), Some(size)) => size > MAX_FILE_SIZE,
        }
    }

    /// The node after a SETSTAT of `attrs` at a timestamp.
    pub(crate) fn with_attrs(
        &self,
        alloc: Global,
        moment: u32,
        attrs: &Attrs,
    ) -> Result<Node, AllocError>
        requires { refuses_size self.now attrs.now.size ≡ false }
        ensures { IfOk result (λ node. node ≡ with_attrs moment attrs.now self.now) }
    {
        match (&self.kind, attrs.size) {
            (Kind::Directory(metadata), _) => Ok(Node::directory(metadata.with_parts(attrs))),
            (Kind::File(metadata, contents), None) => Ok(Node::file(
                metadata.with_parts(attrs),
                contents.try_copy(alloc)?,
            )),
            (Kind::File(metadata, contents), Some(size)) => {
                let mut sized = contents.try_copy(alloc)?;
                sized.set_len(size);
                Ok(Node::file(metadata.modified_at(moment).with_parts(attrs), sized))
            }
        }
    }
}

impl TryCopy for Node {
    fn try_copy(&self, alloc: Global) -> Result<Node, AllocError> {
        Ok(match &self.kind {
            Kind::Directory(metadata) => Node::directory(*metadata),
            Kind::File(metadata, contents) => Node::file(*metadata, contents.try_copy(alloc)?),
        })
    }
}
