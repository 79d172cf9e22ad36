//! A path with the object that it names.

ghost use Rattle.std.specs.Prelude.{◌≡◌};
ghost use Rattle.std.specs.Option.{option_copied};
ghost use Rattle.sf_call.specs.Attributes.{attrs_of};
ghost use Rattle.sf_call.specs.Leaves.{object_by, contents_of, metadata_of};

use crate::metadata::{FileType, Metadata};
use sf_block::WholeContents;
use sf_field::Attrs;
use sf_path::Path;
use std::marker::Model;

/// A path with its inode number, its attributes and, for a file, its contents. The bytes are
/// shared, not copied.
#[derive(Debug, Drop)]
pub struct Leaf {
    path: Path,
    label: u64,
    metadata: Metadata,
    /// None for a directory.
    contents: Option<WholeContents>,
}

impl Model for Leaf {
    ghost use Rattle.std.specs.Prelude.{ℕ, List};
    ghost use Rattle.sf_call.specs.Attributes.{Object};
    ghost use Rattle.sf_call.specs.Leaves.{object_by};

    ghost Value = { List (List ℕ) × (ℕ × Object) };

    ghost view = { λ leaf. (leaf.path, (leaf.label, object_by leaf.metadata leaf.contents)) };
}

impl Leaf {
    /// A path to a file with these contents, or to a directory if there are none.
    pub fn new(path: Path, label: u64, metadata: Metadata, contents: Option<WholeContents>) -> Leaf
        ensures { result ≡ (path, (label, object_by metadata contents)) }
    {
        Leaf {
            path,
            label,
            metadata,
            contents,
        }
    }

    /// The path.
    pub fn path(&self) -> &Path
        ensures { result.now ≡ self.now.0 }
    {
        &self.path
    }

    /// The inode number: paths with equal numbers name one file.
    pub fn label(&self) -> u64
        ensures { result ≡ self.now.1.0 }
    {
        self.label
    }

    /// The owner, permissions and times.
    pub fn metadata(&self) -> Metadata
        ensures { result ≡ metadata_of self.now.1.1 }
    {
        self.metadata
    }

    /// All attributes as sent; the size of a directory is 0.
    pub fn attrs(&self) -> Attrs
        ensures { result ≡ attrs_of self.now.1.1 }
    {
        match &self.contents {
            None => self.metadata.sent(FileType::Directory, 0),
            Some(contents) => self.metadata.sent(FileType::File, contents.len()),
        }
    }

    /// The contents of a file; `None` for a directory.
    pub fn contents(&self) -> Option<&WholeContents>
        ensures { option_copied result ≡ contents_of self.now.1.1 }
    {
        self.contents.as_ref()
    }
}
