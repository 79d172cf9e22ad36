//! The source of a tree's contents: a folder as a sequence of items.

ghost use Rattle.std.specs.Prelude.{List, [], ◌∷◌, Option, IfOk, IfSome, IfNone};
ghost use Rattle.sf_loading.specs.Items.{GivesItems, HasNone};

use sf_field::Attrs;
use std::alloc::AllocError;
use thiserror::Error;

/// An item of a folder, which becomes one request. A directory's item precedes those of its
/// contents, and its attributes follow them. A file has its item, its bytes, its attributes and its
/// end.
#[derive(Debug, PartialEq, Eq, Drop)]
pub enum Item {
    /// A directory with this path.
    Directory(Vec<u8>),
    /// The attributes of the directory with this path, after all of its contents.
    DirectoryAttributes(Vec<u8>, Attrs),
    /// A file with this path.
    File(Vec<u8>),
    /// Bytes of the last file at an offset.
    Bytes(u64, Vec<u8>),
    /// The attributes of the last file, after all of its bytes. The size is the whole file's.
    FileAttributes(Attrs),
    FileEnd,
}

/// Why a folder can't return its next item.
#[derive(Clone, Copy, Debug, PartialEq, Eq, Error)]
pub enum FolderFault {
    #[error("out of memory")]
    OutOfMemory,
    /// Something in the folder can't be read.
    #[error("cannot read")]
    Unreadable,
}

impl From<AllocError> for FolderFault {
    fn from(_error: AllocError) -> FolderFault {
        FolderFault::OutOfMemory
    }
}

/// A sequence of items.
pub trait Folder {
    ghost use Rattle.sf_loading.specs.declared.folder.Item.{Item};

    /// The remaining items, if the implementation specifies them.
    ghost items: { Self → Option (List Item) };

    /// Returns the next item, or `None` at the end.
    fn next(&mut self) -> Result<Option<Item>, FolderFault>
        ensures some { IfOk result (λ found. IfSome found
            (λ item. GivesItems (items self.old) (item ∷ []) (items self.new))) }
        ensures none { IfOk result (λ found. IfNone found
            (HasNone (items self.old) (items self.new))) };
}
