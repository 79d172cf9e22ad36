//! Inodes, directory entries and open handles: the file system's state.
//!
//! Start with `Store` in `store`: each method has its definition on the abstract store in
//! `specs/Stores.antt`, which has inodes by slot and open handles by session. An inode (`Node`,
//! `specs/Nodes.antt`) has a number (`label`), attributes, a holder (the call that locks it), and
//! counts of its links and open handles. It also has the contents of a file or the entries of a
//! directory. Entries are an ordered map (`entries`). A method that fails to allocate changes
//! nothing. `Store::leaves` lists all paths in order (`specs/Leaves.antt`).
#![tactic(auto)]

mod entries;
mod handle;
mod node;
mod store;

pub use handle::{Marks, OpenHandle};
pub use node::NewNode;
pub use store::Store;

/// The slot of an inode in the store. It is reused after the inode is deleted.
pub type NodeId = usize;
