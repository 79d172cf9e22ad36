//! Loads the contents of a folder into a tree, by the requests of one session.
//!
//! Start with `load`. `specs/Loading.antt` defines the request for each item of a `Folder`, and
//! `Loads` the whole. `LineServer` is the `Server` of `sf_trees` at the other end of a stream.
#![tactic(auto)]

mod folder;
mod line_server;
mod making;

pub use folder::{Folder, FolderFault, Item};
pub use line_server::LineServer;
pub use making::{LoadFault, load};
