//! SFTP calls on the inode store: path resolution with lock coupling, and each request's effect.
//!
//! Start with `decide` in `calls`. For a call with resolved paths it returns the sequential tree's
//! reply, and updates the store to represent the tree after the call (`IsCarriedOut`,
//! `specs/Served.antt`). `start` in `files` decides a WRITE. `advance` in `walking` is one step of
//! path resolution: it holds the next directory before it releases the one above
//! (`specs/Steps.antt`). `locate_all` in `finding` resolves paths at once. `way_from` in
//! `specs/Ways.antt` defines what a path leads to. The requests are in `path_calls`, `renames`,
//! `links`, `opening`, `handle_calls` and `listing`.
#![tactic(auto)]

mod calls;
mod ends;
mod files;
mod finding;
mod handle_calls;
mod links;
mod listing;
mod looking;
mod opening;
mod path_calls;
mod renames;
mod sparing;
mod walking;

pub use calls::decide;
pub use files::{Copying, Writer, file_holder, holder_by, left_to_copy, start, writer_to_finish};
pub use finding::{Located, Ways, locate, locate_all};
pub use renames::is_move;
pub use sparing::spared_file;
pub use walking::{Walk, advance, let_go};
