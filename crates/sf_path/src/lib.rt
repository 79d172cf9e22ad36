//! Absolute paths, parsed from client-supplied text: lists of names.
//!
//! Start with `Path::parse`. A text is a path exactly if it has no fault; the result is its normal
//! form (clauses `path`, `faulty` and `good`). In contracts a path is a list of names, so `common`
//! and `begins_with` are the list operations.
//!
//! - `specs/Names.antt`: names, paths, and a path's text.
//! - `specs/Normal.antt`: normal form and faults of a text.
//! - `specs/Order.antt`: order of names and of paths.
//! - `specs/Heads.antt`: the 8-byte integer prefix by which names are compared first.
#![tactic(auto)]

mod fault;
mod name;
mod parse;
mod path;
mod path_laws;

pub use fault::PathFault;
pub use name::Name;
pub use path::Path;
pub use path_laws::{normal_text_again, slash_before};
