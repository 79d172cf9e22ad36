//! The sequential specification of the server: a model of a file system, and the reply to each SFTP
//! request.
//!
//! This crate stores no files. Start with `specs/Tree.antt` (paths, inodes, handles) and
//! `specs/Calls.antt`: `answer_to` defines the answer to each request by cases, and `apply` is the
//! reply with the tree after it. `specs/Changes.antt` defines the effect of each change.
//! `specs/Leaves.antt` lists the paths of a tree, with the objects that they name, as `Leaf` does.
//! A history is a list of calls with their replies; `specs/Histories.antt` defines legal histories
//! and the tree at the end of one. `Request`, `Record` and `Answer` are the Rust types; the
//! contract of `Answer::new` ties a reply to a legal history. `tree_laws.rt` and `history_laws.rt`
//! have laws that other crates use; `sf_laws` has those for readers.
#![tactic(auto)]

mod answer;
mod call;
mod fault;
mod handle;
mod history_laws;
mod leaf;
mod limits;
mod lookup;
mod metadata;
mod record;
mod request;
mod route;
mod tree_laws;

pub use answer::Answer;
pub use call::{Call, Calls, PlacedCall, Reached, Stage};
pub use fault::{BeginFault, JoinFault};
pub use handle::Handle;
pub use history_laws::{
    allowed_changes, found_by_number, given_by_history, labels_of_paths, one_record_more,
    replies_fit, ways_of_paths,
};
pub use leaf::Leaf;
pub use limits::{MAX_ENTRIES, MAX_FILE_SIZE, MAX_HANDLES, MAX_LINKS, MAX_READ};
pub use lookup::Lookup;
pub use metadata::{FileType, Metadata};
pub use record::Record;
pub use request::Request;
pub use route::{RouteKind, RoutePaths};
pub use tree_laws::{
    fronts, kinds_of_replies, leaves_of_trees, limit_cases, listed_attributes, moved_names,
    open_ways, ordered_trees, told_replies,
};
