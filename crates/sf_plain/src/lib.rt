//! An executable form of the sequential specification: a slow file system, written to be read. It
//! maps paths to inode numbers, and those to directories and files.
//!
//! Start with `PlainTree`. Its value in contracts is the tree of `sf_call`, so the contract of
//! `apply` states that it computes the specified function. `leave` ends a session, and `leaves`
//! lists all paths. Each call scans all paths, so this is no server. Tests compare the server with
//! it, and it shows that the specification can be executed. `specs/Nodes.antt` defines the object
//! of a node.
#![tactic(auto)]

mod copies;
mod node;
mod sweep;
mod tree;

pub use tree::PlainTree;
