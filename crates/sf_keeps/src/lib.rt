//! The abstraction relation between the store of inodes and the specified tree.
//!
//! Start with `Keeps` in `specs/Keeps.antt`: a store represents a tree if each path resolves in the
//! store to what the tree has there, and its handles are the tree's. Each law of `tree_laws` and
//! `handle_laws` states that an operation on the store represents a change of the tree.
//! `kept_leaves` states that the paths of the store are those of the tree. The functions do
//! nothing: their contracts are the laws. `proofs/Laws.antt` has the laws that other crates use in
//! proofs.
#![tactic(auto)]

mod handle_laws;
mod tree_laws;

pub use handle_laws::{
    closed_handles, counted_handles, found_handles, listed_entries, listed_handles, opened_handles,
};
pub use tree_laws::{
    changed_object, copied_blocks, found_paths, gone_path, kept_leaves, kept_nodes, kept_trees,
    moved_path, new_name, new_path, other_nodes, same_tree, shown_nodes,
};
