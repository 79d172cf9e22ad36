//! The invariant of lock coupling (hand-over-hand locking): a call that resolves a path locks the
//! next directory before it unlocks the last. Definitions and laws, no code.
//!
//! Start with `specs/Walks.antt`. `Walkers` is the state: the namespace, the directories that each
//! call holds, and the holder of each. `AreWalks` is the invariant: the paths of each call lead to
//! the directories that it holds, and nothing else is held. Also, no call holds a directory between
//! those of another. `HoldsOthers` is a change of one call, and `TakesPath` in
//! `specs/Stepping.antt` each kind of step. `walk_laws.rt` has the laws for readers;
//! `proofs/Laws.antt` has those that other crates cite.
#![tactic(auto)]

mod walk_laws;

pub use walk_laws::{held_once, let_go_kept, steps_kept, waits_above, walks_kept};
