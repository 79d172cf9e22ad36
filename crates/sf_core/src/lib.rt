//! The concurrent core of the server: one directory tree in memory, and the calls of all sessions
//! on it.
//!
//! Start with `Core`. A session joins it and gets a `Lane`. A call begins in a lane and advances by
//! steps, interleaved with the steps of other sessions' calls, until it is answered. `TakesStep` in
//! `specs/Events.antt` is the step relation.
//!
//! The records of all decided calls, in order of their linearization points, are the core's
//! history. `IsHistory` in `specs/Histories.antt` relates a core to its history, and each event
//! extends it. A core retains all records or the last `n`. `Core::tree` is a snapshot of the tree
//! at the history's end.
//!
//! Path resolution uses lock coupling. A call that moves a directory helps the calls that have
//! passed it. Some unanswered call can always proceed (`Core::never_stuck`). Inside, `Parts` has
//! the store, the book of records, the sessions and the calls. `Sound` in `specs/Sound.antt` is
//! their invariant.
#![tactic(auto)]

mod cores;
mod fault;
mod lane;
mod parts;
mod room;
mod sessions;
mod step;

pub use cores::Core;
pub use fault::CoreFault;
pub use lane::{Lane, Share};
pub use step::Step;
