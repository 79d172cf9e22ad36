//! A core with a ghost page for each session, for use under a mutex.
//!
//! Start with `NotedCore` in `noted.rt`. It has the core's events, and notes each on the session's
//! page (`specs/Pages.antt`). The pages agree with the core's history (`specs/Noted.antt`): the
//! calls of a session in the history are those whose replies it received, and at most one more,
//! whose reply is pending. A page changes only with the session's `NotedLane`. So a thread knows
//! its session's page, even while other threads have the core.
//!
//! The history is a ghost log (`specs/Growth.antt`), and a `Seen` is a token for a prefix of it.
//! They give real-time order (`specs/Seen.antt`). A call that begins is not in the prefix of the
//! token that is passed in. A call that is answered is in the prefix of the token that is passed
//! out. `close` says that the history has the calls of the sessions, and no others.
#![tactic(auto)]

mod growth;
mod noted;
mod page;
mod time;

pub use growth::{CoreStep, HistoryGrowth};
pub use noted::{NotedCore, NotedLane, Visit};
pub use page::{Page, PageChange};
pub use time::in_real_time;
