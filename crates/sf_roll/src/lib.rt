//! A registry of ghost tokens: entries that exist in proofs only, and a ghost log beside them.
//!
//! Start with `Keeper` in `keeper.rt`. It knows all entries, and a `Ticket` knows one of them. By
//! their rule (`specs/Kept.antt`) an entry changes only if both take part. So the holder of a
//! ticket knows its entry, even while other threads have the keeper, under a mutex.
//!
//! `Log` in `log.rt` only grows. A `Seen` is a token for a prefix of it: the log begins with that
//! list, now and later (`specs/Seen.antt`). Tokens carry an order in time from thread to thread.
//!
//! A `RollName` in their types ties these together. `NewRoll` makes a registry and names it.
#![tactic(auto)]

mod keeper;
mod log;
mod log_rule;
mod rule;

pub use keeper::{Keeper, NewRoll, Ticket};
pub use log::{Log, Seen};
pub use log_rule::LogGrowth;
pub use rule::{EntryChange, RollEntry, RollName};
