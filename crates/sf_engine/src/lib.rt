//! Many sessions on one core, by events, without threads.
//!
//! The trait `Sftp` in `promise.rt` has the promise: each event appends one entry to the engine's
//! log, and `specs/Promise.antt` says what holds of that log. It is the specification that other
//! crates use.
//!
//! To read the code, start with `Engine::apply` in `engine.rt`. Its contracts are in
//! `specs/HasLog.antt`, which says when an engine has a log, and add the steps of calls
//! (`specs/Steady.antt`, `specs/Works.antt`). `hosted.rt` has one session's turns; its contracts
//! (`specs/Turns.antt`) speak of no log. `Engine::turns` makes many turns at once. No program
//! keeps a log.
#![tactic(auto)]

mod engine;
mod event;
mod hosted;
mod log_laws;
mod promise;

pub use engine::Engine;
pub use event::{EngineFault, Event, Happened};
pub use log_laws::{determinism, wrong_logs};
pub use promise::{Outcome, Sftp, apply_all};
