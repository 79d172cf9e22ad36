//! A client of an engine in the same process: its sessions send ordinary requests, one at a time.
//!
//! Start with `specs/Asking.antt`: `IsDone` defines each operation by the engine's events. `Asker`
//! implements `Server` of `sf_trees`, on any engine (`Sftp`).
#![tactic(auto)]

mod asker;
mod conversing;
mod packet;

pub use asker::Asker;
