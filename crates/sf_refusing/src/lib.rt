//! Fault injection in front of an engine: rules refuse chosen requests. A refused request is
//! answered with an error status and never reaches the engine.
//!
//! `Refusals` is between the clients of an engine and its sessions. Start with
//! `specs/Journal.antt`: the journal of all events, and its projections to the engine, to a session
//! and to a rule. `specs/Refusing.antt` defines the events that may happen (`MayPass`,
//! `MayRefusePacket`) and the invariants of each session (`IsServedHere`) and each rule
//! (`IsGivenRule`). `HasJournal` says that refusals have such a journal, which each method extends.
//! The engine is any implementation of `Sftp`. It has the journal's log (`log_of`), so its contract
//! applies to the bytes that it was fed. `specs/Rules.antt` defines the requests that a rule
//! matches.
//!
//! In the code, start with `Refusals::move_on` in `refusals.rt`: a session that waits for bytes
//! gets its next packet. `front.rt` decides on it, by the rules of `given.rt` and `rule.rt`, and
//! `passage.rt` passes it on or refuses it. The journal is ghost state.
#![tactic(auto)]

mod front;
mod given;
mod passage;
mod refusal_laws;
mod refusals;
mod rule;

pub use refusal_laws::{events_apart, without_rules};
pub use refusals::Refusals;
pub use rule::{RequestKind, Rule};
