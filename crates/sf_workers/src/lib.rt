//! Workers: threads that serve sessions on one core, each worker many streams at once.
//!
//! Start with `serve_lines` in `lines.rt`. Each worker (`work` in `workers.rt`) has a source of
//! streams (`streams.rt`): streams of a channel, and a poller that reports which may be read or
//! written. In turn the worker handles what the source reports, and advances the open connection
//! (`connections.rt`) that became ready first (`ready.rt`). It serves one session over each stream
//! (`specs/Streams.antt`). Each stream comes with a ticket, so the number of streams that were
//! received is known (`tickets.rt`).
//!
//! At the end the core's history is a linearization of the sessions' calls
//! (`specs/Sessions.antt`). The bytes of a stream are its session's conversation in that history
//! (`specs/Conversations.antt`). `end_session` in `open_session.rt` also relates its session to
//! tokens, for real-time order.
#![tactic(auto)]

mod connections;
mod conversation_laws;
mod lines;
mod open_session;
mod ready;
mod sessions;
mod streams;
mod tickets;
mod workers;

pub use conversation_laws::one_promise;
pub use lines::{Ended, Outcome, serve_lines, serve_on_core};
pub use open_session::{
    EndedSession, OpenSession, Place, RefusedSession, advance_session, end_session,
};
pub use streams::{Event, Polled, Poller, Refusal, StreamSource};
pub use tickets::{Receipts, Sent, Tickets};
pub use workers::Tools;
