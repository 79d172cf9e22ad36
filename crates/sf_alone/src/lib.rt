//! One session of an engine, served over a stream.
//!
//! `serve_one` in `on_engine.rt` serves a session of an engine that may have other sessions. It
//! runs a `Connection` with the engine as backend. `specs/OnEngine.antt` states its
//! effect on the stream, the clock and the engine. `serve_alone` in `own_engine.rt` creates an
//! engine for one session, so its contract is about bytes and timestamps only (`specs/Talks.antt`).
#![tactic(auto)]

mod on_engine;
mod own_engine;

pub use on_engine::{EngineHost, serve_one};
pub use own_engine::serve_alone;
