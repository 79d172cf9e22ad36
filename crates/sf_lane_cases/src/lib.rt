//! What no contract says of sessions at a lane: those of one thread take turns on one core, and none
//! waits for another.
//!
//! `memory_stream.rt` has their streams. `turns.rt` has two sessions that pipeline many requests.
#![tactic(auto)]

#[cfg(test)]
mod memory_stream;
#[cfg(test)]
mod turns;
