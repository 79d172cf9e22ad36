//! What no contract says of connections: over a stream in memory that blocks where a script says.
//!
//! `scripted.rt` has the stream. In `cases.rt` a session of an engine is served over it.
#![tactic(auto)]

#[cfg(test)]
mod cases;
#[cfg(test)]
mod scripted;
