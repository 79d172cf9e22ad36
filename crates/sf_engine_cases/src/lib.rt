//! Tests of the engine's crates, for what no contract says.
//!
//! A contract lets most calls run out of memory. So each function that no program calls is called
//! here once: `promised.rt` uses an engine by the trait `Sftp`, and `plain.rt` the slow tree.
//! `capacity.rt` bounds the room of a trimmed history. `streams.rt` has streams that fail, and
//! `words.rt` the texts of errors. `threads.rt` has the types that may cross threads.
//!
//! Other tests need no proof: the program `replay` runs known schedules, and scripts run random
//! ones.
#![tactic(auto)]

#[cfg(test)]
mod capacity;
#[cfg(test)]
mod plain;
#[cfg(test)]
mod promised;
#[cfg(test)]
mod streams;
#[cfg(test)]
mod threads;
#[cfg(test)]
mod words;
