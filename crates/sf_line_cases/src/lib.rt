//! What no contract says of lines, without threads: a session has an engine of its own, and a line
//! and a clock whose bytes and times contracts know.
#![tactic(auto)]

#[cfg(test)]
mod alone;
