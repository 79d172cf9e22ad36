//! What no contract says of the threads that serve streams on one core.
//!
//! In `many.rt` one worker serves many clients. In `scenes.rt` clients and calls wait for each
//! other, and whoever waits is woken. `scenes/script.rt` says what they wait for.
//! `scenes/client.rt` has the clients' streams. `crossing.rt` has the types that cross threads.
#![tactic(auto)]

#[cfg(test)]
mod crossing;
#[cfg(test)]
mod many;
#[cfg(test)]
mod scenes;
