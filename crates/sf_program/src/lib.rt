//! The commands `stdio`, `connect` and `client` of `sftpd`. `sf_words` reads the command line, and
//! `sf_server` has the command `serve`.
//!
//! Start with `stdio.rt`, which serves one session on standard input and output. Its contract and
//! `specs/Statuses.antt` define the exit status and the message of each way to end. `loading.rt`
//! loads a local folder into the tree first. `connection.rt` copies standard input and output to
//! and from a socket. `client.rt` runs one command on a server, and shows names by `terminal.rt`.
//! `descriptors.rt` and `output.rt` implement the stream of a session on two descriptors. How the
//! system's descriptors move bytes is tested, not proved.
#![tactic(auto)]

pub mod client;
pub mod connection;
pub mod descriptors;
pub mod loading;
pub mod output;
pub mod reporting;
pub mod stdio;
mod terminal;
