//! Command-line parsing for `sftpd`.
//!
//! Start with `Action` and `read_words` in `words.rt`, which uses `clap`. `command.rt` defines the
//! commands of `sftpd client`.
#![tactic(auto)]

mod command;
mod words;

pub use command::ClientCommand;
pub use words::{Action, RefusedWords, Serving, Stdio, read_words};
