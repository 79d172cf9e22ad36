//! The text lines of the server's log.
//!
//! Start with `LogLine` in `line.rt`: one line for each session that joined, was refused or ended,
//! and for each answered call. `Display` formats it, and `specs/Lines.antt` defines its bytes. Paths are
//! escaped, and of data and names only the number is logged. So a line's only newline is its last
//! byte. `WaitingLines` in `waiting.rt` are lines that an output didn't accept yet.
#![tactic(auto)]

mod line;
mod path;
mod reply;
mod request;
mod waiting;

pub use line::{LogLine, write_line};
pub use waiting::{MOST_WAITING, WaitingLines};
