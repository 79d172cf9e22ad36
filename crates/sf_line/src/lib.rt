//! Byte transports: the trait `Line`, over memory and over streams.
//!
//! Start with `Line`: its clauses state what a read returns, what a write accepts, and that an
//! error transfers no byte. An implementation may expose its input and output (`incoming`,
//! `outgoing`) and its log of calls (`calls`); `specs/Lines.antt` states properties of calls and of
//! the error count. `MemoryLine` exposes all of these and transfers chunks of chosen sizes
//! (`specs/MemoryLines.antt`). `StreamLine` wraps any reader and writer, exposes what they do, and
//! logs no calls (`specs/StreamLines.antt`).
#![tactic(auto)]

mod line;
mod line_call;
mod memory_line;
mod stream_line;

pub use line::{Line, LineFault, write_all};
pub use line_call::LineCall;
pub use memory_line::{MemoryLine, Pieces};
pub use stream_line::StreamLine;
