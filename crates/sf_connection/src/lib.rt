//! One session over a non-blocking stream.
//!
//! Start with `Connection::advance` in `connection.rt`. It does everything that is possible without
//! blocking on the stream (`stream.rt`), and returns what the connection waits for. Between two
//! calls nothing borrows the connection, and an idle one holds no buffer. The backend of the
//! session is a `Host` (`host.rt`): an engine (`sf_alone`), or a lane at a shared core (`sf_pool`).
//! A `CallObserver` (`observer.rt`) receives a session's calls.
//!
//! `specs/Connections.antt` states what is guaranteed: the bytes that passed are the session's, and
//! a connection that waits for input alone has written all its replies. `specs/Progress.antt` says
//! what was served when a session ends, and `specs/Ends.antt` how it ends.
//!
//! The steps of `advance` are in `connection/turning.rt`, its reads in `reading.rt` and its writes
//! in `writing.rt`. `Connection::serve` (`serving.rt`) serves one session alone: it advances, and
//! waits for its stream (`waiting.rt`). `LineStream` makes a blocking stream one that can be waited
//! for.
//!
//! A call may wait for another call on the shared state. This cannot deadlock, even if one thread
//! serves many connections. When `advance` returns, no call of the session is under way, and the
//! session holds nothing that others wait for. So a call waits only for a call that another thread
//! is executing.
#![tactic(auto)]

mod connection;
mod gathered;
mod host;
mod line_stream;
mod observer;
mod stream;
mod waiting;

pub use connection::{Connection, Wants, new_piece};
pub use host::{Host, SessionStep};
pub use line_stream::LineStream;
pub use observer::{CallObserver, NoObserver, ObservedCall};
pub use stream::Stream;
pub use waiting::{StreamCounts, WaitingStream};
