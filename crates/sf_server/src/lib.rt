//! The command `serve` of `sftpd`: many sessions on one tree, at a Unix socket.
//!
//! Start with `server.rt`. It listens (`listening.rt`), accepts connections (`accepting.rt`), and
//! sends their streams (`socket_stream.rt`) to the workers of `sf_workers` through a channel. A
//! worker learns by its poller (`poller.rt`) which of its streams are ready, and that it is to take
//! one. What the threads share for that is in `worker_link.rt`. `refusals.rt` reports clients whose
//! sessions are refused. With `--sessions` the server then checks the history and prints the totals
//! (`totals.rt`). `log.rt` writes the log of `--log`, also for `stdio`, to a `log_output.rt`.
//! `loading.rt` loads a local folder through a session of its own. How sockets and files behave is
//! tested, not proved.
#![tactic(auto)]

pub mod accepting;
pub mod listening;
mod loading;
pub mod log;
mod log_output;
mod outage;
mod poller;
pub mod refusals;
pub mod server;
mod socket_stream;
pub mod totals;
mod worker_link;
