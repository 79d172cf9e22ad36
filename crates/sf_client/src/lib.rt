//! A client of SFTP version 3, over a blocking transport.
//!
//! Start with `Client::start` in `client.rt`, which opens a session, and the calls of a single
//! request in `calls.rt`. `Comes` in `specs/Outcomes.antt` defines their outcome. `get`, `put` and
//! `list` in `files.rt` pipeline their requests: `DoesCall` in `specs/Calls.antt` defines their
//! outcome, and `ByHandle` their exchanges. An exchange is a request and the reply received for it
//! (`specs/Exchanges.antt`). `specs/Pending.antt` defines the expected replies. After a transport
//! error or an unexpected reply every call returns `Failed`. Internally, `Ahead` counts the
//! requests in flight.
#![tactic(auto)]

mod ahead;
mod calls;
mod client;
mod fault;
mod files;
mod lines;
mod pending;

pub use client::{Client, NotStarted};
pub use fault::ClientFault;
