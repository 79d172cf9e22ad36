//! SFTP sessions: a client's bytes become calls, and the calls' replies become bytes.
//!
//! Start with `specs/Asking.antt`: what each body requires of its session (`AsksFor`), case by
//! case. `specs/Sessions.antt` defines a session's observable state and its operation `next`
//! (`NextGives`). Use a `Session` in turns: `feed` bytes and take the `next` packet. If it requires
//! a call, execute the call and `answer` it, or `refuse` it. `asking.rt` decodes a body, and
//! `calling.rt` copies the paths and data of a call. A session has no file system and no clock;
//! `Clock` is defined here for the callers that number the calls.
//!
//! This crate also defines what servers of sessions state: replies (`specs/Responses.antt`),
//! progress (`SessionState`, `specs/SessionStates.antt`), and the input and output of a single
//! session (`specs/Conversation.antt`).
#![tactic(auto)]

mod asking;
mod calling;
mod cause;
mod clock;
mod fault;
mod front;
mod limit_laws;
mod local_reply;
mod session;
mod unread;

pub use asking::Ask;
pub use cause::Cause;
pub use clock::Clock;
pub use fault::ServeFault;
pub use limit_laws::sent_limits;
pub use local_reply::LocalReply;
pub use session::{Next, Session, SessionFault};
