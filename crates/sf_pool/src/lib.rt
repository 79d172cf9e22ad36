//! Serves a session over a stream, with its calls on a core that threads share.
//!
//! Start with `SessionLane` in `session_lane.rt` (`specs/SessionLanes.antt`): a session's calls on
//! a core. `SharedLane` is a lane at a core under a mutex. Its `TranscriptLane` is the part without
//! the mutex, and agrees with the session's page. A lane has a token for a prefix of the history
//! (`sf_roll`): no call that begins is in it, and each call that is answered is.
//!
//! `LaneConnection` in `lane_connection.rt` serves a session over a non-blocking stream, so a thread
//! can serve many. `specs/LaneConnections.antt` states what is guaranteed.
#![tactic(auto)]

mod calling;
mod lane_connection;
mod lane_host;
mod observer;
mod session_lane;
mod shared_lane;
mod transcript_lane;
mod wait_queue;

pub use lane_connection::{LaneConnection, RefusedConnection};
pub use observer::StepObserver;
pub use session_lane::{Begin, SessionLane, StepResult};
pub use shared_lane::SharedLane;
pub use transcript_lane::{EndedLane, NotJoined, Stepped, TranscriptLane};
pub use wait_queue::WaitQueue;
