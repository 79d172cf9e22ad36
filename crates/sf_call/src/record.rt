//! Records of a history.

use crate::request::Request;
use sf_reply::Reply;

/// A record: a call with its reply, or the end of a session. `moment` is a timestamp in seconds
/// since 1970.
#[derive(Debug, Drop)]
pub enum Record {
    Did {
        number: u64,
        session: u64,
        moment: u32,
        request: Request,
        reply: Reply,
    },
    Left {
        session: u64,
    },
}
