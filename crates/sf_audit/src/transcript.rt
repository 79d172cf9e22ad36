//! The calls of a session and their replies.

use sf_call::{Answer, Request};

/// A request and its answer.
#[derive(Debug, Drop)]
pub struct AnsweredCall {
    pub request: Request,
    pub answer: Answer,
}

/// The calls of a session, with the replies that it received.
#[derive(Debug, Drop)]
pub struct Transcript {
    /// 0 if the session never joined.
    pub session: u64,
    /// In call order.
    pub calls: Vec<AnsweredCall>,
}
