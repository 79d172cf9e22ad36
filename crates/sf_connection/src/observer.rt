//! Observers of sessions and their calls.

use sf_call::Request;
use sf_reply::Reply;
use sf_session::{Cause, ServeFault};

/// A call with its reply.
#[derive(Clone, Copy)]
pub struct ObservedCall<'a> {
    pub session: u64,
    pub number: u64,
    /// When the call began, in seconds since 1970-01-01 UTC.
    pub moment: u32,
    pub request: &'a Request,
    pub reply: &'a Reply,
}

/// Receives an event for each session that joins or leaves, and for each call that is answered.
pub trait CallObserver {
    /// Whether `called` is wanted. While it runs, nothing that other sessions wait for is held.
    fn hears_calls(&self) -> bool {
        false
    }

    /// A session joined.
    fn joined(&self, _session: u64) {}

    /// A call was answered. Its reply may not have been sent yet.
    fn called(&self, _call: ObservedCall<'_>) {}

    /// A session that had joined is no longer served.
    fn left(&self, _session: u64, _outcome: Result<Cause, ServeFault>) {}
}

/// An observer that ignores all events.
#[derive(Clone, Copy, Debug)]
pub struct NoObserver;

impl CallObserver for NoObserver {}
