//! Waits until streams of a worker are ready, or are sent to it.

use crate::listening::pause;
use crate::refusals::{ClientObserver, Refusals};
use crate::socket_stream::SocketStream;
use crate::worker_link::{WAKE, WorkerLink, WorkerLinks};
use mio::{Events, Poll, Token};
use sf_call::JoinFault;
use sf_program::reporting::report;
use sf_workers::{Polled, Poller, Refusal};
use std::alloc::AllocError;
use std::sync::Wait;
use std::time::Duration;

/// The most events that one poll reports.
const EVENTS: usize = 64;

/// What one worker learns from the system and from the accepting thread.
///
/// First it reports all events of the last poll, then one stream may be taken, and then it polls
/// again. So neither many clients that come nor many that send keep the others waiting.
#[derive(Drop)]
pub(crate) struct SocketPoller<'a, T, G> {
    rt: &'a HostRuntime,
    links: &'a WorkerLinks,
    link: &'a WorkerLink,
    /// The worker's index.
    worker: usize,
    path: &'a str,
    refusals: &'a Refusals<'a, T, G>,
    poll: Poll,
    /// The events of the last poll.
    events: Events,
    /// How many of these were reported.
    reported: usize,
    /// All watched keys are below this one.
    keys: usize,
    /// The streams with keys below this one may be ready.
    untried: usize,
    /// When all streams were last tried because of the idle timeout, in seconds.
    tried_at: u64,
    /// A stream was taken since the last poll.
    has_taken: bool,
    /// A call that was not to wait has returned without a poll since the last one.
    has_skipped: bool,
}

impl<'a, T: Wait, G: ClientObserver> SocketPoller<'a, T, G> {
    /// The poller of a worker that has not begun.
    pub(crate) fn new(
        rt: &'a HostRuntime,
        path: &'a str,
        links: &'a WorkerLinks,
        link: &'a WorkerLink,
        worker: usize,
        refusals: &'a Refusals<'a, T, G>,
        poll: Poll,
    ) -> Result<SocketPoller<'a, T, G>, AllocError> {
        Ok(SocketPoller {
            rt,
            links,
            link,
            worker,
            path,
            refusals,
            poll,
            events: Events::with_capacity(rt.alloc(), EVENTS)?,
            reported: 0,
            keys: 0,
            untried: 0,
            tried_at: 0,
            has_taken: false,
            has_skipped: false,
        })
    }

    /// The key of a stream that may be ready since the last poll.
    fn next_key(&mut self) -> Option<usize> {
        if self.untried > 0 {
            self.untried -= 1;
            return Some(self.untried);
        }
        match self.next_token() {
            // The waker has one event at most.
            Some(WAKE) => self.next_token(),
            token => token,
        }
    }

    /// The token of the next event.
    fn next_token(&mut self) -> Option<usize> {
        let token = self.events.iter().nth(self.reported)?.token();
        self.reported = self.reported.saturating_add(1);
        Some(token.0)
    }

    /// How long a poll waits. With an idle timeout all streams are tried each second.
    fn timeout(&self, waits: bool) -> Option<Duration> {
        match (waits, self.links.has_idle_timeout()) {
            (false, _) => Some(Duration::ZERO),
            (true, true) => Some(Duration::from_secs(1)),
            (true, false) => None,
        }
    }

    /// Tries all streams if the last time was a second ago.
    fn try_idle_ones(&mut self) {
        let now = self.links.note_time(self.rt);
        if now != self.tried_at {
            self.tried_at = now;
            self.untried = self.keys;
        }
    }

    /// Polls, and waits for an event if `waits`. If that fails, each stream is tried. A wait that
    /// fails takes a while, so it does not spin.
    fn ask(&mut self, waits: bool) {
        self.reported = 0;
        let timeout = self.timeout(waits);
        match self.poll.poll(&mut self.events, timeout) {
            Ok(()) => {
                let has_hung_up = self
                    .events
                    .iter()
                    .any(|event| event.is_read_closed() || event.is_error());
                self.link.note_poll(has_hung_up);
            }
            Err(_) => {
                self.link.note_poll(true);
                self.untried = self.keys;
                if waits {
                    pause(self.rt);
                }
            }
        }
        if self.links.are_ending() {
            self.untried = self.keys;
        } else if self.links.has_idle_timeout() {
            self.try_idle_ones();
        }
    }

    /// Whether the last poll reported that the worker was woken.
    fn was_woken(&self) -> bool {
        self.events.iter().any(|event| event.token() == Token(WAKE))
    }

    /// The worker has taken a stream.
    fn note_taken(&mut self) {
        self.has_taken = true;
        self.link.take_stream();
    }

    /// Reports why a client was refused. That its stream can't be watched was reported.
    fn report_refusal(&self, refusal: &Refusal) {
        match refusal {
            Refusal::Full => self.refusals.report(JoinFault::Sessions),
            Refusal::OutOfMemory(_) => self.refusals.report(JoinFault::OutOfMemory),
            Refusal::NotJoined(refused) => self.refusals.report(refused.fault()),
            Refusal::Unwatched => {}
        }
    }
}

impl<'a, T: Wait, G: ClientObserver> Poller<SocketStream<'a>> for SocketPoller<'a, T, G> {
    fn poll(&mut self, waits: bool) -> Polled {
        if let Some(key) = self.next_key() {
            return Polled::Ready(key);
        }
        // Another connection is about to be advanced. Every second time others get a chance.
        if !waits && !self.has_skipped {
            self.has_skipped = true;
            return Polled::Nothing;
        }
        // What is offered after this wakes the poller.
        self.link.begin();
        // After one stream there may be more.
        let may_take = self.has_taken || self.link.has_offers();
        self.ask(waits && !may_take);
        self.has_taken = false;
        self.has_skipped = false;
        if self.was_woken() || self.link.has_offers() {
            return Polled::Woken;
        }
        match self.next_key() {
            Some(key) => Polled::Ready(key),
            None => Polled::Nothing,
        }
    }

    fn takes_more(&self) -> bool {
        // Once all were sent, the worker takes what is left, and learns that there are no more.
        !self.has_taken && (self.link.has_offers() || self.links.are_all_sent())
    }

    fn watch(&mut self, stream: &SocketStream<'a>, key: usize) -> bool {
        self.note_taken();
        match stream.watch(self.worker, key) {
            Ok(()) => {
                self.keys = self.keys.max(key.saturating_add(1));
                true
            }
            Err(error) => {
                report(self.rt, "cannot watch", self.path, &error);
                false
            }
        }
    }

    fn close(&mut self, _stream: SocketStream<'a>, refusal: Option<Refusal>) {
        if let Some(refusal) = refusal {
            // Without room for it the stream was not watched.
            if matches!(refusal, Refusal::Full | Refusal::OutOfMemory(_)) {
                self.note_taken();
            }
            self.report_refusal(&refusal);
        }
        self.link.close_stream();
    }
}
