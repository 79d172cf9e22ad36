//! Where a worker gets streams, and learns which can be read or written.

ghost use Rattle.std.specs.Prelude.{◌≡◌, ◌+◌, [], ◌∷◌, length, true};
ghost use Rattle.sf_pool.specs.SessionLanes.{Notes};
ghost use Rattle.sf_workers.specs.Streams.{SourceView, arrived_by};

use crate::tickets::{Receipts, Sent};
use crossbeam_channel::{Receiver, TryRecvError};
use sf_pool::NotJoined;
use std::alloc::AllocError;
use std::sync::Wait;
use std::sync::ledger::Ledger;

/// What a source reports.
#[derive(Drop)]
pub enum Event<L> {
    /// A stream arrived.
    Arrived(L),
    /// The stream of this key may be read or written.
    Ready(usize),
    /// Nothing. Ask again.
    Nothing,
}

/// Why no session was served over a stream.
#[derive(Drop)]
pub enum Refusal {
    /// The worker has 256 connections.
    Full,
    OutOfMemory(AllocError),
    /// The stream can't be watched.
    Unwatched,
    /// The core refused the session.
    NotJoined(NotJoined),
}

/// Where a worker gets streams, learns which are ready, and returns them.
pub trait StreamSource<L> {
    /// The streams so far.
    ghost view: { Self → SourceView L };

    /// No more streams will arrive.
    ghost closed: { Self → Type 0 };

    /// What happens next. If `waits`, it may wait until something happens.
    fn next(&mut self, waits: bool) -> Event<L>
        ensures received { Notes (view self.old).received (view self.new).received
            (arrived_by result) }
        ensures counted { (view self.new).count ≡ (view self.old).count
            + length (arrived_by result) }
        ensures returned { (view self.new).returned ≡ (view self.old).returned };

    /// Whether no more streams will arrive.
    fn is_closed(&self) -> bool
        ensures { result ≡ true → closed self.now };

    /// Watches a stream, and reports it as ready under this key once it can be read or written
    /// again. Returns false if it can't.
    fn watch(&mut self, stream: &L, key: usize) -> bool
        ensures { view self.new ≡ view self.old };

    /// Takes a stream back, and closes it: after its session, or because it was refused.
    fn give_back(&mut self, stream: L, refusal: Option<Refusal>)
        ensures received { (view self.new).received ≡ (view self.old).received }
        ensures count { (view self.new).count ≡ (view self.old).count }
        ensures returned { Notes (view self.old).returned (view self.new).returned (stream ∷ []) };
}

/// What a poller reports.
#[derive(Clone, Copy, Debug, PartialEq, Eq)]
pub enum Polled {
    /// The stream of this key may be read or written.
    Ready(usize),
    /// Streams may have been sent, or the channel was closed.
    Woken,
    /// Nothing. Ask again.
    Nothing,
}

/// Polls the streams of one worker.
pub trait Poller<L> {
    /// What is ready. If `waits`, it may wait until something is.
    fn poll(&mut self, waits: bool) -> Polled;

    /// Whether the worker takes another stream now.
    fn takes_more(&self) -> bool {
        true
    }

    /// Watches a stream under this key. Returns false if it can't.
    fn watch(&mut self, stream: &L, key: usize) -> bool;

    /// Closes a stream: after its session, or because it was refused.
    fn close(&mut self, stream: L, refusal: Option<Refusal>);
}

/// The streams of a channel, until it is closed and empty, and the tickets of those received.
#[derive(Drop)]
pub(crate) struct ChannelStreams<'a, R, L, S: Ledger, P> {
    rt: &'a R,
    channel: &'a Receiver<Sent<L, S>>,
    poller: P,
    receipts: Receipts<S>,
    /// Streams may be in the channel.
    is_woken: bool,
    /// The channel is closed and empty.
    is_closed: bool,
}

impl<'a, R: Wait, L: Drop, S: Ledger, P> ChannelStreams<'a, R, L, S, P> {
    /// The streams that are still in the channel. `receipts` are the tickets of earlier ones.
    pub(crate) fn new(
        rt: &'a R,
        channel: &'a Receiver<Sent<L, S>>,
        poller: P,
        receipts: Receipts<S>,
    ) -> ChannelStreams<'a, R, L, S, P>
        ensures { result.receipts ≡ receipts }
    {
        ChannelStreams {
            rt,
            channel,
            poller,
            receipts,
            is_woken: true,
            is_closed: false,
        }
    }

    /// The tickets of the streams that were received.
    pub(crate) fn into_receipts(self) -> Receipts<S>
    where
        P: Drop,
        ensures { result ≡ self.entry.receipts }
    {
        let ChannelStreams {
            rt: _,
            channel: _,
            poller: _poller,
            receipts,
            is_woken: _,
            is_closed: _,
        } = self;
        receipts
    }
}

impl<R: Wait, L: Drop, S: Ledger, P: Poller<L>> ChannelStreams<'_, R, L, S, P> {
    /// The next stream of the channel.
    fn receive(&mut self) -> Event<L>
        ensures { self.new.receipts ≡ self.old.receipts + length (arrived_by result) }
    {
        match self.receipts.receive(self.rt, self.channel) {
            Ok(stream) => Event::Arrived(stream),
            Err(error) => {
                self.is_woken = false;
                self.is_closed = error == TryRecvError::Disconnected;
                Event::Nothing
            }
        }
    }
}

impl<R: Wait, L: Drop, S: Ledger, P: Poller<L>> StreamSource<L> for ChannelStreams<'_, R, L, S, P> {
    ghost use Rattle.std.specs.Prelude.{◌≡◌, None, true};

    // A contract can't say which streams pass through a channel. Their tickets show how many.
    ghost view = { λ s. record { received = None; returned = None; count = s.receipts } };

    ghost closed = { λ s. s.is_closed ≡ true };

    fn next(&mut self, waits: bool) -> Event<L> {
        if self.is_woken && self.poller.takes_more() {
            return self.receive();
        }
        match self.poller.poll(waits) {
            Polled::Ready(key) => Event::Ready(key),
            Polled::Woken => {
                self.is_woken = true;
                Event::Nothing
            }
            Polled::Nothing => Event::Nothing,
        }
    }

    fn is_closed(&self) -> bool {
        self.is_closed
    }

    fn watch(&mut self, stream: &L, key: usize) -> bool {
        self.poller.watch(stream, key)
    }

    fn give_back(&mut self, stream: L, refusal: Option<Refusal>) {
        self.poller.close(stream, refusal);
    }
}
