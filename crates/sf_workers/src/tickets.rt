//! Streams on their way to workers, each with a ticket.
//!
//! A ticket is a part of a ledger. It takes no memory and can't be copied, and only a received
//! stream brings one. So a worker has as many tickets as it received streams.

ghost use Rattle.std.specs.Prelude.{◌≡◌, ◌+◌, ◌-◌, ◌^◌, ℕ, min, true, false, OnOk, OnErr};

use crossbeam_channel::{Receiver, Sender, TryRecvError};
use std::marker::Model;
use std::sync::Wait;
use std::sync::ledger::{Blank, Ledger, Share};

/// A stream with its ticket.
#[derive(Drop)]
pub struct Sent<L, S: Ledger> {
    stream: L,
    ticket: Share<S>,
    ghost one: { ticket.parts ≡ 1 },
    ghost none: { ticket.amount ≡ 0 },
}

/// The tickets that are left, of 2^64 - 1. Contracts see their number.
#[derive(Drop)]
pub struct Tickets<S: Ledger> {
    left: u64,
    share: Share<S>,
}

impl<S: Ledger> Model for Tickets<S> {
    ghost Value = { ℕ };

    ghost view = { λ t. t.left };

    ghost invariant = { λ t. (t.share.parts ≡ t.left) × (t.share.amount ≡ 0) };
}

/// The tickets of streams that were received. Contracts see their number.
#[derive(Drop)]
pub struct Receipts<S: Ledger> {
    /// Their number, up to 2^64 - 1.
    count: u64,
    share: Share<S>,
}

impl<S: Ledger> Model for Receipts<S> {
    ghost Value = { ℕ };

    ghost view = { λ r. r.share.parts };

    ghost invariant = { λ r. (r.count ≡ min r.share.parts (2 ^ 64 - 1)) × (r.share.amount ≡ 0) };
}

impl<S: Ledger> Tickets<S> {
    /// All tickets of a new ledger.
    pub fn open(blank: Blank) -> Tickets<S>
        requires name { blank.name ≡ S.name }
        requires parts { (blank.parts ≡ S.parts) × (S.parts ≡ 2 ^ 64 - 1) }
    {
        let (_book, share) = blank.open::<S>();
        Tickets {
            left: u64::MAX,
            share,
        }
    }

    /// Sends a stream with a ticket, and returns whether it did. It doesn't if there are no
    /// receivers.
    pub fn send<R: Wait, L: Drop>(
        &mut self,
        rt: &R,
        channel: &Sender<Sent<L, S>>,
        stream: L,
    ) -> bool
        ensures sent { result ≡ true → self.new + 1 ≡ self.old }
        ensures unsent { result ≡ false → self.new ≡ self.old }
    {
        let Tickets { left, share } = self;
        if *left == 0 {
            return false;
        }
        let ticket = share.split_off(1, 0);
        let refused = match channel.send(rt, Sent { stream, ticket }) {
            Ok(()) => None,
            Err(error) => Some(error.into_inner()),
        };
        match refused {
            None => {
                *left -= 1;
                true
            }
            Some(sent) => {
                share.merge(sent.ticket);
                false
            }
        }
    }

    /// No receipts.
    pub fn no_receipts(&mut self) -> Receipts<S>
        ensures none { result ≡ 0 }
        ensures same { self.new ≡ self.old }
    {
        Receipts {
            count: 0,
            share: self.share.empty(),
        }
    }

    /// Whether each stream that was sent was received, and they are this many.
    pub fn are_back(self, receipts: Receipts<S>, streams: u64) -> bool
        requires { S.parts ≡ 2 ^ 64 - 1 }
        ensures { result ≡ true → receipts ≡ streams }
    {
        let Tickets { left, mut share } = self;
        let Receipts {
            count,
            share: received,
        } = receipts;
        share.merge(received);
        count == u64::MAX - left && count == streams
    }
}

impl<S: Ledger> Receipts<S> {
    /// No receipts.
    pub fn no_more(&mut self) -> Receipts<S>
        ensures none { result ≡ 0 }
        ensures same { self.new ≡ self.old }
    {
        Receipts {
            count: 0,
            share: self.share.empty(),
        }
    }

    /// Takes over the receipts of another worker.
    pub fn merge(&mut self, other: Receipts<S>)
        ensures { self.new ≡ self.old + other }
    {
        let Receipts { count, share } = self;
        let Receipts {
            count: more,
            share: theirs,
        } = other;
        share.merge(theirs);
        *count = count.saturating_add(more);
    }

    /// Receives a stream, and keeps its ticket. There may be none yet, or the channel is closed and
    /// empty.
    pub fn receive<R: Wait, L: Drop>(
        &mut self,
        rt: &R,
        channel: &Receiver<Sent<L, S>>,
    ) -> Result<L, TryRecvError>
        ensures ok { OnOk result (self.new ≡ self.old + 1) }
        ensures err { OnErr result (self.new ≡ self.old) }
    {
        let Receipts { count, share } = self;
        let Sent { stream, ticket } = channel.try_recv(rt)?;
        share.merge(ticket);
        *count = count.saturating_add(1);
        Ok(stream)
    }
}
