//! Pipelining: requests are sent before the replies to earlier ones arrive.

ghost use Rattle.std.specs.Prelude.{◌≡◌, ◌≢◌, ◌+◌, ◌-◌, ◌<◌, ◌≤◌, ◌^◌, length, true, false, Some, None};
ghost use Rattle.sf_request.specs.Requests.{request_body};
ghost use Rattle.sf_client.specs.declared.fault.ClientFault.TheVariants as fault;
ghost use Rattle.sf_client.specs.Exchanges.{id_after};
ghost use Rattle.sf_client.specs.Ahead.{MaySendMore, Misses, KeepsReply, SendsOn, TakesOn, most_ahead, sender};

use crate::client::{Client, id_following};
use crate::fault::ClientFault;
use crate::pending::{PendingReply, refusal};
use sf_line::Line;
use sf_reply::Reply;
use sf_request::WireRequest;

/// The maximum number of requests in flight.
const MOST: u32 = 64;

/// The requests in flight, oldest first.
#[derive(Clone, Copy, Debug, PartialEq, Eq)]
pub(crate) struct Ahead {
    /// The id of the next request.
    pub(crate) id: u32,
    /// The number of pending replies.
    pub(crate) waiting: u32,
    /// The number of these, oldest first, that are discarded on arrival.
    pub(crate) dropped: u32,
    /// The error after which no more requests are sent.
    pub(crate) stopped: Option<ClientFault>,
}

impl Ahead {
    /// No request is in flight.
    pub(crate) fn from_id(id: u32) -> Ahead
        ensures { result ≡ record { id = id; waiting = 0; dropped = 0; stopped = None } }
    {
        Ahead {
            id,
            waiting: 0,
            dropped: 0,
            stopped: None,
        }
    }

    /// Whether another request may be sent.
    pub(crate) fn has_room(&self) -> bool
        ensures room { result ≡ true → MaySendMore self.now }
        ensures none { result ≡ false → self.now.waiting ≡ 0 → self.now.dropped ≡ 0
            → self.now.stopped ≢ None }
    {
        self.waiting < MOST && self.dropped == 0 && self.stopped.is_none()
    }

    /// Whether another READ may be sent at this offset. Beyond the expected size only one is in
    /// flight.
    pub(crate) fn has_room_at(&self, offset: u64, expected: u64) -> bool
        ensures room { result ≡ true → MaySendMore self.now }
        ensures none { result ≡ false → self.now.waiting ≡ 0 → self.now.dropped ≡ 0
            → self.now.stopped ≢ None }
    {
        self.has_room() && (self.waiting == 0 || offset <= expected)
    }

    /// Discards the replies that are still pending.
    pub(crate) fn drop_waiting(&mut self)
        ensures { self.new ≡ record self.old { dropped = self.old.waiting } }
    {
        self.dropped = self.waiting;
    }

    /// Stops sending, and discards the replies that are still pending.
    pub(crate) fn stop(&mut self, fault: ClientFault)
        ensures { self.new ≡ record self.old { dropped = self.old.waiting; stopped = Some fault } }
    {
        self.dropped = self.waiting;
        self.stopped = Some(fault);
    }

    /// Counts another request in flight.
    fn add(&mut self)
        requires { self.old.waiting < most_ahead }
        ensures { self.new
            ≡ record self.old { id = id_after self.old.id; waiting = self.old.waiting + 1 } }
    {
        self.id = id_following(self.id);
        self.waiting += 1;
    }

    /// Handles a reply. It returns `None` if the reply is discarded or is an error status.
    fn kept(&mut self, reply: Reply) -> Option<Reply>
        requires { 0 < self.old.waiting }
        ensures { KeepsReply self.old reply result self.new }
    {
        self.waiting -= 1;
        if self.dropped > 0 {
            self.dropped -= 1;
            return None;
        }
        match refusal(&reply) {
            None => Some(reply),
            Some(code) => {
                self.stop(ClientFault::Status(code));
                None
            }
        }
    }

    /// Handles a reply that could not be copied because memory ran out.
    fn missed(&mut self)
        requires { 0 < self.old.waiting }
        ensures { Misses fault.OutOfMemory self.old self.new }
    {
        self.waiting -= 1;
        if self.dropped > 0 {
            self.dropped -= 1;
        } else {
            self.stop(ClientFault::OutOfMemory);
        }
    }
}

impl<L: Line + Drop> Client<L> {
    /// Sends a request without waiting for its reply. It returns `false` if memory ran out.
    pub(crate) fn send_on(
        &mut self,
        ahead: &mut Ahead,
        request: &WireRequest,
    ) -> Result<bool, ClientFault>
        requires short { length (request_body ahead.old.id request.now) < 2 ^ 32 }
        requires room { ahead.old.waiting < most_ahead }
        ensures { SendsOn (sender self.old ahead.old) request.now result
            (sender self.new ahead.new) }
    {
        match self.send_request(ahead.id, request) {
            Ok(()) => {
                ahead.add();
                Ok(true)
            }
            Err(ClientFault::OutOfMemory) => {
                ahead.stop(ClientFault::OutOfMemory);
                Ok(false)
            }
            Err(fault) => Err(fault),
        }
    }

    /// Receives the oldest pending reply. It returns `None` if the reply is discarded, is an error
    /// status, or could not be copied because memory ran out.
    pub(crate) fn take_on(
        &mut self,
        ahead: &mut Ahead,
        pending: PendingReply,
    ) -> Result<Option<Reply>, ClientFault>
        requires { 0 < ahead.old.waiting }
        ensures { TakesOn (sender self.old ahead.old) pending result (sender self.new ahead.new) }
    {
        match self.take_reply(pending) {
            Ok(reply) => Ok(ahead.kept(reply)),
            Err(ClientFault::OutOfMemory) => {
                ahead.missed();
                Ok(None)
            }
            Err(fault) => Err(fault),
        }
    }
}
