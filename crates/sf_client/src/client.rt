//! The client, and the exchange of one request and its reply.

ghost use Rattle.std.specs.Prelude.{◌≡◌, ◌≢◌, ◌+◌, ◌<◌, ◌≤◌, ◌^◌, ℕ, length, true, false, Ok, Err, IfOk, IfErr, OnOk, OnErr, vec_len, ◌⊎◌, None};
ghost use Rattle.std.specs.Io.KnownBytes.{Consumes};
ghost use Rattle.sf_line.specs.Lines.{Rose};
ghost use Rattle.sf_field.specs.Fields.{be64, packet};
ghost use Rattle.sf_request.specs.declared.request.WireRequest.{WireRequest};
ghost use Rattle.sf_field.specs.declared.operation.HandleOp.TheVariants as handle_op;
ghost use Rattle.sf_request.specs.declared.request.WireRequest.TheVariants.{ByHandle};
ghost use Rattle.sf_request.specs.Requests.{request_body};
ghost use Rattle.sf_reply.specs.declared.reply.Reply.TheVariants.{Status};
ghost use Rattle.sf_reply.specs.declared.reply.StatusCode.TheVariants.{Success};
ghost use Rattle.sf_client.specs.Pending.{pending_of, is_answer};
ghost use Rattle.sf_client.specs.Exchanges.{id_after, IsGreeted, IsStarted, HasNoVersion, Sent};
ghost use Rattle.sf_client.specs.Outcomes.{Broke, Comes, MayNotStart, ReadsPending, Sends, SettlesRequest, TakesReply};

use crate::ahead::Ahead;
use crate::fault::ClientFault;
use crate::lines::read_packet;
use crate::pending::{PendingReply, find_pending, made, refusal};
use bytes::BytesMut;
use sf_field::MAX_BODY;
use sf_line::{Line, write_all};
use sf_reply::{Reply, is_version};
use sf_request::{WireRequest, close_packet, init_packet, write_request};
use std::alloc::{AllocError, Global};
use std::marker::Model;

/// The id after this one.
pub(crate) fn id_following(id: u32) -> u32
    ensures { result ≡ id_after id }
{
    if id == u32::MAX { 0 } else { id + 1 }
}

/// The packet of a request.
fn packet_of(alloc: Global, id: u32, request: &WireRequest) -> Result<BytesMut, AllocError>
    requires { length (request_body id request.now) < 2 ^ 32 }
    ensures { IfOk result (λ bytes. bytes.items ≡ packet (request_body id request.now)) }
{
    let mut out = BytesMut::new(alloc);
    write_request(id, request, &mut out)?;
    Ok(out)
}

/// Reads the expected reply with this id.
fn read_pending<L: Line>(
    alloc: Global,
    line: &mut L,
    buffer: &mut [u8],
    id: u32,
    pending: PendingReply,
) -> Result<Reply, ClientFault>
    requires { length buffer.old ≡ MAX_BODY }
    ensures reads { ReadsPending (L.incoming line.old) (L.incoming line.new) id pending result }
    ensures outgoing { L.outgoing line.new ≡ L.outgoing line.old }
    ensures failures { L.failed line.old ≤ L.failed line.new }
    ensures fault { result ≡ Err ClientFault.Stream → Rose (L.failed line.old) (L.failed line.new) }
{
    let len = match read_packet(line, buffer) {
        Ok(Some(len)) => len,
        Ok(None) => return Err(ClientFault::Protocol),
        Err(_) => return Err(ClientFault::Stream),
    };
    let Some(found) = find_pending(&buffer[..len], id, pending) else {
        return Err(ClientFault::Protocol);
    };
    match made(alloc, found) {
        Ok(reply) => Ok(reply),
        Err(_) => Err(ClientFault::OutOfMemory),
    }
}

fn zeros(alloc: Global, len: usize) -> Result<Vec<u8>, AllocError>
    ensures { IfOk result (λ bytes. vec_len bytes ≡ len) }
{
    vec![in alloc; 0u8; len]
}

/// Sends INIT and receives VERSION.
fn greet<L: Line>(line: &mut L, buffer: &mut [u8]) -> Result<(), ClientFault>
    requires { length buffer.old ≡ MAX_BODY }
    ensures ok { OnOk result (IsGreeted (L.incoming line.old) (L.outgoing line.old)
        (L.incoming line.new) (L.outgoing line.new)) }
    ensures refused { result ≡ Err ClientFault.Protocol → HasNoVersion (L.incoming line.old) }
    ensures failures { L.failed line.old ≤ L.failed line.new }
    ensures fault { IfErr result (λ fault. ((fault ≡ ClientFault.Stream)
        × Rose (L.failed line.old) (L.failed line.new)) ⊎ (fault ≡ ClientFault.Protocol)) }
{
    if write_all(line, &init_packet()).is_err() {
        return Err(ClientFault::Stream);
    }
    let len = match read_packet(line, buffer) {
        Ok(Some(len)) => len,
        Ok(None) => return Err(ClientFault::Protocol),
        Err(_) => return Err(ClientFault::Stream),
    };
    if is_version(&buffer[..len]) {
        Ok(())
    } else {
        Err(ClientFault::Protocol)
    }
}

/// Why no session was opened, and the transport, in whatever state it is.
#[derive(Drop)]
pub struct NotStarted<L> {
    pub fault: ClientFault,
    pub line: L,
}

/// A client of one session. Calls of a single request send it and wait for its reply. Calls with a
/// handle (`get`, `put`, `list`) pipeline their requests, and receive all replies before they
/// return.
#[derive(Drop)]
pub struct Client<L: Line + Drop> {
    alloc: Global,
    line: L,
    /// The id of the oldest pending reply; if none is pending, of the next request.
    next: u32,
    /// The transport failed, or a reply was not the expected one.
    failed: bool,
    /// A buffer for the longest reply.
    body: Vec<u8>,
}

impl<L: Line + Drop> Model for Client<L> {
    ghost use Rattle.std.specs.Prelude.{◌≡◌, ◌<◌, ◌^◌, length};
    ghost use Rattle.sf_field.specs.Fields.{max_body};
    ghost use Rattle.sf_client.specs.Exchanges.{ClientView};

    ghost Value = { ClientView };

    ghost view = { λ c. record {
      next = c.next;
      failed = c.failed;
      incoming = L.incoming c.line;
      outgoing = L.outgoing c.line;
      failures = L.failed c.line;
    } };

    ghost invariant = { λ c. length c.body.items ≡ max_body };
}

impl<L: Line + Drop> Client<L> {
    /// Opens a session: sends INIT with version 3 and receives VERSION. An error returns the
    /// transport.
    pub fn start(alloc: Global, line: L) -> Result<Client<L>, NotStarted<L>>
        ensures ok { IfOk result (λ client. IsStarted (L.incoming line) (L.outgoing line) client) }
        ensures refused { IfErr result (λ no. no.fault ≡ ClientFault.Protocol
            → HasNoVersion (L.incoming line)) }
        ensures fault { IfErr result (λ no. MayNotStart no.fault (L.failed line)
            (L.failed no.line)) }
    {
        let mut line = line;
        let Ok(mut body) = zeros(alloc, MAX_BODY) else {
            let fault = ClientFault::OutOfMemory;
            return Err(NotStarted { fault, line });
        };
        match greet(&mut line, &mut body) {
            Ok(()) => Ok(Client {
                alloc,
                line,
                next: 1,
                failed: false,
                body,
            }),
            Err(fault) => Err(NotStarted { fault, line }),
        }
    }

    /// Whether the client has failed.
    pub(crate) fn has_failed(&self) -> bool
        ensures { result ≡ self.now.failed }
    {
        self.failed
    }

    /// The client's allocator.
    pub(crate) fn alloc(&self) -> Global {
        self.alloc
    }

    /// A pipeline without requests in flight.
    pub(crate) fn ahead(&self) -> Ahead
        ensures { result ≡ record { id = self.now.next; waiting = 0; dropped = 0; stopped = None } }
    {
        Ahead::from_id(self.next)
    }

    /// Marks the client as failed, so that nothing more is sent.
    fn fail(&mut self, fault: ClientFault) -> ClientFault
        ensures fault { result ≡ fault }
        ensures client { self.new ≡ record self.old { failed = true } }
    {
        self.failed = true;
        fault
    }

    /// Sends a packet.
    fn send(&mut self, packet: &[u8]) -> Result<(), ClientFault>
        ensures ok { OnOk result (Sent self.old packet.now self.new) }
        ensures fault { IfErr result (λ fault. fault ≡ ClientFault.Stream) }
        ensures err { OnErr result (Broke self.old self.new) }
    {
        match write_all(&mut self.line, packet) {
            Ok(()) => Ok(()),
            Err(_) => Err(self.fail(ClientFault::Stream)),
        }
    }

    /// Sends a request with this id, without waiting for its reply. If memory runs out nothing is
    /// sent.
    pub(crate) fn send_request(&mut self, id: u32, request: &WireRequest) -> Result<(), ClientFault>
        requires { length (request_body id request.now) < 2 ^ 32 }
        ensures { Sends self.old id request.now result self.new }
    {
        let Ok(packet) = packet_of(self.alloc, id, request) else {
            return Err(ClientFault::OutOfMemory);
        };
        self.send(packet.as_slice())
    }

    /// Receives the oldest pending reply.
    pub(crate) fn take_reply(&mut self, pending: PendingReply) -> Result<Reply, ClientFault>
        ensures { TakesReply self.old pending result self.new }
    {
        match read_pending(
            self.alloc,
            &mut self.line,
            &mut self.body,
            self.next,
            pending,
        ) {
            Ok(reply) => {
                self.next = id_following(self.next);
                Ok(reply)
            }
            Err(ClientFault::OutOfMemory) => {
                self.next = id_following(self.next);
                Err(ClientFault::OutOfMemory)
            }
            Err(fault) => Err(self.fail(fault)),
        }
    }

    /// Sends the packet of a request and receives its reply.
    fn settle(&mut self, bytes: &[u8], pending: PendingReply) -> Result<Reply, ClientFault>
        requires { self.old.failed ≡ false }
        ensures comes { (q : WireRequest) → bytes.now ≡ packet (request_body self.old.next q)
            → pending ≡ pending_of q → SettlesRequest (λ r. r) self.old q result self.new }
        ensures answer { IfOk result (λ r. is_answer pending r ≡ true) }
    {
        self.send(bytes)?;
        let reply = self.take_reply(pending)?;
        match refusal(&reply) {
            None => Ok(reply),
            Some(code) => Err(ClientFault::Status(code)),
        }
    }

    /// Sends a request and receives its reply.
    pub(crate) fn exchange(
        &mut self,
        request: &WireRequest,
        pending: PendingReply,
    ) -> Result<Reply, ClientFault>
        requires { length (request_body self.old.next request.now) < 2 ^ 32 }
        ensures comes { pending ≡ pending_of request.now
            → Comes (λ r. r) self.old request.now result self.new }
        ensures answer { IfOk result (λ r. is_answer pending r ≡ true) }
    {
        if self.failed {
            return Err(ClientFault::Failed);
        }
        let Ok(packet) = packet_of(self.alloc, self.next, request) else {
            return Err(ClientFault::OutOfMemory);
        };
        self.settle(packet.as_slice(), pending)
    }

    /// Closes a handle. Sending CLOSE doesn't allocate.
    pub(crate) fn close(&mut self, handle: u64) -> Result<(), ClientFault>
        requires { self.old.failed ≡ false }
        ensures { SettlesRequest (λ _. Status Success) self.old
            (ByHandle handle_op.Close (be64 handle)) result self.new }
    {
        let packet = close_packet(self.next, handle);
        self.settle(&packet, PendingReply::Success)?;
        Ok(())
    }
}
