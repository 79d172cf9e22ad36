//! A server at the other end of a stream.

ghost use Rattle.std.specs.Prelude.{◌≡◌, ◌≤◌, true, IfOk, OnOk, IfSome, vec_len};
ghost use Rattle.std.specs.Io.KnownBytes.{Appends, Consumes};
ghost use Rattle.sf_field.specs.Fields.{be32, packet};
ghost use Rattle.sf_request.specs.Requests.{request_body, init_body};
ghost use Rattle.sf_reply.specs.Replies.{reply_body, version_body};
ghost use Rattle.sf_trees.specs.Lengths.{id};

use bytes::BytesMut;
use sf_field::MAX_BODY;
use sf_line::{Line, LineFault, write_all};
use sf_reply::{Reply, is_version, read_reply};
use sf_request::{WireRequest, init_packet, write_request};
use sf_trees::{Server, TreeFault, is_too_long};
use std::alloc::{AllocError, Global};
use std::marker::Model;

/// The id of each request; only one is pending at a time.
const ID: u32 = 1;

/// A server at the other end of a stream, with one session. The session ends with the stream.
#[derive(Drop)]
pub struct LineServer<L: Line + Drop> {
    alloc: Global,
    line: L,
}

impl<L: Line + Drop> Model for LineServer<L> {
    ghost use Rattle.sf_loading.specs.Lines.{ServerLineView};

    ghost Value = { ServerLineView };

    ghost view = { λ s. record { incoming = L.incoming s.line; outgoing = L.outgoing s.line } };
}

impl<L: Line + Drop> LineServer<L> {
    /// A server at the other end of a stream on which nothing was sent yet.
    pub fn new(alloc: Global, line: L) -> LineServer<L>
        ensures { result ≡ record { incoming = L.incoming line; outgoing = L.outgoing line } }
    {
        LineServer { alloc, line }
    }
}

/// Fills the buffer. Returns false if the input ends before.
fn fill<L: Line>(line: &mut L, buffer: &mut [u8]) -> Result<bool, LineFault>
    ensures full { IfOk result (λ full. full ≡ true
        → Consumes (L.incoming line.old) (L.incoming line.new) buffer.new) }
    ensures outgoing { L.outgoing line.new ≡ L.outgoing line.old }
{
    let mut filled = 0;
    while filled < buffer.len() {
        let n = line.read(&mut buffer[filled..])?;
        if n == 0 {
            return Ok(false);
        }
        filled += n;
    }
    Ok(true)
}

/// Whether the buffer could be filled.
fn fills<L: Line>(line: &mut L, buffer: &mut [u8]) -> bool
    ensures full { result ≡ true → Consumes (L.incoming line.old) (L.incoming line.new) buffer.new }
    ensures outgoing { L.outgoing line.new ≡ L.outgoing line.old }
{
    match fill(line, buffer) {
        Ok(full) => full,
        Err(_) => false,
    }
}

/// The length of a body by its four-byte header, if it isn't too long.
fn body_len(header: &[u8; 4]) -> Option<usize>
    ensures { IfSome result (λ n. (n ≤ MAX_BODY) × (header.now ≡ be32 n)) }
{
    let len = u32::from_be_bytes(*header) as usize;
    if len > MAX_BODY { None } else { Some(len) }
}

fn zeros(alloc: Global, len: usize) -> Result<Vec<u8>, AllocError>
    ensures { IfOk result (λ bytes. vec_len bytes ≡ len) }
{
    vec![in alloc; 0u8; len]
}

/// Reads the body of the next packet.
fn read_body<L: Line>(alloc: Global, line: &mut L) -> Result<Vec<u8>, TreeFault>
    ensures read { IfOk result (λ body. Consumes (L.incoming line.old) (L.incoming line.new)
        (packet body.items)) }
    ensures outgoing { L.outgoing line.new ≡ L.outgoing line.old }
{
    let mut header = [0u8; 4];
    if !fills(line, &mut header) {
        return Err(TreeFault::Reply);
    }
    let Some(len) = body_len(&header) else {
        return Err(TreeFault::Reply);
    };
    let Ok(mut body) = zeros(alloc, len) else {
        return Err(TreeFault::OutOfMemory);
    };
    if !fills(line, &mut body) {
        return Err(TreeFault::Reply);
    }
    Ok(body)
}

/// The packet of a request.
fn packet_of(alloc: Global, request: &WireRequest) -> Result<BytesMut, TreeFault>
    ensures { IfOk result (λ bytes. bytes.items ≡ packet (request_body id request.now)) }
{
    if is_too_long(request) {
        return Err(TreeFault::Path);
    }
    let mut out = BytesMut::new(alloc);
    match write_request(ID, request, &mut out) {
        Ok(()) => Ok(out),
        Err(_) => Err(TreeFault::OutOfMemory),
    }
}

/// Receives one reply.
fn take<L: Line>(alloc: Global, line: &mut L) -> Result<Reply, TreeFault>
    ensures ok { IfOk result (λ r. Consumes (L.incoming line.old) (L.incoming line.new)
        (packet (reply_body id r))) }
    ensures outgoing { L.outgoing line.new ≡ L.outgoing line.old }
{
    let body = read_body(alloc, line)?;
    match read_reply(alloc, &body) {
        Ok(Some((found, reply))) => {
            if found == ID {
                return Ok(reply);
            }
            Err(TreeFault::Reply)
        }
        Ok(None) => Err(TreeFault::Reply),
        Err(_) => Err(TreeFault::OutOfMemory),
    }
}

/// Sends a request, and receives its reply.
fn exchange<L: Line>(alloc: Global, line: &mut L, request: &WireRequest) -> Result<Reply, TreeFault>
    ensures sent { OnOk result (Appends (L.outgoing line.old) (L.outgoing line.new)
        (packet (request_body id request.now))) }
    ensures taken { IfOk result (λ r. Consumes (L.incoming line.old) (L.incoming line.new)
        (packet (reply_body id r))) }
{
    let packet = packet_of(alloc, request)?;
    if write_all(line, packet.as_slice()).is_err() {
        return Err(TreeFault::Reply);
    }
    take(alloc, line)
}

/// Sends INIT, and receives VERSION.
fn greet<L: Line>(alloc: Global, line: &mut L) -> Result<(), TreeFault>
    ensures sent { OnOk result (Appends (L.outgoing line.old) (L.outgoing line.new)
        (packet init_body)) }
    ensures taken { OnOk result (Consumes (L.incoming line.old) (L.incoming line.new)
        (packet version_body)) }
{
    if write_all(line, &init_packet()).is_err() {
        return Err(TreeFault::Reply);
    }
    let body = read_body(alloc, line)?;
    if is_version(&body) {
        return Ok(());
    }
    Err(TreeFault::Reply)
}

impl<L: Line + Drop> Server for LineServer<L> {
    ghost use Rattle.sf_loading.specs.Lines.{LeadsLine};
    ghost use Rattle.sf_loading.specs.Talking.{none_sent, sent_on};

    ghost reaches = { LeadsLine };

    ghost none = { none_sent };

    ghost on = { sent_on };

    fn begin(&mut self) -> Result<u64, TreeFault> {
        match greet(self.alloc, &mut self.line) {
            Ok(()) => Ok(0),
            Err(fault) => Err(fault),
        }
    }

    fn ask(&mut self, _session: u64, request: &WireRequest) -> Result<Reply, TreeFault> {
        exchange(self.alloc, &mut self.line, request)
    }

    fn finish(&mut self, _session: u64) {}
}
