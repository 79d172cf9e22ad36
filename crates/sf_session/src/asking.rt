//! What a packet's body requires of its session.

ghost use Rattle.std.specs.Prelude.{◌≡◌, IfOk};
ghost use Rattle.std.specs.Option.{option_map_or};
ghost use Rattle.sf_session.specs.Asking.{AsksFor, first_ask, later_ask, request_ask, failure, real_path_reply};

use crate::calling::{call_of, path_of};
use crate::cause::Cause;
use crate::local_reply::LocalReply;
use sf_call::Request;
use sf_field::{Attrs, ByteString};
use sf_path::Path;
use sf_reply::{Entry, Listing, Reply, StatusCode};
use sf_request::{Asked, WireRequest, read_request};
use std::alloc::{AllocError, Global};

/// What the session must do for a packet.
#[derive(Debug, Drop)]
pub enum Ask {
    /// Reply to INIT with VERSION.
    Version,
    /// Send a reply that needs no file-system call, with the request's id.
    Local(u32, LocalReply),
    /// Execute a file-system call and reply with the request's id.
    Call(u32, Request),
    /// End the session without a reply.
    End(Cause),
}

/// What the session must do for a body. `begun` says whether the session has processed its first
/// packet.
///
/// Any request with an invalid path is answered `SSH_FX_FAILURE`.
pub(crate) fn ask_of(alloc: Global, begun: bool, body: &[u8]) -> Result<Ask, AllocError>
    ensures { IfOk result (λ ask. AsksFor begun body.now ask) }
{
    let asked = read_request(body);
    if begun {
        later_ask(alloc, asked)
    } else {
        Ok(first_ask(asked))
    }
}

fn first_ask(asked: Asked<'_>) -> Ask
    ensures { result ≡ first_ask asked.entry }
{
    match asked {
        Asked::Init(version) if version < 3 => Ask::End(Cause::OldVersion),
        Asked::Init(_) => Ask::Version,
        Asked::NoVersion => Ask::End(Cause::NoId),
        _ => Ask::End(Cause::NotInit),
    }
}

fn later_ask(alloc: Global, asked: Asked<'_>) -> Result<Ask, AllocError>
    ensures { IfOk result (λ ask. ask ≡ later_ask asked.entry) }
{
    match asked {
        Asked::Init(_) | Asked::NoVersion => Ok(Ask::End(Cause::SecondInit)),
        Asked::NoId => Ok(Ask::End(Cause::NoId)),
        Asked::Unknown(id) => Ok(status(id, StatusCode::OpUnsupported)),
        Asked::BadFields(id) => Ok(status(id, StatusCode::BadMessage)),
        Asked::Limits(id) => Ok(Ask::Local(id, LocalReply::Limits)),
        Asked::Request(id, request) => request_ask(alloc, id, request),
    }
}

fn request_ask(alloc: Global, id: u32, request: WireRequest<'_>) -> Result<Ask, AllocError>
    ensures { IfOk result (λ ask. ask ≡ request_ask id request.entry) }
{
    match request {
        WireRequest::RealPath(path) => real_path(alloc, id, path.as_slice()),
        request => Ok(call_ask(id, call_of(alloc, request)?)),
    }
}

/// A request with an invalid path or handle is answered `SSH_FX_FAILURE`.
fn call_ask(id: u32, call: Option<Request>) -> Ask
    ensures { result ≡ option_map_or (Ask.Call id) call (failure id) }
{
    match call {
        Some(call) => Ask::Call(id, call),
        None => status(id, StatusCode::Failure),
    }
}

/// A status reply without a file-system call.
fn status(id: u32, code: StatusCode) -> Ask
    ensures { result ≡ Ask.Local id (LocalReply.Plain (Reply.Status code)) }
{
    Ask::Local(id, LocalReply::Plain(Reply::Status(code)))
}

/// REALPATH: normalizes the path without a file-system call.
fn real_path(alloc: Global, id: u32, text: &[u8]) -> Result<Ask, AllocError>
    ensures { IfOk result (λ ask. ask ≡ request_ask id (WireRequest.RealPath text.now)) }
{
    match path_of(alloc, text)? {
        Some(path) => {
            let reply = real_path_reply(alloc, &path)?;
            Ok(Ask::Local(id, LocalReply::Plain(reply)))
        }
        None => Ok(status(id, StatusCode::Failure)),
    }
}

fn real_path_reply(alloc: Global, path: &Path) -> Result<Reply, AllocError>
    ensures { IfOk result (λ reply. reply ≡ real_path_reply path.now) }
{
    let text = path.text(alloc)?;
    let filename = ByteString::from_vec(text)?;
    let longname = filename.share()?;
    let attrs = Attrs {
        size: None,
        owner: None,
        permissions: None,
        times: None,
    };
    let entry = Entry {
        filename,
        longname,
        attrs,
    };
    Ok(Reply::Names(Listing::from_vec(vec![in alloc; entry]?)?))
}
