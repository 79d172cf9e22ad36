//! Making each item by its request.

ghost use Rattle.std.specs.Prelude.{◌≡◌, ◌∷◌, ℕ, List, [], Ok, Err};
ghost use Rattle.sf_field.specs.Fields.{be64};
ghost use Rattle.sf_trees.specs.Operations.{Does, IsAsked, fault_in_reply};
ghost use Rattle.sf_loading.specs.Loading.{request_of, settled_by, handle_in_reply, done_with, MakesOneItem, MakesItems, Loads};

use crate::folder::{Folder, FolderFault, Item};
use sf_field::{HandleOp, NO_ATTRS, OpenFlags, PathOp};
use sf_reply::{Reply, StatusCode};
use sf_request::{ByteStr, WireRequest};
use sf_trees::{Server, TreeFault};
use thiserror::Error;

/// Why loading failed. What was made before it remains.
#[derive(Clone, Copy, Debug, PartialEq, Eq, Error)]
pub enum LoadFault {
    #[error("{0}")]
    Folder(FolderFault),
    /// The server rejected the last item.
    #[error("{0}")]
    Server(TreeFault),
    /// More than 2^64 - 1 items.
    #[error("too many items")]
    TooMany,
}

/// WRITE, CREAT and EXCL.
const TO_MAKE: OpenFlags = OpenFlags {
    read: false,
    write: true,
    append: false,
    create: true,
    truncate: false,
    exclusive: true,
};

/// The request for an item, with the handle of the last file.
fn request_of<'a>(handle: &'a [u8], item: &'a Item) -> WireRequest<'a>
    ensures { result ≡ request_of handle.now item.now }
{
    match item {
        Item::Directory(path) => {
            WireRequest::OnPath(PathOp::Mkdir(NO_ATTRS), ByteStr::new(path))
        }
        Item::DirectoryAttributes(path, attrs) => {
            WireRequest::OnPath(PathOp::SetStat(*attrs), ByteStr::new(path))
        }
        Item::File(path) => {
            WireRequest::OnPath(PathOp::Open(TO_MAKE, NO_ATTRS), ByteStr::new(path))
        }
        Item::Bytes(offset, bytes) => WireRequest::Write {
            handle: ByteStr::new(handle),
            offset: *offset,
            data: ByteStr::new(bytes),
        },
        Item::FileAttributes(attrs) => {
            WireRequest::ByHandle(HandleOp::FSetStat(*attrs), ByteStr::new(handle))
        }
        Item::FileEnd => WireRequest::ByHandle(HandleOp::Close, ByteStr::new(handle)),
    }
}

/// The error for an unexpected reply.
fn refusal_of(reply: &Reply) -> TreeFault
    ensures { result ≡ fault_in_reply reply.now }
{
    match reply {
        Reply::Status(code) => TreeFault::Status(*code),
        Reply::NoMemory => TreeFault::OutOfMemory,
        _ => TreeFault::Reply,
    }
}

/// The handle of an opened file.
fn handle_in_reply(outcome: &Result<Reply, TreeFault>) -> Result<u64, TreeFault>
    ensures { result ≡ handle_in_reply outcome.now }
{
    match outcome {
        Ok(Reply::Handle(number)) => Ok(*number),
        Ok(reply) => Err(refusal_of(reply)),
        Err(fault) => Err(*fault),
    }
}

/// The given handle, if the request was done.
fn done_with(handle: u64, outcome: &Result<Reply, TreeFault>) -> Result<u64, TreeFault>
    ensures { result ≡ done_with handle outcome.now }
{
    match outcome {
        Ok(Reply::Status(StatusCode::Success)) => Ok(handle),
        Ok(reply) => Err(refusal_of(reply)),
        Err(fault) => Err(*fault),
    }
}

/// The last file's handle after an item.
fn settled_by(
    handle: u64,
    item: &Item,
    outcome: &Result<Reply, TreeFault>,
) -> Result<u64, TreeFault>
    ensures { result ≡ settled_by handle item.now outcome.now }
{
    match item {
        Item::File(_) => handle_in_reply(outcome),
        _ => done_with(handle, outcome),
    }
}

/// Makes an item.
fn make<S: Server>(server: &mut S, session: u64, handle: u64, item: &Item) -> Result<u64, TreeFault>
    ensures { Does S.reaches server.old server.new
        (IsAsked session (request_of (be64 handle) item.now) (settled_by handle item.now)) result }
{
    let text = handle.to_be_bytes();
    let outcome = server.ask(session, &request_of(&text, item));
    settled_by(handle, item, &outcome)
}

/// Takes the next item and makes it. Returns `None` at the end.
fn turn<F: Folder, S: Server>(
    folder: &mut F,
    server: &mut S,
    session: u64,
    handle: u64,
) -> Result<Option<u64>, LoadFault>
    ensures { Does S.reaches server.old server.new
        (MakesOneItem session handle (F.items folder.old) (F.items folder.new)) result }
{
    match folder.next() {
        Ok(Some(item)) => match make(server, session, handle, &item) {
            Ok(last) => Ok(Some(last)),
            Err(fault) => Err(LoadFault::Server(fault)),
        },
        Ok(None) => Ok(None),
        Err(fault) => Err(LoadFault::Folder(fault)),
    }
}

/// Makes all items in a session.
fn make_all<F: Folder, S: Server>(
    folder: &mut F,
    server: &mut S,
    session: u64,
) -> Result<(), LoadFault>
    ensures { Does S.reaches server.old server.new
        (MakesItems session (F.items folder.old) (F.items folder.new)) result }
{
    let mut handle = 0;
    for count in 0..u64::MAX {
        match turn(folder, server, session, handle) {
            Ok(Some(last)) => handle = last,
            Ok(None) => return Ok(()),
            Err(fault) => return Err(fault),
        }
    }
    Err(LoadFault::TooMany)
}

/// Loads all items of a folder, in a session that it opens and closes.
pub fn load<F: Folder, S: Server>(folder: &mut F, server: &mut S) -> Result<(), LoadFault>
    ensures { Does S.reaches server.old server.new
        (Loads (F.items folder.old) (F.items folder.new)) result }
{
    let session = match server.begin() {
        Ok(session) => session,
        Err(fault) => return Err(LoadFault::Server(fault)),
    };
    let made = make_all(folder, server, session);
    server.finish(session);
    made
}
