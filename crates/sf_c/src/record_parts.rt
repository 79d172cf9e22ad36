//! The engine's retained records, as numbers and bytes.

ghost use Rattle.std.specs.Prelude.{◌≡◌, ◌≤◌, IfOk};
ghost use Rattle.sf_call.specs.Requests.{target_of};
ghost use Rattle.sf_field.specs.Attributes.{flags_of};
ghost use Rattle.sf_c.specs.Records.{attributes_parts, plainly, handle_parts, at_place, with_attributes, asked_parts, answer, answered_parts, first_text, second_text, data_parts, names_parts, answer_bytes, left_parts, IsRecounted, Recounts};

use sf_call::{Record, Request};
use sf_field::{Attrs, HandleOp, NO_ATTRS, Owner, PairOp, PathOp, Times};
use sf_reply::{Entry, Reply};
use std::alloc::{AllocError, Global};

/// Attributes. `given` has a bit for each one that is present, as the flags of ATTRS do
/// (draft-ietf-secsh-filexfer-02, section 5).
#[repr(C)]
#[derive(Clone, Copy, Debug)]
pub struct Attributes {
    pub size: u64,
    pub given: u32,
    pub uid: u32,
    pub gid: u32,
    pub permissions: u32,
    pub atime: u32,
    pub mtime: u32,
}

/// The request of a call, by its packet type, without its paths and a WRITE's bytes.
#[repr(C)]
#[derive(Clone, Copy, Debug)]
pub struct AskedParts {
    pub attributes: Attributes,
    pub handle: u64,
    pub offset: u64,
    pub length: u64,
    pub kind: u32,
    pub flags: u32,
}

/// The reply of a call, by its packet type, without bytes and names.
#[repr(C)]
#[derive(Clone, Copy, Debug)]
pub struct Answered {
    pub attributes: Attributes,
    pub handle: u64,
    pub names: u64,
    pub kind: u32,
    pub status: u32,
}

/// A record's numbers, and the lengths of its parts, which are concatenated.
#[repr(C)]
#[derive(Clone, Copy, Debug)]
pub struct RecordParts {
    pub number: u64,
    pub session: u64,
    pub asked: AskedParts,
    pub answered: Answered,
    pub path: u64,
    pub new_path: u64,
    pub written: u64,
    pub answer: u64,
    pub moment: u32,
}

/// The bits of the attributes that are present.
fn flags_of(attrs: &Attrs) -> u32
    ensures { result ≡ flags_of attrs.now }
{
    let size = if attrs.size.is_some() { 1 } else { 0 };
    let owner = if attrs.owner.is_some() { 2 } else { 0 };
    let permissions = if attrs.permissions.is_some() { 4 } else { 0 };
    let times = if attrs.times.is_some() { 8 } else { 0 };
    size + owner + permissions + times
}

/// Attributes for C: a bit of `given` for each one that is present, and 0 for a missing one.
pub fn attributes_parts(attrs: &Attrs) -> Attributes
    ensures { result ≡ attributes_parts attrs.now }
{
    let owner = attrs.owner.unwrap_or(Owner { uid: 0, gid: 0 });
    let times = attrs.times.unwrap_or(Times { atime: 0, mtime: 0 });
    Attributes {
        size: attrs.size.unwrap_or(0),
        given: flags_of(attrs),
        uid: owner.uid,
        gid: owner.gid,
        permissions: attrs.permissions.unwrap_or(0),
        atime: times.atime,
        mtime: times.mtime,
    }
}

/// A request of this type without further numbers.
fn plainly(kind: u32) -> AskedParts
    ensures { result ≡ plainly kind }
{
    AskedParts {
        attributes: attributes_parts(&NO_ATTRS),
        handle: 0,
        offset: 0,
        length: 0,
        kind,
        flags: 0,
    }
}

/// A request of this type with a handle.
fn handle_parts(kind: u32, handle: u64) -> AskedParts
    ensures { result ≡ handle_parts kind handle }
{
    AskedParts {
        handle,
        ..plainly(kind)
    }
}

/// A request of this type for `length` bytes from an offset of a handle's file.
fn at_place(kind: u32, handle: u64, offset: u64, length: u64) -> AskedParts
    ensures { result ≡ at_place kind handle offset length }
{
    AskedParts {
        offset,
        length,
        ..handle_parts(kind, handle)
    }
}

/// A request of this type with attributes.
fn with_attributes(kind: u32, attrs: &Attrs) -> AskedParts
    ensures { result ≡ with_attributes kind attrs.now }
{
    AskedParts {
        attributes: attributes_parts(attrs),
        ..plainly(kind)
    }
}

/// The numbers of a request. Extended requests have types of their own.
fn asked_parts(request: &Request) -> AskedParts
    ensures { result ≡ asked_parts request.now }
{
    match request {
        Request::OnPath(PathOp::Open(flags, attrs), _) => AskedParts {
            flags: flags.bits(),
            ..with_attributes(3, attrs)
        },
        Request::ByHandle(HandleOp::Close, handle) => handle_parts(4, *handle),
        Request::ByHandle(HandleOp::Read { offset, len }, handle) => {
            at_place(5, *handle, *offset, u64::from(*len))
        }
        Request::Write {
            handle,
            offset,
            data,
        } => at_place(6, *handle, *offset, data.as_slice().len() as u64),
        Request::ByHandle(HandleOp::FStat, handle) => handle_parts(8, *handle),
        Request::OnPath(PathOp::SetStat(attrs), _) => with_attributes(9, attrs),
        Request::ByHandle(HandleOp::FSetStat(attrs), handle) => AskedParts {
            handle: *handle,
            ..with_attributes(10, attrs)
        },
        Request::OnPath(PathOp::OpenDir, _) => plainly(11),
        Request::ByHandle(HandleOp::ReadDir, handle) => handle_parts(12, *handle),
        Request::OnPath(PathOp::Remove, _) => plainly(13),
        Request::OnPath(PathOp::Mkdir(attrs), _) => with_attributes(14, attrs),
        Request::OnPath(PathOp::Rmdir, _) => plainly(15),
        Request::OnPath(PathOp::Stat, _) => plainly(17),
        Request::OnPaths(PairOp::Rename, _, _) => plainly(18),
        Request::OnPaths(PairOp::PosixRename, _, _) => plainly(201),
        Request::OnPaths(PairOp::Link, _, _) => plainly(202),
    }
}

/// A reply of this type without further numbers.
fn answer(kind: u32) -> Answered
    ensures { result ≡ answer kind }
{
    Answered {
        attributes: attributes_parts(&NO_ATTRS),
        handle: 0,
        names: 0,
        kind,
        status: 0,
    }
}

/// The numbers of a reply. "Out of memory" is the status FAILURE with a type of its own.
fn answered_parts(reply: &Reply) -> Answered
    ensures { result ≡ answered_parts reply.now }
{
    match reply {
        Reply::Status(code) => Answered {
            status: code.number(),
            ..answer(101)
        },
        Reply::NoMemory => Answered {
            status: 4,
            ..answer(100)
        },
        Reply::Handle(handle) => Answered {
            handle: *handle,
            ..answer(102)
        },
        Reply::Data(_) => answer(103),
        Reply::Names(listing) => Answered {
            names: listing.as_slice().len() as u64,
            ..answer(104)
        },
        Reply::Attrs(attrs) => Answered {
            attributes: attributes_parts(attrs),
            ..answer(105)
        },
    }
}

/// The texts of a request's path, or of its old one, and of its new path; empty for a missing one.
fn path_texts(alloc: Global, request: &Request) -> Result<(Vec<u8>, Vec<u8>), AllocError>
    ensures old { IfOk result (λ texts. texts.0.items ≡ first_text (target_of request.now)) }
    ensures new { IfOk result (λ texts. texts.1.items ≡ second_text (target_of request.now)) }
{
    Ok(match request {
        Request::OnPath(_, path) => (path.text(alloc)?, Vec::new(alloc)),
        Request::OnPaths(_, old, new) => (old.text(alloc)?, new.text(alloc)?),
        Request::ByHandle(_, _) | Request::Write { .. } => (Vec::new(alloc), Vec::new(alloc)),
    })
}

/// The bytes of a WRITE.
fn data_parts(request: &Request) -> &[u8]
    ensures { result.now ≡ data_parts request.now }
{
    match request {
        Request::Write { data, .. } => data.as_slice(),
        _ => &[],
    }
}

/// The names of a listing, each followed by a 0 byte, which no name contains.
fn names_parts(alloc: Global, entries: &[Entry]) -> Result<Vec<u8>, AllocError>
    ensures { IfOk result (λ bytes. bytes.items ≡ names_parts entries.now) }
{
    let mut bytes = Vec::new(alloc);
    for entry in entries {
        bytes.extend_from_slice(entry.filename.as_slice())?;
        bytes.push(0)?;
    }
    Ok(bytes)
}

/// The bytes of a reply: those of READ, or names.
fn answer_bytes(alloc: Global, reply: &Reply) -> Result<Vec<u8>, AllocError>
    ensures { IfOk result (λ bytes. bytes.items ≡ answer_bytes reply.now) }
{
    match reply {
        Reply::Data(bytes) => Vec::from_slice(alloc, bytes.as_slice()),
        Reply::Names(listing) => names_parts(alloc, listing.as_slice()),
        _ => Ok(Vec::new(alloc)),
    }
}

/// A record's parts, concatenated, and its numbers with the length of each part.
#[derive(Drop)]
pub struct Recounted {
    pub parts: RecordParts,
    pub bytes: Vec<u8>,
}

/// The numbers and bytes of a call's record.
fn call_parts(
    alloc: Global,
    number: u64,
    session: u64,
    moment: u32,
    request: &Request,
    reply: &Reply,
) -> Result<Recounted, AllocError>
    ensures { IfOk result (λ r. IsRecounted number session moment request.now reply.now r) }
{
    let (mut bytes, new) = path_texts(alloc, request)?;
    let path = bytes.len();
    let data = data_parts(request);
    let read = answer_bytes(alloc, reply)?;
    bytes.extend_from_slice(&new)?;
    bytes.extend_from_slice(data)?;
    bytes.extend_from_slice(&read)?;
    let parts = RecordParts {
        number,
        session,
        asked: asked_parts(request),
        answered: answered_parts(reply),
        path: path as u64,
        new_path: new.len() as u64,
        written: data.len() as u64,
        answer: read.len() as u64,
        moment,
    };
    Ok(Recounted { parts, bytes })
}

/// The numbers and bytes of a record.
pub fn recount(alloc: Global, record: &Record) -> Result<Recounted, AllocError>
    ensures { IfOk result (λ r. Recounts record.now r) }
{
    match record {
        Record::Did {
            number,
            session,
            moment,
            request,
            reply,
        } => call_parts(alloc, *number, *session, *moment, request, reply),
        Record::Left { session } => Ok(Recounted {
            parts: left_parts(*session),
            bytes: Vec::new(alloc),
        }),
    }
}

/// The record of a session that left has the number 0, which no call has.
fn left_parts(session: u64) -> RecordParts
    ensures { result ≡ left_parts session }
{
    RecordParts {
        number: 0,
        session,
        asked: plainly(0),
        answered: answer(0),
        path: 0,
        new_path: 0,
        written: 0,
        answer: 0,
        moment: 0,
    }
}
