//! Decoding of a request. Its strings are borrowed from the body. The functions that return a
//! request are inlined, as each call would move it.

ghost use Rattle.std.specs.Prelude.{◌≡◌, option_map};
ghost use Rattle.sf_request.specs.declared.request.Asked.{Asked};
ghost use Rattle.sf_request.specs.Requests.{Asks, set_at, shape_of};
ghost use Rattle.sf_request.specs.Requests.Shape.{OneText, TextAndAttrs, TwoTexts, OpenFields, ReadFields, WriteFields};
ghost use Rattle.sf_request.specs.declared.request.WireRequest.TheVariants as request;
ghost use Rattle.sf_field.specs.Reading.{Gives, string_at, attrs_at};
ghost use Rattle.sf_request.specs.Reading.{fields, both_at, request_at, name_at, asked_named, asked_of};

use crate::byte_str::ByteStr;
use crate::request::{Asked, WireRequest};
use sf_field::{
    Attrs, HandleOp, NO_ATTRS, OpenFlags, PairOp, PathOp, attrs_of, bytes_at, u32_at, u64_at,
};

// The types of the packets that a client sends. All from OPEN to RENAME are requests.
pub(crate) const INIT: u8 = 1;

pub(crate) const OPEN: u8 = 3;

pub(crate) const CLOSE: u8 = 4;

pub(crate) const READ: u8 = 5;

pub(crate) const WRITE: u8 = 6;

pub(crate) const LSTAT: u8 = 7;

pub(crate) const FSTAT: u8 = 8;

pub(crate) const SETSTAT: u8 = 9;

pub(crate) const FSETSTAT: u8 = 10;

pub(crate) const OPENDIR: u8 = 11;

pub(crate) const READDIR: u8 = 12;

pub(crate) const REMOVE: u8 = 13;

pub(crate) const MKDIR: u8 = 14;

pub(crate) const RMDIR: u8 = 15;

pub(crate) const REALPATH: u8 = 16;

pub(crate) const STAT: u8 = 17;

pub(crate) const RENAME: u8 = 18;

pub(crate) const EXTENDED: u8 = 200;

// The names of the supported extensions, by OpenSSH.
pub(crate) const POSIX_RENAME: &[u8] = b"posix-rename@openssh.com";

pub(crate) const HARDLINK: &[u8] = b"hardlink@openssh.com";

#[tactic(auto, unfolding(crate::specs::Reading::fields))]
fn string(bytes: &[u8]) -> Option<ByteStr<'_>>
    ensures { result ≡ fields string_at bytes.now }
{
    let (string, _) = bytes_at(bytes)?;
    Some(ByteStr::new(string))
}

#[tactic(auto, unfolding(crate::specs::Reading::fields))]
#[inline(always)]
fn two_strings(bytes: &[u8]) -> Option<(ByteStr<'_>, ByteStr<'_>)>
    ensures { result ≡ fields (both_at string_at string_at) bytes.now }
{
    let (first, rest) = bytes_at(bytes)?;
    let (second, _) = bytes_at(rest)?;
    Some((ByteStr::new(first), ByteStr::new(second)))
}

#[tactic(auto, unfolding(crate::specs::Reading::fields))]
#[inline(always)]
fn string_and_attrs(bytes: &[u8]) -> Option<(ByteStr<'_>, Attrs)>
    ensures { result ≡ fields (both_at string_at attrs_at) bytes.now }
{
    let (string, rest) = bytes_at(bytes)?;
    let (attrs, _) = attrs_of(rest)?;
    Some((ByteStr::new(string), attrs))
}

#[tactic(auto, unfolding(crate::specs::Reading::fields, sf_field::specs::Reading::flags_at))]
#[inline(always)]
fn open(bytes: &[u8]) -> Option<WireRequest<'_>>
    ensures { result ≡ request_at OpenFields bytes.now }
{
    let (filename, rest) = bytes_at(bytes)?;
    let (bits, rest) = u32_at(rest)?;
    let (attrs, _) = attrs_of(rest)?;
    let op = PathOp::Open(OpenFlags::from_bits(bits), attrs);
    Some(WireRequest::OnPath(op, ByteStr::new(filename)))
}

#[tactic(auto, unfolding(crate::specs::Reading::fields))]
#[inline(always)]
fn read(bytes: &[u8]) -> Option<WireRequest<'_>>
    ensures { result ≡ request_at ReadFields bytes.now }
{
    let (handle, rest) = bytes_at(bytes)?;
    let (offset, rest) = u64_at(rest)?;
    let (len, _) = u32_at(rest)?;
    let op = HandleOp::Read { offset, len };
    Some(WireRequest::ByHandle(op, ByteStr::new(handle)))
}

#[tactic(auto, unfolding(crate::specs::Reading::fields))]
#[inline(always)]
fn write(bytes: &[u8]) -> Option<WireRequest<'_>>
    ensures { result ≡ request_at WriteFields bytes.now }
{
    let (handle, rest) = bytes_at(bytes)?;
    let (offset, rest) = u64_at(rest)?;
    let (data, _) = bytes_at(rest)?;
    Some(WireRequest::Write {
        handle: ByteStr::new(handle),
        offset,
        data: ByteStr::new(data),
    })
}

#[inline(always)]
fn on_path(op: PathOp, bytes: &[u8]) -> Option<WireRequest<'_>>
    ensures { result ≡ request_at (OneText (request.OnPath op)) bytes.now }
{
    string(bytes).map(|path| WireRequest::OnPath(op, path))
}

#[inline(always)]
fn by_handle(op: HandleOp, bytes: &[u8]) -> Option<WireRequest<'_>>
    ensures { result ≡ request_at (OneText (request.ByHandle op)) bytes.now }
{
    string(bytes).map(|handle| WireRequest::ByHandle(op, handle))
}

#[inline(always)]
fn on_paths(op: PairOp, bytes: &[u8]) -> Option<WireRequest<'_>>
    ensures { result ≡ request_at (TwoTexts (request.OnPaths op)) bytes.now }
{
    two_strings(bytes).map(|(old, new)| WireRequest::OnPaths(op, old, new))
}

/// SETSTAT, and `lsetstat@openssh.com`, as there are no symbolic links.
#[inline(always)]
fn set_stat(bytes: &[u8]) -> Option<WireRequest<'_>>
    ensures { result ≡ request_at (TextAndAttrs set_at) bytes.now }
{
    string_and_attrs(bytes).map(|(path, attrs)| WireRequest::OnPath(PathOp::SetStat(attrs), path))
}

/// The table of requests: the type, the name of an extension, and the shape of the fields. `None` for
/// what has no row, and `Some(None)` for incomplete fields.
#[tactic(auto, unfolding(crate::specs::Requests::shape_of))]
#[inline(always)]
fn request<'a>(kind: u8, name: &[u8], bytes: &'a [u8]) -> Option<Option<WireRequest<'a>>>
    ensures { result ≡ option_map (λ shape. request_at shape bytes.now) (shape_of kind name.now) }
{
    match kind {
        OPEN => Some(open(bytes)),
        CLOSE => Some(by_handle(HandleOp::Close, bytes)),
        READ => Some(read(bytes)),
        WRITE => Some(write(bytes)),
        LSTAT => Some(string(bytes).map(WireRequest::LStat)),
        FSTAT => Some(by_handle(HandleOp::FStat, bytes)),
        SETSTAT => Some(set_stat(bytes)),
        FSETSTAT => Some(string_and_attrs(bytes).map(|(handle, attrs)| {
            WireRequest::ByHandle(HandleOp::FSetStat(attrs), handle)
        })),
        OPENDIR => Some(on_path(PathOp::OpenDir, bytes)),
        READDIR => Some(by_handle(HandleOp::ReadDir, bytes)),
        REMOVE => Some(on_path(PathOp::Remove, bytes)),
        MKDIR => Some(string_and_attrs(bytes).map(|(path, attrs)| {
            WireRequest::OnPath(PathOp::Mkdir(attrs), path)
        })),
        RMDIR => Some(on_path(PathOp::Rmdir, bytes)),
        REALPATH => Some(string(bytes).map(WireRequest::RealPath)),
        STAT => Some(on_path(PathOp::Stat, bytes)),
        RENAME => Some(on_paths(PairOp::Rename, bytes)),
        EXTENDED if name == b"posix-rename@openssh.com".as_slice() => {
            Some(on_paths(PairOp::PosixRename, bytes))
        }
        EXTENDED if name == b"hardlink@openssh.com".as_slice() => {
            Some(on_paths(PairOp::Link, bytes))
        }
        EXTENDED if name == b"fsync@openssh.com".as_slice() => {
            Some(by_handle(HandleOp::FSetStat(NO_ATTRS), bytes))
        }
        EXTENDED if name == b"lsetstat@openssh.com".as_slice() => Some(set_stat(bytes)),
        _ => None,
    }
}

/// The name of an extension, and the bytes after it. Other requests have no name.
#[inline(always)]
fn name_of(kind: u8, bytes: &[u8]) -> Option<(&[u8], &[u8])>
    ensures { Gives (λ x. (x.0.now, x.1.now)) result (name_at kind bytes.now) }
{
    if kind == EXTENDED {
        bytes_at(bytes)
    } else {
        Some((&[], bytes))
    }
}

#[inline(always)]
fn asked_named(kind: u8, id: u32, bytes: &[u8]) -> Asked<'_>
    ensures { result ≡ asked_named kind id (name_at kind bytes.now) }
{
    let Some((name, fields)) = name_of(kind, bytes) else {
        return Asked::BadFields(id);
    };
    if kind == EXTENDED && name == b"limits@openssh.com".as_slice() {
        return Asked::Limits(id);
    }
    match request(kind, name, fields) {
        Some(Some(request)) => Asked::Request(id, request),
        Some(None) => Asked::BadFields(id),
        None => Asked::Unknown(id),
    }
}

#[tactic(auto, unfolding(crate::specs::Reading::asked_of, crate::specs::Reading::asked_under))]
fn asked_of(body: &[u8]) -> Asked<'_>
    ensures { result ≡ asked_of body.now }
{
    let [kind, rest @ ..] = body else {
        return Asked::NoId;
    };
    match u32_at(rest) {
        Some((version, _)) if *kind == INIT => Asked::Init(version),
        Some((id, fields)) => asked_named(*kind, id, fields),
        None if *kind == INIT => Asked::NoVersion,
        None => Asked::NoId,
    }
}

/// Decodes a body, which is a packet without its length field. It allocates nothing.
pub fn read_request(body: &[u8]) -> Asked<'_>
    ensures found { Asks body.now result }
    // The result is unique.
    ensures only { (other : Asked) → Asks body.now other → result ≡ other }
{
    asked_of(body)
}
