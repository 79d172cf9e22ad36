//! Encoding of requests. Capacity for the whole packet is reserved first, so no later step can
//! fail.

ghost use Rattle.std.specs.Prelude.{◌≡◌, ◌+◌, ◌<◌, ◌≤◌, ◌^◌, ◌++◌, length, OnOk, OnErr, IsOk};
ghost use Rattle.bytes.specs.Filled.{UsesSpare};
ghost use Rattle.sf_request.specs.Requests.{kind_of, fields_text, request_body, init_body};
ghost use Rattle.sf_request.specs.declared.request.WireRequest.TheVariants.{OnPaths, ByHandle};
ghost use Rattle.sf_field.specs.declared.operation.HandleOp.TheVariants.{Close};
ghost use Rattle.sf_field.specs.Attributes.{attrs_text};
ghost use Rattle.sf_field.specs.Fields.{be64, packet, string};

use crate::byte_str::ByteStr;
use crate::reading::{
    CLOSE, EXTENDED, FSETSTAT, FSTAT, HARDLINK, INIT, LSTAT, MKDIR, OPEN, OPENDIR, POSIX_RENAME,
    READ, READDIR, REALPATH, REMOVE, RENAME, RMDIR, SETSTAT, STAT, WRITE,
};
use crate::request::WireRequest;
use bytes::BytesMut;
use sf_field::{
    Attrs, HandleOp, PairOp, PathOp, attrs_len, put_attrs, put_string, put_u32, put_u64,
};
use std::alloc::AllocError;

/// The length of the encoded fields, in bytes.
fn fields_len(request: &WireRequest) -> usize
    requires { length (fields_text request.now) < 2 ^ 32 }
    ensures { result ≡ length (fields_text request.now) }
{
    match request {
        WireRequest::OnPath(PathOp::Open(_, attrs), path) => 8 + path.len() + attrs_len(attrs),
        WireRequest::OnPath(PathOp::SetStat(attrs) | PathOp::Mkdir(attrs), path) => {
            4 + path.len() + attrs_len(attrs)
        }
        WireRequest::OnPath(
            PathOp::Stat | PathOp::Rmdir | PathOp::Remove | PathOp::OpenDir,
            path,
        ) => 4 + path.len(),
        WireRequest::OnPaths(PairOp::Rename, old, new) => 8 + old.len() + new.len(),
        WireRequest::OnPaths(PairOp::PosixRename, old, new) => {
            12 + POSIX_RENAME.len() + old.len() + new.len()
        }
        WireRequest::OnPaths(PairOp::Link, old, new) => {
            12 + HARDLINK.len() + old.len() + new.len()
        }
        WireRequest::ByHandle(HandleOp::FSetStat(attrs), handle) => {
            4 + handle.len() + attrs_len(attrs)
        }
        WireRequest::ByHandle(HandleOp::Read { .. }, handle) => 4 + handle.len() + 12,
        WireRequest::ByHandle(HandleOp::Close | HandleOp::FStat | HandleOp::ReadDir, handle) => {
            4 + handle.len()
        }
        WireRequest::Write { handle, data, .. } => 4 + handle.len() + 12 + data.len(),
        WireRequest::LStat(path) | WireRequest::RealPath(path) => 4 + path.len(),
    }
}

/// Appends a path or a handle, and attributes.
fn put_with_attrs(out: &mut BytesMut, text: &ByteStr, attrs: &Attrs)
    requires room { length (string text.now ++ attrs_text attrs.now) ≤ out.old.spare }
    requires short { length text.now < 2 ^ 32 }
    ensures items { out.new.items ≡ out.old.items ++ (string text.now ++ attrs_text attrs.now) }
    ensures spare { out.new.spare + length (string text.now ++ attrs_text attrs.now)
        ≡ out.old.spare }
{
    put_string(out, text.as_slice());
    put_attrs(out, attrs);
}

/// Appends two paths.
fn put_both(out: &mut BytesMut, old: &ByteStr, new: &ByteStr)
    requires room { length (string old.now ++ string new.now) ≤ out.old.spare }
    requires short { (length old.now < 2 ^ 32) × (length new.now < 2 ^ 32) }
    ensures items { out.new.items ≡ out.old.items ++ (string old.now ++ string new.now) }
    ensures spare { out.new.spare + length (string old.now ++ string new.now) ≡ out.old.spare }
{
    put_string(out, old.as_slice());
    put_string(out, new.as_slice());
}

/// Appends two paths, for an extension after its name.
fn put_paths(out: &mut BytesMut, op: PairOp, old: &ByteStr, new: &ByteStr)
    requires room { length (fields_text (OnPaths op old.now new.now)) ≤ out.old.spare }
    requires short { length (fields_text (OnPaths op old.now new.now)) < 2 ^ 32 }
    ensures items { out.new.items ≡ out.old.items ++ fields_text (OnPaths op old.now new.now) }
    ensures spare { out.new.spare + length (fields_text (OnPaths op old.now new.now))
        ≡ out.old.spare }
{
    match op {
        PairOp::Rename => put_both(out, old, new),
        PairOp::PosixRename => {
            put_string(out, POSIX_RENAME);
            put_both(out, old, new);
        }
        PairOp::Link => {
            put_string(out, HARDLINK);
            put_both(out, old, new);
        }
    }
}

/// Appends a handle and an offset in its file.
fn put_place(out: &mut BytesMut, handle: &ByteStr, offset: u64)
    requires room { length (string handle.now ++ be64 offset) ≤ out.old.spare }
    requires short { length handle.now < 2 ^ 32 }
    ensures items { out.new.items ≡ out.old.items ++ (string handle.now ++ be64 offset) }
    ensures spare { out.new.spare + length (string handle.now ++ be64 offset) ≡ out.old.spare }
{
    put_string(out, handle.as_slice());
    put_u64(out, offset);
}

fn put_fields(out: &mut BytesMut, request: &WireRequest)
    requires room { length (fields_text request.now) ≤ out.old.spare }
    requires short { length (fields_text request.now) < 2 ^ 32 }
    ensures items { out.new.items ≡ out.old.items ++ fields_text request.now }
    ensures spare { out.new.spare + length (fields_text request.now) ≡ out.old.spare }
{
    match request {
        WireRequest::OnPath(PathOp::Open(flags, attrs), path) => {
            put_string(out, path.as_slice());
            put_u32(out, flags.bits());
            put_attrs(out, attrs);
        }
        WireRequest::ByHandle(HandleOp::Read { offset, len }, handle) => {
            put_place(out, handle, *offset);
            put_u32(out, *len);
        }
        WireRequest::Write {
            handle,
            offset,
            data,
        } => {
            put_place(out, handle, *offset);
            put_string(out, data.as_slice());
        }
        WireRequest::OnPath(PathOp::SetStat(attrs) | PathOp::Mkdir(attrs), text)
        | WireRequest::ByHandle(HandleOp::FSetStat(attrs), text) => {
            put_with_attrs(out, text, attrs)
        }
        WireRequest::OnPaths(op, old, new) => put_paths(out, *op, old, new),
        WireRequest::OnPath(PathOp::Stat | PathOp::Rmdir | PathOp::Remove | PathOp::OpenDir, text)
        | WireRequest::ByHandle(HandleOp::Close | HandleOp::FStat | HandleOp::ReadDir, text)
        | WireRequest::LStat(text)
        | WireRequest::RealPath(text) => put_string(out, text.as_slice()),
    }
}

fn kind(request: &WireRequest) -> u8
    ensures { result ≡ kind_of request.now }
{
    match request {
        WireRequest::OnPath(PathOp::Open(_, _), _) => OPEN,
        WireRequest::ByHandle(HandleOp::Close, _) => CLOSE,
        WireRequest::ByHandle(HandleOp::Read { .. }, _) => READ,
        WireRequest::Write { .. } => WRITE,
        WireRequest::LStat(_) => LSTAT,
        WireRequest::ByHandle(HandleOp::FStat, _) => FSTAT,
        WireRequest::OnPath(PathOp::SetStat(_), _) => SETSTAT,
        WireRequest::ByHandle(HandleOp::FSetStat(_), _) => FSETSTAT,
        WireRequest::OnPath(PathOp::OpenDir, _) => OPENDIR,
        WireRequest::ByHandle(HandleOp::ReadDir, _) => READDIR,
        WireRequest::OnPath(PathOp::Remove, _) => REMOVE,
        WireRequest::OnPath(PathOp::Mkdir(_), _) => MKDIR,
        WireRequest::OnPath(PathOp::Rmdir, _) => RMDIR,
        WireRequest::RealPath(_) => REALPATH,
        WireRequest::OnPath(PathOp::Stat, _) => STAT,
        WireRequest::OnPaths(PairOp::Rename, _, _) => RENAME,
        WireRequest::OnPaths(PairOp::PosixRename | PairOp::Link, _, _) => EXTENDED,
    }
}

/// Appends the request's packet, or nothing on error. It allocates nothing if the buffer has
/// capacity for the packet.
pub fn write_request(id: u32, request: &WireRequest, out: &mut BytesMut) -> Result<(), AllocError>
    requires { length (request_body id request.now) < 2 ^ 32 }
    ensures ok { OnOk result (out.new.items
        ≡ out.old.items ++ packet (request_body id request.now)) }
    ensures err { OnErr result (out.new.items ≡ out.old.items) }
    ensures spare { UsesSpare result out.old.spare out.new.spare
        (length (packet (request_body id request.now))) }
    ensures enough { length (packet (request_body id request.now)) ≤ out.old.spare → IsOk result }
{
    let len = 5 + fields_len(request);
    out.reserve(4 + len)?;
    put_u32(out, len as u32);
    out.extend_reserved(&[kind(request)]);
    put_u32(out, id);
    put_fields(out, request);
    Ok(())
}

/// The packet `SSH_FXP_CLOSE` for a handle of this server, which is 8 bytes. It allocates nothing.
pub fn close_packet(id: u32, handle: u64) -> [u8; 21]
    ensures { result ≡ packet (request_body id (ByHandle Close (be64 handle))) }
{
    let i = id.to_be_bytes();
    let h = handle.to_be_bytes();
    [
        0, 0, 0, 17, CLOSE, i[0], i[1], i[2], i[3], 0, 0, 0, 8, h[0], h[1], h[2], h[3], h[4], h[5],
        h[6], h[7],
    ]
}

/// The packet `SSH_FXP_INIT` with version 3.
pub fn init_packet() -> [u8; 9]
    ensures { result ≡ packet init_body }
{
    [0, 0, 0, 5, INIT, 0, 0, 0, 3]
}
