//! Encoding of replies. Capacity for the whole packet is reserved first, so no later step can fail.

ghost use Rattle.std.specs.Prelude.{◌≡◌, ◌+◌, ◌<◌, ◌≤◌, ◌^◌, ◌++◌, length, OnOk, OnErr, IsOk};
ghost use Rattle.std.specs.List.{flat_map};
ghost use Rattle.bytes.specs.Filled.{UsesSpare};
ghost use Rattle.sf_reply.specs.Replies.{status_text, entry_text, fields_of, reply_body, kind_of_reply, version_body};
ghost use Rattle.sf_field.specs.Fields.{packet, max_body};

use crate::reply::{Entry, Reply};
use bytes::BytesMut;
use sf_field::{attrs_len, put_attrs, put_string, put_u32, write_string};
use std::alloc::AllocError;

/// The body of `SSH_FXP_VERSION`: its type, version 3, and each extension with its version `1`.
pub(crate) const VERSION_BODY: &[u8] = b"\x02\0\0\0\x03\
    \0\0\0\x18posix-rename@openssh.com\0\0\0\x011\
    \0\0\0\x14hardlink@openssh.com\0\0\0\x011\
    \0\0\0\x11fsync@openssh.com\0\0\0\x011\
    \0\0\0\x14lsetstat@openssh.com\0\0\0\x011\
    \0\0\0\x12limits@openssh.com\0\0\0\x011";

// The types of the packets that the server sends.
pub(crate) const STATUS: u8 = 101;

pub(crate) const HANDLE: u8 = 102;

pub(crate) const DATA: u8 = 103;

pub(crate) const NAME: u8 = 104;

pub(crate) const ATTRS: u8 = 105;

fn status_len(message: &[u8]) -> usize
    requires { length message.now < 2 ^ 32 }
    ensures { result ≡ length (status_text 0 message.now) }
{
    12 + message.len()
}

fn put_status(out: &mut BytesMut, code: u32, message: &[u8])
    requires room { length (status_text code message.now) ≤ out.old.spare }
    requires short { length message.now < 2 ^ 32 }
    ensures items { out.new.items ≡ out.old.items ++ status_text code message.now }
    ensures spare { out.new.spare + length (status_text code message.now) ≡ out.old.spare }
{
    put_u32(out, code);
    put_string(out, message);
    put_string(out, b"");
}

#[tactic(auto, unfolding(crate::specs::Replies::entry_text))]
fn put_entry(out: &mut BytesMut, entry: &Entry)
    requires room { length (entry_text entry.now) ≤ out.old.spare }
    requires short_name { length entry.now.filename < 2 ^ 32 }
    requires short_longname { length entry.now.longname < 2 ^ 32 }
    ensures items { out.new.items ≡ out.old.items ++ entry_text entry.now }
    ensures spare { out.new.spare + length (entry_text entry.now) ≡ out.old.spare }
{
    put_string(out, entry.filename.as_slice());
    put_string(out, entry.longname.as_slice());
    put_attrs(out, &entry.attrs);
}

/// Appends the `SSH_FXP_VERSION` packet, or nothing on error. It allocates nothing if the buffer
/// has capacity for the packet.
pub fn write_version(out: &mut BytesMut) -> Result<(), AllocError>
    ensures ok { OnOk result (out.new.items ≡ out.old.items ++ packet version_body) }
    ensures err { OnErr result (out.new.items ≡ out.old.items) }
    ensures spare { UsesSpare result out.old.spare out.new.spare (length (packet version_body)) }
    ensures enough { length (packet version_body) ≤ out.old.spare → IsOk result }
{
    write_string(out, VERSION_BODY)
}

#[tactic(auto, unfolding(crate::specs::Replies::entry_text))]
fn entry_len(entry: &Entry) -> usize
    requires { length (entry_text entry.now) ≤ max_body }
    ensures { result ≡ length (entry_text entry.now) }
{
    8 + entry.filename.len() + entry.longname.len() + attrs_len(&entry.attrs)
}

fn entries_len(entries: &[Entry]) -> usize
    requires { length (flat_map entry_text entries.now) ≤ max_body }
    ensures { result ≡ length (flat_map entry_text entries.now) }
{
    let mut total = 0;
    for entry in entries {
        total += entry_len(entry);
    }
    total
}

fn put_entries(out: &mut BytesMut, entries: &[Entry])
    requires room { length (flat_map entry_text entries.now) ≤ out.old.spare }
    requires short { length (flat_map entry_text entries.now) ≤ max_body }
    ensures items { out.new.items ≡ out.old.items ++ flat_map entry_text entries.now }
    ensures spare { out.new.spare + length (flat_map entry_text entries.now) ≡ out.old.spare }
{
    for entry in entries {
        put_entry(out, entry);
    }
}

fn fields_len(reply: &Reply) -> usize
    requires { length (fields_of reply.now) ≤ 262139 }
    ensures { result ≡ length (fields_of reply.now) }
{
    match reply {
        Reply::Status(code) => status_len(code.message()),
        Reply::NoMemory => status_len(b"Out of memory"),
        Reply::Handle(_) => 12,
        Reply::Data(bytes) => 4 + bytes.len(),
        Reply::Names(listing) => 4 + entries_len(listing.as_slice()),
        Reply::Attrs(attrs) => attrs_len(attrs),
    }
}

fn put_fields(out: &mut BytesMut, reply: &Reply)
    requires room { length (fields_of reply.now) ≤ out.old.spare }
    requires short { length (fields_of reply.now) ≤ 262139 }
    ensures items { out.new.items ≡ out.old.items ++ fields_of reply.now }
    ensures spare { out.new.spare + length (fields_of reply.now) ≡ out.old.spare }
{
    match reply {
        Reply::Status(code) => put_status(out, code.number(), code.message()),
        Reply::NoMemory => put_status(out, 4, b"Out of memory"),
        Reply::Handle(number) => put_string(out, &number.to_be_bytes()),
        Reply::Data(bytes) => put_string(out, bytes.as_slice()),
        Reply::Names(listing) => {
            let entries = listing.as_slice();
            put_u32(out, entries.len() as u32);
            put_entries(out, entries);
        }
        Reply::Attrs(attrs) => put_attrs(out, attrs),
    }
}

fn kind(reply: &Reply) -> u8
    ensures { result ≡ kind_of_reply reply.now }
{
    match reply {
        Reply::Status(_) | Reply::NoMemory => STATUS,
        Reply::Handle(_) => HANDLE,
        Reply::Data(_) => DATA,
        Reply::Names(_) => NAME,
        Reply::Attrs(_) => ATTRS,
    }
}

/// Appends the reply's packet, or nothing on error. It allocates nothing if the buffer has capacity
/// for the packet.
pub fn write_reply(id: u32, reply: &Reply, out: &mut BytesMut) -> Result<(), AllocError>
    requires { length (reply_body id reply.now) ≤ max_body }
    ensures ok { OnOk result (out.new.items ≡ out.old.items ++ packet (reply_body id reply.now)) }
    ensures err { OnErr result (out.new.items ≡ out.old.items) }
    ensures spare { UsesSpare result out.old.spare out.new.spare
        (length (packet (reply_body id reply.now))) }
    ensures enough { length (packet (reply_body id reply.now)) ≤ out.old.spare → IsOk result }
{
    let len = 5 + fields_len(reply);
    out.reserve(4 + len)?;
    put_u32(out, len as u32);
    out.extend_reserved(&[kind(reply)]);
    put_u32(out, id);
    put_fields(out, reply);
    Ok(())
}
