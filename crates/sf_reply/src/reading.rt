//! Decoding of a reply. A body is accepted exactly if it is the one encoding of a reply, without
//! trailing bytes. The result borrows from the body, so nothing is allocated before all of it is
//! valid.

ghost use Rattle.std.specs.Prelude.{◌≡◌, ◌↔◌, ℕ, IfOk, IfSome, IfNone, OnErr, IsTrue, option_map};
ghost use Rattle.std.specs.Int.{w64};
ghost use Rattle.sf_field.specs.Reading.{Gives, number_at, string_at, sent_attrs_at};
ghost use Rattle.sf_reply.specs.declared.reply.Reply.{Reply};
ghost use Rattle.sf_reply.specs.declared.reply.Reply.TheVariants.{Names};
ghost use Rattle.sf_reply.specs.Replies.{version_body};
ghost use Rattle.sf_reply.specs.Reading.{IsReply, code_of, status_of, status_at, handle_at, whole, entry_at, entries_at, after_entries, names_at, reply_fields_at, reply_at, listed, reply_of, HasCountedNames};

use crate::reply::{Entry, Listing, Reply, StatusCode};
use crate::replying::{ATTRS, DATA, HANDLE, NAME, STATUS, VERSION_BODY};
use sf_field::{Attrs, ByteString, bytes_at, sent_attrs_of, u32_at, u64_at};
use std::alloc::{AllocError, Global};

/// A decoded reply that borrows from its body.
#[derive(Clone, Copy, Debug)]
pub enum FoundReply<'a> {
    Status(StatusCode),
    /// `SSH_FX_FAILURE` with the message `Out of memory`.
    NoMemory,
    /// The number of the `OPEN` or `OPENDIR` call that created the handle.
    Handle(u64),
    /// File data.
    Data(&'a [u8]),
    /// The number of names, and their encoding.
    Names(u32, &'a [u8]),
    Attrs(Attrs),
}

/// The status code with this number.
fn code(number: u32) -> Option<StatusCode>
    ensures { result ≡ code_of number }
{
    match number {
        0 => Some(StatusCode::Success),
        1 => Some(StatusCode::EndOfFile),
        2 => Some(StatusCode::NoSuchFile),
        3 => Some(StatusCode::PermissionDenied),
        4 => Some(StatusCode::Failure),
        5 => Some(StatusCode::BadMessage),
        8 => Some(StatusCode::OpUnsupported),
        _ => None,
    }
}

fn status_by(number: u32, message: &[u8]) -> Option<FoundReply<'static>>
    ensures found { Gives (λ x. reply_of x) result (status_of number message.now) }
    ensures counted { IfSome result HasCountedNames }
{
    if number == 4 && message == b"Out of memory".as_slice() {
        return Some(FoundReply::NoMemory);
    }
    let code = code(number)?;
    if message == code.message() {
        Some(FoundReply::Status(code))
    } else {
        None
    }
}

#[tactic(auto, unfolding(crate::specs::Reading::whole))]
fn last_string(bytes: &[u8]) -> Option<&[u8]>
    ensures { Gives (λ x. x.now) result (whole string_at bytes.now) }
{
    let (text, rest) = bytes_at(bytes)?;
    if rest.is_empty() { Some(text) } else { None }
}

#[tactic(auto, unfolding(crate::specs::Reading::status_at))]
fn status(bytes: &[u8]) -> Option<FoundReply<'_>>
    ensures found { Gives (λ x. reply_of x) result (status_at bytes.now) }
    ensures counted { IfSome result HasCountedNames }
{
    let (number, rest) = u32_at(bytes)?;
    let (message, rest) = bytes_at(rest)?;
    let tag = last_string(rest)?;
    if tag.is_empty() {
        status_by(number, message)
    } else {
        None
    }
}

#[tactic(auto, unfolding(crate::specs::Reading::whole))]
fn last_u64(bytes: &[u8]) -> Option<u64>
    ensures { result ≡ whole (number_at w64) bytes.now }
{
    let (number, rest) = u64_at(bytes)?;
    if rest.is_empty() { Some(number) } else { None }
}

#[tactic(auto, unfolding(crate::specs::Reading::handle_at, crate::specs::Reading::whole))]
fn last_handle(bytes: &[u8]) -> Option<u64>
    ensures { result ≡ whole handle_at bytes.now }
{
    let (text, rest) = bytes_at(bytes)?;
    let number = last_u64(text)?;
    if rest.is_empty() { Some(number) } else { None }
}

#[tactic(auto, unfolding(crate::specs::Reading::whole))]
fn last_attrs(bytes: &[u8]) -> Option<Attrs>
    ensures { result ≡ whole sent_attrs_at bytes.now }
{
    let (attrs, rest) = sent_attrs_of(bytes)?;
    if rest.is_empty() { Some(attrs) } else { None }
}

/// A name, its `longname`, its attributes, and the remaining bytes.
#[tactic(auto, unfolding(crate::specs::Reading::entry_at))]
fn entry_of(bytes: &[u8]) -> Option<(&[u8], &[u8], Attrs, &[u8])>
    ensures { Gives (λ x. (
      record {
        filename = x.0.now;
        longname = x.1.now;
        attrs = x.2;
      },
      x.3.now,
    )) result (entry_at bytes.now) }
{
    let (filename, rest) = bytes_at(bytes)?;
    let (longname, rest) = bytes_at(rest)?;
    let (attrs, rest) = sent_attrs_of(rest)?;
    Some((filename, longname, attrs, rest))
}

/// The bytes after `count` entries.
fn skip_entries(count: u32, bytes: &[u8]) -> Option<&[u8]>
    ensures { Gives (λ x. x.now) result (after_entries count bytes.now) }
{
    let mut rest = bytes;
    for _ in 0..count {
        let (_, _, _, after) = entry_of(rest)?;
        rest = after;
    }
    Some(rest)
}

#[tactic(auto, unfolding(crate::specs::Reading::names_at, crate::specs::Reading::whole))]
fn last_names(bytes: &[u8]) -> Option<FoundReply<'_>>
    ensures found { Gives (λ x. reply_of x) result (option_map Names (whole names_at bytes.now)) }
    ensures counted { IfSome result HasCountedNames }
{
    let (count, entries) = u32_at(bytes)?;
    let rest = skip_entries(count, entries)?;
    if rest.is_empty() {
        Some(FoundReply::Names(count, entries))
    } else {
        None
    }
}

#[tactic(auto, unfolding(crate::specs::Reading::reply_fields_at))]
fn fields(kind: u8, bytes: &[u8]) -> Option<FoundReply<'_>>
    ensures found { Gives (λ x. reply_of x) result (reply_fields_at kind bytes.now) }
    ensures counted { IfSome result HasCountedNames }
{
    match kind {
        STATUS => status(bytes),
        HANDLE => Some(FoundReply::Handle(last_handle(bytes)?)),
        DATA => Some(FoundReply::Data(last_string(bytes)?)),
        NAME => last_names(bytes),
        ATTRS => Some(FoundReply::Attrs(last_attrs(bytes)?)),
        _ => None,
    }
}

#[tactic(auto, unfolding(crate::specs::Reading::reply_at))]
fn reply(body: &[u8]) -> Option<(u32, FoundReply<'_>)>
    ensures found { Gives (λ x. (x.0, reply_of x.1)) result (reply_at body.now) }
    ensures counted { IfSome result (λ x. HasCountedNames x.1) }
{
    let [kind, rest @ ..] = body else {
        return None;
    };
    let (id, bytes) = u32_at(rest)?;
    let found = fields(*kind, bytes)?;
    Some((id, found))
}

/// Decodes a body, which is a packet without its length field: the request id and the reply. It
/// returns `None` if the body is not the encoding of a reply. It allocates nothing.
pub fn find_reply(body: &[u8]) -> Option<(u32, FoundReply<'_>)>
    ensures found { IfSome result (λ x. IsReply body.now x.0 (reply_of x.1)) }
    // The count of names is correct.
    ensures counted { IfSome result (λ x. HasCountedNames x.1) }
    // On `None`, the body encodes no reply.
    ensures none { IfNone result ((id : ℕ) (r : Reply) → IsReply body.now id r → ⊥) }
{
    reply(body)
}

/// Copies `count` entries.
fn entries(alloc: Global, count: u32, bytes: &[u8]) -> Result<Vec<Entry>, AllocError>
    ensures { IfOk result (λ entries. entries.items ≡ listed (entries_at count bytes.now)) }
{
    let mut entries = Vec::new(alloc);
    let mut rest = bytes;
    for _ in 0..count {
        let Some((filename, longname, attrs, after)) = entry_of(rest) else {
            return Ok(Vec::new(alloc));
        };
        let filename = ByteString::from_slice(alloc, filename)?;
        let longname = ByteString::from_slice(alloc, longname)?;
        entries.push(Entry {
            filename,
            longname,
            attrs,
        })?;
        rest = after;
    }
    Ok(entries)
}

impl FoundReply<'_> {
    /// Copies the reply. Only data and names allocate, by the bytes present and never by a count
    /// that was read.
    pub fn to_reply(&self, alloc: Global) -> Result<Reply, AllocError>
        ensures { IfOk result (λ r. r ≡ reply_of self.now) }
    {
        Ok(match self {
            FoundReply::Status(code) => Reply::Status(*code),
            FoundReply::NoMemory => Reply::NoMemory,
            FoundReply::Handle(number) => Reply::Handle(*number),
            FoundReply::Data(bytes) => Reply::Data(ByteString::from_slice(alloc, bytes)?),
            FoundReply::Names(count, bytes) => {
                Reply::Names(Listing::from_vec(entries(alloc, *count, bytes)?)?)
            }
            FoundReply::Attrs(attrs) => Reply::Attrs(*attrs),
        })
    }
}

/// Decodes and copies a reply: the request id and the reply, or `None` if the body is not the
/// encoding of a reply. It fails only if an allocation fails.
pub fn read_reply(alloc: Global, body: &[u8]) -> Result<Option<(u32, Reply)>, AllocError>
    ensures found { IfOk result (λ found. IfSome found (λ x. IsReply body.now x.0 x.1)) }
    ensures none { IfOk result (λ found. IfNone found ((id : ℕ) (r : Reply) → IsReply body.now id r
        → ⊥)) }
    ensures err { OnErr result ((id : ℕ) × (r : Reply) × IsReply body.now id r) }
{
    let Some((id, found)) = find_reply(body) else {
        return Ok(None);
    };
    Ok(Some((id, found.to_reply(alloc)?)))
}

/// Whether a body is the `SSH_FXP_VERSION` that the server sends.
pub fn is_version(body: &[u8]) -> bool
    ensures { IsTrue result ↔ (body.now ≡ version_body) }
{
    body == VERSION_BODY
}
