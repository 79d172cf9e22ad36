//! The reply that a request expects.

ghost use Rattle.std.specs.Prelude.{◌≡◌, IfSome, IfNone, IfOk, OnErr, is_some, true};
ghost use Rattle.sf_reply.specs.declared.reply.Reply.{Reply};
ghost use Rattle.sf_reply.specs.Reading.{reply_of, HasCountedNames, IsReply};
ghost use Rattle.sf_client.specs.Pending.{is_answer, is_expected, error_code_of, TakesMemory};

use sf_reply::{FoundReply, Reply, StatusCode, find_reply};
use std::alloc::{AllocError, Global};

/// The kind of reply to a successful request.
#[derive(Clone, Copy, Debug, PartialEq, Eq)]
pub(crate) enum PendingReply {
    /// `SSH_FX_OK`.
    Success,
    Handle,
    /// At least one byte, and at most this number.
    Data(u32),
    /// At least one name.
    Names,
    Attrs,
}

impl PendingReply {
    /// Whether the reply is of the expected kind.
    fn is_answered(self, found: &FoundReply<'_>) -> bool
        requires { HasCountedNames found.now }
        ensures { result ≡ is_answer self (reply_of found.now) }
    {
        match (self, found) {
            (PendingReply::Success, FoundReply::Status(StatusCode::Success)) => true,
            (PendingReply::Handle, FoundReply::Handle(_)) => true,
            (PendingReply::Data(most), FoundReply::Data(bytes)) => {
                !bytes.is_empty() && bytes.len() <= most as usize
            }
            (PendingReply::Names, FoundReply::Names(count, _)) => *count > 0,
            (PendingReply::Attrs, FoundReply::Attrs(_)) => true,
            _ => false,
        }
    }

    /// Whether the reply is of the expected kind or an error status.
    pub(crate) fn allows(self, found: &FoundReply<'_>) -> bool
        requires { HasCountedNames found.now }
        ensures { result ≡ is_expected self (reply_of found.now) }
    {
        self.is_answered(found) || is_refused(found)
    }
}

fn is_refused(found: &FoundReply<'_>) -> bool
    ensures { result ≡ is_some (error_code_of (reply_of found.now)) }
{
    match found {
        FoundReply::Status(StatusCode::Success) => false,
        FoundReply::Status(_) | FoundReply::NoMemory => true,
        _ => false,
    }
}

/// The status code of an error reply.
pub(crate) fn refusal(reply: &Reply) -> Option<StatusCode>
    ensures { error_code_of reply.now ≡ result }
{
    match reply {
        Reply::Status(StatusCode::Success) => None,
        Reply::Status(code) => Some(*code),
        Reply::NoMemory => Some(StatusCode::Failure),
        _ => None,
    }
}

/// Copies the reply. Only file data and names allocate.
pub(crate) fn made(alloc: Global, found: FoundReply<'_>) -> Result<Reply, AllocError>
    ensures reply { IfOk result (λ reply. reply ≡ reply_of found.entry) }
    ensures err { OnErr result (TakesMemory (reply_of found.entry)) }
{
    match found {
        FoundReply::Status(code) => Ok(Reply::Status(code)),
        FoundReply::NoMemory => Ok(Reply::NoMemory),
        FoundReply::Handle(number) => Ok(Reply::Handle(number)),
        FoundReply::Attrs(attrs) => Ok(Reply::Attrs(attrs)),
        FoundReply::Data(_) | FoundReply::Names(_, _) => found.to_reply(alloc),
    }
}

/// The expected reply with this id, if the body encodes one.
pub(crate) fn find_pending(body: &[u8], id: u32, pending: PendingReply) -> Option<FoundReply<'_>>
    ensures found { IfSome result (λ found. IsReply body.now id (reply_of found)
        × (is_expected pending (reply_of found) ≡ true)) }
    ensures none { IfNone result ((r : Reply) → IsReply body.now id r
        → is_expected pending r ≡ true → ⊥) }
{
    let (found_id, found) = find_reply(body)?;
    if found_id == id && pending.allows(&found) {
        Some(found)
    } else {
        None
    }
}
