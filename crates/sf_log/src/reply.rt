//! Replies in a line.

ghost use Rattle.std.specs.Prelude.{◌≡◌};
ghost use Rattle.sf_reply.specs.Replies.{message_of};

use crate::request::AttrsText;
use sf_reply::{Reply, StatusCode};
use std::fmt;

/// A reply's words and numbers, after a space.
#[derive(Clone, Copy)]
pub(crate) struct ReplyText<'a>(pub(crate) &'a Reply);

/// The message of a status code.
fn message(code: StatusCode) -> &'static str
    ensures { result.now ≡ message_of code }
{
    match code {
        StatusCode::Success => "Success",
        StatusCode::EndOfFile => "End of file",
        StatusCode::NoSuchFile => "No such file",
        StatusCode::PermissionDenied => "Permission denied",
        StatusCode::Failure => "Failure",
        StatusCode::BadMessage => "Bad message",
        StatusCode::OpUnsupported => "Operation unsupported",
    }
}

impl fmt::Display for ReplyText<'_> {
    ghost use Rattle.std.specs.Prelude.{Some};
    ghost use Rattle.sf_log.specs.Lines.{reply_text};

    ghost output = { λ reply. Some (reply_text reply.0.now) };

    fn fmt<W: fmt::Write>(&self, f: &mut fmt::Formatter<W>) -> fmt::Result {
        match self.0 {
            Reply::Status(code) => {
                let message = message(*code);
                write!(f, " {message}")
            }
            Reply::NoMemory => f.write_str(" Out of memory"),
            Reply::Handle(number) => write!(f, " handle {number}"),
            Reply::Data(bytes) => {
                let len = bytes.len();
                write!(f, " data of length {len}")
            }
            Reply::Names(listing) => {
                let len = listing.as_slice().len();
                write!(f, " names {len}")
            }
            Reply::Attrs(attrs) => write!(f, "{}", AttrsText(attrs)),
        }
    }
}
