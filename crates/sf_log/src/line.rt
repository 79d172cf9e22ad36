//! Log lines.

ghost use Rattle.std.specs.Prelude.{◌≡◌, OnOk};
ghost use Rattle.std.specs.Io.KnownBytes.{Appends};
ghost use Rattle.sf_log.specs.Lines.{outcome_text, refusal_text, log_line_bytes};

use crate::reply::ReplyText;
use crate::request::RequestText;
use sf_call::{JoinFault, Request};
use sf_reply::Reply;
use sf_session::{Cause, ServeFault};
use std::alloc::Global;
use std::fmt;
use std::io::{self, Write};

/// The contents of one line.
#[derive(Clone, Copy)]
pub enum LogLine<'a> {
    /// A session joined.
    Opened {
        session: u64,
    },
    /// A call was answered.
    Answered {
        session: u64,
        number: u64,
        /// When the call began, in seconds since 1970.
        moment: u32,
        request: &'a Request,
        reply: &'a Reply,
    },
    /// A session that had joined has ended.
    Closed {
        session: u64,
        outcome: Result<Cause, ServeFault>,
    },
    /// A client's session could not join.
    Refused {
        fault: JoinFault,
    },
}

/// Why a session ended; empty if its input ended.
fn words_of(outcome: Result<Cause, ServeFault>) -> &'static str
    ensures { result.now ≡ outcome_text outcome }
{
    match outcome {
        Ok(Cause::Closed) => "",
        Ok(Cause::NotInit) => ": first packet is not INIT",
        Ok(Cause::OldVersion) => ": client version below 3",
        Ok(Cause::SecondInit) => ": second INIT",
        Ok(Cause::ZeroLength) => ": length 0",
        Ok(Cause::TooLong) => ": length above 262144",
        Ok(Cause::NoId) => ": no room for an id",
        Err(ServeFault::Line) => ": the line failed",
        Err(ServeFault::OutOfMemory) => ": out of memory",
        Err(ServeFault::Sessions) => ": too many sessions",
        Err(ServeFault::NumbersSpent) => ": numbers are spent",
    }
}

/// Why a session could not join.
fn refusal_words(fault: JoinFault) -> &'static str
    ensures { result.now ≡ refusal_text fault }
{
    match fault {
        JoinFault::OutOfMemory => ": out of memory",
        JoinFault::Sessions => ": too many sessions",
        JoinFault::NumbersSpent => ": numbers are spent",
    }
}

impl fmt::Display for LogLine<'_> {
    ghost use Rattle.std.specs.Prelude.{Some};
    ghost use Rattle.sf_log.specs.Lines.{line_text};

    ghost output = { λ line. Some (line_text line) };

    fn fmt<W: fmt::Write>(&self, f: &mut fmt::Formatter<W>) -> fmt::Result {
        match *self {
            LogLine::Opened { session } => write!(f, "session {session} opened"),
            LogLine::Answered {
                session,
                number,
                moment,
                request,
                reply,
            } => {
                write!(f, "session {session} call {number} at {moment}")?;
                write!(f, ": {} ->{}", RequestText(request), ReplyText(reply))
            }
            LogLine::Closed { session, outcome } => {
                let words = words_of(outcome);
                write!(f, "session {session} closed{words}")
            }
            LogLine::Refused { fault } => {
                let words = refusal_words(fault);
                write!(f, "client refused{words}")
            }
        }
    }
}

/// Writes the line and a newline in one write. So lines of several writers don't mix, if the output
/// accepts whole writes.
pub fn write_line<W: Write>(alloc: Global, line: &LogLine<'_>, output: &mut W) -> io::Result<()>
    ensures { OnOk result (Appends (W.contents output.old) (W.contents output.new)
        (log_line_bytes line.now)) }
{
    let text = format!(in alloc; "{line}\n")?;
    output.write_all(text.as_bytes())
}
