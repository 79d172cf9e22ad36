//! One session: bytes to requests, and replies to bytes.

ghost use Rattle.std.specs.Prelude.{◌≡◌, ◌≢◌, ◌≤◌, ◌+◌, ◌++◌, ◌↔◌, IsTrue, [], length, drop, true, Err, Some, None, IsSome, IfSome, IsOk, IfOk, OnOk, OnErr};
ghost use Rattle.sf_wire.specs.declared.cutting.Cut.TheVariants.{More};
ghost use Rattle.sf_wire.specs.Packets.{IsCut};
ghost use Rattle.sf_reply.specs.Replies.{reply_body, version_body};
ghost use Rattle.sf_field.specs.Fields.{packet};
ghost use Rattle.sf_call.specs.ReplyKinds.{longest_packet};
ghost use Rattle.sf_session.specs.Limits.{local_body};
ghost use Rattle.sf_session.specs.Sessions.{Fronts, new_session, NextGives, refusal_of, reply_room};

use crate::asking::Ask;
use crate::cause::Cause;
use crate::front::{Front, front_of};
use crate::local_reply::{LocalReply, write_local};
use crate::unread::Unread;
use bytes::BytesMut;
use sf_call::{Answer, BeginFault, Request};
use sf_reply::{Reply, StatusCode, write_reply, write_version};
use sf_wire::Cut;
use std::alloc::{AllocError, Global};
use std::marker::Model;
use std::mem;
use thiserror::Error;

/// Capacity of the output buffer in bytes, reserved before a call executes. Smaller freed blocks
/// stay cached in the C library wherever they lie; larger ones it can return to the system.
const REPLIES: usize = 1088;

/// How often an idle session reuses a buffer of that capacity before freeing it.
const USES: u32 = 16;

/// Errors of a session's operations. They leave the session unchanged.
#[derive(Clone, Copy, Debug, PartialEq, Eq, Error)]
pub enum SessionFault {
    /// The operation may be retried.
    #[error("out of memory")]
    OutOfMemory = 1,
    #[error("the session has ended")]
    Ended = 2,
}

/// The result of `Session::next`.
#[derive(Debug, Drop)]
pub enum Next {
    /// There is no complete unread packet.
    More,
    /// A packet was answered without a call; its reply was appended to the output.
    Local,
    /// A packet requires this call. The session waits for its reply.
    Call(Request),
    Ended(Cause),
}

/// An SFTP session: unread input, pending output, and at most one pending call.
#[derive(Debug, Drop)]
pub struct Session {
    alloc: Global,
    unread: Unread,
    output: BytesMut,
    begun: bool,
    waiting: Option<u32>,
    ended: Option<Cause>,
    /// How often the current output buffer was reused.
    uses: u32,
}

impl Model for Session {
    ghost use Rattle.std.specs.Prelude.{◌≢◌, ◌≤◌, None};
    ghost use Rattle.sf_session.specs.Sessions.{SessionView, reply_room};

    ghost Value = { SessionView };

    ghost view = { λ s. record {
      unread = s.unread;
      output = s.output.items;
      begun = s.begun;
      waiting = s.waiting;
      ended = s.ended;
    } };

    ghost invariant = { λ s. s.waiting ≢ None → reply_room ≤ s.output.spare };
}

impl Session {
    /// A new session, without input.
    pub fn new(alloc: Global) -> Session
        ensures { result ≡ new_session }
    {
        Session {
            alloc,
            unread: Unread::new(alloc),
            output: BytesMut::new(alloc),
            begun: false,
            waiting: None,
            ended: None,
            uses: 0,
        }
    }

    /// Appends input to the unread bytes. It returns `OutOfMemory`, or `Ended` after the session's
    /// end.
    pub fn feed(&mut self, bytes: &[u8]) -> Result<(), SessionFault>
        ensures ok { OnOk result ((self.old.ended ≡ None)
            × (self.new ≡ record self.old { unread = self.old.unread ++ bytes.now })) }
        ensures err { OnErr result (self.new ≡ self.old) }
        ensures ended { (result ≡ Err SessionFault.Ended) ↔ (self.old.ended ≢ None) }
    {
        if self.ended.is_some() {
            return Err(SessionFault::Ended);
        }
        if self.unread.extend(bytes).is_err() {
            return Err(SessionFault::OutOfMemory);
        }
        Ok(())
    }

    /// Whether the unread bytes are an incomplete packet, with a valid length as far as it is
    /// complete. It allocates nothing.
    pub fn is_drained(&self) -> bool
        ensures { IsTrue result ↔ IsCut self.now.unread More }
    {
        match self.unread.front() {
            Cut::More => true,
            Cut::Whole(_) | Cut::Bad(_) => false,
        }
    }

    /// Processes the next unread packet, if it is complete. It appends at most one reply packet to
    /// the output. The only error is `OutOfMemory`.
    pub fn next(&mut self) -> Result<Next, SessionFault>
        requires { self.old.waiting ≡ None }
        ensures ok { IfOk result (λ next. NextGives self.old next self.new) }
        ensures err { OnErr result (self.new ≡ self.old) }
        ensures fault { result ≢ Err SessionFault.Ended }
        ensures short { length self.new.output ≤ length self.old.output + longest_packet }
    {
        if let Some(cause) = self.ended {
            return Ok(Next::Ended(cause));
        }
        let Ok(front) = self.front() else {
            return Err(SessionFault::OutOfMemory);
        };
        match front {
            Front::More => Ok(self.more()),
            Front::Wrong(cause) => Ok(self.end(cause)),
            Front::Asks(ask, len) => match ask {
                Ask::Version => self.version(len),
                Ask::Local(id, reply) => self.local(id, reply, len),
                Ask::Call(id, request) => self.call(id, request, len),
                Ask::End(cause) => Ok(self.end(cause)),
            },
        }
    }

    fn front(&self) -> Result<Front, AllocError>
        ensures { IfOk result (λ front. Fronts self.now.begun self.now.unread front) }
    {
        front_of(self.alloc, self.begun, &self.unread)
    }

    /// There is no complete unread packet.
    fn more(&mut self) -> Next
        ensures next { result ≡ Next.More }
        ensures session { self.new ≡ self.old }
    {
        self.let_go();
        Next::More
    }

    fn end(&mut self, cause: Cause) -> Next
        requires { self.old.waiting ≡ None }
        ensures next { result ≡ Next.Ended cause }
        ensures session { self.new ≡ record self.old { unread = []; ended = Some cause } }
    {
        self.unread = Unread::new(self.alloc);
        self.ended = Some(cause);
        self.let_go();
        Next::Ended(cause)
    }

    /// Removes the first packet from the unread bytes.
    fn pass(&mut self, len: usize)
        requires { len ≤ length self.old.unread }
        ensures { self.new ≡ record self.old { unread = drop len self.old.unread; begun = true } }
    {
        self.unread.pass(len);
        self.begun = true;
    }

    fn version(&mut self, len: usize) -> Result<Next, SessionFault>
        requires len { len ≤ length self.old.unread }
        requires free { self.old.waiting ≡ None }
        ensures ok { OnOk result (self.new
            ≡ record self.old {
              unread = drop len self.old.unread;
              output = self.old.output ++ packet version_body;
              begun = true;
            }) }
        ensures next { IfOk result (λ next. next ≡ Next.Local) }
        ensures err { OnErr result (self.new ≡ self.old) }
        ensures fault { result ≢ Err SessionFault.Ended }
    {
        if write_version(&mut self.output).is_err() {
            return Err(SessionFault::OutOfMemory);
        }
        self.pass(len);
        Ok(Next::Local)
    }

    fn local(&mut self, id: u32, reply: LocalReply, len: usize) -> Result<Next, SessionFault>
        requires len { len ≤ length self.old.unread }
        requires free { self.old.waiting ≡ None }
        requires short { length (packet (local_body id reply)) ≤ longest_packet }
        ensures ok { OnOk result (self.new
            ≡ record self.old {
              unread = drop len self.old.unread;
              output = self.old.output ++ packet (local_body id reply);
              begun = true;
            }) }
        ensures next { IfOk result (λ next. next ≡ Next.Local) }
        ensures err { OnErr result (self.new ≡ self.old) }
        ensures short { length self.new.output ≤ length self.old.output + longest_packet }
        ensures fault { result ≢ Err SessionFault.Ended }
    {
        if write_local(id, &reply, &mut self.output).is_err() {
            return Err(SessionFault::OutOfMemory);
        }
        self.pass(len);
        Ok(Next::Local)
    }

    #[inline(always)]
    fn call(&mut self, id: u32, request: Request, len: usize) -> Result<Next, SessionFault>
        requires len { len ≤ length self.old.unread }
        ensures ok { OnOk result (self.new
            ≡ record self.old {
              unread = drop len self.old.unread;
              begun = true;
              waiting = Some id;
            }) }
        ensures next { IfOk result (λ next. next ≡ Next.Call request) }
        ensures err { OnErr result (self.new ≡ self.old) }
        ensures fault { result ≢ Err SessionFault.Ended }
    {
        if self.output.reserve(REPLIES).is_err() {
            return Err(SessionFault::OutOfMemory);
        }
        self.waiting = Some(id);
        self.pass(len);
        Ok(Next::Call(request))
    }

    /// Appends the reply to the pending call. A short reply does not allocate, since its capacity
    /// was reserved.
    #[inline(always)]
    pub fn answer(&mut self, answer: &Answer) -> Result<(), SessionFault>
        requires { IsSome self.old.waiting }
        ensures ok { OnOk result (IfSome self.old.waiting (λ id. self.new
            ≡ record self.old {
              output = self.old.output ++ packet (reply_body id answer.now.reply);
              waiting = None;
            })) }
        ensures err { OnErr result (self.new ≡ self.old) }
        ensures enough { IfSome self.old.waiting (λ id.
            length (packet (reply_body id answer.now.reply)) ≤ reply_room → IsOk result) }
        ensures fault { result ≢ Err SessionFault.Ended }
        ensures short { length self.new.output ≤ length self.old.output + longest_packet }
    {
        let Some(id) = self.waiting else {
            return Ok(());
        };
        if write_reply(id, answer.reply(), &mut self.output).is_err() {
            return Err(SessionFault::OutOfMemory);
        }
        self.waiting = None;
        Ok(())
    }

    /// Replies to the pending call if it could not start: `Out of memory` if memory ran out, else
    /// `Failure`. It does not allocate, since the reply's capacity was reserved.
    pub fn refuse(&mut self, fault: BeginFault)
        requires { IsSome self.old.waiting }
        ensures { IfSome self.old.waiting (λ id. self.new
            ≡ record self.old {
              output = self.old.output ++ packet (reply_body id (refusal_of fault));
              waiting = None;
            }) }
    {
        if let Some(id) = self.waiting {
            if write_reply(id, &refusal(fault), &mut self.output).is_err() {
                unreachable!();
            }
            self.waiting = None;
        }
    }

    /// Ends the session because it was closed. Unread bytes are dropped.
    pub fn close(&mut self)
        requires { self.old.waiting ≡ None }
        ensures { self.new ≡ record self.old { unread = []; ended = Some Cause.Closed } }
    {
        self.end(Cause::Closed);
    }

    /// The bytes to be sent.
    pub fn output(&self) -> &[u8]
        ensures { result.now ≡ self.now.output }
    {
        self.output.as_slice()
    }

    /// Removes the first `n` bytes of the output, which were sent. It allocates nothing. An idle
    /// session keeps a small buffer or none.
    pub fn take_front(&mut self, n: usize)
        requires { n ≤ length self.old.output }
        ensures { self.new ≡ record self.old { output = drop n self.old.output } }
    {
        self.output.advance(n);
        self.let_go();
    }

    /// Frees the output buffer of an idle session: no complete packet is unread, no call is pending
    /// and all output was sent. A small buffer is first reused a few times. A permanent one would
    /// lie above freed memory, which the C library could then not return. While packets are unread,
    /// the buffer stays for their replies.
    fn let_go(&mut self)
        ensures { self.new ≡ self.old }
    {
        if !self.output.is_empty() || self.waiting.is_some() || !self.is_drained() {
            return;
        }
        self.output.clear();
        self.uses = self.uses.saturating_add(1);
        if self.ended.is_some() || self.uses >= USES || self.output.capacity() > REPLIES {
            self.output = BytesMut::new(self.alloc);
            self.uses = 0;
        }
    }

    /// Takes the output, leaving it empty.
    pub fn take_output(&mut self) -> BytesMut
        requires { self.old.waiting ≡ None }
        ensures output { result.items ≡ self.old.output }
        ensures session { self.new ≡ record self.old { output = [] } }
    {
        mem::replace(&mut self.output, BytesMut::new(self.alloc))
    }
}

/// The reply to a call that could not start.
fn refusal(fault: BeginFault) -> Reply
    ensures { result ≡ refusal_of fault }
{
    match fault {
        BeginFault::OutOfMemory => Reply::NoMemory,
        BeginFault::NumbersSpent => Reply::Status(StatusCode::Failure),
    }
}
