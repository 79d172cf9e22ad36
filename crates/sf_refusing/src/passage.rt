//! The buffers between a client and its session of the engine.

ghost use Rattle.std.specs.Prelude.{◌≡◌, ◌<◌, ◌≤◌, ◌^◌, ◌++◌, ◌∷◌, ℕ, List, [], length, take, drop, true, false, IfErr, OnOk, OnErr};
ghost use Rattle.std.specs.Global.{Vec};
ghost use Rattle.sf_field.specs.Fields.{packet};
ghost use Rattle.sf_reply.specs.declared.reply.Reply.TheVariants.{Status};
ghost use Rattle.sf_reply.specs.Replies.{reply_body};
ghost use Rattle.sf_engine.specs.declared.event.Event.TheVariants as event;
ghost use Rattle.sf_engine.specs.Promise.{Entry, BytesFed, BytesSent, IsKnown, MayBeRefused};
ghost use Rattle.sf_refusing.specs.Refusing.{HasUnsent};

use bytes::BytesMut;
use sf_engine::{EngineFault, Event, Sftp};
use sf_reply::{MAX_PLAIN_REPLY, Reply, StatusCode, write_reply};
use std::alloc::Global;

/// The bytes that a session received but that weren't passed on, and output that precedes the
/// engine's.
#[derive(Debug, Drop)]
pub(crate) struct Passage {
    pub held: BytesMut,
    pub output: BytesMut,
    /// Whether the engine was fed any of its bytes.
    pub begun: bool,
}

impl Passage {
    /// Empty buffers.
    pub(crate) fn new(alloc: Global) -> Passage
        ensures held { result.held.items ≡ [] }
        ensures output { result.output.items ≡ [] }
        ensures begun { result.begun ≡ false }
    {
        Passage {
            held: BytesMut::new(alloc),
            output: BytesMut::new(alloc),
            begun: false,
        }
    }

    /// Feeds the engine the first `len` buffered bytes.
    pub(crate) fn pass<E: Sftp>(
        &mut self,
        engine: &mut E,
        session: u64,
        len: usize,
    ) -> Result<(), EngineFault>
        requires { len ≤ length self.old.held.items }
        ensures ok { OnOk result ((self.new.held.items ≡ drop len self.old.held.items)
            × (self.new.output.items ≡ self.old.output.items) × (self.new.begun ≡ true)) }
        ensures short { length (take len self.old.held.items) < 2 ^ 63 }
        ensures fed { OnOk result ((fed : Vec ℕ) → fed.items ≡ take len self.old.held.items
            → (log : List Entry) → E.has_log engine.old log
            → E.has_log engine.new (log ++ BytesFed session fed ∷ [])) }
        ensures err { OnErr result ((self.new ≡ self.old) × (engine.new ≡ engine.old)) }
        ensures fault { IfErr result (λ fault. (fed : Vec ℕ)
            → fed.items ≡ take len self.old.held.items
            → (log : List Entry) → E.has_log engine.old log
            → MayBeRefused log (event.Feed session fed) fault) }
    {
        if let Err(fault) = engine.feed(session, &self.held.as_slice()[..len]) {
            return Err(fault);
        }
        self.held.advance(len);
        self.begun = true;
        Ok(())
    }

    /// Moves the engine's output for the session here, so that a status can follow it.
    fn take_output<E: Sftp>(&mut self, engine: &mut E, session: u64) -> Result<(), EngineFault>
        ensures held { self.new.held.items ≡ self.old.held.items }
        ensures begun { self.new.begun ≡ self.old.begun }
        ensures ok { OnOk result (MAX_PLAIN_REPLY ≤ self.new.output.spare) }
        ensures taken { OnOk result ((log : List Entry) → E.has_log engine.old log
            → (unsent : List ℕ) × HasUnsent log session unsent
            × (self.new.output.items ≡ self.old.output.items ++ unsent)
            × E.has_log engine.new (log ++ BytesSent session (length unsent) ∷ [])) }
        ensures err { OnErr result ((self.new.output.items ≡ self.old.output.items)
            × (engine.new ≡ engine.old)) }
        ensures fault { IfErr result (λ fault. (log : List Entry) → E.has_log engine.old log
            → IsKnown log session → fault ≡ EngineFault.OutOfMemory) }
    {
        let Some(output) = engine.output(session) else {
            return Err(EngineFault::NoSuchSession);
        };
        let count = output.len();
        if self.output.reserve(count + MAX_PLAIN_REPLY).is_err() {
            return Err(EngineFault::OutOfMemory);
        }
        let waiting = self.output.len();
        self.output.extend_reserved(output);
        if let Err(fault) = engine.apply(&Event::Sent(session, count)) {
            self.output.truncate(waiting);
            return Err(fault);
        }
        Ok(())
    }

    /// Removes the first buffered packet, which has `len` bytes, and appends a status for it to the
    /// output.
    pub(crate) fn refuse<E: Sftp>(
        &mut self,
        engine: &mut E,
        session: u64,
        len: usize,
        id: u32,
        code: StatusCode,
    ) -> Result<(), EngineFault>
        requires { len ≤ length self.old.held.items }
        ensures held { OnOk result (self.new.held.items ≡ drop len self.old.held.items) }
        ensures begun { self.new.begun ≡ self.old.begun }
        ensures ok { OnOk result ((log : List Entry) → E.has_log engine.old log
            → (unsent : List ℕ) × HasUnsent log session unsent
            × (self.new.output.items
            ≡ self.old.output.items ++ unsent ++ packet (reply_body id (Status code)))
            × E.has_log engine.new (log ++ BytesSent session (length unsent) ∷ [])) }
        ensures err { OnErr result ((self.new.held.items ≡ self.old.held.items)
            × (self.new.output.items ≡ self.old.output.items) × (engine.new ≡ engine.old)) }
        ensures fault { IfErr result (λ fault. (log : List Entry) → E.has_log engine.old log
            → IsKnown log session → fault ≡ EngineFault.OutOfMemory) }
    {
        if let Err(fault) = self.take_output(engine, session) {
            return Err(fault);
        }
        if write_reply(id, &Reply::Status(code), &mut self.output).is_err() {
            unreachable!();
        }
        self.held.advance(len);
        Ok(())
    }
}
