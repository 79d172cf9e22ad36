//! Many sessions on one core.

ghost use Rattle.std.specs.Prelude.{◌≡◌, ◌<◌, ◌≤◌, ◌+◌, ◌-◌, ◌^◌, ◌⊎◌, ℕ, true, false, List, [], length, slice_get, Some, None, OnErr, IfOk, IfSome, IfNone};
ghost use Rattle.std.specs.Global.{Vec};
ghost use Rattle.sf_call.specs.Histories.{replay};
ghost use Rattle.sf_call.specs.Leaves.{leaves_of};
ghost use Rattle.sf_core.specs.Cores.{new_core};
ghost use Rattle.sf_core.specs.Histories.{IsHistory};
ghost use Rattle.sf_engine.specs.declared.hosted.HostedSession.{HostedSession};
ghost use Rattle.sf_engine.specs.Turns.{is_under_way};
ghost use Rattle.sf_engine.specs.Promise.{refusals, Entry, linearization};
ghost use Rattle.sf_engine.specs.HasLog.{IsEngine, left_to, HasLog, open_result, AppendsEntry, AppendsTurns, ShowsOutput, IsNoSession, AppendsEvents, AppendsRound, AppendsRounds, AreDecided, IsWithinBounds, WantsBytes};

use crate::event::{EngineFault, Event, Happened};
use crate::hosted::{
    HostedSession, close_hosted, feed_hosted, open_hosted, send_hosted, turn_hosted, turns_hosted,
    wants_bytes,
};
use sf_call::{JoinFault, Leaf};
use sf_core::Core;
use std::alloc::{AllocError, Global};
use std::marker::Model;

/// Many sessions on one core, by events, without threads. The engine keeps no log of them.
pub struct Engine {
    alloc: Global,
    core: Core,
    hosted: Vec<HostedSession>,
}

impl Drop for Engine {
    // By hand, so that a proof that drops an engine sees one call and not the engine's parts.
    fn drop(self) {
        let Engine {
            alloc: _,
            core: _core,
            hosted: _hosted,
        } = self;
    }
}

impl Model for Engine {
    ghost use Rattle.sf_engine.specs.Views.{EngineView};

    ghost Value = { EngineView };

    ghost view = { λ e. record { core = e.core; hosted = e.hosted.items } };

    ghost use Rattle.sf_engine.specs.HasLog.{IsEngine};

    ghost invariant = { λ e. IsEngine e.core e.hosted.items };
}

/// The index of a session in the list of hosted sessions.
fn index_of(session: u64, count: usize) -> Option<usize>
    ensures some { IfSome result (λ at. (at + 1 ≡ session) × (at < count)) }
    ensures none { IfNone result ((session ≡ 0) ⊎ (count < session)) }
{
    if session == 0 || session > count as u64 {
        return None;
    }
    Some((session - 1) as usize)
}

/// 1 if the event was refused, else 0.
fn refusal(outcome: &Result<Happened, EngineFault>) -> usize
    ensures is { result ≡ refusals outcome.now }
    ensures few { result ≤ 1 }
{
    match outcome {
        Ok(_) => 0,
        Err(_) => 1,
    }
}

/// The result of the event `Open`.
fn open_result(opened: Result<u64, JoinFault>) -> Result<Happened, EngineFault>
    ensures { result ≡ open_result opened }
{
    match opened {
        Ok(session) => Ok(Happened::Opened(session)),
        Err(JoinFault::OutOfMemory) => Err(EngineFault::OutOfMemory),
        Err(JoinFault::Sessions) => Err(EngineFault::Sessions),
        Err(JoinFault::NumbersSpent) => Err(EngineFault::NumbersSpent),
    }
}

impl Engine {
    /// No session, and the root alone. The core keeps all records.
    pub fn new(alloc: Global) -> Result<Engine, AllocError>
        ensures log { IfOk result (λ engine. HasLog engine []) }
        ensures keep { IfOk result (λ engine. engine.core.keep ≡ None) }
    {
        let core = Core::new(alloc)?;
        Ok(Engine::over(alloc, core))
    }

    /// As `new`, but the core keeps only the last `n` records. Replies do not depend on it.
    pub fn with_keep(alloc: Global, n: usize) -> Result<Engine, AllocError>
        requires { 0 < n }
        ensures log { IfOk result (λ engine. HasLog engine []) }
        ensures keep { IfOk result (λ engine. engine.core.keep ≡ Some n) }
    {
        let core = Core::with_keep(alloc, n)?;
        Ok(Engine::over(alloc, core))
    }

    /// An engine without sessions on a new core.
    fn over(alloc: Global, core: Core) -> Engine
        requires core { core ≡ new_core core.keep core.store }
        requires history { IsHistory core [] }
        ensures log { HasLog result [] }
        ensures keep { result.core.keep ≡ core.keep }
    {
        Engine {
            alloc,
            core,
            hosted: Vec::new(alloc),
        }
    }

    /// The event `Open`. Returns the session's number.
    pub fn open(&mut self) -> Result<u64, JoinFault>
        ensures log { AppendsEntry self.old Event.Open (open_result result) self.new }
        ensures err { OnErr result (self.new ≡ self.old) }
    {
        open_hosted(self.alloc, &mut self.core, &mut self.hosted)
    }

    fn turn(&mut self, session: u64, moment: u32) -> Result<Happened, EngineFault>
        ensures log { AppendsEntry self.old (Event.Turn session moment) result self.new }
        ensures err { OnErr result (self.new ≡ self.old) }
    {
        let Some(at) = index_of(session, self.hosted.len()) else {
            return Err(EngineFault::NoSuchSession);
        };
        turn_hosted(&mut self.core, &mut self.hosted[at], moment)
    }

    fn close(&mut self, session: u64) -> Result<Happened, EngineFault>
        ensures log { AppendsEntry self.old (Event.Close session) result self.new }
        ensures err { OnErr result (self.new ≡ self.old) }
    {
        let Some(at) = index_of(session, self.hosted.len()) else {
            return Err(EngineFault::NoSuchSession);
        };
        close_hosted(&mut self.core, &mut self.hosted[at]);
        Ok(Happened::Closed)
    }

    /// Applies one event. A refused event changes nothing.
    pub fn apply(&mut self, event: &Event) -> Result<Happened, EngineFault>
        ensures log { AppendsEntry self.old event.now result self.new }
        ensures err { OnErr result (self.new ≡ self.old) }
    {
        match event {
            Event::Open => open_result(self.open()),
            Event::Feed(session, bytes) => self.feed(*session, bytes),
            Event::Turn(session, moment) => self.turn(*session, *moment),
            Event::Close(session) => self.close(*session),
            Event::Sent(session, n) => self.sent(*session, *n),
        }
    }

    /// The event `Feed` of these bytes, without a copy for the event. A slice has fewer than 2^63
    /// bytes.
    pub fn feed(&mut self, session: u64, bytes: &[u8]) -> Result<Happened, EngineFault>
        requires { length bytes.now < 2 ^ 63 }
        ensures log { (fed : Vec ℕ) → fed.items ≡ bytes.now
            → AppendsEntry self.old (Event.Feed session fed) result self.new }
        ensures err { OnErr result (self.new ≡ self.old) }
    {
        let Some(at) = index_of(session, self.hosted.len()) else {
            return Err(EngineFault::NoSuchSession);
        };
        feed_hosted(&mut self.hosted[at], bytes)
    }

    /// The event `Sent`: drops the first `n` bytes of a session's output.
    pub fn sent(&mut self, session: u64, n: usize) -> Result<Happened, EngineFault>
        ensures log { AppendsEntry self.old (Event.Sent session n) result self.new }
        ensures err { OnErr result (self.new ≡ self.old) }
    {
        let Some(at) = index_of(session, self.hosted.len()) else {
            return Err(EngineFault::NoSuchSession);
        };
        send_hosted(&mut self.hosted[at], n)
    }

    /// Turns of a session at a moment, until its call is answered or blocked. Returns the result of
    /// the last one. Reads at most one packet.
    pub fn turns(&mut self, session: u64, moment: u32) -> Result<Happened, EngineFault>
        ensures { AppendsTurns self.old session moment result self.new }
    {
        let Some(at) = index_of(session, self.hosted.len()) else {
            return Err(EngineFault::NoSuchSession);
        };
        turns_hosted(&mut self.core, &mut self.hosted[at], moment)
    }

    /// The number of sessions that ever opened.
    fn count(&self) -> usize
        ensures count { result ≡ length self.now.hosted }
        ensures engine { IsEngine self.now.core self.now.hosted }
    {
        self.hosted.len()
    }

    /// Whether the call of the session at this index is running.
    fn is_under_way(&self, at: usize) -> bool
        requires { at < length self.now.hosted }
        ensures { (hosted_session : HostedSession)
            → slice_get self.now.hosted at ≡ Some hosted_session
            → result ≡ is_under_way hosted_session.place }
    {
        self.hosted[at].place.is_under_way()
    }

    /// One turn of each session whose call is running, by rising number. Returns whether there was
    /// one.
    fn round(&mut self) -> bool
        ensures some { result ≡ true → left_to self.new < left_to self.old }
        ensures none { result ≡ false → self.new ≡ self.old }
        ensures log { AppendsRound self.old result self.new }
    {
        let mut any = false;
        'hosted: for at in 0..self.count() {
            if self.is_under_way(at) {
                any = true;
                let _stepped = self.turn(at as u64 + 1, 0);
            }
        }
        any
    }

    /// Makes rounds until no call is running. In each round every session whose call is running has
    /// one turn, by rising number, at the moment 0. Returns the number of rounds. Later turns write
    /// the replies. Allocates nothing, and no turn is refused.
    pub fn run_all(&mut self) -> u64
        ensures log { AppendsRounds self.old result self.new }
        ensures few { IsWithinBounds result self.old }
        ensures decided { AreDecided self.new }
    {
        // The read makes the engine's invariant known to the proof.
        let _core = &self.core;
        let mut rounds: u64 = 0;
        'rounds: while self.round() {
            rounds += 1;
        }
        rounds
    }

    /// Applies the events in order. Returns how many were refused.
    pub fn run(&mut self, events: &[Event]) -> usize
        ensures { AppendsEvents self.old events.now result self.new }
    {
        let mut refused = 0;
        for event in events {
            let outcome = self.apply(event);
            refused += refusal(&outcome);
        }
        refused
    }

    /// The bytes to send to a session: its replies, without the bytes that were sent. They stay
    /// readable after the session left.
    pub fn output(&self, session: u64) -> Option<&[u8]>
        ensures log { IfSome result (λ output. ShowsOutput self.now session output.now) }
        ensures none { IfNone result (IsNoSession self.now session) }
    {
        let Some(at) = index_of(session, self.hosted.len()) else {
            return None;
        };
        let hosted_session = &self.hosted[at];
        Some(hosted_session.session.output())
    }

    /// Whether a turn of the session would be `Idle`: it rests, and its unread bytes have no whole
    /// packet and no wrong length. False for an unknown session.
    pub fn wants_bytes(&self, session: u64) -> bool
        ensures { WantsBytes self.now session result }
    {
        let Some(at) = index_of(session, self.hosted.len()) else {
            return false;
        };
        wants_bytes(&self.hosted[at])
    }

    /// A snapshot of the tree after the calls that were decided so far, in the order of paths. It
    /// has each path once, with its label, its attributes and a file's contents. A WRITE that still
    /// copies counts as copied. The contents are shared and not copied.
    pub fn tree(&self, alloc: Global) -> Result<Vec<Leaf>, AllocError>
        ensures { IfOk result (λ leaves. (log : List Entry) → HasLog self.now log
            → leaves.items ≡ leaves_of (replay (linearization log))) }
    {
        self.core.tree(alloc)
    }

    /// The core.
    pub fn core(&self) -> &Core
        ensures { result.now ≡ self.now.core }
    {
        &self.core
    }
}
