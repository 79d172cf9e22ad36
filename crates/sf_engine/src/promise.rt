//! The promise of an engine to its users.

ghost use Rattle.std.specs.Prelude.{◌≡◌, ◌<◌, ◌≤◌, ◌-◌, ◌^◌, ◌++◌, ◌∷◌, ◌↔◌, ℕ, Bool, true, false, List, [], length, map, IsTrue, IfOk, IfSome, IfNone, OnErr};
ghost use Rattle.std.specs.Global.{Vec};
ghost use Rattle.std.specs.List.{AllZip, sum_by, flat_map};
ghost use Rattle.sf_call.specs.declared.request.Request.{Request};
ghost use Rattle.sf_engine.specs.Promise.{Entry, event_of, result_of, openings, of_session, IsKnown, IsUnsent, IsKept, AreNeverAllBlocked, refusals, continues, AreTurnsOf, AreRounds, IsDueTo, most_steps, under_way, WaitsForBytes, IsOutcome};

use crate::engine::Engine;
use crate::event::{EngineFault, Event, Happened};
use std::alloc::{AllocError, Global};

/// Many sessions on one tree, by events. An engine has a log of its events. A new engine has the
/// empty log, and each event appends one entry, with the event and the result that the caller
/// received. `kept` and `goes_on` say what holds of each log that an engine has. A log is a value
/// of the proof: no program keeps one.
pub trait Sftp: Drop {
    /// The engine has this log.
    ghost has_log: { Self → List Entry → Type 0 };

    /// No session, and the root alone.
    fn new(alloc: Global) -> Result<Self, AllocError>
        ensures { IfOk result (λ engine. has_log engine []) };

    /// As `new`. The engine holds only the last `n` records in memory.
    fn with_keep(alloc: Global, n: usize) -> Result<Self, AllocError>
        requires { 0 < n }
        ensures { IfOk result (λ engine. has_log engine []) };

    /// Applies one event. A refused event changes nothing.
    fn apply(&mut self, event: &Event) -> Result<Happened, EngineFault>
        ensures on { (log : List Entry) → has_log self.old log → (x : Entry)
            × (event_of x ≡ event.now) × (result_of x ≡ result)
            × has_log self.new (log ++ x ∷ []) }
        ensures err { OnErr result (self.new ≡ self.old) };

    /// The event `Feed` of these bytes. A slice has fewer than 2^63 bytes.
    fn feed(&mut self, session: u64, bytes: &[u8]) -> Result<Happened, EngineFault>
        requires { length bytes.now < 2 ^ 63 }
        ensures on { (fed : Vec ℕ) → fed.items ≡ bytes.now → (log : List Entry)
            → has_log self.old log → (x : Entry) × (event_of x ≡ Event.Feed session fed)
            × (result_of x ≡ result) × has_log self.new (log ++ x ∷ []) }
        ensures err { OnErr result (self.new ≡ self.old) };

    /// The bytes to send to a session.
    fn output(&self, session: u64) -> Option<&[u8]>
        ensures some { IfSome result (λ output. (log : List Entry) → has_log self.now log
            → IsKnown log session × IsUnsent (of_session session log).wrote
            (of_session session log).sent output.now) }
        ensures none { IfNone result ((log : List Entry) → has_log self.now log
            → IsKnown log session → ⊥) };

    /// Turns of a session at a moment, until its call is answered or blocked, or 2^64 - 1 turns
    /// were made. Returns the result of the last one.
    fn turns(&mut self, session: u64, moment: u32) -> Result<Happened, EngineFault>
        ensures { (log : List Entry) → has_log self.old log → (entries : List Entry)
            × AreTurnsOf session moment result entries × has_log self.new (log ++ entries)
            × (continues result ≡ true → 2 ^ 64 - 1 ≤ length entries) };

    /// Applies the events in order. Returns how many were refused.
    fn run(&mut self, events: &[Event]) -> usize
        ensures { (log : List Entry) → has_log self.old log → (entries : List Entry)
            × (map event_of entries ≡ events.now)
            × (result ≡ sum_by (λ x. refusals (result_of x)) entries)
            × has_log self.new (log ++ entries) };

    /// Makes rounds until no call is running. In each round every session whose call is running has
    /// one turn, at the moment 0. Returns the number of rounds.
    fn run_all(&mut self) -> u64
        ensures rounds { (log : List Entry) → has_log self.old log
            → (rounds : List (List Entry)) × (length rounds ≡ result) × AreRounds log rounds
            × has_log self.new (log ++ flat_map (λ r. r) rounds) }
        ensures few { (log : List Entry) → has_log self.old log → (requests : List Request)
            × AllZip (IsDueTo log) (under_way log) requests
            × (result ≤ sum_by most_steps requests) }
        ensures decided { (log : List Entry) → has_log self.new log → under_way log ≡ [] };

    /// Whether a session waits for bytes.
    fn wants_bytes(&self, session: u64) -> bool
        ensures { (log : List Entry) → has_log self.now log
            → IsTrue result ↔ WaitsForBytes log session };

    /// Linearizability, and the results that events may have.
    ghost kept: { (engine : Self) (log : List Entry) → has_log engine log → IsKept log };

    /// If every running call is given turns, one of them makes a step.
    ghost goes_on: { (engine : Self) (log : List Entry) → has_log engine log
        → AreNeverAllBlocked log };
}

impl Sftp for Engine {
    ghost use Rattle.sf_engine.specs.HasLog.{HasPromise};

    ghost has_log = { HasPromise };

    fn new(alloc: Global) -> Result<Engine, AllocError> {
        Engine::new(alloc)
    }

    fn with_keep(alloc: Global, n: usize) -> Result<Engine, AllocError> {
        Engine::with_keep(alloc, n)
    }

    fn apply(&mut self, event: &Event) -> Result<Happened, EngineFault> {
        self.apply(event)
    }

    fn feed(&mut self, session: u64, bytes: &[u8]) -> Result<Happened, EngineFault> {
        self.feed(session, bytes)
    }

    fn output(&self, session: u64) -> Option<&[u8]> {
        self.output(session)
    }

    fn turns(&mut self, session: u64, moment: u32) -> Result<Happened, EngineFault> {
        self.turns(session, moment)
    }

    fn run(&mut self, events: &[Event]) -> usize {
        self.run(events)
    }

    fn run_all(&mut self) -> u64 {
        self.run_all()
    }

    fn wants_bytes(&self, session: u64) -> bool {
        self.wants_bytes(session)
    }

    ghost kept = { λ engine log has. has.0.kept };

    ghost goes_on = { λ engine log has. has.1 };
}

/// The results of events, and the bytes to send to each session after them.
#[derive(Drop)]
pub struct Outcome {
    pub results: Vec<Result<Happened, EngineFault>>,
    pub outputs: Vec<Vec<u8>>,
}

/// The number of sessions that opened, 0 or 1.
fn opened(outcome: &Result<Happened, EngineFault>) -> u64
    ensures is { result ≡ openings outcome.now }
    ensures few { result ≤ 1 }
{
    match outcome {
        Ok(Happened::Opened(_)) => 1,
        _ => 0,
    }
}

/// Applies events to a new engine. Returns the result of each, and the bytes to send to each
/// session after them. Its proof uses the clauses of `Sftp` alone.
pub fn apply_all<E: Sftp>(alloc: Global, events: &[Event]) -> Result<Outcome, AllocError>
    ensures { IfOk result (λ o. IsOutcome events.now o.results.items o.outputs.items) }
{
    let mut engine = E::new(alloc)?;
    let mut results = Vec::new(alloc);
    let mut sessions: u64 = 0;
    'events: for event in events {
        let outcome = engine.apply(event);
        sessions += opened(&outcome);
        results.push(outcome)?;
    }
    let mut outputs = Vec::new(alloc);
    'sessions: for session in 0..sessions {
        let Some(output) = engine.output(session + 1) else {
            unreachable!();
        };
        outputs.push(output.to_vec(alloc)?)?;
    }
    Ok(Outcome { results, outputs })
}
