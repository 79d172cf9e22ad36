//! Fault injection in front of an engine.

ghost use Rattle.std.specs.Prelude.{◌≡◌, ◌<◌, ◌≤◌, ◌+◌, ◌-◌, ◌^◌, ◌⊎◌, ◌++◌, ◌∷◌, ◌↔◌, ℕ, IsTrue, List, [], length, take, map, drop, nat_lt, ◌&&◌, true, false, slice_get, Some, None, Ok, Err, IfOk, IfErr, IfSome, IfNone, OnOk, OnErr};
ghost use Rattle.std.specs.Global.{Vec};
ghost use Rattle.sf_wire.specs.declared.cutting.Cut.TheVariants as cut;
ghost use Rattle.sf_wire.specs.Packets.{IsCut};
ghost use Rattle.sf_engine.specs.declared.event.Event.TheVariants as event;
ghost use Rattle.sf_engine.specs.declared.event.Happened.TheVariants as happened;
ghost use Rattle.sf_engine.specs.Promise.{Entry, event_of, result_of, IsKnown, continues, AreTurnsOf, WaitsForBytes};
ghost use Rattle.sf_refusing.specs.declared.given.GivenRule.{GivenRule};
ghost use Rattle.sf_refusing.specs.declared.passage.Passage.{Passage};
ghost use Rattle.sf_refusing.specs.Journal.{Act, Ruled, Received, Delivered, Made, Apart, log_of, received_in, taken_in, since_given, refused_in};
ghost use Rattle.sf_refusing.specs.Refusing.{HasJournal, Have, IsOwn, IsFed, IsTurn, MovesFront, IsNextOutput, MayRefuseFeed, MayRefuseSent};

use crate::front::take_front;
use crate::given::GivenRule;
use crate::passage::Passage;
use crate::rule::Rule;
use sf_engine::{EngineFault, Event, Happened, Sftp};
use sf_wire::{Cut, cut};
use std::alloc::{AllocError, Global};

/// Rules, and the buffers between clients and the sessions of one engine. Clients' bytes are fed
/// here and passed on or refused, packet by packet, and output is read here. A packet is decided
/// when its session waits for bytes. All other events, such as opening or closing a session, are
/// made on the engine itself. Each method must be given the same engine.
#[derive(Drop)]
pub struct Refusals {
    alloc: Global,
    /// The buffers of the sessions 1, 2, 3 and so on. A session beyond the last one has empty
    /// buffers.
    passages: Vec<Passage>,
    rules: Vec<GivenRule>,
}

/// The index of a session's passage.
fn index_of(session: u64, count: usize) -> Option<usize>
    ensures some { IfSome result (λ at. (at + 1 ≡ session) × (at < count)) }
    ensures none { IfNone result ((session ≡ 0) ⊎ (count < session)) }
{
    if session == 0 || session > count as u64 {
        return None;
    }
    Some((session - 1) as usize)
}

impl Refusals {
    /// Refusals without a rule, for an engine with any log.
    pub fn new(alloc: Global) -> Refusals
        ensures { HasJournal result [] }
    {
        Refusals {
            alloc,
            passages: Vec::new(alloc),
            rules: Vec::new(alloc),
        }
    }

    /// Adds a rule, and returns its number: 0, 1, 2 and so on.
    pub fn rule(&mut self, rule: Rule) -> Result<usize, AllocError>
        ensures few { IfOk result (λ number. number < 2 ^ 63) }
        ensures ok { IfOk result (λ number. (journal : List Act) → HasJournal self.old journal
            → HasJournal self.new (journal ++ Ruled rule ∷ [])
            × (since_given (journal ++ Ruled rule ∷ []) number ≡ Some (rule, []))) }
        ensures err { OnErr result ((journal : List Act) → HasJournal self.old journal
            → HasJournal self.new journal) }
    {
        let number = self.rules.len();
        self.rules.push(GivenRule::new(rule))?;
        Ok(number)
    }

    /// Returns the number of requests that the rule with this number has refused.
    pub fn refused(&self, number: usize) -> Option<u64>
        ensures some { IfSome result (λ count. (journal : List Act) → HasJournal self.now journal
            → (rule : Rule) × (since : List Act)
            × (since_given journal number ≡ Some (rule, since))
            × (count ≡ refused_in number since)) }
        ensures none { IfNone result ((journal : List Act) → HasJournal self.now journal
            → since_given journal number ≡ None) }
    {
        Some(self.rules.get(number)?.refused)
    }

    /// Adds passages up to that of a session.
    fn passage_of(&mut self, session: u64) -> Result<usize, AllocError>
        requires { 0 < session }
        ensures at { IfOk result (λ at. (at + 1 ≡ session)
            × (at < length self.new.passages.items)) }
        ensures has { (journal : List Act) → HasJournal self.old journal
            → HasJournal self.new journal }
    {
        'passages: while (self.passages.len() as u64) < session {
            self.passages.push(Passage::new(self.alloc))?;
        }
        Ok((session - 1) as usize)
    }

    /// Feeds bytes to a session. Returns what the engine's event `Feed` returns; a whole packet is
    /// examined in a later turn. An error changes nothing.
    pub fn feed<E: Sftp>(
        &mut self,
        engine: &mut E,
        session: u64,
        bytes: &[u8],
    ) -> Result<Happened, EngineFault>
        ensures ok { OnOk result ((journal : List Act)
            → Have E.has_log engine.old self.old journal
            → (asked : Entry) × IsFed session [] asked × (result_of asked ≡ result)
            × Have E.has_log engine.new self.new
            (journal ++ Made asked ∷ Received session bytes.now ∷ [])) }
        ensures err { OnErr result ((engine.new ≡ engine.old)
            × ((journal : List Act) → HasJournal self.old journal → HasJournal self.new journal)) }
        ensures fault { IfErr result (λ f. (journal : List Act)
            → Have E.has_log engine.old self.old journal
            → MayRefuseFeed (log_of journal) session f) }
    {
        if session == 0 {
            return Err(EngineFault::NoSuchSession);
        }
        let Some(_) = engine.output(session) else {
            return Err(EngineFault::NoSuchSession);
        };
        let Ok(at) = self.passage_of(session) else {
            return Err(EngineFault::OutOfMemory);
        };
        let held = &mut self.passages[at].held;
        if held.reserve(bytes.len()).is_err() {
            return Err(EngineFault::OutOfMemory);
        }
        let fed = engine.feed(session, b"")?;
        held.extend_reserved(bytes);
        Ok(fed)
    }

    /// If a session waits for bytes, its next packet is passed on or refused. Returns whether a
    /// request was refused. Callers that take the engine's turns themselves use this.
    pub fn move_on<E: Sftp>(&mut self, engine: &mut E, session: u64) -> Result<bool, EngineFault>
        ensures { (journal : List Act) → Have E.has_log engine.old self.old journal
            → (acts : List Act) × MovesFront journal session result acts
            × Have E.has_log engine.new self.new (journal ++ acts) }
    {
        let Some(at) = index_of(session, self.passages.len()) else {
            return Ok(false);
        };
        let waits = engine.wants_bytes(session);
        if !waits {
            return Ok(false);
        }
        take_front(
            self.alloc,
            &mut self.rules,
            &mut self.passages[at],
            engine,
            session,
        )
    }

    /// Takes a turn of a session: refuses its next request, or passes on its next packet and takes
    /// a turn of the engine. If memory for a packet runs out, nothing changes.
    pub fn turn<E: Sftp>(
        &mut self,
        engine: &mut E,
        session: u64,
        moment: u32,
    ) -> Result<Happened, EngineFault>
        ensures { (journal : List Act) → Have E.has_log engine.old self.old journal
            → (acts : List Act)
            × IsTurn journal session (λ entries. (e : Entry) × (entries ≡ e ∷ [])
            × (event_of e ≡ event.Turn session moment) × (result_of e ≡ result)) result acts
            × Have E.has_log engine.new self.new (journal ++ acts) }
    {
        if self.move_on(engine, session)? {
            return Ok(Happened::Wrote);
        }
        engine.apply(&Event::Turn(session, moment))
    }

    /// As `turn`, but the engine takes turns until the session's call is answered or blocked, or
    /// 2^64 - 1 turns were made.
    pub fn turns<E: Sftp>(
        &mut self,
        engine: &mut E,
        session: u64,
        moment: u32,
    ) -> Result<Happened, EngineFault>
        ensures { (journal : List Act) → Have E.has_log engine.old self.old journal
            → (acts : List Act)
            × IsTurn journal session (λ entries. AreTurnsOf session moment result entries
            × (continues result ≡ true → 2 ^ 64 - 1 ≤ length entries)) result acts
            × Have E.has_log engine.new self.new (journal ++ acts) }
    {
        if self.move_on(engine, session)? {
            return Ok(Happened::Wrote);
        }
        engine.turns(session, moment)
    }

    /// Returns a session's next output. If a request was refused, this ends with the last status;
    /// the remainder follows once that is sent.
    pub fn output<'a, E: Sftp>(&'a self, engine: &'a E, session: u64) -> Option<&'a [u8]>
        ensures some { IfSome result (λ output. (journal : List Act)
            → Have E.has_log engine.now self.now journal → IsOwn session journal
            → IsKnown (log_of journal) session × IsNextOutput journal session output.now) }
        ensures none { IfNone result ((journal : List Act)
            → Have E.has_log engine.now self.now journal
            → IsKnown (log_of journal) session → ⊥) }
    {
        let output = engine.output(session)?;
        let Some(at) = index_of(session, self.passages.len()) else {
            return Some(output);
        };
        let passage = &self.passages[at];
        if passage.output.is_empty() {
            return Some(output);
        }
        Some(passage.output.as_slice())
    }

    /// Removes the first `count` bytes of a session's output, which were sent. An error changes
    /// nothing.
    pub fn sent<E: Sftp>(
        &mut self,
        engine: &mut E,
        session: u64,
        count: usize,
    ) -> Result<Happened, EngineFault>
        ensures ok { OnOk result ((journal : List Act)
            → Have E.has_log engine.old self.old journal
            → (result ≡ Ok happened.Sent) × (entries : List Entry)
            × Have E.has_log engine.new self.new
            (journal ++ map Made entries ++ Delivered session count ∷ [])) }
        ensures err { OnErr result ((engine.new ≡ engine.old)
            × ((journal : List Act) → HasJournal self.old journal → HasJournal self.new journal)) }
        ensures fault { IfErr result (λ f. (journal : List Act)
            → Have E.has_log engine.old self.old journal → MayRefuseSent journal session count f) }
    {
        let Some(at) = index_of(session, self.passages.len()) else {
            return engine.apply(&Event::Sent(session, count));
        };
        let output = &mut self.passages[at].output;
        let waiting = output.len();
        if count <= waiting {
            output.advance(count);
            return Ok(Happened::Sent);
        }
        let sent = engine.apply(&Event::Sent(session, count - waiting))?;
        output.clear();
        Ok(sent)
    }

    /// Whether a session is idle without a whole packet, and without an invalid length, in its
    /// buffers.
    pub fn wants_bytes<E: Sftp>(&self, engine: &E, session: u64) -> bool
        ensures { (journal : List Act) → Have E.has_log engine.now self.now journal
            → IsOwn session journal → IsTrue result ↔ (WaitsForBytes (log_of journal) session
            × ((held : List ℕ) → received_in session journal ≡ taken_in session journal ++ held
            → IsCut held cut.More)) }
    {
        if !engine.wants_bytes(session) {
            return false;
        }
        match index_of(session, self.passages.len()) {
            Some(at) => matches!(cut(self.passages[at].held.as_slice()), Cut::More),
            None => true,
        }
    }
}
