//! The core of the server.

ghost use Rattle.std.specs.Prelude.{◌≡◌, ◌≢◌, ◌<◌, ◌+◌, ◌++◌, ◌∷◌, [], List, None, Some, false, IsSome, IfOk, IfErr, IfSome, IfNone, OnOk, OnErr};
ghost use Rattle.sf_call.specs.declared.record.Record.{Record};
ghost use Rattle.sf_call.specs.declared.record.Record.TheVariants.{Left};
ghost use Rattle.sf_call.specs.Histories.{IsGiven, replay};
ghost use Rattle.sf_call.specs.Leaves.{leaves_of};
ghost use Rattle.sf_core.specs.Cores.{new_core, lane_state, joined, last_number, most_sessions};
ghost use Rattle.sf_core.specs.Cores.LaneState.{Idle};
ghost use Rattle.sf_core.specs.Histories.{IsHistory};
ghost use Rattle.sf_core.specs.Progress.{is_at_once};
ghost use Rattle.sf_reply.specs.declared.reply.Reply.{Reply};
ghost use Rattle.sf_core.specs.Stuck.{IsNeverStuck};
ghost use Rattle.sf_core.specs.Owners.{OwnsCalls};
ghost use Rattle.sf_core.specs.declared.step.Step.TheVariants.{Answered};
ghost use Rattle.sf_core.specs.Writing.{ReportsStep};
ghost use Rattle.sf_core.specs.Events.{StepsOn, Walks, Joins, CallBegins, begun, AnswersAtOnce, SessionLeaves, RefusesJoin, RefusesBegin, walk_end};

use crate::fault::CoreFault;
use crate::lane::{Lane, Share};
use crate::parts::{Parts, WalkOutcome};
use crate::room::Room;
use crate::step::Step;
use sf_book::Book;
use sf_call::{Answer, BeginFault, JoinFault, Leaf, Record, Request};
use sf_reply::Reply;
use sf_walk::Walk;
use std::alloc::{AllocError, Global};
use std::marker::Model;

/// The most sessions that may be joined at once.
const MOST_SESSIONS: usize = 256;

/// The last number of a call and of a session.
const LAST_NUMBER: u64 = u64::MAX / 2;

/// One tree, and the calls of all sessions on it. Each call advances by steps.
pub struct Core {
    parts: Parts,
    // The numbers of the calls that a rename helps. It has room for all undecided calls.
    overtaken: Vec<u64>,
    room: Room,
}

impl Drop for Core {
    // By hand: a proof about dropping a core then has one call, and not the drops of its parts.
    fn drop(self) {
        let Core {
            parts: _parts,
            overtaken: _overtaken,
            room: _room,
        } = self;
    }
}

impl Model for Core {
    ghost use Rattle.std.specs.Prelude.{◌≤◌};
    ghost use Rattle.sf_core.specs.Progress.{undecided_in};
    ghost use Rattle.std.specs.Vec.{vec_capacity};
    ghost use Rattle.sf_core.specs.Cores.{CoreView};
    ghost use Rattle.sf_core.specs.Parts.{core_of};
    ghost use Rattle.sf_core.specs.Sound.{IsCore};

    ghost Value = { CoreView };

    ghost view = { λ core. core_of core.parts };

    ghost invariant = { λ core. IsCore core.parts
        × (undecided_in core.parts.calls ≤ vec_capacity core.overtaken) };
}

impl Core {
    /// A core with an empty root directory, no session, no call and no record. It retains all
    /// records.
    pub fn new(alloc: Global) -> Result<Core, AllocError>
        ensures core { IfOk result (λ core. core ≡ new_core None core.store) }
        ensures history { IfOk result (λ core. IsHistory core []) }
    {
        Ok(Core {
            parts: Parts::new(alloc, Book::new(alloc))?,
            overtaken: Vec::new(alloc),
            room: Room::new(),
        })
    }

    /// As `new`, but the core retains only the last `n` records. Its replies are the same.
    pub fn with_keep(alloc: Global, n: usize) -> Result<Core, AllocError>
        requires { 0 < n }
        ensures core { IfOk result (λ core. core ≡ new_core (Some n) core.store) }
        ensures history { IfOk result (λ core. IsHistory core []) }
    {
        Ok(Core {
            parts: Parts::new(alloc, Book::with_keep(alloc, n))?,
            overtaken: Vec::new(alloc),
            room: Room::new(),
        })
    }

    /// Returns why no session can join, except for an allocation failure.
    pub fn join_fault(&self) -> Option<JoinFault>
        ensures some { IfSome result (λ fault. (fault ≢ JoinFault.OutOfMemory)
            × RefusesJoin self.now fault) }
        ensures none { IfNone result ((joined self.now < most_sessions)
            × (self.now.joins < last_number)) }
    {
        if self.parts.joined() >= MOST_SESSIONS {
            return Some(JoinFault::Sessions);
        }
        if self.parts.joins() >= LAST_NUMBER {
            return Some(JoinFault::NumbersSpent);
        }
        None
    }

    /// A session joins. Room for the record of its leaving is reserved.
    ///
    /// Errors: `Sessions` if 256 sessions are joined, `NumbersSpent` after 2^63 - 1 joins, and
    /// `OutOfMemory`.
    pub fn join(&mut self) -> Result<Lane, JoinFault>
        ensures lane { IfOk result (λ lane. lane
            ≡ record { session = self.old.joins + 1; call = None; begun = 0 }) }
        ensures ok { OnOk result (Joins self.old self.new) }
        ensures history { OnOk result ((h : List Record) → IsHistory self.old h
            → IsHistory self.new h) }
        ensures err { OnErr result (self.new ≡ self.old) }
        ensures fault { IfErr result (λ fault. RefusesJoin self.old fault) }
    {
        if self.parts.joined() >= MOST_SESSIONS {
            return Err(JoinFault::Sessions);
        }
        if self.parts.joins() >= LAST_NUMBER {
            return Err(JoinFault::NumbersSpent);
        }
        let Ok(()) = self.parts.join() else {
            return Err(JoinFault::OutOfMemory);
        };
        Ok(Lane {
            session: self.parts.joins(),
            call: None,
            begun: 0,
        })
    }

    /// Begins a call of the lane, under the next number, at the timestamp `moment` (seconds since
    /// 1970). It takes no step yet. Room for its record is reserved, and in the list of helped
    /// calls. A call that would leave too little memory for packets is refused.
    ///
    /// Errors: `Stranger` if the lane's session isn't joined and idle, `NumbersSpent` if all
    /// 2^63 - 1 call numbers are used, and `OutOfMemory`.
    pub fn begin(&mut self, lane: &mut Lane, request: Request, moment: u32) -> Result<(), CoreFault>
        requires { lane.old.call ≡ None }
        ensures ok { OnOk result (CallBegins self.old self.new lane.old request moment) }
        ensures place { OnOk result (lane.new ≡ begun lane.old self.new.drawn) }
        ensures history { OnOk result ((h : List Record) → IsHistory self.old h
            → IsHistory self.new h) }
        ensures err { OnErr result ((self.new ≡ self.old) × (lane.new ≡ lane.old)) }
        ensures fault { IfErr result (λ fault. RefusesBegin self.old lane.old fault) }
    {
        if !self.parts.is_idle(lane.session) {
            return Err(CoreFault::Stranger);
        }
        if self.parts.drawn() >= LAST_NUMBER {
            return Err(CoreFault::Refused(BeginFault::NumbersSpent));
        }
        if !self.room.allows(*self.overtaken.allocator(), &request) {
            return Err(CoreFault::Refused(BeginFault::OutOfMemory));
        }
        let places = self.parts.unanswered() + 1;
        let Ok(()) = self.overtaken.reserve(places) else {
            return Err(CoreFault::Refused(BeginFault::OutOfMemory));
        };
        let Ok(()) = self.parts.begin(lane.session, request, moment) else {
            return Err(CoreFault::Refused(BeginFault::OutOfMemory));
        };
        lane.call = Some(self.parts.drawn());
        lane.begun = lane.begun.saturating_add(1);
        Ok(())
    }

    /// Begins a call as `begin` does, or answers it at once. A call is answered at once if it looks
    /// up nothing, is no WRITE, and no other call holds its file: one step decides it. Errors as
    /// `begin`.
    pub fn call(
        &mut self,
        lane: &mut Lane,
        request: Request,
        moment: u32,
    ) -> Result<Option<Answer>, CoreFault>
        requires { lane.old.call ≡ None }
        ensures answered { IfOk result (λ made. IfSome made (λ answer.
            AnswersAtOnce self.old lane.old request moment
            (walk_end (Answered answer) self.new lane.new))) }
        ensures begun { IfOk result (λ made. IfNone made
            (CallBegins self.old self.new lane.old request moment
            × (lane.new ≡ begun lane.old self.new.drawn)
            × ((h : List Record) → IsHistory self.old h → IsHistory self.new h))) }
        ensures later { IfOk result (λ made. IfNone made
            (is_at_once self.old.store lane.old.session request ≡ false)) }
        ensures err { OnErr result ((self.new ≡ self.old) × (lane.new ≡ lane.old)) }
        ensures fault { IfErr result (λ fault. RefusesBegin self.old lane.old fault) }
    {
        if !self.parts.is_at_once(lane.session, &request) {
            self.begin(lane, request, moment)?;
            return Ok(None);
        }
        if !self.parts.is_idle(lane.session) {
            return Err(CoreFault::Stranger);
        }
        if self.parts.drawn() >= LAST_NUMBER {
            return Err(CoreFault::Refused(BeginFault::NumbersSpent));
        }
        let _count = self.parts.look_ups();
        let Ok(reply) = self.parts.answer_at_once(lane.session, request, moment) else {
            return Err(CoreFault::Refused(BeginFault::OutOfMemory));
        };
        lane.begun = lane.begun.saturating_add(1);
        let answer = Answer::new(self.parts.drawn(), lane.session, reply);
        Ok(Some(answer))
    }

    /// Takes one step of the lane's call. A step that moves or blocks allocates nothing, except a
    /// WRITE's first step.
    pub fn step(&mut self, lane: &mut Lane) -> Step
        requires { IsSome lane.old.call }
        ensures { StepsOn self.old lane.old result self.new lane.new }
    {
        self.walk(lane, 1)
    }

    /// A law: if any call is unanswered, then some session's call can proceed. Its next step moves
    /// it or answers it.
    pub fn never_stuck(&self)
        ensures { IsNeverStuck self.now }
    {
        let _parts = &self.parts;
    }

    /// A law: each unanswered call belongs to the session that has it.
    pub fn owners(&self)
        ensures { OwnsCalls self.now }
    {
        let _parts = &self.parts;
    }

    /// Takes up to `most` steps of the lane's call, until one doesn't move it. Returns the last
    /// step's outcome. No other session's step is interleaved.
    #[inline(always)]
    pub fn walk(&mut self, lane: &mut Lane, most: u64) -> Step
        requires call { IsSome lane.old.call }
        requires some { 0 < most }
        ensures { Walks self.old lane.old most (walk_end result self.new lane.new) }
    {
        let Some(number) = lane.call else {
            return Step::Stranger;
        };
        match self.parts.walk_on(lane.session, number, most) {
            WalkOutcome::Foreign => Step::Stranger,
            WalkOutcome::Waits => {
                let Some(reply) = self.parts.fetch(lane.session, number) else {
                    unreachable!();
                };
                lane.call = None;
                Step::Answered(Answer::new(number, lane.session, reply))
            }
            WalkOutcome::Copies => {
                let reply = self.parts.copy_on(lane.session, number, most);
                reported(lane, number, reply)
            }
            WalkOutcome::FileHeld(holder) => Step::Blocked(holder),
            WalkOutcome::Writes => {
                let reply = self.parts.write_on(lane.session, number, most);
                reported(lane, number, reply)
            }
            WalkOutcome::Walked(Walk::Moved(_)) => Step::Moved,
            WalkOutcome::Walked(Walk::Blocked(holder)) => Step::Blocked(holder),
            WalkOutcome::Walked(Walk::Ready(ways)) => {
                self.parts.overtake(number, ways, &mut self.overtaken);
                let reply = self.parts.finish(number, ways);
                lane.call = None;
                Step::Answered(Answer::new(number, lane.session, reply))
            }
        }
    }

    /// The session leaves, and its handles are closed. Returns the number of calls that it began.
    /// If the lane's session isn't joined and idle, the lane is returned. Allocates nothing.
    pub fn leave(&mut self, lane: Lane) -> Result<Share, Lane>
        requires { lane.call ≡ None }
        ensures share { IfOk result (λ share. share ≡ lane.begun) }
        ensures ok { OnOk result (SessionLeaves self.old self.new lane.session) }
        ensures back { IfErr result (λ back. back ≡ lane) }
        ensures history { OnOk result ((h : List Record) → IsHistory self.old h
            → IsHistory self.new (h ++ Left lane.session ∷ [])) }
        ensures err { OnErr result ((self.new ≡ self.old)
            × (lane_state self.old lane.session ≢ Idle)) }
    {
        if !self.parts.is_idle(lane.session) {
            return Err(lane);
        }
        let Lane {
            session,
            call: _,
            begun,
        } = lane;
        self.parts.leave(session);
        Ok(Share::of(begun))
    }

    /// The retained records, the oldest first: the history, or its last `n` records.
    pub fn history(&self) -> &[Record]
        ensures records { result.now ≡ self.now.records }
        ensures whole { (h : List Record) × IsHistory self.now h }
    {
        self.parts.records()
    }

    /// A snapshot of the tree at the end of the history, also while calls are unanswered. It has
    /// every path once, in the order of paths, with the label and the attributes of its inode, and
    /// a file's contents. A WRITE that is still copying counts as complete. The contents are
    /// shared, not copied. The core doesn't change.
    pub fn tree(&self, alloc: Global) -> Result<Vec<Leaf>, AllocError>
        ensures { IfOk result (λ leaves. (h : List Record) → IsHistory self.now h
            → leaves.items ≡ leaves_of (replay h)) }
    {
        self.parts.leaves(alloc)
    }

    /// The number of dropped call records.
    pub fn folded(&self) -> u64
        ensures { result ≡ self.now.folded }
    {
        self.parts.folded()
    }

    /// The number of calls that ever began.
    pub fn calls(&self) -> u64
        ensures { result ≡ self.now.drawn }
    {
        self.parts.drawn()
    }

    /// The number of lookups, saturating at 2^64 - 1.
    pub fn look_ups(&self) -> u64
        ensures { result ≡ self.now.look_ups }
    {
        self.parts.look_ups()
    }
}

/// The outcome of steps of a WRITE: `Answered`, and the lane is idle, or `Moved`.
fn reported(lane: &mut Lane, number: u64, reply: Option<Reply>) -> Step
    requires { (given : Reply) → reply ≡ Some given → IsGiven number lane.old.session given }
    ensures { ReportsStep number lane.old reply result lane.new }
{
    match reply {
        None => Step::Moved,
        Some(reply) => {
            lane.call = None;
            Step::Answered(Answer::new(number, lane.session, reply))
        }
    }
}
