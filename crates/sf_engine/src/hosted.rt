//! A hosted session: its place, and its turns.

ghost use Rattle.std.specs.Prelude.{◌≡◌, ◌≢◌, ◌++◌, ◌∷◌, ◌||◌, ◌↔◌, IsTrue, ℕ, Bool, List, [], true, false, Some, None, IfOk, IfErr, OnErr, OnOk};
ghost use Rattle.sf_wire.specs.declared.cutting.Cut.TheVariants.{More};
ghost use Rattle.sf_wire.specs.Packets.{IsCut};
ghost use Rattle.sf_call.specs.declared.record.Record.{Record};
ghost use Rattle.sf_call.specs.declared.record.Record.TheVariants.{Left};
ghost use Rattle.sf_session.specs.declared.session.Next.TheVariants as TheNext;
ghost use Rattle.sf_session.specs.Sessions.{SessionView, NextGives};
ghost use Rattle.sf_core.specs.Cores.LaneState.{Idle};
ghost use Rattle.sf_core.specs.Cores.{lane_state};
ghost use Rattle.sf_core.specs.Events.{RefusesJoin, SessionLeaves};
ghost use Rattle.sf_core.specs.Histories.{IsHistory};
ghost use Rattle.sf_core.specs.Lanes.{LaneView};
ghost use Rattle.sf_engine.specs.Promise.{continues};
ghost use Rattle.sf_engine.specs.Turns.{AddsRecords, RestsOrLeaves, has_lane, is_resting, is_under_way, IsLaneOf, TurnGives, OtherGives, CloseGives, FeedGives, FeedFault, SentGives, SentFault, IsHostedState, OpenGives, MayRefuseTurn, stand, IsReady, TurnsGive, GoesFar, finding};

use crate::event::{EngineFault, Happened};
use sf_call::{Answer, JoinFault, Request};
use sf_core::{Core, CoreFault, Lane, Step};
use sf_session::{Cause, Next, Session, SessionFault};
use std::alloc::Global;
use std::mem;

/// More steps than any call takes.
const MOST_STEPS: u64 = u64::MAX;

/// The place of a session.
#[derive(Debug)]
pub(crate) enum HostedState {
    Resting(Lane),
    /// Its call is in the core.
    UnderWay(Lane),
    /// Its call's reply is pending.
    Decided(Lane, Answer),
    Gone(Cause),
}

impl Drop for HostedState {
    fn drop(self) {
        match self {
            HostedState::Resting(lane) => lane.abandon(),
            HostedState::UnderWay(lane) => lane.abandon(),
            HostedState::Decided(lane, _answer) => lane.abandon(),
            HostedState::Gone(_cause) => {}
        }
    }
}

/// A hosted session.
#[derive(Debug, Drop)]
pub(crate) struct HostedSession {
    pub session: Session,
    pub place: HostedState,
    /// It was closed while it had a call.
    pub closed: bool,
}

/// Removes the lane's session from the core.
fn leave(core: &mut Core, lane: Lane)
    requires idle { lane.call ≡ None }
    requires slot { lane_state core.old lane.session ≡ Idle }
    ensures left { SessionLeaves core.old core.new lane.session }
    ensures history { (h : List Record) → IsHistory core.old h
        → IsHistory core.new (h ++ Left lane.session ∷ []) }
{
    match core.leave(lane) {
        Ok(_share) => {}
        Err(lane) => {
            lane.abandon();
            unreachable!();
        }
    }
}

/// After a reply the session rests, or leaves if it was closed.
fn settle(core: &mut Core, session: &mut Session, lane: Lane, closed: bool) -> HostedState
    requires idle { lane.call ≡ None }
    requires slot { lane_state core.old lane.session ≡ Idle }
    requires waiting { session.old.waiting ≡ None }
    ensures { AddsRecords core.old core.new (λ h added.
        RestsOrLeaves (stand core.old session.old (HostedState.Resting lane)) lane closed added
        (stand core.new session.new result)) }
{
    if !closed {
        return HostedState::Resting(lane);
    }
    leave(core, lane);
    session.close();
    HostedState::Gone(Cause::Closed)
}

impl HostedState {
    /// Whether its call is in the core.
    pub(crate) fn is_under_way(&self) -> bool
        ensures { result ≡ is_under_way self.now }
    {
        matches!(self, HostedState::UnderWay(_))
    }

    /// Its lane.
    fn into_lane(self) -> Lane
        requires { has_lane self ≡ true }
        ensures { IsLaneOf self result }
    {
        match self {
            HostedState::Resting(lane) => lane,
            HostedState::UnderWay(lane) => lane,
            HostedState::Decided(lane, _answer) => lane,
            HostedState::Gone(_cause) => unreachable!(),
        }
    }

    /// Takes its lane. The caller sets another state.
    fn take_lane(&mut self) -> Lane
        requires { has_lane self.old ≡ true }
        ensures { IsLaneOf self.old result }
    {
        mem::replace(self, HostedState::Gone(Cause::Closed)).into_lane()
    }

    /// The outcome of the next packet of a resting session, if it needs no call.
    fn read_other(&mut self, core: &mut Core, next: Next) -> Happened
        requires resting { is_resting self.old ≡ true }
        requires placed { (x : SessionView) × IsHostedState core.old x self.old }
        requires other { (request : Request) → next ≢ TheNext.Call request }
        ensures { (x y : SessionView) → NextGives x next y
            → OtherGives (stand core.old x self.old) result (stand core.new y self.new) }
    {
        match next {
            Next::More => Happened::Idle,
            Next::Local => Happened::Wrote,
            Next::Call(_request) => unreachable!(),
            Next::Ended(cause) => {
                leave(core, self.take_lane());
                *self = HostedState::Gone(cause);
                Happened::Ended(cause)
            }
        }
    }

    /// A turn of a resting session: reads the next packet, and begins its call.
    fn read(
        &mut self,
        core: &mut Core,
        session: &mut Session,
        moment: u32,
    ) -> Result<Happened, EngineFault>
        requires resting { is_resting self.old ≡ true }
        requires placed { IsHostedState core.old session.old self.old }
        ensures ok { IfOk result (λ r. TurnGives (stand core.old session.old self.old)
            (finding false moment) r (stand core.new session.new self.new)) }
        ensures err { OnErr result ((self.new ≡ self.old) × (core.new ≡ core.old)
            × (session.new ≡ session.old)) }
        ensures fault { IfErr result (λ fault. fault ≡ EngineFault.OutOfMemory) }
    {
        let Ok(next) = session.next() else {
            return Err(EngineFault::OutOfMemory);
        };
        let Next::Call(request) = next else {
            return Ok(self.read_other(core, next));
        };
        let HostedState::Resting(lane) = self else {
            unreachable!();
        };
        match core.begin(lane, request, moment) {
            Ok(()) => {
                *self = HostedState::UnderWay(self.take_lane());
                Ok(Happened::Begun)
            }
            Err(CoreFault::Refused(fault)) => {
                session.refuse(fault);
                Ok(Happened::Wrote)
            }
            Err(CoreFault::Stranger) => unreachable!(),
        }
    }

    /// One turn. If memory runs out, nothing changes.
    fn turn(
        &mut self,
        core: &mut Core,
        session: &mut Session,
        closed: bool,
        moment: u32,
    ) -> Result<Happened, EngineFault>
        requires { IsHostedState core.old session.old self.old }
        ensures ok { IfOk result (λ r. TurnGives (stand core.old session.old self.old)
            (finding closed moment) r (stand core.new session.new self.new)) }
        ensures err { OnErr result ((self.new ≡ self.old) × (core.new ≡ core.old)
            × (session.new ≡ session.old)) }
        ensures fault { IfErr result (λ fault. (fault ≡ EngineFault.OutOfMemory)
            × MayRefuseTurn self.old) }
    {
        match self {
            HostedState::Resting(_) => self.read(core, session, moment),
            HostedState::UnderWay(lane) => match core.step(lane) {
                Step::Moved => Ok(Happened::Moved),
                Step::Blocked(holder) => Ok(Happened::Blocked(holder)),
                Step::Answered(answer) => {
                    *self = HostedState::Decided(self.take_lane(), answer);
                    Ok(Happened::Decided)
                }
                Step::Stranger => unreachable!(),
            },
            HostedState::Decided(_, answer) => {
                if session.answer(answer).is_err() {
                    return Err(EngineFault::OutOfMemory);
                }
                *self = settle(core, session, self.take_lane(), closed);
                Ok(Happened::Wrote)
            }
            HostedState::Gone(cause) => Ok(Happened::Ended(*cause)),
        }
    }

    /// Turns until its call is answered or blocked.
    #[inline(always)]
    fn turns(
        &mut self,
        core: &mut Core,
        session: &mut Session,
        closed: bool,
        moment: u32,
    ) -> Result<Happened, EngineFault>
        requires { IsReady (stand core.old session.old self.old) }
        ensures { GoesFar (stand core.old session.old self.old) (finding closed moment) result
            (stand core.new session.new self.new) }
    {
        match self {
            HostedState::Resting(_) => self.read_on(core, session, closed, moment),
            HostedState::UnderWay(_) => self.walk_on(core, session, closed),
            HostedState::Decided(_, _) => self.turn(core, session, closed, moment),
            HostedState::Gone(cause) => Ok(Happened::Ended(*cause)),
        }
    }

    /// The turns of a resting session: reads a packet, and runs its call.
    #[inline(always)]
    fn read_on(
        &mut self,
        core: &mut Core,
        session: &mut Session,
        closed: bool,
        moment: u32,
    ) -> Result<Happened, EngineFault>
        requires resting { is_resting self.old ≡ true }
        requires ready { IsReady (stand core.old session.old self.old) }
        ensures { GoesFar (stand core.old session.old self.old) (finding closed moment) result
            (stand core.new session.new self.new) }
    {
        let Ok(next) = session.next() else {
            return Err(EngineFault::OutOfMemory);
        };
        let Next::Call(request) = next else {
            return Ok(self.read_other(core, next));
        };
        let HostedState::Resting(lane) = self else {
            unreachable!();
        };
        let made = match core.call(lane, request, moment) {
            Ok(made) => made,
            Err(CoreFault::Refused(fault)) => {
                session.refuse(fault);
                return Ok(Happened::Wrote);
            }
            Err(CoreFault::Stranger) => unreachable!(),
        };
        *self = HostedState::UnderWay(self.take_lane());
        match made {
            Some(answer) => self.write_on(core, session, closed, answer),
            None => self.walk_on(core, session, closed),
        }
    }

    /// The turns of a session whose call is running: its steps, and then its reply.
    #[inline(always)]
    fn walk_on(
        &mut self,
        core: &mut Core,
        session: &mut Session,
        closed: bool,
    ) -> Result<Happened, EngineFault>
        requires under_way { is_under_way self.old ≡ true }
        requires ready { IsReady (stand core.old session.old self.old) }
        ensures { (moment : ℕ)
            → GoesFar (stand core.old session.old self.old) (finding closed moment) result
            (stand core.new session.new self.new) }
    {
        let HostedState::UnderWay(lane) = self else {
            unreachable!();
        };
        match core.walk(lane, MOST_STEPS) {
            Step::Answered(answer) => self.write_on(core, session, closed, answer),
            Step::Blocked(holder) => Ok(Happened::Blocked(holder)),
            Step::Moved => Ok(Happened::Moved),
            Step::Stranger => unreachable!(),
        }
    }

    /// Writes the reply of a call that has just been decided. If memory runs out, the reply stays
    /// pending.
    #[inline(always)]
    fn write_on(
        &mut self,
        core: &mut Core,
        session: &mut Session,
        closed: bool,
        answer: Answer,
    ) -> Result<Happened, EngineFault>
        requires under_way { is_under_way self.old ≡ true }
        requires placed { (lane : LaneView) → IsLaneOf self.old lane
            → IsHostedState core.old session.old (HostedState.Decided lane answer) }
        ensures { (lane : LaneView) → IsLaneOf self.old lane → (moment : ℕ)
            → TurnsGive 0 (stand core.old session.old (HostedState.Decided lane answer))
            (finding closed moment)
            result (stand core.new session.new self.new)
            × (continues result ≡ false) }
    {
        let lane = self.take_lane();
        match session.answer(&answer) {
            Ok(()) => {
                *self = settle(core, session, lane, closed);
                Ok(Happened::Wrote)
            }
            Err(_) => {
                *self = HostedState::Decided(lane, answer);
                Err(EngineFault::OutOfMemory)
            }
        }
    }

    /// Closes the session. A resting session leaves at once. Returns its state, and whether its
    /// call is answered first.
    fn close(self, core: &mut Core, session: &mut Session) -> (HostedState, bool)
        requires { IsHostedState core.old session.old self }
        ensures { AddsRecords core.old core.new (λ h added.
            CloseGives (stand core.old session.old self) added
            (stand core.new session.new result.0) result.1) }
    {
        match self {
            HostedState::Resting(lane) => (settle(core, session, lane, true), false),
            HostedState::UnderWay(lane) => (HostedState::UnderWay(lane), true),
            HostedState::Decided(lane, answer) => (HostedState::Decided(lane, answer), true),
            HostedState::Gone(cause) => (HostedState::Gone(cause), false),
        }
    }
}

/// One turn of a session.
pub(crate) fn turn_hosted(
    core: &mut Core,
    hosted: &mut HostedSession,
    moment: u32,
) -> Result<Happened, EngineFault>
    requires { IsHostedState core.old hosted.old.session hosted.old.place }
    ensures ok { IfOk result (λ r. TurnGives (stand core.old hosted.old.session hosted.old.place)
        (finding hosted.old.closed moment) r (stand core.new hosted.new.session hosted.new.place)) }
    ensures closed { hosted.new.closed ≡ hosted.old.closed }
    ensures err { OnErr result ((core.new ≡ core.old) × (hosted.new ≡ hosted.old)) }
    ensures fault { IfErr result (λ fault. (fault ≡ EngineFault.OutOfMemory)
        × MayRefuseTurn hosted.old.place) }
{
    hosted
        .place
        .turn(core, &mut hosted.session, hosted.closed, moment)
}

/// Turns of a session until its call is answered or blocked.
#[inline(always)]
pub(crate) fn turns_hosted(
    core: &mut Core,
    hosted: &mut HostedSession,
    moment: u32,
) -> Result<Happened, EngineFault>
    requires { IsReady (stand core.old hosted.old.session hosted.old.place) }
    ensures turns { GoesFar (stand core.old hosted.old.session hosted.old.place)
        (finding hosted.old.closed moment) result
        (stand core.new hosted.new.session hosted.new.place) }
    ensures closed { hosted.new.closed ≡ hosted.old.closed }
{
    hosted
        .place
        .turns(core, &mut hosted.session, hosted.closed, moment)
}

/// Whether a session rests, and its unread bytes have no whole packet and no wrong length.
pub(crate) fn wants_bytes(hosted: &HostedSession) -> bool
    ensures { IsTrue result ↔ (is_resting hosted.now.place ≡ true)
        × IsCut hosted.now.session.unread More }
{
    match hosted.place {
        HostedState::Resting(_) => hosted.session.is_drained(),
        HostedState::UnderWay(_) | HostedState::Decided(_, _) | HostedState::Gone(_) => false,
    }
}

/// Closes a session. It leaves at once if it rests, and otherwise after its call's reply.
pub(crate) fn close_hosted(core: &mut Core, hosted: &mut HostedSession)
    requires { IsHostedState core.old hosted.old.session hosted.old.place }
    ensures { AddsRecords core.old core.new (λ h added. (goes_on : Bool)
        × CloseGives (stand core.old hosted.old.session hosted.old.place) added
        (stand core.new hosted.new.session hosted.new.place) goes_on
        × (hosted.new.closed ≡ (hosted.old.closed || goes_on))) }
{
    let place = mem::replace(&mut hosted.place, HostedState::Gone(Cause::Closed));
    let (place, goes_on) = place.close(core, &mut hosted.session);
    hosted.place = place;
    hosted.closed |= goes_on;
}

/// Appends to a session's unread bytes.
pub(crate) fn feed_hosted(hosted: &mut HostedSession, bytes: &[u8]) -> Result<Happened, EngineFault>
    ensures ok { IfOk result (λ r. FeedGives hosted.old bytes.now r hosted.new) }
    ensures err { OnErr result (hosted.new ≡ hosted.old) }
    ensures fault { IfErr result (λ fault. FeedFault hosted.old fault) }
{
    if hosted.closed {
        return Err(EngineFault::Ended);
    }
    match hosted.session.feed(bytes) {
        Ok(()) => Ok(Happened::Fed),
        Err(SessionFault::Ended) => Err(EngineFault::Ended),
        Err(SessionFault::OutOfMemory) => Err(EngineFault::OutOfMemory),
    }
}

/// Drops the first bytes of a session's output, which were sent. Allocates nothing.
pub(crate) fn send_hosted(hosted: &mut HostedSession, n: usize) -> Result<Happened, EngineFault>
    ensures ok { IfOk result (λ r. SentGives hosted.old n r hosted.new) }
    ensures err { OnErr result (hosted.new ≡ hosted.old) }
    ensures fault { IfErr result (λ fault. SentFault hosted.old n fault) }
{
    if n > hosted.session.output().len() {
        return Err(EngineFault::NotSent);
    }
    hosted.session.take_front(n);
    Ok(Happened::Sent)
}

/// Opens the next session. Returns its number.
pub(crate) fn open_hosted(
    alloc: Global,
    core: &mut Core,
    hosted: &mut Vec<HostedSession>,
) -> Result<u64, JoinFault>
    ensures ok { IfOk result (λ session. OpenGives core.old hosted.old.items session core.new
        hosted.new.items) }
    ensures history { OnOk result ((h : List Record) → IsHistory core.old h
        → IsHistory core.new h) }
    ensures err { OnErr result ((core.new ≡ core.old) × (hosted.new.items ≡ hosted.old.items)) }
    ensures fault { IfErr result (λ fault. RefusesJoin core.old fault) }
{
    if let Some(fault) = core.join_fault() {
        return Err(fault);
    }
    if hosted.reserve(1).is_err() {
        return Err(JoinFault::OutOfMemory);
    }
    let Ok(lane) = core.join() else {
        return Err(JoinFault::OutOfMemory);
    };
    let session = lane.session();
    let hosted_session = HostedSession {
        session: Session::new(alloc),
        place: HostedState::Resting(lane),
        closed: false,
    };
    if hosted.push(hosted_session).is_err() {
        unreachable!();
    }
    Ok(session)
}
