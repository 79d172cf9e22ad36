//! The host of a session whose calls a lane makes.

ghost use Rattle.std.specs.Prelude.{◌≡◌, ◌≤◌, ℕ, List, length, take, Option, Some, None, vec_len, OnOk, OnErr, IfOk, IfErr};
ghost use Rattle.sf_session.specs.declared.fault.ServeFault.{ServeFault};
ghost use Rattle.sf_session.specs.Sessions.{new_session};
ghost use Rattle.sf_session.specs.SessionStates.{SessionState, fed, IsRead};
ghost use Rattle.sf_session.specs.Responses.{transcript};
ghost use Rattle.sf_connection.specs.Hosts.{IsOpen, HasSent, IsFurther, IsSessionStep, with_sent, ended, IsHostFault};
ghost use Rattle.sf_pool.specs.LaneHosts.{standing_fault, standing_after, stop_fault};

use crate::calling::{Stop, make_call};
use crate::observer::StepObserver;
use crate::session_lane::SessionLane;
use sf_connection::{Host, SessionStep};
use sf_session::{Clock, Next, ServeFault, Session};
use std::alloc::{AllocError, Global};

/// The bytes of replies that a stream buffers before a write may block. A worker's stream buffers
/// as many.
const GATHERED: usize = 16384;

/// The state of a session at the core.
#[derive(Debug, Drop)]
pub(crate) enum Standing {
    Joined,
    /// Memory ran out for the reply to its last call.
    Unanswered,
    /// Its call has no reply after 2^64 - 1 steps.
    UnderWay,
    Left,
}

/// The host of a session whose lane has joined.
#[derive(Drop)]
pub(crate) struct LaneHost<'a, G> {
    number: u64,
    session: Session,
    observer: &'a G,
    // The bytes that the stream buffers before it writes.
    room: usize,
    standing: Standing,
}

/// Releases the core before a read or a flush, which may block. Returns the free buffer after it.
fn let_go<D: SessionLane>(lane: &mut D) -> usize
    ensures at { D.at lane.new ≡ D.at lane.old }
    ensures rests { D.rests lane.new }
    ensures begins { D.begins lane.new ≡ D.begins lane.old }
    ensures seen { D.seen lane.new ≡ D.seen lane.old }
{
    lane.rest();
    GATHERED
}

/// Releases the core if a write of `len` bytes may block. Returns the free buffer after the write.
fn let_go_for<D: SessionLane>(lane: &mut D, len: usize, room: usize) -> usize
    ensures at { D.at lane.new ≡ D.at lane.old }
    ensures rests { room ≤ len → D.rests lane.new }
    ensures begins { D.begins lane.new ≡ D.begins lane.old }
    ensures seen { D.seen lane.new ≡ D.seen lane.old }
{
    if len < room {
        return room - len;
    }
    let_go(lane).saturating_sub(len)
}

impl<'a, G> LaneHost<'a, G> {
    /// A session that has joined and has read nothing.
    pub(crate) fn new(alloc: Global, number: u64, observer: &'a G) -> LaneHost<'a, G>
        ensures session { result.session ≡ new_session }
        ensures standing { result.standing ≡ Standing.Joined }
    {
        LaneHost {
            number,
            session: Session::new(alloc),
            observer,
            room: GATHERED,
            standing: Standing::Joined,
        }
    }

    /// The fault that ended it, if any.
    fn fault(&self) -> Option<ServeFault>
        ensures { result ≡ standing_fault self.now.standing }
    {
        match &self.standing {
            Standing::Joined => None,
            Standing::Unanswered | Standing::Left => Some(ServeFault::OutOfMemory),
            Standing::UnderWay => Some(ServeFault::NumbersSpent),
        }
    }

    /// Releases the core if writing the pending reply may block.
    fn answered<D: SessionLane>(&mut self, lane: &mut D) -> SessionStep
        ensures step { result ≡ SessionStep.Answered }
        ensures session { self.new.session ≡ self.old.session }
        ensures standing { self.new.standing ≡ self.old.standing }
        ensures at { D.at lane.new ≡ D.at lane.old }
        ensures begins { D.begins lane.new ≡ D.begins lane.old }
        ensures seen { D.seen lane.new ≡ D.seen lane.old }
    {
        self.room = let_go_for(lane, self.session.output().len(), self.room);
        SessionStep::Answered
    }

    /// The state and the fault after a call without a reply.
    fn stand_after(&mut self, stop: Stop) -> ServeFault
        ensures fault { result ≡ stop_fault stop }
        ensures session { self.new.session ≡ self.old.session }
        ensures standing { self.new.standing ≡ standing_after stop }
    {
        let (standing, fault) = match stop {
            Stop::OutOfMemory => (Standing::Unanswered, ServeFault::OutOfMemory),
            Stop::UnderWay => (Standing::UnderWay, ServeFault::NumbersSpent),
        };
        self.standing = standing;
        fault
    }
}

impl<D: SessionLane, G: StepObserver> Host<D> for LaneHost<'_, G> {
    ghost use Rattle.sf_pool.specs.Scenes.{LaneScene, lane_scene, lane_held};
    ghost use Rattle.sf_pool.specs.LaneHosts.{IsToldAt, IsPlaced, IsOver};

    ghost Start = { LaneScene };

    ghost serves = { λ start h d moments t. IsToldAt start h.standing h.session
        (lane_scene (D.at d) (D.begins d) moments (D.seen d)) t };

    ghost held = { lane_held };

    ghost sound = { λ h d. IsPlaced h.standing h.session (D.at d) };

    ghost work = { λ h d. (D.at d).steps };

    ghost rests = { λ h d. D.rests d };

    ghost left = { λ h d. IsOver h.standing (D.at d) };

    fn feed(&mut self, _lane: &mut D, piece: &Vec<u8>, n: usize) -> Result<(), AllocError> {
        self.room = GATHERED;
        if self.session.feed(&piece[..n]).is_err() {
            return Err(AllocError);
        }
        Ok(())
    }

    fn go_on<C: Clock>(&mut self, lane: &mut D, clock: &mut C) -> Result<SessionStep, ServeFault> {
        if let Some(fault) = self.fault() {
            return Err(fault);
        }
        let Ok(next) = self.session.next() else {
            return Err(ServeFault::OutOfMemory);
        };
        match next {
            Next::More => {
                self.room = let_go(lane);
                Ok(SessionStep::Waits)
            }
            Next::Ended(cause) => Ok(SessionStep::Ended(cause)),
            Next::Local => Ok(self.answered(lane)),
            Next::Call(request) => {
                match make_call(
                    lane,
                    clock,
                    self.observer,
                    self.number,
                    &mut self.session,
                    request,
                ) {
                    Ok(()) => Ok(self.answered(lane)),
                    Err(why) => Err(self.stand_after(why)),
                }
            }
        }
    }

    fn rest(&mut self, lane: &mut D) {
        self.room = let_go(lane);
    }

    fn output<'b>(&'b self, _lane: &'b D) -> &'b [u8] {
        self.session.output()
    }

    fn sent(&mut self, _lane: &mut D) {
        let n = self.session.output().len();
        self.session.take_front(n);
    }

    fn end(&mut self, lane: &mut D) {
        match &self.standing {
            Standing::UnderWay | Standing::Left => return,
            Standing::Joined | Standing::Unanswered => {}
        }
        lane.leave();
        self.standing = Standing::Left;
    }
}
