//! One call of a session, made by its lane.

ghost use Rattle.std.specs.Prelude.{◌≡◌, ◌≢◌, ◌≤◌, [], true, false, IsSome, OnOk, IfErr};
ghost use Rattle.sf_connection.specs.Hosts.{most_counted};
ghost use Rattle.sf_pool.specs.SessionLanes.{IsResting, HasCallUnderWay, SeesOn};
ghost use Rattle.sf_pool.specs.Scenes.{BeginsCalls};
ghost use Rattle.sf_pool.specs.LaneHosts.{MakesCall, talk, after_steps, IsAnsweredAt, FailsCall};

use crate::observer::StepObserver;
use crate::session_lane::{SessionLane, StepResult};
use sf_audit::AnsweredCall;
use sf_call::Request;
use sf_connection::{CallObserver, ObservedCall};
use sf_session::{Clock, Session};

/// Why a call has no reply.
#[derive(Clone, Copy, Debug, PartialEq, Eq)]
pub(crate) enum Stop {
    OutOfMemory,
    /// The call has no reply after 2^64 - 1 steps.
    UnderWay,
}

/// Reports the next step to the observer, if it wants it. Holds no lock then.
fn stop_at<D: SessionLane, G: StepObserver>(
    lane: &mut D,
    observer: &G,
    session: u64,
    number: u64,
    steps: u64,
)
    ensures at { D.at lane.new ≡ D.at lane.old }
    ensures begins { D.begins lane.new ≡ D.begins lane.old }
    ensures seen { D.seen lane.new ≡ D.seen lane.old }
{
    if observer.stops(session, number, steps) {
        lane.rest();
        observer.between(session, number, steps);
    }
}

/// Makes steps until the call is answered, at most 2^64 - 1. Returns whether it was.
fn finish<D: SessionLane, G: StepObserver>(
    lane: &mut D,
    observer: &G,
    session: u64,
    number: u64,
) -> bool
    requires { HasCallUnderWay (D.at lane.old).place }
    ensures answered { result ≡ true → IsAnsweredAt (D.at lane.old) (D.at lane.new) }
    ensures unanswered { result ≡ false
        → (D.at lane.new ≡ after_steps (D.at lane.old) (D.at lane.new).steps)
        × (most_counted ≤ (D.at lane.new).steps) }
    ensures begins { D.begins lane.new ≡ D.begins lane.old }
    ensures sees { SeesOn (D.seen lane.old) (D.at lane.old) (D.seen lane.new) (D.at lane.new) }
{
    for steps in 0..u64::MAX {
        stop_at(lane, observer, session, number, steps);
        match lane.step() {
            StepResult::Going => {}
            StepResult::Answered => return true,
        }
    }
    false
}

/// Reports the last call to the observer, if it wants it. Holds no lock then.
fn tell_call<D: SessionLane, G: CallObserver>(lane: &mut D, observer: &G, session: u64, moment: u32)
    requires { (D.at lane.old).calls ≢ [] }
    ensures at { D.at lane.new ≡ D.at lane.old }
    ensures begins { D.begins lane.new ≡ D.begins lane.old }
    ensures seen { D.seen lane.new ≡ D.seen lane.old }
{
    if !observer.hears_calls() {
        return;
    }
    lane.rest();
    let AnsweredCall { request, answer } = lane.last_call();
    observer.called(ObservedCall {
        session,
        number: answer.number(),
        moment,
        request,
        reply: answer.reply(),
    });
}

/// Makes the call of a packet, at the clock's next timestamp. Appends the reply to the session's
/// output.
pub(crate) fn make_call<D: SessionLane, C: Clock, G: StepObserver>(
    lane: &mut D,
    clock: &mut C,
    observer: &G,
    number: u64,
    session: &mut Session,
    request: Request,
) -> Result<(), Stop>
    requires waiting { IsSome session.old.waiting }
    requires resting { IsResting (D.at lane.old).place }
    ensures made { OnOk result (MakesCall request
        (BeginsCalls (C.moments clock.old) (C.moments clock.new)
        (D.begins lane.old) (D.begins lane.new))
        (talk (D.at lane.old) session.old) (talk (D.at lane.new) session.new)) }
    ensures fails { IfErr result (λ stop. FailsCall session.old.waiting request stop
        (BeginsCalls (C.moments clock.old) (C.moments clock.new)
        (D.begins lane.old) (D.begins lane.new))
        (D.at lane.old) (D.at lane.new)) }
    ensures session { IfErr result (λ _. session.new ≡ session.old) }
    ensures sees { SeesOn (D.seen lane.old) (D.at lane.old) (D.seen lane.new) (D.at lane.new) }
{
    let moment = clock.now();
    let call = match lane.begin(request, moment) {
        Ok(call) => call,
        Err(fault) => {
            session.refuse(fault);
            return Ok(());
        }
    };
    if !finish(lane, observer, number, call) {
        return Err(Stop::UnderWay);
    }
    observer.answered(number, call);
    tell_call(lane, observer, number, moment);
    if session.answer(&lane.last_call().answer).is_err() {
        return Err(Stop::OutOfMemory);
    }
    Ok(())
}
