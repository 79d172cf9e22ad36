//! The calls of one session on a shared core.

ghost use Rattle.std.specs.Prelude.{◌≡◌, ◌≢◌, ◌<◌, List, [], ◌∷◌, Option, None, OnErr, IfOk, IfErr};
ghost use Rattle.sf_call.specs.declared.record.Record.{Record};
ghost use Rattle.sf_call.specs.Histories.{IsNewNumber};
ghost use Rattle.sf_core.specs.Cores.LaneState.{NoLane, Idle, Busy};
ghost use Rattle.sf_audit.specs.Audits.{call_record};
ghost use Rattle.sf_roll.specs.Seen.{IsPrefixOf};
ghost use Rattle.sf_noted.specs.Pages.{begun_call};
ghost use Rattle.sf_pool.specs.declared.session_lane.Begin.{Begin};
ghost use Rattle.sf_pool.specs.SessionLanes.{New, JoinRefused, Joined, IsResting, HasCallUnderWay, IsLast, Notes, SessionLaneView, Steps, HasSeenCalls, SeesOn};

use sf_audit::AnsweredCall;
use sf_call::{BeginFault, JoinFault, Request};

/// The outcome of a step.
#[derive(Clone, Copy, Debug, PartialEq, Eq)]
pub enum StepResult {
    /// The call has no reply yet.
    Going,
    /// The call was answered. `last_call` returns the reply.
    Answered,
}

/// A call that a lane was asked to begin.
#[derive(Debug, PartialEq, Eq, Drop)]
pub struct Begin {
    pub request: Request,
    /// In seconds since 1970.
    pub moment: u32,
    /// The call's number, or why it was refused.
    pub outcome: Result<u64, BeginFault>,
}

/// A session at a core: it joins, makes one call after the other, and leaves.
pub trait SessionLane {
    /// The session's number and state, its answered calls in order, whether the lane retains them,
    /// and the number of steps made.
    ghost at: { Self → SessionLaneView };

    /// The calls that it was asked to begin, in order, if they are known. Once known, they stay
    /// known.
    ghost begins: { Self → Option (List Begin) } = { λ _. None };

    /// The prefix of the core's history of its token. It exists in proofs only.
    ghost seen: { Self → List Record };

    /// It holds nothing that others wait for.
    ghost rests: { Self → Type 0 } = { λ _. Unit {0} };

    /// The session joins. Returns its number, or why it was refused. It has no call in the prefix.
    fn join(&mut self) -> Result<u64, JoinFault>
        requires { (at self.old).place ≡ New }
        ensures number { IfOk result (λ session. 0 < session) }
        ensures ok { IfOk result (λ session. at self.new ≡ record (at self.old) {
          session = session;
          place = Joined Idle;
          calls = [];
        }) }
        ensures err { IfErr result (λ fault. at self.new
            ≡ record (at self.old) { place = JoinRefused fault }) }
        ensures begins { begins self.new ≡ begins self.old }
        ensures further { IsPrefixOf (seen self.old) (seen self.new) }
        ensures own { IfOk result (λ _. HasSeenCalls (seen self.new) (at self.new)) };

    /// Begins a call at a timestamp, in seconds since 1970. Returns its number. Reserves memory for
    /// its reply. The call is not in the prefix, so it follows all of it in the history.
    fn begin(&mut self, request: Request, moment: u32) -> Result<u64, BeginFault>
        requires { IsResting (at self.old).place }
        ensures ok { IfOk result (λ number. at self.new
            ≡ record (at self.old) { place = Joined (Busy (begun_call number moment request)) }) }
        ensures err { OnErr result (at self.new ≡ at self.old) }
        ensures asked { Notes (begins self.old) (begins self.new) (record {
          request = request;
          moment = moment;
          outcome = result;
        } ∷ []) }
        ensures sees { SeesOn (seen self.old) (at self.old) (seen self.new) (at self.new) }
        ensures new_number { IfOk result (λ number. IsNewNumber number (seen self.new)) };

    /// One step of the call. If the call is answered, it is in the prefix.
    fn step(&mut self) -> StepResult
        requires { HasCallUnderWay (at self.old).place }
        ensures steps { Steps (at self.old) result (at self.new) }
        ensures begins { begins self.new ≡ begins self.old }
        ensures sees { SeesOn (seen self.old) (at self.old) (seen self.new) (at self.new) }
        ensures shows { result ≡ StepResult.Answered → HasSeenCalls (seen self.new) (at self.new) };

    /// Releases what it holds between events, so that nobody waits for it.
    fn rest(&mut self)
        ensures at { at self.new ≡ at self.old }
        ensures rests { rests self.new }
        ensures begins { begins self.new ≡ begins self.old }
        ensures seen { seen self.new ≡ seen self.old };

    /// The last call, with its reply.
    fn last_call(&self) -> &AnsweredCall
        requires { (at self.now).calls ≢ [] }
        ensures { IsLast (at self.now).calls (call_record result.now) };

    /// The session leaves. It holds nothing then.
    fn leave(&mut self)
        requires { IsResting (at self.old).place }
        ensures at { at self.new ≡ record (at self.old) { place = Joined NoLane } }
        ensures rests { rests self.new }
        ensures begins { begins self.new ≡ begins self.old }
        ensures seen { seen self.new ≡ seen self.old };
}
