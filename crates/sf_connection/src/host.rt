//! The backend of a session.

ghost use Rattle.std.specs.Prelude.{◌≡◌, ◌<◌, ◌≤◌, ◌++◌, ◌^◌, ℕ, List, Option, Some, None, length, take, vec_len, IfOk, IfErr, OnOk, OnErr};
ghost use Rattle.sf_session.specs.declared.fault.ServeFault.{ServeFault};
ghost use Rattle.sf_session.specs.SessionStates.{SessionState, fed, IsRead};
ghost use Rattle.sf_session.specs.Responses.{transcript};
ghost use Rattle.sf_connection.specs.Hosts.{IsOpen, HasSent, IsFurther, IsSessionStep, with_sent, ended, IsHostFault};

use sf_session::{Cause, Clock, ServeFault};
use std::alloc::AllocError;

/// The result of `Host::go_on`.
#[derive(Clone, Copy, Debug, PartialEq, Eq)]
pub enum SessionStep {
    /// No complete packet is unread.
    Waits,
    /// Further replies are unsent; complete packets may be unread.
    Answered,
    Ended(Cause),
}

/// The backend of one session. It receives the session's bytes, executes its requests, produces
/// output, and ends the session. `place` is the state that it may share with other sessions.
pub trait Host<P> {
    /// What is known of the shared state when serving starts.
    ghost Start: { Type 0 };

    /// The session's state since the start, given the clock's timestamps.
    ghost serves: { Start → Self → P → Option (List ℕ) → SessionState → Type 0 };

    /// A reply is produced only if at most this many bytes of output are unsent.
    ghost held: { ℕ };

    /// The invariant between the backend and the shared state.
    ghost sound: { Self → P → Type 0 };

    /// The amount of work done for the session, saturated at 2^64 - 1.
    ghost work: { Self → P → ℕ };

    /// The backend holds nothing that other sessions wait for.
    ghost rests: { Self → P → Type 0 } = { λ _ _. Unit {0} };

    /// The state after `end`.
    ghost left: { Self → P → Type 0 };

    /// Receives the first `n` bytes of `piece` as input.
    fn feed(&mut self, place: &mut P, piece: &Vec<u8>, n: usize) -> Result<(), AllocError>
        requires sound { sound self.old place.old }
        requires within { n ≤ vec_len piece.now }
        ensures sound { sound self.new place.new }
        ensures fed { OnOk result ((start : Start) (moments : Option (List ℕ)) (t : SessionState)
            → serves start self.old place.old moments t → IsOpen t
            → serves start self.new place.new moments (fed t (take n piece.now.items))) }
        ensures err { OnErr result ((start : Start) (moments : Option (List ℕ)) (t : SessionState)
            → serves start self.old place.old moments t
            → serves start self.new place.new moments t) };

    /// Processes unread packets: none, one or several. If it returns `Waits`, it holds nothing that
    /// other sessions wait for.
    fn go_on<C: Clock>(&mut self, place: &mut P, clock: &mut C) -> Result<SessionStep, ServeFault>
        requires { sound self.old place.old }
        ensures sound { sound self.new place.new }
        ensures step { (start : Start) (t : SessionState)
            → serves start self.old place.old (C.moments clock.old) t
            → IsOpen t → IsRead t → HasSent t → (t' : SessionState)
            × serves start self.new place.new (C.moments clock.new) t'
            × IsFurther held t t' × IsSessionStep result t t' }
        ensures rests { IfOk result (λ step. step ≡ SessionStep.Waits → rests self.new place.new) }
        ensures fault { IfErr result (λ fault. IsHostFault fault (work self.new place.new)) };

    /// Releases everything that other sessions wait for.
    fn rest(&mut self, place: &mut P)
        requires { sound self.old place.old }
        ensures sound { sound self.new place.new }
        ensures rests { rests self.new place.new }
        ensures serves { (start : Start) (moments : Option (List ℕ)) (t : SessionState)
            → serves start self.old place.old moments t
            → serves start self.new place.new moments t }
        ensures work { work self.new place.new ≡ work self.old place.old };

    /// The unsent output.
    fn output<'a>(&'a self, place: &'a P) -> &'a [u8]
        ensures { (start : Start) (moments : Option (List ℕ)) (t : SessionState)
            → serves start self.now place.now moments t
            → transcript t.answers ≡ t.sent ++ result.now };

    /// Records that all output was sent.
    fn sent(&mut self, place: &mut P)
        requires { sound self.old place.old }
        ensures sound { sound self.new place.new }
        ensures sent { (start : Start) (moments : Option (List ℕ)) (t : SessionState)
            → serves start self.old place.old moments t
            → serves start self.new place.new moments (with_sent t) }
        ensures work { work self.new place.new ≡ work self.old place.old };

    /// Ends the session. It accepts no more input, and leaves unless a call is pending.
    fn end(&mut self, place: &mut P)
        requires { sound self.old place.old }
        ensures left { left self.new place.new }
        ensures ended { (start : Start) (moments : Option (List ℕ)) (t : SessionState)
            → serves start self.old place.old moments t
            → serves start self.new place.new moments (ended t) }
        ensures work { work self.new place.new ≡ work self.old place.old };
}
