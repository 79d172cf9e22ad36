//! One step of a connection.

ghost use Rattle.std.specs.Prelude.{◌≡◌, ◌≢◌, ℕ, List, Option, IfSome, vec_len};
ghost use Rattle.sf_connection.specs.Progress.{HasWritten};
ghost use Rattle.sf_connection.specs.Steps.{state_after};

use super::{Connection, InputState, ServeState, Wants};
use crate::host::{Host, SessionStep};
use crate::stream::Stream;
use sf_session::{Cause, Clock, ServeFault};

/// The state after a step of the host.
fn state_after(step: Result<SessionStep, ServeFault>) -> ServeState
    ensures { result ≡ state_after step }
{
    match step {
        Ok(SessionStep::Waits) => ServeState::Waiting,
        Ok(SessionStep::Answered) => ServeState::Processing,
        Ok(SessionStep::Ended(cause)) => ServeState::Ending(Ok(cause)),
        Err(fault) => ServeState::Ending(Err(fault)),
    }
}

/// The bytes read since the session last waited for input, once it is in this state.
fn ahead_in(state: ServeState, ahead: usize) -> usize
    ensures none { state ≡ ServeState.Waiting → result ≡ 0 }
    ensures same { state ≢ ServeState.Waiting → result ≡ ahead }
{
    match state {
        ServeState::Waiting => 0,
        _ => ahead,
    }
}

impl<H, S: Stream> Connection<H, S> {
    ghost use Rattle.sf_connection.specs.Connections.{IsServing, HasDue, Returns, BlocksFor, IfEnded};
    ghost use Rattle.sf_connection.specs.Steps.{StepsIf, IsClear, HasStepped, HasTurned, MayEnd, wants_of};

    /// Lets the host process packets.
    fn go_on<P, C: Clock>(&mut self, place: &mut P, clock: &mut C)
    where
        H: Host<P>,
        requires { H.sound self.old.host place.old }
        ensures sound { H.sound self.new.host place.new }
        ensures went { (start : H.Start)
            → StepsIf (λ from p. IsClear self.old p
            × (self.old.state ≡ ServeState.Processing)) H.held
            (H.serves start self.old.host place.old (C.moments clock.old))
            (H.work self.old.host place.old) (S.view self.old.stream) self.old
            (H.serves start self.new.host place.new (C.moments clock.new))
            (λ from p p'. IsServing H.held (H.work self.new.host place.new) from
            (S.view self.new.stream) self.new p'
            × HasStepped self.old self.new p p') }
        ensures stream { self.new.stream ≡ self.old.stream }
    {
        self.state = state_after(self.host.go_on(place, clock));
        self.ahead = ahead_in(self.state, self.ahead);
        self.gather(place);
    }

    /// Ends the session.
    pub(super) fn end<P>(&mut self, place: &mut P, outcome: Result<Cause, ServeFault>) -> Wants
    where
        H: Host<P>,
        requires { H.sound self.old.host place.old }
        ensures wants { result ≡ Wants.Ended outcome }
        ensures left { H.left self.new.host place.new }
        ensures ended { (start : H.Start) (moments : Option (List ℕ))
            → StepsIf (λ from p. MayEnd outcome (H.work self.old.host place.old) from
            (S.view self.old.stream) p) H.held
            (H.serves start self.old.host place.old moments) (H.work self.old.host place.old)
            (S.view self.old.stream) self.old (H.serves start self.new.host place.new moments)
            (λ from p p'. Returns result H.held (H.work self.new.host place.new) from
            (S.view self.new.stream) self.new p p') }
        ensures stream { self.new.stream ≡ self.old.stream }
    {
        self.host.end(place);
        Wants::Ended(outcome)
    }

    /// A step of a session that waits for input.
    fn read_turn<P>(&mut self, place: &mut P, piece: &mut Vec<u8>) -> Option<Wants>
    where
        H: Host<P>,
        requires sound { H.sound self.old.host place.old }
        requires room { vec_len piece.old ≡ 65536 }
        ensures ended { IfEnded (wants_of result) (H.sound self.new.host place.new)
            (H.left self.new.host place.new) }
        ensures turned { (start : H.Start) (moments : Option (List ℕ))
            → StepsIf (λ from p. HasWritten p × (self.old.state ≡ ServeState.Waiting)) H.held
            (H.serves start self.old.host place.old moments) (H.work self.old.host place.old)
            (S.view self.old.stream) self.old (H.serves start self.new.host place.new moments)
            (λ from p p'. HasTurned result H.held (H.work self.new.host place.new) from
            (S.view self.new.stream) self.old self.new p p') }
        ensures len { vec_len piece.new ≡ vec_len piece.old }
        ensures blocks { IfSome result (λ wants. BlocksFor wants (S.reads_block self.new.stream)
            (S.writes_block self.new.stream)) }
        ensures waits { S.waits self.new.stream ≡ S.waits self.old.stream }
    {
        match self.input {
            InputState::AtEnd => Some(self.end(place, Ok(Cause::Closed))),
            InputState::Failed => Some(self.end(place, Err(ServeFault::Line))),
            InputState::Open => {
                if self.read(place, piece) {
                    None
                } else {
                    Some(Wants::Read)
                }
            }
        }
    }

    /// A step while the stream is full.
    fn full_turn<P>(&mut self, place: &mut P, piece: &mut Vec<u8>) -> Option<Wants>
    where
        H: Host<P>,
        requires sound { H.sound self.old.host place.old }
        requires room { vec_len piece.old ≡ 65536 }
        requires full { S.writes_block self.old.stream }
        ensures ended { IfEnded (wants_of result) (H.sound self.new.host place.new)
            (H.left self.new.host place.new) }
        ensures turned { (start : H.Start) (moments : Option (List ℕ))
            → StepsIf (λ from p. HasDue p) H.held
            (H.serves start self.old.host place.old moments) (H.work self.old.host place.old)
            (S.view self.old.stream) self.old (H.serves start self.new.host place.new moments)
            (λ from p p'. HasTurned result H.held (H.work self.new.host place.new) from
            (S.view self.new.stream) self.old self.new p p') }
        ensures len { vec_len piece.new ≡ vec_len piece.old }
        ensures blocks { IfSome result (λ wants. BlocksFor wants (S.reads_block self.new.stream)
            (S.writes_block self.new.stream)) }
        ensures waits { S.waits self.new.stream ≡ S.waits self.old.stream }
    {
        if !self.reads_ahead() {
            return Some(Wants::Write);
        }
        if self.read(place, piece) {
            None
        } else {
            Some(Wants::Both)
        }
    }

    /// A step while output is pending.
    fn write_turn<P>(&mut self, place: &mut P, piece: &mut Vec<u8>) -> Option<Wants>
    where
        H: Host<P>,
        requires sound { H.sound self.old.host place.old }
        requires room { vec_len piece.old ≡ 65536 }
        ensures ended { IfEnded (wants_of result) (H.sound self.new.host place.new)
            (H.left self.new.host place.new) }
        ensures turned { (start : H.Start) (moments : Option (List ℕ))
            → StepsIf (λ from p. HasDue p) H.held
            (H.serves start self.old.host place.old moments) (H.work self.old.host place.old)
            (S.view self.old.stream) self.old (H.serves start self.new.host place.new moments)
            (λ from p p'. HasTurned result H.held (H.work self.new.host place.new) from
            (S.view self.new.stream) self.old self.new p p') }
        ensures len { vec_len piece.new ≡ vec_len piece.old }
        ensures blocks { IfSome result (λ wants. BlocksFor wants (S.reads_block self.new.stream)
            (S.writes_block self.new.stream)) }
        ensures waits { S.waits self.new.stream ≡ S.waits self.old.stream }
    {
        match self.write(place) {
            Ok(true) => None,
            Ok(false) => self.full_turn(place, piece),
            Err(_) => Some(self.end(place, Err(ServeFault::Line))),
        }
    }

    /// One step. Returns what the connection waits for, if there is nothing else to do.
    pub(super) fn turn<P, C: Clock>(
        &mut self,
        place: &mut P,
        clock: &mut C,
        piece: &mut Vec<u8>,
    ) -> Option<Wants>
    where
        H: Host<P>,
        requires sound { H.sound self.old.host place.old }
        requires room { vec_len piece.old ≡ 65536 }
        ensures ended { IfEnded (wants_of result) (H.sound self.new.host place.new)
            (H.left self.new.host place.new) }
        ensures turned { (start : H.Start)
            → StepsIf (λ _ _. Unit {0}) H.held
            (H.serves start self.old.host place.old (C.moments clock.old))
            (H.work self.old.host place.old) (S.view self.old.stream) self.old
            (H.serves start self.new.host place.new (C.moments clock.new))
            (λ from p p'. HasTurned result H.held (H.work self.new.host place.new) from
            (S.view self.new.stream) self.old self.new p p') }
        ensures len { vec_len piece.new ≡ vec_len piece.old }
        ensures blocks { IfSome result (λ wants. BlocksFor wants (S.reads_block self.new.stream)
            (S.writes_block self.new.stream)) }
        ensures waits { S.waits self.new.stream ≡ S.waits self.old.stream }
    {
        if self.has_due(place) {
            return self.write_turn(place, piece);
        }
        match self.state {
            ServeState::Processing => {
                self.go_on(place, clock);
                None
            }
            ServeState::Waiting => self.read_turn(place, piece),
            ServeState::Ending(outcome) => Some(self.end(place, outcome)),
        }
    }
}
