//! The input of a connection.

ghost use Rattle.std.specs.Prelude.{◌≡◌, ◌<◌, ◌≤◌, ◌+◌, ◌^◌, ℕ, List, [], length, take, true, false, Option, vec_len};
ghost use Rattle.sf_connection.specs.Hosts.{IsOpen};
ghost use Rattle.sf_connection.specs.Progress.{Progress};
ghost use Rattle.sf_connection.specs.Streams.{StreamView};

use super::{Connection, InputState, ServeState};
use crate::host::Host;
use crate::stream::Stream;
use sf_session::ServeFault;

/// A stream that is full is read ahead until so many bytes were read since the session last waited
/// for input.
const AHEAD: usize = 1 << 24;

impl<H, S: Stream> Connection<H, S> {
    ghost use Rattle.sf_connection.specs.Connections.{IsServing, amount, ReadsNoFurther};
    ghost use Rattle.sf_connection.specs.Steps.{StepsIf, HasRead, IsReadFrom, MayReadAhead};

    /// Feeds the first `n` bytes that were read.
    fn feed<P>(&mut self, place: &mut P, piece: &Vec<u8>, n: usize)
    where
        H: Host<P>,
        requires sound { H.sound self.old.host place.old }
        requires within { n ≤ vec_len piece.now }
        requires short { n ≤ 65536 }
        ensures sound { H.sound self.new.host place.new }
        ensures fed { (start : H.Start) (moments : Option (List ℕ)) (from now : StreamView)
            (p : Progress) → H.serves start self.old.host place.old moments p.state
            → IsServing H.held (H.work self.old.host place.old) from now self.old p
            → IsOpen p.state → p.unfed ≡ [] → self.old.input ≡ InputState.Open
            → self.old.ahead < 2 ^ 24 → (now' : StreamView)
            → IsReadFrom now now' (take n piece.now.items)
            → (p' : Progress) × H.serves start self.new.host place.new moments p'.state
            × IsServing H.held (H.work self.new.host place.new) from now' self.new p'
            × (amount p' ≡ amount p + length (take n piece.now.items)) }
        ensures stream { self.new.stream ≡ self.old.stream }
    {
        let Ok(()) = self.host.feed(place, piece, n) else {
            self.state = ServeState::Ending(Err(ServeFault::OutOfMemory));
            return;
        };
        self.state = ServeState::Processing;
        self.ahead = self.ahead.saturating_add(n);
    }

    /// Reads once. Returns false if it would block.
    pub(super) fn read<P>(&mut self, place: &mut P, piece: &mut Vec<u8>) -> bool
    where
        H: Host<P>,
        requires sound { H.sound self.old.host place.old }
        requires room { vec_len piece.old ≡ 65536 }
        ensures sound { H.sound self.new.host place.new }
        ensures read { (start : H.Start) (moments : Option (List ℕ))
            → StepsIf (λ from p. IsOpen p.state × (p.unfed ≡ [])
            × (self.old.input ≡ InputState.Open) × (self.old.ahead < 2 ^ 24)) H.held
            (H.serves start self.old.host place.old moments) (H.work self.old.host place.old)
            (S.view self.old.stream) self.old (H.serves start self.new.host place.new moments)
            (λ from p p'. IsServing H.held (H.work self.new.host place.new) from
            (S.view self.new.stream) self.new p'
            × HasRead result self.old self.new p p') }
        ensures len { vec_len piece.new ≡ vec_len piece.old }
        ensures blocks { result ≡ false → S.reads_block self.new.stream }
        ensures writes { S.writes_block self.old.stream → S.writes_block self.new.stream }
        ensures waits { S.waits self.new.stream ≡ S.waits self.old.stream }
    {
        match self.stream.try_read(piece) {
            Ok(None) => false,
            Ok(Some(0)) => {
                self.input = InputState::AtEnd;
                true
            }
            Ok(Some(n)) => {
                self.feed(place, piece, n);
                true
            }
            Err(_) => {
                self.input = InputState::Failed;
                true
            }
        }
    }

    /// Whether it reads on while its output is pending.
    pub(super) fn reads_ahead(&self) -> bool
        ensures no { result ≡ false → ReadsNoFurther self.now }
        ensures yes { result ≡ true → MayReadAhead self.now }
    {
        match self.state {
            ServeState::Ending(_) => false,
            ServeState::Processing | ServeState::Waiting => {
                self.input == InputState::Open && self.ahead < AHEAD
            }
        }
    }
}
