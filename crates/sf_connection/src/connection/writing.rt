//! The output of a connection.

ghost use Rattle.std.specs.Prelude.{◌≡◌, ◌<◌, ℕ, List, [], true, false, Option, Ok};
ghost use Rattle.sf_connection.specs.Progress.{Progress};
ghost use Rattle.sf_connection.specs.Streams.{StreamView};

use super::{Connection, ServeState};
use crate::host::Host;
use crate::stream::Stream;
use sf_line::LineFault;

impl<H, S: Stream> Connection<H, S> {
    ghost use Rattle.sf_connection.specs.Connections.{IsServing, HasDue, amount};
    ghost use Rattle.sf_connection.specs.Steps.{StepsIf, IsClear, rank, HasTried};

    /// Takes the host's output if there is room for it. A single batch is left to be written
    /// directly.
    pub(super) fn gather<P>(&mut self, place: &mut P)
    where
        H: Host<P>,
        requires { H.sound self.old.host place.old }
        ensures sound { H.sound self.new.host place.new }
        ensures gathered { (start : H.Start) (moments : Option (List ℕ))
            → StepsIf (λ from p. self.old.direct ≡ 0) H.held
            (H.serves start self.old.host place.old moments) (H.work self.old.host place.old)
            (S.view self.old.stream) self.old (H.serves start self.new.host place.new moments)
            (λ from p p'. IsServing H.held (H.work self.new.host place.new) from
            (S.view self.new.stream) self.new p'
            × (amount p' ≡ amount p)) }
        ensures rank { rank self.new ≡ rank self.old }
        ensures stream { self.new.stream ≡ self.old.stream }
    {
        if self.state != ServeState::Processing && self.gathered.as_slice().is_empty() {
            return;
        }
        if !self.gathered.add(self.host.output(place)) {
            return;
        }
        self.host.sent(place);
    }

    /// Writes some of the host's output. Returns false if it would block.
    fn write_output<P>(&mut self, place: &mut P) -> Result<bool, LineFault>
    where
        H: Host<P>,
        requires { H.sound self.old.host place.old }
        ensures sound { H.sound self.new.host place.new }
        ensures wrote { (start : H.Start) (moments : Option (List ℕ))
            → StepsIf (λ from p. HasDue p × (self.old.gathered ≡ [])) H.held
            (H.serves start self.old.host place.old moments) (H.work self.old.host place.old)
            (S.view self.old.stream) self.old (H.serves start self.new.host place.new moments)
            (λ from p p'. IsServing H.held (H.work self.new.host place.new) from
            (S.view self.new.stream) self.new p'
            × HasTried result from (S.view self.new.stream) p p') }
        ensures blocks { result ≡ Ok false → S.writes_block self.new.stream }
        ensures rank { rank self.new ≡ rank self.old }
        ensures waits { S.waits self.new.stream ≡ S.waits self.old.stream }
    {
        let output = self.host.output(place);
        let len = output.len();
        let start = self.direct.min(len);
        match self.stream.try_write(&output[start..]) {
            Ok(Some(n)) => {
                self.direct = start + n;
                if self.direct < len {
                    return Ok(true);
                }
                self.direct = 0;
                self.host.sent(place);
                Ok(true)
            }
            Ok(None) => Ok(false),
            Err(fault) => Err(fault),
        }
    }

    /// Writes some of the pending output. Returns false if it would block.
    pub(super) fn write<P>(&mut self, place: &mut P) -> Result<bool, LineFault>
    where
        H: Host<P>,
        requires { H.sound self.old.host place.old }
        ensures sound { H.sound self.new.host place.new }
        ensures wrote { (start : H.Start) (moments : Option (List ℕ))
            → StepsIf (λ from p. HasDue p) H.held
            (H.serves start self.old.host place.old moments) (H.work self.old.host place.old)
            (S.view self.old.stream) self.old (H.serves start self.new.host place.new moments)
            (λ from p p'. IsServing H.held (H.work self.new.host place.new) from
            (S.view self.new.stream) self.new p'
            × HasTried result from (S.view self.new.stream) p p') }
        ensures blocks { result ≡ Ok false → S.writes_block self.new.stream }
        ensures rank { rank self.new ≡ rank self.old }
        ensures waits { S.waits self.new.stream ≡ S.waits self.old.stream }
    {
        if self.gathered.as_slice().is_empty() {
            return self.write_output(place);
        }
        match self.stream.try_write(self.gathered.as_slice()) {
            Ok(Some(n)) => {
                self.gathered.pass(n);
                Ok(true)
            }
            Ok(None) => Ok(false),
            Err(fault) => Err(fault),
        }
    }

    /// Whether output must be written before the next step.
    pub(super) fn has_due<P>(&self, place: &P) -> bool
    where
        H: Host<P>,
        ensures due { result ≡ true → (start : H.Start) (moments : Option (List ℕ))
            (from now : StreamView) (p : Progress)
            → H.serves start self.now.host place.now moments p.state
            → IsServing H.held (H.work self.now.host place.now) from now self.now p → HasDue p }
        ensures clear { result ≡ false → (start : H.Start) (moments : Option (List ℕ))
            (p : Progress) → H.serves start self.now.host place.now moments p.state
            → IsClear self.now p }
    {
        if self.state != ServeState::Processing && !self.gathered.as_slice().is_empty() {
            return true;
        }
        !self.host.output(place).is_empty()
    }
}
