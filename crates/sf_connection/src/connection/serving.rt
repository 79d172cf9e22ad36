//! A connection over a stream that a thread waits for.

ghost use Rattle.std.specs.Prelude.{◌≡◌, ◌<◌, IfSome, IfNone, vec_len};

use super::{Connection, Wants};
use crate::host::Host;
use crate::waiting::WaitingStream;
use sf_session::{Cause, Clock, ServeFault};

impl<H, S: WaitingStream> Connection<H, S> {
    ghost use Rattle.sf_connection.specs.Connections.{Returns, MakesProgress};
    ghost use Rattle.sf_connection.specs.Waits.{WaitsPromptly, HasRounded};

    /// Advances, and waits. Returns the outcome if the session has ended.
    fn round<P, C: Clock>(
        &mut self,
        place: &mut P,
        clock: &mut C,
        piece: &mut Vec<u8>,
    ) -> Option<Result<Cause, ServeFault>>
    where
        H: Host<P>,
        requires sound { H.sound self.old.host place.old }
        requires room { vec_len piece.old ≡ 65536 }
        ensures going { IfNone result (H.sound self.new.host place.new) }
        ensures left { IfSome result (λ _. H.left self.new.host place.new) }
        ensures waits { IfNone result
            ((S.waits self.new.stream).left < (S.waits self.old.stream).left) }
        ensures served { (start : H.Start) → MakesProgress H.held
            (H.serves start self.old.host place.old (C.moments clock.old))
            (H.work self.old.host place.old) (S.view self.old.stream) self.old
            (H.serves start self.new.host place.new (C.moments clock.new))
            (λ from p p'. HasRounded result H.held (H.work self.new.host place.new) from
            (S.view self.new.stream) self.new p p'
            × WaitsPromptly from (S.waits self.old.stream) (S.waits self.new.stream)) }
        ensures len { vec_len piece.new ≡ vec_len piece.old }
    {
        let wants = self.advance(place, clock, piece);
        if let Wants::Ended(outcome) = wants {
            return Some(outcome);
        }
        match self.stream.wait(wants) {
            Ok(()) => None,
            Err(_) => {
                self.end(place, Err(ServeFault::Line));
                Some(Err(ServeFault::Line))
            }
        }
    }

    /// Serves the session until its input or the session ends. It waits if the stream would block.
    ///
    /// Whenever it waits for input alone, all complete packets that were read are answered, and
    /// their replies are written. A client that waits for a reply thus receives it.
    pub fn serve<P, C: Clock>(
        &mut self,
        place: &mut P,
        clock: &mut C,
        piece: &mut Vec<u8>,
    ) -> Result<Cause, ServeFault>
    where
        H: Host<P>,
        requires sound { H.sound self.old.host place.old }
        requires room { vec_len piece.old ≡ 65536 }
        ensures left { H.left self.new.host place.new }
        ensures served { (start : H.Start) → MakesProgress H.held
            (H.serves start self.old.host place.old (C.moments clock.old))
            (H.work self.old.host place.old) (S.view self.old.stream) self.old
            (H.serves start self.new.host place.new (C.moments clock.new))
            (λ from p p'. Returns (Wants.Ended result) H.held (H.work self.new.host place.new)
            from (S.view self.new.stream) self.new p p'
            × WaitsPromptly from (S.waits self.old.stream) (S.waits self.new.stream)) }
        ensures len { vec_len piece.new ≡ vec_len piece.old }
    {
        loop {
            match self.round(place, clock, piece) {
                Some(outcome) => return outcome,
                None => {}
            }
        }
    }
}
