//! A session over a non-blocking stream.

ghost use Rattle.std.specs.Prelude.{◌≡◌, ℕ, [], vec_len, IfOk};
ghost use Rattle.sf_session.specs.SessionStates.{new_state};
ghost use Rattle.sf_connection.specs.Progress.{progress};
ghost use Rattle.sf_connection.specs.Streams.{StreamView};

mod reading;
mod serving;
mod turning;
mod writing;

use crate::gathered::Gathered;
use crate::host::Host;
use crate::stream::Stream;
use sf_session::{Cause, Clock, ServeFault};
use std::alloc::{AllocError, Global};

/// The size of a read buffer, in bytes.
const PIECE: usize = 65536;

/// How many steps `advance` makes: each one processes a packet, or reads, or writes.
const STEPS: u32 = 128;

/// Allocates a read buffer.
pub fn new_piece(alloc: Global) -> Result<Vec<u8>, AllocError>
    ensures { IfOk result (λ piece. vec_len piece ≡ 65536) }
{
    vec![in alloc; 0u8; PIECE]
}

/// The result of `Connection::advance`.
#[derive(Clone, Copy, Debug, PartialEq, Eq)]
pub enum Wants {
    /// The client has all replies. Advance when the stream has input.
    Read,
    /// Output is pending. Advance when the stream accepts more.
    Write,
    /// Output is pending. Advance when the stream accepts more or has input.
    Both,
    /// Advance again, after other connections.
    Again,
    /// The session has ended.
    Ended(Result<Cause, ServeFault>),
}

/// What the connection does next.
#[derive(Clone, Copy, Debug, PartialEq, Eq)]
pub(crate) enum ServeState {
    /// Complete packets may be unread.
    Processing,
    /// No complete packet is unread.
    Waiting,
    /// The session ends once its output is written.
    Ending(Result<Cause, ServeFault>),
}

/// What the connection knows of its input.
#[derive(Clone, Copy, Debug, PartialEq, Eq)]
pub(crate) enum InputState {
    Open,
    AtEnd,
    Failed,
}

/// A session over a non-blocking stream. Nothing borrows it between two calls of `advance`.
#[derive(Debug, Drop)]
pub struct Connection<H, S> {
    stream: S,
    host: H,
    /// Output that was taken from the host.
    gathered: Gathered,
    /// How many bytes of the host's output were written.
    direct: usize,
    /// How many bytes were read since the session last waited for input.
    ahead: usize,
    state: ServeState,
    input: InputState,
}

impl<H, S> Connection<H, S> {
    ghost use Rattle.sf_connection.specs.Connections.{IsServing};

    /// A new session over a stream. The host has received nothing.
    pub fn new(alloc: Global, host: H, stream: S) -> Connection<H, S>
        ensures host { result.host ≡ host }
        ensures stream { result.stream ≡ stream }
        ensures begins { (held work : ℕ) (now : StreamView)
            → IsServing held work now now result (progress new_state [] []) }
    {
        Connection {
            stream,
            host,
            gathered: Gathered::new(alloc),
            direct: 0,
            ahead: 0,
            state: ServeState::Waiting,
            input: InputState::Open,
        }
    }

    /// The stream, which may be polled.
    pub fn stream(&self) -> &S
        ensures { result.now ≡ self.now.stream }
    {
        &self.stream
    }

    /// The host and the stream of a session that has ended.
    pub fn into_parts(self) -> (H, S)
        ensures host { result.0 ≡ self.host }
        ensures stream { result.1 ≡ self.stream }
    {
        let Connection {
            stream,
            host,
            gathered: _gathered,
            direct: _,
            ahead: _,
            state: _,
            input: _,
        } = self;
        (host, stream)
    }
}

impl<H, S: Stream> Connection<H, S> {
    ghost use Rattle.sf_connection.specs.Connections.{Returns, MakesProgress, BlocksFor, IfEnded};

    /// Makes steps until there is nothing else to do, or the session's turn is over.
    fn turns<P, C: Clock>(&mut self, place: &mut P, clock: &mut C, piece: &mut Vec<u8>) -> Wants
    where
        H: Host<P>,
        requires sound { H.sound self.old.host place.old }
        requires room { vec_len piece.old ≡ 65536 }
        ensures ended { IfEnded result (H.sound self.new.host place.new)
            (H.left self.new.host place.new) }
        ensures served { (start : H.Start) → MakesProgress H.held
            (H.serves start self.old.host place.old (C.moments clock.old))
            (H.work self.old.host place.old) (S.view self.old.stream) self.old
            (H.serves start self.new.host place.new (C.moments clock.new))
            (λ from. Returns result H.held (H.work self.new.host place.new) from
            (S.view self.new.stream) self.new) }
        ensures len { vec_len piece.new ≡ vec_len piece.old }
        ensures blocks { BlocksFor result (S.reads_block self.new.stream)
            (S.writes_block self.new.stream) }
        ensures waits { S.waits self.new.stream ≡ S.waits self.old.stream }
    {
        for steps in 0..STEPS {
            match self.turn(place, clock, piece) {
                Some(wants) => return wants,
                None => {}
            }
        }
        Wants::Again
    }

    /// Does all that is possible without blocking on the stream, but at most 128 steps. `piece` is a
    /// read buffer, which the caller may use for other connections between two calls.
    ///
    /// If it returns `Read`, no reply is pending: all complete packets that were read are answered,
    /// and their replies are written.
    pub fn advance<P, C: Clock>(
        &mut self,
        place: &mut P,
        clock: &mut C,
        piece: &mut Vec<u8>,
    ) -> Wants
    where
        H: Host<P>,
        requires sound { H.sound self.old.host place.old }
        requires room { vec_len piece.old ≡ 65536 }
        ensures ended { IfEnded result (H.sound self.new.host place.new)
            (H.left self.new.host place.new) }
        ensures served { (start : H.Start) → MakesProgress H.held
            (H.serves start self.old.host place.old (C.moments clock.old))
            (H.work self.old.host place.old) (S.view self.old.stream) self.old
            (H.serves start self.new.host place.new (C.moments clock.new))
            (λ from. Returns result H.held (H.work self.new.host place.new) from
            (S.view self.new.stream) self.new) }
        ensures rests { IfEnded result (H.rests self.new.host place.new) (Unit {0}) }
        ensures blocks { BlocksFor result (S.reads_block self.new.stream)
            (S.writes_block self.new.stream) }
        ensures len { vec_len piece.new ≡ vec_len piece.old }
        ensures waits { S.waits self.new.stream ≡ S.waits self.old.stream }
    {
        let wants = self.turns(place, clock, piece);
        if let Wants::Ended(_) = wants {
            return wants;
        }
        self.gathered.shrink();
        self.host.rest(place);
        wants
    }
}
