//! The engine as the backend of a session.

ghost use Rattle.std.specs.Prelude.{◌≡◌, ◌<◌, ◌≤◌, ◌∷◌, ℕ, List, [], length, take, Bool, Option, Result, Ok, IfOk, IfErr, OnOk, OnErr, vec_len};
ghost use Rattle.std.specs.Io.KnownBytes.{Appends};
ghost use Rattle.sf_session.specs.declared.fault.ServeFault.{ServeFault};
ghost use Rattle.sf_session.specs.SessionStates.{SessionState, fed, IsRead};
ghost use Rattle.sf_session.specs.Responses.{transcript};
ghost use Rattle.sf_connection.specs.Hosts.{IsOpen, HasSent, IsFurther, IsSessionStep, with_sent, ended, IsHostFault};
ghost use Rattle.sf_alone.specs.OnEngine.{Since, IsToldBy, io_state, may_begin_after, Turns, Feeds, Applies, HasOutput, ServesLine, StopsEarly};

use sf_call::Record;
use sf_connection::{
    CallObserver, Connection, Host, ObservedCall, SessionStep, WaitingStream, new_piece,
};
use sf_engine::{Engine, EngineFault, Event, Happened};
use sf_session::{Cause, Clock, ServeFault};
use std::alloc::{AllocError, Global};

/// The unsent output, in bytes, at which a batch ends although complete packets are unread.
const BATCH: usize = 65536;

/// Feeds the first `n` bytes of `piece` to the session.
fn feed(engine: &mut Engine, session: u64, piece: &Vec<u8>, n: usize) -> Result<(), AllocError>
    requires { n ≤ vec_len piece.now }
    ensures fed { OnOk result (Feeds engine.old session (take n piece.now.items) engine.new) }
    ensures err { OnErr result (engine.new ≡ engine.old) }
{
    if engine.feed(session, &piece[..n]).is_err() {
        return Err(AllocError);
    }
    Ok(())
}

/// Executes turns of the session; all but the last report that it can continue. If no call may
/// begin, the timestamp has no effect and the clock is not read.
fn turns<C: Clock>(
    engine: &mut Engine,
    clock: &mut C,
    session: u64,
    may_begin: bool,
) -> Result<Happened, EngineFault>
    ensures { Turns session may_begin (C.moments clock.old) (C.moments clock.new) engine.old result
        engine.new }
{
    if !may_begin {
        return engine.turns(session, 0);
    }
    let moment = clock.now();
    engine.turns(session, moment)
}

/// Whether the session's next turn may begin a call.
fn may_begin_after(happened: Happened) -> bool
    ensures { result ≡ may_begin_after happened }
{
    match happened {
        Happened::Begun | Happened::Moved | Happened::Blocked(_) | Happened::Decided => false,
        _ => true,
    }
}

/// Closes the session.
fn close(engine: &mut Engine, session: u64)
    ensures { Applies engine.old (Event.Close session) engine.new }
{
    let _ = engine.apply(&Event::Close(session));
}

/// Records that `n` bytes of the session's output were sent.
fn tell_sent(engine: &mut Engine, session: u64, n: usize)
    ensures { Applies engine.old (Event.Sent session n) engine.new }
{
    let _ = engine.sent(session, n);
}

/// The session's unsent output.
fn waiting(engine: &Engine, session: u64) -> &[u8]
    ensures { HasOutput engine.now session result.now }
{
    match engine.output(session) {
        Some(output) => output,
        None => &[],
    }
}

/// The record as a call of the session, if it is one.
fn observed(record: &Record, session: u64) -> Option<ObservedCall<'_>> {
    match record {
        Record::Did {
            number,
            session: by,
            moment,
            request,
            reply,
        } if *by == session => Some(ObservedCall {
            session,
            number: *number,
            moment: *moment,
            request,
            reply,
        }),
        _ => None,
    }
}

/// The session's last call among the records.
fn last_call(records: &[Record], session: u64) -> Option<ObservedCall<'_>> {
    for record in records.iter().rev() {
        let call = observed(record, session);
        if call.is_some() {
            return call;
        }
    }
    None
}

/// Reports the session's last call to the observer, unless its number is `told`, the last one
/// reported. It returns the number of the last call reported.
fn tell_call<G: CallObserver>(observer: &G, engine: &Engine, session: u64, told: u64) -> u64 {
    if !observer.hears_calls() {
        return told;
    }
    match last_call(engine.core().history(), session) {
        Some(call) if call.number != told => {
            observer.called(call);
            call.number
        }
        _ => told,
    }
}

/// A session of an engine, the number of its turns, and the observer of its calls.
#[derive(Drop)]
pub struct EngineHost<'a, G> {
    session: u64,
    turns: u64,
    observer: &'a G,
    // The number of the last call reported to the observer; 0 if there is none.
    told: u64,
}

impl<'a, G> EngineHost<'a, G> {
    /// A session that has taken no turn.
    pub fn new(session: u64, observer: &'a G) -> EngineHost<'a, G>
        ensures session { result.session ≡ session }
        ensures turns { result.turns ≡ 0 }
    {
        EngineHost {
            session,
            turns: 0,
            observer,
            told: 0,
        }
    }
}

impl<G: CallObserver> Host<Engine> for EngineHost<'_, G> {
    ghost use Rattle.sf_alone.specs.OnEngine.{Since, IsToldBy, engine_held};

    ghost Start = { Since };

    ghost serves = { λ start h engine told t. IsToldBy h.turns start h.session engine told t };

    ghost held = { engine_held };

    ghost sound = { λ h engine. Unit {0} };

    ghost work = { λ h engine. h.turns };

    ghost left = { λ h engine. Unit {0} };

    fn feed(&mut self, engine: &mut Engine, piece: &Vec<u8>, n: usize) -> Result<(), AllocError> {
        feed(engine, self.session, piece, n)
    }

    fn go_on<C: Clock>(
        &mut self,
        engine: &mut Engine,
        clock: &mut C,
    ) -> Result<SessionStep, ServeFault> {
        let mut may_begin = true;
        while self.turns < u64::MAX {
            self.turns += 1;
            let happened = match turns(engine, clock, self.session, may_begin) {
                Ok(happened) => happened,
                Err(_) => {
                    tell_call(self.observer, engine, self.session, self.told);
                    return Err(ServeFault::OutOfMemory);
                }
            };
            self.told = tell_call(self.observer, engine, self.session, self.told);
            match happened {
                Happened::Idle => return Ok(SessionStep::Waits),
                Happened::Ended(cause) => return Ok(SessionStep::Ended(cause)),
                Happened::Wrote => {
                    if engine.wants_bytes(self.session) {
                        return Ok(SessionStep::Waits);
                    }
                    if waiting(engine, self.session).len() >= BATCH {
                        return Ok(SessionStep::Answered);
                    }
                }
                _ => {}
            }
            may_begin = may_begin_after(happened);
        }
        Err(ServeFault::NumbersSpent)
    }

    fn rest(&mut self, _engine: &mut Engine) {}

    fn output<'a>(&'a self, engine: &'a Engine) -> &'a [u8] {
        waiting(engine, self.session)
    }

    fn sent(&mut self, engine: &mut Engine) {
        let n = waiting(engine, self.session).len();
        tell_sent(engine, self.session, n);
    }

    fn end(&mut self, engine: &mut Engine) {
        close(engine, self.session);
    }
}

/// Serves one session over a stream until its input or the session ends, on an engine that may
/// have other sessions. Returns the stream too. The observer receives the session's events.
pub fn serve_one<S: WaitingStream, C: Clock, G: CallObserver>(
    alloc: Global,
    engine: &mut Engine,
    stream: S,
    clock: &mut C,
    observer: &G,
) -> (Result<Cause, ServeFault>, S)
    ensures served { IfOk result.0 (λ cause. ServesLine
        (io_state (S.view stream) (S.waits stream) (C.moments clock.old) engine.old)
        (io_state (S.view result.1) (S.waits result.1) (C.moments clock.new) engine.new) cause) }
    ensures stopped { IfErr result.0 (λ fault. StopsEarly
        (io_state (S.view stream) (S.waits stream) (C.moments clock.old) engine.old)
        (io_state (S.view result.1) (S.waits result.1) (C.moments clock.new) engine.new) fault) }
{
    let Ok(mut piece) = new_piece(alloc) else {
        return (Err(ServeFault::OutOfMemory), stream);
    };
    let session = match engine.open() {
        Ok(session) => session,
        Err(refusal) => return (Err(ServeFault::from(refusal)), stream),
    };
    observer.joined(session);
    let host = EngineHost {
        session,
        turns: 0,
        observer,
        told: 0,
    };
    let mut connection = Connection::new(alloc, host, stream);
    let outcome = connection.serve(engine, clock, &mut piece);
    observer.left(session, outcome);
    let (_, stream) = connection.into_parts();
    (outcome, stream)
}
