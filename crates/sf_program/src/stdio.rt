//! The command `sftpd stdio`.

ghost use Rattle.std.specs.Prelude.{◌≡◌, ◌<◌, ◌≤◌, ◌⊎◌, OnOk, OnErr, Result};
ghost use Rattle.std.specs.Io.KnownBytes.{Appends};
ghost use Rattle.sf_line.specs.Lines.{Rose};
ghost use Rattle.sf_session.specs.declared.cause.Cause.{Cause};
ghost use Rattle.sf_session.specs.declared.fault.ServeFault.{ServeFault};
ghost use Rattle.sf_engine.specs.Views.{EngineView};
ghost use Rattle.sf_alone.specs.OnEngine.{io_state};
ghost use Rattle.sf_alone.specs.Talks.{talk_view, ConversesTo};
ghost use Rattle.sf_program.specs.Statuses.{exit_status, line_of_cause, status_line, ServingComesTo, SessionEnds};

use sf_alone::serve_one;
use sf_connection::{CallObserver, WaitingStream};
use sf_engine::Engine;
use sf_line::{Line, LineFault, write_all};
use sf_session::{Cause, Clock, ServeFault};
use std::alloc::Global;

/// Serves one session over a stream, on a new engine that keeps the last `keep` records. Writes the
/// message of an early end to `errors`. Returns the exit status, 0 at the end of the input and else
/// 1, and the stream. The observer receives the session and its calls.
pub fn run_stdio<S: WaitingStream, C: Clock, G: CallObserver, E: Line>(
    alloc: Global,
    keep: usize,
    stream: S,
    clock: &mut C,
    observer: &G,
    errors: &mut E,
) -> (u8, S)
    requires { 0 < keep }
    ensures { (outcome : Result Cause ServeFault)
        × SessionEnds keep (io_state (S.view stream) (S.waits stream) (C.moments clock.old))
        (io_state (S.view result.1) (S.waits result.1) (C.moments clock.new)) outcome
        × ConversesTo
        (talk_view (S.view stream).incoming (C.moments clock.old) (S.view stream).outgoing)
        (talk_view (S.view result.1).incoming (C.moments clock.new) (S.view result.1).outgoing)
        outcome
        × (result.0 ≡ exit_status outcome)
        × (Appends (E.outgoing errors.old) (E.outgoing errors.new) (status_line outcome)
        ⊎ Rose (E.failed errors.old) (E.failed errors.new)) }
{
    let (outcome, stream) = serve(alloc, keep, stream, clock, observer);
    // If the message can't be written, the exit status still reports the failure.
    let _ = report(errors, outcome);
    (status(outcome), stream)
}

/// `run_stdio` on an engine that has served other sessions.
pub fn run_stdio_on<S: WaitingStream, C: Clock, G: CallObserver, E: Line>(
    alloc: Global,
    engine: &mut Engine,
    stream: S,
    clock: &mut C,
    observer: &G,
    errors: &mut E,
) -> (u8, S)
    ensures { (outcome : Result Cause ServeFault)
        × ServingComesTo
        (io_state (S.view stream) (S.waits stream) (C.moments clock.old) engine.old)
        (io_state (S.view result.1) (S.waits result.1) (C.moments clock.new) engine.new) outcome
        × (result.0 ≡ exit_status outcome)
        × (Appends (E.outgoing errors.old) (E.outgoing errors.new) (status_line outcome)
        ⊎ Rose (E.failed errors.old) (E.failed errors.new)) }
{
    let (outcome, stream) = serve_on(alloc, engine, stream, clock, observer);
    // If the message can't be written, the exit status still reports the failure.
    let _ = report(errors, outcome);
    (status(outcome), stream)
}

/// Serves the session on a new engine.
fn serve<S: WaitingStream, C: Clock, G: CallObserver>(
    alloc: Global,
    keep: usize,
    stream: S,
    clock: &mut C,
    observer: &G,
) -> (Result<Cause, ServeFault>, S)
    requires { 0 < keep }
    ensures ends { SessionEnds keep
        (io_state (S.view stream) (S.waits stream) (C.moments clock.old))
        (io_state (S.view result.1) (S.waits result.1) (C.moments clock.new)) result.0 }
    ensures talk { ConversesTo
        (talk_view (S.view stream).incoming (C.moments clock.old) (S.view stream).outgoing)
        (talk_view (S.view result.1).incoming (C.moments clock.new) (S.view result.1).outgoing)
        result.0 }
{
    match Engine::with_keep(alloc, keep) {
        Ok(engine) => {
            let mut engine = engine;
            serve_on(alloc, &mut engine, stream, clock, observer)
        }
        Err(_) => (Err(ServeFault::OutOfMemory), stream),
    }
}

/// Serves the session on this engine.
fn serve_on<S: WaitingStream, C: Clock, G: CallObserver>(
    alloc: Global,
    engine: &mut Engine,
    stream: S,
    clock: &mut C,
    observer: &G,
) -> (Result<Cause, ServeFault>, S)
    ensures { ServingComesTo
        (io_state (S.view stream) (S.waits stream) (C.moments clock.old) engine.old)
        (io_state (S.view result.1) (S.waits result.1) (C.moments clock.new) engine.new) result.0 }
{
    serve_one(alloc, engine, stream, clock, observer)
}

/// The exit status.
fn status(outcome: Result<Cause, ServeFault>) -> u8
    ensures { result ≡ exit_status outcome }
{
    match outcome {
        Ok(Cause::Closed) => 0,
        _ => 1,
    }
}

/// Writes the message of a session that ended early.
fn report<E: Line>(errors: &mut E, outcome: Result<Cause, ServeFault>) -> Result<(), LineFault>
    ensures told { OnOk result (Appends (E.outgoing errors.old) (E.outgoing errors.new)
        (status_line outcome)) }
    ensures fault { OnErr result (Rose (E.failed errors.old) (E.failed errors.new)) }
{
    write_all(errors, line_bytes(outcome))
}

/// The message of the end of a session.
fn line_bytes(outcome: Result<Cause, ServeFault>) -> &'static [u8]
    ensures { result.now ≡ status_line outcome }
{
    match outcome {
        Ok(cause) => ending_bytes(cause),
        Err(ServeFault::OutOfMemory) => b"sftpd: out of memory\n",
        Err(ServeFault::Line) => b"sftpd: stream: standard input or output failed\n",
        Err(ServeFault::Sessions | ServeFault::NumbersSpent) => b"sftpd: stream\n",
    }
}

fn ending_bytes(cause: Cause) -> &'static [u8]
    ensures { result.now ≡ line_of_cause cause }
{
    match cause {
        Cause::NotInit => b"sftpd: session ended: first packet is not INIT\n",
        Cause::OldVersion => b"sftpd: session ended: client version below 3\n",
        Cause::SecondInit => b"sftpd: session ended: second INIT\n",
        Cause::ZeroLength => b"sftpd: session ended: length 0\n",
        Cause::TooLong => b"sftpd: session ended: length above 262144\n",
        Cause::NoId => b"sftpd: session ended: no room for an id\n",
        Cause::Closed => b"",
    }
}
