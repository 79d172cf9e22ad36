//! Two sessions of one thread.

ghost use Rattle.std.specs.Prelude.{◌≡◌, ◌*◌, vec_len, IfOk};
ghost use Rattle.sf_connection.specs.Progress.{Progress};
ghost use Rattle.sf_pool.specs.LaneConnections.{scene_of, IsServingOnLane};

use crate::memory_stream::MemoryStream;
use sf_call::Record;
use sf_connection::{NoObserver, Stream, Wants, new_piece};
use sf_core::Core;
use sf_hex::hex_packets;
use sf_noted::{NotedCore, Page};
use sf_pool::{LaneConnection, SessionLane, SharedLane, StepObserver, WaitQueue};
use sf_roll::{NewRoll, RollName};
use sf_session::{Cause, Clock, ServeFault};
use std::alloc::Global;
use std::marker::Brand;
use std::sync::ledger::{Blank, Ledger};
use std::sync::{Mutex, Wait};
use std::test::*;

/// The number of calls of each client, more than the batch token is for.
const CALLS: usize = 600;

/// INIT, and its reply's length.
const INIT: (&str, usize) = ("00000005 01 00000003", 153);

/// STAT of the root, and its reply's length.
const STAT: (&str, usize) = ("0000000a 11 00000002 00000001 2f", 41);

/// A clock that stands still.
#[derive(Drop)]
struct StillClock;

impl Clock for StillClock {
    ghost use Rattle.std.specs.Prelude.{None};

    ghost moments = { λ _. None };

    fn now(&mut self) -> u32 {
        1000
    }
}

/// A session, or its stream and its outcome once it has ended.
type Turn<'a, D, G, S> = Result<LaneConnection<'a, D, G, S>, (S, Result<Cause, ServeFault>)>;

/// Advances a session that has not ended.
fn turn<'a, D: SessionLane + Drop, G: StepObserver, S: Stream>(
    session: Turn<'a, D, G, S>,
    piece: &mut Vec<u8>,
) -> Turn<'a, D, G, S>
    requires serving { IfOk session (λ c. (p : Progress)
        × IsServingOnLane (scene_of D.at D.begins D.seen) S.view c p) }
    requires room { vec_len piece.old ≡ 65536 }
    ensures serving { IfOk result (λ c. (p : Progress)
        × IsServingOnLane (scene_of D.at D.begins D.seen) S.view c p) }
    ensures len { vec_len piece.new ≡ vec_len piece.old }
{
    let mut connection = session?;
    let wants = connection.advance(&mut StillClock, piece);
    if let Wants::Ended(outcome) = wants {
        let (_lane, stream) = connection.into_parts();
        return Err((stream, outcome));
    }
    Ok(connection)
}

/// Serves two sessions by turns.
fn serve_both<'a, D: SessionLane + Drop, G: StepObserver, S: Stream + Drop>(
    first: LaneConnection<'a, D, G, S>,
    second: LaneConnection<'a, D, G, S>,
    piece: &mut Vec<u8>,
) -> (Turn<'a, D, G, S>, Turn<'a, D, G, S>)
    requires first { (p : Progress)
        × IsServingOnLane (scene_of D.at D.begins D.seen) S.view first p }
    requires second { (p : Progress)
        × IsServingOnLane (scene_of D.at D.begins D.seen) S.view second p }
    requires room { vec_len piece.old ≡ 65536 }
{
    let mut one = Ok(first);
    let mut other = Ok(second);
    for _ in 0..4 * CALLS {
        one = turn(one, piece);
        other = turn(other, piece);
    }
    (one, other)
}

/// Two clients send all their requests to a new core, the second one slowly. Returns whether each
/// was served to the end of its input, and the number of bytes that it received.
fn on_one_thread<B: RollName + Ledger, R: Wait>(
    rt: &R,
    alloc: Global,
    tokens: (NewRoll<Page, Record>, Blank),
) -> Result<[(bool, usize); 2], Fail>
    requires roll { tokens.0 ≡ B.table }
    requires name { tokens.1.name ≡ B.name }
    requires parts { (tokens.1.parts ≡ B.parts) × (tokens.1.parts ≡ 2) }
{
    let mut input = hex_packets(alloc, &[INIT.0])?;
    for _ in 0..CALLS {
        input.extend_from_slice(&hex_packets(alloc, &[STAT.0])?)?;
    }
    let (roll, blank) = tokens;
    let (calls, mut all) = blank.open::<B>();
    let mut core = NotedCore::open(Core::new(alloc)?, roll, calls);
    let (seen, also_seen) = (core.token(), core.token());
    let core = Mutex::new(core);
    let wait_queue = WaitQueue::new();
    let observer = NoObserver;
    let lent = all.split_off(1, 0);
    let first = SharedLane::new(rt, alloc, &core, &wait_queue, false, lent, seen);
    let second = SharedLane::new(rt, alloc, &core, &wait_queue, false, all, also_seen);
    let fast = MemoryStream::new(alloc, &input, usize::MAX, false);
    let slow = MemoryStream::new(alloc, &input, 100, true);
    let Ok(first) = LaneConnection::open(alloc, first, fast, &observer) else {
        return Ok([(false, 0); 2]);
    };
    let Ok(second) = LaneConnection::open(alloc, second, slow, &observer) else {
        return Ok([(false, 0); 2]);
    };
    let mut piece = new_piece(alloc)?;
    let (first, second) = serve_both(first, second, &mut piece);
    Ok([received(first), received(second)])
}

/// Whether a session was served to the end of its input, and the number of bytes written.
fn received<D: SessionLane + Drop, G: StepObserver>(
    session: Turn<'_, D, G, MemoryStream<'_>>,
) -> (bool, usize) {
    match session {
        Ok(connection) => (false, connection.stream().written()),
        Err((stream, outcome)) => (outcome == Ok(Cause::Closed), stream.written()),
    }
}

/// Both receive all replies, though each pipelines more requests than the batch token is for.
#[test]
fn two_sessions_take_turns(rt: HostRuntime) -> Result<(), Fail> {
    let alloc = rt.alloc();
    let tokens = (NewRoll::new(alloc)?, Blank::new(2));
    let got = on_one_thread::<Brand, HostRuntime>(&rt, alloc, tokens)?;
    assert_eq!(rt; got, [(true, INIT.1 + CALLS * STAT.1); 2]);
    Ok(())
}
