//! A session over a non-blocking stream, with its calls made by a lane.

ghost use Rattle.std.specs.Prelude.{◌≡◌, None, [], vec_len, IfOk, IfErr};
ghost use Rattle.sf_session.specs.SessionStates.{new_state};
ghost use Rattle.sf_roll.specs.Seen.{IsPrefixOf};
ghost use Rattle.sf_connection.specs.Progress.{Progress, progress};
ghost use Rattle.sf_pool.specs.SessionLanes.{New, JoinRefused};

use crate::lane_host::LaneHost;
use crate::observer::StepObserver;
use crate::session_lane::SessionLane;
use sf_call::JoinFault;
use sf_connection::{Connection, Stream, Wants};
use sf_session::Clock;
use std::alloc::Global;
use std::snapshot::Snapshot;

/// A clock that exposes no timestamps, so that many sessions can share it.
#[derive(Drop)]
struct HiddenClock<'a, C> {
    clock: &'a mut C,
}

impl<C: Clock> Clock for HiddenClock<'_, C> {
    ghost moments = { λ _. None };

    fn now(&mut self) -> u32 {
        self.clock.now()
    }
}

/// A session over a stream, whose calls its lane makes. Between two calls of `advance` no call is
/// under way, and the lane holds nothing that others wait for.
#[derive(Drop)]
pub struct LaneConnection<'a, D, G, S> {
    lane: D,
    connection: Connection<LaneHost<'a, G>, S>,
    number: u64,
    observer: &'a G,
    // The lane and the stream before the session joined, in proofs.
    start_lane: Snapshot<D>,
    start_stream: Snapshot<S>,
}

/// A session that was refused, with its lane, and with its stream, which is untouched.
#[derive(Drop)]
pub struct RefusedConnection<D, S> {
    pub fault: JoinFault,
    pub lane: D,
    pub stream: S,
}

impl<'a, D: SessionLane, G: StepObserver, S: Stream> LaneConnection<'a, D, G, S> {
    ghost use Rattle.sf_connection.specs.Connections.{BlocksFor, IfEnded};
    ghost use Rattle.sf_pool.specs.LaneConnections.{scene_of, MayAdvance, IsServingOnLane, HasEnded, ReturnsOnLane};

    /// The session joins. The lane has not joined before. The observer receives the session and its
    /// calls.
    pub fn open(
        alloc: Global,
        lane: D,
        stream: S,
        observer: &'a G,
    ) -> Result<LaneConnection<'a, D, G, S>, RefusedConnection<D, S>>
        requires { (D.at lane).place ≡ New }
        ensures lane { IfOk result (λ c. c.start_lane.value ≡ lane) }
        ensures stream { IfOk result (λ c. c.start_stream.value ≡ stream) }
        ensures serving { IfOk result (λ c. IsServingOnLane
            (scene_of D.at D.begins D.seen) S.view c (progress new_state [] [])) }
        ensures rests { IfOk result (λ c. D.rests c.lane) }
        ensures refused { IfErr result (λ r. D.at r.lane
            ≡ record (D.at lane) { place = JoinRefused r.fault }) }
        ensures untouched { IfErr result (λ r. r.stream ≡ stream) }
        ensures begins { IfErr result (λ r. D.begins r.lane ≡ D.begins lane) }
        ensures seen { IfErr result (λ r. IsPrefixOf (D.seen lane) (D.seen r.lane)) }
    {
        let start_lane = Snapshot::of(&lane);
        let start_stream = Snapshot::of(&stream);
        let mut lane = lane;
        let number = match lane.join() {
            Ok(number) => number,
            Err(fault) => {
                return Err(RefusedConnection {
                    fault,
                    lane,
                    stream,
                });
            }
        };
        lane.rest();
        observer.joined(number);
        let host = LaneHost::new(alloc, number, observer);
        let connection = Connection::new(alloc, host, stream);
        Ok(LaneConnection {
            lane,
            connection,
            number,
            observer,
            start_lane,
            start_stream,
        })
    }

    /// The stream, which may be polled.
    pub fn stream(&self) -> &S
        ensures { result.now ≡ self.now.connection.stream }
    {
        self.connection.stream()
    }

    /// Does all that is possible without blocking on the stream, but at most 128 steps. It may wait
    /// for other threads, whose calls block its own. `piece` is a read buffer, which the caller may
    /// use for other connections between two calls.
    ///
    /// If it returns `Read`, no reply is pending: all complete packets that were read are answered,
    /// and their replies are written. If it returns `Ended`, the session has left, unless its call
    /// has no reply after 2^64 - 1 steps.
    pub fn advance<C: Clock>(&mut self, clock: &mut C, piece: &mut Vec<u8>) -> Wants
        requires may { MayAdvance (scene_of D.at D.begins D.seen) self.old }
        requires room { vec_len piece.old ≡ 65536 }
        ensures served { (p : Progress)
            → IsServingOnLane (scene_of D.at D.begins D.seen) S.view self.old p
            → (p' : Progress) × ReturnsOnLane result (scene_of D.at D.begins D.seen) S.view
            self.new p p' }
        ensures lane { self.new.start_lane ≡ self.old.start_lane }
        ensures stream { self.new.start_stream ≡ self.old.start_stream }
        ensures ended { IfEnded result (Unit {0}) (HasEnded (D.at self.new.lane).place) }
        ensures rests { D.rests self.new.lane }
        ensures blocks { BlocksFor result (S.reads_block self.new.connection.stream)
            (S.writes_block self.new.connection.stream) }
        ensures len { vec_len piece.new ≡ vec_len piece.old }
    {
        let mut clock = HiddenClock { clock };
        let wants = self.connection.advance(&mut self.lane, &mut clock, piece);
        let Wants::Ended(outcome) = wants else {
            return wants;
        };
        self.lane.rest();
        self.observer.left(self.number, outcome);
        wants
    }

    /// The lane and the stream of a session that has ended.
    pub fn into_parts(self) -> (D, S)
        requires { HasEnded (D.at self.lane).place }
        ensures lane { result.0 ≡ self.entry.lane }
        ensures stream { result.1 ≡ self.entry.connection.stream }
    {
        let LaneConnection {
            lane,
            connection,
            number: _,
            observer: _,
            start_lane: _start_lane,
            start_stream: _start_stream,
        } = self;
        let (_host, stream) = connection.into_parts();
        (lane, stream)
    }
}
