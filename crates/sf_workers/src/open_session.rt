//! A session that a worker serves beside others.

ghost use Rattle.std.specs.Prelude.{◌≡◌, true, List, vec_len, IfOk, IfErr};
ghost use Rattle.sf_call.specs.declared.record.Record.{Record};
ghost use Rattle.sf_connection.specs.Connections.{IfEnded};
ghost use Rattle.sf_noted.specs.Pages.{page_calls};
ghost use Rattle.sf_noted.specs.Visits.{IsVisitIn};
ghost use Rattle.sf_roll.specs.Seen.{IsPrefixOf};
ghost use Rattle.sf_workers.specs.Conversations.{ConversesIn};
ghost use Rattle.sf_workers.specs.LaneSessions.{IsOpenSession, IsEndedSession, keeps_calls};
ghost use Rattle.sf_workers.specs.Sessions.{calls_on_page, calls_in_transcript, IsVisitBetween, WasServed};

use sf_audit::Transcript;
use sf_call::Record;
use sf_connection::{Stream, Wants};
use sf_noted::{NotedCore, Visit};
use sf_pool::{
    EndedLane, LaneConnection, NotJoined, RefusedConnection, SharedLane, StepObserver, WaitQueue,
};
use sf_roll::{RollName, Seen};
use sf_session::Clock;
use std::alloc::Global;
use std::sync::ledger::{Ledger, Share};
use std::sync::{Mutex, Wait};

/// A session that has ended.
#[derive(Drop)]
pub struct EndedSession<B: RollName + Ledger, L> {
    pub visit: Visit<B>,
    /// The session's calls with replies, if they were retained, or only the last one.
    pub transcript: Transcript,
    /// The lent part of the count, with the calls that the session began.
    pub share: Share<B>,
    /// The number of steps made, up to 2^64 - 1.
    pub steps: u64,
    /// A token for a prefix of the history that has all the session's calls.
    pub seen: Seen<Record, B>,
    pub stream: L,
}

/// A session that the core refused. Its stream is untouched.
#[derive(Drop)]
pub struct RefusedSession<B: RollName + Ledger, L> {
    pub refusal: NotJoined,
    /// The lent part of the count.
    pub share: Share<B>,
    pub stream: L,
}

/// A session at a place. Between two calls of `advance` it holds nothing that others wait for.
pub type OpenSession<'a, R, B, G, L> = LaneConnection<'a, SharedLane<'a, R, B>, G, L>;

/// Where sessions are served: a shared core, the queue of threads that wait for it, and an observer
/// of the sessions and their calls.
#[derive(Drop)]
pub struct Place<'a, R, B: RollName + Ledger, G> {
    pub rt: &'a R,
    pub alloc: Global,
    pub core: &'a Mutex<NotedCore<B>>,
    pub wait_queue: &'a WaitQueue,
    pub observer: &'a G,
}

impl<'a, R: Wait, B: RollName + Ledger, G: StepObserver> Place<'a, R, B, G> {
    /// A session joins with a copy of a token, and begins over a stream. Its calls are counted in
    /// the lent share. All its calls are retained, or only the last one.
    pub fn open<L: Stream>(
        &self,
        lent: Share<B>,
        seen: &mut Seen<Record, B>,
        keeps: bool,
        stream: L,
    ) -> Result<OpenSession<'a, R, B, G, L>, RefusedSession<B, L>>
        requires part { lent.parts ≡ 1 }
        requires none { lent.amount ≡ 0 }
        ensures stream { IfOk result (λ c. c.start_stream.value ≡ stream) }
        ensures before { IfOk result (λ c. c.start_lane.value.seen ≡ seen.old) }
        ensures keeps { IfOk result (λ c. keeps_calls c ≡ keeps) }
        ensures is_open { IfOk result (λ c. IsOpenSession L.view c) }
        ensures part { IfErr result (λ r. (r.share.parts ≡ 1) × (r.share.amount ≡ 0)) }
        ensures untouched { IfErr result (λ r. r.stream ≡ stream) }
        ensures seen { seen.new ≡ seen.old }
    {
        let own = self.core.lock(self.rt).copy(seen);
        let lane = SharedLane::new(
            self.rt,
            self.alloc,
            self.core,
            self.wait_queue,
            keeps,
            lent,
            own,
        );
        let refused = match LaneConnection::open(self.alloc, lane, stream, self.observer) {
            Ok(connection) => return Ok(connection),
            Err(refused) => refused,
        };
        let RefusedConnection {
            fault: _,
            lane,
            stream,
        } = refused;
        let (ended, _seen) = lane.end();
        let EndedLane {
            visit,
            transcript: _transcript,
            share,
            steps: _,
        } = ended;
        match visit {
            Ok(_) => unreachable!(),
            Err(refusal) => Err(RefusedSession {
                refusal,
                share,
                stream,
            }),
        }
    }
}

/// Does all that is possible without blocking on the session's stream, but at most 128 steps.
/// `piece` is a read buffer.
pub fn advance_session<R: Wait, B: RollName + Ledger, G: StepObserver, L: Stream, C: Clock>(
    session: &mut OpenSession<'_, R, B, G, L>,
    clock: &mut C,
    piece: &mut Vec<u8>,
) -> Wants
    requires is_open { IsOpenSession L.view session.old }
    requires room { vec_len piece.old ≡ 65536 }
    ensures lane { session.new.start_lane ≡ session.old.start_lane }
    ensures stream { session.new.start_stream ≡ session.old.start_stream }
    ensures ended { IfEnded result (IsOpenSession L.view session.new)
        (IsEndedSession L.view session.new) }
    ensures len { vec_len piece.new ≡ vec_len piece.old }
{
    session.advance(clock, piece)
}

/// Closes a session that has ended.
///
/// Its calls are after the prefix of the token with which it joined, and within the prefix of the
/// one that is returned. So the token carries real-time order to whoever gets it.
pub fn end_session<R: Wait, B: RollName + Ledger, G: StepObserver, L: Stream>(
    session: OpenSession<'_, R, B, G, L>,
) -> EndedSession<B, L>
    requires { IsEndedSession L.view session }
    ensures session { WasServed result.visit (L.view session.entry.start_stream.value)
        (L.view result.stream) result.steps }
    ensures talk { (history : List Record) → IsVisitIn history result.visit
        → ConversesIn history result.visit.0 (L.view session.entry.start_stream.value)
        (L.view result.stream) }
    ensures transcript { keeps_calls session.entry ≡ true
        → calls_in_transcript result.transcript ≡ calls_on_page result.visit }
    ensures part { result.share.parts ≡ 1 }
    ensures calls { result.share.amount ≡ page_calls result.visit.1 }
    ensures seen { IsPrefixOf session.entry.start_lane.value.seen result.seen }
    ensures between { IsVisitBetween session.entry.start_lane.value.seen result.seen result.visit }
{
    let (lane, stream) = session.into_parts();
    let (ended, seen) = lane.end();
    let EndedLane {
        visit,
        transcript,
        share,
        steps,
    } = ended;
    match visit {
        Ok(visit) => EndedSession {
            visit,
            transcript,
            share,
            steps,
            seen,
            stream,
        },
        Err(_) => unreachable!(),
    }
}
