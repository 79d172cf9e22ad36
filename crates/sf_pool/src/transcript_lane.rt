//! A session's lane with a transcript of its calls.

ghost use Rattle.std.specs.Prelude.{◌≡◌, ◌≢◌, ◌<◌, ◌+◌, ◌++◌, ◌∷◌, List, [], true, false, map, vec_len, if◌then◌else◌, OnErr, IfOk, IfErr};
ghost use Rattle.std.specs.Vec.{vec_capacity};
ghost use Rattle.sf_call.specs.declared.record.Record.{Record};
ghost use Rattle.sf_call.specs.declared.record.Record.TheVariants.{Left};
ghost use Rattle.sf_call.specs.Histories.{IsNewNumber};
ghost use Rattle.sf_core.specs.Cores.LaneState.{NoLane, Idle, Busy};
ghost use Rattle.sf_core.specs.Histories.{IsHistory};
ghost use Rattle.sf_core.specs.Events.{Joins, RefusesJoin, SessionLeaves};
ghost use Rattle.sf_audit.specs.Audits.{call_record};
ghost use Rattle.sf_roll.specs.Seen.{IsPrefixOf};
ghost use Rattle.sf_noted.specs.Pages.{begun_call};
ghost use Rattle.sf_pool.specs.OnCores.{BeginsAt, RefusesAt, StepsAt, stepped_to, IsVisitOf, calls_begun_by};
ghost use Rattle.sf_pool.specs.TranscriptLanes.{lane_in, WasAsked, EndsAs};
ghost use Rattle.sf_pool.specs.SessionLanes.{New, JoinRefused, Joined, IsResting, HasCallUnderWay, IsLast, new_session_lane, Steps, HasSeenCalls, SeesOn};

use crate::session_lane::StepResult;
use sf_audit::{AnsweredCall, Transcript};
use sf_call::{Answer, BeginFault, JoinFault, Record, Request};
use sf_core::Step;
use sf_noted::{NotedCore, NotedLane, Visit};
use sf_roll::{RollName, Seen};
use std::alloc::Global;
use std::marker::Model;
use std::mem;
use std::sync::ledger::{self, Ledger};

/// The state of a session.
enum Place<B: RollName> {
    New,
    Refused(JoinFault),
    Joined(NotedLane<B>),
    Left(Visit<B>),
}

impl<B: RollName> Drop for Place<B> {
    fn drop(self) {
        match self {
            Place::New | Place::Refused(_) => {}
            Place::Joined(lane) => {
                let _visit = lane.abandon();
            }
            Place::Left(_visit) => {}
        }
    }
}

impl<B: RollName> Place<B> {
    /// The lane of a session that has joined and not left.
    fn into_lane(self) -> Option<NotedLane<B>>
        ensures { result ≡ lane_in self }
    {
        match self {
            Place::Joined(lane) => Some(lane),
            Place::New | Place::Refused(_) => None,
            Place::Left(_visit) => None,
        }
    }

    /// The session's page, or why it never joined. It makes no more calls.
    fn end(self) -> Result<Visit<B>, NotJoined>
        requires { WasAsked self }
        ensures { EndsAs self result }
    {
        match self {
            Place::New => unreachable!(),
            Place::Refused(fault) => Err(NotJoined { fault }),
            Place::Joined(lane) => Ok(lane.abandon()),
            Place::Left(visit) => Ok(visit),
        }
    }
}

/// Why a session never joined. Only the lane of a refused session makes it.
#[derive(Debug, Drop)]
pub struct NotJoined {
    fault: JoinFault,
}

impl NotJoined {
    /// Why the core refused the session.
    pub fn fault(&self) -> JoinFault
        ensures { result ≡ self.now }
    {
        self.fault
    }
}

impl Model for NotJoined {
    ghost use Rattle.sf_call.specs.declared.fault.JoinFault.{JoinFault};

    ghost Value = { JoinFault };

    ghost view = { λ n. n.fault };
}

/// The result of a lane that has ended.
#[derive(Drop)]
pub struct EndedLane<B: RollName + Ledger> {
    /// The session's page, which has no bytes, or why it never joined.
    pub visit: Result<Visit<B>, NotJoined>,
    /// The session's calls with replies, if they were retained, or only the last one.
    pub transcript: Transcript,
    /// The lent part of the count, with the calls that the session began.
    pub share: ledger::Share<B>,
    /// The number of steps made, up to 2^64 - 1.
    pub steps: u64,
}

/// A session's lane at a core, with its transcript. It counts its calls in a lent part of the
/// core's count.
#[derive(Drop)]
pub struct TranscriptLane<B: RollName + Ledger> {
    place: Place<B>,
    share: ledger::Share<B>,
    // The request of the call under way.
    asked: Option<Request>,
    // The number of steps made.
    steps: u64,
    // All answered calls, or the last one.
    transcript: Transcript,
    keeps: bool,
}

impl<B: RollName + Ledger> Model for TranscriptLane<B> {
    ghost use Rattle.std.specs.Prelude.{◌≡◌};
    ghost use Rattle.sf_pool.specs.SessionLanes.{SessionLaneView};
    ghost use Rattle.sf_pool.specs.TranscriptLanes.{session_lane_at, calls_in, NotesLeaving, IsTranscriptLane};

    ghost Value = { SessionLaneView };

    ghost view = { λ s. session_lane_at s.place s.keeps s.steps };

    ghost invariant = { λ s.
        IsTranscriptLane (session_lane_at s.place s.keeps s.steps) s.asked s.transcript
        × NotesLeaving s.place × (s.share.parts ≡ 1)
        × (s.share.amount ≡ calls_in s.place) };
}

/// The outcome of a step.
#[derive(Clone, Copy, Debug, PartialEq, Eq)]
pub struct Stepped {
    pub outcome: StepResult,
    /// Another call blocked the step.
    pub blocked: bool,
}

impl Stepped {
    fn going(blocked: bool) -> Stepped
        ensures outcome { result.outcome ≡ StepResult.Going }
        ensures blocked { result.blocked ≡ blocked }
    {
        Stepped {
            outcome: StepResult::Going,
            blocked,
        }
    }

    fn answered() -> Stepped
        ensures outcome { result.outcome ≡ StepResult.Answered }
        ensures blocked { result.blocked ≡ false }
    {
        Stepped {
            outcome: StepResult::Answered,
            blocked: false,
        }
    }
}

impl<B: RollName + Ledger> TranscriptLane<B> {
    /// A session that hasn't joined. Retains all its calls or only the last one, and counts them in
    /// the share.
    pub fn new(alloc: Global, keeps: bool, share: ledger::Share<B>) -> TranscriptLane<B>
        requires part { share.parts ≡ 1 }
        requires none { share.amount ≡ 0 }
        ensures { result ≡ new_session_lane keeps }
    {
        TranscriptLane {
            place: Place::New,
            share,
            asked: None,
            steps: 0,
            transcript: Transcript {
                session: 0,
                calls: Vec::new(alloc),
            },
            keeps,
        }
    }

    /// The session joins the core.
    pub fn join(
        &mut self,
        core: &mut NotedCore<B>,
        seen: &mut Seen<Record, B>,
    ) -> Result<u64, JoinFault>
        requires { self.old.place ≡ New }
        ensures number { IfOk result (λ session. 0 < session) }
        ensures ok { IfOk result (λ session. self.new ≡ record self.old {
          session = session;
          place = Joined Idle;
          calls = [];
        }) }
        ensures err { IfErr result (λ fault. self.new
            ≡ record self.old { place = JoinRefused fault }) }
        ensures joins { IfOk result (λ session. (session ≡ core.old.0.joins + 1)
            × Joins core.old.0 core.new.0) }
        ensures history { (h : List Record) → IsHistory core.old.0 h → IsHistory core.new.0 h }
        ensures refused { OnErr result (core.new ≡ core.old) }
        ensures fault { IfErr result (λ fault. RefusesJoin core.old.0 fault) }
        ensures further { IsPrefixOf seen.old seen.new }
        ensures own { IfOk result (λ _. HasSeenCalls seen.new self.new) }
    {
        match core.join(seen) {
            Ok(lane) => {
                let session = lane.session();
                self.transcript.session = session;
                self.place = Place::Joined(lane);
                Ok(session)
            }
            Err(fault) => {
                self.place = Place::Refused(fault);
                Err(fault)
            }
        }
    }

    /// Begins a call. Reserves memory for its reply. The token's prefix becomes the whole history so
    /// far, also if sessions that are open made its calls.
    pub fn begin(
        &mut self,
        core: &mut NotedCore<B>,
        seen: &mut Seen<Record, B>,
        request: Request,
        moment: u32,
    ) -> Result<u64, BeginFault>
        requires { IsResting self.old.place }
        ensures ok { IfOk result (λ number. self.new
            ≡ record self.old { place = Joined (Busy (begun_call number moment request)) }) }
        ensures err { OnErr result (self.new ≡ self.old) }
        ensures begins { IfOk result (λ number. (number ≡ core.new.0.drawn)
            × BeginsAt self.old core.old.0 core.new.0 request moment) }
        ensures history { (h : List Record) → IsHistory core.old.0 h → IsHistory core.new.0 h }
        ensures refused { OnErr result (core.new ≡ core.old) }
        ensures fault { IfErr result (λ fault. RefusesAt self.old core.old.0 fault) }
        ensures sees { SeesOn seen.old self.old seen.new self.new }
        ensures whole { IfOk result (λ _. seen.new ≡ core.old.2) }
        ensures new_number { IfOk result (λ number. IsNewNumber number seen.new) }
    {
        self.transcript.calls.reserve(1)?;
        let asked = request.share()?;
        let Place::Joined(lane) = &mut self.place else {
            unreachable!();
        };
        let number = core.begin(lane, &mut self.share, seen, request, moment)?;
        self.asked = Some(asked);
        Ok(number)
    }

    /// One step of the call.
    pub fn step(&mut self, core: &mut NotedCore<B>, seen: &mut Seen<Record, B>) -> Stepped
        requires { HasCallUnderWay self.old.place }
        ensures outcome { Steps self.old result.outcome self.new }
        ensures steps { StepsAt self.old core.old.0 (stepped_to result self.new core.new.0) }
        ensures sees { SeesOn seen.old self.old seen.new self.new }
        ensures shows { result.outcome ≡ StepResult.Answered → HasSeenCalls seen.new self.new }
    {
        self.steps = self.steps.saturating_add(1);
        let Place::Joined(lane) = &mut self.place else {
            unreachable!();
        };
        match core.step(lane, seen) {
            Step::Moved => Stepped::going(false),
            Step::Blocked(_) => Stepped::going(true),
            Step::Answered(answer) => {
                let Some(request) = self.asked.take() else {
                    unreachable!();
                };
                note(&mut self.transcript, self.keeps, request, answer);
                Stepped::answered()
            }
            Step::Stranger => unreachable!(),
        }
    }

    /// The last call, with its reply.
    pub fn last_call(&self) -> &AnsweredCall
        requires { self.now.calls ≢ [] }
        ensures { IsLast self.now.calls (call_record result.now) }
    {
        match self.transcript.calls.as_slice().split_last() {
            Some((call, _earlier)) => call,
            None => unreachable!(),
        }
    }

    /// The session leaves.
    pub fn leave(&mut self, core: &mut NotedCore<B>)
        requires { IsResting self.old.place }
        ensures at { self.new ≡ record self.old { place = Joined NoLane } }
        ensures leaves { SessionLeaves core.old.0 core.new.0 self.old.session }
        ensures history { (h : List Record) → IsHistory core.old.0 h
            → IsHistory core.new.0 (h ++ Left self.old.session ∷ []) }
    {
        let place = mem::replace(&mut self.place, Place::New);
        let Some(lane) = place.into_lane() else {
            unreachable!();
        };
        let (_share, visit) = core.leave(lane);
        self.place = Place::Left(visit);
    }

    /// Ends the lane, and returns its result. Abandons a session that hasn't left.
    pub fn end(self) -> EndedLane<B>
        requires { self.place ≢ New }
        ensures visit { IsVisitOf self result.visit }
        ensures session { result.transcript.session ≡ self.session }
        ensures calls { self.keeps ≡ true
            → map call_record result.transcript.calls.items ≡ self.calls }
        ensures part { result.share.parts ≡ 1 }
        ensures begun { result.share.amount ≡ calls_begun_by result.visit }
        ensures steps { result.steps ≡ self.steps }
    {
        let TranscriptLane {
            place,
            share,
            asked: _asked,
            steps,
            transcript,
            keeps: _,
        } = self;
        EndedLane {
            visit: place.end(),
            transcript,
            share,
            steps,
        }
    }
}

/// Appends a reply, or replaces the last one.
fn note(transcript: &mut Transcript, keeps: bool, request: Request, answer: Answer)
    requires { vec_len transcript.old.calls < vec_capacity transcript.old.calls }
    ensures session { transcript.new.session ≡ transcript.old.session }
    ensures calls { map call_record transcript.new.calls.items
        ≡ map call_record (if keeps then transcript.old.calls.items else [])
        ++ record { number = answer.number; request = request; reply = answer.reply } ∷ [] }
{
    if !keeps {
        transcript.calls.clear();
    }
    transcript
        .calls
        .push_reserved(AnsweredCall { request, answer });
}
