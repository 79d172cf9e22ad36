//! A session's lane at a core under a mutex.

ghost use Rattle.std.specs.Prelude.{◌≡◌, ◌≢◌, ◌<◌, ◌+◌, None, true, map};
ghost use Rattle.sf_audit.specs.Audits.{call_record};
ghost use Rattle.sf_pool.specs.SessionLanes.{New, new_session_lane};
ghost use Rattle.sf_pool.specs.OnCores.{IsVisitOf, calls_begun_by};

use crate::session_lane::{SessionLane, StepResult};
use crate::transcript_lane::{EndedLane, TranscriptLane};
use crate::wait_queue::{LOOKS, WaitQueue};
use sf_audit::AnsweredCall;
use sf_call::{BeginFault, JoinFault, Record, Request};
use sf_field::HandleOp;
use sf_noted::NotedCore;
use sf_roll::{RollName, Seen};
use std::alloc::Global;
use std::hint::spin_loop;
use std::marker::Model;
use std::sync::ledger::{self, Ledger};
use std::sync::{Mutex, MutexGuard, Wait};
use std::thread;

/// How often a thread yields before it blocks on the mutex.
const YIELDS: u32 = 20;

/// How often a blocked step is retried before its thread sleeps until an event.
const TRIES_AWAKE: u32 = 64;

/// How many calls a session makes without a pause before it takes the batch token.
const CALLS_BEFORE_PERMIT: u64 = 4;

/// How many calls it makes before it gives the batch token to others.
const CALLS_BY_PERMIT: u64 = 256;

/// The batch token, and how many more calls it is for.
#[derive(Drop)]
struct Batch<'a> {
    _token: MutexGuard<'a, ()>,
    left: u64,
    ghost few: { left < 256 },
}

impl Batch<'_> {
    /// Whether the token is for the next call, which is counted.
    fn count(&mut self) -> bool
        ensures { result ≡ true → self.new.left + 1 ≡ self.old.left }
    {
        if self.left == 0 {
            return false;
        }
        self.left -= 1;
        true
    }
}

/// Whether a call moves much data. Its packet and reply are best made while others have the core.
fn is_large(request: &Request) -> bool {
    matches!(
        request,
        Request::ByHandle(HandleOp::Read { .. } | HandleOp::ReadDir, _) | Request::Write { .. }
    )
}

/// One session's calls on a core under a mutex. Each event holds the mutex once, and waiters may
/// acquire it between two events. Without waiters the lane holds it until its call is answered, and
/// with the batch token until it pauses. A step that another session's call blocks is retried after
/// others ran. After some tries its thread sleeps until an event.
pub struct SharedLane<'a, R: Wait, B: RollName + Ledger> {
    rt: &'a R,
    core: &'a Mutex<NotedCore<B>>,
    wait_queue: &'a WaitQueue,
    transcript_lane: TranscriptLane<B>,
    seen: Seen<Record, B>,
    held: Option<MutexGuard<'a, NotedCore<B>>>,
    permit: Option<Batch<'a>>,
    // Calls begun since the last pause, and between the two pauses before.
    made: u64,
    before: u64,
    // How often the current step was blocked.
    blocked: u32,
    // The number of requests for the core when it last yielded to waiters that didn't run.
    vain: u64,
    // It made an event, and hasn't woken sleeping threads yet.
    moved: bool,
    // The call under way moves much data.
    is_large: bool,
}

impl<R: Wait, B: RollName + Ledger> Drop for SharedLane<'_, R, B> {
    fn drop(self) {
        let SharedLane {
            rt: _,
            core: _,
            wait_queue,
            transcript_lane: _transcript_lane,
            seen: _seen,
            held,
            permit: _permit,
            made: _,
            before: _,
            blocked: _,
            vain: _,
            moved: _,
            is_large: _,
        } = self;
        drop(held);
        wait_queue.tell();
    }
}

impl<'a, R: Wait, B: RollName + Ledger> SharedLane<'a, R, B> {
    /// A session that hasn't joined. Retains all its calls or only the last one, and counts them in
    /// the share. The token's prefix has none of them.
    pub fn new(
        rt: &'a R,
        alloc: Global,
        core: &'a Mutex<NotedCore<B>>,
        wait_queue: &'a WaitQueue,
        keeps: bool,
        share: ledger::Share<B>,
        seen: Seen<Record, B>,
    ) -> SharedLane<'a, R, B>
        requires part { share.parts ≡ 1 }
        requires none { share.amount ≡ 0 }
        ensures lane { result.transcript_lane ≡ new_session_lane keeps }
        ensures seen { result.seen ≡ seen }
    {
        SharedLane {
            rt,
            core,
            wait_queue,
            transcript_lane: TranscriptLane::new(alloc, keeps, share),
            seen,
            held: None,
            permit: None,
            made: 0,
            before: 0,
            blocked: 0,
            vain: 0,
            moved: false,
            is_large: false,
        }
    }

    /// Ends the lane, and returns its result and its token. Abandons a session that hasn't left.
    pub fn end(self) -> (EndedLane<B>, Seen<Record, B>)
        requires { self.transcript_lane.place ≢ New }
        ensures visit { IsVisitOf self.entry.transcript_lane result.0.visit }
        ensures session { result.0.transcript.session ≡ self.entry.transcript_lane.session }
        ensures calls { self.entry.transcript_lane.keeps ≡ true
            → map call_record result.0.transcript.calls.items ≡ self.entry.transcript_lane.calls }
        ensures part { result.0.share.parts ≡ 1 }
        ensures begun { result.0.share.amount ≡ calls_begun_by result.0.visit }
        ensures seen { result.1 ≡ self.entry.seen }
        ensures steps { result.0.steps ≡ self.entry.transcript_lane.steps }
    {
        let SharedLane {
            rt: _,
            core: _,
            wait_queue,
            transcript_lane,
            seen,
            held,
            permit: _permit,
            made: _,
            before: _,
            blocked: _,
            vain: _,
            moved: _,
            is_large: _,
        } = self;
        drop(held);
        wait_queue.tell();
        (transcript_lane.end(), seen)
    }

    /// Spins for the mutex.
    fn look(&self) -> Option<MutexGuard<'a, NotedCore<B>>> {
        for _ in 0..LOOKS {
            if !self.wait_queue.is_taken() {
                if let Some(guard) = self.core.try_lock() {
                    return Some(guard);
                }
            }
            spin_loop();
        }
        None
    }

    /// Acquires the mutex: spins, yields, and finally blocks.
    fn take(&self) -> MutexGuard<'a, NotedCore<B>> {
        for _ in 0..YIELDS {
            if let Some(guard) = self.look() {
                return guard;
            }
            thread::yield_now();
        }
        self.core.lock(self.rt)
    }

    /// Acquires the mutex, and registers as a waiter if it isn't free soon.
    fn ask(&self) -> MutexGuard<'a, NotedCore<B>> {
        if let Some(guard) = self.look() {
            return guard;
        }
        let is_blocked = self.blocked != 0;
        self.wait_queue.ask(is_blocked);
        let guard = self.take();
        self.wait_queue.got(is_blocked);
        guard
    }

    /// Acquires the mutex for an event. The holder of the batch token lets others in first.
    fn lock(&self) -> MutexGuard<'a, NotedCore<B>> {
        let guard = if self.permit.is_some() && self.blocked == 0 {
            self.take()
        } else {
            self.ask()
        };
        self.wait_queue.set_taken(true);
        guard
    }

    /// Acquires the mutex for many calls. Only one session has the batch token. A lane waits for it
    /// without the mutex and between two calls, so it blocks nobody then.
    fn lock_for_many(&mut self) -> MutexGuard<'a, NotedCore<B>>
        ensures transcript_lane { self.new.transcript_lane ≡ self.old.transcript_lane }
        ensures seen { self.new.seen ≡ self.old.seen }
    {
        self.permit = None;
        let token = self.wait_queue.take_permit(self.rt);
        self.permit = Some(Batch {
            _token: token,
            left: CALLS_BY_PERMIT - 1,
        });
        self.lock()
    }

    /// Releases the mutex.
    fn release(&mut self, guard: MutexGuard<'a, NotedCore<B>>)
        ensures transcript_lane { self.new.transcript_lane ≡ self.old.transcript_lane }
        ensures seen { self.new.seen ≡ self.old.seen }
        ensures held { self.new.held ≡ self.old.held }
        ensures permit { self.new.permit ≡ self.old.permit }
    {
        self.tell();
        self.wait_queue.set_taken(false);
        drop(guard);
    }

    /// Wakes sleeping threads if there was an event.
    fn tell(&mut self)
        ensures transcript_lane { self.new.transcript_lane ≡ self.old.transcript_lane }
        ensures seen { self.new.seen ≡ self.old.seen }
        ensures held { self.new.held ≡ self.old.held }
        ensures permit { self.new.permit ≡ self.old.permit }
    {
        if self.moved {
            self.wait_queue.tell();
            self.moved = false;
        }
    }

    /// Lets waiters in, if any, and acquires the mutex again. If they don't run for a while, it
    /// doesn't wait for the same ones again.
    fn let_in(
        &mut self,
        guard: MutexGuard<'a, NotedCore<B>>,
        is_over: bool,
    ) -> MutexGuard<'a, NotedCore<B>>
        ensures transcript_lane { self.new.transcript_lane ≡ self.old.transcript_lane }
        ensures seen { self.new.seen ≡ self.old.seen }
    {
        if !self.wait_queue.is_asked(is_over) {
            return guard;
        }
        let asks = self.wait_queue.asks();
        self.release(guard);
        if asks != self.vain && !self.are_in(is_over) {
            self.vain = asks;
        }
        self.lock()
    }

    /// Waits a while until all waiters came in. The holder of the batch token also yields.
    fn are_in(&self, is_over: bool) -> bool {
        if self.wait_queue.are_in(is_over) {
            return true;
        }
        if self.permit.is_none() {
            return false;
        }
        thread::yield_now();
        self.wait_queue.are_in(is_over)
    }

    /// The mutex, for the next call.
    fn lock_for_call(&mut self) -> MutexGuard<'a, NotedCore<B>>
        ensures transcript_lane { self.new.transcript_lane ≡ self.old.transcript_lane }
        ensures seen { self.new.seen ≡ self.old.seen }
    {
        let made = self.made;
        self.made = made.saturating_add(1);
        self.blocked = 0;
        let is_many = match &mut self.permit {
            Some(batch) => !batch.count(),
            None => made >= CALLS_BEFORE_PERMIT || self.before > CALLS_BEFORE_PERMIT,
        };
        if is_many {
            self.give_up();
            return self.lock_for_many();
        }
        match self.held.take() {
            Some(guard) => {
                self.tell();
                self.let_in(guard, true)
            }
            None => self.lock(),
        }
    }

    /// The mutex, for the next step.
    fn lock_for_step(&mut self) -> MutexGuard<'a, NotedCore<B>>
        ensures transcript_lane { self.new.transcript_lane ≡ self.old.transcript_lane }
        ensures seen { self.new.seen ≡ self.old.seen }
    {
        match self.held.take() {
            Some(guard) => self.let_in(guard, false),
            None => self.lock(),
        }
    }

    /// After a blocked step, lets the blocking call proceed.
    fn wait(&mut self, core: MutexGuard<'a, NotedCore<B>>)
        ensures transcript_lane { self.new.transcript_lane ≡ self.old.transcript_lane }
        ensures seen { self.new.seen ≡ self.old.seen }
    {
        if self.blocked < TRIES_AWAKE {
            self.blocked += 1;
            self.release(core);
            thread::yield_now();
            return;
        }
        self.permit = None;
        self.tell();
        self.held = Some(self.wait_queue.wait(self.rt, core));
    }

    /// Releases the mutex, if it holds it.
    fn give_up(&mut self)
        ensures transcript_lane { self.new.transcript_lane ≡ self.old.transcript_lane }
        ensures seen { self.new.seen ≡ self.old.seen }
        ensures held { self.new.held ≡ None }
    {
        if let Some(guard) = self.held.take() {
            self.release(guard);
        }
    }

    /// Releases all that it holds.
    fn let_go(&mut self)
        ensures transcript_lane { self.new.transcript_lane ≡ self.old.transcript_lane }
        ensures seen { self.new.seen ≡ self.old.seen }
        ensures held { self.new.held ≡ None }
        ensures permit { self.new.permit ≡ None }
    {
        self.give_up();
        self.permit = None;
        if self.made != 0 {
            self.before = self.made;
            self.made = 0;
        }
        self.vain = 0;
    }

    /// After the reply. Holds the mutex for the next call only with the batch token.
    fn end_call(&mut self)
        ensures transcript_lane { self.new.transcript_lane ≡ self.old.transcript_lane }
        ensures seen { self.new.seen ≡ self.old.seen }
    {
        if self.is_large {
            self.let_go();
        } else if self.permit.is_none() {
            self.give_up();
        }
    }
}

impl<R: Wait, B: RollName + Ledger> SessionLane for SharedLane<'_, R, B> {
    ghost use Rattle.std.specs.Prelude.{◌≡◌, None};

    ghost at = { λ d. d.transcript_lane };

    ghost seen = { λ d. d.seen };

    ghost rests = { λ d. (d.held ≡ None) × (d.permit ≡ None) };

    fn join(&mut self) -> Result<u64, JoinFault> {
        let mut core = self.lock();
        let joined = self.transcript_lane.join(&mut core, &mut self.seen);
        self.moved = true;
        self.release(core);
        joined
    }

    fn begin(&mut self, request: Request, moment: u32) -> Result<u64, BeginFault> {
        self.is_large = is_large(&request);
        let mut core = self.lock_for_call();
        let begun = self
            .transcript_lane
            .begin(&mut core, &mut self.seen, request, moment);
        self.moved = true;
        self.held = Some(core);
        begun
    }

    fn step(&mut self) -> StepResult {
        let mut core = self.lock_for_step();
        let stepped = self.transcript_lane.step(&mut core, &mut self.seen);
        if stepped.blocked {
            self.wait(core);
            return stepped.outcome;
        }
        self.blocked = 0;
        self.moved = true;
        self.held = Some(core);
        if stepped.outcome == StepResult::Answered {
            self.end_call();
        }
        stepped.outcome
    }

    fn rest(&mut self) {
        self.let_go();
    }

    fn last_call(&self) -> &AnsweredCall {
        self.transcript_lane.last_call()
    }

    fn leave(&mut self) {
        self.let_go();
        let mut core = self.lock();
        self.transcript_lane.leave(&mut core);
        self.moved = true;
        self.release(core);
    }
}
