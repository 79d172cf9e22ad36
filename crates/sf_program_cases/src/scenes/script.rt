//! What the threads of a scene wait for, and how far they are.

use sf_connection::CallObserver;
use sf_pool::StepObserver;
use std::sync::atomic::{AtomicU64, Ordering};
use std::thread;

/// How often a thread yields before it gives up waiting.
const MOST_YIELDS: u64 = 10_000_000;

/// How often a thread yields so that another one, whose next step sleeps, is asleep by then.
const LONGER: u64 = 10_000;

/// How often a session yields after each of its calls while another one asks for the core.
const A_WHILE: u64 = 2_000;

fn let_run(yields: u64) {
    for _ in 0..yields {
        thread::yield_now();
    }
}

/// What a thread waits for.
#[derive(Clone, Copy)]
pub(super) enum Until {
    /// Nothing.
    Now,
    /// This number of calls sleep.
    Asleep(u64),
    /// This number of calls were answered.
    Answers(u64),
    /// The call that the scene is about was answered.
    Done,
}

/// What the threads of a scene have done.
#[derive(Drop)]
pub(super) struct Signs {
    /// How many waits have begun.
    pub ready: AtomicU64,
    asleep: AtomicU64,
    answers: AtomicU64,
    /// 1 once the call that the scene is about was answered.
    pub done: AtomicU64,
    /// How many calls were answered before it.
    pub before: AtomicU64,
    /// 1 if a wait was given up.
    pub late: AtomicU64,
}

impl Signs {
    /// This number of waits count as begun.
    pub(super) fn new(ready: u64) -> Signs {
        Signs {
            ready: AtomicU64::new(ready),
            asleep: AtomicU64::new(0),
            answers: AtomicU64::new(0),
            done: AtomicU64::new(0),
            before: AtomicU64::new(0),
            late: AtomicU64::new(0),
        }
    }

    pub(super) fn wait_for(&self, sign: &AtomicU64, least: u64) {
        for _ in 0..MOST_YIELDS {
            if sign.load(Ordering::SeqCst) >= least {
                return;
            }
            thread::yield_now();
        }
        self.late.store(1, Ordering::SeqCst);
    }

    /// Whether it has happened.
    fn has(&self, until: Until) -> bool {
        match until {
            Until::Now => true,
            Until::Asleep(calls) => self.asleep.load(Ordering::SeqCst) >= calls,
            Until::Answers(calls) => self.answers.load(Ordering::SeqCst) >= calls,
            Until::Done => self.done.load(Ordering::SeqCst) != 0,
        }
    }

    /// Waits, within a call.
    pub(super) fn wait(&self, until: Until) {
        let mut pause = Pause::none();
        for _ in 0..MOST_YIELDS {
            if pause.is_over(self, until) {
                return;
            }
            thread::yield_now();
        }
    }
}

/// A wait that doesn't block: whoever waits tries again.
#[derive(Drop)]
pub(super) struct Pause {
    has_begun: bool,
    tries: u64,
}

impl Pause {
    pub(super) fn none() -> Pause {
        Pause {
            has_begun: false,
            tries: 0,
        }
    }

    /// Whether the wait is over. Gives it up after many tries.
    pub(super) fn is_over(&mut self, signs: &Signs, until: Until) -> bool {
        if let Until::Now = until {
            return true;
        }
        if !self.has_begun {
            *self = Pause {
                has_begun: true,
                tries: 0,
            };
            signs.ready.fetch_add(1, Ordering::SeqCst);
        }
        if !signs.has(until) {
            self.tries = self.tries.saturating_add(1);
            if self.tries < MOST_YIELDS {
                return false;
            }
            signs.late.store(1, Ordering::SeqCst);
        }
        if let Until::Asleep(_) = until {
            let_run(LONGER);
        }
        self.has_begun = false;
        true
    }
}

/// What happens to the calls of a scene. Calls are named by their numbers.
#[derive(Clone, Copy)]
pub(super) struct Script<'a> {
    /// How many clients come at once. Each later one comes when one more wait has begun.
    pub at_once: u64,
    /// The first sessions, whose calls are not stopped between steps.
    pub free: u64,
    /// Before a step of a call, its thread waits.
    pub holds: &'a [(u64, u64, Until)],
    /// Calls, and the step of each that sleeps.
    pub sleepers: &'a [(u64, u64)],
    /// The call whose answer wakes. Its session waits then until the scene is done.
    pub waker: u64,
    /// The session whose one call the scene is about.
    pub woken: u64,
    /// After this number of answers other threads have time to ask for the core.
    pub slow_after: u64,
}

/// No call is stopped, and nobody waits.
pub(super) const FREE: Script<'static> = Script {
    at_once: 1,
    free: u64::MAX,
    holds: &[],
    sleepers: &[],
    waker: 0,
    woken: 2,
    slow_after: u64::MAX,
};

/// Follows the script.
#[derive(Drop)]
pub(super) struct Director<'a> {
    pub signs: &'a Signs,
    pub script: Script<'a>,
}

impl CallObserver for Director<'_> {}

impl StepObserver for Director<'_> {
    fn stops(&self, session: u64, _number: u64, _steps: u64) -> bool {
        session > self.script.free
    }

    fn between(&self, _session: u64, number: u64, steps: u64) {
        for (call, step, until) in self.script.holds {
            if *call == number && *step == steps {
                self.signs.wait(*until);
            }
        }
        for (call, step) in self.script.sleepers {
            if *call == number && *step == steps {
                self.signs.asleep.fetch_add(1, Ordering::SeqCst);
                self.signs.ready.fetch_add(1, Ordering::SeqCst);
            }
        }
    }

    fn answered(&self, session: u64, number: u64) {
        let before = self.signs.answers.fetch_add(1, Ordering::SeqCst);
        if session == self.script.woken {
            self.signs.before.store(before, Ordering::SeqCst);
            self.signs.done.store(1, Ordering::SeqCst);
        } else if before >= self.script.slow_after && self.signs.done.load(Ordering::SeqCst) == 0 {
            let_run(A_WHILE);
        }
        if number == self.script.waker {
            self.signs.wait_for(&self.signs.done, 1);
        }
    }
}
