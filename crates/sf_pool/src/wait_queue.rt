//! The threads that wait for a shared core.

use std::hint::spin_loop;
use std::sync::atomic::{AtomicU64, Ordering};
use std::sync::{Condvar, Mutex, MutexGuard, Wait};

/// How often a thread spins before it yields.
pub(crate) const LOOKS: u32 = 20;

/// The threads that wait for a shared core, and whether one holds it.
#[derive(Drop)]
pub struct WaitQueue {
    happened: Condvar,
    // Threads that sleep until an event. Changed under the mutex.
    asleep: AtomicU64,
    // 1 while a session has the mutex, so that others needn't try it. Changed under the mutex.
    taken: AtomicU64,
    // Requests for the core so far.
    asks: AtomicU64,
    // Present waiters: for an event, and after a blocked step.
    asking: AtomicU64,
    blocked: AtomicU64,
    // The batch token: its holder may hold the core for many calls.
    permit: Mutex<()>,
}

impl WaitQueue {
    /// A queue without waiters.
    pub fn new() -> WaitQueue {
        WaitQueue {
            happened: Condvar::new(),
            asleep: AtomicU64::new(0),
            taken: AtomicU64::new(0),
            asks: AtomicU64::new(0),
            asking: AtomicU64::new(0),
            blocked: AtomicU64::new(0),
            permit: Mutex::new(()),
        }
    }

    /// Registers a waiter, after a blocked step or for another event.
    pub(crate) fn ask(&self, is_blocked: bool) {
        self.asks.fetch_add(1, Ordering::SeqCst);
        self.those(is_blocked).fetch_add(1, Ordering::SeqCst);
    }

    /// The waiter acquired the core.
    pub(crate) fn got(&self, is_blocked: bool) {
        self.those(is_blocked).fetch_sub(1, Ordering::SeqCst);
    }

    fn those(&self, is_blocked: bool) -> &AtomicU64 {
        if is_blocked {
            &self.blocked
        } else {
            &self.asking
        }
    }

    /// Whether there is a waiter that may come in. After a blocked step one may only if no call
    /// holds a lock of the tree.
    pub(crate) fn is_asked(&self, is_over: bool) -> bool {
        self.asking.load(Ordering::SeqCst) != 0
            || is_over && self.blocked.load(Ordering::SeqCst) != 0
    }

    /// The number of requests for the core so far.
    pub(crate) fn asks(&self) -> u64 {
        self.asks.load(Ordering::SeqCst)
    }

    /// Spins until all waiters came in that may.
    pub(crate) fn are_in(&self, is_over: bool) -> bool {
        for _ in 0..LOOKS {
            if !self.is_asked(is_over) {
                return true;
            }
            spin_loop();
        }
        false
    }

    /// Marks that a session has the mutex, or is about to release it.
    pub(crate) fn set_taken(&self, is_taken: bool) {
        self.taken.store(is_taken as u64, Ordering::SeqCst);
    }

    /// Whether the mutex was last marked as held.
    pub(crate) fn is_taken(&self) -> bool {
        self.taken.load(Ordering::SeqCst) != 0
    }

    /// Wakes sleeping threads. The caller has the mutex, or has just released it.
    pub(crate) fn tell(&self) {
        if self.asleep.load(Ordering::SeqCst) != 0 {
            self.happened.notify_all();
        }
    }

    /// Sleeps until an event on the core.
    pub(crate) fn wait<'a, R: Wait, T>(
        &self,
        rt: &R,
        guard: MutexGuard<'a, T>,
    ) -> MutexGuard<'a, T> {
        self.asleep.fetch_add(1, Ordering::SeqCst);
        self.set_taken(false);
        let guard = self.happened.wait(rt, guard);
        self.set_taken(true);
        self.asleep.fetch_sub(1, Ordering::SeqCst);
        guard
    }

    /// Waits for the batch token.
    pub(crate) fn take_permit<R: Wait>(&self, rt: &R) -> MutexGuard<'_, ()> {
        self.permit.lock(rt)
    }
}
