//! What the accepting thread, a worker and its streams share.

use mio::unix::SourceFd;
use mio::{Interest, Poll, Registry, Token, Waker};
use std::io::{self, ErrorKind};
use std::os::fd::RawFd;
use std::sync::atomic::{AtomicBool, AtomicU64, Ordering};
use std::time::Instant;

/// The token of a worker's waker. The tokens of streams are the keys of their connections.
pub(crate) const WAKE: usize = usize::MAX;

/// How often a worker has polled, and how often a poll reported that a peer sends no more.
#[derive(Clone, Copy, Debug, PartialEq, Eq)]
pub(crate) struct PollCount {
    pub(crate) polls: u64,
    pub(crate) hang_ups: u64,
}

/// A worker, as others see it.
#[derive(Drop)]
pub(crate) struct WorkerLink {
    registry: Registry,
    waker: Waker,
    has_begun: AtomicBool,
    // How many streams of the channel the worker is to take.
    offered: AtomicU64,
    // How many streams it has.
    open: AtomicU64,
    polls: AtomicU64,
    hang_ups: AtomicU64,
}

impl WorkerLink {
    /// The link to a worker that has not begun.
    fn to_poll(poll: &Poll) -> io::Result<WorkerLink> {
        let registry = poll.registry().try_clone()?;
        let waker = Waker::new(&registry, Token(WAKE))?;
        Ok(WorkerLink {
            registry,
            waker,
            has_begun: AtomicBool::new(false),
            offered: AtomicU64::new(0),
            open: AtomicU64::new(0),
            polls: AtomicU64::new(0),
            hang_ups: AtomicU64::new(0),
        })
    }

    /// Wakes the worker, or lets its next wait return at once.
    fn wake(&self) {
        // It fails only if the descriptor isn't the waker's.
        let _ = self.waker.wake();
    }

    /// The worker takes streams from now on.
    pub(crate) fn begin(&self) {
        self.has_begun.store(true, Ordering::SeqCst);
    }

    fn has_begun(&self) -> bool {
        self.has_begun.load(Ordering::SeqCst)
    }

    /// Lets the worker take one more stream of the channel.
    pub(crate) fn offer(&self) {
        self.offered.fetch_add(1, Ordering::SeqCst);
        self.wake();
    }

    /// Whether the worker is to take a stream of the channel.
    pub(crate) fn has_offers(&self) -> bool {
        self.offered.load(Ordering::SeqCst) > 0
    }

    /// The worker has taken a stream. Only the worker calls this.
    pub(crate) fn take_stream(&self) {
        self.open.fetch_add(1, Ordering::SeqCst);
        if self.has_offers() {
            self.offered.fetch_sub(1, Ordering::SeqCst);
        }
    }

    /// The worker has closed a stream that it took.
    pub(crate) fn close_stream(&self) {
        self.open.fetch_sub(1, Ordering::SeqCst);
    }

    /// How many streams the worker has, or is to take.
    fn streams(&self) -> u64 {
        let offered = self.offered.load(Ordering::SeqCst);
        offered.saturating_add(self.open.load(Ordering::SeqCst))
    }

    /// The worker has polled. A peer may send no more.
    pub(crate) fn note_poll(&self, has_hung_up: bool) {
        self.polls.fetch_add(1, Ordering::SeqCst);
        if has_hung_up {
            self.hang_ups.fetch_add(1, Ordering::SeqCst);
        }
    }

    fn poll_count(&self) -> PollCount {
        PollCount {
            polls: self.polls.load(Ordering::SeqCst),
            hang_ups: self.hang_ups.load(Ordering::SeqCst),
        }
    }

    /// Has the poller report a descriptor under a key.
    fn watch(&self, fd: RawFd, key: usize) -> io::Result<()> {
        let mut source = SourceFd(&fd);
        self.registry
            .register(&mut source, Token(key), Interest::READABLE)
    }

    /// Changes for what the poller reports a descriptor.
    fn watch_again(&self, fd: RawFd, key: usize, writes: bool) -> io::Result<()> {
        let interest = if writes {
            Interest::READABLE | Interest::WRITABLE
        } else {
            Interest::READABLE
        };
        let mut source = SourceFd(&fd);
        self.registry.reregister(&mut source, Token(key), interest)
    }
}

/// The links to all workers of a server.
#[derive(Drop)]
pub(crate) struct WorkerLinks {
    links: Vec<WorkerLink>,
    /// After how many seconds an idle client is disconnected; never without a number.
    idle_timeout: Option<u64>,
    began: Instant,
    // The seconds since then, as a worker last noted them.
    seconds: AtomicU64,
    all_sent: AtomicBool,
    have_ended: AtomicBool,
    // All sessions are to end.
    are_ending: AtomicBool,
}

impl WorkerLinks {
    /// A link to each of these pollers' workers.
    pub(crate) fn to_polls(
        rt: &HostRuntime,
        polls: &[Poll],
        idle_timeout: Option<u64>,
    ) -> io::Result<WorkerLinks> {
        let mut links = Vec::new(rt.alloc());
        for poll in polls {
            links.push(WorkerLink::to_poll(poll)?)?;
        }
        Ok(WorkerLinks {
            links,
            idle_timeout,
            began: Instant::now(rt)?,
            seconds: AtomicU64::new(0),
            all_sent: AtomicBool::new(false),
            have_ended: AtomicBool::new(false),
            are_ending: AtomicBool::new(false),
        })
    }

    /// The number of workers.
    pub(crate) fn len(&self) -> usize {
        self.links.len()
    }

    /// The link to a worker.
    pub(crate) fn get(&self, worker: usize) -> Option<&WorkerLink> {
        self.links.as_slice().get(worker)
    }

    /// The number of workers that have begun.
    pub(crate) fn begun(&self) -> u64 {
        self.links.iter().filter(|link| link.has_begun()).count() as u64
    }

    /// Whether idle clients are disconnected.
    pub(crate) fn has_idle_timeout(&self) -> bool {
        self.idle_timeout.is_some()
    }

    /// Notes the time, and returns it in seconds.
    pub(crate) fn note_time(&self, rt: &HostRuntime) -> u64 {
        if let Ok(now) = Instant::now(rt) {
            let seconds = now.saturating_duration_since(self.began).as_secs();
            self.seconds.store(seconds, Ordering::SeqCst);
        }
        self.seconds()
    }

    /// The time that was last noted, in seconds.
    pub(crate) fn seconds(&self) -> u64 {
        self.seconds.load(Ordering::SeqCst)
    }

    /// Whether a client that was last active at this time has been idle for too long.
    pub(crate) fn is_idle_since(&self, active_at: u64) -> bool {
        match self.idle_timeout {
            Some(seconds) => self.seconds().saturating_sub(active_at) > seconds,
            None => false,
        }
    }

    /// No more streams will be sent. Each worker takes what is left.
    pub(crate) fn close(&self) {
        self.all_sent.store(true, Ordering::SeqCst);
        for link in self.links.iter() {
            link.wake();
        }
    }

    /// Whether no more streams will be sent.
    pub(crate) fn are_all_sent(&self) -> bool {
        self.all_sent.load(Ordering::SeqCst)
    }

    /// No worker takes a stream any more.
    pub(crate) fn end(&self) {
        self.have_ended.store(true, Ordering::SeqCst);
    }

    /// Whether no worker takes a stream any more.
    pub(crate) fn have_ended(&self) -> bool {
        self.have_ended.load(Ordering::SeqCst)
    }

    /// All sessions are to end. The workers learn it when `close` wakes them.
    pub(crate) fn end_sessions(&self) {
        self.are_ending.store(true, Ordering::SeqCst);
    }

    /// Whether all sessions are to end.
    pub(crate) fn are_ending(&self) -> bool {
        self.are_ending.load(Ordering::SeqCst)
    }

    /// Of the workers that have begun, the first one with the fewest streams.
    pub(crate) fn least_busy(&self) -> Option<&WorkerLink> {
        let mut found = None;
        let mut fewest = u64::MAX;
        for link in self.links.iter() {
            let streams = link.streams();
            if link.has_begun() && streams < fewest {
                found = Some(link);
                fewest = streams;
            }
        }
        found
    }

    /// How often a worker has polled.
    pub(crate) fn poll_count(&self, worker: usize) -> PollCount {
        match self.get(worker) {
            Some(link) => link.poll_count(),
            None => PollCount {
                polls: 0,
                hang_ups: 0,
            },
        }
    }

    /// Has a worker's poller report a descriptor that can be read, under a key.
    pub(crate) fn watch(&self, worker: usize, fd: RawFd, key: usize) -> io::Result<()> {
        match self.get(worker) {
            Some(link) => link.watch(fd, key),
            None => Err(ErrorKind::NotFound.into()),
        }
    }

    /// Has a worker's poller report a descriptor that can be read, or written if `writes`. What is
    /// ready now is reported again.
    pub(crate) fn watch_again(
        &self,
        worker: usize,
        fd: RawFd,
        key: usize,
        writes: bool,
    ) -> io::Result<()> {
        match self.get(worker) {
            Some(link) => link.watch_again(fd, key, writes),
            None => Err(ErrorKind::NotFound.into()),
        }
    }
}
