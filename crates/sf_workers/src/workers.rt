//! Worker threads, which receive streams and serve many sessions each.

ghost use Rattle.std.specs.Prelude.{◌≡◌, ◌*◌, [], vec_len, All, IfOk};
ghost use Rattle.slab.specs.Slab.{values};
ghost use Rattle.sf_noted.specs.Visits.{visit_calls};
ghost use Rattle.sf_workers.specs.Streams.{ServesSource, ServesEach};

use crate::connections::Connections;
use crate::open_session::Place;
use crate::ready::ReadyKeys;
use crate::sessions::Sessions;
use crate::streams::{ChannelStreams, Poller, StreamSource};
use crate::tickets::{Receipts, Sent};
use crossbeam_channel::Receiver;
use sf_call::Record;
use sf_connection::{Stream, new_piece};
use sf_noted::NotedCore;
use sf_pool::StepObserver;
use sf_roll::{RollName, Seen};
use sf_session::Clock;
use std::alloc::{AllocError, Global};
use std::sync::Wait;
use std::sync::ledger::{Ledger, Share};
use std::thread;
use std::thread::Threads;

/// What a worker begins with: a clock, a read buffer, a queue for the keys of its connections, a
/// share of the count for its sessions, and a token for a prefix of the history.
#[derive(Drop)]
pub(crate) struct Job<B: RollName + Ledger, C> {
    clock: C,
    piece: Vec<u8>,
    ready: ReadyKeys,
    share: Share<B>,
    seen: Seen<Record, B>,
    ghost room: { vec_len piece ≡ 65536 },
    ghost parts: { share.parts ≡ 257 },
    ghost none_yet: { share.amount ≡ 0 },
}

fn new_job<B: RollName + Ledger, C: Drop>(
    alloc: Global,
    clock: C,
    share: Share<B>,
    seen: Seen<Record, B>,
) -> Result<Job<B, C>, AllocError>
    requires parts { share.parts ≡ 257 }
    requires none_yet { share.amount ≡ 0 }
{
    let piece = new_piece(alloc)?;
    let ready = ReadyKeys::none(alloc)?;
    Ok(Job {
        clock,
        piece,
        ready,
        share,
        seen,
    })
}

/// A clock and a poller for a worker.
#[derive(Drop)]
pub struct Tools<C, P> {
    pub clock: C,
    pub poller: P,
}

/// A worker that has received no stream yet.
#[derive(Drop)]
pub(crate) struct Worker<B: RollName + Ledger, S: Ledger, C, P> {
    job: Job<B, C>,
    poller: P,
    receipts: Receipts<S>,
    ghost no_streams: { receipts ≡ 0 },
}

fn worker_of<B: RollName + Ledger, S: Ledger, C, P>(
    job: Job<B, C>,
    poller: P,
    receipts: Receipts<S>,
) -> Worker<B, S, C, P>
    requires { receipts ≡ 0 }
{
    Worker {
        job,
        poller,
        receipts,
    }
}

/// A worker for each clock.
pub(crate) fn new_workers<B: RollName + Ledger, S: Ledger, C: Drop, P: Drop>(
    alloc: Global,
    tools: Vec<Tools<C, P>>,
    all: &mut Share<B>,
    core: &mut NotedCore<B>,
    receipts: &mut Receipts<S>,
) -> Result<Vec<Worker<B, S, C, P>>, AllocError>
    requires parts { all.old.parts ≡ 257 * vec_len tools }
    requires none { all.old.amount ≡ 0 }
    ensures workers { IfOk result (λ workers. vec_len workers ≡ vec_len tools) }
    ensures rest { IfOk result (λ _. (all.new.parts ≡ 0) × (all.new.amount ≡ 0)) }
    ensures receipts { IfOk result (λ _. receipts.new ≡ receipts.old) }
{
    let mut tools = tools;
    let mut workers = Vec::new(alloc);
    while let Some(own) = tools.pop() {
        let Tools { clock, poller } = own;
        let share = all.split_off(257, 0);
        let job = new_job(alloc, clock, share, core.token())?;
        workers.push(worker_of(job, poller, receipts.no_more()))?;
    }
    Ok(workers)
}

/// The sessions of one worker, with the count of their calls and the worker's token.
#[derive(Drop)]
pub(crate) struct Served<B: RollName + Ledger> {
    pub(crate) sessions: Sessions<B>,
    pub(crate) share: Share<B>,
    pub(crate) seen: Seen<Record, B>,
    ghost parts: { share.parts ≡ 257 },
    ghost counted: { share.amount ≡ visit_calls sessions.visits.items },
}

/// The sessions of one worker, and the tickets of the streams that it received.
#[derive(Drop)]
pub(crate) struct Worked<B: RollName + Ledger, S: Ledger> {
    pub(crate) served: Served<B>,
    pub(crate) receipts: Receipts<S>,
}

/// What a worker has served once no connection is open.
fn served_by<R: Wait, B: RollName + Ledger, G: StepObserver, L: Stream + Drop>(
    connections: Connections<'_, R, B, G, L>,
) -> Served<B>
    requires { values connections.active ≡ [] }
    ensures { result.sessions ≡ connections.entry.sessions }
{
    let (sessions, share, seen) = connections.into_parts();
    Served {
        sessions,
        share,
        seen,
    }
}

/// Serves one session over each stream that the source has, many at once. In turn it handles what
/// the source reports, and advances the connection that became ready first.
fn work<
    B: RollName + Ledger,
    R: Wait,
    L: Stream + Drop,
    S: StreamSource<L>,
    C: Clock + Drop,
    G: StepObserver,
>(place: &Place<'_, R, B, G>, source: &mut S, job: Job<B, C>, keeps: bool) -> Served<B>
    ensures keeps { result.sessions.keeps ≡ keeps }
    ensures streams { ServesSource L.view (S.view source.old) (S.view source.new) [] [] []
        result.sessions.visits.items }
    ensures closed { S.closed source.new }
{
    let Job {
        mut clock,
        mut piece,
        mut ready,
        share,
        seen,
    } = job;
    let mut connections = Connections::none(place.alloc, keeps, share, seen);
    for _ in place.rt.forever() {
        if source.is_closed() && connections.are_closed() {
            return served_by(connections);
        }
        let waits = ready.is_empty();
        connections.handle_next(place, source, &mut ready, waits);
        if let Some(key) = ready.take() {
            connections.advance(source, &mut ready, key, &mut clock, &mut piece);
        }
    }
    unreachable!()
}

/// Serves one session over each stream of the channel, until it is closed and empty.
fn work_on_channel<
    B: RollName + Ledger,
    S: Ledger,
    R: Wait,
    L: Stream + Drop,
    C: Clock + Drop,
    P: Poller<L> + Drop,
    G: StepObserver,
>(
    place: &Place<'_, R, B, G>,
    channel: &Receiver<Sent<L, S>>,
    worker: Worker<B, S, C, P>,
    keeps: bool,
) -> Worked<B, S>
    ensures keeps { result.served.sessions.keeps ≡ keeps }
    ensures each { ServesEach result.receipts result.served.sessions.visits.items }
{
    let Worker {
        job,
        poller,
        receipts,
    } = worker;
    let mut source = ChannelStreams::new(place.rt, channel, poller, receipts);
    let served = work(place, &mut source, job, keeps);
    Worked {
        served,
        receipts: source.into_receipts(),
    }
}

/// Runs all workers, each in a thread if one can be started, until the channel is closed and empty.
pub(crate) fn work_all<
    B: RollName + Ledger + Send + Sync,
    S: Ledger + Send + Sync,
    R: Threads + Wait + Sync,
    L: Stream + Drop + Send,
    C: Clock + Drop + Send,
    P: Poller<L> + Drop + Send,
    G: StepObserver + Sync,
>(
    place: &Place<'_, R, B, G>,
    channel: &Receiver<Sent<L, S>>,
    workers: Vec<Worker<B, S, C, P>>,
    keeps: bool,
) -> Result<Vec<Worked<B, S>>, AllocError>
    ensures workers { IfOk result (λ all. vec_len all ≡ vec_len workers) }
    ensures keeps { IfOk result (λ all. All (λ w. w.served.sessions.keeps ≡ keeps) all.items) }
    ensures each { IfOk result (λ all. All
        (λ w. ServesEach w.receipts w.served.sessions.visits.items) all.items) }
{
    thread::map_vec(
        place.rt,
        workers,
        &move |worker: Worker<B, S, C, P>| -> Worked<B, S>
            ensures keeps { result.served.sessions.keeps ≡ keeps }
            ensures each { ServesEach result.receipts result.served.sessions.visits.items }
        { work_on_channel(place, channel, worker, keeps) },
    )
}
