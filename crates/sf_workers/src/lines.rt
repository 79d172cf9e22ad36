//! Serves the streams of a channel on one core, by many workers.

ghost use Rattle.std.specs.Prelude.{◌≡◌, ◌<◌, ◌+◌, ◌*◌, ◌^◌, [], length, vec_len, All, IfOk};
ghost use Rattle.sf_core.specs.Histories.{IsHistory};
ghost use Rattle.sf_noted.specs.Visits.{visit_calls};
ghost use Rattle.sf_workers.specs.Sessions.{HasTranscripts, IsLinearization};
ghost use Rattle.sf_workers.specs.Streams.{HasServed, ServesEach};

use crate::open_session::Place;
use crate::sessions::Sessions;
use crate::streams::Poller;
use crate::tickets::{Receipts, Sent};
use crate::workers::{Served, Tools, Worked, new_workers, work_all};
use crossbeam_channel::Receiver;
use sf_audit::Transcript;
use sf_call::Record;
use sf_connection::Stream;
use sf_core::Core;
use sf_noted::{NotedCore, Page, Visit};
use sf_pool::{StepObserver, WaitQueue};
use sf_roll::{Log, NewRoll, RollName};
use sf_session::Clock;
use std::alloc::{AllocError, Global};
use std::marker::Brand;
use std::snapshot::Snapshot;
use std::sync::ledger::{Blank, Ledger, Share};
use std::sync::{Mutex, Wait};
use std::thread::Threads;

/// What remains when all sessions have ended.
#[derive(Drop)]
pub struct Outcome<B: RollName + Ledger, S: Ledger> {
    pub core: Core,
    /// The tickets of the streams that the workers received.
    pub receipts: Receipts<S>,
    /// The sessions in proofs: worker by worker, and for each worker in the order of service.
    pub sessions: Snapshot<Vec<Visit<B>>>,
    /// The number of these sessions.
    pub served: u64,
    /// The transcripts of these sessions, if they were kept.
    pub transcripts: Vec<Transcript>,
    /// The whole count of the core's calls.
    pub share: Share<B>,
    /// The core's history in proofs. The prefix of each token is a prefix of it (`Log::show`).
    pub log: Log<Record, B>,
}

/// The sessions of all workers, the count of their calls, and the tickets of their streams.
#[derive(Drop)]
struct AllServed<B: RollName + Ledger, S: Ledger> {
    sessions: Sessions<B>,
    share: Share<B>,
    receipts: Receipts<S>,
    ghost counted: { share.amount ≡ visit_calls sessions.visits.items },
}

/// Merges the sessions, shares and tickets of all workers, and the rest of the share.
fn together<B: RollName + Ledger, S: Ledger>(
    alloc: Global,
    all: Vec<Worked<B, S>>,
    rest: (Share<B>, Receipts<S>),
    keeps: bool,
) -> Result<AllServed<B, S>, AllocError>
    requires keeps { All (λ w. w.served.sessions.keeps ≡ keeps) all.items }
    requires each { All (λ w. ServesEach w.receipts w.served.sessions.visits.items) all.items }
    requires none { (rest.0.amount ≡ 0) × (rest.1 ≡ 0) }
    ensures parts { IfOk result (λ t. t.share.parts ≡ rest.0.parts + 257 * vec_len all) }
    ensures keeps { IfOk result (λ t. t.sessions.keeps ≡ keeps) }
    ensures each { IfOk result (λ t. ServesEach t.receipts t.sessions.visits.items) }
{
    let mut sessions = Sessions::none(alloc, keeps);
    let (mut all_shares, mut all_receipts) = rest;
    for worked in all {
        let Worked { served, receipts } = worked;
        let Served {
            sessions: more,
            share,
            seen: _seen,
        } = served;
        sessions = sessions.with(more)?;
        all_shares.merge(share);
        all_receipts.merge(receipts);
    }
    Ok(AllServed {
        sessions,
        share: all_shares,
        receipts: all_receipts,
    })
}

/// Closes the core. Its history is a linearization of the sessions' calls.
fn conclude<B: RollName + Ledger, S: Ledger>(
    alloc: Global,
    core: NotedCore<B>,
    all: AllServed<B, S>,
) -> Result<Outcome<B, S>, AllocError>
    requires parts { all.share.parts ≡ B.parts }
    requires each { ServesEach all.receipts all.sessions.visits.items }
    ensures history { IfOk result (λ o. IsHistory o.core o.log) }
    ensures order { IfOk result (λ o. IsLinearization o.log o.sessions.value.items) }
    ensures kept { IfOk result (λ o. HasTranscripts all.sessions.keeps o.sessions.value.items
        o.transcripts.items) }
    ensures each { IfOk result (λ o. ServesEach o.receipts o.sessions.value.items) }
    ensures served { IfOk result (λ o. o.served ≡ length o.sessions.value.items) }
    ensures calls { IfOk result (λ o. o.share.amount ≡ o.core.drawn) }
    ensures parts { IfOk result (λ o. o.share.parts ≡ all.share.parts) }
{
    let AllServed {
        sessions,
        mut share,
        receipts,
    } = all;
    let Sessions {
        visits,
        transcripts,
        keeps: _,
    } = sessions;
    let served = visits.len() as u64;
    let sessions = Snapshot::of(&visits);
    let (core, log) = core.close(alloc, visits, &mut share)?;
    Ok(Outcome {
        core,
        receipts,
        sessions,
        served,
        transcripts,
        share,
        log,
    })
}

/// Serves one session over each stream of the channel, until the channel is closed and empty. Then
/// the core's history is a linearization of the sessions' calls.
///
/// Each clock and poller are for one worker: a thread that serves up to 256 streams at a time. If
/// not all threads start, the caller's thread also works. Transcripts are kept only with `keep`.
/// Without it memory doesn't grow with the number of served sessions.
pub fn serve_lines<
    B: RollName + Ledger + Send + Sync,
    S: Ledger + Send + Sync,
    R: Threads + Wait + Sync,
    L: Stream + Drop + Send,
    C: Clock + Drop + Send,
    P: Poller<L> + Drop + Send,
    G: StepObserver + Sync,
>(
    rt: &R,
    alloc: Global,
    core: NotedCore<B>,
    all: Share<B>,
    receipts: Receipts<S>,
    streams: &Receiver<Sent<L, S>>,
    tools: Vec<Tools<C, P>>,
    observer: &G,
    keep: bool,
) -> Result<Outcome<B, S>, AllocError>
    requires all { all.parts ≡ B.parts }
    requires parts { all.parts ≡ 257 * vec_len tools }
    requires none { (all.amount ≡ 0) × (receipts ≡ 0) }
    ensures history { IfOk result (λ o. IsHistory o.core o.log) }
    ensures order { IfOk result (λ o. IsLinearization o.log o.sessions.value.items) }
    ensures kept { IfOk result (λ o. HasTranscripts keep o.sessions.value.items
        o.transcripts.items) }
    ensures each { IfOk result (λ o. ServesEach o.receipts o.sessions.value.items) }
    ensures served { IfOk result (λ o. o.served ≡ length o.sessions.value.items) }
    ensures calls { IfOk result (λ o. o.share.amount ≡ o.core.drawn) }
    ensures parts { IfOk result (λ o. o.share.parts ≡ all.parts) }
{
    let mut rest = all;
    let mut core = core;
    let mut receipts = receipts;
    let workers = new_workers(alloc, tools, &mut rest, &mut core, &mut receipts)?;
    let wait_queue = WaitQueue::new();
    let core = Mutex::new(core);
    let place = Place {
        rt,
        alloc,
        core: &core,
        wait_queue: &wait_queue,
        observer,
    };
    let all = work_all(&place, streams, workers, keep)?;
    let all = together(alloc, all, (rest, receipts), keep)?;
    conclude(alloc, core.into_inner(), all)
}

/// A core after all sessions have ended, and their transcripts, if they were kept.
#[derive(Drop)]
pub struct Ended {
    pub core: Core,
    /// The number of sessions.
    pub sessions: u64,
    pub transcripts: Vec<Transcript>,
}

/// As `serve_lines`, on a core that no session has joined, with tokens that get their name here.
fn serve_named<
    B: RollName + Ledger + Send + Sync,
    S: Ledger + Send + Sync,
    R: Threads + Wait + Sync,
    L: Stream + Drop + Send,
    C: Clock + Drop + Send,
    P: Poller<L> + Drop + Send,
    G: StepObserver + Sync,
>(
    rt: &R,
    alloc: Global,
    core: Core,
    tokens: (NewRoll<Page, Record>, Blank),
    receipts: Receipts<S>,
    streams: &Receiver<Sent<L, S>>,
    tools: Vec<Tools<C, P>>,
    observer: &G,
    keep: bool,
) -> Result<(Ended, Receipts<S>), AllocError>
    requires new { IsHistory core [] }
    requires none { (core.joins ≡ 0) × (core.drawn ≡ 0) }
    requires roll { tokens.0 ≡ B.table }
    requires name { tokens.1.name ≡ B.name }
    requires parts { (tokens.1.parts ≡ B.parts) × (tokens.1.parts ≡ 257 * vec_len tools) }
    requires no_streams { receipts ≡ 0 }
    ensures { IfOk result (λ r. HasServed keep r.1 r.0) }
{
    let (roll, blank) = tokens;
    let (calls, all) = blank.open::<B>();
    let core = NotedCore::open(core, roll, calls);
    let outcome = serve_lines(
        rt, alloc, core, all, receipts, streams, tools, observer, keep,
    )?;
    let Outcome {
        core,
        receipts,
        sessions: _sessions,
        served,
        transcripts,
        share: _share,
        log: _log,
    } = outcome;
    let ended = Ended {
        core,
        sessions: served,
        transcripts,
    };
    Ok((ended, receipts))
}

/// As `serve_lines`, on a core that no session has joined.
pub fn serve_on_core<
    S: Ledger + Send + Sync,
    R: Threads + Wait + Sync,
    L: Stream + Drop + Send,
    C: Clock + Drop + Send,
    P: Poller<L> + Drop + Send,
    G: StepObserver + Sync,
>(
    rt: &R,
    alloc: Global,
    core: Core,
    receipts: Receipts<S>,
    streams: &Receiver<Sent<L, S>>,
    tools: Vec<Tools<C, P>>,
    observer: &G,
    keep: bool,
) -> Result<(Ended, Receipts<S>), AllocError>
    requires new { IsHistory core [] }
    requires none { (core.joins ≡ 0) × (core.drawn ≡ 0) × (receipts ≡ 0) }
    requires few { vec_len tools < 2 ^ 32 }
    ensures { IfOk result (λ r. HasServed keep r.1 r.0) }
{
    let roll = NewRoll::new(alloc)?;
    let blank = Blank::new(257 * tools.len() as u64);
    serve_named::<Brand, S, R, L, C, P, G>(
        rt,
        alloc,
        core,
        (roll, blank),
        receipts,
        streams,
        tools,
        observer,
        keep,
    )
}
