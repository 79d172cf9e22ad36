//! The command `sftpd serve`.

ghost use Rattle.std.specs.Prelude.{◌≡◌, ◌<◌, ◌≤◌, ◌-◌, ◌^◌, [], true, is_some, vec_len, IfOk, OnOk};
ghost use Rattle.sf_core.specs.Histories.{IsHistory};
ghost use Rattle.sf_workers.specs.Streams.{HasServed};
ghost use Rattle.sf_server.specs.Totals.{loads_of, AreAllStreams, HasServedAll, HasServedToEnd};

use crate::accepting::{Stopped, Taker, accept_all};
use crate::listening::{Connections, listen, pause};
use crate::loading::load_by_stream;
use crate::poller::SocketPoller;
use crate::refusals::{ClientObserver, Refusals};
use crate::socket_stream::SocketStream;
use crate::totals::tell;
use crate::worker_link::{WorkerLink, WorkerLinks};
use crossbeam_channel::{Receiver, Sender, bounded};
use mio::Poll;
use sf_clock::SystemClock;
use sf_core::Core;
use sf_pool::StepObserver;
use sf_program::loading::NotLoaded;
use sf_program::reporting::report;
use sf_words::Serving;
use sf_workers::{Ended, Receipts, Sent, Tickets, Tools, serve_on_core};
use std::alloc::{AllocError, Global};
use std::io::{self, Write};
use std::marker::Brand;
use std::os::unix::net::UnixStream;
use std::sync::Wait;
use std::sync::ledger::{Blank, Ledger};
use std::thread::{self, Threads};

/// Why a server ends early.
#[derive(Clone, Copy, Debug, PartialEq, Eq)]
pub enum ServerFault {
    /// It can't listen, or can't load the folder. The reason was reported on standard error.
    Reported,
    OutOfMemory,
    /// The totals can't be written.
    Stream,
    /// Not every accepted connection was served. A worker receives until the channel is closed and
    /// empty, so this would be a fault of the channel.
    Unserved,
    /// Transcripts and history disagree. It is proved that they agree, so this would be a fault of
    /// the compiler.
    Audit,
}

impl From<AllocError> for ServerFault {
    fn from(_error: AllocError) -> ServerFault {
        ServerFault::OutOfMemory
    }
}

impl From<NotLoaded> for ServerFault {
    fn from(_fault: NotLoaded) -> ServerFault {
        ServerFault::Reported
    }
}

impl ServerFault {
    /// The message of a fault that was not reported.
    pub fn line(self) -> Option<&'static str> {
        match self {
            ServerFault::Reported => None,
            ServerFault::OutOfMemory => Some("sftpd: out of memory"),
            ServerFault::Stream => Some("sftpd: stream: standard output can't be written"),
            ServerFault::Unserved => Some("sftpd: a connection was not served"),
            ServerFault::Audit => Some("sftpd: audit failed"),
        }
    }
}

/// How many accepted connections wait for the workers at most. Further ones wait in the system's
/// queue.
const WAITING: usize = 256;

/// The workers, which receive streams from a channel.
#[derive(Drop)]
struct Workers<'a, T, S: Ledger> {
    rt: &'a HostRuntime,
    threads: &'a T,
    links: &'a WorkerLinks,
    streams: Sender<Sent<SocketStream<'a>, S>>,
    tickets: Tickets<S>,
}

impl<'a, T: Wait, S: Ledger> Workers<'a, T, S> {
    /// A worker that has begun, with the fewest streams. Waits until one has begun, unless all have
    /// ended.
    fn next_worker(&self) -> Option<&'a WorkerLink> {
        for _ in self.threads.forever() {
            let found = self.links.least_busy();
            if found.is_some() || self.links.have_ended() {
                return found;
            }
            pause(self.rt);
        }
        unreachable!()
    }

    /// Closes the channel, so that each worker ends once its streams are served. Returns the
    /// tickets that are left.
    fn close(self) -> Tickets<S> {
        let Workers {
            rt: _,
            threads: _,
            links,
            streams,
            tickets,
        } = self;
        drop(streams);
        links.close();
        tickets
    }
}

impl<T: Wait, S: Ledger> Taker<UnixStream> for Workers<'_, T, S> {
    ghost use Rattle.std.specs.Prelude.{None};

    // A contract can't say which connections pass through a channel. Their tickets show how many.
    ghost taken = { λ _. None };

    fn take(&mut self, socket: UnixStream) -> bool {
        let Some(worker) = self.next_worker() else {
            return false;
        };
        let stream = SocketStream::new(socket, self.links);
        let is_sent = self.tickets.send(self.threads, &self.streams, stream);
        if is_sent {
            worker.offer();
        }
        is_sent
    }
}

/// How often a server looks whether its workers have begun: for about a second.
const LOOKS: u32 = 100;

/// Reports that there are fewer workers than requested.
fn report_fewer_workers(rt: &HostRuntime, links: &WorkerLinks) {
    let wanted = links.len() as u64;
    let mut begun = wanted;
    for _ in 0..LOOKS {
        begun = links.begun();
        if begun >= wanted {
            return;
        }
        pause(rt);
    }
    let _ = writeln!(
        rt.stderr(),
        "sftpd: only {begun} of {wanted} workers: no more threads"
    );
}

/// Listens, prints the socket's path on standard error, and accepts until `serving.sessions` were
/// accepted, all workers have ended, or standard input has ended. Removes the socket's file at the
/// end.
fn listen_and_accept<T: Wait, S: Ledger>(
    rt: &HostRuntime,
    threads: &T,
    workers: &mut Workers<'_, T, S>,
    serving: Serving<'_>,
) -> Result<(), ServerFault> {
    let path = serving.socket;
    let bound = match listen(rt, path) {
        Ok(bound) => bound,
        Err(error) => {
            report(rt, "cannot listen", path, &error);
            return Err(ServerFault::Reported);
        }
    };
    let _ = writeln!(rt.stderr(), "sftpd: listening at {path}");
    report_fewer_workers(rt, workers.links);
    let mut connections = Connections::new(rt, &bound.listener, path, serving.until_eof);
    let most = serving.sessions.unwrap_or(u64::MAX);
    let stopped = accept_all(threads, &mut connections, workers, most);
    bound.remove_file(rt, path);
    if stopped == Stopped::Closed {
        workers.links.end_sessions();
    }
    Ok(())
}

/// Loads the folder, if there is one, and then accepts connections.
fn load_and_accept<T: Wait, S: Ledger>(
    rt: &HostRuntime,
    threads: &T,
    serving: Serving<'_>,
    workers: &mut Workers<'_, T, S>,
) -> Result<(), ServerFault> {
    if let Some(tree) = serving.tree {
        load_by_stream(rt, tree, serving.tree_strict, workers)?;
    }
    listen_and_accept(rt, threads, workers, serving)
}

/// Sends the workers all streams, and then lets them end. Returns the tickets that are left.
fn send_all<T: Wait, S: Ledger>(
    serving: Serving<'_>,
    workers: Workers<'_, T, S>,
) -> Result<Tickets<S>, ServerFault> {
    let mut workers = workers;
    let sent = load_and_accept(workers.rt, workers.threads, serving, &mut workers);
    let tickets = workers.close();
    sent?;
    Ok(tickets)
}

/// Further processors get no workers by default, since the file system has one lock.
const MOST_PROCESSORS: usize = 4;

/// The number of workers: as requested, or two for each processor, up to eight.
fn worker_count<T: Threads>(threads: &T, serving: Serving<'_>) -> u32 {
    match serving.workers {
        Some(workers) => workers,
        None => match thread::available_parallelism(threads) {
            Ok(processors) => processors.get().min(MOST_PROCESSORS) as u32 * 2,
            Err(_) => 1,
        },
    }
}

/// `count` pollers.
fn new_polls(rt: &HostRuntime, count: u32) -> io::Result<Vec<Poll>>
    ensures { IfOk result (λ polls. vec_len polls ≡ count) }
{
    let mut polls = Vec::new(rt.alloc());
    for _ in 0..count {
        polls.push(Poll::new(rt)?)?;
    }
    Ok(polls)
}

/// `count` pollers, and the links to their workers.
fn polls_and_links(
    rt: &HostRuntime,
    count: u32,
    idle_timeout: Option<u64>,
) -> io::Result<(Vec<Poll>, WorkerLinks)>
    ensures { IfOk result (λ r. vec_len r.0 ≡ count) }
{
    let polls = new_polls(rt, count)?;
    let links = WorkerLinks::to_polls(rt, polls.as_slice(), idle_timeout)?;
    Ok((polls, links))
}

/// A poller for each of `count` workers, and the links to these. A fault was reported.
fn new_workers(
    rt: &HostRuntime,
    count: u32,
    serving: Serving<'_>,
) -> Result<(Vec<Poll>, WorkerLinks), ServerFault>
    ensures { IfOk result (λ r. vec_len r.0 ≡ count) }
{
    match polls_and_links(rt, count, serving.idle_timeout) {
        Ok(both) => Ok(both),
        Err(error) => {
            report(rt, "cannot poll", serving.socket, &error);
            Err(ServerFault::Reported)
        }
    }
}

/// A clock and a poller for a worker of a server.
type ServerTools<'a, T, G> = Tools<SystemClock<'a, HostRuntime>, SocketPoller<'a, T, G>>;

/// A clock and a poller for each worker.
fn new_tools<'a, T: Wait, G: ClientObserver>(
    rt: &'a HostRuntime,
    path: &'a str,
    links: &'a WorkerLinks,
    refusals: &'a Refusals<'a, T, G>,
    polls: Vec<Poll>,
) -> Result<Vec<ServerTools<'a, T, G>>, AllocError>
    ensures { IfOk result (λ tools. vec_len tools ≤ vec_len polls) }
{
    let mut polls = polls;
    let mut tools = Vec::new(rt.alloc());
    while let Some(poll) = polls.pop() {
        let worker = polls.len();
        let Some(link) = links.get(worker) else {
            break;
        };
        let poller = SocketPoller::new(rt, path, links, link, worker, refusals, poll)?;
        let clock = SystemClock::new(rt);
        tools.push(Tools { clock, poller })?;
    }
    Ok(tools)
}

/// What the workers of a server begin with: a channel from which they receive streams, and a clock
/// and a poller for each one. No stream was received.
#[derive(Drop)]
struct Receiving<'a, T, S: Ledger, G> {
    alloc: Global,
    receipts: Receipts<S>,
    streams: Receiver<Sent<SocketStream<'a>, S>>,
    tools: Vec<ServerTools<'a, T, G>>,
    ghost none: { receipts ≡ 0 },
    ghost few: { vec_len tools < 2 ^ 32 },
}

/// The number of streams that load a folder.
fn loads(serving: Serving<'_>) -> u64
    ensures { result ≡ loads_of serving.entry.tree }
{
    match serving.tree {
        Some(_) => 1,
        None => 0,
    }
}

/// Whether each stream that was sent was received, and they are as many as requested.
fn are_all<S: Ledger>(tickets: Tickets<S>, receipts: Receipts<S>, serving: Serving<'_>) -> bool
    requires { S.parts ≡ 2 ^ 64 - 1 }
    ensures { result ≡ true → AreAllStreams serving.entry.sessions (loads_of serving.entry.tree)
        receipts }
{
    let Some(sessions) = serving.sessions else {
        return true;
    };
    match sessions.checked_add(loads(serving)) {
        Some(streams) => tickets.are_back(receipts, streams),
        None => false,
    }
}

/// Serves the streams of the channel until it is closed. Drops the receiver then.
fn serve_to_end<
    S: Ledger + Send + Sync,
    T: Threads + Wait + Sync,
    G: StepObserver + ClientObserver + Sync,
>(
    threads: &T,
    core: Core,
    channel: Receiving<'_, T, S, G>,
    observer: &G,
    keeps: bool,
) -> Result<(Ended, Receipts<S>), ServerFault>
    requires new { IsHistory core [] }
    requires none { (core.joins ≡ 0) × (core.drawn ≡ 0) }
    ensures { IfOk result (λ r. HasServed keeps r.1 r.0) }
{
    let Receiving {
        alloc,
        receipts,
        streams,
        tools,
    } = channel;
    Ok(serve_on_core(
        threads, alloc, core, receipts, &streams, tools, observer, keeps,
    )?)
}

/// Accepts connections in another thread, and runs the workers in this one. Transcripts are kept if
/// the number of sessions is given.
fn accept_and_serve<
    'a,
    S: Ledger + Send + Sync,
    T: Threads + Wait + Sync,
    G: StepObserver + ClientObserver + Sync,
>(
    serving: Serving<'_>,
    core: Core,
    workers: Workers<'a, T, S>,
    channel: Receiving<'a, T, S, G>,
    observer: &G,
) -> Result<(Ended, Receipts<S>, Tickets<S>), ServerFault>
    requires new { IsHistory core [] }
    requires none { (core.joins ≡ 0) × (core.drawn ≡ 0) }
    ensures { IfOk result (λ r. HasServed (is_some serving.entry.sessions) r.1 r.0) }
{
    let keeps = serving.sessions.is_some();
    let threads = workers.threads;
    thread::scope(
        thread::scope_env(),
        threads,
        move |scope| -> Result<(Ended, Receipts<S>, Tickets<S>), ServerFault>
            requires new { IsHistory core [] }
            requires none { (core.joins ≡ 0) × (core.drawn ≡ 0) }
            ensures { IfOk result (λ r. HasServed keeps r.1 r.0) }
        {
            let links = workers.links;
            let Ok(accepting) = scope.spawn(move || send_all(serving, workers)) else {
                return Err(ServerFault::OutOfMemory);
            };
            let ended = serve_to_end(threads, core, channel, observer, keeps);
            links.end();
            let tickets = accepting.join(threads)?;
            let (ended, receipts) = ended?;
            Ok((ended, receipts, tickets))
        },
    )
}

/// Serves connections on a core that no session has joined. Also returns the tickets of the streams
/// that were received, and those that are left.
fn serve_streams<
    S: Ledger + Send + Sync,
    T: Threads + Wait + Sync,
    G: StepObserver + ClientObserver + Sync,
>(
    rt: &HostRuntime,
    threads: &T,
    serving: Serving<'_>,
    core: Core,
    tickets: Tickets<S>,
    observer: &G,
) -> Result<(Ended, Receipts<S>, Tickets<S>), ServerFault>
    requires new { IsHistory core [] }
    requires none { (core.joins ≡ 0) × (core.drawn ≡ 0) }
    ensures { IfOk result (λ r. HasServed (is_some serving.entry.sessions) r.1 r.0) }
{
    let (polls, links) = new_workers(rt, worker_count(threads, serving), serving)?;
    let refusals = Refusals::none(rt, threads, observer);
    let tools = new_tools(rt, serving.socket, &links, &refusals, polls)?;
    let mut tickets = tickets;
    let receipts = tickets.no_receipts();
    let (sender, streams) = bounded(rt.alloc(), WAITING)?;
    let workers = Workers {
        rt,
        threads,
        links: &links,
        streams: sender,
        tickets,
    };
    let channel = Receiving {
        alloc: rt.alloc(),
        receipts,
        streams,
        tools,
    };
    accept_and_serve(serving, core, workers, channel, observer)
}

/// Serves connections on a core that no session has joined, with tickets from a new ledger. If the
/// number of sessions is given, that many connections were served.
fn serve_core<
    S: Ledger + Send + Sync,
    T: Threads + Wait + Sync,
    G: StepObserver + ClientObserver + Sync,
>(
    rt: &HostRuntime,
    threads: &T,
    serving: Serving<'_>,
    core: Core,
    blank: Blank,
    observer: &G,
) -> Result<Ended, ServerFault>
    requires new { IsHistory core [] }
    requires none { (core.joins ≡ 0) × (core.drawn ≡ 0) }
    requires name { blank.name ≡ S.name }
    requires parts { (blank.parts ≡ S.parts) × (S.parts ≡ 2 ^ 64 - 1) }
    ensures { IfOk result (HasServedAll serving.entry.sessions (loads_of serving.entry.tree)) }
{
    let tickets = Tickets::<S>::open(blank);
    let (ended, receipts, tickets) = serve_streams(rt, threads, serving, core, tickets, observer)?;
    if are_all(tickets, receipts, serving) {
        Ok(ended)
    } else {
        Err(ServerFault::Unserved)
    }
}

/// Whether a server may end without a number of sessions.
fn ends_with_input(serving: Serving<'_>) -> Result<(), ServerFault>
    ensures { OnOk result (serving.entry.until_eof ≡ true) }
{
    if serving.until_eof {
        Ok(())
    } else {
        Err(ServerFault::Unserved)
    }
}

/// Serves connections at the socket's path, where it listens once the folder is loaded. If
/// `serving.sessions` is given, it ends after that number of connections and writes the totals to
/// `output`. They count the sessions that were served. The session that loads the folder is not
/// counted, but its calls are. With `serving.until_eof` it ends once standard input has ended, and
/// writes nothing. The observer receives all sessions, calls and refused clients.
pub fn serve<T: Threads + Wait + Sync, G: StepObserver + ClientObserver + Sync, W: Write>(
    rt: &HostRuntime,
    threads: &T,
    serving: Serving<'_>,
    observer: &G,
    output: &mut W,
) -> Result<(), ServerFault>
    requires { 0 < serving.keep }
    ensures { OnOk result (HasServedToEnd serving.entry.sessions serving.entry.until_eof
        (loads_of serving.entry.tree) (W.contents output.old) (W.contents output.new)) }
{
    let core = Core::with_keep(rt.alloc(), serving.keep)?;
    let blank = Blank::new(u64::MAX);
    let ended = serve_core::<Brand, T, G>(rt, threads, serving, core, blank, observer)?;
    if serving.sessions.is_none() {
        return ends_with_input(serving);
    }
    let sessions = ended.sessions.saturating_sub(loads(serving));
    tell(&ended.core, ended.transcripts.as_slice(), sessions, output)
}
