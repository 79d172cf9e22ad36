//! Many clients of one worker.

ghost use Rattle.std.specs.Prelude.{◌≡◌, ◌≤◌, ◌-◌, ◌^◌};
ghost use Rattle.sf_line.specs.Lines.{Rose};

use super::scenes::client::StillClock;
use crossbeam_channel::unbounded;
use sf_connection::{NoObserver, Stream};
use sf_core::Core;
use sf_hex::hex_packets;
use sf_line::{Line, LineFault, MemoryLine, Pieces};
use sf_workers::{Ended, Polled, Poller, Refusal, Tickets, Tools, serve_on_core};
use std::alloc::Global;
use std::marker::Brand;
use std::process::Abort;
use std::sync::Wait;
use std::sync::atomic::{AtomicU64, Ordering};
use std::sync::ledger::{Blank, Ledger};
use std::test::*;
use std::thread::Threads;

const INIT: &str = "00000005 01 00000003";

const MKDIR_A: &str = "0000000f 0e 00000007 00000002 2f61 00000000";

/// The clients that came, and those that were refused.
#[derive(Drop)]
struct Door {
    came: AtomicU64,
    full: AtomicU64,
    unwatched: AtomicU64,
}

/// A client that sends nothing before all have come.
#[derive(Drop)]
struct PatientStream<'a> {
    line: MemoryLine<'a>,
    door: &'a Door,
    all: u64,
    failures: u64,
}

impl PatientStream<'_> {
    fn fail(&mut self) -> LineFault
        ensures rose { Rose self.old.failures self.new.failures }
        ensures more { self.old.failures ≤ self.new.failures }
    {
        self.failures = self.failures.saturating_add(1);
        LineFault
    }
}

impl Stream for PatientStream<'_> {
    ghost use Rattle.std.specs.Prelude.{None};

    ghost view = { λ s. record { incoming = None; outgoing = None; failed = s.failures } };

    fn try_read(&mut self, buffer: &mut [u8]) -> Result<Option<usize>, LineFault> {
        if self.door.came.load(Ordering::SeqCst) < self.all {
            return Ok(None);
        }
        match self.line.read(buffer) {
            Ok(n) => Ok(Some(n)),
            Err(_) => Err(self.fail()),
        }
    }

    fn try_write(&mut self, bytes: &[u8]) -> Result<Option<usize>, LineFault> {
        match self.line.write(bytes) {
            Ok(n) if n > 0 || bytes.is_empty() => Ok(Some(n)),
            _ => Err(self.fail()),
        }
    }
}

/// Polls all keys in turn, also those of closed streams. One stream can't be watched.
#[derive(Drop)]
struct AllKeys<'a> {
    door: &'a Door,
    keys: usize,
    next: usize,
    /// The number of the stream that can't be watched.
    unwatched: u64,
}

impl Poller<PatientStream<'_>> for AllKeys<'_> {
    fn poll(&mut self, _waits: bool) -> Polled {
        if self.next < self.keys {
            self.next = self.next.saturating_add(1);
            return Polled::Ready(self.next - 1);
        }
        self.next = 0;
        Polled::Woken
    }

    fn watch(&mut self, _stream: &PatientStream<'_>, key: usize) -> bool {
        let before = self.door.came.fetch_add(1, Ordering::SeqCst);
        self.keys = self.keys.max(key.saturating_add(1));
        before != self.unwatched
    }

    fn close(&mut self, _stream: PatientStream<'_>, refusal: Option<Refusal>) {
        match refusal {
            Some(Refusal::Full) => {
                self.door.came.fetch_add(1, Ordering::SeqCst);
                self.door.full.fetch_add(1, Ordering::SeqCst);
            }
            Some(Refusal::Unwatched) => {
                self.door.unwatched.fetch_add(1, Ordering::SeqCst);
            }
            _ => {}
        }
    }
}

/// One worker serves these clients, each of which makes one call.
fn serve_all<S: Ledger + Send + Sync, R: Threads + Wait + Abort + Sync>(
    rt: &R,
    alloc: Global,
    blank: Blank,
    count: u64,
    door: &Door,
    unwatched: u64,
) -> Result<Ended, Fail>
    requires name { blank.name ≡ S.name }
    requires parts { (blank.parts ≡ S.parts) × (S.parts ≡ 2 ^ 64 - 1) }
{
    let input = hex_packets(alloc, &[INIT, MKDIR_A])?;
    let mut tickets = Tickets::<S>::open(blank);
    let receipts = tickets.no_receipts();
    let (sender, streams) = unbounded(alloc)?;
    for _ in 0..count {
        let whole = Pieces::new(usize::MAX, usize::MAX);
        let stream = PatientStream {
            line: MemoryLine::new(alloc, input.as_slice(), whole, whole),
            door,
            all: count,
            failures: 0,
        };
        let is_sent = tickets.send(rt, &sender, stream);
        assert!(rt; is_sent);
    }
    drop(sender);
    let poller = AllKeys {
        door,
        keys: 0,
        next: 0,
        unwatched,
    };
    let mut tools = Vec::new(alloc);
    tools.push(Tools {
        clock: StillClock,
        poller,
    })?;
    let core = Core::new(alloc)?;
    let (ended, receipts) = serve_on_core(
        rt,
        alloc,
        core,
        receipts,
        &streams,
        tools,
        &NoObserver,
        false,
    )?;
    let are_back = tickets.are_back(receipts, count);
    assert!(rt; are_back);
    Ok(ended)
}

fn new_door() -> Door {
    Door {
        came: AtomicU64::new(0),
        full: AtomicU64::new(0),
        unwatched: AtomicU64::new(0),
    }
}

/// A worker serves 256 clients at once, and refuses further ones.
#[test]
fn three_hundred_at_once(rt: HostRuntime) -> Result<(), Fail> {
    let door = new_door();
    let blank = Blank::new(u64::MAX);
    let ended = serve_all::<Brand, _>(&rt, rt.alloc(), blank, 300, &door, u64::MAX)?;
    assert_eq!(rt; (ended.sessions, ended.core.calls()), (256, 256));
    assert_eq!(rt; door.full.load(Ordering::SeqCst), 44);
    Ok(())
}

/// A stream that can't be watched is refused, and the others are served.
#[test]
fn one_is_not_watched(rt: HostRuntime) -> Result<(), Fail> {
    let door = new_door();
    let blank = Blank::new(u64::MAX);
    let ended = serve_all::<Brand, _>(&rt, rt.alloc(), blank, 5, &door, 2)?;
    assert_eq!(rt; (ended.sessions, ended.core.calls()), (4, 4));
    assert_eq!(rt; door.unwatched.load(Ordering::SeqCst), 1);
    Ok(())
}
