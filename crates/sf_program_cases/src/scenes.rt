//! Sessions that wait for each other on one core: whoever waits is woken, and a client that is slow
//! or busy delays nobody.

ghost use Rattle.std.specs.Prelude.{◌≡◌, ◌-◌, ◌^◌, vec_len, IfOk};

use client::{Client, ClientStream, OneStream, StillClock, sends};
use crossbeam_channel::{Receiver, Sender, unbounded};
use script::{Director, FREE, Script, Signs, Until};
use sf_call::Record;
use sf_core::Core;
use sf_workers::{Ended, Receipts, Sent, Tickets, Tools, serve_on_core};
use std::alloc::Global;
use std::marker::Brand;
use std::process::Abort;
use std::sync::Wait;
use std::sync::atomic::Ordering;
use std::sync::ledger::{Blank, Ledger};
use std::test::*;
use std::thread::{self, Threads};

pub(crate) mod client;
mod script;

const INIT: &str = "00000005 01 00000003";

const MKDIR_A: &str = "0000000f 0e 00000007 00000002 2f61 00000000";

const MKDIR_B: &str = "0000000f 0e 00000007 00000002 2f62 00000000";

const MKDIR_C: &str = "0000000f 0e 00000007 00000002 2f63 00000000";

const STAT_A: &str = "0000000b 11 00000008 00000002 2f61";

const STAT_A_F: &str = "0000000d 11 00000008 00000004 2f612f66";

const RENAME_A: &str = "00000011 12 00000009 00000002 2f61 00000002 2f7a";

const OPEN_F: &str = "00000013 03 00000005 00000002 2f66 0000000b 00000000";

const OPEN_A_F: &str = "00000015 03 00000005 00000004 2f612f66 0000000b 00000000";

const OPEN_B_F: &str = "00000015 03 00000005 00000004 2f622f66 0000000b 00000000";

const OPEN_C_F: &str = "00000015 03 00000005 00000004 2f632f66 0000000b 00000000";

/// WRITE of two bytes in two blocks, by the handle 1. It takes two steps.
const WRITE_1: &str =
    "0000001f 06 00000006 00000008 0000000000000001 0000000000000fff 00000002 0707";

const WRITE_2: &str =
    "0000001f 06 00000006 00000008 0000000000000002 0000000000000fff 00000002 0707";

const WRITE_5: &str =
    "0000001f 06 00000006 00000008 0000000000000005 0000000000000fff 00000002 0707";

const WRITE_7: &str =
    "0000001f 06 00000006 00000008 0000000000000007 0000000000000fff 00000002 0707";

const WRITE_8: &str =
    "0000001f 06 00000006 00000008 0000000000000008 0000000000000fff 00000002 0707";

/// SETSTAT of the size.
const SIZE_F: &str = "00000017 09 00000009 00000002 2f66 00000001 0000000000001388";

const SIZE_A_F: &str = "00000019 09 00000009 00000004 2f612f66 00000001 0000000000001388";

const SIZE_B_F: &str = "00000019 09 00000009 00000004 2f622f66 00000001 0000000000001388";

const SIZE_C_F: &str = "00000019 09 00000009 00000004 2f632f66 00000001 0000000000001388";

/// All calls are stopped between steps.
const STOPS: Script<'static> = Script { free: 0, ..FREE };

/// How often a blocked step is tried before its thread sleeps.
const TRIES: u64 = 64;

/// The step at which a call sleeps whose path has two names.
const SLEEPS: u64 = TRIES + 2;

/// Sends the streams, each later one once one more wait has begun. Returns the tickets that are
/// left.
fn send_in_turn<'a, S: Ledger>(
    rt: &impl Wait,
    sender: Sender<Sent<ClientStream<'a>, S>>,
    tickets: Tickets<S>,
    streams: Vec<ClientStream<'a>>,
    signs: &Signs,
) -> Tickets<S> {
    let mut tickets = tickets;
    let mut sent = 0u64;
    for stream in streams {
        sent = sent.saturating_add(1);
        signs.wait_for(&signs.ready, sent);
        if !tickets.send(rt, &sender, stream) {
            return tickets;
        }
    }
    tickets
}

/// A clock and a poller for each of six workers.
fn tools(alloc: Global) -> Result<Vec<Tools<StillClock, OneStream>>, Fail>
    ensures { IfOk result (λ tools. vec_len tools ≡ 6) }
{
    let mut tools = Vec::new(alloc);
    for _ in 0..6u64 {
        tools.push(Tools {
            clock: StillClock,
            poller: OneStream::none(),
        })?;
    }
    Ok(tools)
}

/// Six workers serve the streams of a channel on a new core.
fn serve<S: Ledger + Send + Sync, R: Threads + Wait + Sync>(
    rt: &R,
    alloc: Global,
    receipts: Receipts<S>,
    streams: &Receiver<Sent<ClientStream<'_>, S>>,
    director: &Director<'_>,
) -> Result<(Ended, Receipts<S>), Fail>
    requires { receipts ≡ 0 }
{
    let core = Core::new(alloc)?;
    let tools = tools(alloc)?;
    Ok(serve_on_core(rt, alloc, core, receipts, streams, tools, director, true)?)
}

/// Serves these clients. Each has one session, together they make this number of calls, and no wait
/// was given up. Returns the core, and how many calls were answered before the one that the scene
/// is about.
fn play<R: Threads + Wait + Abort + Sync>(
    rt: &R,
    alloc: Global,
    script: Script<'_>,
    clients: &[Client<'_>],
    calls: u64,
) -> Result<(Core, u64), Fail> {
    let blank = Blank::new(u64::MAX);
    play_on::<Brand, R>(rt, alloc, blank, script, clients, calls)
}

/// As `play`, with tickets from a new ledger.
fn play_on<S: Ledger + Send + Sync, R: Threads + Wait + Abort + Sync>(
    rt: &R,
    alloc: Global,
    blank: Blank,
    script: Script<'_>,
    clients: &[Client<'_>],
    calls: u64,
) -> Result<(Core, u64), Fail>
    requires name { blank.name ≡ S.name }
    requires parts { (blank.parts ≡ S.parts) × (S.parts ≡ 2 ^ 64 - 1) }
{
    let mut tickets = Tickets::<S>::open(blank);
    let receipts = tickets.no_receipts();
    let mut inputs = Vec::new(alloc);
    for client in clients {
        inputs.push(client.input(alloc)?)?;
    }
    let signs = Signs::new(script.at_once);
    let mut all = Vec::new(alloc);
    for (place, client) in clients.iter().enumerate() {
        let Some(input) = inputs.get(place) else {
            panic!(rt; "no input");
        };
        all.push(ClientStream::new(alloc, client, input, &signs))?;
    }
    let director = Director {
        signs: &signs,
        script,
    };
    let (sender, streams) = unbounded(alloc)?;
    let (tickets, ended) = thread::join(
        rt,
        || send_in_turn(rt, sender, tickets, all, &signs),
        || -> Result<(Ended, Receipts<S>), Fail>
            requires { receipts ≡ 0 }
        { serve(rt, alloc, receipts, &streams, &director) },
    );
    let (ended, receipts) = ended?;
    let Ended {
        core,
        sessions,
        transcripts,
    } = ended;
    let are_back = tickets.are_back(receipts, clients.len() as u64);
    assert!(rt; are_back);
    assert_eq!(rt; sessions, clients.len() as u64);
    assert_eq!(rt; signs.late.load(Ordering::SeqCst), 0);
    assert_eq!(rt; signs.done.load(Ordering::SeqCst), 1);
    assert_eq!(rt; (transcripts.len(), core.calls()), (clients.len(), calls));
    Ok((core, signs.before.load(Ordering::SeqCst)))
}

/// While one call is held in the middle of its lookup, without the lock, another session's call is
/// answered.
#[test]
fn gate_two_calls(rt: HostRuntime) -> Result<(), Fail> {
    let script = Script {
        holds: &[(2, 2, Until::Done)],
        ..STOPS
    };
    let clients = [sends(&[INIT, MKDIR_A, STAT_A_F]), sends(&[INIT, MKDIR_B])];
    play(&rt, rt.alloc(), script, &clients, 3)?;
    Ok(())
}

/// A call that sleeps is woken by the one thing that can wake it.
#[test]
fn a_sleeper_is_woken(rt: HostRuntime) -> Result<(), Fail> {
    let alloc = rt.alloc();
    // the second step of a MKDIR decides it, and leaves the root
    let script = Script {
        holds: &[(1, 1, Until::Asleep(1))],
        sleepers: &[(2, TRIES)],
        waker: 1,
        ..STOPS
    };
    let clients = [sends(&[INIT, MKDIR_A]), sends(&[INIT, MKDIR_B])];
    play(&rt, alloc, script, &clients, 2)?;

    // the second step of a STAT leaves the root; the STAT is held then
    let script = Script {
        holds: &[(2, 1, Until::Asleep(1)), (2, 2, Until::Done)],
        sleepers: &[(3, TRIES)],
        ..STOPS
    };
    let clients = [sends(&[INIT, MKDIR_A, STAT_A_F]), sends(&[INIT, MKDIR_B])];
    play(&rt, alloc, script, &clients, 3)?;

    // the last step of a WRITE copies its last block
    let script = Script {
        holds: &[(2, 1, Until::Asleep(1))],
        sleepers: &[(3, TRIES + 1)],
        waker: 2,
        ..STOPS
    };
    let clients = [sends(&[INIT, OPEN_F, WRITE_1]), sends(&[INIT, SIZE_F])];
    play(&rt, alloc, script, &clients, 3)?;

    // a rename helps the call, and the WRITE for which that waits, which is held
    let script = Script {
        holds: &[
            (3, 1, Until::Done),
            (5, 0, Until::Asleep(1)),
            (5, 1, Until::Asleep(1)),
        ],
        sleepers: &[(4, SLEEPS)],
        waker: 5,
        ..STOPS
    };
    let clients = [
        sends(&[INIT, MKDIR_A, OPEN_A_F, WRITE_2]),
        sends(&[INIT, SIZE_A_F]),
        sends(&[INIT, RENAME_A]),
    ];
    play(&rt, alloc, script, &clients, 5)?;
    Ok(())
}

/// Of three WRITEs the waker is held until three calls sleep, the others until the scene ends.
fn write_until(call: u64, waker: u64) -> Until {
    if call == waker {
        Until::Asleep(3)
    } else {
        Until::Done
    }
}

/// Each of three calls that sleep waits for a WRITE of its own, and is woken by it. The other two
/// WRITEs are held meanwhile. The calls fall asleep in the order 12, 11, 10.
#[test]
fn each_of_three_sleepers_is_woken(rt: HostRuntime) -> Result<(), Fail> {
    let clients = [
        sends(&[INIT, MKDIR_A, OPEN_A_F, WRITE_2]),
        sends(&[INIT, MKDIR_B, OPEN_B_F, WRITE_5]),
        sends(&[INIT, MKDIR_C, OPEN_C_F, WRITE_8]),
        sends(&[INIT, SIZE_A_F]),
        sends(&[INIT, SIZE_B_F]),
        sends(&[INIT, SIZE_C_F]),
    ];
    for (waker, woken) in [(3, 4), (6, 5), (9, 6)] {
        let script = Script {
            holds: &[
                (3, 1, write_until(3, waker)),
                (6, 1, write_until(6, waker)),
                (9, 1, write_until(9, waker)),
                (10, SLEEPS, Until::Asleep(2)),
                (11, SLEEPS, Until::Asleep(1)),
            ],
            sleepers: &[(10, SLEEPS), (11, SLEEPS), (12, SLEEPS)],
            waker,
            woken,
            ..STOPS
        };
        play(&rt, rt.alloc(), script, &clients, 12)?;
    }
    Ok(())
}

/// A session that has made five calls keeps the lock behind its next one, a rename. The rename
/// helps a call that sleeps, which is woken while the session's client is idle.
#[test]
fn an_idle_client_wakes_whom_it_helped(rt: HostRuntime) -> Result<(), Fail> {
    let script = Script {
        free: 1,
        holds: &[(8, 1, Until::Done)],
        sleepers: &[(9, SLEEPS)],
        woken: 3,
        ..STOPS
    };
    let clients = [
        Client {
            // INIT and five STATs
            pieces: (84, usize::MAX),
            reads: [Until::Now, Until::Asleep(1), Until::Done],
            ..sends(&[INIT, STAT_A, STAT_A, STAT_A, STAT_A, STAT_A, RENAME_A])
        },
        sends(&[INIT, MKDIR_A, OPEN_A_F, WRITE_7]),
        sends(&[INIT, SIZE_A_F]),
    ];
    play(&rt, rt.alloc(), script, &clients, 10)?;
    Ok(())
}

/// A client that takes 16 KiB of the replies that it asked for, and no more, delays nobody.
#[test]
fn one_call_beside_a_deaf_client(rt: HostRuntime) -> Result<(), Fail> {
    let deaf = Client {
        more: (STAT_A, 2000),
        room: 16384,
        ..sends(&[INIT])
    };
    play(
        &rt,
        rt.alloc(),
        FREE,
        &[deaf, sends(&[INIT, MKDIR_B])],
        2001,
    )?;
    Ok(())
}

/// A session with 2000 packets in memory lets another one's call in before its replies fill 16 KiB,
/// which 490 of them do.
#[test]
fn one_call_beside_many(rt: HostRuntime) -> Result<(), Fail> {
    let script = Script {
        woken: 1,
        slow_after: 20,
        ..FREE
    };
    let one = Client {
        reads: [Until::Answers(20), Until::Now, Until::Now],
        ..sends(&[INIT, MKDIR_B])
    };
    let many = Client {
        more: (STAT_A, 2000),
        ..sends(&[INIT])
    };
    let (_core, before) = play(&rt, rt.alloc(), script, &[one, many], 2001)?;
    assert!(rt; before >= 20 && before < 200, "after {before} calls");
    Ok(())
}

/// Counts the calls whose record comes after that of a call that began later. Both were under way
/// at once.
fn overtakings(core: &Core) -> usize {
    let mut latest = 0u64;
    let mut count = 0usize;
    for record in core.history() {
        if let Record::Did { number, .. } = record {
            if *number < latest {
                count = count.saturating_add(1);
            }
            latest = latest.max(*number);
        }
    }
    count
}

/// While one session looks up a path of four names, another one's calls begin and are answered. On
/// a busy machine one session may end before the other one's worker begins, so there are several
/// rounds.
#[test]
fn lookups_side_by_side(rt: HostRuntime) -> Result<(), Fail> {
    let script = Script { at_once: 2, ..FREE };
    let deep = Client {
        more: ("00000011 11 00000008 00000008 2f642f642f642f64", 8000),
        ..sends(&[
            INIT,
            "0000000f 0e 00000007 00000002 2f64 00000000",
            "00000011 0e 00000007 00000004 2f642f64 00000000",
            "00000013 0e 00000007 00000006 2f642f642f64 00000000",
            "00000015 0e 00000007 00000008 2f642f642f642f64 00000000",
        ])
    };
    // INIT, and then one STAT of the root by each read
    let root = Client {
        more: ("0000000a 11 00000008 00000001 2f", 8000),
        pieces: (9, 14),
        ..sends(&[INIT])
    };
    let mut found = 0;
    for _ in 0..100 {
        let (core, _before) = play(&rt, rt.alloc(), script, &[deep, root], 16_004)?;
        found = overtakings(&core);
        if found > 0 {
            break;
        }
    }
    assert!(rt; found > 0);
    Ok(())
}
