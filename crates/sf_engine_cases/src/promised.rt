//! An engine that is known by the trait `Sftp` alone.

use sf_engine::{Engine, Event, Happened, Sftp, apply_all};
use sf_hex::hex_packets;
use std::alloc::Global;
use std::process::Abort;
use std::test::*;

const INIT: &str = "00000005 01 00000003";

const VERSION: &str =
    "00000095 02 00000003 00000018 706f7369782d72656e616d65406f70656e7373682e636f6d 00000001 31 \
    00000014 686172646c696e6b406f70656e7373682e636f6d 00000001 31 \
    00000011 6673796e63406f70656e7373682e636f6d 00000001 31 \
    00000014 6c73657473746174406f70656e7373682e636f6d 00000001 31 \
    00000012 6c696d697473406f70656e7373682e636f6d 00000001 31";

const MKDIR_A: &str = "0000000f 0e 00000007 00000002 2f61 00000000";

const OK_7: &str = "00000018 65 00000007 00000000 00000007 53756363657373 00000000";

/// A session opens, and makes a directory.
fn events(alloc: Global) -> Result<Vec<Event>, Fail> {
    let mut events = Vec::new(alloc);
    events.push(Event::Open)?;
    events.push(Event::Feed(1, hex_packets(alloc, &[INIT, MKDIR_A])?))?;
    for _ in 0..5 {
        events.push(Event::Turn(1, 100))?;
    }
    Ok(events)
}

#[test]
fn outcome_of_events(rt: HostRuntime) -> Result<(), Fail> {
    let alloc = rt.alloc();
    let events = events(alloc)?;
    let outcome = apply_all::<Engine>(alloc, &events)?;
    assert_eq!(rt; outcome.results.len(), 7);
    assert!(rt; outcome.results.get(3) == Some(&Ok(Happened::Begun)));
    assert!(rt; outcome.results.get(4) == Some(&Ok(Happened::Moved)));
    assert!(rt; outcome.results.get(6) == Some(&Ok(Happened::Wrote)));
    assert_eq!(rt; outcome.outputs.len(), 1);
    let sent = hex_packets(alloc, &[VERSION, OK_7])?;
    assert!(rt; outcome.outputs.get(0) == Some(&sent));
    Ok(())
}

/// A session is fed bytes, and takes turns until it wants more of them.
fn serves<E: Sftp>(rt: &impl Abort, engine: &mut E, bytes: &[u8]) {
    assert!(rt; engine.feed(1, bytes) == Ok(Happened::Fed));
    assert!(rt; !engine.wants_bytes(1));
    assert!(rt; engine.turns(1, 100) == Ok(Happened::Wrote));
    assert!(rt; engine.turns(1, 100) == Ok(Happened::Wrote));
    assert!(rt; engine.wants_bytes(1));
}

/// A call that rounds decide has its reply with the next turn.
fn decides<E: Sftp>(rt: &impl Abort, engine: &mut E, bytes: &[u8]) {
    assert!(rt; engine.feed(1, bytes) == Ok(Happened::Fed));
    assert!(rt; engine.apply(&Event::Turn(1, 100)) == Ok(Happened::Begun));
    assert_eq!(rt; engine.run_all(), 2);
    assert!(rt; engine.apply(&Event::Turn(1, 100)) == Ok(Happened::Wrote));
}

/// Each method of the trait, on a new engine.
fn each_method<E: Sftp>(rt: &impl Abort, alloc: Global, engine: &mut E) -> Result<(), Fail> {
    let mut opened = Vec::new(alloc);
    opened.push(Event::Open)?;
    assert_eq!(rt; engine.run(&opened), 0);
    let asked = hex_packets(alloc, &[INIT, MKDIR_A])?;
    serves(rt, engine, asked.as_slice());
    let sent = hex_packets(alloc, &[VERSION, OK_7])?;
    match engine.output(1) {
        Some(output) => assert!(rt; output == sent.as_slice()),
        None => panic!(rt; "no output"),
    }
    let asked = hex_packets(alloc, &[MKDIR_A])?;
    decides(rt, engine, asked.as_slice());
    Ok(())
}

fn by_trait<E: Sftp>(rt: &impl Abort, alloc: Global) -> Result<(), Fail> {
    let mut engine = E::new(alloc)?;
    each_method(rt, alloc, &mut engine)?;
    let mut engine = E::with_keep(alloc, 1)?;
    each_method(rt, alloc, &mut engine)
}

#[test]
fn engine_by_its_trait(rt: HostRuntime) -> Result<(), Fail> {
    let alloc = rt.alloc();
    by_trait::<Engine>(&rt, alloc)
}
