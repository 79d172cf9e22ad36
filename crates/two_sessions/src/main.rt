//! Two sessions on one engine, turn by turn. Prints each event with its result, and then each
//! session's output.
//!
//! Start with `schedule`, which has the events: the second session looks up `/a` while the first
//! one makes it. README.md beside this folder explains the program and its output.
#![tactic(auto)]

use sf_engine::{Engine, Event};
use std::alloc::{AllocError, Global};
use std::io;

/// INIT, and MKDIR of `/a` with the id 7.
const MAKES: &[u8] = b"\0\0\0\x05\x01\0\0\0\x03\0\0\0\x0f\x0e\0\0\0\x07\0\0\0\x02/a\0\0\0\0";

/// INIT, and STAT of `/a` with the id 8.
const LOOKS: &[u8] = b"\0\0\0\x05\x01\0\0\0\x03\0\0\0\x0b\x11\0\0\0\x08\0\0\0\x02/a";

/// The sessions of the turns, in order. The second session looks before the first one has made
/// `/a`.
const TURNS: &[u64] = &[1, 2, 2, 1, 1, 2, 1, 2, 2, 2, 1];

/// The events: both sessions open, are fed their bytes, and take these turns with the timestamp
/// 100.
fn schedule(alloc: Global) -> Result<Vec<Event>, AllocError> {
    let makes = Vec::from_slice(alloc, MAKES)?;
    let looks = Vec::from_slice(alloc, LOOKS)?;
    let mut events = vec![in alloc;
        Event::Open,
        Event::Open,
        Event::Feed(1, makes),
        Event::Feed(2, looks),
    ]?;
    for session in TURNS {
        events.push(Event::Turn(*session, 100))?;
    }
    Ok(events)
}

/// Applies the events, and prints each with its result.
fn replay(rt: &impl Print, engine: &mut Engine, events: &[Event]) -> io::Result<()> {
    for event in events {
        match engine.apply(event) {
            Ok(happened) => println!(rt; "{event:?}: {happened:?}")?,
            Err(fault) => println!(rt; "{event:?}: refused, {fault}")?,
        }
    }
    Ok(())
}

fn main(rt: HostRuntime) -> anyhow::Result<()> {
    let alloc = rt.alloc();
    let mut engine = Engine::new(alloc)?;
    let events = schedule(alloc)?;
    replay(&rt, &mut engine, &events)?;
    for session in [1, 2] {
        println!(&rt; "session {session} was sent {:?}", engine.output(session))?;
    }
    Ok(())
}
