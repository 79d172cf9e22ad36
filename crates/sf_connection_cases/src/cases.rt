//! A session of an engine over a scripted stream.

use crate::scripted::{ScriptedStream, Turn};
use sf_alone::{EngineHost, serve_one};
use sf_connection::{Connection, NoObserver, Wants, new_piece};
use sf_engine::Engine;
use sf_hex::hex_packets;
use sf_session::{Cause, Clock, ServeFault};
use std::alloc::Global;
use std::test::*;

/// INIT, MKDIR and STAT of `/a`.
const REQUESTS: [&str; 3] = [
    "00000005 01 00000003",
    "0000000f 0e 00000001 00000002 2f61 00000000",
    "0000000b 11 00000002 00000002 2f61",
];

/// The replies.
const REPLIES: [&str; 7] = [
    "00000095 02 00000003 00000018 706f7369782d72656e616d65406f70656e7373682e636f6d 00000001 31",
    "00000014 686172646c696e6b406f70656e7373682e636f6d 00000001 31",
    "00000011 6673796e63406f70656e7373682e636f6d 00000001 31",
    "00000014 6c73657473746174406f70656e7373682e636f6d 00000001 31",
    "00000012 6c696d697473406f70656e7373682e636f6d 00000001 31",
    "00000018 65 00000001 00000000 00000007 53756363657373 00000000",
    "00000025 69 00000002 0000000f 0000000000000000 00000000 00000000 000041ed 000003e8 000003e8",
];

/// A clock that stands still.
#[derive(Drop)]
struct StillClock;

impl Clock for StillClock {
    ghost use Rattle.std.specs.Prelude.{None};

    ghost moments = { λ _. None };

    fn now(&mut self) -> u32 {
        1000
    }
}

/// What a connection wanted, call by call, and what it wrote, in how many writes.
#[derive(Drop)]
struct Outcome {
    wants: Vec<Wants>,
    output: Vec<u8>,
    writes: usize,
}

/// Advances a new connection over the requests, so many times at most, until it has ended.
fn outcome_of(
    alloc: Global,
    reads: &[Turn],
    writes: &[Turn],
    times: usize,
) -> Result<Outcome, Fail> {
    let input = hex_packets(alloc, &REQUESTS)?;
    let mut engine = Engine::new(alloc)?;
    let session = engine.open()?;
    let observer = NoObserver;
    let host = EngineHost::new(session, &observer);
    let stream = ScriptedStream::new(alloc, &input, reads, writes);
    let mut connection = Connection::new(alloc, host, stream);
    let mut all = Vec::new(alloc);
    for _ in 0..times {
        let mut piece = new_piece(alloc)?;
        let wants = connection.advance(&mut engine, &mut StillClock, &mut piece);
        all.push(wants)?;
        if let Wants::Ended(_) = wants {
            break;
        }
    }
    let mut output = Vec::new(alloc);
    output.extend_from_slice(connection.stream().output())?;
    Ok(Outcome {
        wants: all,
        output,
        writes: connection.stream().made(),
    })
}

/// All replies are written, together, before the connection waits for input.
#[test]
fn replies_are_written_together_before_it_waits(rt: HostRuntime) -> Result<(), Fail> {
    let reads = [Turn::Some(usize::MAX), Turn::Blocks];
    let got = outcome_of(rt.alloc(), &reads, &[], 1)?;
    assert_eq!(rt; got.wants.as_slice(), [Wants::Read].as_slice());
    assert_eq!(rt;
        got.output.as_slice(),
        hex_packets(rt.alloc(), &REPLIES)?.as_slice()
    );
    assert_eq!(rt; got.writes, 1);
    Ok(())
}

/// The same bytes pass if the stream blocks at each of them.
#[test]
fn a_stream_may_block_anywhere(rt: HostRuntime) -> Result<(), Fail> {
    let one = [Turn::Some(1), Turn::Blocks];
    let few = [one, one, one, one, one, one, one, one, one, one].concat(rt.alloc())?;
    let got = outcome_of(rt.alloc(), &few, &few, 1000)?;
    assert_eq!(rt; got.wants.last(), Some(&Wants::Ended(Ok(Cause::Closed))));
    assert_eq!(rt;
        got.output.as_slice(),
        hex_packets(rt.alloc(), &REPLIES)?.as_slice()
    );
    Ok(())
}

/// A client with much input does not keep its worker: a turn has at most 128 steps.
#[test]
fn a_turn_has_few_steps(rt: HostRuntime) -> Result<(), Fail> {
    let one = [Turn::Some(1); 128];
    let got = outcome_of(rt.alloc(), &one, &one, 9)?;
    assert_eq!(rt; got.wants.first(), Some(&Wants::Again));
    assert_eq!(rt; got.wants.last(), Some(&Wants::Ended(Ok(Cause::Closed))));
    assert_eq!(rt;
        got.output.as_slice(),
        hex_packets(rt.alloc(), &REPLIES)?.as_slice()
    );
    Ok(())
}

/// While the stream is full, the connection reads on, to the end of the input. It ends after its
/// output is written.
#[test]
fn a_full_stream_is_read_ahead(rt: HostRuntime) -> Result<(), Fail> {
    let reads = [
        Turn::Some(9),
        Turn::Blocks,
        Turn::Some(19),
        Turn::Blocks,
        Turn::Some(99),
    ];
    let full = [Turn::Blocks; 8];
    let got = outcome_of(rt.alloc(), &reads, &full, 1000)?;
    assert_eq!(rt; got.wants.last(), Some(&Wants::Ended(Ok(Cause::Closed))));
    assert!(rt; got.wants.contains(&Wants::Both));
    assert!(rt; got.wants.contains(&Wants::Write));
    assert_eq!(rt;
        got.output.as_slice(),
        hex_packets(rt.alloc(), &REPLIES)?.as_slice()
    );
    Ok(())
}

/// A write that fails, and a read that fails, end the session with the fault of the stream.
#[test]
fn a_fault_ends_the_session(rt: HostRuntime) -> Result<(), Fail> {
    let got = outcome_of(rt.alloc(), &[], &[Turn::Some(3), Turn::Fails], 9)?;
    assert_eq!(rt;
        got.wants.last(),
        Some(&Wants::Ended(Err(ServeFault::Line)))
    );
    assert_eq!(rt; got.output.len(), 3);
    let got = outcome_of(rt.alloc(), &[Turn::Some(9), Turn::Fails], &[], 9)?;
    assert_eq!(rt;
        got.wants.last(),
        Some(&Wants::Ended(Err(ServeFault::Line)))
    );
    assert_eq!(rt; got.output.len(), 153);
    Ok(())
}

/// A session that is served alone waits for what its stream blocks.
#[test]
fn a_session_waits_for_its_stream(rt: HostRuntime) -> Result<(), Fail> {
    let alloc = rt.alloc();
    let input = hex_packets(alloc, &REQUESTS)?;
    let reads = [Turn::Blocks, Turn::Some(9), Turn::Blocks];
    let stream = ScriptedStream::new(alloc, &input, &reads, &[Turn::Blocks]);
    let mut engine = Engine::new(alloc)?;
    let (outcome, stream) = serve_one(alloc, &mut engine, stream, &mut StillClock, &NoObserver);
    assert_eq!(rt; outcome, Ok(Cause::Closed));
    assert_eq!(rt; stream.waits(), [Wants::Read, Wants::Both].as_slice());
    assert_eq!(rt; stream.output(), hex_packets(alloc, &REPLIES)?.as_slice());
    Ok(())
}
