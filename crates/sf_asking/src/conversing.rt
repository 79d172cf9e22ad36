//! Feeding a session, taking its turns, and reading its output.

ghost use Rattle.std.specs.Prelude.{◌≡◌, ◌<◌, ◌^◌, length, IfOk};
ghost use Rattle.sf_field.specs.Fields.{packet};
ghost use Rattle.sf_request.specs.Requests.{request_body, init_body};
ghost use Rattle.sf_trees.specs.Lengths.{id};
ghost use Rattle.sf_asking.specs.Asking.{fault_for, stuck_by, Converses, Gets, TakesAll, Greets, IsClosed, Welcomes, session_opened, Opens};

use crate::packet::{ID, read_packet};
use bytes::BytesMut;
use sf_engine::{EngineFault, Event, Happened, Sftp};
use sf_reply::Reply;
use sf_request::{WireRequest, init_packet, write_request};
use sf_trees::TreeFault;
use std::alloc::{AllocError, Global};

/// The error for an engine's error.
fn fault_for(fault: EngineFault) -> TreeFault
    ensures { result ≡ fault_for fault }
{
    match fault {
        EngineFault::OutOfMemory => TreeFault::OutOfMemory,
        EngineFault::Sessions => TreeFault::Sessions,
        EngineFault::NumbersSpent => TreeFault::NumbersSpent,
        EngineFault::NoSuchSession | EngineFault::Ended | EngineFault::NotSent => TreeFault::Reply,
    }
}

/// Why turns with this result wrote no reply.
fn stuck_by(outcome: Result<Happened, EngineFault>) -> Option<TreeFault>
    ensures { result ≡ stuck_by outcome }
{
    match outcome {
        Ok(Happened::Wrote) => None,
        Ok(Happened::Blocked(_)) => Some(TreeFault::Blocked),
        Ok(_) => Some(TreeFault::Reply),
        Err(fault) => Some(fault_for(fault)),
    }
}

/// Feeds bytes, and takes turns until a reply is written. Fails if the session can't progress.
fn converse<E: Sftp>(
    engine: &mut E,
    session: u64,
    moment: u32,
    bytes: &[u8],
) -> Result<(), TreeFault>
    requires { length bytes.now < 2 ^ 63 }
    ensures { Converses E.has_log session moment bytes.now engine.old result engine.new }
{
    if let Err(fault) = engine.feed(session, bytes) {
        return Err(fault_for(fault));
    }
    match stuck_by(engine.turns(session, moment)) {
        Some(fault) => Err(fault),
        None => Ok(()),
    }
}

/// Takes one reply, which must be the session's whole output.
pub(crate) fn take<E: Sftp>(engine: &mut E, alloc: Global, session: u64) -> Result<Reply, TreeFault>
    ensures { Gets E.has_log session engine.old result engine.new }
{
    let Some(output) = engine.output(session) else {
        return Err(TreeFault::Reply);
    };
    let count = output.len();
    let reply = read_packet(alloc, output)?;
    match engine.apply(&Event::Sent(session, count)) {
        Ok(_) => Ok(reply),
        Err(fault) => Err(fault_for(fault)),
    }
}

/// The packet of a request.
fn packet_of(alloc: Global, request: &WireRequest) -> Result<BytesMut, AllocError>
    requires { length (request_body id request.now) < 2 ^ 32 }
    ensures { IfOk result (λ bytes. bytes.items ≡ packet (request_body id request.now)) }
{
    let mut out = BytesMut::new(alloc);
    write_request(ID, request, &mut out)?;
    Ok(out)
}

/// Feeds a request's packet, and takes turns until a reply is written.
pub(crate) fn say<E: Sftp>(
    engine: &mut E,
    alloc: Global,
    session: u64,
    moment: u32,
    request: &WireRequest,
) -> Result<(), TreeFault>
    requires { length (request_body id request.now) < 2 ^ 32 }
    ensures { Converses E.has_log session moment (packet (request_body id request.now)) engine.old result
        engine.new }
{
    let Ok(packet) = packet_of(alloc, request) else {
        return Err(TreeFault::OutOfMemory);
    };
    converse(engine, session, moment, packet.as_slice())
}

/// Takes the session's whole output, which is VERSION.
fn take_all<E: Sftp>(engine: &mut E, session: u64) -> Result<(), TreeFault>
    ensures { TakesAll E.has_log session engine.old result engine.new }
{
    let Some(output) = engine.output(session) else {
        return Err(TreeFault::Reply);
    };
    let count = output.len();
    match engine.apply(&Event::Sent(session, count)) {
        Ok(_) => Ok(()),
        Err(fault) => Err(fault_for(fault)),
    }
}

/// Feeds INIT, and takes turns until it is answered.
fn say_init<E: Sftp>(engine: &mut E, session: u64, moment: u32) -> Result<(), TreeFault>
    ensures { Converses E.has_log session moment (packet init_body) engine.old result engine.new }
{
    converse(engine, session, moment, &init_packet())
}

/// Sends INIT, and receives VERSION.
fn greet<E: Sftp>(engine: &mut E, session: u64, moment: u32) -> Result<(), TreeFault>
    ensures { Greets E.has_log session moment engine.old result engine.new }
{
    say_init(engine, session, moment)?;
    take_all(engine, session)?;
    Ok(())
}

/// Closes a session. If a reply is still pending, as after a turn in which memory ran out, further
/// turns write it, so that the session leaves. A session stays only if its call is blocked or
/// memory still runs out.
pub(crate) fn close<E: Sftp>(engine: &mut E, session: u64, moment: u32)
    ensures { IsClosed E.has_log session moment engine.old engine.new }
{
    let _closed = engine.apply(&Event::Close(session));
    let _left = engine.turns(session, moment);
}

/// As `greet`, but closes the session on an error.
pub(crate) fn welcome<E: Sftp>(engine: &mut E, session: u64, moment: u32) -> Result<(), TreeFault>
    ensures { Welcomes E.has_log session moment engine.old result engine.new }
{
    match greet(engine, session, moment) {
        Ok(()) => Ok(()),
        Err(fault) => {
            close(engine, session, moment);
            Err(fault)
        }
    }
}

/// The number of a session that opened.
fn opened_by(outcome: Result<Happened, EngineFault>) -> Result<u64, TreeFault>
    ensures { result ≡ session_opened outcome }
{
    match outcome {
        Ok(Happened::Opened(session)) => Ok(session),
        Ok(_) => Err(TreeFault::Reply),
        Err(fault) => Err(fault_for(fault)),
    }
}

/// Opens a session.
pub(crate) fn open<E: Sftp>(engine: &mut E) -> Result<u64, TreeFault>
    ensures { Opens E.has_log engine.old result engine.new }
{
    opened_by(engine.apply(&Event::Open))
}
