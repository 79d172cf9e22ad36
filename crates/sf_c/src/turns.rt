//! Events of an engine, bytes for a session through its refusals, and a session's turns until it is
//! idle.

ghost use Rattle.std.specs.Prelude.{◌≡◌, ◌≤◌, ◌<◌, ◌^◌, length};
ghost use Rattle.sf_c.specs.Numbers.{leads_on, replies_of, LeadsToNumber};
ghost use Rattle.sf_c.specs.Journals.{JournalGoesOn, FeedsBytes, SendsBytes, TurnsOnce, TurnsTo, AreSettled, Settles};

use crate::number::number_of;
use sf_engine::{Engine, EngineFault, Event, Happened};
use sf_refusing::Refusals;

/// Applies an event, and returns its number.
pub fn apply(engine: &mut Engine, event: &Event) -> i64
    ensures { LeadsToNumber engine.old event.now result engine.new }
{
    number_of(engine.apply(event))
}

/// Feeds bytes to a session.
pub fn feed(engine: &mut Engine, refusals: &mut Refusals, session: u64, bytes: &[u8]) -> i64
    ensures { FeedsBytes session bytes.now result engine.old refusals.old engine.new refusals.new }
{
    number_of(refusals.feed(engine, session, bytes))
}

/// Removes the first `count` bytes of a session's output.
pub fn sent(engine: &mut Engine, refusals: &mut Refusals, session: u64, count: usize) -> i64
    ensures { SendsBytes session count result engine.old refusals.old engine.new refusals.new }
{
    number_of(refusals.sent(engine, session, count))
}

/// One turn of a session.
pub fn turn(engine: &mut Engine, refusals: &mut Refusals, session: u64, moment: u32) -> i64
    ensures { TurnsOnce session moment result engine.old refusals.old engine.new refusals.new }
{
    number_of(refusals.turn(engine, session, moment))
}

/// Whether a turn made progress, so that another one follows.
fn leads_on(outcome: Result<Happened, EngineFault>) -> bool
    ensures { result ≡ leads_on outcome }
{
    matches!(
        outcome,
        Ok(Happened::Wrote | Happened::Begun | Happened::Moved | Happened::Decided)
    )
}

/// The number of replies that a turn wrote.
fn replies_of(outcome: Result<Happened, EngineFault>) -> u64
    ensures is { result ≡ replies_of outcome }
    ensures few { result ≤ 1 }
{
    match outcome {
        Ok(Happened::Wrote) => 1,
        _ => 0,
    }
}

/// Takes turns until one makes no progress, or `most` replies are written. Returns the result of
/// the turn without progress, if there was one.
fn follow(
    engine: &mut Engine,
    refusals: &mut Refusals,
    session: u64,
    moment: u32,
    most: u64,
) -> Option<Result<Happened, EngineFault>>
    ensures { JournalGoesOn (TurnsTo most session moment result) engine.old refusals.old engine.new
        refusals.new }
{
    for _ in 0..most {
        let outcome = refusals.turns(engine, session, moment);
        if replies_of(outcome) == 0 {
            return Some(outcome);
        }
    }
    None
}

/// The result of settling a session.
#[derive(Clone, Copy, Debug)]
pub struct Settled {
    /// The result of the turn without progress, if there was one.
    last: Option<Result<Happened, EngineFault>>,
    /// Whether an earlier turn made progress.
    moved: bool,
}

/// As `follow`, and also reports whether the first turn made progress.
fn settle(
    engine: &mut Engine,
    refusals: &mut Refusals,
    session: u64,
    moment: u32,
    most: u64,
) -> Settled
    ensures { JournalGoesOn (AreSettled most session moment result) engine.old refusals.old
        engine.new refusals.new }
{
    if most == 0 {
        return Settled {
            last: None,
            moved: false,
        };
    }
    let first = refusals.turn(engine, session, moment);
    if !leads_on(first) {
        return Settled {
            last: Some(first),
            moved: false,
        };
    }
    Settled {
        last: follow(engine, refusals, session, moment, most - replies_of(first)),
        moved: true,
    }
}

/// As `settle`, but returns the number of the turn without progress, or 6.
pub fn settle_at(
    engine: &mut Engine,
    refusals: &mut Refusals,
    session: u64,
    moment: u32,
    most: u64,
    moved: &mut bool,
) -> i64
    ensures { Settles most session moment result moved.new engine.old refusals.old engine.new
        refusals.new }
{
    let settled = settle(engine, refusals, session, moment, most);
    *moved = settled.moved;
    match settled.last {
        Some(outcome) => number_of(outcome),
        None => 6,
    }
}
