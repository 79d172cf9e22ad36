//! The engine's results as numbers.

ghost use Rattle.std.specs.Prelude.{◌≡◌, ◌+◌, pos};
ghost use Rattle.sf_c.specs.Numbers.{cause_number, IsHappened, IsNumber};

use sf_engine::{EngineFault, Happened};
use sf_session::Cause;

/// The number for a session that ended with this cause.
fn ended_number(cause: Cause) -> i64
    ensures { result ≡ pos (16 + cause_number cause) }
{
    match cause {
        Cause::NotInit => 17,
        Cause::OldVersion => 18,
        Cause::SecondInit => 19,
        Cause::ZeroLength => 20,
        Cause::TooLong => 21,
        Cause::NoId => 22,
        Cause::Closed => 23,
    }
}

fn happened_number(happened: Happened) -> i64
    ensures { IsHappened happened result }
{
    match happened {
        Happened::Opened(session) => i64::try_from(session).unwrap_or(-5),
        Happened::Fed | Happened::Idle | Happened::Closed | Happened::Sent => 0,
        Happened::Wrote => 1,
        Happened::Begun => 2,
        Happened::Moved => 3,
        Happened::Blocked(_) => 4,
        Happened::Decided => 5,
        Happened::Ended(cause) => ended_number(cause),
    }
}

/// The number of an event's result: 0 or above, or an error below 0.
pub fn number_of(outcome: Result<Happened, EngineFault>) -> i64
    ensures { IsNumber outcome result }
{
    match outcome {
        Ok(happened) => happened_number(happened),
        Err(EngineFault::OutOfMemory) => -1,
        Err(EngineFault::NoSuchSession) => -2,
        Err(EngineFault::Sessions) => -3,
        Err(EngineFault::Ended) => -4,
        Err(EngineFault::NumbersSpent) => -5,
        Err(EngineFault::NotSent) => -6,
    }
}
