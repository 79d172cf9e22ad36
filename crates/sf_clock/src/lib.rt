//! The system clock, as a source of timestamps for sessions.
#![tactic(auto)]

ghost use Rattle.std.specs.Prelude.{◌≡◌, ◌-◌, ◌/◌, ◌^◌, min, IfSome, IfNone, None};
ghost use Rattle.std.specs.Duration.{as_nanos};

use sf_session::Clock;
use std::time::Duration;

/// The system's real-time clock. It doesn't record its timestamps.
#[derive(Debug, Drop)]
pub struct SystemClock<'a, R> {
    runtime: &'a R,
}

impl<'a, R> SystemClock<'a, R> {
    /// The clock of this runtime.
    pub fn new(runtime: &'a R) -> SystemClock<'a, R> {
        SystemClock { runtime }
    }
}

impl<R: std::rt::Clock> Clock for SystemClock<'_, R> {
    ghost moments = { λ _. None };

    fn now(&mut self) -> u32 {
        moment(self.runtime.since_1970().ok())
    }
}

/// Whole seconds since 1970-01-01 UTC: 0 if the clock is before that, and 4294967295 if the number
/// exceeds a `u32`.
pub fn moment(since_1970: Option<Duration>) -> u32
    ensures before { IfNone since_1970 (result ≡ 0) }
    ensures after { IfSome since_1970 (λ duration. result
        ≡ min (as_nanos duration / 1000000000) (2 ^ 32 - 1)) }
{
    let Some(since_1970) = since_1970 else {
        return 0;
    };
    u32::try_from(since_1970.as_secs()).unwrap_or(u32::MAX)
}
