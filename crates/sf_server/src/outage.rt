//! Failures that are reported once for as long as they last.

use std::time::Instant;

/// After how long without a failure the next one is reported again.
const QUIET_SECONDS: u64 = 10;

/// When something last failed.
#[derive(Drop)]
pub(crate) struct Outage {
    failed: Option<Instant>,
}

impl Outage {
    /// Nothing has failed.
    pub(crate) fn none() -> Outage {
        Outage { failed: None }
    }

    /// Records a failure. Returns whether it is to be reported: the last one was long ago.
    pub(crate) fn is_news(&mut self, rt: &HostRuntime) -> bool {
        let now = Instant::now(rt).ok();
        let lasts = match (self.failed, now) {
            (Some(last), Some(now)) => now.saturating_duration_since(last).as_secs()
                < QUIET_SECONDS,
            (last, _) => last.is_some(),
        };
        self.failed = now.or(self.failed);
        !lasts
    }
}
