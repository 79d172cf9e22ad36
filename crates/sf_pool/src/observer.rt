//! Observers of the steps of a session's calls.

use sf_connection::{CallObserver, NoObserver};

/// Observes each reply of a session, and each step that it wants to see.
pub trait StepObserver: CallObserver {
    /// Whether it observes the next step of a call that has made `steps` steps, blocked ones too.
    fn stops(&self, _session: u64, _number: u64, _steps: u64) -> bool {
        false
    }

    /// Observes the next step. No lock is held.
    fn between(&self, _session: u64, _number: u64, _steps: u64) {}

    /// Observes the reply to a call. Locks may be held.
    fn answered(&self, _session: u64, _number: u64) {}
}

impl StepObserver for NoObserver {}
