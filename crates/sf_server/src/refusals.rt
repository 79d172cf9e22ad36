//! Clients whose sessions are refused.

use crate::outage::Outage;
use sf_call::JoinFault;
use sf_connection::NoObserver;
use sf_program::output::shown;
use std::io::Write;
use std::os::fd::AsRawFd;
use std::sync::{Mutex, Wait};

/// Receives an event for each client whose session is refused.
pub trait ClientObserver {
    /// The session could not join, and the connection is closed.
    fn refused(&self, _fault: JoinFault) {}
}

impl ClientObserver for NoObserver {}

/// Reports refused clients: each to the observer, and one on standard error for as long as it
/// lasts.
#[derive(Drop)]
pub(crate) struct Refusals<'a, T, G> {
    rt: &'a HostRuntime,
    threads: &'a T,
    observer: &'a G,
    outage: Mutex<Outage>,
}

impl<'a, T: Wait, G: ClientObserver> Refusals<'a, T, G> {
    /// No client was refused.
    pub(crate) fn none(rt: &'a HostRuntime, threads: &'a T, observer: &'a G) -> Refusals<'a, T, G> {
        Refusals {
            rt,
            threads,
            observer,
            outage: Mutex::new(Outage::none()),
        }
    }

    /// A client was refused. No worker waits for standard error: if it accepts nothing, the line is
    /// left out.
    pub(crate) fn report(&self, fault: JoinFault) {
        self.observer.refused(fault);
        let is_news = {
            let mut outage = self.outage.lock(self.threads);
            outage.is_news(self.rt)
        };
        let mut errors = self.rt.stderr();
        if is_news && shown(errors.as_raw_fd(), 0) != 0 {
            let _ = writeln!(errors, "sftpd: client refused: {fault}");
        }
    }
}
