//! The log of what clients did (`--log`), with the lines of `sf_log`.

use crate::log_output::LogOutput;
use crate::refusals::ClientObserver;
use sf_call::JoinFault;
use sf_connection::{CallObserver, ObservedCall};
use sf_log::{LogLine, WaitingLines};
use sf_pool::StepObserver;
use sf_program::reporting::{report, report_lost};
use sf_session::{Cause, ServeFault};
use std::io;
use std::sync::{Mutex, Wait};

/// Where lines go, the lines that it did not accept yet, and whether a failure was reported.
#[derive(Drop)]
struct LogState {
    output: LogOutput,
    lines: WaitingLines,
    failed: bool,
}

/// The log: a line for each client that is refused, for each client's session that joins or leaves,
/// and for each of its calls, in the session's order. Whole lines are written, under a mutex. No
/// session waits for the output: lines wait for it, and if too many do, further ones are lost and
/// counted.
#[derive(Drop)]
pub struct Log<'a, T> {
    rt: &'a HostRuntime,
    threads: &'a T,
    path: &'a str,
    /// The number of the first client's session. Session 1 loads the folder, if there is one.
    first: u64,
    state: Mutex<LogState>,
}

/// The number of the first client's session.
fn first_client(tree: Option<&str>) -> u64 {
    match tree {
        Some(_) => 2,
        None => 1,
    }
}

/// Opens the log at a path, or on standard error if the path is `-`. With a `tree`, session 1 loads
/// the folder and is not logged. If the log can't be opened, the reason is reported.
pub fn open_log<'a, T: Wait>(
    rt: &'a HostRuntime,
    threads: &'a T,
    path: &'a str,
    tree: Option<&str>,
) -> Option<Log<'a, T>> {
    let output = match LogOutput::open(rt, path) {
        Ok(output) => output,
        Err(error) => {
            report(rt, FAILED, path, &error);
            return None;
        }
    };
    Some(Log {
        rt,
        threads,
        path,
        first: first_client(tree),
        state: Mutex::new(LogState {
            output,
            lines: WaitingLines::new(rt.alloc()),
            failed: false,
        }),
    })
}

/// What is reported if the log can't be opened or written.
const FAILED: &str = "cannot write the log";

/// How long the end of the program waits for the output, if it accepts nothing.
const PATIENCE_MILLISECONDS: i32 = 1000;

/// Writes what waits, as far as the output accepts it without blocking.
fn write(state: &mut LogState) -> io::Result<()> {
    for _ in 0..u64::MAX {
        if !state.lines.write_some(&mut state.output)? {
            break;
        }
    }
    Ok(())
}

impl<T: Wait> Log<'_, T> {
    /// Reports the lines that were lost since the last report.
    fn report_lost(&self, state: &mut LogState) {
        let lost = state.lines.take_lost();
        if lost > 0 {
            report_lost(self.rt, self.path, lost);
        }
    }

    /// Writes what waits. The first failure is reported, and what was lost once all is written.
    fn write_waiting(&self, state: &mut LogState) {
        match write(state) {
            Ok(()) => {
                if state.lines.is_empty() {
                    self.report_lost(state);
                }
            }
            Err(error) => {
                if !state.failed {
                    state.failed = true;
                    report(self.rt, FAILED, self.path, &error);
                }
            }
        }
    }

    /// Writes a line of a session, if it is a client's.
    fn write(&self, session: u64, line: &LogLine<'_>) {
        if session >= self.first {
            self.write_line(line);
        }
    }

    /// Writes a line.
    fn write_line(&self, line: &LogLine<'_>) {
        let mut state = self.state.lock(self.threads);
        state.lines.add(line);
        self.write_waiting(&mut *state);
    }

    /// Writes what waits, at the end of the program. An output that accepts nothing is given up
    /// after a second. Reports what was lost.
    pub fn finish(&self) {
        let mut state = self.state.lock(self.threads);
        let state = &mut *state;
        for _ in 0..u64::MAX {
            if state.lines.is_empty() || !state.output.is_ready(PATIENCE_MILLISECONDS) {
                break;
            }
            self.write_waiting(state);
        }
        state.lines.give_up();
        self.report_lost(state);
    }
}

impl<T: Wait> CallObserver for Log<'_, T> {
    fn hears_calls(&self) -> bool {
        true
    }

    fn joined(&self, session: u64) {
        self.write(session, &LogLine::Opened { session });
    }

    fn called(&self, call: ObservedCall<'_>) {
        let ObservedCall {
            session,
            number,
            moment,
            request,
            reply,
        } = call;
        self.write(
            session,
            &LogLine::Answered {
                session,
                number,
                moment,
                request,
                reply,
            },
        );
    }

    fn left(&self, session: u64, outcome: Result<Cause, ServeFault>) {
        self.write(session, &LogLine::Closed { session, outcome });
    }
}

impl<T: Wait> StepObserver for Log<'_, T> {}

impl<T: Wait> ClientObserver for Log<'_, T> {
    fn refused(&self, fault: JoinFault) {
        self.write_line(&LogLine::Refused { fault });
    }
}
