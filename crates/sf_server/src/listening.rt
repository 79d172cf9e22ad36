//! The Unix socket at which a server listens.

use crate::accepting::Acceptor;
use crate::outage::Outage;
use libc::net::{POLLIN, poll};
use sf_program::output::asked;
use sf_program::reporting::report;
use std::fs::{File, Metadata, TryLockError};
use std::io::{self, ErrorKind, Read, Stdin};
use std::os::fd::AsRawFd;
use std::os::unix::fs::{FileTypeExt, MetadataExt};
use std::os::unix::net::{UnixListener, UnixStream};
use std::time::Duration;
use std::{fs, thread};

/// How long a server waits before it tries again.
const PAUSE_MILLISECONDS: u64 = 10;

/// How often a server tries to lock the socket's directory: for some five seconds.
const TRIES_TO_LOCK: u32 = 500;

/// Waits before the next try.
pub(crate) fn pause(rt: &HostRuntime) {
    thread::sleep(rt, Duration::from_millis(PAUSE_MILLISECONDS));
}

/// A listener, and the device and inode of its socket's file.
#[derive(Drop)]
pub(crate) struct Bound {
    pub(crate) listener: UnixListener,
    file: Option<(u64, u64)>,
}

impl Bound {
    /// Removes the socket's file, if it is still the one that this server made.
    pub(crate) fn remove_file(&self, rt: &HostRuntime, path: &str) {
        if self.file.is_some() && file_of(rt, path) == self.file {
            let _ = fs::remove_file(rt, path);
        }
    }
}

/// What is at the path itself, which may be a symbolic link.
fn found(rt: &HostRuntime, path: &str) -> Option<Metadata> {
    fs::symlink_metadata(rt, path).ok()
}

fn file_of(rt: &HostRuntime, path: &str) -> Option<(u64, u64)> {
    let found = found(rt, path)?;
    Some((found.dev(), found.ino()))
}

/// The directory of a path.
fn directory_of(path: &str) -> &str {
    match path.rfind('/') {
        Some(0) => "/",
        Some(end) => &path[..end],
        None => ".",
    }
}

/// The socket's directory, locked, so that of two servers that start at once the second one finds
/// the first one's socket.
fn locked_directory(rt: &HostRuntime, path: &str) -> io::Result<File> {
    let directory = File::open(rt, directory_of(path))?;
    for _ in 0..TRIES_TO_LOCK {
        match directory.try_lock() {
            Ok(()) => return Ok(directory),
            Err(TryLockError::WouldBlock) => pause(rt),
            Err(TryLockError::Error(error)) => return Err(error),
        }
    }
    Err(ErrorKind::WouldBlock.into())
}

/// Whether there is a socket's file at the path, and no server listens. A symbolic link is none.
fn is_stale(rt: &HostRuntime, path: &str) -> bool {
    let is_socket = match found(rt, path) {
        Some(found) => found.file_type().is_socket(),
        None => false,
    };
    is_socket
        && match UnixStream::connect(rt, path) {
            Ok(_) => false,
            Err(error) => error.kind() == ErrorKind::ConnectionRefused,
        }
}

/// Listens at the path. Replaces the socket's file of a server that has ended, and no other file.
pub(crate) fn listen(rt: &HostRuntime, path: &str) -> io::Result<Bound> {
    if path.is_empty() {
        return Err(io::Error::from_raw_os_error(libc::ENOENT));
    }
    let _locked = locked_directory(rt, path)?;
    if is_stale(rt, path) {
        fs::remove_file(rt, path)?;
    }
    let listener = UnixListener::bind(rt, path)?;
    let file = file_of(rt, path);
    Ok(Bound { listener, file })
}

/// What a supervisor may send to the server's standard input at once. It is ignored.
const IGNORED: usize = 4096;

/// Standard input, whose end ends the server.
#[derive(Drop)]
struct Supervisor {
    input: Stdin,
    has_ended: bool,
}

impl Supervisor {
    fn new(rt: &HostRuntime) -> Supervisor {
        Supervisor {
            input: rt.stdin(),
            has_ended: false,
        }
    }

    /// Reads once. An input that can't be read has ended.
    fn read(&mut self) {
        let mut ignored = [0u8; IGNORED];
        self.has_ended = match self.input.read(&mut ignored) {
            Ok(n) => n == 0,
            Err(error) => !matches!(error.kind(), ErrorKind::Interrupted | ErrorKind::WouldBlock),
        };
    }

    /// Waits for a client or for input, which it reads. Returns whether there is a client.
    fn wait_for_client(&mut self, listener: &UnixListener) -> bool {
        let mut both = [
            asked(self.input.as_raw_fd(), POLLIN),
            asked(listener.as_raw_fd(), POLLIN),
        ];
        if poll(&mut both, -1) < 0 {
            return false;
        }
        if both[0].revents != 0 {
            self.read();
        }
        both[1].revents != 0 && !self.has_ended
    }
}

/// Connections to a listener.
#[derive(Drop)]
pub(crate) struct Connections<'a> {
    rt: &'a HostRuntime,
    listener: &'a UnixListener,
    path: &'a str,
    failures: Outage,
    supervisor: Option<Supervisor>,
}

impl<'a> Connections<'a> {
    /// Connections to a listener at a path, of which none has failed: until standard input has
    /// ended, if `until_eof`.
    pub(crate) fn new(
        rt: &'a HostRuntime,
        listener: &'a UnixListener,
        path: &'a str,
        until_eof: bool,
    ) -> Connections<'a> {
        Connections {
            rt,
            listener,
            path,
            failures: Outage::none(),
            supervisor: if until_eof {
                Some(Supervisor::new(rt))
            } else {
                None
            },
        }
    }

    /// Reports a failure, unless one was reported that lasts.
    fn report_failure(&mut self, error: &io::Error) {
        if self.failures.is_news(self.rt) {
            report(self.rt, "cannot accept", self.path, error);
        }
    }

    /// A connection, which does not block.
    fn try_accept(&self) -> io::Result<UnixStream> {
        let (socket, _) = self.listener.accept()?;
        socket.set_nonblocking(true)?;
        Ok(socket)
    }
}

impl Acceptor<UnixStream> for Connections<'_> {
    ghost use Rattle.std.specs.Prelude.{None};

    // What the system returns is not known.
    ghost given = { λ _. None };

    ghost closed = { λ _. Unit {0} };

    fn accept(&mut self) -> Option<UnixStream> {
        if let Some(supervisor) = &mut self.supervisor {
            if !supervisor.wait_for_client(self.listener) {
                return None;
            }
        }
        match self.try_accept() {
            Ok(socket) => Some(socket),
            Err(error) => {
                self.report_failure(&error);
                None
            }
        }
    }

    fn is_closed(&self) -> bool {
        match &self.supervisor {
            Some(supervisor) => supervisor.has_ended,
            None => false,
        }
    }

    fn wait(&mut self) {
        pause(self.rt);
    }
}
