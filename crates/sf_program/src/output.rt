//! Where the program writes replies, without blocking.

ghost use Rattle.std.specs.Prelude.{◌≡◌};
ghost use Rattle.std.specs.Io.{WritesAtMost};

use crate::descriptors::Outlet;
use libc::net::{MSG_DONTWAIT, MSG_NOSIGNAL, POLLERR, POLLOUT, poll, send};
use libc::types::pollfd;
use std::fs::{self, File, OpenOptions};
use std::io::{self, ErrorKind, Stdout, Write};
use std::os::fd::{AsFd, AsRawFd, RawFd};
use std::os::unix::fs::FileTypeExt;
use std::os::unix::net::UnixStream;

/// How many bytes a pipe that is ready accepts without blocking (PIPE_BUF on Linux).
const PIPE_ROOM: usize = 4096;

/// Standard output. Opening it gives a new open file of a pipe, with flags of its own.
const OUTPUT: &str = "/proc/self/fd/1";

fn last_error() -> io::Error {
    io::Error::from_raw_os_error(os::errno())
}

/// An entry for `poll`. A descriptor below 0 is ignored.
pub fn asked(fd: RawFd, events: i16) -> pollfd
    ensures fd { result.fd ≡ fd }
    ensures events { result.events ≡ events }
{
    pollfd {
        fd,
        events,
        revents: 0,
    }
}

/// The events of a descriptor that is polled for writing: 0 if it is not ready in time.
pub fn shown(fd: RawFd, milliseconds: i32) -> i16 {
    let mut all = [asked(fd, POLLOUT)];
    if poll(&mut all, milliseconds) > 0 {
        all[0].revents
    } else {
        0
    }
}

/// Sends some of the bytes without blocking, whatever the flags of the socket.
fn send_now(socket: RawFd, bytes: &[u8]) -> io::Result<usize>
    ensures { WritesAtMost result bytes.now }
{
    let sent = unsafe { send(socket, bytes, MSG_DONTWAIT | MSG_NOSIGNAL) };
    if sent < 0 {
        return Err(last_error());
    }
    Ok((sent as usize).min(bytes.len()))
}

/// A destination of bytes. No flag of a shared open file is changed.
#[derive(Drop)]
pub enum Output {
    Socket(UnixStream),
    /// A pipe, opened again, so that only its own writes do not block.
    Pipe(File),
    /// A file, a terminal, or a pipe that can't be opened. It is polled before each write.
    Other(Stdout),
}

/// Standard output, if it is a socket.
fn socket_output(rt: &HostRuntime) -> Option<UnixStream> {
    let output = rt.stdout().as_fd().try_clone_to_owned().ok()?;
    let socket = UnixStream::from(output);
    // Only sockets have this option.
    if socket.write_timeout().is_err() {
        return None;
    }
    Some(socket)
}

/// Standard output, if it is a pipe with a reader. Opening one without a reader would block.
fn pipe_output(rt: &HostRuntime) -> Option<File> {
    let found = fs::metadata(rt, OUTPUT).ok()?;
    if !found.file_type().is_fifo() || shown(rt.stdout().as_raw_fd(), 0) & POLLERR != 0 {
        return None;
    }
    let pipe = OpenOptions::new().write(true).open(rt, OUTPUT).ok()?;
    if os::set_nonblocking(pipe.as_raw_fd(), true) < 0 {
        return None;
    }
    Some(pipe)
}

impl Output {
    /// Standard output.
    pub(crate) fn standard(rt: &HostRuntime) -> Output {
        if let Some(socket) = socket_output(rt) {
            return Output::Socket(socket);
        }
        match pipe_output(rt) {
            Some(pipe) => Output::Pipe(pipe),
            None => Output::Other(rt.stdout()),
        }
    }
}

impl Outlet for Output {
    ghost use Rattle.std.specs.Prelude.{None};

    // A descriptor's bytes are not known.
    ghost outgoing = { λ _. None };

    fn write_once(&mut self, bytes: &[u8]) -> io::Result<usize> {
        match self {
            Output::Socket(socket) => send_now(socket.as_raw_fd(), bytes),
            Output::Pipe(pipe) => pipe.write(bytes),
            Output::Other(output) => {
                if shown(output.as_raw_fd(), 0) == 0 {
                    return Err(ErrorKind::WouldBlock.into());
                }
                output.write(&bytes[..bytes.len().min(PIPE_ROOM)])
            }
        }
    }

    fn fd(&self) -> RawFd {
        match self {
            Output::Socket(socket) => socket.as_raw_fd(),
            Output::Pipe(pipe) => pipe.as_raw_fd(),
            Output::Other(output) => output.as_raw_fd(),
        }
    }
}
