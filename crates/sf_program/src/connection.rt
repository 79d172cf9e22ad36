//! The command `sftpd connect`.

ghost use Rattle.std.specs.Prelude.{◌≢◌, ℕ, List, OnOk, IfErr, IfSome};
ghost use Rattle.std.specs.IoError.{error_kind};
ghost use Rattle.std.specs.Io.KnownBytes.{Appends, Consumes, IsAtEnd};
ghost use Rattle.sf_program.specs.Carrying.{TakesFront};

use crate::output::asked;
use libc::net::{POLLIN, poll};
use std::alloc::Global;
use std::io::{self, ErrorKind, Read, Stdin, Write};
use std::net::Shutdown;
use std::os::fd::{AsFd, AsRawFd};
use std::os::unix::net::UnixStream;
use std::sync::Wait;
use std::thread::{self, Threads};

/// The size of the copy buffer, in bytes.
pub const PIECE: usize = 1 << 18;

/// Writes all bytes. After an error, a prefix of them is written.
fn write_all<W: Write>(to: &mut W, bytes: &[u8]) -> io::Result<()>
    ensures all { OnOk result (Appends (W.contents to.old) (W.contents to.new) bytes.now) }
    ensures retried { IfErr result (λ e. error_kind e ≢ ErrorKind.Interrupted) }
    ensures front { TakesFront (W.contents to.old) (W.contents to.new) bytes.now }
{
    let mut rest = bytes;
    for _ in 0..u64::MAX {
        if rest.is_empty() {
            return Ok(());
        }
        match to.write(rest) {
            Ok(0) => return Err(ErrorKind::WriteZero.into()),
            Ok(n) => rest = &rest[n..],
            Err(error) if error.kind() == ErrorKind::Interrupted => {}
            Err(error) => return Err(error),
        }
    }
    Err(ErrorKind::TimedOut.into())
}

/// Copies from a reader to a writer until the end of the input. Retries calls that a signal
/// interrupts. After an error, the writer has a prefix of what was read.
pub fn carry<R: Read, W: Write>(alloc: Global, from: &mut R, to: &mut W) -> io::Result<()>
    ensures all { OnOk result (IfSome (R.remaining from.old)
        (Appends (W.contents to.old) (W.contents to.new))) }
    ensures ended { OnOk result (IsAtEnd (R.remaining from.new)) }
    ensures retried { IfErr result (λ e. error_kind e ≢ ErrorKind.Interrupted) }
    ensures front { (given : List ℕ) × Consumes (R.remaining from.old) (R.remaining from.new) given
        × TakesFront (W.contents to.old) (W.contents to.new) given }
{
    let mut buffer = vec![in alloc; 0u8; PIECE]?;
    let piece = buffer.as_mut_slice();
    for _ in 0..u64::MAX {
        match from.read(piece) {
            Ok(0) => return Ok(()),
            Ok(n) => write_all(to, &piece[..n])?,
            Err(error) if error.kind() == ErrorKind::Interrupted => {}
            Err(error) => return Err(error),
        }
    }
    Err(ErrorKind::TimedOut.into())
}

/// Standard input, which ends early if the server closes the socket.
#[derive(Drop)]
struct Input<'a> {
    input: Stdin,
    stream: &'a UnixStream,
}

impl Read for Input<'_> {
    ghost use Rattle.std.specs.Prelude.{None};

    // A descriptor's bytes are not known.
    ghost remaining = { λ _. None };

    fn read(&mut self, buffer: &mut [u8]) -> io::Result<usize> {
        let mut both = [
            asked(self.input.as_raw_fd(), POLLIN),
            asked(self.stream.as_raw_fd(), 0),
        ];
        if poll(&mut both, -1) < 0 {
            return Err(io::Error::from_raw_os_error(os::errno()));
        }
        if both[1].revents != 0 {
            return Ok(0);
        }
        self.input.read(buffer)
    }
}

/// Copies standard input to the socket, and shuts the socket down for writing at the end.
fn send(rt: &HostRuntime, stream: &UnixStream) -> io::Result<()> {
    let mut input = Input {
        input: rt.stdin(),
        stream,
    };
    let sent = carry(rt.alloc(), &mut input, &mut &*stream);
    let shut = stream.shutdown(Shutdown::Write);
    sent?;
    shut
}

/// Shuts standard output down if it is a socket, as for OpenSSH's `sftp`.
fn end_output(rt: &HostRuntime) {
    if let Ok(output) = rt.stdout().as_fd().try_clone_to_owned() {
        let _ = UnixStream::from(output).shutdown(Shutdown::Write);
    }
}

/// Copies the server's bytes to standard output. At the end it shuts the socket down, so that
/// `send` ends too, also if it waits for standard input.
fn receive(rt: &HostRuntime, stream: &UnixStream) -> io::Result<()> {
    let received = carry(rt.alloc(), &mut &*stream, &mut rt.stdout());
    end_output(rt);
    let _ = stream.shutdown(Shutdown::Both);
    received
}

/// Copies standard input and output to and from a socket, until the server closes it.
pub fn connect<T: Threads + Wait>(
    rt: &HostRuntime,
    threads: &T,
    stream: &UnixStream,
) -> io::Result<()> {
    thread::scope(thread::scope_env(), threads, |scope| {
        let Ok(sending) = scope.spawn(|| send(rt, stream)) else {
            return Err(ErrorKind::OutOfMemory.into());
        };
        let received = receive(rt, stream);
        sending.join(threads)?;
        received
    })
}
