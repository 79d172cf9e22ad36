//! The stream of a connection.

ghost use Rattle.std.specs.Prelude.{◌≡◌, ◌≤◌, OnOk, OnErr};
ghost use Rattle.sf_line.specs.Lines.{Rose};

use crate::worker_link::{PollCount, WorkerLinks};
use sf_connection::Stream;
use sf_line::LineFault;
use std::io::{self, ErrorKind, Read, Write};
use std::net::Shutdown;
use std::os::fd::AsRawFd;
use std::os::unix::net::UnixStream;
use std::sync::atomic::{AtomicUsize, Ordering};

/// How often a call that a signal interrupts is retried.
const TRIES_INTERRUPTED: u32 = 1024;

/// A non-blocking Unix socket, which one worker reads and writes. Its poller reports changes only.
/// So the worker reads and writes until the socket would block, and the poller reports the next
/// change.
///
/// - A read that returns fewer bytes than fit has emptied the socket. The next read is then not
///   made, unless the worker has polled meanwhile: the poller will report what comes. If a peer
///   sends a descriptor along, a read ends behind its bytes, so what follows may wait for more.
/// - The poller reports that the peer sends no more once, maybe before the bytes that it sent are
///   read. So after such a report each stream reads until the socket itself would block.
/// - The poller reports that the socket accepts bytes only after a write would have blocked. Else
///   it would report each reply that a client reads.
///
/// If there is an idle timeout, the poller reports each stream once a second. One from which
/// nothing was read, and to which nothing was written, for so long is shut down for reading. So its
/// session ends as if the client had ended it. If replies can't be written, it has failed. So do all
/// sessions end when the server ends.
#[derive(Drop)]
pub struct SocketStream<'a> {
    socket: UnixStream,
    links: &'a WorkerLinks,
    // The worker that has it, and the key under which it is watched.
    worker: AtomicUsize,
    key: AtomicUsize,
    failures: u64,
    // When bytes were last read or written, in the workers' seconds.
    active_at: u64,
    // When the last read emptied the socket.
    emptied_at: Option<PollCount>,
    // The hang-ups that were reported before the socket last would have blocked.
    hang_ups: u64,
    // The last write would have blocked.
    is_full: bool,
    // It is watched for writing.
    is_writing: bool,
}

impl<'a> SocketStream<'a> {
    /// A stream over a socket that does not block, for one of these workers.
    pub(crate) fn new(socket: UnixStream, links: &'a WorkerLinks) -> SocketStream<'a> {
        SocketStream {
            socket,
            links,
            worker: AtomicUsize::new(0),
            key: AtomicUsize::new(0),
            failures: 0,
            active_at: links.seconds(),
            emptied_at: None,
            hang_ups: 0,
            is_full: false,
            is_writing: false,
        }
    }

    /// Gives it to a worker, whose poller reports it under a key.
    pub(crate) fn watch(&self, worker: usize, key: usize) -> io::Result<()> {
        self.worker.store(worker, Ordering::SeqCst);
        self.key.store(key, Ordering::SeqCst);
        self.links.watch(worker, self.socket.as_raw_fd(), key)
    }

    /// How often its worker has polled.
    fn poll_count(&self) -> PollCount {
        self.links.poll_count(self.worker.load(Ordering::SeqCst))
    }

    /// Counts a failure.
    fn fail(&mut self) -> LineFault
        ensures rose { Rose self.old.failures self.new.failures }
        ensures more { self.old.failures ≤ self.new.failures }
    {
        self.failures = self.failures.saturating_add(1);
        LineFault
    }

    /// Changes what the poller reports.
    fn watch_writing(&mut self, writes: bool) -> io::Result<()>
        ensures { self.new.failures ≡ self.old.failures }
    {
        let worker = self.worker.load(Ordering::SeqCst);
        let key = self.key.load(Ordering::SeqCst);
        let fd = self.socket.as_raw_fd();
        self.links.watch_again(worker, fd, key, writes)?;
        self.is_writing = writes;
        Ok(())
    }

    /// Whether the last read has emptied the socket, and the poller will report what came since.
    fn is_empty(&self) -> bool {
        let now = self.poll_count();
        self.emptied_at == Some(now) && self.hang_ups == now.hang_ups
    }

    /// Whether the client has done nothing for too long.
    fn is_idle(&self) -> bool {
        self.links.is_idle_since(self.active_at)
    }

    /// Some bytes were read.
    fn note_read(&mut self, has_emptied: bool)
        ensures { self.new.failures ≡ self.old.failures }
    {
        self.active_at = self.links.seconds();
        self.emptied_at = if has_emptied {
            Some(self.poll_count())
        } else {
            None
        };
    }

    /// A read blocks. If no output is pending, writing is no longer watched.
    fn note_blocked_read(&mut self)
        ensures { self.new.failures ≡ self.old.failures }
    {
        self.emptied_at = None;
        if self.is_idle() {
            // What is read then is the end of the input, which the poller reports.
            let _ = self.socket.shutdown(Shutdown::Read);
        }
        if self.is_writing && !self.is_full {
            // If it fails, the poller reports more than necessary.
            let _ = self.watch_writing(false);
        }
    }

    /// A write would have blocked. Its end is then watched.
    fn note_blocked_write(&mut self) -> Result<(), LineFault>
        ensures more { self.old.failures ≤ self.new.failures }
        ensures same { OnOk result (self.new.failures ≡ self.old.failures) }
        ensures fault { OnErr result (Rose self.old.failures self.new.failures) }
    {
        if self.is_idle() || self.links.are_ending() {
            return Err(self.fail());
        }
        self.is_full = true;
        if self.is_writing {
            return Ok(());
        }
        match self.watch_writing(true) {
            Ok(()) => Ok(()),
            Err(_) => Err(self.fail()),
        }
    }
}

impl Stream for SocketStream<'_> {
    ghost use Rattle.std.specs.Prelude.{None};

    // A descriptor's bytes are not known.
    ghost view = { λ s. record { incoming = None; outgoing = None; failed = s.failures } };

    fn try_read(&mut self, buffer: &mut [u8]) -> Result<Option<usize>, LineFault> {
        if self.links.are_ending() {
            return Ok(Some(0));
        }
        if self.is_empty() {
            self.note_blocked_read();
            return Ok(None);
        }
        for _ in 0..TRIES_INTERRUPTED {
            match self.socket.read(buffer) {
                Ok(n) => {
                    self.note_read(n < buffer.len());
                    return Ok(Some(n));
                }
                Err(error) => match error.kind() {
                    ErrorKind::WouldBlock => {
                        self.hang_ups = self.poll_count().hang_ups;
                        self.note_blocked_read();
                        return Ok(None);
                    }
                    ErrorKind::Interrupted => {}
                    _ => return Err(self.fail()),
                },
            }
        }
        Err(self.fail())
    }

    fn try_write(&mut self, bytes: &[u8]) -> Result<Option<usize>, LineFault> {
        for _ in 0..TRIES_INTERRUPTED {
            match self.socket.write(bytes) {
                Ok(n) if n > 0 || bytes.is_empty() => {
                    self.is_full = false;
                    self.active_at = self.links.seconds();
                    return Ok(Some(n));
                }
                Ok(_) => return Err(self.fail()),
                Err(error) => match error.kind() {
                    ErrorKind::WouldBlock => {
                        self.note_blocked_write()?;
                        return Ok(None);
                    }
                    ErrorKind::Interrupted => {}
                    _ => return Err(self.fail()),
                },
            }
        }
        Err(self.fail())
    }
}
