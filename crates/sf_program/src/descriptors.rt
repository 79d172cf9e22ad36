//! Standard streams, read and written without blocking if `poll` says so.

ghost use Rattle.std.specs.Prelude.{◌≡◌, ℕ, ◌<◌, ◌≤◌, List, length, take, Option, IfOk, IfSome, IfNone, OnErr};
ghost use Rattle.std.specs.Io.KnownBytes.{IsAtEnd, prepend_known, append_known};

use crate::output::{Output, asked, shown};
use libc::net::{POLLIN, POLLOUT, poll};
use sf_connection::{Stream, StreamCounts, WaitingStream, Wants};
use sf_line::LineFault;
use std::io::{self, ErrorKind, Read, Stdin};
use std::os::fd::{AsRawFd, RawFd};

/// How often a call that a signal interrupts is retried.
const TRIES_INTERRUPTED: u32 = 1024;

/// How long the server waits for the client to read before it reads ahead. Most clients read at
/// once, and waiting costs less than reading ahead.
const PATIENCE_MILLISECONDS: i32 = 10;

/// A source of bytes, one system call per read.
pub trait Inlet {
    /// The bytes that are still to be read, if they are known.
    ghost incoming: { Self → Option (List ℕ) };

    /// One read. It blocks until there are bytes, and a signal may interrupt it.
    fn read_once(&mut self, buffer: &mut [u8]) -> io::Result<usize>
        ensures within { IfOk result (λ n. n ≤ length buffer.new) }
        ensures taken { IfOk result (λ n. incoming self.old
            ≡ prepend_known (take n buffer.new) (incoming self.new)) }
        ensures ended { IfOk result (λ n. n ≡ 0 → 0 < length buffer.new
            → IsAtEnd (incoming self.new)) }
        ensures err { OnErr result (incoming self.new ≡ incoming self.old) };

    /// The descriptor to poll for reading.
    fn fd(&self) -> RawFd;
}

/// A destination of bytes, one system call per write.
pub trait Outlet {
    /// The bytes that were written, if they are known.
    ghost outgoing: { Self → Option (List ℕ) };

    /// Writes some of the bytes. It does not block, and a signal may interrupt it.
    fn write_once(&mut self, bytes: &[u8]) -> io::Result<usize>
        ensures within { IfOk result (λ n. n ≤ length bytes.now) }
        ensures added { IfOk result (λ n. outgoing self.new
            ≡ append_known (outgoing self.old) (take n bytes.now)) }
        ensures err { OnErr result (outgoing self.new ≡ outgoing self.old) };

    /// The descriptor to poll for writing.
    fn fd(&self) -> RawFd;
}

impl Inlet for Stdin {
    ghost use Rattle.std.specs.Prelude.{None};

    // A descriptor's bytes are not known.
    ghost incoming = { λ _. None };

    fn read_once(&mut self, buffer: &mut [u8]) -> io::Result<usize> {
        self.read(buffer)
    }

    fn fd(&self) -> RawFd {
        self.as_raw_fd()
    }
}

/// A source and a destination of bytes.
#[derive(Drop)]
pub struct Descriptors<I, O> {
    input: I,
    output: O,
    /// The output accepted only a part of the last write, or was not ready.
    is_full: bool,
    /// It has not waited for the output alone since the last write.
    is_patient: bool,
    /// The next read would not block, or may block since nothing else is to be done.
    may_read: bool,
    counts: StreamCounts,
}

impl<I, O> Descriptors<I, O> {
    ghost use Rattle.sf_program.specs.Descriptors.{input_of, output_of};

    /// Both ends, unused so far.
    pub fn new(input: I, output: O) -> Descriptors<I, O>
        ensures input { input_of result ≡ input }
        ensures output { output_of result ≡ output }
    {
        Descriptors {
            input,
            output,
            is_full: false,
            is_patient: true,
            may_read: false,
            counts: StreamCounts::new(),
        }
    }
}

impl Descriptors<Stdin, Output> {
    /// Standard input and output.
    pub fn standard(rt: &HostRuntime) -> Descriptors<Stdin, Output> {
        Descriptors::new(rt.stdin(), Output::standard(rt))
    }
}

impl<I: Inlet, O: Outlet> Descriptors<I, O> {
    ghost use Rattle.sf_program.specs.Descriptors.{input_of, output_of, descriptor_counts};

    /// Reads once, or again if a signal interrupts it.
    fn read_some(&mut self, buffer: &mut [u8]) -> Result<usize, LineFault>
        ensures within { IfOk result (λ n. n ≤ length buffer.new) }
        ensures taken { IfOk result (λ n. I.incoming (input_of self.old)
            ≡ prepend_known (take n buffer.new) (I.incoming (input_of self.new))) }
        ensures ended { IfOk result (λ n. n ≡ 0 → 0 < length buffer.new
            → IsAtEnd (I.incoming (input_of self.new))) }
        ensures err { OnErr result (
            I.incoming (input_of self.new) ≡ I.incoming (input_of self.old)) }
        ensures output { output_of self.new ≡ output_of self.old }
        ensures counts { descriptor_counts self.new ≡ descriptor_counts self.old }
    {
        for _ in 0..TRIES_INTERRUPTED {
            match self.input.read_once(buffer) {
                Ok(n) => return Ok(n),
                Err(error) if error.kind() == ErrorKind::Interrupted => {}
                Err(_) => return Err(LineFault),
            }
        }
        Err(LineFault)
    }

    /// Writes once, or again if a signal interrupts it. Returns `None` if it would block.
    fn write_some(&mut self, bytes: &[u8]) -> Result<Option<usize>, LineFault>
        ensures within { IfOk result (λ wrote. IfSome wrote (λ n. n ≤ length bytes.now)) }
        ensures some { 0 < length bytes.now → IfOk result (λ wrote. IfSome wrote (λ n. 0 < n)) }
        ensures added { IfOk result (λ wrote. IfSome wrote (λ n. O.outgoing (output_of self.new)
            ≡ append_known (O.outgoing (output_of self.old)) (take n bytes.now))) }
        ensures none { IfOk result (λ wrote. IfNone wrote (
            O.outgoing (output_of self.new) ≡ O.outgoing (output_of self.old))) }
        ensures err { OnErr result (
            O.outgoing (output_of self.new) ≡ O.outgoing (output_of self.old)) }
        ensures input { input_of self.new ≡ input_of self.old }
        ensures counts { descriptor_counts self.new ≡ descriptor_counts self.old }
    {
        if self.is_full {
            return Ok(None);
        }
        for _ in 0..TRIES_INTERRUPTED {
            match self.output.write_once(bytes) {
                Ok(n) if n > 0 || bytes.is_empty() => {
                    self.is_full = n < bytes.len();
                    self.is_patient = true;
                    return Ok(Some(n));
                }
                Ok(_) => return Err(LineFault),
                Err(error) => match error.kind() {
                    ErrorKind::WouldBlock => return Ok(None),
                    ErrorKind::Interrupted => {}
                    _ => return Err(LineFault),
                },
            }
        }
        Err(LineFault)
    }

    /// Waits until the output is ready, or also the input if it `reads`.
    fn poll_both(&mut self, reads: bool) -> Result<(), LineFault>
        ensures input { input_of self.new ≡ input_of self.old }
        ensures output { output_of self.new ≡ output_of self.old }
        ensures counts { descriptor_counts self.new ≡ descriptor_counts self.old }
    {
        let output = self.output.fd();
        if reads && self.is_patient {
            self.is_patient = false;
            if shown(output, PATIENCE_MILLISECONDS) != 0 {
                self.is_full = false;
                return Ok(());
            }
        }
        let input = if reads { self.input.fd() } else { -1 };
        let mut both = [asked(output, POLLOUT), asked(input, POLLIN)];
        for _ in 0..TRIES_INTERRUPTED {
            if poll(&mut both, -1) >= 0 {
                self.is_full = reads && both[0].revents == 0;
                self.may_read = both[1].revents != 0;
                return Ok(());
            }
            if os::errno() != libc::EINTR {
                return Err(LineFault);
            }
        }
        Err(LineFault)
    }

    /// Waits for what a connection wants.
    fn poll_for(&mut self, wants: Wants) -> Result<(), LineFault>
        ensures input { input_of self.new ≡ input_of self.old }
        ensures output { output_of self.new ≡ output_of self.old }
        ensures counts { descriptor_counts self.new ≡ descriptor_counts self.old }
    {
        match wants {
            Wants::Read => {
                // Nothing else is to be done, so the next read may block.
                self.may_read = true;
                Ok(())
            }
            Wants::Write => self.poll_both(false),
            Wants::Both => self.poll_both(true),
            Wants::Again | Wants::Ended(_) => Ok(()),
        }
    }
}

impl<I: Inlet, O: Outlet> Stream for Descriptors<I, O> {
    ghost use Rattle.std.specs.Prelude.{None};
    ghost use Rattle.sf_program.specs.Descriptors.{input_of, output_of, descriptor_counts};

    ghost view = { λ d. record {
      incoming = I.incoming (input_of d);
      outgoing = O.outgoing (output_of d);
      failed = (descriptor_counts d).failures;
    } };

    ghost waits = { λ d. record { made = None; left = (descriptor_counts d).waits_left } };

    #[tactic(auto, using(crate::proofs::Known::read_known, crate::proofs::Known::same_known))]
    fn try_read(&mut self, buffer: &mut [u8]) -> Result<Option<usize>, LineFault> {
        if !self.may_read {
            return Ok(None);
        }
        self.may_read = false;
        match self.read_some(buffer) {
            Ok(n) => Ok(Some(n)),
            Err(_) => Err(self.counts.fail()),
        }
    }

    #[tactic(auto, using(crate::proofs::Known::wrote_known, crate::proofs::Known::same_known))]
    fn try_write(&mut self, bytes: &[u8]) -> Result<Option<usize>, LineFault> {
        match self.write_some(bytes) {
            Ok(wrote) => Ok(wrote),
            Err(_) => Err(self.counts.fail()),
        }
    }
}

impl<I: Inlet, O: Outlet> WaitingStream for Descriptors<I, O> {
    fn wait(&mut self, wants: Wants) -> Result<(), LineFault> {
        match self.poll_for(wants) {
            Ok(()) => self.counts.wait(),
            Err(_) => Err(self.counts.fail()),
        }
    }
}
