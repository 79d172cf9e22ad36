//! Lines that wait to be written.

ghost use Rattle.std.specs.Prelude.{◌≡◌, ◌≤◌, true, [], length, IfOk, string_bytes};
ghost use Rattle.sf_log.specs.Waiting.{WaitingView, is_cut_after, no_lines, line_after, loses, LosesAll, AddsLine, ForgetsFirst, WritesLines};

use crate::line::LogLine;
use std::alloc::{AllocError, Global};
use std::io::{self, ErrorKind, Write};
use std::marker::Model;

/// The most bytes that wait.
pub const MOST_WAITING: usize = 1 << 20;

/// Lines that wait to be written to a log, in order. A line for which there is no room, or which
/// can't be written, is lost and counted. If a line was written in part, the next one begins after
/// a newline.
#[derive(Drop)]
pub struct WaitingLines {
    alloc: Global,
    waiting: Vec<u8>,
    /// What was written ends within a line.
    is_cut: bool,
    lost: u64,
}

impl Model for WaitingLines {
    ghost Value = { WaitingView };

    ghost view = { λ w. record { waiting = w.waiting.items; cut = w.is_cut; lost = w.lost } };
}

/// The text of a line, after a newline if the last one was cut.
fn text_of(alloc: Global, is_cut: bool, line: &LogLine<'_>) -> Result<String, AllocError>
    ensures { IfOk result (λ text. string_bytes text ≡ line_after is_cut line.now) }
{
    if is_cut {
        format!(in alloc; "\n{line}\n")
    } else {
        format!(in alloc; "{line}\n")
    }
}

/// Whether what was written ends within a line, once these bytes are written too.
fn is_cut_after(is_cut: bool, bytes: &[u8]) -> bool
    ensures { result ≡ is_cut_after is_cut bytes.now }
{
    if bytes.is_empty() {
        return is_cut;
    }
    bytes[bytes.len() - 1] != b'\n'
}

/// How many lines end in these bytes.
fn count_lines(bytes: &[u8]) -> u64 {
    let mut count: u64 = 0;
    for byte in bytes {
        if *byte == b'\n' {
            count = count.saturating_add(1);
        }
    }
    count
}

impl WaitingLines {
    /// No lines yet.
    pub fn new(alloc: Global) -> WaitingLines
        ensures { result ≡ no_lines }
    {
        WaitingLines {
            alloc,
            waiting: Vec::new(alloc),
            is_cut: false,
            lost: 0,
        }
    }

    /// Whether nothing waits.
    pub fn is_empty(&self) -> bool
        ensures { result ≡ true → self.now.waiting ≡ [] }
    {
        self.waiting.is_empty()
    }

    /// How many lines were lost since the last time.
    pub fn take_lost(&mut self) -> u64
        ensures lost { result ≡ self.old.lost }
        ensures none { self.new ≡ record self.old { lost = 0 } }
    {
        let lost = self.lost;
        self.lost = 0;
        lost
    }

    fn lose(&mut self, count: u64)
        ensures { self.new ≡ loses count self.old }
    {
        self.lost = self.lost.saturating_add(count);
    }

    /// Adds a line, or counts it as lost.
    pub fn add(&mut self, line: &LogLine<'_>)
        ensures { AddsLine line.now self.old self.new }
    {
        let is_cut = self.is_cut && self.waiting.is_empty();
        let Ok(text) = text_of(self.alloc, is_cut, line) else {
            self.lose(1);
            return;
        };
        let room = MOST_WAITING.saturating_sub(self.waiting.len());
        if text.len() > room || self.waiting.extend_from_slice(text.as_bytes()).is_err() {
            self.lose(1);
        }
    }

    /// Loses all that waits.
    pub fn give_up(&mut self)
        ensures { LosesAll self.old self.new }
    {
        let count = count_lines(&self.waiting);
        self.waiting.clear();
        self.lose(count);
    }

    /// Forgets the first bytes that wait, which were written.
    fn written(&mut self, n: usize)
        requires { n ≤ length self.old.waiting }
        ensures { ForgetsFirst n self.old self.new }
    {
        self.is_cut = is_cut_after(self.is_cut, &self.waiting[..n]);
        let mut rest = Vec::new(self.alloc);
        let Ok(()) = rest.extend_from_slice(&self.waiting[n..]) else {
            let count = count_lines(&self.waiting[n..]);
            self.lose(count);
            self.waiting.clear();
            return;
        };
        self.waiting = rest;
    }

    /// Writes some of what waits, and returns whether it did: if the output would block, all waits
    /// on. After another error it is lost.
    pub fn write_some<W: Write>(&mut self, output: &mut W) -> io::Result<bool>
        ensures { WritesLines self.old self.new (W.contents output.old) (W.contents output.new) }
    {
        if self.waiting.is_empty() {
            return Ok(false);
        }
        match output.write(&self.waiting) {
            Ok(0) => {
                self.give_up();
                Err(ErrorKind::WriteZero.into())
            }
            Ok(n) => {
                self.written(n);
                Ok(true)
            }
            Err(error) => match error.kind() {
                ErrorKind::WouldBlock | ErrorKind::Interrupted => Ok(false),
                _ => {
                    self.give_up();
                    Err(error)
                }
            },
        }
    }
}
