//! Messages of a load on standard error, one line each.

use std::alloc::{AllocError, Global};
use std::io::{IsTerminal, Write};
use std::time::Instant;

/// The last octal digit of a number.
fn octal(number: u8) -> char {
    char::from(b'0' + number % 8)
}

/// A backslash, and a byte as three octal digits.
fn push_octal(text: &mut String, byte: u8) -> Result<(), AllocError> {
    text.push('\\')?;
    text.push(octal(byte / 64))?;
    text.push(octal(byte / 8))?;
    text.push(octal(byte))?;
    Ok(())
}

/// The text of a path. A byte that isn't printable ASCII becomes a backslash and three octal
/// digits, and a backslash becomes two.
pub fn shown(alloc: Global, path: &[u8]) -> Result<String, AllocError> {
    let mut text = String::new(alloc);
    for byte in path {
        match *byte {
            b'\\' => text.push_str("\\\\")?,
            b' '..=b'~' => text.push(char::from(*byte))?,
            _ => push_octal(&mut text, *byte)?,
        }
    }
    Ok(text)
}

/// Writes a line about a path.
fn tell(rt: &HostRuntime, what: &str, path: &[u8], why: &str) {
    // If standard error can't be written, the exit status still reports the error.
    if let Ok(text) = shown(rt.alloc(), path) {
        let _ = writeln!(rt.stderr(), "sftpd: {what}: {text}: {why}");
    }
}

/// Reports something that is left out.
pub(crate) fn tell_left_out(rt: &HostRuntime, path: &[u8], kind: &str) {
    tell(rt, "left out", path, kind);
}

/// Reports something that changed while it was read.
pub(crate) fn tell_changed(rt: &HostRuntime, path: &[u8], how: &str) {
    tell(rt, "changed while it was read", path, how);
}

/// Reports something that can't be read, with the system's error.
pub(crate) fn tell_unreadable(rt: &HostRuntime, path: &[u8], error: i32) {
    let mut buffer = [0u8; 128];
    let len = os::error_text(error, &mut buffer);
    let why = str::from_utf8(&buffer[..len]).unwrap_or("error");
    tell(rt, "cannot read", path, why);
}

/// The progress of a load, which is written once a second if standard error is a terminal.
#[derive(Drop)]
pub(crate) struct Progress {
    last: Option<Instant>,
    objects: u64,
    bytes: u64,
}

impl Progress {
    /// No progress yet.
    pub(crate) fn begin(rt: &HostRuntime) -> Progress {
        let last = if rt.stderr().is_terminal() {
            Instant::now(rt).ok()
        } else {
            None
        };
        Progress {
            last,
            objects: 0,
            bytes: 0,
        }
    }

    /// Counts one more file or directory.
    pub(crate) fn add_object(&mut self) {
        self.objects = self.objects.saturating_add(1);
    }

    /// Counts `count` more bytes.
    pub(crate) fn add_bytes(&mut self, count: usize) {
        self.bytes = self.bytes.saturating_add(count as u64);
    }

    /// Writes the progress, if the last time was at least a second ago.
    pub(crate) fn tell(&mut self, rt: &HostRuntime) {
        let Some(last) = self.last else {
            return;
        };
        let Ok(now) = Instant::now(rt) else {
            return;
        };
        if now.saturating_duration_since(last).as_secs() == 0 {
            return;
        }
        self.last = Some(now);
        let Progress { objects, bytes, .. } = self;
        let _ = writeln!(
            rt.stderr(),
            "sftpd: loading: {objects} files and directories, {bytes} bytes"
        );
    }
}
