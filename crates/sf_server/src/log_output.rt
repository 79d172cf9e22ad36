//! Where a log goes, without blocking.

use libc::ELOOP;
use sf_program::output::shown;
use std::fs::{self, File, Metadata, OpenOptions};
use std::io::{self, ErrorKind, Stderr, Write};
use std::os::fd::{AsRawFd, RawFd};
use std::os::unix::fs::{FileTypeExt, MetadataExt};

/// How often a file is opened that is replaced meanwhile.
const TRIES: u32 = 16;

/// How many bytes a pipe that is ready accepts without blocking (PIPE_BUF on Linux).
const PIPE_ROOM: usize = 4096;

/// Where lines go.
#[derive(Drop)]
pub(crate) enum LogOutput {
    /// A file, at its end.
    File(File),
    /// Standard error. It is polled before each write.
    Errors(Stderr),
}

fn loop_error() -> io::Error {
    io::Error::from_raw_os_error(ELOOP)
}

/// A pipe, also without a reader, for writes that do not block.
fn open_pipe(rt: &HostRuntime, path: &str) -> io::Result<File> {
    // Opening it for writing alone would block if there is no reader.
    let _reader = OpenOptions::new().read(true).append(true).open(rt, path)?;
    let pipe = OpenOptions::new().append(true).open(rt, path)?;
    if os::set_nonblocking(pipe.as_raw_fd(), true) < 0 {
        return Err(io::Error::from_raw_os_error(os::errno()));
    }
    Ok(pipe)
}

/// Opens the file that was found at the path. It fails if another one is there now, which a
/// symbolic link may lead to.
fn open_found(rt: &HostRuntime, path: &str, found: &Metadata) -> io::Result<File> {
    let file = if found.file_type().is_fifo() {
        open_pipe(rt, path)?
    } else {
        OpenOptions::new().append(true).open(rt, path)?
    };
    let open = file.metadata()?;
    if open.dev() != found.dev() || open.ino() != found.ino() {
        return Err(loop_error());
    }
    Ok(file)
}

/// Opens the file at a path, or makes one. A symbolic link isn't followed.
fn open_file(rt: &HostRuntime, path: &str) -> io::Result<File> {
    for _ in 0..TRIES {
        let made = match fs::symlink_metadata(rt, path) {
            Ok(found) if found.file_type().is_symlink() => return Err(loop_error()),
            Ok(found) => open_found(rt, path, &found),
            Err(error) if error.kind() == ErrorKind::NotFound => {
                OpenOptions::new()
                    .append(true)
                    .create_new(true)
                    .open(rt, path)
            }
            Err(error) => return Err(error),
        };
        match made {
            // Another program has made one meanwhile.
            Err(error) if error.kind() == ErrorKind::AlreadyExists => {}
            made => return made,
        }
    }
    Err(loop_error())
}

impl LogOutput {
    /// A file at a path, or standard error if the path is `-`.
    pub(crate) fn open(rt: &HostRuntime, path: &str) -> io::Result<LogOutput> {
        if path == "-" {
            return Ok(LogOutput::Errors(rt.stderr()));
        }
        Ok(LogOutput::File(open_file(rt, path)?))
    }

    fn fd(&self) -> RawFd {
        match self {
            LogOutput::File(file) => file.as_raw_fd(),
            LogOutput::Errors(errors) => errors.as_raw_fd(),
        }
    }

    /// Whether it is ready within some milliseconds.
    pub(crate) fn is_ready(&self, milliseconds: i32) -> bool {
        shown(self.fd(), milliseconds) != 0
    }
}

impl Write for LogOutput {
    fn write(&mut self, bytes: &[u8]) -> io::Result<usize> {
        if !self.is_ready(0) {
            return Err(ErrorKind::WouldBlock.into());
        }
        match self {
            LogOutput::File(file) => file.write(bytes),
            LogOutput::Errors(errors) => errors.write(&bytes[..bytes.len().min(PIPE_ROOM)]),
        }
    }

    fn flush(&mut self) -> io::Result<()> {
        Ok(())
    }
}
