//! Messages on standard error.

use sf_folder::shown;
use std::io::{self, Write};

/// Prints `sftpd: WHAT: PATH: REASON`, with the system's text of the error. Bytes of the path that
/// are not printable ASCII are escaped.
pub fn report(rt: &HostRuntime, what: &str, path: &str, error: &io::Error) {
    let Ok(path) = shown(rt.alloc(), path.as_bytes()) else {
        let _ = report_out_of_memory(rt);
        return;
    };
    let mut buffer = [0u8; 128];
    // If the message can't be written, the exit status still reports the failure.
    let _ = match error.raw_os_error() {
        Some(code) => {
            let len = os::error_text(code, &mut buffer);
            let reason = str::from_utf8(&buffer[..len]).unwrap_or("error");
            writeln!(rt.stderr(), "sftpd: {what}: {path}: {reason}")
        }
        None => writeln!(rt.stderr(), "sftpd: {what}: {path}: {error}"),
    };
}

/// Prints how many lines of a log were lost.
pub fn report_lost(rt: &HostRuntime, path: &str, lost: u64) {
    match shown(rt.alloc(), path.as_bytes()) {
        Ok(path) => {
            let _ = writeln!(
                rt.stderr(),
                "sftpd: lines of the log were lost: {path}: {lost}"
            );
        }
        Err(_) => {
            let _ = report_out_of_memory(rt);
        }
    }
}

/// Reports that memory ran out.
pub fn report_out_of_memory(rt: &HostRuntime) -> io::Result<()> {
    rt.eprintln("sftpd: out of memory")
}
