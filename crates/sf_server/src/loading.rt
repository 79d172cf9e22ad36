//! Loads a local folder into the server's tree before the first client is served.

use crate::accepting::Taker;
use sf_line::StreamLine;
use sf_loading::LineServer;
use sf_program::loading::{NotLoaded, load_folder};
use sf_program::reporting::report;
use std::io;
use std::os::unix::net::UnixStream;

/// Two ends of a socket. The second one does not block.
fn socket_pair(rt: &HostRuntime) -> io::Result<(UnixStream, UnixStream)> {
    let (ours, theirs) = UnixStream::pair(rt)?;
    theirs.set_nonblocking(true)?;
    Ok((ours, theirs))
}

/// Sends the workers one end of a socket pair, and loads the folder by a session at the other end.
pub(crate) fn load_by_stream<W: Taker<UnixStream>>(
    rt: &HostRuntime,
    path: &str,
    is_strict: bool,
    workers: &mut W,
) -> Result<(), NotLoaded> {
    let (ours, theirs) = match socket_pair(rt) {
        Ok(pair) => pair,
        Err(error) => {
            report(rt, "stream", path, &error);
            return Err(NotLoaded);
        }
    };
    // If no worker receives it, the stream ends at once, and `load_folder` reports that.
    let _ = workers.take(theirs);
    let mut server = LineServer::new(rt.alloc(), StreamLine::new(&ours, &ours));
    load_folder(rt, path, is_strict, &mut server)
}
