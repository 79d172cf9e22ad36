//! A demonstration server, which `make demo` builds without any proof: it serves clients at a Unix
//! socket one after the other, on one tree.
//!
//! It serves a session as `sftpd stdio` does, by `serve_one` of `sf_alone`. It lacks the other
//! features of `sftpd`, which halves its build time.
#![tactic(auto)]

use sf_alone::serve_one;
use sf_clock::SystemClock;
use sf_connection::{LineStream, NoObserver};
use sf_engine::Engine;
use sf_line::StreamLine;
use std::env;
use std::io::{self, ErrorKind};
use std::os::unix::net::UnixListener;

/// The number of retained call records.
const KEEP: usize = 256;

/// Serves the clients that connect at a path, one after the other.
fn serve(rt: &HostRuntime, path: &str) -> io::Result<()> {
    let alloc = rt.alloc();
    let mut engine = Engine::with_keep(alloc, KEEP)?;
    let mut clock = SystemClock::new(rt);
    let listener = UnixListener::bind(rt, path)?;
    for stream in listener.incoming() {
        let stream = stream?;
        let stream = LineStream::new(StreamLine::new(&stream, &stream));
        // An error of one session doesn't affect the next.
        let _ = serve_one(alloc, &mut engine, stream, &mut clock, &NoObserver);
    }
    Ok(())
}

fn main(rt: HostRuntime) -> io::Result<()> {
    let words = env::args(&rt)?.collect::<Vec<String>>(rt.alloc())?;
    match words.get(1) {
        Some(path) => serve(&rt, path),
        None => Err(ErrorKind::InvalidInput.into()),
    }
}
