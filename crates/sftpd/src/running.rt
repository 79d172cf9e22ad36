//! Each command, begun on the system's streams.

ghost use Rattle.std.specs.Prelude.{◌<◌, ◌^◌};
ghost use Rattle.sf_words.specs.Words.{paths_len};

use clap::{Error, error};
use sf_clock::SystemClock;
use sf_connection::{CallObserver, NoObserver};
use sf_line::StreamLine;
use sf_pool::StepObserver;
use sf_program::client::run_client;
use sf_program::connection::connect;
use sf_program::descriptors::Descriptors;
use sf_program::loading::engine_of_folder;
use sf_program::reporting::{report, report_out_of_memory};
use sf_program::stdio::{run_stdio, run_stdio_on};
use sf_server::log::open_log;
use sf_server::refusals::ClientObserver;
use sf_server::server::serve;
use sf_words::{Action, ClientCommand, RefusedWords, Serving, Stdio, read_words};
use std::env;
use std::io::{self, ErrorKind, Input, Read};
use std::os::fd::AsFd;
use std::os::unix::net::UnixStream;
use std::sync::Wait;
use std::thread::Threads;

/// Runs the command of the command line, and returns the exit status.
pub(crate) fn run<T: Threads + Wait + Sync>(rt: &HostRuntime, threads: &T) -> u8 {
    let alloc = rt.alloc();
    open_standard_streams(rt);
    let words = match env::args(rt) {
        Ok(words) => words,
        Err(error) => return refuse_words(rt, error.kind()),
    };
    let Ok(words) = words.collect::<Vec<String>>(alloc) else {
        return refuse_words(rt, ErrorKind::OutOfMemory);
    };
    match read_words(alloc, &words) {
        Ok(Action::Stdio(words)) => stdio(rt, threads, words),
        Ok(Action::Serve(serving)) => serve_sessions(rt, threads, serving),
        Ok(Action::Connect(socket)) => carry(rt, threads, socket),
        Ok(Action::Client(socket, command)) => client(rt, socket, command),
        Err(RefusedWords::Words(error)) => refuse(rt, &error),
        Err(RefusedWords::Usage) => client_usage(rt),
    }
}

/// Opens /dev/null in place of a standard stream that is closed. The lowest free descriptor is its
/// own, if the streams below it are open.
fn open_if_closed(stream: &impl AsFd) {
    if stream.as_fd().try_clone_to_owned().is_err() {
        os::open_update(b"/dev/null");
    }
}

/// Opens the standard streams that are closed, so that no file or connection gets a descriptor of
/// theirs.
fn open_standard_streams(rt: &HostRuntime) {
    open_if_closed(&rt.stdin());
    open_if_closed(&rt.stdout());
    open_if_closed(&rt.stderr());
}

/// Serves the session on standard input and output, with a log if there is an option for it.
fn stdio<T: Wait>(rt: &HostRuntime, threads: &T, words: Stdio<'_>) -> u8
    requires { 0 < words.keep }
{
    let Some(path) = words.log else {
        return serve_stdio(rt, words, &NoObserver);
    };
    match open_log(rt, threads, path, words.tree) {
        Some(log) => {
            let status = serve_stdio(rt, words, &log);
            log.finish();
            status
        }
        None => 1,
    }
}

/// Serves the session on standard input and output.
fn serve_stdio<G: CallObserver>(rt: &HostRuntime, words: Stdio<'_>, observer: &G) -> u8
    requires { 0 < words.keep }
{
    let alloc = rt.alloc();
    let stream = Descriptors::standard(rt);
    let mut errors = StreamLine::new(io::empty(), rt.stderr());
    let mut clock = SystemClock::new(rt);
    let Some(tree) = words.tree else {
        let (status, _) = run_stdio(alloc, words.keep, stream, &mut clock, observer, &mut errors);
        return status;
    };
    let Ok(mut engine) = engine_of_folder(rt, words.keep, tree, words.tree_strict) else {
        return 1;
    };
    let (status, _) = run_stdio_on(
        alloc,
        &mut engine,
        stream,
        &mut clock,
        observer,
        &mut errors,
    );
    status
}

/// Serves sessions at a socket, with a log if there is an option for it.
fn serve_sessions<T: Threads + Wait + Sync>(
    rt: &HostRuntime,
    threads: &T,
    serving: Serving<'_>,
) -> u8
    requires { 0 < serving.keep }
{
    let Some(path) = serving.log else {
        return serve_socket(rt, threads, serving, &NoObserver);
    };
    match open_log(rt, threads, path, serving.tree) {
        Some(log) => {
            let status = serve_socket(rt, threads, serving, &log);
            log.finish();
            status
        }
        None => 1,
    }
}

/// Serves sessions at a socket.
fn serve_socket<T: Threads + Wait + Sync, G: StepObserver + ClientObserver + Sync>(
    rt: &HostRuntime,
    threads: &T,
    serving: Serving<'_>,
    observer: &G,
) -> u8
    requires { 0 < serving.keep }
{
    match serve(rt, threads, serving, observer, &mut rt.stdout()) {
        Ok(()) => 0,
        Err(fault) => {
            if let Some(line) = fault.line() {
                let _ = rt.eprintln(line);
            }
            1
        }
    }
}

/// Connects to a server's socket, or reports why it can't.
fn connected(rt: &HostRuntime, socket: &str) -> Option<UnixStream> {
    match UnixStream::connect(rt, socket) {
        Ok(stream) => Some(stream),
        Err(error) => {
            report(rt, "cannot connect", socket, &error);
            None
        }
    }
}

/// Copies standard input and output to and from a socket.
fn carry<T: Threads + Wait>(rt: &HostRuntime, threads: &T, socket: &str) -> u8 {
    let Some(stream) = connected(rt, socket) else {
        return 1;
    };
    match connect(rt, threads, &stream) {
        Ok(()) => 0,
        Err(error) => stream_failed(rt, socket, &error),
    }
}

/// Runs a command on the server at a socket. `put` reads all of standard input first.
fn client(rt: &HostRuntime, socket: &str, command: ClientCommand<'_>) -> u8
    requires { paths_len command < 2 ^ 31 }
{
    let alloc = rt.alloc();
    let mut data = Vec::new(alloc);
    if matches!(command, ClientCommand::Put(_)) {
        if let Err(error) = rt.reader().read_to_end(&mut data) {
            return stream_failed(rt, "standard input", &error);
        }
    }
    let Some(stream) = connected(rt, socket) else {
        return 1;
    };
    let line = StreamLine::new(&stream, &stream);
    let mut errors = StreamLine::new(io::empty(), rt.stderr());
    run_client(alloc, line, command, &data, &mut rt.stdout(), &mut errors)
}

/// Reports that a stream failed, or that memory ran out.
fn stream_failed(rt: &HostRuntime, name: &str, error: &io::Error) -> u8 {
    if error.kind() == ErrorKind::OutOfMemory {
        let _ = report_out_of_memory(rt);
    } else {
        report(rt, "stream", name, error);
    }
    1
}

/// Prints the usage of `sftpd client`.
fn client_usage(rt: &impl Eprint) -> u8 {
    let _ = rt.eprintln(
        "sftpd: usage: sftpd client --socket PATH COMMAND PATH [PATH]\n\
        COMMAND: stat, list, get, put, mkdir, rmdir or remove with one path;\n\
        rename, posix-rename or hardlink with two",
    );
    2
}

/// Reports why the words can't be read: one is no text, or memory ran out.
fn refuse_words(rt: &HostRuntime, kind: ErrorKind) -> u8 {
    if kind == ErrorKind::OutOfMemory {
        let _ = report_out_of_memory(rt);
        return 1;
    }
    let _ = rt.eprintln("sftpd: usage: each word must be valid UTF-8; see sftpd --help");
    2
}

/// Prints `clap`'s text: help on standard output, with status 0, or a mistake on standard error,
/// with status 2.
fn refuse(rt: &HostRuntime, error: &Error) -> u8 {
    if error.kind() == error::ErrorKind::OutOfMemory {
        return refuse_words(rt, ErrorKind::OutOfMemory);
    }
    let _ = error.print(rt);
    if error.use_stderr() { 2 } else { 0 }
}
