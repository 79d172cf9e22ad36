//! The command `sftpd client`.

ghost use Rattle.std.specs.Prelude.{◌≡◌, ◌<◌, ◌^◌, ◌++◌, ◌⊎◌, ℕ, List, length, IfOk, OnOk, OnErr};
ghost use Rattle.std.specs.Io.KnownBytes.{Appends};
ghost use Rattle.std.specs.String.{string_bytes};
ghost use Rattle.sf_line.specs.Lines.{Rose};
ghost use Rattle.sf_words.specs.Words.{paths_len};
ghost use Rattle.sf_program.specs.Commands.{AreLinesOf, stat_text, PrintsAttrs, Lists, RunsCommand, IsDoneOver, IsFaultLine, IsFailureLine, IsStatusLine, status_start, size_start, size_end};

use crate::terminal::terminal_text;
use sf_client::{Client, ClientFault};
use sf_field::{Attrs, Owner, Times};
use sf_folder::shown;
use sf_line::{Line, LineFault, write_all};
use sf_reply::{Entry, StatusCode};
use sf_words::ClientCommand;
use std::alloc::{AllocError, Global};
use std::io::Write;

/// Runs the command on the server behind `line`. `put` sends `bytes`. Results are written to
/// `output`, and the message of a fault to `errors`. Returns the exit status, 0 or 1.
pub fn run_client<L: Line + Drop, O: Write, E: Line>(
    alloc: Global,
    line: L,
    command: ClientCommand<'_>,
    bytes: &[u8],
    output: &mut O,
    errors: &mut E,
) -> u8
    requires { paths_len command < 2 ^ 31 }
    ensures done { result ≡ 0 → (printed : List ℕ)
        × IsDoneOver command.entry bytes.now printed (L.incoming line) (L.outgoing line)
        × Appends (O.contents output.old) (O.contents output.new) printed }
    ensures quiet { result ≡ 0 → E.outgoing errors.new ≡ E.outgoing errors.old }
    ensures told { result ≡ 1 → ((line : List ℕ) × IsFailureLine line
        × Appends (E.outgoing errors.old) (E.outgoing errors.new) line)
        ⊎ Rose (E.failed errors.old) (E.failed errors.new) }
    ensures status { (result ≡ 0) ⊎ (result ≡ 1) }
{
    match do_over(alloc, line, command, bytes, output) {
        Ok(()) => 0,
        Err(fault) => {
            // If the message can't be written, the exit status still reports the failure.
            let _ = report(alloc, errors, command, fault);
            1
        }
    }
}

/// Opens a session, runs the command, and writes its result.
fn do_over<L: Line + Drop, O: Write>(
    alloc: Global,
    line: L,
    command: ClientCommand<'_>,
    bytes: &[u8],
    output: &mut O,
) -> Result<(), ClientFault>
    requires { paths_len command < 2 ^ 31 }
    ensures { OnOk result ((printed : List ℕ)
        × IsDoneOver command.entry bytes.now printed (L.incoming line) (L.outgoing line)
        × Appends (O.contents output.old) (O.contents output.new) printed) }
{
    let mut client = match Client::start(alloc, line) {
        Ok(client) => client,
        Err(no) => return Err(no.fault),
    };
    let printed = printed(alloc, &mut client, command, bytes)?;
    if output.write_all(printed.as_slice()).is_err() {
        return Err(ClientFault::Stream);
    }
    if output.flush().is_err() {
        return Err(ClientFault::Stream);
    }
    Ok(())
}

/// Runs the command, and returns what it prints.
fn printed<L: Line + Drop>(
    alloc: Global,
    client: &mut Client<L>,
    command: ClientCommand<'_>,
    bytes: &[u8],
) -> Result<Vec<u8>, ClientFault>
    requires { paths_len command < 2 ^ 31 }
    ensures { IfOk result (λ out.
        RunsCommand command.entry bytes.now out.items client.old client.new) }
{
    match command {
        ClientCommand::Stat(path) => stat(alloc, client, path),
        ClientCommand::List(path) => list(alloc, client, path),
        ClientCommand::Get(path) => {
            let bytes = client.get(path)?;
            Ok(bytes)
        }
        ClientCommand::Put(path) => {
            client.put(path, bytes)?;
            Ok(Vec::new(alloc))
        }
        ClientCommand::Mkdir(path) => {
            client.mkdir(path)?;
            Ok(Vec::new(alloc))
        }
        ClientCommand::Rmdir(path) => {
            client.rmdir(path)?;
            Ok(Vec::new(alloc))
        }
        ClientCommand::Remove(path) => {
            client.remove(path)?;
            Ok(Vec::new(alloc))
        }
        ClientCommand::Rename(old, new) => {
            client.rename(old, new)?;
            Ok(Vec::new(alloc))
        }
        ClientCommand::PosixRename(old, new) => {
            client.posix_rename(old, new)?;
            Ok(Vec::new(alloc))
        }
        ClientCommand::Link(old, new) => {
            client.hardlink(old, new)?;
            Ok(Vec::new(alloc))
        }
    }
}

/// The attributes of a path, as a line.
fn stat<L: Line + Drop>(
    alloc: Global,
    client: &mut Client<L>,
    path: &[u8],
) -> Result<Vec<u8>, ClientFault>
    requires { length path.now < 2 ^ 31 }
    ensures { IfOk result (λ bytes. PrintsAttrs path.now bytes.items client.old client.new) }
{
    let attrs = client.stat(path)?;
    match stat_line(alloc, &attrs) {
        Ok(line) => Ok(line),
        Err(_) => Err(ClientFault::OutOfMemory),
    }
}

/// The listing of a directory.
fn list<L: Line + Drop>(
    alloc: Global,
    client: &mut Client<L>,
    path: &[u8],
) -> Result<Vec<u8>, ClientFault>
    requires { length path.now < 2 ^ 31 }
    ensures { IfOk result (λ bytes. Lists path.now bytes.items client.old client.new) }
{
    let entries = client.list(path)?;
    match list_lines(alloc, &entries) {
        Ok(lines) => Ok(lines),
        Err(_) => Err(ClientFault::OutOfMemory),
    }
}

/// Size, uid, gid, permissions in octal, atime and mtime. An attribute that was not sent is 0.
fn stat_line(alloc: Global, attrs: &Attrs) -> Result<Vec<u8>, AllocError>
    ensures { IfOk result (λ bytes. bytes.items ≡ stat_text attrs.now) }
{
    let size = attrs.size.unwrap_or(0);
    let Owner { uid, gid } = attrs.owner.unwrap_or(Owner { uid: 0, gid: 0 });
    let permissions = attrs.permissions.unwrap_or(0);
    let Times { atime, mtime } = attrs.times.unwrap_or(Times { atime: 0, mtime: 0 });
    let line = format!(in alloc; "{size} {uid} {gid} {permissions:o} {atime} {mtime}\n")?;
    Ok(line.into_bytes())
}

/// Each longname as text for a terminal, followed by a newline.
fn list_lines(alloc: Global, entries: &[Entry]) -> Result<Vec<u8>, AllocError>
    ensures { IfOk result (λ bytes. AreLinesOf entries.now bytes.items) }
{
    let mut lines = Vec::new(alloc);
    for entry in entries {
        let text = terminal_text(alloc, entry.longname.as_slice())?;
        lines.extend_from_slice(&text)?;
        lines.push(b'\n')?;
    }
    Ok(lines)
}

/// Writes the message of a fault. If the server refused the command, that is the status' number and
/// message, and the paths.
fn report<E: Line>(
    alloc: Global,
    errors: &mut E,
    command: ClientCommand<'_>,
    fault: ClientFault,
) -> Result<(), LineFault>
    ensures told { OnOk result ((line : List ℕ) × IsFaultLine fault line
        × Appends (E.outgoing errors.old) (E.outgoing errors.new) line) }
    ensures fault { OnErr result (Rose (E.failed errors.old) (E.failed errors.new)) }
{
    match fault {
        ClientFault::Stream | ClientFault::Failed => write_all(
            errors,
            b"sftpd: stream: the connection or standard output failed\n",
        ),
        ClientFault::Protocol => write_all(
            errors,
            b"sftpd: protocol: the server's reply is not one to the request\n",
        ),
        ClientFault::OutOfMemory => write_all(errors, b"sftpd: out of memory\n"),
        ClientFault::Status(code) => match status_line(alloc, command, code) {
            Ok(line) => write_all(errors, &line),
            Err(_) => write_all(errors, b"sftpd: out of memory\n"),
        },
        ClientFault::TooLarge(size) => match size_line(alloc, size) {
            Ok(line) => write_all(errors, &line),
            Err(_) => write_all(errors, b"sftpd: out of memory\n"),
        },
    }
}

/// The line of a file that is too large.
fn size_line(alloc: Global, size: u64) -> Result<Vec<u8>, AllocError>
    ensures { IfOk result (λ line. line.items ≡ size_start size ++ size_end) }
{
    let mut line = size_start(alloc, size)?.into_bytes();
    line.extend_from_slice(b" bytes\n")?;
    Ok(line)
}

/// The line of a file that is too large, up to its size.
fn size_start(alloc: Global, size: u64) -> Result<String, AllocError>
    ensures { IfOk result (λ text. string_bytes text ≡ size_start size) }
{
    format!(in alloc; "sftpd: too large to get: {size}")
}

/// The line of a status: its number and message, and the paths.
fn status_line(
    alloc: Global,
    command: ClientCommand<'_>,
    code: StatusCode,
) -> Result<Vec<u8>, AllocError>
    ensures { IfOk result (λ line. IsStatusLine code line.items) }
{
    let paths = paths_text(alloc, command)?;
    let mut line = status_start(alloc, code)?.into_bytes();
    line.extend_from_slice(code.message())?;
    line.extend_from_slice(paths.as_bytes())?;
    Ok(line)
}

/// The line of a status up to its number.
fn status_start(alloc: Global, code: StatusCode) -> Result<String, AllocError>
    ensures { IfOk result (λ text. string_bytes text ≡ status_start code) }
{
    let number = code.number();
    format!(in alloc; "sftpd: status {number}: ")
}

/// The paths of a command, at the end of a line.
fn paths_text(alloc: Global, command: ClientCommand<'_>) -> Result<String, AllocError> {
    let (path, second) = paths_of(command);
    let path = shown(alloc, path)?;
    match second {
        None => format!(in alloc; ": {path}\n"),
        Some(second) => {
            let second = shown(alloc, second)?;
            format!(in alloc; ": {path} {second}\n")
        }
    }
}

/// The command's path, and the second one of a command that has two.
fn paths_of<'a>(command: ClientCommand<'a>) -> (&'a [u8], Option<&'a [u8]>) {
    match command {
        ClientCommand::Stat(path)
        | ClientCommand::List(path)
        | ClientCommand::Get(path)
        | ClientCommand::Put(path)
        | ClientCommand::Mkdir(path)
        | ClientCommand::Rmdir(path)
        | ClientCommand::Remove(path) => (path, None),
        ClientCommand::Rename(old, new)
        | ClientCommand::PosixRename(old, new)
        | ClientCommand::Link(old, new) => (old, Some(new)),
    }
}
