//! Command-line arguments and the actions that they select.

ghost use Rattle.std.specs.Prelude.{◌<◌, IfOk};
ghost use Rattle.sf_words.specs.Words.{CanBeDone};

use crate::command::ClientCommand;
use clap::builder::ValueParser;
use clap::{Arg, ArgAction, ArgMatches, Command, Error};
use std::alloc::{AllocError, Global};

/// Options of `sftpd stdio`.
#[derive(Clone, Copy, Debug, PartialEq, Eq)]
pub struct Stdio<'a> {
    /// The number of call records retained.
    pub keep: usize,
    /// The local folder that is copied into the file system at the start; empty without one.
    pub tree: Option<&'a str>,
    /// Whether a change of the folder while it is read is an error.
    pub tree_strict: bool,
    /// The log file, or `-` for standard error; no log without one.
    pub log: Option<&'a str>,
}

/// Options of `sftpd serve`.
#[derive(Clone, Copy, Debug, PartialEq, Eq)]
pub struct Serving<'a> {
    /// The path of the Unix socket.
    pub socket: &'a str,
    /// The number of worker threads; the server chooses it without a number.
    pub workers: Option<u32>,
    /// After how many seconds a session ends whose client neither sent nor read; never without a
    /// number.
    pub idle_timeout: Option<u64>,
    /// The server exits after this number of sessions; without a number it doesn't.
    pub sessions: Option<u64>,
    /// The server exits once its standard input has ended.
    pub until_eof: bool,
    /// The number of call records retained.
    pub keep: usize,
    /// The local folder that is copied into the file system at the start; empty without one.
    pub tree: Option<&'a str>,
    /// Whether a change of the folder while it is read is an error.
    pub tree_strict: bool,
    /// The log file, or `-` for standard error; no log without one.
    pub log: Option<&'a str>,
}

/// What the program does.
#[derive(Clone, Copy, Debug, PartialEq, Eq)]
pub enum Action<'a> {
    /// Serves one session on standard input and output.
    Stdio(Stdio<'a>),
    /// Serves sessions on a Unix socket.
    Serve(Serving<'a>),
    /// Copies between standard input and output and the Unix socket at this path.
    Connect(&'a str),
    /// Executes one command on the server at the Unix socket with this path.
    Client(&'a str, ClientCommand<'a>),
}

/// Rejected command lines.
#[derive(Debug, Drop)]
pub enum RefusedWords {
    /// Rejected with `clap`'s message, or out of memory.
    Words(Error),
    /// An unknown command, or a wrong number of paths.
    Usage,
}

impl From<Error> for RefusedWords {
    fn from(error: Error) -> RefusedWords {
        RefusedWords::Words(error)
    }
}

impl From<AllocError> for RefusedWords {
    fn from(error: AllocError) -> RefusedWords {
        RefusedWords::Words(Error::from(error))
    }
}

/// The content of the file VERSION.
const VERSION: &str = "0.3.0";

/// The default number of retained call records. The next constant is the maximum.
const KEEP: usize = 256;

const MOST_KEPT: u64 = 1_000_000;

fn keep_word<'a>(alloc: Global) -> Arg<'a> {
    Arg::new(alloc, "keep")
        .long("keep")
        .value_name("N")
        .value_parser(ValueParser::unsigned(1, MOST_KEPT))
        .help("How many records of calls are kept: 1 to 1000000, by default 256")
}

fn tree_word<'a>(alloc: Global) -> Arg<'a> {
    Arg::new(alloc, "tree").long("tree").value_name("DIR").help(
        "The local folder whose files and directories the tree begins with",
    )
}

fn tree_strict_word<'a>(alloc: Global) -> Result<Arg<'a>, AllocError> {
    Arg::new(alloc, "tree-strict")
        .long("tree-strict")
        .action(ArgAction::SetTrue)
        .help("A file that changes while the folder is read is an error")
        .requires_arg("tree")
}

fn log_word<'a>(alloc: Global) -> Arg<'a> {
    Arg::new(alloc, "log").long("log").value_name("PATH").help(
        "Where a line is written for each session and each call; - is standard error",
    )
}

/// The arguments of `sftpd stdio`.
fn stdio_words<'a>(alloc: Global) -> Result<Command<'a>, AllocError> {
    Command::new(alloc, "stdio")
        .about("Serves one session on standard input and output, to the end of the input")
        .arg(keep_word(alloc))?
        .arg(tree_word(alloc))?
        .arg(tree_strict_word(alloc)?)?
        .arg(log_word(alloc))
}

/// The maximum number of workers. The next constants are the longest idle timeout, in seconds, and
/// the maximum number of sessions.
const MOST_WORKERS: u64 = 64;

const LONGEST_TIMEOUT: u64 = 1_000_000_000;

const MOST_SERVED: u64 = 1_000_000;

fn socket_word<'a>(alloc: Global) -> Arg<'a> {
    Arg::new(alloc, "socket")
        .long("socket")
        .value_name("PATH")
        .required(true)
        .help("The Unix socket of the server")
}

/// The arguments of `sftpd serve`.
fn serve_words<'a>(alloc: Global) -> Result<Command<'a>, AllocError> {
    let workers = Arg::new(alloc, "workers")
        .long("workers")
        .value_name("N")
        .value_parser(ValueParser::unsigned(1, MOST_WORKERS))
        .help(
            "How many threads serve the sessions: 1 to 64, by default two for each processor, up \
            to 8",
        );
    let idle_timeout = Arg::new(alloc, "idle-timeout")
        .long("idle-timeout")
        .value_name("SECONDS")
        .value_parser(ValueParser::unsigned(1, LONGEST_TIMEOUT))
        .help("Ends a session whose client sends and reads nothing for so long; by default none");
    let sessions = Arg::new(alloc, "sessions")
        .long("sessions")
        .value_name("K")
        .value_parser(ValueParser::unsigned(1, MOST_SERVED))
        .help("Ends after so many sessions, and compares what they were told: 1 to 1000000");
    let until_eof = Arg::new(alloc, "until-eof")
        .long("until-eof")
        .action(ArgAction::SetTrue)
        .help("Ends, with all sessions, once standard input has ended")
        .conflicts_with("sessions")?;
    Command::new(alloc, "serve")
        .about("Serves sessions at a Unix socket, many at once, on one tree")
        .arg(socket_word(alloc))?
        .arg(workers)?
        .arg(idle_timeout)?
        .arg(sessions)?
        .arg(until_eof)?
        .arg(keep_word(alloc))?
        .arg(tree_word(alloc))?
        .arg(tree_strict_word(alloc)?)?
        .arg(log_word(alloc))
}

/// The arguments of `sftpd connect`.
fn connect_words<'a>(alloc: Global) -> Result<Command<'a>, AllocError> {
    Command::new(alloc, "connect")
        .about("Carries standard input and output to and from a server's Unix socket")
        .arg(socket_word(alloc))
}

/// The arguments of `sftpd client`.
fn client_words<'a>(alloc: Global) -> Result<Command<'a>, AllocError> {
    let command = Arg::new(alloc, "command")
        .value_name("COMMAND")
        .required(true)
        .help(
            "stat, list, get, put, mkdir, rmdir or remove with one path; rename, posix-rename or \
            hardlink with two",
        );
    let paths = Arg::new(alloc, "paths")
        .value_name("PATHS")
        .num_args(0..)
        .action(ArgAction::Append)
        .help("The paths on the server");
    Command::new(alloc, "client")
        .about("Runs one command on the server behind a Unix socket")
        .arg(socket_word(alloc))?
        .arg(command)?
        .arg(paths)
}

/// Parses a command line, including the program's name.
pub fn read_words<'a>(alloc: Global, words: &'a [String]) -> Result<Action<'a>, RefusedWords>
    ensures { IfOk result CanBeDone }
{
    let program = Command::new(alloc, "sftpd")
        .version(VERSION)
        .about("An SFTP server, version 3, with its tree in memory")
        .subcommand_required(true)
        .subcommand(stdio_words(alloc)?)?
        .subcommand(serve_words(alloc)?)?
        .subcommand(connect_words(alloc)?)?
        .subcommand(client_words(alloc)?)?;
    let matches = program.try_get_matches_from(words)?;
    if let Some(found) = matches.subcommand_matches("client") {
        return client_action(found);
    }
    if let Some(found) = matches.subcommand_matches("serve") {
        return Ok(Action::Serve(serve_action(found)));
    }
    if let Some(found) = matches.subcommand_matches("connect") {
        return Ok(Action::Connect(found.get_str("socket").unwrap_or("")));
    }
    if let Some(found) = matches.subcommand_matches("stdio") {
        return Ok(Action::Stdio(stdio_action(found)));
    }
    Err(RefusedWords::Usage)
}

/// The options after `stdio`.
fn stdio_action<'a>(matches: &ArgMatches<'a>) -> Stdio<'a>
    ensures { 0 < result.keep }
{
    Stdio {
        keep: matches.get_one::<usize>("keep").unwrap_or(KEEP).max(1),
        tree: matches.get_str("tree"),
        tree_strict: matches.get_flag("tree-strict"),
        log: matches.get_str("log"),
    }
}

/// The options after `serve`.
fn serve_action<'a>(matches: &ArgMatches<'a>) -> Serving<'a>
    ensures { 0 < result.keep }
{
    Serving {
        socket: matches.get_str("socket").unwrap_or(""),
        workers: matches.get_one::<u32>("workers"),
        idle_timeout: matches.get_one::<u64>("idle-timeout"),
        sessions: matches.get_one::<u64>("sessions"),
        until_eof: matches.get_flag("until-eof"),
        keep: matches.get_one::<usize>("keep").unwrap_or(KEEP).max(1),
        tree: matches.get_str("tree"),
        tree_strict: matches.get_flag("tree-strict"),
        log: matches.get_str("log"),
    }
}

/// The command after `client`.
fn client_action<'a>(matches: &ArgMatches<'a>) -> Result<Action<'a>, RefusedWords>
    ensures { IfOk result CanBeDone }
{
    let socket = matches.get_str("socket").unwrap_or("");
    let name = matches.get_str("command").unwrap_or("");
    let paths = matches.get_strs("paths").unwrap_or(&[]);
    match ClientCommand::from_words(name, paths) {
        Some(command) => Ok(Action::Client(socket, command)),
        None => Err(RefusedWords::Usage),
    }
}
