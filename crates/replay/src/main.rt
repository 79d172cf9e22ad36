//! Replays a schedule of an engine's events from standard input, and prints their results:
//!
//! ```text
//! open                            opens a session
//! feed 1 000000050100000003       feeds session 1 these bytes
//! turn 1 100                      takes a turn of session 1, with the timestamp 100
//! close 1                         closes session 1
//! sent 1 9                        removes the first 9 bytes of its output
//! run open | turn 1 100           applies these events; prints the number of errors
//! turns 1 100                     takes turns until its call is answered or can't progress;
//!                                 prints the last result
//! feed_slice 1 000000050100000003 as feed, by the method for slices
//! run_all                         runs rounds until no call is unanswered; prints their number
//! keep 2                          replaces the engine by a new one that retains 2 records
//! state                           prints each session's output, and the retained records
//! output 1 9                      prints the output of session 1 after the first 9 bytes
//! wants 1                         prints whether session 1 needs input
//! look_ups                        prints the number of lookups
//! tree                            prints every path, with its inode
//! ```
//!
//! It prints `read` before it makes the engine, and `begun` after it. If memory runs out in an
//! event, it prints the state and applies the event again. The last line is `end`.
#![tactic(auto)]

mod line;

use anyhow::bail;
use line::Line;
use sf_engine::{Engine, EngineFault, Event, Happened};
use std::alloc::Global;
use std::io::{self, BufRead, BufReader, BufWriter, Write};

/// Prints bytes in hexadecimal, and ends the line.
fn print_bytes(out: &mut impl Write, bytes: &[u8]) -> io::Result<()> {
    for byte in bytes {
        write!(out, "{byte:02x}")?;
    }
    writeln!(out, "")
}

/// Prints a session's output in hexadecimal.
fn print_output(out: &mut impl Write, session: u64, output: &[u8]) -> io::Result<()> {
    write!(out, "output {session} ")?;
    print_bytes(out, output)
}

/// Prints each session's output, the number of calls, and the records.
fn print_state(out: &mut impl Write, engine: &Engine) -> io::Result<()> {
    for session in 1..257 {
        if let Some(output) = engine.output(session) {
            print_output(out, session, output)?;
        }
    }
    let core = engine.core();
    writeln!(out, "calls {} folded {}", core.calls(), core.folded())?;
    for record in core.history() {
        writeln!(out, "record {record:?}")?;
    }
    Ok(())
}

/// Prints a session's output after its first `start` bytes.
fn print_behind(
    out: &mut impl Write,
    engine: &Engine,
    session: u64,
    start: usize,
) -> io::Result<()> {
    match engine.output(session) {
        Some(output) => print_output(out, session, output.get(start..).unwrap_or(&[])),
        None => writeln!(out, "output {session} none"),
    }
}

/// Prints every path with its label, its attributes, its text, and a file's bytes.
fn print_tree(out: &mut impl Write, alloc: Global, engine: &Engine) -> anyhow::Result<()> {
    let leaves = engine.tree(alloc)?;
    writeln!(out, "leaves {}", leaves.len())?;
    for leaf in &leaves {
        write!(out, "leaf {} {:?} ", leaf.label(), leaf.attrs())?;
        print_bytes(out, &leaf.path().text(alloc)?)?;
        if let Some(contents) = leaf.contents() {
            let bytes = contents.read(alloc, 0, contents.len() as usize)?;
            write!(out, "contents ")?;
            print_bytes(out, bytes.as_slice())?;
        }
    }
    Ok(())
}

/// Prints the result of an event.
fn print_outcome(out: &mut impl Write, outcome: &Result<Happened, EngineFault>) -> io::Result<()> {
    match outcome {
        Ok(happened) => writeln!(out, "{happened:?}"),
        Err(fault) => writeln!(out, "refused {fault:?}"),
    }
}

/// Applies an event, and once more if memory ran out. Prints the results.
fn apply(out: &mut impl Write, engine: &mut Engine, event: &Event) -> io::Result<()> {
    let outcome = engine.apply(event);
    print_outcome(out, &outcome)?;
    if outcome == Err(EngineFault::OutOfMemory) {
        print_state(out, engine)?;
        print_outcome(out, &engine.apply(event))?;
    }
    Ok(())
}

/// An engine that retains `count` records.
fn keeping(alloc: Global, count: usize) -> anyhow::Result<Engine> {
    if count == 0 {
        bail!("no record is kept");
    }
    Ok(Engine::with_keep(alloc, count)?)
}

/// Executes a line, and prints the result.
fn replay_line(
    out: &mut impl Write,
    alloc: Global,
    engine: &mut Engine,
    line: &Line,
) -> anyhow::Result<()> {
    match line {
        Line::Event(event) => apply(out, engine, event)?,
        Line::Run(events) => writeln!(out, "{}", engine.run(events))?,
        Line::Turns(session, moment) => print_outcome(out, &engine.turns(*session, *moment))?,
        Line::FeedSlice(session, bytes) => print_outcome(out, &engine.feed(*session, bytes))?,
        Line::RunAll => writeln!(out, "{}", engine.run_all())?,
        Line::Keep(count) => {
            *engine = keeping(alloc, *count)?;
            writeln!(out, "begun")?;
        }
        Line::State => print_state(out, engine)?,
        Line::Output(session, start) => print_behind(out, engine, *session, *start)?,
        Line::Wants(session) => writeln!(out, "{}", engine.wants_bytes(*session))?,
        Line::LookUps => writeln!(out, "{}", engine.core().look_ups())?,
        Line::Tree => print_tree(out, alloc, engine)?,
    }
    Ok(())
}

fn replay(
    out: &mut impl Write,
    alloc: Global,
    engine: &mut Engine,
    lines: &[Line],
) -> anyhow::Result<()> {
    for line in lines {
        replay_line(out, alloc, engine, line)?;
    }
    writeln!(out, "end")?;
    Ok(())
}

/// Makes an engine, at the second try if memory runs out.
fn make_engine(out: &mut impl Write, alloc: Global) -> anyhow::Result<Engine> {
    if let Ok(engine) = Engine::new(alloc) {
        return Ok(engine);
    }
    writeln!(out, "refused OutOfMemory")?;
    Ok(Engine::new(alloc)?)
}

/// Parses the lines of the input.
fn read_lines(alloc: Global, input: impl BufRead + Drop) -> anyhow::Result<Vec<Line>> {
    let mut lines = Vec::new(alloc);
    for text in input.lines(alloc) {
        lines.push(Line::parse(alloc, text?.as_str())?)?;
    }
    Ok(lines)
}

fn main(rt: HostRuntime) -> anyhow::Result<()> {
    let alloc = rt.alloc();
    let lines = read_lines(alloc, BufReader::new(alloc, rt.reader())?)?;
    let mut out = BufWriter::new(alloc, io::writer(&rt))?;
    writeln!(out, "read")?;
    out.flush()?;
    let mut engine = make_engine(&mut out, alloc)?;
    writeln!(out, "begun")?;
    replay(&mut out, alloc, &mut engine, lines.as_slice())?;
    out.flush()?;
    Ok(())
}
