//! The lines of a schedule.

use anyhow::bail;
use sf_engine::Event;
use sf_hex::hex_bytes;
use std::alloc::Global;

#[derive(Drop)]
pub enum Line {
    Event(Event),
    /// Events in sequence.
    Run(Vec<Event>),
    /// Turns of a session with a timestamp, until its call is answered or can't progress.
    Turns(u64, u32),
    /// Bytes for a session, by `Engine::feed`.
    FeedSlice(u64, Vec<u8>),
    /// Rounds, until no call is unanswered.
    RunAll,
    /// A new engine that retains this many records.
    Keep(usize),
    State,
    /// A session's output after this many bytes.
    Output(u64, usize),
    /// Whether a session needs input.
    Wants(u64),
    LookUps,
    Tree,
}

/// Parses an event from the words of its line.
fn read_event(alloc: Global, words: &[&str]) -> anyhow::Result<Event> {
    Ok(match words {
        ["open"] => Event::Open,
        ["feed", session, bytes] => Event::Feed(session.parse()?, hex_bytes(alloc, bytes)?),
        ["turn", session, moment] => Event::Turn(session.parse()?, moment.parse()?),
        ["close", session] => Event::Close(session.parse()?),
        ["sent", session, count] => Event::Sent(session.parse()?, count.parse()?),
        _ => bail!("no such line: {words:?}"),
    })
}

/// Parses events, separated by bars.
fn read_events(alloc: Global, text: &str) -> anyhow::Result<Vec<Event>> {
    let mut events = Vec::new(alloc);
    for part in text.split('|') {
        let words: Vec<&str> = part.split_whitespace().collect(alloc)?;
        events.push(read_event(alloc, words.as_slice())?)?;
    }
    Ok(events)
}

impl Line {
    /// Parses a line of a schedule. The program's head lists the forms.
    pub fn parse(alloc: Global, text: &str) -> anyhow::Result<Line> {
        if let Some(events) = text.strip_prefix("run ") {
            return Ok(Line::Run(read_events(alloc, events)?));
        }
        let words: Vec<&str> = text.split_whitespace().collect(alloc)?;
        Ok(match words.as_slice() {
            ["turns", session, moment] => Line::Turns(session.parse()?, moment.parse()?),
            ["feed_slice", session, bytes] => {
                Line::FeedSlice(session.parse()?, hex_bytes(alloc, bytes)?)
            }
            ["run_all"] => Line::RunAll,
            ["keep", count] => Line::Keep(count.parse()?),
            ["state"] => Line::State,
            ["output", session, start] => Line::Output(session.parse()?, start.parse()?),
            ["wants", session] => Line::Wants(session.parse()?),
            ["look_ups"] => Line::LookUps,
            ["tree"] => Line::Tree,
            words => Line::Event(read_event(alloc, words)?),
        })
    }
}
