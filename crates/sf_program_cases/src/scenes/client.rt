//! Clients whose streams are in memory and block, their poller, and a clock.

ghost use Rattle.std.specs.Prelude.{◌≡◌, ◌≤◌, None};
ghost use Rattle.sf_line.specs.Lines.{Rose};

use super::script::{Pause, Signs, Until};
use sf_connection::Stream;
use sf_hex::hex_packets;
use sf_line::{Line, LineFault, MemoryLine, Pieces};
use sf_session::Clock;
use sf_workers::{Polled, Poller, Refusal};
use std::alloc::Global;
use std::test::Fail;
use std::thread;

/// What a client sends, and when.
#[derive(Clone, Copy)]
pub(super) struct Client<'a> {
    /// Packets, in hexadecimal.
    pub packets: &'a [&'a str],
    /// One more packet, and how often it is sent.
    pub more: (&'a str, usize),
    /// How many bytes the first read gives at most, and each later one.
    pub pieces: (usize, usize),
    /// What the client waits for before each of its first reads.
    pub reads: [Until; 3],
    /// How many bytes of replies it takes between two reads before the scene is done.
    pub room: usize,
}

/// A client that sends these packets, and waits for nothing.
pub(super) fn sends<'a>(packets: &'a [&'a str]) -> Client<'a> {
    Client {
        packets,
        more: ("", 0),
        pieces: (usize::MAX, usize::MAX),
        reads: [Until::Now; 3],
        room: usize::MAX,
    }
}

impl Client<'_> {
    /// All that it sends.
    pub(super) fn input(&self, alloc: Global) -> Result<Vec<u8>, Fail> {
        let mut input = hex_packets(alloc, self.packets)?;
        let (packet, times) = self.more;
        let more = hex_packets(alloc, &[packet])?;
        for _ in 0..times {
            input.extend_from_slice(&more)?;
        }
        Ok(input)
    }
}

/// A client's stream. Contracts know none of its bytes.
#[derive(Drop)]
pub(super) struct ClientStream<'a> {
    line: MemoryLine<'a>,
    signs: &'a Signs,
    waits: [Until; 3],
    room: usize,
    reads: usize,
    /// The bytes of replies that it took since its last read.
    taken: usize,
    pause: Pause,
    failures: u64,
}

impl<'a> ClientStream<'a> {
    pub(super) fn new(
        alloc: Global,
        client: &Client<'_>,
        input: &'a [u8],
        signs: &'a Signs,
    ) -> ClientStream<'a> {
        let (first, later) = client.pieces;
        let reads = Pieces::new(first.max(1), later.max(1));
        let writes = Pieces::new(usize::MAX, usize::MAX);
        ClientStream {
            line: MemoryLine::new(alloc, input, reads, writes),
            signs,
            waits: client.reads,
            room: client.room,
            reads: 0,
            taken: 0,
            pause: Pause::none(),
            failures: 0,
        }
    }

    fn fail(&mut self) -> LineFault
        ensures rose { Rose self.old.failures self.new.failures }
        ensures more { self.old.failures ≤ self.new.failures }
    {
        self.failures = self.failures.saturating_add(1);
        LineFault
    }
}

impl Stream for ClientStream<'_> {
    ghost view = { λ s. record { incoming = None; outgoing = None; failed = s.failures } };

    fn try_read(&mut self, buffer: &mut [u8]) -> Result<Option<usize>, LineFault> {
        let until = self.waits.get(self.reads).copied().unwrap_or(Until::Now);
        if !self.pause.is_over(self.signs, until) {
            return Ok(None);
        }
        self.reads = self.reads.saturating_add(1);
        self.taken = 0;
        match self.line.read(buffer) {
            Ok(n) => Ok(Some(n)),
            Err(_) => Err(self.fail()),
        }
    }

    fn try_write(&mut self, bytes: &[u8]) -> Result<Option<usize>, LineFault> {
        let mut room = self.room.saturating_sub(self.taken);
        if room == 0 {
            if !self.pause.is_over(self.signs, Until::Done) {
                return Ok(None);
            }
            room = usize::MAX;
        }
        let most = bytes.len().min(room);
        self.taken = self.taken.saturating_add(most);
        match self.line.write(&bytes[..most]) {
            Ok(n) if n > 0 || bytes.is_empty() => Ok(Some(n)),
            _ => Err(self.fail()),
        }
    }
}

/// A worker's poller: for one stream at a time, which it polls again and again.
#[derive(Drop)]
pub(super) struct OneStream {
    key: Option<usize>,
}

impl OneStream {
    pub(super) fn none() -> OneStream {
        OneStream { key: None }
    }
}

impl Poller<ClientStream<'_>> for OneStream {
    fn poll(&mut self, waits: bool) -> Polled {
        if !waits {
            return Polled::Nothing;
        }
        thread::yield_now();
        match self.key {
            Some(key) => Polled::Ready(key),
            None => Polled::Woken,
        }
    }

    fn takes_more(&self) -> bool {
        self.key.is_none()
    }

    fn watch(&mut self, _stream: &ClientStream<'_>, key: usize) -> bool {
        self.key = Some(key);
        true
    }

    fn close(&mut self, _stream: ClientStream<'_>, _refusal: Option<Refusal>) {
        self.key = None;
    }
}

/// A clock that gives the time 100.
#[derive(Clone, Copy)]
pub(crate) struct StillClock;

impl Clock for StillClock {
    ghost moments = { λ _. None };

    fn now(&mut self) -> u32 {
        100
    }
}
