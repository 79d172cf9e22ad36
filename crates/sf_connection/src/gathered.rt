//! Replies that wait to be written together.

ghost use Rattle.std.specs.Prelude.{◌≡◌, ◌≤◌, ◌++◌, [], length, drop, true, false};

use std::alloc::Global;
use std::marker::Model;

/// The maximum number of bytes that are gathered.
const ROOM: usize = 16384;

/// The maximum capacity that is kept between two calls of `advance` while it is empty.
const KEPT: usize = 8192;

/// Bytes of replies that are not yet written, at most 16 KiB.
#[derive(Debug, Drop)]
pub(crate) struct Gathered {
    bytes: Vec<u8>,
    /// The length of the prefix that was written.
    sent: usize,
}

impl Model for Gathered {
    ghost use Rattle.std.specs.Prelude.{◌≤◌, List, ℕ, drop, vec_len};

    ghost Value = { List ℕ };

    ghost view = { λ g. drop g.sent g.bytes.items };

    ghost invariant = { λ g. (g.sent ≤ vec_len g.bytes) × (vec_len g.bytes ≤ 16384) };
}

impl Gathered {
    /// No bytes.
    pub(crate) fn new(alloc: Global) -> Gathered
        ensures { result ≡ [] }
    {
        Gathered {
            bytes: Vec::new(alloc),
            sent: 0,
        }
    }

    /// The bytes that are not yet written.
    pub(crate) fn as_slice(&self) -> &[u8]
        ensures bytes { result.now ≡ self.now }
        ensures few { length result.now ≤ 16384 }
    {
        &self.bytes[self.sent..]
    }

    /// Appends the bytes. It returns false, and appends none, if they don't fit or memory runs out.
    pub(crate) fn add(&mut self, bytes: &[u8]) -> bool
        ensures added { result ≡ true → self.new ≡ self.old ++ bytes.now }
        ensures same { result ≡ false → self.new ≡ self.old }
        ensures few { length self.old ≤ 16384 → length self.new ≤ 16384 }
    {
        bytes.len() <= ROOM - self.bytes.len() && self.bytes.extend_from_slice(bytes).is_ok()
    }

    /// Removes the first `n` bytes, which were written.
    pub(crate) fn pass(&mut self, n: usize)
        requires { n ≤ length self.old }
        ensures { self.new ≡ drop n self.old }
    {
        self.sent += n;
        if self.sent == self.bytes.len() {
            self.sent = 0;
            self.bytes.clear();
        }
    }

    /// Frees a large buffer, if no bytes are in it.
    pub(crate) fn shrink(&mut self)
        ensures { self.new ≡ self.old }
    {
        if self.bytes.is_empty() && self.bytes.capacity() > KEPT {
            *self = Gathered::new(*self.bytes.allocator());
        }
    }
}
