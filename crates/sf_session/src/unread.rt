//! The bytes that a session has received and not processed.

ghost use Rattle.std.specs.Prelude.{◌≡◌, ◌≤◌, ◌++◌, [], length, drop, OnOk, OnErr};
ghost use Rattle.sf_wire.specs.Packets.{IsCut};
ghost use Rattle.sf_wire.specs.Streams.{HasBody, IfWhole};

use bytes::BytesMut;
use sf_wire::{Cut, cut};
use std::alloc::{AllocError, Global};
use std::marker::Model;

/// Unread bytes and the framing of their first packet, which is computed once: when bytes arrive or
/// when the packet before is removed.
#[derive(Debug, Drop)]
pub(crate) struct Unread {
    bytes: BytesMut,
    front: Cut,
}

impl Model for Unread {
    ghost use Rattle.std.specs.Prelude.{List, ℕ};
    ghost use Rattle.sf_wire.specs.Packets.{IsCut};

    ghost Value = { List ℕ };

    ghost view = { λ unread. unread.bytes.items };

    ghost invariant = { λ unread. IsCut unread.bytes.items unread.front };
}

impl Unread {
    /// No bytes.
    pub(crate) fn new(alloc: Global) -> Unread
        ensures { result ≡ [] }
    {
        Unread {
            bytes: BytesMut::new(alloc),
            front: Cut::More,
        }
    }

    /// The unread bytes.
    pub(crate) fn as_slice(&self) -> &[u8]
        ensures { result.now ≡ self.now }
    {
        self.bytes.as_slice()
    }

    /// The framing of the first packet.
    pub(crate) fn front(&self) -> Cut
        ensures found { IsCut self.now result }
        ensures whole { IfWhole result (λ len. HasBody self.now len) }
    {
        self.front
    }

    /// Appends bytes. A complete packet or a wrong length at the start stays valid.
    pub(crate) fn extend(&mut self, bytes: &[u8]) -> Result<(), AllocError>
        ensures ok { OnOk result (self.new ≡ self.old ++ bytes.now) }
        ensures err { OnErr result (self.new ≡ self.old) }
    {
        self.bytes.extend_from_slice(bytes)?;
        if let Cut::More = self.front {
            self.front = cut(self.bytes.as_slice());
        }
        Ok(())
    }

    /// Removes the first `len` bytes.
    pub(crate) fn pass(&mut self, len: usize)
        requires { len ≤ length self.old }
        ensures { self.new ≡ drop len self.old }
    {
        self.bytes.advance(len);
        self.front = cut(self.bytes.as_slice());
    }
}
