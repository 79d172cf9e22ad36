//! A buffer that becomes a `ByteString` without a copy.

ghost use Rattle.std.specs.Prelude.{◌≡◌, ◌++◌, [], if◌then◌else◌, IfOk, IsTrue, ◌↔◌};

use crate::byte_string::ByteString;
use std::alloc::{AllocError, Global};
use std::marker::Model;
use std::sync::Arc;

/// An append-only byte buffer of fixed capacity. Only `with_capacity` allocates.
#[derive(Debug)]
pub struct ByteBuffer {
    /// `None` in a buffer without capacity.
    whole: Option<Arc<Vec<u8>>>,
}

impl Model for ByteBuffer {
    ghost use Rattle.std.specs.Prelude.{List, ℕ};
    ghost use Rattle.sf_field.specs.Fields.{AreBytes};
    ghost use Rattle.sf_field.specs.Strings.{owned};

    ghost Value = { List ℕ };

    ghost view = { λ b. owned b.whole };

    ghost invariant = { λ b. AreBytes (owned b.whole) };
}

impl Drop for ByteBuffer {
    // Explicit, so that a proof sees one call per dropped buffer and not its fields.
    fn drop(self) {
        let Self { whole: _whole } = self;
    }
}

impl ByteBuffer {
    /// An empty buffer of capacity 0. It allocates nothing.
    pub fn new() -> ByteBuffer
        ensures { result ≡ [] }
    {
        Self { whole: None }
    }

    /// An empty buffer with capacity for `most` bytes. It also allocates the string's reference
    /// count.
    pub fn with_capacity(alloc: Global, most: usize) -> Result<ByteBuffer, AllocError>
        ensures { IfOk result (λ buffer. buffer ≡ []) }
    {
        let room = Vec::with_capacity(alloc, most)?;
        Ok(Self {
            whole: Some(Arc::new(alloc, room)?),
        })
    }

    /// Whether the buffer is empty.
    pub fn is_empty(&self) -> bool
        ensures { IsTrue result ↔ (self.now ≡ []) }
    {
        match &self.whole {
            Some(whole) => whole.is_empty(),
            None => true,
        }
    }

    /// Appends all of `bytes` if they fit into the capacity, and returns whether they did. It
    /// allocates nothing.
    pub fn append(&mut self, bytes: &[u8]) -> bool
        ensures { self.new ≡ (if result then self.old ++ bytes.now else self.old) }
    {
        let Some(whole) = &mut self.whole else {
            return false;
        };
        match Arc::get_mut(whole) {
            Some(room) => {
                bytes.len() <= room.capacity() - room.len() && room.extend_from_slice(bytes).is_ok()
            }
            None => false,
        }
    }

    /// The bytes as a string, without a copy or an allocation.
    pub fn into_string(self) -> ByteString
        ensures { result ≡ self }
    {
        let Self { whole } = self;
        ByteString::of(whole)
    }
}
