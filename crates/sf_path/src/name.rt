//! The name of a directory entry.

ghost use Rattle.std.specs.Prelude.{◌≡◌, ◌↔◌, IsTrue, IfOk, Some, length, refl, slice_index_or};
ghost use Rattle.std.specs.Cmp.{eq_by_cmp_equiv, partial_equiv_from_equiv, partial_order_from_total};
ghost use Rattle.sf_path.specs.Names.{IsName};
ghost use Rattle.sf_path.specs.Heads.{head_of};
ghost use Rattle.sf_path.specs.Order.{same_name, name_cmp, name_total};

use smallvec::SmallVec;
use std::alloc::{AllocError, Global};
use std::cmp::Ordering;
use std::marker::Model;

/// Bytes of a name that are stored inline, without an allocation. With 40, a name takes 64 bytes,
/// and the C library returns the freed nodes of an ordered map of names to the system.
const SHORT_NAME: usize = 40;

/// The name of a file or a directory: 1 to 255 bytes, without `/` and byte 0, and neither `.` nor
/// `..`. It need not be UTF-8.
#[derive(Debug)]
pub struct Name {
    /// `head_of` the bytes. Names with different heads are ordered as their heads, so a search
    /// compares mostly integers. A name shorter than 8 bytes is determined by its head.
    head: u64,
    bytes: SmallVec<u8, SHORT_NAME>,
}

impl Model for Name {
    ghost use Rattle.std.specs.Prelude.{List, ℕ, ◌≡◌};
    ghost use Rattle.sf_path.specs.Names.{IsName};
    ghost use Rattle.sf_path.specs.Heads.{head_of};

    ghost Value = { List ℕ };

    ghost view = { λ name. name.bytes.items };

    ghost invariant = { λ name. IsName name.bytes.items × (name.head ≡ head_of name.bytes.items) };
}

impl Drop for Name {
    // Explicit, so that a proof sees one call per dropped name and not its fields.
    fn drop(self) {
        let Self {
            head: _,
            bytes: _bytes,
        } = self;
    }
}

/// The first 8 bytes as a big-endian integer; shorter names are padded with zeros.
fn head_of(bytes: &[u8]) -> u64
    ensures { result ≡ head_of bytes.now }
{
    u64::from_be_bytes([
        byte_at(bytes, 0),
        byte_at(bytes, 1),
        byte_at(bytes, 2),
        byte_at(bytes, 3),
        byte_at(bytes, 4),
        byte_at(bytes, 5),
        byte_at(bytes, 6),
        byte_at(bytes, 7),
    ])
}

/// The byte at index `i`, or 0 past the end.
fn byte_at(bytes: &[u8], i: usize) -> u8
    ensures { result ≡ slice_index_or bytes.now i 0 }
{
    match bytes.get(i) {
        Some(byte) => *byte,
        None => 0,
    }
}

impl Name {
    /// The name with these bytes.
    pub(crate) fn from_slice(alloc: Global, bytes: &[u8]) -> Result<Name, AllocError>
        requires { IsName bytes.now }
        ensures { IfOk result (λ name. name ≡ bytes.now) }
    {
        Ok(Name {
            head: head_of(bytes),
            bytes: SmallVec::from_slice(alloc, bytes)?,
        })
    }

    /// The name's bytes.
    pub fn as_slice(&self) -> &[u8]
        ensures bytes { result.now ≡ self.now }
        ensures name { IsName result.now }
    {
        self.bytes.as_slice()
    }

    /// The length in bytes. It is never 0, so there is no `is_empty`.
    pub fn len(&self) -> usize
        ensures { result ≡ length self.now }
    {
        self.bytes.len()
    }

    /// Copies the name.
    pub fn try_copy(&self, alloc: Global) -> Result<Name, AllocError>
        ensures { IfOk result (λ copy. copy ≡ self.now) }
    {
        Ok(Name {
            head: self.head,
            bytes: SmallVec::from_slice(alloc, self.bytes.as_slice())?,
        })
    }
}

impl PartialEq for Name {
    ghost eq = { same_name };

    ghost laws = { partial_equiv_from_equiv (eq_by_cmp_equiv name_total) };

    fn eq(&self, other: &Name) -> bool
        ensures value { result ≡ same_name self.now other.now }
        ensures same { IsTrue result ↔ (self.now ≡ other.now) }
    {
        self.bytes == other.bytes
    }
}

impl Eq for Name {
    ghost laws = { eq_by_cmp_equiv name_total };
}

impl PartialOrd for Name {
    ghost partial_cmp = { λ a b. Some (name_cmp a b) };

    ghost laws = { partial_order_from_total name_total };

    fn partial_cmp(&self, other: &Name) -> Option<Ordering> {
        Some(self.cmp(other))
    }
}

impl Ord for Name {
    ghost cmp = { name_cmp };

    ghost total = { name_total };

    ghost matches_partial_cmp = { λ a b. refl };

    ghost matches_eq = { λ a b. refl };

    /// Bytewise lexicographic order.
    fn cmp(&self, other: &Name) -> Ordering {
        if self.head != other.head {
            return self.head.cmp(&other.head);
        }
        if self.head % 256 == 0 {
            // No byte of a name is 0: both names have fewer than 8 bytes, which the heads contain.
            return Ordering::Equal;
        }
        self.bytes.cmp(&other.bytes)
    }
}
