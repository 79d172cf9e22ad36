//! A borrowed byte string.

ghost use Rattle.std.specs.Prelude.{◌≡◌, ℕ, List, length, nat_eq};
ghost use Rattle.std.specs.Cmp.{partial_equiv_from_equiv};
ghost use Rattle.std.specs.Cmp.Lexicographic.{nat_list_eq_equiv, pointwise};

use std::marker::Model;

/// A borrowed byte string, such as a field of a packet's body: to `ByteString` what `&str` is to
/// `String`. Contracts see both as the same list.
#[derive(Debug, Drop)]
pub struct ByteStr<'a> {
    bytes: &'a [u8],
}

impl<'a> Model for ByteStr<'a> {
    ghost Value = { List ℕ };

    ghost view = { λ s. s.bytes.now };
}

impl<'a> PartialEq for ByteStr<'a> {
    ghost eq = { λ a b. pointwise nat_eq a b };

    ghost laws = { partial_equiv_from_equiv nat_list_eq_equiv };

    fn eq(&self, other: &ByteStr<'a>) -> bool {
        self.bytes == other.bytes
    }
}

impl<'a> Eq for ByteStr<'a> {
    ghost laws = { nat_list_eq_equiv };
}

impl<'a> ByteStr<'a> {
    /// Wraps the slice without copying.
    pub fn new(bytes: &'a [u8]) -> ByteStr<'a>
        ensures { result ≡ bytes.now }
    {
        ByteStr { bytes }
    }

    /// The bytes.
    pub fn as_slice(&self) -> &'a [u8]
        ensures { result.now ≡ self.now }
    {
        self.bytes
    }

    /// The length in bytes.
    pub fn len(&self) -> usize
        ensures { result ≡ length self.now }
    {
        self.bytes.len()
    }
}
