//! Laws of field encodings, stated as contracts of empty functions.

ghost use Rattle.std.specs.Prelude.{◌≡◌, ℕ, ◌<◌, ◌^◌, List, ◌++◌, length, Some};
ghost use Rattle.std.specs.Int.{w32, w64};
ghost use Rattle.sf_field.specs.declared.attrs.Attrs.{Attrs};
ghost use Rattle.sf_field.specs.Attributes.{AttrsFit, SpellsAttrs, attrs_text};
ghost use Rattle.sf_field.specs.declared.open_flags.OpenFlags.{OpenFlags};
ghost use Rattle.sf_field.specs.Fields.{AreBytes, be32, be64, string};
ghost use Rattle.sf_field.specs.OpenFlags.{open_flags, bits_of};
ghost use Rattle.sf_field.specs.Reading.{number_at, string_at, attrs_at};

/// Decoding inverts encoding: a prefix that encodes a field is read as that field.
pub fn field_is_read()
    ensures number { (n : ℕ) (rest : List ℕ) → n < 2 ^ 32
        → number_at w32 (be32 n ++ rest) ≡ Some (n, rest) }
    ensures long_number { (n : ℕ) (rest : List ℕ) → n < 2 ^ 64
        → number_at w64 (be64 n ++ rest) ≡ Some (n, rest) }
    ensures string { (text rest : List ℕ) → length text < 2 ^ 32
        → string_at (string text ++ rest) ≡ Some (text, rest) }
    ensures attrs { (attrs : Attrs) (text rest : List ℕ) → SpellsAttrs text attrs
        → attrs_at (text ++ rest) ≡ Some (attrs, rest) }
{}

/// Encoding inverts decoding: the field read is encoded in the prefix consumed.
pub fn read_field_is_there()
    ensures number { (bytes rest : List ℕ) (n : ℕ) → AreBytes bytes
        → number_at w32 bytes ≡ Some (n, rest) → (bytes ≡ be32 n ++ rest) × (n < 2 ^ 32) }
    ensures long_number { (bytes rest : List ℕ) (n : ℕ) → AreBytes bytes
        → number_at w64 bytes ≡ Some (n, rest) → (bytes ≡ be64 n ++ rest) × (n < 2 ^ 64) }
    ensures string { (bytes text rest : List ℕ) → AreBytes bytes
        → string_at bytes ≡ Some (text, rest) → (bytes ≡ string text ++ rest)
        × (length text < 2 ^ 32) }
    ensures attrs { (bytes rest : List ℕ) (attrs : Attrs) → AreBytes bytes
        → attrs_at bytes ≡ Some (attrs, rest) → (text : List ℕ) × (bytes ≡ text ++ rest)
        × SpellsAttrs text attrs }
{}

/// Attributes as the server sends them are a valid encoding of these attributes.
pub fn sent_is_spelled()
    ensures { (attrs : Attrs) → AttrsFit attrs → SpellsAttrs (attrs_text attrs) attrs }
{}

/// Encoded open flags decode to the same flags.
pub fn bits_say_flags()
    ensures say { (flags : OpenFlags) → open_flags (bits_of flags) ≡ flags }
    ensures fit { (flags : OpenFlags) → bits_of flags < 2 ^ 32 }
{}
