//! Paths in a line.

ghost use Rattle.std.specs.Fmt.{WritesOnOk};
ghost use Rattle.std.specs.List.{flat_map};
ghost use Rattle.sf_path.specs.Names.{slashed, text_of};
ghost use Rattle.sf_log.specs.Lines.{octal, escaped};

use sf_path::Path;
use std::fmt;

/// A path in quotes, with its bytes escaped.
#[derive(Clone, Copy)]
pub(crate) struct QuotedPath<'a>(pub(crate) &'a Path);

/// A backslash, and a byte as three octal digits.
fn write_octal<W: fmt::Write>(f: &mut fmt::Formatter<W>, byte: u8) -> fmt::Result
    ensures { WritesOnOk W.write_str_gives f.old result (octal byte) f.new }
{
    let (high, middle, low) = (byte / 64, byte / 8 % 8, byte % 8);
    write!(f, "\\{high}{middle}{low}")
}

/// A byte, escaped if necessary.
fn write_byte<W: fmt::Write>(f: &mut fmt::Formatter<W>, byte: u8) -> fmt::Result
    ensures { WritesOnOk W.write_str_gives f.old result (escaped byte) f.new }
{
    match byte {
        b'"' => f.write_str("\\\""),
        b'\\' => f.write_str("\\\\"),
        b' '..=b'~' => f.write_char(char::from(byte)),
        7 => f.write_str("\\a"),
        8 => f.write_str("\\b"),
        b'\t' => f.write_str("\\t"),
        b'\n' => f.write_str("\\n"),
        11 => f.write_str("\\v"),
        12 => f.write_str("\\f"),
        b'\r' => f.write_str("\\r"),
        _ => write_octal(f, byte),
    }
}

/// Bytes, each escaped if necessary.
fn write_bytes<W: fmt::Write>(f: &mut fmt::Formatter<W>, bytes: &[u8]) -> fmt::Result
    ensures { WritesOnOk W.write_str_gives f.old result (flat_map escaped bytes.now) f.new }
{
    for byte in bytes {
        write_byte(f, *byte)?;
    }
    Ok(())
}

/// A slash and a name.
fn write_name<W: fmt::Write>(f: &mut fmt::Formatter<W>, name: &[u8]) -> fmt::Result
    ensures { WritesOnOk W.write_str_gives f.old result
        (flat_map escaped (slashed name.now)) f.new }
{
    f.write_str("/")?;
    write_bytes(f, name)
}

/// The text of a path.
fn write_path<W: fmt::Write>(f: &mut fmt::Formatter<W>, path: &Path) -> fmt::Result
    ensures { WritesOnOk W.write_str_gives f.old result
        (flat_map escaped (text_of path.now)) f.new }
{
    if path.is_root() {
        return f.write_str("/");
    }
    for i in 0..path.len() {
        write_name(f, path.name(i).as_slice())?;
    }
    Ok(())
}

impl fmt::Display for QuotedPath<'_> {
    ghost use Rattle.std.specs.Prelude.{Some};
    ghost use Rattle.sf_log.specs.Lines.{quoted};

    ghost output = { λ path. Some (quoted path.0.now) };

    fn fmt<W: fmt::Write>(&self, f: &mut fmt::Formatter<W>) -> fmt::Result {
        f.write_str("\"")?;
        write_path(f, self.0)?;
        f.write_str("\"")
    }
}
