//! Text for a terminal.

ghost use Rattle.std.specs.Prelude.{◌≡◌, ◌++◌, true, IfOk, OnOk};
ghost use Rattle.std.specs.Str.{IsUtf8};
ghost use Rattle.sf_program.specs.Terminal.{terminal_byte, IsTerminalText};

use std::alloc::{AllocError, Global};

/// Whether these bytes are UTF-8, without the control characters that are not ASCII.
fn is_text(bytes: &[u8]) -> bool
    ensures { result ≡ true → IsUtf8 bytes.now }
{
    match str::from_utf8(bytes) {
        Ok(text) => !text.chars().any(|c| c >= '\u{80}' && c <= '\u{9f}'),
        Err(_) => false,
    }
}

/// Adds a byte, or what is shown in its place.
fn push_byte(text: &mut Vec<u8>, keeps: bool, byte: u8) -> Result<(), AllocError>
    ensures { OnOk result (text.new.items ≡ text.old.items ++ terminal_byte keeps byte) }
{
    if byte == b'\\' {
        return text.extend_from_slice(b"\\\\");
    }
    if byte >= b' ' && byte <= b'~' || keeps && byte >= 128 {
        return text.extend_from_slice(&[byte]);
    }
    let octal = [
        b'\\',
        b'0' + byte / 64,
        b'0' + byte / 8 % 8,
        b'0' + byte % 8,
    ];
    text.extend_from_slice(&octal)
}

/// A name as text for a terminal. A control character becomes a backslash and three octal digits,
/// and a backslash becomes two. If the name isn't UTF-8, each byte that isn't ASCII becomes octal
/// too.
pub fn terminal_text(alloc: Global, name: &[u8]) -> Result<Vec<u8>, AllocError>
    ensures { IfOk result (λ text. IsTerminalText name.now text.items) }
{
    let keeps = is_text(name);
    let mut text = Vec::new(alloc);
    for byte in name {
        push_byte(&mut text, keeps, *byte)?;
    }
    Ok(text)
}
