//! Hexadecimal decoding for the tests of all crates. The program doesn't use it.
//!
//! Start with `hex_bytes`, which decodes one text; spaces are ignored. `hex_packets` decodes
//! several texts and concatenates the bytes, as a session receives packets. `specs/Digits.antt`
//! defines which bytes a text encodes; other texts are rejected.
#![tactic(auto)]

ghost use Rattle.std.specs.Prelude.{List, ℕ, IfOk, IsOkUnless};
ghost use Rattle.std.specs.List.{flat_map};
ghost use Rattle.sf_hex.specs.Digits.{Spells};

use hex::FromHexError;
use std::alloc::Global;

/// Decodes hexadecimal; spaces are ignored. It fails if the text is not valid hexadecimal or if
/// memory runs out.
pub fn hex_bytes(alloc: Global, text: &str) -> Result<Vec<u8>, FromHexError>
    ensures ok { IfOk result (λ bytes. Spells text.now bytes.items) }
    ensures good { (bytes : List ℕ) → Spells text.now bytes
        → IsOkUnless result FromHexError.OutOfMemory }
{
    let digits: Vec<u8> = text.bytes().filter(|b| *b != b' ').collect(alloc)?;
    hex::decode(alloc, digits.as_slice())
}

/// Decodes the concatenation of texts, one per packet, with the errors of `hex_bytes`.
pub fn hex_packets(alloc: Global, texts: &[&str]) -> Result<Vec<u8>, FromHexError>
    ensures ok { IfOk result (λ bytes. Spells (flat_map (λ text. text.now) texts.now) bytes.items) }
    ensures good { (bytes : List ℕ) → Spells (flat_map (λ text. text.now) texts.now) bytes
        → IsOkUnless result FromHexError.OutOfMemory }
{
    let text = texts.concat(alloc)?;
    hex_bytes(alloc, text.as_str())
}
