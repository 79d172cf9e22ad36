//! Parses a text into the names of a path.

ghost use Rattle.std.specs.Prelude.{◌≡◌, IfOk, OnOk, nat_lt, length, None};
ghost use Rattle.std.specs.List.{list_any};
ghost use Rattle.sf_path.specs.Names.{IsPart};
ghost use Rattle.sf_path.specs.Normal.{parts, with_part, norm, fault_of};

use crate::name::Name;
use std::alloc::{AllocError, Global};

/// Whether a component of the text is longer than 255 bytes.
pub fn has_long_part(text: &[u8]) -> bool
    ensures { result ≡ list_any (λ part. nat_lt 255 (length part)) (parts text.now) }
{
    if text.len() <= 255 {
        return false;
    }
    text.split(|b| *b == b'/').any(|part| part.len() > 255)
}

/// The names of the normal form of a text without a fault.
pub fn names_of(alloc: Global, text: &[u8]) -> Result<Vec<Name>, AllocError>
    requires { fault_of text.now ≡ None }
    ensures { IfOk result (λ names. names.items ≡ norm text.now) }
{
    let mut names = Vec::new(alloc);
    for part in text.split(|b| *b == b'/') {
        add_part(alloc, &mut names, part)?;
    }
    Ok(names)
}

/// Applies one component to a path: `..` removes the last name, and a name is appended.
fn add_part(alloc: Global, names: &mut Vec<Name>, part: &[u8]) -> Result<(), AllocError>
    requires { IsPart part.now }
    ensures { OnOk result (names.new.items ≡ with_part names.old.items part.now) }
{
    match part {
        [] | [b'.'] => {}
        [b'.', b'.'] => {
            let _ = names.pop();
        }
        name => names.push(Name::from_slice(alloc, name)?)?,
    }
    Ok(())
}
