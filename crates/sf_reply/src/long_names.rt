//! The `longname` of a listing entry. The draft leaves its layout to the server.

ghost use Rattle.std.specs.Prelude.{◌≡◌, Some, IfOk, IsSome};
ghost use Rattle.std.specs.String.{string_bytes};
ghost use Rattle.sf_reply.specs.Longname.{HasType, place, mode_text, columns_text, longname_text};

use sf_field::{Attrs, Owner};
use std::alloc::{AllocError, Global};

/// The type bits of a directory, shifted right by the 12 permission bits.
const DIRECTORY: u32 = 4;

/// The bytes between mode and name, if every number fits its column.
const COLUMNS: usize = 45;

/// The bytes before the name, if every number fits its column.
const FRONT: usize = 10 + COLUMNS;

fn letter(permissions: u32, bit: u32, letter: u8) -> u8
    ensures { result ≡ place permissions bit letter }
{
    if permissions & bit == 0 { b'-' } else { letter }
}

fn mode(permissions: u32) -> [u8; 10]
    ensures { result ≡ mode_text permissions }
{
    let kind = if permissions / 0o10000 == DIRECTORY {
        b'd'
    } else {
        b'-'
    };
    [
        kind,
        letter(permissions, 0o400, b'r'),
        letter(permissions, 0o200, b'w'),
        letter(permissions, 0o100, b'x'),
        letter(permissions, 0o40, b'r'),
        letter(permissions, 0o20, b'w'),
        letter(permissions, 0o10, b'x'),
        letter(permissions, 0o4, b'r'),
        letter(permissions, 0o2, b'w'),
        letter(permissions, 0o1, b'x'),
    ]
}

fn columns(
    alloc: Global,
    links: u64,
    owner: Owner,
    size: u64,
    mtime: u32,
) -> Result<String, AllocError>
    ensures { IfOk result (λ text. string_bytes text ≡ columns_text links owner size mtime) }
{
    let Owner { uid, gid } = owner;
    let mut text = String::with_capacity(alloc, COLUMNS)?;
    write!(text, " {links:>3} {uid:<8} {gid:<8} {size:>8} {mtime:>12} ")?;
    Ok(text)
}

/// Formats a listing line in the style of `ls -l`. The fields are separated by single spaces:
/// - type and permissions;
/// - link count, right-aligned in 3 columns;
/// - uid and gid, each left-aligned in 8;
/// - size in bytes, right-aligned in 8;
/// - modification time in seconds since 1970, right-aligned in 12;
/// - name.
///
/// Wider numbers are not truncated.
pub fn longname(
    alloc: Global,
    attrs: &Attrs,
    links: u64,
    name: &[u8],
) -> Result<Vec<u8>, AllocError>
    requires size { IsSome attrs.now.size }
    requires owner { IsSome attrs.now.owner }
    requires kind { HasType attrs.now.permissions }
    requires times { IsSome attrs.now.times }
    ensures { IfOk result (λ line. longname_text attrs.now links name.now ≡ Some line.items) }
{
    let (Some(size), Some(owner)) = (attrs.size, attrs.owner) else {
        unreachable!()
    };
    let (Some(permissions), Some(times)) = (attrs.permissions, attrs.times) else {
        unreachable!()
    };
    let mut line = Vec::with_capacity(alloc, FRONT + name.len())?;
    line.extend_from_slice(&mode(permissions))?;
    line.extend_from_slice(columns(alloc, links, owner, size, times.mtime)?.as_bytes())?;
    line.extend_from_slice(name)?;
    Ok(line)
}
