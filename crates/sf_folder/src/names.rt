//! The names in a directory.

ghost use Rattle.std.specs.Prelude.{IfOk};
ghost use Rattle.sf_folder.specs.Names.{AddsNames, HasAll, IsReverseListing};

use crate::system::{Descriptor, ReadFault};
use std::alloc::{AllocError, Global};

/// Adds a name, unless it is `.` or `..`.
fn add_name(alloc: Global, names: &mut Vec<Vec<u8>>, name: &[u8]) -> Result<(), AllocError>
    ensures { AddsNames names.old.items names.new.items }
{
    if name == b".".as_slice() || name == b"..".as_slice() {
        return Ok(());
    }
    let mut copy = Vec::new(alloc);
    copy.extend_from_slice(name)?;
    names.push(copy)?;
    Ok(())
}

/// Adds names from a buffer in which each ends with a 0 byte, except `.` and `..`.
pub(crate) fn add_names(
    alloc: Global,
    names: &mut Vec<Vec<u8>>,
    packed: &[u8],
) -> Result<(), AllocError>
    ensures { AddsNames names.old.items names.new.items }
{
    let mut rest = packed;
    for _ in 0..packed.len() {
        if rest.is_empty() {
            break;
        }
        let len = os::name_length(rest);
        add_name(alloc, names, &rest[..len])?;
        rest = rest[len..].get(1..).unwrap_or(&[]);
    }
    Ok(())
}

/// All names that a directory lists.
fn all_names<D: Descriptor>(alloc: Global, directory: &mut D) -> Result<Vec<Vec<u8>>, ReadFault>
    ensures { IfOk result (λ names. HasAll (D.listing directory.old) names.items) }
{
    let mut names = Vec::new(alloc);
    for _ in 0..u64::MAX {
        if !directory.list(alloc, &mut names)? {
            return Ok(names);
        }
    }
    Err(ReadFault::System(libc::EFBIG))
}

/// All names that a directory lists, in reverse order.
pub(crate) fn names_in<D: Descriptor>(
    alloc: Global,
    directory: &mut D,
) -> Result<Vec<Vec<u8>>, ReadFault>
    ensures { IfOk result (λ names. IsReverseListing ⟦<Vec<u8> as Ord>⟧.cmp
        (D.listing directory.old) names.items) }
{
    let mut names = all_names(alloc, directory)?;
    names.sort_unstable();
    names.reverse();
    Ok(names)
}
