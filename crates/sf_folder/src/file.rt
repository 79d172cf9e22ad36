//! The bytes of a file, without its holes.

ghost use Rattle.std.specs.Prelude.{◌≡◌, ◌≤◌, ◌<◌, [], length, IfOk, IfSome, IfNone, vec_len};
ghost use Rattle.sf_folder.specs.Contents.{AreZeros, IsZeroFrom, AreBytesAt};
ghost use Rattle.sf_folder.specs.Pieces.{IsPieceAfter};

use crate::stat::Found;
use crate::system::{Descriptor, ENXIO, ReadFault, Sought};
use sf_field::Attrs;
use std::alloc::Global;

/// The most bytes that one read returns.
const PIECE: u64 = 131072;

/// A file that is read from its start.
#[derive(Drop)]
pub(crate) struct LocalFile<D: Descriptor> {
    file: D,
    found: Found,
    /// The offset of the next read.
    at: u64,
}

/// Bytes of a file at an offset.
#[derive(Drop)]
pub(crate) struct Piece {
    pub(crate) offset: u64,
    pub(crate) bytes: Vec<u8>,
}

/// The offset of the next data, or the file's size if there is none. If the system can't find
/// holes, all bytes are data.
fn data_from<D: Descriptor>(file: &D, offset: u64, size: u64) -> u64
    ensures after { result < size → offset ≤ result }
    ensures zeros { IfSome (D.contents file.now) (λ bytes. AreZeros bytes offset result) }
{
    match file.seek(offset, Sought::Data) {
        Ok(place) if place >= offset => place,
        Err(ENXIO) => size,
        _ => offset,
    }
}

/// The end of the data at an offset, at most the file's size.
fn data_to<D: Descriptor>(file: &D, from: u64, size: u64) -> u64
    ensures { from < size → (from < result) × (result ≤ size) }
{
    match file.seek(from, Sought::Hole) {
        Ok(place) if place > from => place.min(size),
        _ => size,
    }
}

/// Up to `count` bytes of a file; none at its end.
fn read_bytes<D: Descriptor>(
    alloc: Global,
    file: &D,
    offset: u64,
    count: usize,
) -> Result<Vec<u8>, ReadFault>
    ensures read { IfOk result (λ part. IfSome (D.contents file.now)
        (λ bytes. AreBytesAt bytes offset part.items)) }
    ensures ended { IfOk result (λ part. IfSome (D.contents file.now)
        (λ bytes. part.items ≡ [] → 0 < count → length bytes ≤ offset)) }
    ensures within { IfOk result (λ part. vec_len part ≤ count) }
{
    let mut bytes = vec![in alloc; 0u8; count]?;
    match file.read(offset, &mut bytes) {
        Ok(got) => {
            bytes.truncate(got);
            Ok(bytes)
        }
        Err(error) => Err(ReadFault::System(error)),
    }
}

impl<D: Descriptor> LocalFile<D> {
    /// A file that was opened. `found` is of then.
    pub(crate) fn new(file: D, found: Found) -> LocalFile<D>
        ensures { result ≡ record { file = file; found = found; at = 0 } }
    {
        LocalFile { file, found, at: 0 }
    }

    /// The next bytes, or `None` at the end.
    pub(crate) fn next(&mut self, alloc: Global) -> Result<Option<Piece>, ReadFault>
        ensures same { (self.new.file ≡ self.old.file) × (self.new.found ≡ self.old.found) }
        ensures some { IfOk result (λ found. IfSome found (λ piece.
            IfSome (D.contents self.old.file) (λ bytes.
            IsPieceAfter bytes self.old.at piece.offset piece.bytes.items self.new.at))) }
        ensures none { IfOk result (λ found. IfNone found (IfSome (D.contents self.old.file)
            (λ bytes. self.old.found.size ≡ length bytes → IsZeroFrom bytes self.old.at))) }
    {
        let size = self.found.size;
        let from = data_from(&self.file, self.at, size);
        if from >= size {
            return Ok(None);
        }
        let to = data_to(&self.file, from, size);
        let count = (to - from).min(PIECE) as usize;
        let bytes = read_bytes(alloc, &self.file, from, count)?;
        if bytes.is_empty() {
            return Ok(None);
        }
        self.at = from.saturating_add(bytes.len() as u64);
        Ok(Some(Piece {
            offset: from,
            bytes,
        }))
    }

    /// After the end: the attributes, and how the file changed while it was read.
    pub(crate) fn end(&self) -> Result<(Attrs, Option<&'static str>), ReadFault>
        ensures { IfOk result (λ end. IfSome (D.contents self.now.file) (λ bytes.
            self.now.found.size ≡ length bytes → end.0.size ≡ Some (length bytes))) }
    {
        let Found { size, attrs, .. } = self.found;
        let now = match self.file.found() {
            Ok(now) => now,
            Err(error) => return Err(ReadFault::System(error)),
        };
        let attrs = Attrs {
            size: Some(size.min(now.size)),
            ..attrs
        };
        Ok((attrs, self.found.change_to(&now)))
    }
}
