//! The leaves of a snapshot, as numbers and bytes.

ghost use Rattle.std.specs.Prelude.{◌≡◌, ◌<◌, ◌≤◌, ◌+◌, ◌-◌, ◌^◌, ℕ, length, min, take, drop, replicate, slice_get, pos, IfOk, IfErr};
ghost use Rattle.std.specs.Option.{option_copied};
ghost use Rattle.sf_path.specs.Names.{text_of};
ghost use Rattle.sf_c.specs.Trees.{HasTree, leaf_parts, bytes_at, bytes_of_object, IsFilled, ReadsBytes, ReadsLeaf, HasGap, TellsGap, TellsLeaf};

use crate::copy_front;
use crate::record_parts::{Attributes, attributes_parts};
use sf_block::WholeContents;
use sf_call::Leaf;
use sf_engine::Engine;
use std::alloc::{AllocError, Global};
use std::marker::Model;

/// The size of a file's buffers in bytes. A read within one buffer allocates nothing.
const RUN: u64 = 32768;

/// A snapshot of a tree: each path, with its inode's label, attributes and contents.
pub struct Leaves {
    leaves: Vec<Leaf>,
}

impl Drop for Leaves {
    // By hand: a proof about dropping leaves then has one call, and not the list's drop.
    fn drop(self) {
        let Self { leaves: _leaves } = self;
    }
}

impl Model for Leaves {
    ghost use Rattle.std.specs.Prelude.{List};
    ghost use Rattle.sf_call.specs.Leaves.{Leaf};

    ghost Value = { List Leaf };

    ghost view = { λ tree. tree.leaves.items };
}

/// The numbers of a leaf, with the length of its path's text in bytes.
#[repr(C)]
#[derive(Clone, Copy, Debug)]
pub struct LeafParts {
    pub attributes: Attributes,
    pub label: u64,
    pub path: u64,
}

impl Leaves {
    /// Takes a snapshot of an engine's tree.
    fn of(engine: &Engine, alloc: Global) -> Result<Leaves, AllocError>
        ensures { IfOk result (λ leaves. HasTree engine.now leaves) }
    {
        let leaves = engine.tree(alloc)?;
        Ok(Leaves { leaves })
    }

    /// The leaf at an index.
    fn get(&self, at: u64) -> Option<&Leaf>
        ensures { option_copied result ≡ slice_get self.now at }
    {
        self.leaves.get(at as usize)
    }

    fn len(&self) -> usize
        ensures is { result ≡ length self.now }
        ensures few { result < 2 ^ 63 }
    {
        self.leaves.len()
    }
}

/// Takes a snapshot of an engine's tree, in a box.
pub fn tree_of(engine: &Engine, alloc: Global) -> Result<Box<Leaves, Global>, AllocError>
    ensures { IfOk result (λ leaves. HasTree engine.now leaves.value) }
{
    match Box::new(alloc, Leaves::of(engine, alloc)?) {
        Ok(leaves) => Ok(leaves),
        Err(_) => Err(AllocError),
    }
}

/// The numbers of a leaf; `path` is the length of its path's text.
fn leaf_parts(leaf: &Leaf, path: usize) -> LeafParts
    requires { path ≡ length (text_of leaf.now.0) }
    ensures { result ≡ leaf_parts leaf.now }
{
    LeafParts {
        attributes: attributes_parts(&leaf.attrs()),
        label: leaf.label(),
        path: path as u64,
    }
}

/// Copies the numbers of the leaf at an index, and as much of its path's text as fits into `room`.
/// Returns the number of leaves, or -1 if memory runs out.
pub fn copy_leaf(
    alloc: Global,
    leaves: &Leaves,
    at: u64,
    parts: &mut LeafParts,
    room: &mut [u8],
) -> i64
    ensures { TellsLeaf leaves.now at parts.old room.old result parts.new room.new }
{
    let Some(leaf) = leaves.get(at) else {
        return leaves.len() as i64;
    };
    let Ok(text) = leaf.path().text(alloc) else {
        return -1;
    };
    *parts = leaf_parts(leaf, text.len());
    copy_front(room, &text);
    leaves.len() as i64
}

/// Copies bytes of a file from an offset, up to the end of `room` or of the file's buffer. Returns
/// the number of bytes.
fn read_run(
    alloc: Global,
    contents: &WholeContents,
    offset: u64,
    room: &mut [u8],
) -> Result<usize, AllocError>
    requires more { offset < length contents.now }
    requires some { 0 < length room.old }
    ensures ok { IfOk result (λ n. (0 < n) × (n ≤ length room.old)
        × (offset + n ≤ length contents.now)
        × IsFilled (drop offset contents.now) n room.old room.new) }
    ensures err { IfErr result (λ e. room.new ≡ room.old) }
{
    let most = ((RUN - offset % RUN) as usize).min(room.len());
    let bytes = contents.read(alloc, offset, most)?;
    copy_front(room, bytes.as_slice());
    Ok(bytes.len())
}

/// Copies `count` bytes of a file from an offset into `room`, buffer by buffer.
fn read_runs(
    alloc: Global,
    contents: &WholeContents,
    offset: u64,
    count: usize,
    room: &mut [u8],
) -> Result<(), AllocError>
    requires there { offset + count ≤ length contents.now }
    requires small { length contents.now < 2 ^ 64 }
    requires fits { count ≤ length room.old }
    ensures ok { IfOk result (λ done. IsFilled (drop offset contents.now) count room.old room.new) }
    ensures err { IfErr result (λ e. (n : ℕ)
        × IsFilled (drop offset contents.now) n room.old room.new) }
{
    let mut done = 0;
    'runs: while done < count {
        done += read_run(
            alloc,
            contents,
            offset + done as u64,
            &mut room[done..count],
        )?;
    }
    Ok(())
}

/// Copies bytes of a file from an offset, as many as fit into `room`. Returns their number, or -1
/// if memory runs out.
fn read_contents(alloc: Global, contents: &WholeContents, offset: u64, room: &mut [u8]) -> i64
    ensures { ReadsBytes (drop offset contents.now) room.old result room.new }
{
    let size = contents.len();
    if offset >= size {
        return 0;
    }
    let count = (size - offset).min(room.len() as u64) as usize;
    match read_runs(alloc, contents, offset, count, room) {
        Ok(()) => count as i64,
        Err(_) => -1,
    }
}

/// The contents of the leaf at an index, if it is a file.
fn contents_at(leaves: &Leaves, at: u64) -> Option<&WholeContents>
    ensures { bytes_of_object (option_copied result) ≡ bytes_at leaves.now at }
{
    leaves.get(at)?.contents()
}

/// Copies bytes of the leaf at an index from an offset, as many as fit into `room`. Returns their
/// number, or -1 if memory runs out.
pub fn read_leaf(alloc: Global, leaves: &Leaves, at: u64, offset: u64, room: &mut [u8]) -> i64
    ensures { ReadsLeaf leaves.now at offset room.old result room.new }
{
    match contents_at(leaves, at) {
        Some(contents) => read_contents(alloc, contents, offset, room),
        None => 0,
    }
}

/// The length of the hole at an offset: zeros that take no memory. At most 2^63 - 1.
fn gap_in(contents: &WholeContents, offset: u64) -> i64
    ensures { HasGap (drop offset contents.now) result }
{
    contents.gap(offset).min(i64::MAX as u64) as i64
}

/// The length of the hole at an offset of the leaf at an index.
pub fn gap_at(leaves: &Leaves, at: u64, offset: u64) -> i64
    ensures { TellsGap leaves.now at offset result }
{
    match contents_at(leaves, at) {
        Some(contents) => gap_in(contents, offset),
        None => 0,
    }
}
