//! Laws of writing by blocks.

ghost use Rattle.std.specs.Prelude.{◌≡◌, ◌<◌, ◌≤◌, ◌+◌, ℕ, List, length};
ghost use Rattle.sf_block.specs.Contents.{FileBytes, complete, blocks_of, most_blocks, copied};

/// At any start, a write touches at most one block more than its bytes fill, rounded up. A write of
/// 10000 bytes at 4000 touches four.
#[tactic(auto, using(crate::proofs::Counts::blocks_few, crate::proofs::Counts::four_blocks))]
pub fn few_blocks()
    ensures few { (start : ℕ) (bytes : List ℕ) → blocks_of start bytes ≤ most_blocks bytes }
    ensures four { (bytes : List ℕ) → length bytes ≡ 10000 → blocks_of 4000 bytes ≡ 4 }
{}

/// Copying each remaining block gives the whole file, as does copying all that remain at once, also
/// after some were copied.
#[tactic(auto, using(crate::proofs::Counts::copied_all, crate::proofs::Counts::copied_rest))]
pub fn copied_whole()
    ensures all { (file : FileBytes) → copied file.left file ≡ complete file.bytes }
    ensures rest { (n : ℕ) (file : FileBytes)
        → complete (copied n file).bytes ≡ complete file.bytes }
{}
