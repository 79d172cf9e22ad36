//! Laws of block-by-block writes.

ghost use Rattle.std.specs.Prelude.{◌≡◌, ℕ, Some};
ghost use Rattle.sf_copying.specs.Copies.{Copying, Copiers, AreCopies, StartsToCopy, CopiesOneBlock, CopiesRest, Spares};

/// Two calls never copy into one file.
#[tactic(auto, using(crate::proofs::Laws::one_writer))]
pub fn written_once()
    ensures { (s : Copiers) → AreCopies s → (n m : ℕ) (c d : Copying) → s.copying_of n ≡ Some c
        → s.copying_of m ≡ Some d → c.file ≡ d.file → n ≡ m }
{}

/// A call that starts to copy into a free file preserves the invariant.
#[tactic(auto, using(crate::proofs::Laws::starts_keeps))]
pub fn start_kept()
    ensures { (old new : Copiers) (n : ℕ) (c : Copying) → AreCopies old → StartsToCopy old new n c
        → AreCopies new }
{}

/// So does a call that copies a block with more left.
#[tactic(auto, using(crate::proofs::Laws::goes_keeps))]
pub fn block_kept()
    ensures { (old new : Copiers) (n : ℕ) (c : Copying) (k : ℕ) → AreCopies old
        → CopiesOneBlock old new n c k → AreCopies new }
{}

/// So does a call that copies the last block, and a call that copies the rest for another one.
#[tactic(auto, using(crate::proofs::Laws::ends_keeps))]
pub fn end_kept()
    ensures { (old new : Copiers) (n : ℕ) (c : Copying) → AreCopies old → CopiesRest old new n c
        → AreCopies new }
{}

/// So does the completion of another call, and the end of a session.
#[tactic(auto, using(crate::proofs::Laws::spares_keeps))]
pub fn others_kept()
    ensures { (old new : Copiers) → AreCopies old → Spares old new → AreCopies new }
{}
