//! The invariant of WRITEs that copy their data block by block: each file being written is held by
//! its writer. Definitions and laws, no code.
//!
//! Start with `specs/Copies.antt`. `Copiers` is the state: the file that each call copies into, the
//! writer of each file, and the number of blocks left. `AreCopies` is the invariant: a copying call
//! holds its file, no other file is held, and a free file has no block left. The laws are for
//! readers; `proofs/Laws.antt` has those that other crates cite.
#![tactic(auto)]

mod copy_laws;

pub use copy_laws::{block_kept, end_kept, others_kept, start_kept, written_once};
