//! All paths of a store.

ghost use Rattle.std.specs.Prelude.{◌≡◌, [], ◌∷◌, ◌++◌, IfOk, OnOk};
ghost use Rattle.sf_inode.specs.Leaves.{AreLeaves};

use super::Store;
use crate::NodeId;
use sf_call::Leaf;
use sf_path::Path;
use std::alloc::{AllocError, Global};
use std::collections::VecDeque;

impl Store {
    /// Each path with its object, in path order. The bytes of files are shared; those still to be
    /// copied count as copied.
    pub fn leaves(&self, alloc: Global) -> Result<Vec<Leaf>, AllocError>
        ensures { IfOk result (λ leaves. AreLeaves self.now.nodes (([], self.now.root) ∷ [])
            leaves.items) }
    {
        let mut leaves = Vec::new(alloc);
        let mut waiting = VecDeque::new(alloc);
        waiting.push_front((Path::root(), self.root))?;
        'paths: while let Some((path, id)) = waiting.pop_front() {
            if let Some(node) = self.nodes.get(id) {
                put_first(&mut waiting, node.below(alloc, &path)?)?;
                leaves.push(node.leaf(alloc, path)?)?;
            }
        }
        Ok(leaves)
    }
}

/// Prepends paths to the pending ones.
fn put_first(
    waiting: &mut VecDeque<(Path, NodeId)>,
    mut below: Vec<(Path, NodeId)>,
) -> Result<(), AllocError>
    ensures { OnOk result (waiting.new.items ≡ below.items ++ waiting.old.items) }
{
    while let Some(last) = below.pop() {
        waiting.push_front(last)?;
    }
    Ok(())
}
