//! All paths with their objects.

ghost use Rattle.std.specs.Prelude.{◌≡◌, IfOk};
ghost use Rattle.sf_call.specs.Leaves.{leaf_of, leaves_of};

use super::PlainTree;
use sf_call::Leaf;
use sf_path::Path;
use std::alloc::AllocError;

impl PlainTree {
    /// A path with the object of its inode number.
    fn leaf(&self, path: &Path, label: u64) -> Result<Option<Leaf>, AllocError>
        ensures { IfOk result (λ leaf. leaf ≡ leaf_of self.now.objects (path.now, label)) }
    {
        match self.objects.get(&label) {
            Some(node) => Ok(Some(node.leaf(self.alloc, path.share()?, label)?)),
            None => Ok(None),
        }
    }

    /// Each path once, in path order, with its object. Contents are shared.
    pub fn leaves(&self) -> Result<Vec<Leaf>, AllocError>
        ensures { IfOk result (λ leaves. leaves.items ≡ leaves_of self.now) }
    {
        let mut leaves = Vec::new(self.alloc);
        'names: for (path, label) in &self.names {
            if let Some(leaf) = self.leaf(path, *label)? {
                leaves.push(leaf)?;
            }
        }
        Ok(leaves)
    }
}
