//! Looking up the next component of a path.

ghost use Rattle.std.specs.Prelude.{◌≡◌, ◌≢◌, ◌+◌, length, Some, IfSome, IfNone};
ghost use Rattle.sf_inode.specs.Stores.{holder_of, looked_up};
ghost use Rattle.sf_coupling.specs.Walks.{IsFree};
ghost use Rattle.sf_walk.specs.Ways.{way_from};
ghost use Rattle.sf_walk.specs.Steps.{IsFreeThere};
ghost use Rattle.sf_walk.specs.Further.{LeadsOnWay, IsHeldThere, IsFound, Looks};

use crate::finding::Located;
use sf_call::Reached;
use sf_inode::{NodeId, Store};
use sf_path::Path;

/// The result of looking up the next component from a directory.
pub(crate) enum Further {
    /// The directory is the parent of the last name. No lookup was made.
    AtParent,
    /// The next component is missing, or is a file.
    NoDirectory,
    /// The call with this number holds the next directory.
    Held(u64),
    /// The next directory, which no other call holds.
    Free(Reached),
}

/// Looks up the next component of a path, unless it is the last one.
pub(crate) fn look(store: &mut Store, number: u64, path: &Path, at: Reached) -> Further
    requires { LeadsOnWay store.old path.now at.walked at.node }
    ensures { Looks store.old store.new path.now at result
        × IsFound store.old number path.now at result }
{
    if path.len() == at.walked + 1 {
        return Further::AtParent;
    }
    let Some(child) = store.find(at.node, path.name(at.walked)) else {
        return Further::NoDirectory;
    };
    if !store.is_directory(child) {
        return Further::NoDirectory;
    }
    match other_holder(store, number, child) {
        Some(holder) => Further::Held(holder),
        None => Further::Free(Reached {
            walked: at.walked + 1,
            node: child,
        }),
    }
}

/// Looks up the last name of a path in its parent.
pub(crate) fn find_last(store: &mut Store, path: &Path, at: Reached) -> Located
    requires on_way { LeadsOnWay store.old path.now at.walked at.node }
    requires last { at.walked + 1 ≡ length path.now }
    ensures found { result ≡ way_from store.old.nodes store.old.root store.old.root path.now }
    ensures looked { store.new ≡ looked_up store.old }
{
    match store.find(at.node, path.name(at.walked)) {
        Some(node) => Located::At {
            parent: at.node,
            node,
        },
        None => Located::Missing { parent: at.node },
    }
}

/// The number of another call that holds the inode that was found.
pub(crate) fn holder_there(store: &Store, number: u64, found: Located) -> Option<u64>
    ensures some { IfSome result (λ holder. IsHeldThere store.now number found holder) }
    ensures none { IfNone result (IsFreeThere (holder_of store.now.nodes) number found) }
{
    match found {
        Located::At { parent: _, node } => other_holder(store, number, node),
        Located::NoWay => None,
        Located::Missing { parent: _ } => None,
    }
}

/// The number of another call that holds an inode.
pub(crate) fn other_holder(store: &Store, number: u64, node: NodeId) -> Option<u64>
    ensures some { IfSome result (λ holder. (holder_of store.now.nodes node ≡ Some holder)
        × (number ≢ holder)) }
    ensures none { IfNone result (IsFree (holder_of store.now.nodes) number node) }
{
    match store.holder(node) {
        Some(holder) => { if holder == number { None } else { Some(holder) } }
        None => None,
    }
}
