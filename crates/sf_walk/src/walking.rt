//! Steps of path resolution.

ghost use Rattle.std.specs.Prelude.{◌≡◌, ◌+◌, ◌<◌, true, [], length};
ghost use Rattle.sf_call.specs.declared.call.Stage.TheVariants as stage;
ghost use Rattle.sf_inode.specs.Nodes.{with_holder};
ghost use Rattle.sf_inode.specs.Stores.{is_directory_at, edited};
ghost use Rattle.sf_call.specs.Routes.{route_in};
ghost use Rattle.sf_walk.specs.Routes.{HoldsWay, reached, nodes_of};
ghost use Rattle.sf_call.specs.Routes.Route.{Along, Between};
ghost use Rattle.sf_walk.specs.Steps.{Advances, walker, is_one_of, free_unless, let_go};
ghost use Rattle.sf_walk.specs.Further.{LeadsOnWay, ComesToBoth, PartLater};

use crate::ends::{Ends, at_ends};
use crate::finding::{Located, Ways};
use crate::looking::{Further, find_last, holder_there, look, other_holder};
use sf_call::{Reached, RoutePaths, Stage};
use sf_inode::{NodeId, Store};
use sf_path::Path;

/// The outcome of a step of path resolution.
#[derive(Clone, Copy, Debug, PartialEq, Eq)]
pub enum Walk {
    /// The call holds another directory, and reached this stage.
    Moved(Stage),
    /// The call with this number holds the directory that this call needs.
    Blocked(u64),
    /// The call can be decided, with the result of resolving its paths.
    Ready(Ways),
}

/// Takes one step of a call, by lock coupling. The step acquires the root; or it looks up the next
/// component, acquires that directory, and then releases the one above. A call without a path, or
/// on the root's path, decides at once and holds nothing. A call on another path decides at the
/// parent of its last name, or at a component that is missing or a file.
///
/// A call on two paths follows the old one. Where they part, it keeps the last common directory. It
/// proceeds to the old path's parent, and then from the common directory to the new path's parent.
/// It decides with both parents held, once no other call holds the inode of the new path. It
/// doesn't wait for the inode of the old path.
///
/// Returns the stage that the call reached; the caller stores it.
pub fn advance(store: &mut Store, number: u64, route: RoutePaths<'_>, at: Stage) -> Walk
    requires root { is_directory_at store.old.nodes store.old.root ≡ true }
    requires stands { HoldsWay store.old (route_in route) at }
    ensures { Advances store.old store.new (walker number (route_in route.entry) at) result }
{
    match route {
        RoutePaths::NoPath => Walk::Ready(Ways::no_path()),
        RoutePaths::Along(path) => match at {
            Stage::Fresh => first(store, number, path),
            Stage::At { walked, node } => onward(store, number, path, Reached { walked, node }),
            Stage::Ends { .. } | Stage::Copies { .. } => unreachable!(),
        },
        RoutePaths::Between(old, new) => match at {
            Stage::Fresh => first_of_two(store, number, old, new),
            Stage::At { walked, node } => {
                together(store, number, old, new, Reached { walked, node })
            }
            Stage::Ends {
                common,
                old: from,
                new: to,
            } => at_ends(
                store,
                number,
                old,
                new,
                Ends {
                    common,
                    old: from,
                    new: to,
                },
            ),
            Stage::Copies { .. } => unreachable!(),
        },
    }
}

/// Acquires the root, unless the path is the root's.
fn first(store: &mut Store, number: u64, path: &Path) -> Walk
    requires root { is_directory_at store.old.nodes store.old.root ≡ true }
    ensures { Advances store.old store.new (walker number (Along path.now) stage.Fresh) result }
{
    let root = store.root();
    if path.is_root() {
        return Walk::Ready(Ways::along(Located::At {
            parent: root,
            node: root,
        }));
    }
    if let Some(holder) = other_holder(store, number, root) {
        return Walk::Blocked(holder);
    }
    store.hold(root, number);
    Walk::Moved(Stage::At {
        walked: 0,
        node: root,
    })
}

/// Acquires the root for a call on two paths.
fn first_of_two(store: &mut Store, number: u64, old: &Path, new: &Path) -> Walk
    requires root { is_directory_at store.old.nodes store.old.root ≡ true }
    requires apart { PartLater old.now new.now 0 }
    ensures { Advances store.old store.new (walker number (Between old.now new.now) stage.Fresh)
        result }
{
    let root = store.root();
    if let Some(holder) = other_holder(store, number, root) {
        return Walk::Blocked(holder);
    }
    let to = Reached {
        walked: 0,
        node: root,
    };
    store.hold(root, number);
    Walk::Moved(arrived(old, new, to))
}

/// Resolves one more component from a directory.
fn onward(store: &mut Store, number: u64, path: &Path, at: Reached) -> Walk
    requires on_way { LeadsOnWay store.old path.now at.walked at.node }
    ensures { Advances store.old store.new
        (walker number (Along path.now) (stage.At at.walked at.node)) result }
{
    match look(store, number, path, at) {
        Further::AtParent => at_parent(store, number, path, at),
        Further::NoDirectory => Walk::Ready(Ways::along(Located::NoWay)),
        Further::Held(holder) => Walk::Blocked(holder),
        Further::Free(to) => {
            let after = Stage::At {
                walked: to.walked,
                node: to.node,
            };
            store.hold(to.node, number);
            free_unless(store, at.node, after);
            Walk::Moved(after)
        }
    }
}

/// Decides at the parent of a path's last name, unless another call holds the inode of that name.
fn at_parent(store: &mut Store, number: u64, path: &Path, at: Reached) -> Walk
    requires on_way { LeadsOnWay store.old path.now at.walked at.node }
    requires last { at.walked + 1 ≡ length path.now }
    ensures { Advances store.old store.new
        (walker number (Along path.now) (stage.At at.walked at.node)) result }
{
    let found = find_last(store, path, at);
    match holder_there(store, number, found) {
        Some(holder) => Walk::Blocked(holder),
        None => Walk::Ready(Ways::along(found)),
    }
}

/// Resolves one more component of the common prefix of two paths.
fn together(store: &mut Store, number: u64, old: &Path, new: &Path, at: Reached) -> Walk
    requires on_way { LeadsOnWay store.old old.now at.walked at.node }
    requires before { PartLater old.now new.now (at.walked + 1) }
    ensures { Advances store.old store.new
        (walker number (Between old.now new.now) (stage.At at.walked at.node)) result }
{
    match look(store, number, old, at) {
        Further::AtParent => unreachable!(),
        Further::NoDirectory => Walk::Ready(Ways::between(Located::NoWay, Located::NoWay)),
        Further::Held(holder) => Walk::Blocked(holder),
        Further::Free(to) => {
            let after = arrived(old, new, to);
            store.hold(to.node, number);
            free_unless(store, at.node, after);
            Walk::Moved(after)
        }
    }
}

/// The stage of a call on two paths that holds a common directory. Where the paths part, it holds
/// that directory with both ends.
fn arrived(old: &Path, new: &Path, to: Reached) -> Stage
    requires { PartLater old.now new.now to.walked }
    ensures { ComesToBoth old.now new.now (reached to.walked to.node) result }
{
    if old.name(to.walked) != new.name(to.walked) {
        return Stage::Ends {
            common: to,
            old: to,
            new: to,
        };
    }
    Stage::At {
        walked: to.walked,
        node: to.node,
    }
}

/// Releases what a call held before a stage and doesn't hold after it.
#[inline(always)]
pub fn let_go(store: &mut Store, before: Stage, after: Stage)
    ensures { store.new ≡ let_go (nodes_of after) (nodes_of before) store.old }
{
    match before {
        Stage::Fresh => {}
        Stage::At { walked: _, node } => free_unless(store, node, after),
        Stage::Ends { common, old, new } => {
            free_unless(store, common.node, after);
            free_unless(store, old.node, after);
            free_unless(store, new.node, after);
        }
        Stage::Copies { node, left: _ } => free_unless(store, node, after),
    }
}

/// Releases an inode, unless a call at this stage holds it.
#[inline(always)]
fn free_unless(store: &mut Store, node: NodeId, kept: Stage)
    ensures { store.new ≡ free_unless (nodes_of kept) node store.old }
{
    if !holds(kept, node) {
        store.free(node);
    }
}

/// Whether a call at this stage holds an inode.
#[inline(always)]
fn holds(at: Stage, node: NodeId) -> bool
    ensures { result ≡ is_one_of node (nodes_of at) }
{
    match at {
        Stage::Fresh => false,
        Stage::At {
            walked: _,
            node: held,
        }
        | Stage::Copies {
            node: held,
            left: _,
        } => node == held,
        Stage::Ends { common, old, new } => {
            node == common.node || node == old.node || node == new.node
        }
    }
}
