//! Steps of a call on two paths after they have parted.

ghost use Rattle.std.specs.Prelude.{◌≡◌, ◌+◌, length};
ghost use Rattle.sf_call.specs.declared.call.Stage.TheVariants as stage;
ghost use Rattle.sf_walk.specs.Routes.{HoldsWay};
ghost use Rattle.sf_call.specs.Routes.Route.{Between};
ghost use Rattle.sf_walk.specs.Steps.{Advances, walker, handed_over};
ghost use Rattle.sf_walk.specs.declared.walking.Walk.TheVariants.{Moved};

use crate::finding::{Located, Ways};
use crate::looking::{Further, find_last, holder_there, look};
use crate::walking::{Walk, let_go};
use sf_call::{Reached, Stage};
use sf_inode::{NodeId, Store};
use sf_path::Path;

/// The directories that a call on two paths holds: the last common one, and one on each path.
#[derive(Clone, Copy)]
pub(crate) struct Ends {
    pub(crate) common: Reached,
    pub(crate) old: Reached,
    pub(crate) new: Reached,
}

/// Resolves one more component of the old path, or of the new path once the old path's parent is
/// held.
pub(crate) fn at_ends(store: &mut Store, number: u64, path: &Path, other: &Path, ends: Ends) -> Walk
    requires { HoldsWay store.old (Between path.now other.now)
        (stage.Ends ends.common ends.old ends.new) }
    ensures { Advances store.old store.new (walker number (Between path.now other.now)
        (stage.Ends ends.common ends.old ends.new)) result }
{
    match look(store, number, path, ends.old) {
        Further::AtParent => new_end(store, number, path, other, ends),
        Further::NoDirectory => Walk::Ready(Ways::between(Located::NoWay, Located::NoWay)),
        Further::Held(holder) => Walk::Blocked(holder),
        Further::Free(old) => {
            let before = Stage::Ends {
                common: ends.common,
                old: ends.old,
                new: ends.new,
            };
            let after = Stage::Ends {
                common: ends.common,
                old,
                new: ends.new,
            };
            move_on(store, number, before, after, old.node)
        }
    }
}

/// Resolves one more component of the new path, with the old path's parent held.
fn new_end(store: &mut Store, number: u64, path: &Path, other: &Path, ends: Ends) -> Walk
    requires stands { HoldsWay store.old (Between path.now other.now)
        (stage.Ends ends.common ends.old ends.new) }
    requires parent { ends.old.walked + 1 ≡ length path.now }
    ensures { Advances store.old store.new (walker number (Between path.now other.now)
        (stage.Ends ends.common ends.old ends.new)) result }
{
    match look(store, number, other, ends.new) {
        Further::AtParent => at_parents(store, number, path, other, ends),
        Further::NoDirectory => {
            let path = find_last(store, path, ends.old);
            Walk::Ready(Ways::between(path, Located::NoWay))
        }
        Further::Held(holder) => Walk::Blocked(holder),
        Further::Free(new) => {
            let before = Stage::Ends {
                common: ends.common,
                old: ends.old,
                new: ends.new,
            };
            let after = Stage::Ends {
                common: ends.common,
                old: ends.old,
                new,
            };
            move_on(store, number, before, after, new.node)
        }
    }
}

/// Decides with both parents held, unless another call holds the inode of the new path.
fn at_parents(store: &mut Store, number: u64, path: &Path, other: &Path, ends: Ends) -> Walk
    requires stands { HoldsWay store.old (Between path.now other.now)
        (stage.Ends ends.common ends.old ends.new) }
    requires parent { ends.old.walked + 1 ≡ length path.now }
    requires parent_new { ends.new.walked + 1 ≡ length other.now }
    ensures { Advances store.old store.new (walker number (Between path.now other.now)
        (stage.Ends ends.common ends.old ends.new)) result }
{
    let new = find_last(store, other, ends.new);
    if let Some(holder) = holder_there(store, number, new) {
        return Walk::Blocked(holder);
    }
    let path = find_last(store, path, ends.old);
    Walk::Ready(Ways::between(path, new))
}

/// Lock coupling: holds the next directory, and then releases the directories that the call no
/// longer holds.
fn move_on(store: &mut Store, number: u64, before: Stage, after: Stage, to: NodeId) -> Walk
    ensures state { store.new ≡ handed_over number before after to store.old }
    ensures walk { result ≡ Moved after }
{
    store.hold(to, number);
    let_go(store, before, after);
    Walk::Moved(after)
}
