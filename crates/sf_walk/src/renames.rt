//! RENAME and `posix-rename@openssh.com`.

ghost use Rattle.std.specs.Prelude.{◌≡◌, ◌<◌, ℕ, true, length, is_some, OnOk, OnErr, IsOk, IfOk};
ghost use Rattle.sf_path.specs.Names.{Path};
ghost use Rattle.sf_path.specs.Order.{same_path};
ghost use Rattle.sf_reply.specs.Replies.{IsPlain};
ghost use Rattle.sf_call.specs.Tree.{Tree, look_up};
ghost use Rattle.sf_call.specs.Changes.{moved_by};
ghost use Rattle.sf_call.specs.Calls.{Outcome, answer_to, rename, posix_rename, unless_root};
ghost use Rattle.sf_inode.specs.Stores.{StoreState, relinked};
ghost use Rattle.sf_keeps.specs.Keeps.{Keeps};
ghost use Rattle.sf_walk.specs.Ways.{last_name_of, AreWays, IsLocated};
ghost use Rattle.sf_call.specs.Routes.{route_between};
ghost use Rattle.sf_walk.specs.Served.{ServesOutcome, IsAlike, HoldersStay};
ghost use Rattle.sf_walk.specs.Renames.{does_move, may_replace, IsCourse, AreNamed, MovesNothing, renaming};

use crate::finding::{Located, Ways};
use sf_call::{Call, Request, RouteKind};
use sf_field::PairOp;
use sf_inode::{NodeId, Store};
use sf_path::Path;
use sf_reply::{Reply, StatusCode};
use std::alloc::AllocError;

/// The outcome of a rename.
#[derive(Clone, Copy)]
pub(crate) enum Course {
    /// The call is answered with this status, and nothing changes.
    Told(StatusCode),
    /// The old path's entry moves from one directory into another.
    Moves { from: NodeId, into: NodeId },
}

/// Whether the call is a rename that moves an entry.
pub fn is_move(store: &Store, call: &Call, ways: Ways) -> bool
    requires { IsLocated store.now call.now.request ways }
    ensures { (t : Tree) → Keeps store.now t
        → result
        ≡ is_some (moved_by (answer_to t call.now.session call.now.number call.now.moment
        call.now.request).changes) }
{
    let Request::OnPaths(op, old, new) = &call.request else {
        return false;
    };
    match op {
        PairOp::Rename => does_move(rename_course(ways)),
        PairOp::PosixRename => does_move(posix_course(store, old, new, ways)),
        PairOp::Link => false,
    }
}

fn does_move(course: Course) -> bool
    ensures { result ≡ does_move course }
{
    match course {
        Course::Told(_) => false,
        Course::Moves { from: _, into: _ } => true,
    }
}

/// RENAME.
pub(crate) fn rename(
    store: &mut Store,
    moment: u32,
    old: &Path,
    new: &Path,
    ways: Ways,
) -> Result<Reply, AllocError>
    requires { AreWays store.old (route_between old.now new.now) ways }
    ensures served { (t : Tree) → Keeps store.old t
        → ServesOutcome store.new t (unless_root old.now
        (unless_root new.now (rename t moment old.now new.now (look_up t old.now)))) result }
    ensures err { OnErr result (IsAlike store.old store.new) }
    ensures plain { IfOk result IsPlain }
    ensures look_ups { store.new.look_ups ≡ store.old.look_ups }
    ensures holders { HoldersStay store.old store.new }
{
    let course = rename_course(ways);
    carry_out(store, moment, old, new, course)
}

/// The extension `posix-rename@openssh.com` (OpenSSH's PROTOCOL).
pub(crate) fn posix_rename(
    store: &mut Store,
    moment: u32,
    old: &Path,
    new: &Path,
    ways: Ways,
) -> Result<Reply, AllocError>
    requires { AreWays store.old (route_between old.now new.now) ways }
    ensures served { (t : Tree) → Keeps store.old t
        → ServesOutcome store.new t (unless_root old.now (unless_root new.now
        (posix_rename t moment old.now new.now (look_up t old.now)))) result }
    ensures sure { same_path old.now new.now ≡ true → IsOk result }
    ensures err { OnErr result (IsAlike store.old store.new) }
    ensures plain { IfOk result IsPlain }
    ensures look_ups { store.new.look_ups ≡ store.old.look_ups }
    ensures holders { HoldersStay store.old store.new }
{
    let course = posix_course(store, old, new, ways);
    carry_out(store, moment, old, new, course)
}

/// The outcome of RENAME, which never replaces an existing entry.
fn rename_course(ways: Ways) -> Course
    ensures course { (s : StoreState) (t : Tree) (old new : Path) (moment : ℕ) → Keeps s t
        → AreWays s (route_between old new) ways
        → IsCourse s t (renaming old new moment)
        (unless_root old (unless_root new (rename t moment old new (look_up t old)))) result }
    ensures named { (s : StoreState) (old new : Path) → AreWays s (route_between old new) ways
        → AreNamed old new result }
{
    if let RouteKind::NoPath = ways.kind {
        return Course::Told(StatusCode::Failure);
    }
    match ways.path {
        Located::NoWay => Course::Told(StatusCode::NoSuchFile),
        Located::Missing { parent: _ } => Course::Told(StatusCode::NoSuchFile),
        Located::At { parent, node: _ } => {
            if let RouteKind::Along = ways.kind {
                return Course::Told(StatusCode::Failure);
            }
            match ways.new {
                Located::NoWay => Course::Told(StatusCode::NoSuchFile),
                Located::At { parent: _, node: _ } => Course::Told(StatusCode::Failure),
                Located::Missing { parent: into } => Course::Moves { from: parent, into },
            }
        }
    }
}

/// The outcome of posix-rename, which may replace an entry. It does nothing if both paths name one
/// file.
fn posix_course(store: &Store, old: &Path, new: &Path, ways: Ways) -> Course
    requires { AreWays store.now (route_between old.now new.now) ways }
    ensures course { (t : Tree) (moment : ℕ) → Keeps store.now t
        → IsCourse store.now t (renaming old.now new.now moment)
        (unless_root old.now (unless_root new.now
        (posix_rename t moment old.now new.now (look_up t old.now)))) result }
    ensures named { AreNamed old.now new.now result }
    ensures same { same_path old.now new.now ≡ true → MovesNothing result }
{
    if let RouteKind::NoPath = ways.kind {
        return Course::Told(StatusCode::Failure);
    }
    match ways.path {
        Located::NoWay => Course::Told(StatusCode::NoSuchFile),
        Located::Missing { parent: _ } => Course::Told(StatusCode::NoSuchFile),
        Located::At { parent, node } => {
            if let RouteKind::Along = ways.kind {
                if *old == *new {
                    return Course::Told(StatusCode::Success);
                }
                return Course::Told(StatusCode::Failure);
            }
            match ways.new {
                Located::NoWay => Course::Told(StatusCode::NoSuchFile),
                Located::Missing { parent: into } => Course::Moves { from: parent, into },
                Located::At {
                    parent: into,
                    node: target,
                } => {
                    if node == target {
                        Course::Told(StatusCode::Success)
                    } else if may_replace(store, node, target) {
                        Course::Moves { from: parent, into }
                    } else {
                        Course::Told(StatusCode::Failure)
                    }
                }
            }
        }
    }
}

/// Whether an inode may replace another: a directory an empty directory, or a file a file.
fn may_replace(store: &Store, node: NodeId, target: NodeId) -> bool
    ensures { result ≡ may_replace store.now.nodes node target }
{
    if store.is_directory(target) {
        store.is_directory(node) && store.is_empty(target)
    } else {
        !store.is_directory(node)
    }
}

/// Carries out a rename. Sets the modification times of both directories.
fn carry_out(
    store: &mut Store,
    moment: u32,
    old: &Path,
    new: &Path,
    course: Course,
) -> Result<Reply, AllocError>
    requires { AreNamed old.now new.now course }
    ensures served { (t : Tree) (answer : Outcome) → Keeps store.old t
        → IsCourse store.old t (renaming old.now new.now moment) answer course
        → ServesOutcome store.new t answer result }
    ensures sure { MovesNothing course → IsOk result }
    ensures err { OnErr result (IsAlike store.old store.new) }
    ensures plain { IfOk result IsPlain }
    ensures look_ups { store.new.look_ups ≡ store.old.look_ups }
    ensures holders { HoldersStay store.old store.new }
{
    match course {
        Course::Told(code) => Ok(Reply::Status(code)),
        Course::Moves { from, into } => {
            relink_last(store, old, new, from, into)?;
            store.touch(from, moment);
            store.touch(into, moment);
            Ok(Reply::Status(StatusCode::Success))
        }
    }
}

/// Moves the entry of the old path's last name to the new one's.
fn relink_last(
    store: &mut Store,
    old: &Path,
    new: &Path,
    from: NodeId,
    into: NodeId,
) -> Result<(), AllocError>
    requires old { 0 < length old.now }
    requires new { 0 < length new.now }
    ensures ok { OnOk result (store.new
        ≡ relinked store.old from (last_name_of old.now) into (last_name_of new.now)) }
    ensures err { OnErr result (store.new ≡ store.old) }
{
    let name = new.name(new.len() - 1).try_copy(store.alloc())?;
    store.relink(from, old.name(old.len() - 1), into, name)
}
