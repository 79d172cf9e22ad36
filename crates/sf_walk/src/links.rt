//! Hard links.

ghost use Rattle.std.specs.Prelude.{◌≡◌, ◌<◌, ℕ, length, OnOk, OnErr, IfOk};
ghost use Rattle.sf_reply.specs.Replies.{IsPlain};
ghost use Rattle.sf_call.specs.Tree.{Tree, found_at};
ghost use Rattle.sf_call.specs.Calls.{Outcome, link, unless_root};
ghost use Rattle.sf_inode.specs.Stores.{linked};
ghost use Rattle.sf_keeps.specs.Keeps.{Keeps};
ghost use Rattle.sf_call.specs.Routes.{route_between};
ghost use Rattle.sf_walk.specs.Ways.{last_name_of, AreWays};
ghost use Rattle.sf_walk.specs.Served.{ServesOutcome, IsAlike, HoldersStay};
ghost use Rattle.sf_walk.specs.Links.{IsLinking, IsNamed, nested_code};

use crate::finding::{Located, Ways};
use sf_call::{MAX_LINKS, RouteKind};
use sf_inode::{NodeId, Store};
use sf_path::Path;
use sf_reply::{Reply, StatusCode};
use std::alloc::AllocError;

/// The outcome of a link.
#[derive(Clone, Copy)]
pub(crate) enum LinkCourse {
    /// The call is answered with this status, and nothing changes.
    Told(StatusCode),
    /// The new path's last name becomes an entry for the inode, in the directory `into`.
    Names { node: NodeId, into: NodeId },
}

/// The extension `hardlink@openssh.com` (OpenSSH's PROTOCOL).
pub(crate) fn link(
    store: &mut Store,
    moment: u32,
    old: &Path,
    new: &Path,
    ways: Ways,
) -> Result<Reply, AllocError>
    requires { AreWays store.old (route_between old.now new.now) ways }
    ensures served { (t : Tree) → Keeps store.old t
        → ServesOutcome store.new t (unless_root old.now
        (unless_root new.now (link t moment new.now (found_at t old.now)))) result }
    ensures err { OnErr result (IsAlike store.old store.new) }
    ensures plain { IfOk result IsPlain }
    ensures look_ups { store.new.look_ups ≡ store.old.look_ups }
    ensures holders { HoldersStay store.old store.new }
{
    let course = link_course(store, old, new, ways);
    name_anew(store, moment, new, course)
}

/// The outcome of a link with resolved paths. If one path is a prefix of the other, see
/// `nested_code`.
fn link_course(store: &Store, old: &Path, new: &Path, ways: Ways) -> LinkCourse
    requires { AreWays store.now (route_between old.now new.now) ways }
    ensures course { (t : Tree) (moment : ℕ) → Keeps store.now t
        → IsLinking store.now t moment new.now
        (unless_root old.now (unless_root new.now (link t moment new.now (found_at t old.now))))
        result }
    ensures named { IsNamed new.now result }
{
    if let RouteKind::NoPath = ways.kind {
        return LinkCourse::Told(StatusCode::Failure);
    }
    match ways.path {
        Located::NoWay => LinkCourse::Told(StatusCode::NoSuchFile),
        Located::Missing { parent: _ } => LinkCourse::Told(StatusCode::NoSuchFile),
        Located::At { parent: _, node } => {
            if store.is_directory(node) {
                return LinkCourse::Told(StatusCode::Failure);
            }
            if let RouteKind::Along = ways.kind {
                return LinkCourse::Told(nested_code(old, new));
            }
            match ways.new {
                Located::NoWay => LinkCourse::Told(StatusCode::NoSuchFile),
                Located::At { parent: _, node: _ } => LinkCourse::Told(StatusCode::Failure),
                Located::Missing { parent: into } => {
                    if store.links(node) >= MAX_LINKS {
                        LinkCourse::Told(StatusCode::Failure)
                    } else {
                        LinkCourse::Names { node, into }
                    }
                }
            }
        }
    }
}

/// The status if one path is a prefix of the other, and the old one is a file's. Nothing exists
/// below a file, and every prefix of its path exists.
fn nested_code(old: &Path, new: &Path) -> StatusCode
    ensures { result ≡ nested_code old.now new.now }
{
    if old.len() < new.len() {
        StatusCode::NoSuchFile
    } else {
        StatusCode::Failure
    }
}

/// Carries out a link. Sets the modification time of the new path's directory.
fn name_anew(
    store: &mut Store,
    moment: u32,
    new: &Path,
    course: LinkCourse,
) -> Result<Reply, AllocError>
    requires { IsNamed new.now course }
    ensures served { (t : Tree) (answer : Outcome) → Keeps store.old t
        → IsLinking store.old t moment new.now answer course
        → ServesOutcome store.new t answer result }
    ensures err { OnErr result (IsAlike store.old store.new) }
    ensures plain { IfOk result IsPlain }
    ensures look_ups { store.new.look_ups ≡ store.old.look_ups }
    ensures holders { HoldersStay store.old store.new }
{
    match course {
        LinkCourse::Told(code) => Ok(Reply::Status(code)),
        LinkCourse::Names { node, into } => {
            link_last(store, new, into, node)?;
            store.touch(into, moment);
            Ok(Reply::Status(StatusCode::Success))
        }
    }
}

/// Adds a path's last name to a directory, as an entry for the inode.
fn link_last(store: &mut Store, new: &Path, into: NodeId, node: NodeId) -> Result<(), AllocError>
    requires { 0 < length new.now }
    ensures ok { OnOk result (store.new ≡ linked store.old into (last_name_of new.now) node) }
    ensures err { OnErr result (store.new ≡ store.old) }
{
    let name = new.name(new.len() - 1).try_copy(store.alloc())?;
    store.link(into, name, node)
}
