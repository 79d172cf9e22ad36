//! Path resolution in the store.

ghost use Rattle.std.specs.Prelude.{◌≡◌, ◌≤◌, length, IfOk, IfErr};
ghost use Rattle.sf_reply.specs.declared.reply.StatusCode.TheVariants.{NoSuchFile};
ghost use Rattle.sf_walk.specs.declared.finding.Located.TheVariants.{NoWay, At};
ghost use Rattle.sf_call.specs.Routes.{route_in};
ghost use Rattle.sf_walk.specs.Ways.{AreWays, IsThere, no_path, along, between, names_on, way_from};
ghost use Rattle.sf_walk.specs.LastEntries.{IsLastEntry};
ghost use Rattle.sf_walk.specs.Served.{LookedUp};

use sf_call::{RouteKind, RoutePaths};
use sf_inode::{NodeId, Store};
use sf_path::Path;
use sf_reply::StatusCode;

/// The result of resolving a path. `NoWay`: a component other than the last is missing or no
/// directory. `Missing`: only the last name is missing. `At`: an inode and the directory that has
/// its entry. The root's parent is the root.
#[derive(Clone, Copy, Debug, PartialEq, Eq)]
pub enum Located {
    NoWay,
    Missing { parent: NodeId },
    At { parent: NodeId, node: NodeId },
}

/// An inode that a path leads to, and the directory that has its entry.
#[derive(Clone, Copy)]
pub(crate) struct FoundEntry {
    pub(crate) parent: NodeId,
    pub(crate) node: NodeId,
}

/// The last name of a path with an existing parent: it is missing, or it is an inode's.
#[derive(Clone, Copy)]
pub(crate) enum LastEntry {
    Missing { parent: NodeId },
    Taken { node: NodeId },
}

impl Located {
    /// The inode, or `NoSuchFile` if the path leads to none.
    pub(crate) fn found(self) -> Result<FoundEntry, StatusCode>
        ensures at { IfOk result (λ found. self ≡ At found.parent found.node) }
        ensures nowhere { IfErr result (λ code. (code ≡ NoSuchFile) × (IsThere self → ⊥)) }
    {
        match self {
            Located::At { parent, node } => Ok(FoundEntry { parent, node }),
            Located::NoWay => Err(StatusCode::NoSuchFile),
            Located::Missing { parent: _ } => Err(StatusCode::NoSuchFile),
        }
    }

    /// The last name, or `NoSuchFile` if the path has no parent directory.
    pub(crate) fn slot(self) -> Result<LastEntry, StatusCode>
        ensures on_way { IfOk result (IsLastEntry self) }
        ensures nowhere { IfErr result (λ code. (code ≡ NoSuchFile) × (self ≡ NoWay)) }
    {
        match self {
            Located::Missing { parent } => Ok(LastEntry::Missing { parent }),
            Located::At { parent: _, node } => Ok(LastEntry::Taken { node }),
            Located::NoWay => Err(StatusCode::NoSuchFile),
        }
    }
}

/// The result of resolving the paths of a route: its one path, or both the old and the new one.
#[derive(Clone, Copy, Debug, PartialEq, Eq)]
pub struct Ways {
    /// The kind of the route.
    pub kind: RouteKind,
    pub path: Located,
    /// `NoWay` unless the route is between two paths.
    pub new: Located,
}

impl Ways {
    /// The result for a call without a path.
    pub fn no_path() -> Ways
        ensures { result ≡ no_path }
    {
        Ways {
            kind: RouteKind::NoPath,
            path: Located::NoWay,
            new: Located::NoWay,
        }
    }

    /// The result for a call on one path.
    pub fn along(path: Located) -> Ways
        ensures { result ≡ along path }
    {
        Ways {
            kind: RouteKind::Along,
            path,
            new: Located::NoWay,
        }
    }

    /// The result for a call on two paths.
    pub fn between(path: Located, new: Located) -> Ways
        ensures { result ≡ between path new }
    {
        Ways {
            kind: RouteKind::Between,
            path,
            new,
        }
    }
}

/// Resolves a path from the root, regardless of the holders of its directories. Makes at most one
/// lookup for each name.
#[tactic(auto, using(crate::proofs::WaySteps::way_stops, crate::proofs::WaySteps::way_lacks, crate::proofs::WaySteps::way_goes, crate::proofs::WaySteps::missing_last, crate::proofs::WaySteps::missing_on, crate::proofs::WaySteps::way_ends, crate::proofs::LookUps::looked_none, crate::proofs::LookUps::looked_more, crate::proofs::LookUps::looked_less))]
pub fn locate(store: &mut Store, path: &Path) -> Located
    ensures found { result ≡ way_from store.old.nodes store.old.root store.old.root path.now }
    ensures looked { LookedUp store.old store.new (length path.now) }
{
    let mut parent = store.root();
    let mut node = parent;
    for i in 0..path.len() {
        if !store.is_directory(node) {
            return Located::NoWay;
        }
        match store.find(node, path.name(i)) {
            None => {
                if i + 1 == path.len() {
                    return Located::Missing { parent: node };
                }
                return Located::NoWay;
            }
            Some(child) => {
                parent = node;
                node = child;
            }
        }
    }
    Located::At { parent, node }
}

/// Resolves all paths of a route.
pub fn locate_all(store: &mut Store, route: RoutePaths<'_>) -> Ways
    ensures located { AreWays store.old (route_in route.entry) result }
    ensures looked { LookedUp store.old store.new (names_on (route_in route.entry)) }
{
    match route {
        RoutePaths::NoPath => Ways::no_path(),
        RoutePaths::Along(path) => Ways::along(locate(store, path)),
        RoutePaths::Between(old, new) => {
            let path = locate(store, old);
            let new = locate(store, new);
            Ways::between(path, new)
        }
    }
}
