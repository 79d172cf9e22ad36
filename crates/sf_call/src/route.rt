//! Routes: the paths that a call resolves by lock coupling.

ghost use Rattle.std.specs.Prelude.{◌≡◌, ◌≢◌, ◌⊎◌, true, false, []};
ghost use Rattle.sf_call.specs.Routes.{are_nested, route_of, route_along, route_in, route_between, route_kind, walks_nothing};

use crate::request::Request;
use sf_path::Path;

/// The paths that a call resolves.
#[derive(Clone, Copy)]
pub enum RoutePaths<'a> {
    /// The request has no path, or one of its two paths is the root.
    NoPath,
    /// The only path, or the old one of two if one is a prefix of the other.
    Along(&'a Path),
    /// Both paths; they diverge.
    Between(&'a Path, &'a Path),
}

/// The kind of a route.
#[derive(Clone, Copy, Debug, PartialEq, Eq)]
pub enum RouteKind {
    NoPath,
    Along,
    Between,
}

/// The paths of a request.
#[derive(Clone, Copy)]
enum RequestPaths<'a> {
    NoPath,
    OnePath(&'a Path),
    TwoPaths(&'a Path, &'a Path),
}

impl Request {
    #[inline(always)]
    fn paths(&self) -> RequestPaths<'_>
        ensures { route_along result ≡ route_of self.now }
    {
        match self {
            Request::OnPath(_, path) => RequestPaths::OnePath(path),
            Request::OnPaths(_, old, new) => RequestPaths::TwoPaths(old, new),
            Request::ByHandle(_, _) | Request::Write { .. } => RequestPaths::NoPath,
        }
    }

    /// Whether the route has no path: the request has none, or one of two is the root.
    pub fn walks_nothing(&self) -> bool
        ensures { result ≡ walks_nothing (route_of self.now) }
    {
        match self.paths() {
            RequestPaths::NoPath => true,
            RequestPaths::OnePath(_) => false,
            RequestPaths::TwoPaths(old, new) => has_root(old, new),
        }
    }

    /// The kind of the request's route. Compares two paths once.
    pub fn route_kind(&self) -> RouteKind
        ensures { result ≡ route_kind (route_of self.now) }
    {
        match self.paths() {
            RequestPaths::NoPath => RouteKind::NoPath,
            RequestPaths::OnePath(_) => RouteKind::Along,
            RequestPaths::TwoPaths(old, new) => kind_between(old, new),
        }
    }

    /// The paths of the request's route, given its kind.
    pub fn route(&self, kind: RouteKind) -> RoutePaths<'_>
        requires { kind ≡ route_kind (route_of self.now) }
        ensures { route_in result ≡ route_of self.now }
    {
        match self.paths() {
            RequestPaths::NoPath => RoutePaths::NoPath,
            RequestPaths::OnePath(path) => RoutePaths::Along(path),
            RequestPaths::TwoPaths(old, new) => paths_between(old, new, kind),
        }
    }
}

/// The kind of the route of a request on two paths.
fn kind_between(old: &Path, new: &Path) -> RouteKind
    ensures { result ≡ route_kind (route_between old.now new.now) }
{
    if has_root(old, new) {
        return RouteKind::NoPath;
    }
    if are_nested(old, new) {
        return RouteKind::Along;
    }
    RouteKind::Between
}

/// The paths of the route of a request on two paths, given its kind.
fn paths_between<'a>(old: &'a Path, new: &'a Path, kind: RouteKind) -> RoutePaths<'a>
    requires { kind ≡ route_kind (route_between old.now new.now) }
    ensures { route_in result ≡ route_between old.now new.now }
{
    match kind {
        RouteKind::NoPath => RoutePaths::NoPath,
        RouteKind::Along => RoutePaths::Along(old),
        RouteKind::Between => RoutePaths::Between(old, new),
    }
}

/// Whether one of the paths is the root.
fn has_root(old: &Path, new: &Path) -> bool
    ensures yes { result ≡ true → (old.now ≡ []) ⊎ (new.now ≡ []) }
    ensures no { result ≡ false → (old.now ≢ []) × (new.now ≢ []) }
{
    old.is_root() || new.is_root()
}

/// Whether one path is a prefix of the other.
fn are_nested(old: &Path, new: &Path) -> bool
    ensures { result ≡ are_nested old.now new.now }
{
    let alike = old.common(new);
    alike == old.len() || alike == new.len()
}
