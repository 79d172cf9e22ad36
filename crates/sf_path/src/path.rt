//! Absolute paths in normal form.

ghost use Rattle.std.specs.Prelude.{◌≡◌, ◌≢◌, ℕ, ◌+◌, ◌<◌, ◌≤◌, ◌↔◌, [], ◌∷◌, ◌++◌, length, take, drop, slice_get, refl, IsTrue, IfOk, IsOkUnless, Some, None, Err};
ghost use Rattle.std.specs.Cmp.{eq_by_cmp_equiv, partial_equiv_from_equiv, partial_order_from_total};
ghost use Rattle.sf_path.specs.declared.fault.PathFault.{PathFault};
ghost use Rattle.sf_path.specs.Names.{IsPath, BeginsWith, text_of};
ghost use Rattle.sf_path.specs.Normal.{norm, fault_of};
ghost use Rattle.sf_path.specs.Order.{parent, same_path, path_cmp, path_total};

use crate::fault::PathFault;
use crate::name::Name;
use crate::parse::{has_long_part, names_of};
use std::alloc::{AllocError, Global};
use std::cmp::Ordering;
use std::marker::Model;
use std::sync::ArcSlice;

/// An absolute path: the names from the root to a file or a directory. The root has no names. The
/// names are reference-counted, so paths are shared without copying.
#[derive(Debug)]
pub struct Path {
    // `None` for the root, which allocates nothing.
    names: Option<ArcSlice<Name>>,
}

impl Model for Path {
    ghost use Rattle.std.specs.Prelude.{List, ℕ, []};
    ghost use Rattle.std.specs.Option.{option_map_or};
    ghost use Rattle.std.specs.Arc.{arc_slice_items};
    ghost use Rattle.sf_path.specs.Names.{IsPath};

    ghost Value = { List (List ℕ) };

    ghost view = { λ path. option_map_or arc_slice_items path.names [] };

    ghost invariant = { λ path. IsPath (option_map_or arc_slice_items path.names []) };
}

impl Drop for Path {
    // Explicit, so that a proof sees one call per dropped path and not its fields.
    fn drop(self) {
        let Self { names: _names } = self;
    }
}

impl Path {
    /// The root. It allocates nothing.
    pub fn root() -> Path
        ensures { result ≡ [] }
    {
        Path { names: None }
    }

    /// The path with these names. It allocates the reference count.
    fn of(names: Vec<Name>) -> Result<Path, AllocError>
        requires { IsPath names.items }
        ensures { IfOk result (λ path. path ≡ names.items) }
    {
        if names.is_empty() {
            return Ok(Path::root());
        }
        Ok(Path {
            names: Some(ArcSlice::from_vec(names)?),
        })
    }

    fn as_slice(&self) -> &[Name]
        ensures same { result.now ≡ self.now }
        ensures names { IsPath result.now }
    {
        match &self.names {
            Some(names) => names.as_slice(),
            None => &[],
        }
    }

    /// Parses a text into a path. Empty components and `.` are dropped; each `..` removes the name
    /// before it (draft-ietf-secsh-filexfer-02, section 6.2; the default directory is `/`). Nothing
    /// is looked up. If several faults apply, the lowest is returned, before any allocation. Time
    /// and memory are linear in the length of the text.
    pub fn parse(alloc: Global, text: &[u8]) -> Result<Path, PathFault>
        ensures path { IfOk result (λ path. path ≡ norm text.now) }
        ensures names { IfOk result IsPath }
        ensures short { IfOk result (λ path. length (text_of path) ≤ length text.now + 1) }
        ensures faulty { (f : PathFault) → fault_of text.now ≡ Some f → result ≡ Err f }
        ensures good { fault_of text.now ≡ None → IsOkUnless result PathFault.OutOfMemory }
    {
        if text.len() > 4096 {
            return Err(PathFault::TooLong);
        }
        if has_long_part(text) {
            return Err(PathFault::NameTooLong);
        }
        if text.contains(&0) {
            return Err(PathFault::NulByte);
        }
        Ok(Path::of(names_of(alloc, text)?)?)
    }

    /// The number of names.
    pub fn len(&self) -> usize
        ensures { result ≡ length self.now }
    {
        self.as_slice().len()
    }

    /// Whether the path is the root.
    pub fn is_root(&self) -> bool
        ensures { IsTrue result ↔ (self.now ≡ []) }
    {
        self.as_slice().is_empty()
    }

    /// The name at index `i`, counted from the root.
    pub fn name(&self, i: usize) -> &Name
        requires { i < length self.now }
        ensures { slice_get self.now i ≡ Some result.now }
    {
        &self.as_slice()[i]
    }

    /// The number of names in the longest common prefix.
    pub fn common(&self, other: &Path) -> usize
        ensures alike { take result self.now ≡ take result other.now }
        ensures within { result ≤ length self.now }
        ensures within_other { result ≤ length other.now }
        ensures longest { result < length self.now → result < length other.now
            → slice_get self.now result ≢ slice_get other.now result }
    {
        let (own, others) = (self.as_slice(), other.as_slice());
        let most = own.len().min(others.len());
        for i in 0..most {
            if own[i] != others[i] {
                return i;
            }
        }
        most
    }

    /// Whether `front` is a prefix of the path.
    pub fn begins_with(&self, front: &Path) -> bool
        ensures { IsTrue result ↔ BeginsWith self.now front.now }
    {
        self.common(front) == front.len()
    }

    /// The prefix of `n` names.
    pub fn front(&self, alloc: Global, n: usize) -> Result<Path, AllocError>
        requires { n ≤ length self.now }
        ensures { IfOk result (λ path. path ≡ take n self.now) }
    {
        Path::of(self.front_names(alloc, n, 0)?)
    }

    /// The first `n` names, with capacity for `more` further names.
    fn front_names(&self, alloc: Global, n: usize, more: usize) -> Result<Vec<Name>, AllocError>
        requires { n ≤ length self.now }
        ensures same { IfOk result (λ names. names.items ≡ take n self.now) }
        ensures names { IfOk result (λ names. IsPath names.items) }
    {
        let mut names = Vec::with_capacity(alloc, n.saturating_add(more))?;
        for name in &self.as_slice()[..n] {
            names.push(name.try_copy(alloc)?)?;
        }
        Ok(names)
    }

    /// The parent: the path without its last name. The parent of the root is the root.
    pub fn parent(&self, alloc: Global) -> Result<Path, AllocError>
        ensures { IfOk result (λ path. path ≡ parent self.now) }
    {
        self.front(alloc, self.len().saturating_sub(1))
    }

    /// Another reference to the same path, without allocation. It fails if the reference count
    /// would overflow, at 2^63.
    pub fn share(&self) -> Result<Path, AllocError>
        ensures { IfOk result (λ copy. copy ≡ self.now) }
    {
        match &self.names {
            Some(names) => Ok(Path {
                names: Some(names.clone()?),
            }),
            None => Ok(Path::root()),
        }
    }

    /// The path followed by the names of `other` from index `n` on.
    pub fn joined(&self, alloc: Global, other: &Path, n: usize) -> Result<Path, AllocError>
        requires { n ≤ length other.now }
        ensures { IfOk result (λ path. path ≡ self.now ++ drop n other.now) }
    {
        let mut names = self.front_names(alloc, self.len(), other.len() - n)?;
        for name in &other.as_slice()[n..] {
            names.push(name.try_copy(alloc)?)?;
        }
        Path::of(names)
    }

    /// The path with one name appended.
    pub fn below(&self, alloc: Global, name: &Name) -> Result<Path, AllocError>
        ensures { IfOk result (λ path. path ≡ self.now ++ name.now ∷ []) }
    {
        let mut names = self.front_names(alloc, self.len(), 1)?;
        names.push(Name::from_slice(alloc, name.as_slice())?)?;
        Path::of(names)
    }

    /// The path's text: `/` for the root, else each name preceded by a slash.
    pub fn text(&self, alloc: Global) -> Result<Vec<u8>, AllocError>
        ensures text { IfOk result (λ text. text.items ≡ text_of self.now) }
        ensures again { IfOk result (λ text. norm text.items ≡ self.now) }
    {
        if self.is_root() {
            return Vec::from_slice(alloc, b"/");
        }
        let mut text = Vec::new(alloc);
        for name in self.as_slice() {
            text.push(b'/')?;
            text.extend_from_slice(name.as_slice())?;
        }
        Ok(text)
    }
}

impl PartialEq for Path {
    ghost eq = { same_path };

    ghost laws = { partial_equiv_from_equiv (eq_by_cmp_equiv path_total) };

    fn eq(&self, other: &Path) -> bool
        ensures value { result ≡ same_path self.now other.now }
        ensures same { IsTrue result ↔ (self.now ≡ other.now) }
    {
        self.as_slice() == other.as_slice()
    }
}

impl Eq for Path {
    ghost laws = { eq_by_cmp_equiv path_total };
}

impl PartialOrd for Path {
    ghost partial_cmp = { λ a b. Some (path_cmp a b) };

    ghost laws = { partial_order_from_total path_total };

    fn partial_cmp(&self, other: &Path) -> Option<Ordering> {
        Some(self.cmp(other))
    }
}

impl Ord for Path {
    ghost cmp = { path_cmp };

    ghost total = { path_total };

    ghost matches_partial_cmp = { λ a b. refl };

    ghost matches_eq = { λ a b. refl };

    /// Lexicographic order of the names: a prefix precedes the longer path.
    fn cmp(&self, other: &Path) -> Ordering {
        self.as_slice().cmp(other.as_slice())
    }
}
