//! Renames.

ghost use Rattle.std.specs.Option.{is_some, option_map};
ghost use Rattle.std.specs.Prelude.{◌≡◌, ◌||◌, ◌++◌, ℕ, cond, false, filter, IfOk, OnOk, OnErr};
ghost use Rattle.sf_reply.specs.declared.reply.StatusCode.TheVariants.{Failure};
ghost use Rattle.sf_call.specs.Tree.{after_front, is_faulty_way, look_up, found_place, object_of};
ghost use Rattle.sf_call.specs.declared.lookup.Lookup.TheVariants.{At};
ghost use Rattle.sf_call.specs.Moves.{is_outside, moved};
ghost use Rattle.sf_call.specs.Changes.{changed, done};
ghost use Rattle.sf_call.specs.Changes.Change.{Move};
ghost use Rattle.sf_plain.specs.Nodes.{is_file, is_same_file};
ghost use Rattle.sf_call.specs.Calls.{moves, rename, replace_by, posix_rename, refuses, unless_root};

use super::PlainTree;
use crate::copies::copy_of;
use crate::sweep::sweep;
use sf_call::Lookup;
use sf_path::Path;
use sf_reply::{Reply, StatusCode};
use std::alloc::{AllocError, Global};
use std::collections::BTreeMap;

/// Whether the path has a prefix.
fn begins(path: &Path, front: &Path) -> bool
    ensures { result ≡ is_some (after_front front.now path.now) }
{
    path.begins_with(front)
}

/// Whether the path begins with neither.
fn is_outside(path: &Path, old: &Path, new: &Path) -> bool
    ensures { result ≡ is_outside old.now new.now path.now }
{
    !begins(path, old) && !begins(path, new)
}

/// Whether one path is a prefix of the other.
fn are_nested(old: &Path, new: &Path) -> bool
    ensures { result
        ≡ (is_some (after_front old.now new.now) || is_some (after_front new.now old.now)) }
{
    begins(new, old) || begins(old, new)
}

/// The path with its prefix `old` replaced by `new`, if it begins with `old`.
fn carried(alloc: Global, path: &Path, old: &Path, new: &Path) -> Result<Option<Path>, AllocError>
    ensures { IfOk result (λ there. there
        ≡ option_map (λ rest. new.now ++ rest) (after_front old.now path.now)) }
{
    if begins(path, old) {
        Ok(Some(new.joined(alloc, path, old.len())?))
    } else {
        Ok(None)
    }
}

impl PlainTree {
    /// The names that begin with neither path.
    fn names_outside(&self, old: &Path, new: &Path) -> Result<BTreeMap<Path, u64>, AllocError>
        ensures { IfOk result (λ names. names.entries
            ≡ filter (λ e. is_outside old.now new.now e.0) self.now.names) }
    {
        let mut names = copy_of(self.alloc, &self.names)?;
        names.retain(
            |path: &Path, label: &mut u64| -> bool
                ensures value { result ≡ is_outside old.entry.now new.entry.now path.now }
                ensures label { label.new ≡ label.old }
            { is_outside(path, old, new) },
        );
        Ok(names)
    }

    /// The names after moving all paths at or below `old` to `new`.
    fn moved_names(&self, old: &Path, new: &Path) -> Result<BTreeMap<Path, u64>, AllocError>
        ensures { IfOk result (λ names. names.entries ≡ moved self.now.names old.now new.now) }
    {
        let mut names = self.names_outside(old, new)?;
        'names: for (path, label) in self.names.iter().rev() {
            if let Some(there) = carried(self.alloc, path, old, new)? {
                names.insert(there, *label)?;
            }
        }
        Ok(names)
    }

    /// Moves all paths at or below `old`, and deletes an object that `new` alone named.
    fn carry(&mut self, old: &Path, new: &Path) -> Result<(), AllocError>
        ensures ok { OnOk result (self.new ≡ changed self.old (Move old.now new.now)) }
        ensures err { OnErr result (self.new ≡ self.old) }
    {
        self.names = self.moved_names(old, new)?;
        sweep(&mut self.objects, &self.names, &self.handles);
        Ok(())
    }

    /// Moves all paths at or below `old`, and sets both parents' modification times.
    #[tactic(auto, using(crate::proofs::Renames::done_then))]
    fn move_path(&mut self, moment: u32, old: &Path, new: &Path) -> Result<Reply, AllocError>
        ensures reply { IfOk result (λ reply. reply
            ≡ (moves self.old moment old.now new.now).reply) }
        ensures tree { OnOk result (self.new
            ≡ done self.old (moves self.old moment old.now new.now).changes) }
        ensures err { OnErr result (self.new ≡ self.old) }
    {
        let from = self.directory_at(&old.parent(self.alloc)?);
        let to = self.directory_at(&new.parent(self.alloc)?);
        self.carry(old, new)?;
        self.touch(from, moment);
        self.touch(to, moment);
        Ok(Reply::Status(StatusCode::Success))
    }

    /// RENAME.
    pub(super) fn rename(
        &mut self,
        moment: u32,
        old: &Path,
        new: &Path,
    ) -> Result<Reply, AllocError>
        ensures reply { IfOk result (λ reply. reply
            ≡ (unless_root old.now (unless_root new.now
            (rename self.old moment old.now new.now (look_up self.old old.now)))).reply) }
        ensures tree { OnOk result (self.new
            ≡ done self.old (unless_root old.now (unless_root new.now
            (rename self.old moment old.now new.now (look_up self.old old.now)))).changes) }
        ensures err { OnErr result (self.new ≡ self.old) }
    {
        if old.is_root() || new.is_root() {
            return Ok(Reply::Status(StatusCode::Failure));
        }
        let Lookup::At(_) = self.place_at(old)? else {
            return Ok(Reply::Status(StatusCode::NoSuchFile));
        };
        if are_nested(old, new) {
            return Ok(Reply::Status(StatusCode::Failure));
        }
        match self.place_at(new)? {
            Lookup::NoWay => Ok(Reply::Status(StatusCode::NoSuchFile)),
            Lookup::At(_) => Ok(Reply::Status(StatusCode::Failure)),
            Lookup::Absent => self.move_path(moment, old, new),
        }
    }

    fn is_file(&self, label: u64) -> bool
        ensures { result ≡ is_file (object_of self.now.objects label) }
    {
        match self.objects.get(&label) {
            Some(node) => node.as_directory().is_none(),
            None => false,
        }
    }

    /// Whether both inode numbers are those of one file.
    fn is_same_file(&self, label: u64, other: u64) -> bool
        ensures { result ≡ is_same_file self.now label other }
    {
        label == other && self.is_file(other)
    }

    /// Whether the object at `old` may replace another one at `new`.
    #[tactic(auto, using(crate::proofs::Calls::replaces_object))]
    fn gives_way(&self, at: u64, old: &Path, new: &Path) -> bool
        ensures { (moment label : ℕ) → is_faulty_way self.now new.now ≡ false
            → is_same_file self.now label at ≡ false
            → replace_by self.now moment old.now new.now label
            (found_place self.now.objects (At at))
            ≡ cond result (moves self.now moment old.now new.now) (refuses Failure) }
    {
        let Some(node) = self.objects.get(&at) else {
            return true;
        };
        let moves_directory = self.directory_at(old).is_some();
        if node.as_directory().is_some() {
            moves_directory && self.is_empty(new)
        } else {
            !moves_directory
        }
    }

    /// The extension `posix-rename@openssh.com`.
    #[tactic(auto, using(crate::proofs::Calls::same_file))]
    pub(super) fn posix_rename(
        &mut self,
        moment: u32,
        old: &Path,
        new: &Path,
    ) -> Result<Reply, AllocError>
        ensures reply { IfOk result (λ reply. reply
            ≡ (unless_root old.now (unless_root new.now
            (posix_rename self.old moment old.now new.now (look_up self.old old.now)))).reply) }
        ensures tree { OnOk result (self.new
            ≡ done self.old (unless_root old.now (unless_root new.now
            (posix_rename self.old moment old.now new.now (look_up self.old old.now)))).changes) }
        ensures err { OnErr result (self.new ≡ self.old) }
    {
        if old.is_root() || new.is_root() {
            return Ok(Reply::Status(StatusCode::Failure));
        }
        let Lookup::At(label) = self.place_at(old)? else {
            return Ok(Reply::Status(StatusCode::NoSuchFile));
        };
        if old == new {
            return Ok(Reply::Status(StatusCode::Success));
        }
        if are_nested(old, new) {
            return Ok(Reply::Status(StatusCode::Failure));
        }
        match self.place_at(new)? {
            Lookup::NoWay => Ok(Reply::Status(StatusCode::NoSuchFile)),
            Lookup::At(at) if self.is_same_file(label, at) => {
                Ok(Reply::Status(StatusCode::Success))
            }
            Lookup::At(at) if !self.gives_way(at, old, new) => {
                Ok(Reply::Status(StatusCode::Failure))
            }
            Lookup::Absent | Lookup::At(_) => self.move_path(moment, old, new),
        }
    }
}
