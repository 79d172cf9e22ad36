//! Calls on paths.

ghost use Rattle.std.specs.Option.{is_some};
ghost use Rattle.std.specs.Ordering.{nat_cmp};
ghost use Rattle.std.specs.BTreeMap.{get, is_at, IsOrdered};
ghost use Rattle.std.specs.Prelude.{◌≡◌, ◌&&◌, ℕ, true, cond, nat_eq, count_by, IfOk, OnOk, OnErr};
ghost use Rattle.sf_call.specs.Tree.{look_up, found_at, found_place, is_empty, label_at};
ghost use Rattle.sf_call.specs.declared.lookup.Lookup.TheVariants.{At};
ghost use Rattle.sf_call.specs.Changes.{changed, done};
ghost use Rattle.sf_call.specs.Changes.Change.{GonePath, NewPath, OpenHandle};
ghost use Rattle.sf_call.specs.Calls.{stat, set_stat, make_directory, remove_directory, remove_file, goes, has_all_handles, directory_handle, new_file_handle, open_directory, open_present, open_file, unless_root};

use super::PlainTree;
use crate::node::{Node, Parts};
use sf_block::WholeContents;
use sf_call::{Handle, Lookup, MAX_HANDLES, Metadata};
use sf_field::{Attrs, OpenFlags};
use sf_path::Path;
use sf_reply::{Reply, StatusCode};
use std::alloc::AllocError;
use std::collections::BTreeMap;

/// The handle of a directory has no access mode.
fn directory_handle(session: u64, label: u64) -> Handle
    ensures { result ≡ directory_handle session label }
{
    Handle {
        session,
        label,
        read: false,
        write: false,
        append: false,
        listed: None,
    }
}

/// A handle opened with neither READ nor WRITE is readable.
fn file_handle(session: u64, label: u64, flags: OpenFlags) -> Handle
    ensures { result ≡ new_file_handle session label flags }
{
    Handle {
        session,
        label,
        read: flags.read || !flags.write,
        write: flags.write,
        append: flags.append,
        listed: None,
    }
}

/// Whether OPEN truncates an existing file.
fn cuts(flags: OpenFlags) -> bool
    ensures { result ≡ (flags.truncate && flags.write) }
{
    flags.truncate && flags.write
}

/// Undoes the insertion of a handle. Replacing an existing entry allocates nothing.
fn put_back(handles: &mut BTreeMap<u64, Handle>, number: u64, replaced: Option<Handle>)
    requires { is_some (get nat_cmp handles.old number) ≡ true }
    ensures found { (q : ℕ)
        → get nat_cmp handles.new q
        ≡ cond (is_at (nat_cmp number) q) replaced (get nat_cmp handles.old q) }
    ensures ordered { IsOrdered nat_cmp handles.new }
{
    match replaced {
        None => {
            handles.remove(&number);
        }
        Some(handle) => match handles.insert(number, handle) {
            Ok(_) | Err(_) => {}
        },
    }
}

impl PlainTree {
    /// STAT.
    pub(super) fn stat(&self, path: &Path) -> Result<Reply, AllocError>
        ensures { IfOk result (λ reply. reply ≡ (stat (found_at self.now path.now)).reply) }
    {
        let Lookup::At(label) = self.place_at(path)? else {
            return Ok(Reply::Status(StatusCode::NoSuchFile));
        };
        match self.objects.get(&label) {
            Some(node) => Ok(Reply::Attrs(node.attrs())),
            None => Ok(Reply::Status(StatusCode::NoSuchFile)),
        }
    }

    /// SETSTAT. Allocates a map of the file's blocks, which are shared.
    #[tactic(auto, using(crate::proofs::Calls::sets_object))]
    pub(super) fn set_stat(
        &mut self,
        moment: u32,
        path: &Path,
        attrs: &Attrs,
    ) -> Result<Reply, AllocError>
        ensures reply { IfOk result (λ reply. reply
            ≡ (unless_root path.now (set_stat moment attrs.now
            (found_at self.old path.now))).reply) }
        ensures tree { OnOk result (self.new
            ≡ done self.old (unless_root path.now
            (set_stat moment attrs.now (found_at self.old path.now))).changes) }
        ensures err { OnErr result (self.new ≡ self.old) }
    {
        if path.is_root() {
            return Ok(Reply::Status(StatusCode::Failure));
        }
        let Lookup::At(label) = self.place_at(path)? else {
            return Ok(Reply::Status(StatusCode::NoSuchFile));
        };
        let Some(node) = self.objects.get(&label) else {
            return Ok(Reply::Status(StatusCode::NoSuchFile));
        };
        if node.refuses_size(attrs.size) {
            return Ok(Reply::Status(StatusCode::Failure));
        }
        let set = node.with_attrs(self.alloc, moment, attrs)?;
        self.set_object(label, set);
        Ok(Reply::Status(StatusCode::Success))
    }

    /// MKDIR. The new inode number is the call's number.
    pub(super) fn mkdir(
        &mut self,
        number: u64,
        moment: u32,
        path: &Path,
        attrs: &Attrs,
    ) -> Result<Reply, AllocError>
        ensures reply { IfOk result (λ reply. reply
            ≡ (unless_root path.now (make_directory self.old
            number moment path.now attrs.now (look_up self.old path.now))).reply) }
        ensures tree { OnOk result (self.new
            ≡ done self.old (unless_root path.now (make_directory self.old
            number moment path.now attrs.now (look_up self.old path.now))).changes) }
        ensures err { OnErr result (self.new ≡ self.old) }
    {
        if path.is_root() {
            return Ok(Reply::Status(StatusCode::Failure));
        }
        match self.place_at(path)? {
            Lookup::NoWay => Ok(Reply::Status(StatusCode::NoSuchFile)),
            Lookup::At(_) => Ok(Reply::Status(StatusCode::Failure)),
            Lookup::Absent => {
                let parent = self.directory_at(&path.parent(self.alloc)?);
                let made = Metadata::new_object(0o755, moment, attrs);
                self.add(path, number, Node::directory(made))?;
                self.touch(parent, moment);
                Ok(Reply::Status(StatusCode::Success))
            }
        }
    }

    /// Removes a path and sets its parent's modification time.
    fn remove_path(&mut self, moment: u32, path: &Path) -> Result<Reply, AllocError>
        ensures reply { IfOk result (λ reply. reply ≡ (goes self.old moment path.now).reply) }
        ensures tree { OnOk result (self.new
            ≡ done self.old (goes self.old moment path.now).changes) }
        ensures err { OnErr result (self.new ≡ self.old) }
    {
        let parent = self.directory_at(&path.parent(self.alloc)?);
        self.unname(path);
        self.touch(parent, moment);
        Ok(Reply::Status(StatusCode::Success))
    }

    /// RMDIR.
    #[tactic(auto, using(crate::proofs::Calls::removes_directory))]
    pub(super) fn rmdir(&mut self, moment: u32, path: &Path) -> Result<Reply, AllocError>
        ensures reply { IfOk result (λ reply. reply
            ≡ (unless_root path.now (remove_directory self.old moment path.now
            (found_at self.old path.now))).reply) }
        ensures tree { OnOk result (self.new
            ≡ done self.old (unless_root path.now
            (remove_directory self.old moment path.now (found_at self.old path.now))).changes) }
        ensures err { OnErr result (self.new ≡ self.old) }
    {
        if path.is_root() {
            return Ok(Reply::Status(StatusCode::Failure));
        }
        let Lookup::At(label) = self.place_at(path)? else {
            return Ok(Reply::Status(StatusCode::NoSuchFile));
        };
        let Some(node) = self.objects.get(&label) else {
            return Ok(Reply::Status(StatusCode::NoSuchFile));
        };
        if node.as_directory().is_none() || !self.is_empty(path) {
            return Ok(Reply::Status(StatusCode::Failure));
        }
        self.remove_path(moment, path)
    }

    /// REMOVE.
    #[tactic(auto, using(crate::proofs::Calls::removes_file))]
    pub(super) fn remove(&mut self, moment: u32, path: &Path) -> Result<Reply, AllocError>
        ensures reply { IfOk result (λ reply. reply
            ≡ (unless_root path.now (remove_file self.old moment path.now
            (found_at self.old path.now))).reply) }
        ensures tree { OnOk result (self.new
            ≡ done self.old (unless_root path.now
            (remove_file self.old moment path.now (found_at self.old path.now))).changes) }
        ensures err { OnErr result (self.new ≡ self.old) }
    {
        if path.is_root() {
            return Ok(Reply::Status(StatusCode::Failure));
        }
        let Lookup::At(label) = self.place_at(path)? else {
            return Ok(Reply::Status(StatusCode::NoSuchFile));
        };
        let Some(node) = self.objects.get(&label) else {
            return Ok(Reply::Status(StatusCode::NoSuchFile));
        };
        if node.as_directory().is_some() {
            return Ok(Reply::Status(StatusCode::Failure));
        }
        self.remove_path(moment, path)
    }
}

// Opening.
impl PlainTree {
    /// The number of open handles of the session.
    fn handle_count(&self, session: u64) -> usize
        ensures { result ≡ count_by (λ e. nat_eq e.1.session session) self.now.handles }
    {
        self.handles
            .iter()
            .filter(|(_, handle)| handle.session == session)
            .count()
    }

    /// Whether the session has reached the limit of open handles.
    fn has_all_handles(&self, session: u64) -> bool
        ensures { result ≡ has_all_handles self.now session }
    {
        self.handle_count(session) >= MAX_HANDLES
    }

    /// OPENDIR.
    #[tactic(auto, using(crate::proofs::Calls::opens_directory))]
    pub(super) fn open_directory(
        &mut self,
        session: u64,
        number: u64,
        path: &Path,
    ) -> Result<Reply, AllocError>
        ensures reply { IfOk result (λ reply. reply
            ≡ (open_directory self.old session number (found_at self.old path.now)).reply) }
        ensures tree { OnOk result (self.new
            ≡ done self.old (open_directory self.old session number
            (found_at self.old path.now)).changes) }
        ensures err { OnErr result (self.new ≡ self.old) }
    {
        let Lookup::At(label) = self.place_at(path)? else {
            return Ok(Reply::Status(StatusCode::NoSuchFile));
        };
        let Some(node) = self.objects.get(&label) else {
            return Ok(Reply::Status(StatusCode::NoSuchFile));
        };
        if node.as_directory().is_none() || self.has_all_handles(session) {
            return Ok(Reply::Status(StatusCode::Failure));
        }
        self.handles
            .insert(number, directory_handle(session, label))?;
        Ok(Reply::Handle(number))
    }

    /// OPEN of an existing path.
    fn open_present(
        &mut self,
        session: u64,
        number: u64,
        moment: u32,
        label: u64,
        flags: OpenFlags,
    ) -> Result<Reply, AllocError>
        ensures reply { IfOk result (λ reply. reply
            ≡ (open_present self.old session number moment flags
            (found_place self.old.objects (At label))).reply) }
        ensures tree { OnOk result (self.new
            ≡ done self.old (open_present self.old session number moment flags
            (found_place self.old.objects (At label))).changes) }
        ensures err { OnErr result (self.new ≡ self.old) }
    {
        let Some(node) = self.objects.get(&label) else {
            return Ok(Reply::Status(StatusCode::NoSuchFile));
        };
        let Parts::File(metadata, _) = node.parts() else {
            return Ok(Reply::Status(StatusCode::Failure));
        };
        if self.has_all_handles(session) {
            return Ok(Reply::Status(StatusCode::Failure));
        }
        self.handles
            .insert(number, file_handle(session, label, flags))?;
        if cuts(flags) {
            self.set_contents(label, moment, metadata, WholeContents::new(self.alloc));
        }
        Ok(Reply::Handle(number))
    }

    /// OPEN. A new inode number is the call's number.
    pub(super) fn open(
        &mut self,
        session: u64,
        number: u64,
        moment: u32,
        path: &Path,
        flags: OpenFlags,
        attrs: &Attrs,
    ) -> Result<Reply, AllocError>
        ensures reply { IfOk result (λ reply. reply
            ≡ (unless_root path.now (open_file self.old session number moment
            path.now flags attrs.now (look_up self.old path.now))).reply) }
        ensures tree { OnOk result (self.new
            ≡ done self.old (unless_root path.now (open_file self.old session number moment
            path.now flags attrs.now (look_up self.old path.now))).changes) }
        ensures err { OnErr result (self.new ≡ self.old) }
    {
        if path.is_root() {
            return Ok(Reply::Status(StatusCode::Failure));
        }
        match self.place_at(path)? {
            Lookup::NoWay => Ok(Reply::Status(StatusCode::NoSuchFile)),
            Lookup::At(_) if flags.create && flags.exclusive => {
                Ok(Reply::Status(StatusCode::Failure))
            }
            Lookup::At(label) => self.open_present(session, number, moment, label, flags),
            Lookup::Absent if !flags.create => Ok(Reply::Status(StatusCode::NoSuchFile)),
            Lookup::Absent if self.has_all_handles(session) => {
                Ok(Reply::Status(StatusCode::Failure))
            }
            Lookup::Absent => {
                let parent = self.directory_at(&path.parent(self.alloc)?);
                let made = Metadata::new_object(0o644, moment, attrs);
                let file = Node::file(made, WholeContents::new(self.alloc));
                self.add_opened(path, number, file, file_handle(session, number, flags))?;
                self.touch(parent, moment);
                Ok(Reply::Handle(number))
            }
        }
    }

    /// Adds an absent path with its inode number and its object, and a handle of the same number.
    fn add_opened(
        &mut self,
        path: &Path,
        number: u64,
        node: Node,
        handle: Handle,
    ) -> Result<(), AllocError>
        requires { label_at self.old.names path.now ≡ None }
        ensures ok { OnOk result (self.new
            ≡ changed (changed self.old (OpenHandle number handle))
            (NewPath path.now number node)) }
        ensures err { OnErr result (self.new ≡ self.old) }
    {
        let replaced = self.handles.insert(number, handle)?;
        if let Err(error) = self.add(path, number, node) {
            put_back(&mut self.handles, number, replaced);
            return Err(error);
        }
        Ok(())
    }
}
