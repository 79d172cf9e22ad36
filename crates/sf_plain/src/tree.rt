//! The tree.

ghost use Rattle.std.specs.List.{list_any};
ghost use Rattle.std.specs.Option.{option_copied, is_some};
ghost use Rattle.std.specs.Prelude.{◌≡◌, None, length, IfOk, OnOk, OnErr};
ghost use Rattle.sf_call.specs.Attributes.{modified_at};
ghost use Rattle.sf_call.specs.Attributes.Object.{File};
ghost use Rattle.sf_call.specs.Tree.{empty_tree, label_at, directory_at, is_faulty_way, is_empty, only_name, after_front, look_up};
ghost use Rattle.sf_call.specs.Changes.{changed, done, touch};
ghost use Rattle.sf_call.specs.Changes.Change.{NewPath, SetObject, GonePath};
ghost use Rattle.sf_call.specs.Calls.{apply, leave};
ghost use Rattle.sf_plain.specs.Nodes.{is_no_way};

use crate::copies::copy_of;
use crate::node::Node;
use crate::sweep::{close_all, sweep};
use sf_block::WholeContents;
use sf_call::{Handle, Lookup, Metadata, Request};
use sf_field::{HandleOp, Owner, PairOp, PathOp, Times};
use sf_path::{Name, Path};
use sf_reply::Reply;
use std::alloc::{AllocError, Global};
use std::collections::BTreeMap;
use std::marker::Model;

mod handle_calls;
mod leaves;
mod links;
mod listing;
mod path_calls;
mod renames;

/// A file system that executes the sequential specification.
#[derive(Drop)]
pub struct PlainTree {
    alloc: Global,
    names: BTreeMap<Path, u64>,
    objects: BTreeMap<u64, Node>,
    handles: BTreeMap<u64, Handle>,
}

impl Model for PlainTree {
    ghost use Rattle.sf_call.specs.Tree.{Tree};

    ghost Value = { Tree };

    ghost view = { λ tree. record {
      names = tree.names.entries;
      objects = tree.objects.entries;
      handles = tree.handles.entries;
    } };
}

impl PlainTree {
    /// A tree with an empty root directory.
    pub fn new(alloc: Global) -> Result<PlainTree, AllocError>
        ensures { IfOk result (λ tree. tree ≡ empty_tree) }
    {
        let root = Metadata {
            owner: Owner { uid: 0, gid: 0 },
            permissions: 0o755,
            times: Times { atime: 0, mtime: 0 },
        };
        let mut names = BTreeMap::new(alloc);
        names.insert(Path::root(), 0)?;
        let mut objects = BTreeMap::new(alloc);
        objects.insert(0, Node::directory(root))?;
        Ok(PlainTree {
            alloc,
            names,
            objects,
            handles: BTreeMap::new(alloc),
        })
    }

    /// Executes a call with this session and number, at a timestamp in seconds since 1970.
    pub fn apply(
        &mut self,
        session: u64,
        number: u64,
        moment: u32,
        request: &Request,
    ) -> Result<Reply, AllocError>
        ensures reply { IfOk result (λ reply. reply
            ≡ (apply self.old session number moment request.now).reply) }
        ensures tree { OnOk result (self.new
            ≡ (apply self.old session number moment request.now).tree) }
        ensures err { OnErr result (self.new ≡ self.old) }
    {
        match request {
            Request::OnPath(PathOp::Stat, path) => self.stat(path),
            Request::OnPath(PathOp::SetStat(attrs), path) => self.set_stat(moment, path, attrs),
            Request::OnPath(PathOp::Mkdir(attrs), path) => self.mkdir(number, moment, path, attrs),
            Request::OnPath(PathOp::Rmdir, path) => self.rmdir(moment, path),
            Request::OnPath(PathOp::Remove, path) => self.remove(moment, path),
            Request::OnPath(PathOp::OpenDir, path) => self.open_directory(session, number, path),
            Request::OnPath(PathOp::Open(flags, attrs), path) => {
                self.open(session, number, moment, path, *flags, attrs)
            }
            Request::OnPaths(PairOp::Rename, old, new) => self.rename(moment, old, new),
            Request::OnPaths(PairOp::PosixRename, old, new) => self.posix_rename(moment, old, new),
            Request::OnPaths(PairOp::Link, old, new) => self.link(moment, old, new),
            Request::ByHandle(HandleOp::Close, handle) => Ok(self.close(session, *handle)),
            Request::ByHandle(HandleOp::FStat, handle) => Ok(self.stat_handle(session, *handle)),
            Request::ByHandle(HandleOp::FSetStat(attrs), handle) => {
                self.set_stat_handle(session, moment, *handle, attrs)
            }
            Request::ByHandle(HandleOp::Read { offset, len }, handle) => {
                self.read(session, *handle, *offset, *len)
            }
            Request::ByHandle(HandleOp::ReadDir, handle) => self.read_directory(session, *handle),
            Request::Write {
                handle,
                offset,
                data,
            } => self.write(session, moment, *handle, *offset, data),
        }
    }

    /// Ends a session: closes its handles and deletes objects left unused.
    pub fn leave(&mut self, session: u64)
        ensures { self.new ≡ leave self.old session }
    {
        close_all(&mut self.handles, session);
        sweep(&mut self.objects, &self.names, &self.handles);
    }

    /// The number of directories and files, including those that are only open.
    pub fn object_count(&self) -> usize
        ensures { result ≡ length self.now.objects }
    {
        self.objects.len()
    }

    /// A copy of the tree.
    pub fn try_copy(&self) -> Result<PlainTree, AllocError>
        ensures { IfOk result (λ copy. copy ≡ self.now) }
    {
        Ok(PlainTree {
            alloc: self.alloc,
            names: copy_of(self.alloc, &self.names)?,
            objects: copy_of(self.alloc, &self.objects)?,
            handles: copy_of(self.alloc, &self.handles)?,
        })
    }
}

// Lookups.
impl PlainTree {
    fn label_at(&self, path: &Path) -> Option<u64>
        ensures { result ≡ label_at self.now.names path.now }
    {
        self.names.get(path).copied()
    }

    /// The inode number and the metadata of the directory at a path.
    fn directory_at(&self, path: &Path) -> Option<(u64, Metadata)>
        ensures { result ≡ directory_at self.now path.now }
    {
        let label = self.label_at(path)?;
        let metadata = self.objects.get(&label)?.as_directory()?;
        Some((label, metadata))
    }

    /// Whether a proper prefix of the path is absent or names a file.
    fn is_faulty_way(&self, path: &Path) -> Result<bool, AllocError>
        ensures { IfOk result (λ faulty. faulty ≡ is_faulty_way self.now path.now) }
    {
        for n in 0..path.len() {
            let front = path.front(self.alloc, n)?;
            if self.directory_at(&front).is_none() {
                return Ok(true);
            }
        }
        Ok(false)
    }

    /// Whether the path has an entry directly below it.
    fn has_child(&self, path: &Path) -> bool
        ensures { result
            ≡ list_any (λ e. is_some (only_name (after_front path.now e.0))) self.now.names }
    {
        self.names
            .iter()
            .any(|(other, _)| name_in(path, other).is_some())
    }

    #[tactic(auto, using(crate::proofs::Children::empty_names))]
    fn is_empty(&self, path: &Path) -> bool
        ensures { result ≡ is_empty self.now.names path.now }
    {
        !self.has_child(path)
    }

    fn place_at(&self, path: &Path) -> Result<Lookup, AllocError>
        ensures place { IfOk result (λ place. place ≡ look_up self.now path.now) }
        ensures way { IfOk result (λ place. is_faulty_way self.now path.now ≡ is_no_way place) }
    {
        if self.is_faulty_way(path)? {
            return Ok(Lookup::NoWay);
        }
        match self.label_at(path) {
            None => Ok(Lookup::Absent),
            Some(label) => Ok(Lookup::At(label)),
        }
    }
}

/// The name of a path in a directory, if it is directly below it.
pub(crate) fn name_in<'a>(directory: &Path, path: &'a Path) -> Option<&'a Name>
    ensures { option_copied result ≡ only_name (after_front directory.now path.now) }
{
    if path.begins_with(directory) && path.len().saturating_sub(directory.len()) == 1 {
        Some(path.name(directory.len()))
    } else {
        None
    }
}

// Changes.
impl PlainTree {
    /// Adds an absent path with its inode number and its object.
    fn add(&mut self, path: &Path, label: u64, node: Node) -> Result<(), AllocError>
        requires { label_at self.old.names path.now ≡ None }
        ensures ok { OnOk result (self.new ≡ changed self.old (NewPath path.now label node)) }
        ensures err { OnErr result (self.new ≡ self.old) }
    {
        let name = path.share()?;
        self.names.insert(name, label)?;
        if let Err(_) = self.objects.insert(label, node) {
            self.names.remove(path);
            return Err(AllocError);
        }
        Ok(())
    }

    /// Removes a path, and deletes its object if it is unused.
    fn unname(&mut self, path: &Path)
        ensures { self.new ≡ changed self.old (GonePath path.now) }
    {
        self.names.remove(path);
        sweep(&mut self.objects, &self.names, &self.handles);
    }

    /// Replaces the object of an inode number.
    fn set_object(&mut self, label: u64, object: Node)
        ensures { self.new ≡ changed self.old (SetObject label object) }
    {
        if let Some(node) = self.objects.get_mut(&label) {
            *node = object;
        }
    }

    /// Replaces the contents of a file and sets its modification time.
    fn set_contents(&mut self, label: u64, moment: u32, metadata: Metadata, bytes: WholeContents)
        ensures { self.new
            ≡ changed self.old (SetObject label (File (modified_at moment metadata) bytes)) }
    {
        self.set_object(label, Node::file(metadata.modified_at(moment), bytes));
    }

    /// Sets the modification time of a directory.
    fn touch(&mut self, directory: Option<(u64, Metadata)>, moment: u32)
        ensures { self.new ≡ done self.old (touch moment directory) }
    {
        if let Some((label, metadata)) = directory {
            self.set_object(label, Node::directory(metadata.modified_at(moment)));
        }
    }
}
