//! The walk through a folder.

ghost use Rattle.std.specs.Prelude.{◌≡◌, ◌<◌, ℕ, [], ◌∷◌, ◌++◌, IfOk, IfNone, vec_len};
ghost use Rattle.std.specs.Global.{Vec};
ghost use Rattle.sf_folder.specs.Names.{IsAtEnd};

use crate::file::{LocalFile, Piece};
use crate::names::names_in;
use crate::opening::{Opened, open_name};
use crate::stat::Found;
use crate::system::{Descriptor, ReadFault, SystemDescriptor, open_root};
use crate::telling::{Progress, tell_changed, tell_left_out, tell_unreadable};
use sf_field::Attrs;
use sf_loading::{Folder, FolderFault, Item};
use std::alloc::{AllocError, Global};
use std::mem;

/// How many directories are open at once at most. Outer ones are opened again by `..`.
const OPEN: usize = 64;

/// The system's error if a directory is no longer in its outer one.
const ESTALE: i32 = 116;

/// A directory that the walk is in.
#[derive(Drop)]
struct Level<'a> {
    /// The length of its local path.
    len: usize,
    directory: Option<SystemDescriptor<'a>>,
    /// The names that remain, the next one last.
    names: Vec<Vec<u8>>,
    found: Found,
}

/// The state of the current file.
#[derive(Drop)]
enum Stage<'a> {
    /// There is no current file.
    Nothing,
    Bytes(LocalFile<SystemDescriptor<'a>>),
    End,
}

/// A local folder as a `Folder`: its files and directories, in the order of their names. Other
/// things are left out. These, what can't be read, and what changes while it is read are reported
/// on standard error.
#[derive(Drop)]
pub struct LocalFolder<'a> {
    rt: &'a HostRuntime,
    /// A change while the folder is read is an error.
    is_strict: bool,
    /// The local path of the last item.
    path: Vec<u8>,
    /// The length of the folder's own path.
    root: usize,
    /// The directories that the walk is in: the innermost one, and the others.
    inner: Level<'a>,
    outer: Vec<Level<'a>>,
    stage: Stage<'a>,
    progress: Progress,
}

fn copied(alloc: Global, bytes: &[u8]) -> Result<Vec<u8>, AllocError> {
    let mut copy = Vec::new(alloc);
    copy.extend_from_slice(bytes)?;
    Ok(copy)
}

/// A directory that was opened, with its names.
fn level_of<'a>(
    alloc: Global,
    directory: SystemDescriptor<'a>,
    found: Found,
    len: usize,
) -> Result<Level<'a>, ReadFault> {
    let mut directory = directory;
    let names = names_in(alloc, &mut directory)?;
    Ok(Level {
        len,
        directory: Some(directory),
        names,
        found,
    })
}

/// The folder itself.
fn root_level<'a>(rt: &'a HostRuntime, path: &[u8]) -> Result<Level<'a>, ReadFault> {
    let directory = open_root(rt, path)?;
    match directory.found() {
        Ok(found) => level_of(rt.alloc(), directory, found, path.len()),
        Err(error) => Err(ReadFault::System(error)),
    }
}

/// Adds an outer directory, and closes one that is far outside.
fn add_outer<'a>(outer: &mut Vec<Level<'a>>, level: Level<'a>) -> Result<(), AllocError> {
    if let Some(far) = outer.len().checked_sub(OPEN) {
        if let Some(level) = outer.get_mut(far) {
            level.directory = None;
        }
    }
    outer.push(level)?;
    Ok(())
}

/// Opens a directory again, by `..` in the directory that was left.
fn reopen<'a>(outer: &mut Level<'a>, inner: &Level<'a>) -> Result<(), i32> {
    if outer.directory.is_some() {
        return Ok(());
    }
    let Some(inner) = &inner.directory else {
        return Err(ESTALE);
    };
    let directory = inner.open_directory(b"..")?;
    if directory.found()?.id != outer.found.id {
        return Err(ESTALE);
    }
    outer.directory = Some(directory);
    Ok(())
}

/// Reports what can't be read.
fn unreadable(rt: &HostRuntime, path: &[u8], fault: ReadFault) -> FolderFault {
    match fault {
        ReadFault::OutOfMemory => FolderFault::OutOfMemory,
        ReadFault::System(error) => {
            tell_unreadable(rt, path, error);
            FolderFault::Unreadable
        }
    }
}

impl<'a> LocalFolder<'a> {
    /// Opens the folder at a path. If `is_strict`, something that changes while it is read is an
    /// error, and otherwise it is only reported.
    pub fn open(
        rt: &'a HostRuntime,
        path: &str,
        is_strict: bool,
    ) -> Result<LocalFolder<'a>, FolderFault> {
        let alloc = rt.alloc();
        let bytes = path.as_bytes();
        let level = match root_level(rt, bytes) {
            Ok(level) => level,
            Err(fault) => return Err(unreadable(rt, bytes, fault)),
        };
        Ok(LocalFolder {
            rt,
            is_strict,
            path: copied(alloc, bytes)?,
            root: bytes.len(),
            inner: level,
            outer: Vec::new(alloc),
            stage: Stage::Nothing,
            progress: Progress::begin(rt),
        })
    }

    /// The path of the last item in the tree.
    pub fn path(&self) -> &[u8] {
        match self.path.get(self.root..) {
            Some(path) if !path.is_empty() => path,
            _ => b"/".as_slice(),
        }
    }

    fn own_path(&self) -> Result<Vec<u8>, AllocError> {
        copied(self.rt.alloc(), self.path())
    }

    fn fault(&self, fault: ReadFault) -> FolderFault {
        unreadable(self.rt, &self.path, fault)
    }

    /// Reports that what is at the current path changed.
    fn changed(&self, how: &str) -> Result<(), FolderFault> {
        tell_changed(self.rt, &self.path, how);
        if self.is_strict {
            return Err(FolderFault::Unreadable);
        }
        Ok(())
    }

    /// The attributes of a file that was read.
    fn end_of_file(&self, file: &LocalFile<SystemDescriptor<'a>>) -> Result<Item, FolderFault> {
        match file.end() {
            Ok((attrs, how)) => {
                if let Some(how) = how {
                    self.changed(how)?;
                }
                Ok(Item::FileAttributes(attrs))
            }
            Err(fault) => Err(self.fault(fault)),
        }
    }

    /// The next bytes of the current file, or its attributes at the end.
    fn next_of_file(&mut self, file: LocalFile<SystemDescriptor<'a>>) -> Result<Item, FolderFault> {
        let mut file = file;
        match file.next(self.rt.alloc()) {
            Ok(Some(Piece { offset, bytes })) => {
                self.progress.add_bytes(bytes.len());
                self.stage = Stage::Bytes(file);
                Ok(Item::Bytes(offset, bytes))
            }
            Ok(None) => {
                self.stage = Stage::End;
                self.end_of_file(&file)
            }
            Err(fault) => Err(self.fault(fault)),
        }
    }

    /// Leaves the innermost directory. Returns its attributes, or `None` at the end. The folder
    /// itself becomes `/`; the attributes of `/` aren't set.
    fn leave(&mut self) -> Result<Option<Item>, FolderFault>
        requires { self.old.inner.names.items ≡ [] }
        ensures { IfOk result (λ item. IfNone item (IsAtEnd self.new.inner.names.items
            self.new.outer.items)) }
    {
        let Some(outer) = self.outer.pop() else {
            return Ok(None);
        };
        let inner = mem::replace(&mut self.inner, outer);
        self.path.truncate(inner.len);
        if let Err(error) = reopen(&mut self.inner, &inner) {
            return Err(self.fault(ReadFault::System(error)));
        }
        Ok(Some(Item::DirectoryAttributes(self.own_path()?, inner.found.attrs)))
    }

    fn enter(
        &mut self,
        directory: SystemDescriptor<'a>,
        found: Found,
    ) -> Result<Item, FolderFault> {
        let level = match level_of(self.rt.alloc(), directory, found, self.path.len()) {
            Ok(level) => level,
            Err(fault) => return Err(self.fault(fault)),
        };
        let outer = mem::replace(&mut self.inner, level);
        add_outer(&mut self.outer, outer)?;
        self.progress.add_object();
        Ok(Item::Directory(self.own_path()?))
    }

    fn begin_file(
        &mut self,
        file: SystemDescriptor<'a>,
        found: Found,
    ) -> Result<Item, FolderFault> {
        self.stage = Stage::Bytes(LocalFile::new(file, found));
        self.progress.add_object();
        Ok(Item::File(self.own_path()?))
    }

    /// The item of what was opened at the current path; `None` if it is left out.
    fn item_of(
        &mut self,
        opened: Result<Opened<SystemDescriptor<'a>>, ReadFault>,
    ) -> Result<Option<Item>, FolderFault>
        ensures { IfOk result (λ item. IfNone item (self.new.inner.names ≡ self.old.inner.names)) }
    {
        match opened {
            Ok(Opened::Directory(directory, found)) => Ok(Some(self.enter(directory, found)?)),
            Ok(Opened::File(file, found)) => Ok(Some(self.begin_file(file, found)?)),
            Ok(Opened::Other(kind)) => {
                tell_left_out(self.rt, &self.path, kind);
                Ok(None)
            }
            Ok(Opened::Changed(how)) => {
                self.changed(how)?;
                Ok(None)
            }
            Err(fault) => Err(self.fault(fault)),
        }
    }

    /// Takes the next name of the innermost directory, makes its path the current one, and opens
    /// it.
    fn open_next(&mut self) -> Result<Opened<SystemDescriptor<'a>>, ReadFault>
        requires { 0 < vec_len self.old.inner.names }
        ensures { (name : Vec ℕ)
            × (self.old.inner.names.items ≡ self.new.inner.names.items ++ name ∷ []) }
    {
        let Some(name) = self.inner.names.pop() else {
            unreachable!()
        };
        self.path.truncate(self.inner.len);
        self.path.extend_from_slice(b"/")?;
        self.path.extend_from_slice(&name)?;
        match &self.inner.directory {
            Some(directory) => open_name(directory, &name),
            None => Err(ReadFault::System(ESTALE)),
        }
    }

    /// The next file or directory, or the end of a directory. `None` only if no name remains.
    fn walk(&mut self) -> Result<Option<Item>, FolderFault>
        ensures { IfOk result (λ item. IfNone item (IsAtEnd self.new.inner.names.items
            self.new.outer.items)) }
    {
        while !self.inner.names.is_empty() {
            let opened = self.open_next();
            if let Some(item) = self.item_of(opened)? {
                return Ok(Some(item));
            }
        }
        self.leave()
    }
}

impl Folder for LocalFolder<'_> {
    ghost use Rattle.std.specs.Prelude.{None};

    // The system's files are unspecified.
    ghost items = { λ _. None };

    fn next(&mut self) -> Result<Option<Item>, FolderFault> {
        self.progress.tell(self.rt);
        match mem::replace(&mut self.stage, Stage::Nothing) {
            Stage::Nothing => self.walk(),
            Stage::Bytes(file) => Ok(Some(self.next_of_file(file)?)),
            Stage::End => Ok(Some(Item::FileEnd)),
        }
    }
}
