//! OPEN and OPENDIR.

ghost use Rattle.std.specs.Prelude.{◌≡◌, ℕ, ◌<◌, List, [], ◌∷◌, ◌++◌, length, ◌&&◌, Some, None, true, IfOk, OnOk, OnErr};
ghost use Rattle.sf_path.specs.Names.{Path};
ghost use Rattle.sf_reply.specs.Replies.{IsPlain};
ghost use Rattle.sf_call.specs.declared.metadata.FileType.TheVariants as file_type;
ghost use Rattle.sf_call.specs.declared.metadata.Metadata.{Metadata};
ghost use Rattle.sf_call.specs.declared.lookup.Lookup.TheVariants.{Absent};
ghost use Rattle.sf_call.specs.Attributes.{modified_at};
ghost use Rattle.sf_call.specs.Attributes.Object.{File};
ghost use Rattle.sf_call.specs.Changes.{changed};
ghost use Rattle.sf_call.specs.Changes.Change.{SetObject};
ghost use Rattle.sf_call.specs.Tree.{Tree, found_at, look_up};
ghost use Rattle.sf_call.specs.Calls.{has_all_handles, open_directory, open_present, open_file, unless_root};
ghost use Rattle.sf_inode.specs.declared.node.Node.{Node};
ghost use Rattle.sf_inode.specs.Stores.{StoreState, node_in, child_of, shown_of, is_directory_at, blocks_left_at, bytes_set};
ghost use Rattle.sf_keeps.specs.Steps.{walk};
ghost use Rattle.sf_keeps.specs.Keeps.{Keeps};
ghost use Rattle.sf_walk.specs.Ways.{last_name_of, found_node, way_from};
ghost use Rattle.sf_walk.specs.declared.finding.Located.TheVariants.{At};
ghost use Rattle.sf_walk.specs.Opening.{marks_of, OpenedNew, to_open};
ghost use Rattle.sf_walk.specs.Served.{ServesOutcome, IsAlike, HoldersStay, NodesStay, IsUnused};

use crate::finding::{LastEntry, Located};
use crate::path_calls::insert_last;
use sf_call::{FileType, MAX_HANDLES, Metadata};
use sf_field::{Attrs, OpenFlags};
use sf_inode::{Marks, NewNode, NodeId, Store};
use sf_path::Path;
use sf_reply::{Reply, StatusCode};
use std::alloc::AllocError;

/// A directory's handle has no access mode.
const NO_MARKS: Marks = Marks {
    read: false,
    write: false,
    append: false,
};

/// The access mode of a handle. With neither READ nor WRITE it can read.
fn file_marks(flags: OpenFlags) -> Marks
    ensures { result ≡ marks_of flags }
{
    Marks {
        read: flags.read || !flags.write,
        write: flags.write,
        append: flags.append,
    }
}

fn has_all_handles(store: &Store, session: u64) -> bool
    ensures { (t : Tree) → Keeps store.now t → result ≡ has_all_handles t session }
{
    store.handles(session) >= MAX_HANDLES
}

/// OPENDIR.
pub(crate) fn open_directory(
    store: &mut Store,
    session: u64,
    number: u64,
    located: Located,
) -> Result<Reply, AllocError>
    ensures served { (t : Tree) (path : Path) → Keeps store.old t → IsUnused t number
        → located ≡ way_from store.old.nodes store.old.root store.old.root path
        → ServesOutcome store.new t (open_directory t session number (found_at t path)) result }
    ensures err { OnErr result (IsAlike store.old store.new) }
    ensures plain { IfOk result IsPlain }
    ensures look_ups { store.new.look_ups ≡ store.old.look_ups }
    ensures holders { HoldersStay store.old store.new }
{
    match located.found() {
        Ok(found) => open_listing(store, session, number, found.node),
        Err(code) => Ok(Reply::Status(code)),
    }
}

/// Opens an inode for listing; a file can't be listed.
fn open_listing(
    store: &mut Store,
    session: u64,
    number: u64,
    node: NodeId,
) -> Result<Reply, AllocError>
    ensures served { (t : Tree) (it : Node) → Keeps store.old t → IsUnused t number
        → node_in store.old.nodes node ≡ Some it
        → ServesOutcome store.new t (open_directory t session number (found_node it)) result }
    ensures err { OnErr result (store.new ≡ store.old) }
    ensures plain { IfOk result IsPlain }
    ensures look_ups { store.new.look_ups ≡ store.old.look_ups }
    ensures holders { HoldersStay store.old store.new }
{
    if !store.is_directory(node) {
        return Ok(Reply::Status(StatusCode::Failure));
    }
    if has_all_handles(store, session) {
        return Ok(Reply::Status(StatusCode::Failure));
    }
    store.open(session, number, node, NO_MARKS)?;
    Ok(Reply::Handle(number))
}

/// OPEN. A new file's label is the call's number.
pub(crate) fn open(
    store: &mut Store,
    session: u64,
    number: u64,
    moment: u32,
    path: &Path,
    flags: OpenFlags,
    attrs: &Attrs,
    located: Located,
) -> Result<Reply, AllocError>
    requires way { located ≡ way_from store.old.nodes store.old.root store.old.root path.now }
    requires settled { (parent node : ℕ) → located ≡ At parent node
        → (flags.truncate && flags.write) ≡ true → blocks_left_at store.old.nodes node ≡ 0 }
    ensures served { (t : Tree) → Keeps store.old t → IsUnused t number
        → ServesOutcome store.new t (unless_root path.now (open_file t session number moment
        path.now flags attrs.now (look_up t path.now))) result }
    ensures err { OnErr result (IsAlike store.old store.new) }
    ensures plain { IfOk result IsPlain }
    ensures look_ups { store.new.look_ups ≡ store.old.look_ups }
    ensures holders { NodesStay number store.old store.new }
{
    if path.is_root() {
        return Ok(Reply::Status(StatusCode::Failure));
    }
    match located.slot() {
        Err(code) => Ok(Reply::Status(code)),
        Ok(LastEntry::Missing { parent }) => {
            open_absent(store, session, number, moment, parent, path, flags, attrs)
        }
        Ok(LastEntry::Taken { node }) => {
            if flags.create && flags.exclusive {
                return Ok(Reply::Status(StatusCode::Failure));
            }
            open_present(store, session, number, moment, node, flags)
        }
    }
}

/// Opens an existing inode. TRUNC with WRITE truncates a file.
fn open_present(
    store: &mut Store,
    session: u64,
    number: u64,
    moment: u32,
    node: NodeId,
    flags: OpenFlags,
) -> Result<Reply, AllocError>
    requires { (flags.truncate && flags.write) ≡ true → blocks_left_at store.old.nodes node ≡ 0 }
    ensures served { (t : Tree) (it : Node) → Keeps store.old t → IsUnused t number
        → node_in store.old.nodes node ≡ Some it
        → ServesOutcome store.new t
        (open_present t session number moment flags (found_node it)) result }
    ensures err { OnErr result (store.new ≡ store.old) }
    ensures plain { IfOk result IsPlain }
    ensures look_ups { store.new.look_ups ≡ store.old.look_ups }
    ensures holders { HoldersStay store.old store.new }
{
    if store.is_directory(node) {
        return Ok(Reply::Status(StatusCode::Failure));
    }
    if has_all_handles(store, session) {
        return Ok(Reply::Status(StatusCode::Failure));
    }
    store.open(session, number, node, file_marks(flags))?;
    if flags.truncate && flags.write {
        truncate(store, moment, node);
    }
    Ok(Reply::Handle(number))
}

/// Truncates a file to no bytes, and sets its modification time.
fn truncate(store: &mut Store, moment: u32, node: NodeId)
    requires { blocks_left_at store.old.nodes node ≡ 0 }
    ensures tree { (t : Tree) (label : ℕ) (m : Metadata) (bytes : List ℕ) → Keeps store.old t
        → shown_of store.old.nodes node ≡ Some (label, File m bytes)
        → Keeps store.new (changed t (SetObject label (File (modified_at moment m) []))) }
    ensures look_ups { store.new.look_ups ≡ store.old.look_ups }
    ensures holders { (before : StoreState) → HoldersStay before store.old
        → HoldersStay before store.new }
{
    cut(store, node);
    store.touch(node, moment);
}

/// Removes a file's bytes. Allocates nothing.
fn cut(store: &mut Store, node: NodeId)
    requires { blocks_left_at store.old.nodes node ≡ 0 }
    ensures { store.new ≡ bytes_set store.old node [] }
{
    store.set_len(node, 0);
}

/// OPEN of a name that a directory lacks.
fn open_absent(
    store: &mut Store,
    session: u64,
    number: u64,
    moment: u32,
    parent: NodeId,
    path: &Path,
    flags: OpenFlags,
    attrs: &Attrs,
) -> Result<Reply, AllocError>
    requires named { 0 < length path.now }
    requires directory { is_directory_at store.old.nodes parent ≡ true }
    requires missing { child_of store.old.nodes parent (last_name_of path.now) ≡ None }
    ensures served { (t : Tree) (front : Path) → Keeps store.old t → IsUnused t number
        → path.now ≡ front ++ last_name_of path.now ∷ []
        → walk (child_of store.old.nodes) store.old.root front ≡ Some parent
        → ServesOutcome store.new t (open_file t session number moment
        path.now flags attrs.now Absent) result }
    ensures err { OnErr result (IsAlike store.old store.new) }
    ensures plain { IfOk result IsPlain }
    ensures look_ups { store.new.look_ups ≡ store.old.look_ups }
    ensures holders { (before : StoreState) → store.old.nodes ≡ before.nodes
        → NodesStay number before store.new }
{
    if !flags.create {
        return Ok(Reply::Status(StatusCode::NoSuchFile));
    }
    if has_all_handles(store, session) {
        return Ok(Reply::Status(StatusCode::Failure));
    }
    let metadata = Metadata::new_object(0o644, moment, attrs);
    open_new(store, session, number, parent, path, flags, metadata)?;
    store.touch(parent, moment);
    Ok(Reply::Handle(number))
}

/// Adds a new file under the last name of a path, and opens it. If allocating the handle fails, the
/// file is removed again.
fn open_new(
    store: &mut Store,
    session: u64,
    number: u64,
    parent: NodeId,
    path: &Path,
    flags: OpenFlags,
    metadata: Metadata,
) -> Result<(), AllocError>
    requires named { 0 < length path.now }
    requires directory { is_directory_at store.old.nodes parent ≡ true }
    requires missing { child_of store.old.nodes parent (last_name_of path.now) ≡ None }
    ensures ok { OnOk result (OpenedNew store.old store.new
        (to_open session number parent (last_name_of path.now) (marks_of flags)) (record {
          label = number;
          file_type = file_type.File;
          metadata = metadata;
        })) }
    ensures err { OnErr result (IsAlike store.old store.new) }
    ensures look_ups { store.new.look_ups ≡ store.old.look_ups }
{
    let made = NewNode {
        label: number,
        file_type: FileType::File,
        metadata,
    };
    let node = insert_last(store, parent, path, made)?;
    match store.open(session, number, node, file_marks(flags)) {
        Ok(()) => Ok(()),
        Err(error) => {
            store.unlink(parent, path.name(path.len() - 1));
            Err(error)
        }
    }
}
