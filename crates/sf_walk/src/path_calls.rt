//! Calls on paths, except those that open, rename or link.

ghost use Rattle.std.specs.Prelude.{◌≡◌, ◌<◌, ◌&&◌, ℕ, true, false, is_some, length, Some, IsOk, IfOk, OnErr};
ghost use Rattle.sf_path.specs.Names.{Path};
ghost use Rattle.sf_reply.specs.Replies.{IsPlain};
ghost use Rattle.sf_call.specs.Attributes.{modified_at};
ghost use Rattle.sf_call.specs.Tree.{Tree, found_at, look_up};
ghost use Rattle.sf_call.specs.Calls.{stat, set_stat, sets, make_directory, remove_directory, remove_file, goes, unless_root};
ghost use Rattle.sf_reply.specs.declared.reply.Reply.TheVariants.{Status};
ghost use Rattle.sf_reply.specs.declared.reply.StatusCode.TheVariants.{Success};
ghost use Rattle.sf_inode.specs.declared.node.Node.{Node};
ghost use Rattle.sf_inode.specs.Nodes.{new_node, object_in, with_metadata};
ghost use Rattle.sf_inode.specs.Stores.{Inserted, node_in, is_bare_at, is_directory_at, blocks_left_at, edited, unlinked, new_entry};
ghost use Rattle.sf_keeps.specs.Keeps.{Keeps};
ghost use Rattle.sf_walk.specs.declared.finding.Located.TheVariants.{At};
ghost use Rattle.sf_walk.specs.Ways.{last_name_of, way_from};
ghost use Rattle.sf_walk.specs.Served.{IsCarriedOut, ServesOutcome, IsAlike, HoldersStay, NodesStay, IsUnused};

use crate::finding::{LastEntry, Located};
use sf_call::{FileType, MAX_FILE_SIZE, Metadata};
use sf_field::Attrs;
use sf_inode::{NewNode, NodeId, Store};
use sf_path::Path;
use sf_reply::{Reply, StatusCode};
use std::alloc::AllocError;

/// STAT.
pub(crate) fn stat(store: &Store, located: Located) -> Reply
    ensures served { (t : Tree) (path : Path) → Keeps store.now t
        → located ≡ way_from store.now.nodes store.now.root store.now.root path
        → IsCarriedOut store.now t (stat (found_at t path)) result }
    ensures plain { IsPlain result }
{
    match located.found() {
        Ok(found) => match store.attrs(found.node) {
            Some(attrs) => Reply::Attrs(attrs),
            None => Reply::Status(StatusCode::Failure),
        },
        Err(code) => Reply::Status(code),
    }
}

/// SETSTAT.
pub(crate) fn set_stat(
    store: &mut Store,
    moment: u32,
    path: &Path,
    attrs: &Attrs,
    located: Located,
) -> Reply
    requires way { located ≡ way_from store.old.nodes store.old.root store.old.root path.now }
    requires settled { (parent node : ℕ) → located ≡ At parent node
        → is_some attrs.now.size ≡ true → blocks_left_at store.old.nodes node ≡ 0 }
    ensures served { (t : Tree) → Keeps store.old t
        → IsCarriedOut store.new t (unless_root path.now
        (set_stat moment attrs.now (found_at t path.now))) result }
    ensures plain { IsPlain result }
    ensures look_ups { store.new.look_ups ≡ store.old.look_ups }
    ensures holders { HoldersStay store.old store.new }
{
    if path.is_root() {
        return Reply::Status(StatusCode::Failure);
    }
    match located.found() {
        Ok(found) => set_node(store, moment, found.node, attrs),
        Err(code) => Reply::Status(code),
    }
}

/// Sets an inode's attributes. A file's size is set first, which also sets its modification time. A
/// directory's size can't be set, nor a file's beyond the largest size. Allocates nothing.
pub(crate) fn set_node(store: &mut Store, moment: u32, node: NodeId, attrs: &Attrs) -> Reply
    requires { is_some attrs.now.size ≡ true → blocks_left_at store.old.nodes node ≡ 0 }
    ensures served { (t : Tree) (it : Node) → Keeps store.old t
        → node_in store.old.nodes node ≡ Some it
        → IsCarriedOut store.new t (sets moment it.label attrs.now
        (object_in it.metadata it.content)) result }
    ensures plain { IsPlain result }
    ensures look_ups { store.new.look_ups ≡ store.old.look_ups }
    ensures holders { HoldersStay store.old store.new }
{
    match attrs.size {
        None => {
            store.set(node, attrs);
            Reply::Status(StatusCode::Success)
        }
        Some(size) => {
            if store.is_directory(node) || size > MAX_FILE_SIZE {
                return Reply::Status(StatusCode::Failure);
            }
            store.set_len(node, size);
            store.touch(node, moment);
            store.set(node, attrs);
            Reply::Status(StatusCode::Success)
        }
    }
}

/// MKDIR. The new directory's label is the call's number.
pub(crate) fn mkdir(
    store: &mut Store,
    number: u64,
    moment: u32,
    path: &Path,
    attrs: &Attrs,
    located: Located,
) -> Result<Reply, AllocError>
    requires { located ≡ way_from store.old.nodes store.old.root store.old.root path.now }
    ensures served { (t : Tree) → Keeps store.old t → IsUnused t number
        → ServesOutcome store.new t (unless_root path.now (make_directory t
        number moment path.now attrs.now (look_up t path.now))) result }
    ensures err { OnErr result (IsAlike store.old store.new) }
    ensures plain { IfOk result IsPlain }
    ensures look_ups { store.new.look_ups ≡ store.old.look_ups }
    ensures holders { NodesStay number store.old store.new }
{
    if path.is_root() {
        return Ok(Reply::Status(StatusCode::Failure));
    }
    match located.slot() {
        Err(code) => Ok(Reply::Status(code)),
        Ok(LastEntry::Taken { node: _ }) => Ok(Reply::Status(StatusCode::Failure)),
        Ok(LastEntry::Missing { parent }) => {
            let made = NewNode {
                label: number,
                file_type: FileType::Directory,
                metadata: Metadata::new_object(0o755, moment, attrs),
            };
            insert_last(store, parent, path, made)?;
            store.touch(parent, moment);
            Ok(Reply::Status(StatusCode::Success))
        }
    }
}

/// Adds a new inode under the last name of a path.
pub(crate) fn insert_last(
    store: &mut Store,
    parent: NodeId,
    path: &Path,
    made: NewNode,
) -> Result<NodeId, AllocError>
    requires { 0 < length path.now }
    ensures ok { IfOk result (λ id. Inserted store.old store.new
        (new_entry parent (last_name_of path.now) id)
        (new_node made)) }
    ensures err { OnErr result (store.new ≡ store.old) }
{
    let name = path.name(path.len() - 1).try_copy(store.alloc())?;
    store.insert(parent, name, made)
}

/// RMDIR.
pub(crate) fn rmdir(store: &mut Store, moment: u32, path: &Path, located: Located) -> Reply
    requires { located ≡ way_from store.old.nodes store.old.root store.old.root path.now }
    ensures served { (t : Tree) → Keeps store.old t
        → IsCarriedOut store.new t (unless_root path.now
        (remove_directory t moment path.now (found_at t path.now))) result }
    ensures plain { IsPlain result }
    ensures look_ups { store.new.look_ups ≡ store.old.look_ups }
    ensures holders { HoldersStay store.old store.new }
{
    if path.is_root() {
        return Reply::Status(StatusCode::Failure);
    }
    match located.found() {
        Err(code) => Reply::Status(code),
        Ok(found) => {
            if !is_empty_directory(store, found.node) {
                return Reply::Status(StatusCode::Failure);
            }
            remove_last(store, moment, found.parent, path);
            Reply::Status(StatusCode::Success)
        }
    }
}

fn is_empty_directory(store: &Store, node: NodeId) -> bool
    ensures { result
        ≡ (is_directory_at store.now.nodes node && is_bare_at store.now.nodes node) }
{
    store.is_directory(node) && store.is_empty(node)
}

/// REMOVE.
pub(crate) fn remove(store: &mut Store, moment: u32, path: &Path, located: Located) -> Reply
    requires { located ≡ way_from store.old.nodes store.old.root store.old.root path.now }
    ensures served { (t : Tree) → Keeps store.old t
        → IsCarriedOut store.new t (unless_root path.now
        (remove_file t moment path.now (found_at t path.now))) result }
    ensures plain { IsPlain result }
    ensures look_ups { store.new.look_ups ≡ store.old.look_ups }
    ensures holders { HoldersStay store.old store.new }
{
    if path.is_root() {
        return Reply::Status(StatusCode::Failure);
    }
    match located.found() {
        Err(code) => Reply::Status(code),
        Ok(found) => {
            if store.is_directory(found.node) {
                return Reply::Status(StatusCode::Failure);
            }
            remove_last(store, moment, found.parent, path);
            Reply::Status(StatusCode::Success)
        }
    }
}

/// Removes the last name of a path from its directory, and sets the directory's modification time.
fn remove_last(store: &mut Store, moment: u32, dir: NodeId, path: &Path)
    requires { 0 < length path.now }
    ensures state { store.new
        ≡ edited (with_metadata (modified_at moment))
        (unlinked store.old dir (last_name_of path.now)) dir }
    ensures served { (t : Tree) (node : ℕ) → Keeps store.old t
        → way_from store.old.nodes store.old.root store.old.root path.now ≡ At dir node
        → is_bare_at store.old.nodes node ≡ true
        → IsCarriedOut store.new t (goes t moment path.now) (Status Success) }
{
    store.unlink(dir, path.name(path.len() - 1));
    store.touch(dir, moment);
}
