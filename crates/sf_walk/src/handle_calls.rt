//! Calls by handle (draft-ietf-secsh-filexfer-02, section 6).

ghost use Rattle.std.specs.Prelude.{◌≡◌, ◌≢◌, ◌+◌, ◌<◌, ◌^◌, ℕ, nat_lt, if◌then◌else◌, List, length, true, false, is_some, Some, None, IsOk, IfOk, OnOk, OnErr};
ghost use Rattle.sf_reply.specs.declared.reply.Reply.TheVariants as reply;
ghost use Rattle.sf_reply.specs.declared.reply.StatusCode.TheVariants.{Success};
ghost use Rattle.sf_reply.specs.Replies.{IsPlain};
ghost use Rattle.sf_call.specs.declared.metadata.Metadata.{Metadata};
ghost use Rattle.sf_call.specs.Attributes.{modified_at};
ghost use Rattle.sf_call.specs.Attributes.Object.{File};
ghost use Rattle.sf_block.specs.Contents.{written, blocks_of};
ghost use Rattle.sf_call.specs.Tree.{Tree, is_nil};
ghost use Rattle.sf_call.specs.Changes.{changed};
ghost use Rattle.sf_call.specs.Changes.Change.{SetObject};
ghost use Rattle.sf_call.specs.Handles.{handle_in, opened};
ghost use Rattle.sf_call.specs.Calls.{close, stat_opened, set_opened, read, write};
ghost use Rattle.sf_inode.specs.declared.handle.OpenHandle.{OpenHandle};
ghost use Rattle.sf_inode.specs.Stores.{is_file_at, shown_of, open_handle_at, holder_of, node_in, blocks_left_at};
ghost use Rattle.sf_keeps.specs.Keeps.{Keeps};
ghost use Rattle.sf_walk.specs.Files.{HasAllButOne, HasBlocksLeft, node_label};
ghost use Rattle.sf_walk.specs.Served.{IsCarriedOut, ServesOutcome, HoldersStay, is_success};

use crate::path_calls::set_node;
use sf_call::{MAX_FILE_SIZE, MAX_READ};
use sf_field::{Attrs, ByteString};
use sf_inode::{Marks, NodeId, Store};
use sf_reply::{Reply, StatusCode};
use std::alloc::AllocError;

/// CLOSE.
pub(crate) fn close(store: &mut Store, session: u64, number: u64) -> Reply
    ensures served { (t : Tree) → Keeps store.old t
        → IsCarriedOut store.new t (close number (handle_in t session number)) result }
    ensures plain { IsPlain result }
    ensures look_ups { store.new.look_ups ≡ store.old.look_ups }
    ensures holders { HoldersStay store.old store.new }
{
    if store.close(session, number) {
        Reply::Status(StatusCode::Success)
    } else {
        Reply::Status(StatusCode::Failure)
    }
}

/// FSTAT.
#[tactic(auto, using(sf_keeps::proofs::Laws::found_node))]
pub(crate) fn stat_handle(store: &Store, session: u64, number: u64) -> Reply
    ensures served { (t : Tree) → Keeps store.now t
        → result ≡ (stat_opened (opened t session number)).reply }
    ensures plain { IsPlain result }
{
    match store.handle(session, number) {
        None => Reply::Status(StatusCode::Failure),
        Some(handle) => match store.attrs(handle.node) {
            Some(attrs) => Reply::Attrs(attrs),
            None => Reply::Status(StatusCode::Failure),
        },
    }
}

/// FSETSTAT. The root's attributes can't be set. Setting a file's size requires a handle open for
/// writing.
pub(crate) fn set_stat_handle(
    store: &mut Store,
    session: u64,
    moment: u32,
    number: u64,
    attrs: &Attrs,
) -> Reply
    requires { (h : OpenHandle) → open_handle_at store.old session number ≡ Some h
        → blocks_left_at store.old.nodes h.node ≡ 0 }
    ensures served { (t : Tree) → Keeps store.old t
        → IsCarriedOut store.new t (set_opened moment attrs.now (opened t session number)) result }
    ensures plain { IsPlain result }
    ensures look_ups { store.new.look_ups ≡ store.old.look_ups }
    ensures holders { HoldersStay store.old store.new }
{
    let Some(handle) = store.handle(session, number) else {
        return Reply::Status(StatusCode::Failure);
    };
    let node = handle.node;
    if store.is_directory(node) {
        if handle.label == 0 {
            return Reply::Status(StatusCode::Failure);
        }
        return set_node(store, moment, node, attrs);
    }
    if attrs.size.is_some() && !handle.marks.write {
        return Reply::Status(StatusCode::PermissionDenied);
    }
    set_node(store, moment, node, attrs)
}

/// READ.
#[tactic(auto, using(sf_keeps::proofs::Laws::found_node))]
pub(crate) fn read(
    store: &Store,
    session: u64,
    number: u64,
    offset: u64,
    len: u32,
) -> Result<Reply, AllocError>
    requires { (h : OpenHandle) → open_handle_at store.now session number ≡ Some h
        → blocks_left_at store.now.nodes h.node ≡ 0 }
    ensures told { (t : Tree) → Keeps store.now t
        → IfOk result (λ reply. reply ≡ (read offset len (opened t session number)).reply) }
    ensures wants { (t : Tree) → Keeps store.now t
        → OnErr result (is_success (read offset len (opened t session number)).reply ≡ true) }
{
    let Some(handle) = store.handle(session, number) else {
        return Ok(Reply::Status(StatusCode::Failure));
    };
    let Some(file) = store.file(handle.node) else {
        return Ok(Reply::Status(StatusCode::Failure));
    };
    if !handle.marks.read {
        return Ok(Reply::Status(StatusCode::PermissionDenied));
    }
    if offset >= file.len() {
        return Ok(Reply::Status(StatusCode::EndOfFile));
    }
    let bytes = file.read(store.alloc(), offset, len.min(MAX_READ) as usize)?;
    Ok(Reply::Data(bytes))
}

/// The first step of WRITE: all blocks that it writes but one remain to be copied.
pub(crate) fn start_write(
    store: &mut Store,
    session: u64,
    moment: u32,
    number: u64,
    offset: u64,
    bytes: &ByteString,
) -> Result<Reply, AllocError>
    requires { (h : OpenHandle) → open_handle_at store.old session number ≡ Some h
        → blocks_left_at store.old.nodes h.node ≡ 0 }
    ensures served { (t : Tree) → Keeps store.old t
        → ServesOutcome store.new t (write moment offset bytes.now (opened t session number))
        result }
    ensures sure { is_nil bytes.now ≡ true → IsOk result }
    ensures err { OnErr result (store.new ≡ store.old) }
    ensures plain { IfOk result IsPlain }
    ensures look_ups { store.new.look_ups ≡ store.old.look_ups }
    ensures others { (h : OpenHandle) → open_handle_at store.old session number ≡ Some h → (i : ℕ)
        → i ≢ h.node → node_in store.new.nodes i ≡ node_in store.old.nodes i }
    ensures holder { (h : OpenHandle) → open_handle_at store.old session number ≡ Some h
        → holder_of store.new.nodes h.node ≡ holder_of store.old.nodes h.node }
    ensures label { (h : OpenHandle) → open_handle_at store.old session number ≡ Some h
        → node_label store.new.nodes h.node ≡ node_label store.old.nodes h.node }
    ensures none { open_handle_at store.old session number ≡ None → store.new ≡ store.old }
    ensures sessions { store.new.sessions ≡ store.old.sessions }
    ensures left { (h : OpenHandle) → open_handle_at store.old session number ≡ Some h
        → HasBlocksLeft store.old store.new h offset bytes.now }
    ensures copied { (h : OpenHandle) → open_handle_at store.old session number ≡ Some h
        → is_nil bytes.now ≡ false → IfOk result (λ given. given ≡ reply.Status Success
        → HasAllButOne store.old store.new h offset bytes.now) }
{
    let Some(handle) = store.handle(session, number) else {
        return Ok(Reply::Status(StatusCode::Failure));
    };
    let node = handle.node;
    let Some(size) = store.file_len(node) else {
        return Ok(Reply::Status(StatusCode::Failure));
    };
    if !handle.marks.write {
        return Ok(Reply::Status(StatusCode::PermissionDenied));
    }
    if bytes.is_empty() {
        return Ok(Reply::Status(StatusCode::Success));
    }
    let start = start_of(&handle.marks, size, offset);
    if ends_past_limit(start, bytes.len()) {
        return Ok(Reply::Status(StatusCode::Failure));
    }
    start_bytes(store, moment, node, start, bytes)?;
    Ok(Reply::Status(StatusCode::Success))
}

/// The offset of a write: the file's end if the handle was opened with APPEND.
fn start_of(marks: &Marks, size: u64, offset: u64) -> u64
    ensures { result ≡ (if marks.now.append then size else offset) }
{
    if marks.append { size } else { offset }
}

/// Starts to put bytes into a file, and sets its modification time. All blocks but one remain to be
/// copied.
fn start_bytes(
    store: &mut Store,
    moment: u32,
    node: NodeId,
    start: u64,
    bytes: &ByteString,
) -> Result<(), AllocError>
    requires fits { start + length bytes.now < 2 ^ 64 }
    requires some { 0 < length bytes.now }
    requires file { is_file_at store.old.nodes node ≡ true }
    requires settled { blocks_left_at store.old.nodes node ≡ 0 }
    ensures tree { (t : Tree) (label : ℕ) (m : Metadata) (contents : List ℕ) → Keeps store.old t
        → shown_of store.old.nodes node ≡ Some (label, File m contents)
        → OnOk result (Keeps store.new (changed t
        (SetObject label (File (modified_at moment m) (written contents start bytes.now))))) }
    ensures left { OnOk result (blocks_left_at store.new.nodes node + 1
        ≡ blocks_of start bytes.now) }
    ensures others { (i : ℕ) → i ≢ node → node_in store.new.nodes i ≡ node_in store.old.nodes i }
    ensures holder { holder_of store.new.nodes node ≡ holder_of store.old.nodes node }
    ensures label { node_label store.new.nodes node ≡ node_label store.old.nodes node }
    ensures sessions { store.new.sessions ≡ store.old.sessions }
    ensures err { OnErr result (store.new ≡ store.old) }
    ensures look_ups { store.new.look_ups ≡ store.old.look_ups }
{
    store.start_write(node, start, bytes)?;
    store.copy_block(node);
    store.touch(node, moment);
    Ok(())
}

/// Whether a write would end beyond the largest file size.
fn ends_past_limit(start: u64, count: usize) -> bool
    ensures { result ≡ nat_lt MAX_FILE_SIZE (start + count) }
{
    match start.checked_add(count as u64) {
        None => true,
        Some(end) => end > MAX_FILE_SIZE,
    }
}
