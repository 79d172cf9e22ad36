//! WRITEs that copy block by block, and the calls that wait for them.

ghost use Rattle.std.specs.Prelude.{◌≡◌, ◌⊎◌, ℕ, List, false, None, Some, IfSome, IfNone};
ghost use Rattle.sf_call.specs.declared.request.Request.TheVariants as request;
ghost use Rattle.sf_reply.specs.declared.reply.Reply.TheVariants as reply;
ghost use Rattle.sf_reply.specs.declared.reply.StatusCode.TheVariants.{Success};
ghost use Rattle.sf_call.specs.Calls.{answer_to};
ghost use Rattle.sf_call.specs.Tree.{Tree, is_nil};
ghost use Rattle.sf_inode.specs.declared.handle.OpenHandle.{OpenHandle};
ghost use Rattle.sf_inode.specs.Stores.{open_handle_at, blocks_left_at};
ghost use Rattle.sf_keeps.specs.Keeps.{Keeps};
ghost use Rattle.sf_walk.specs.declared.finding.Located.TheVariants.{NoWay};
ghost use Rattle.sf_walk.specs.Served.{IsCarriedOut, IsRefused, may_want_memory};
ghost use Rattle.sf_walk.specs.Files.{HasAllButOne, HasNoWriter, CopiesIntoFile, IsFileFree, IsSettled, IsWriteRequest, IsWriter, StartsWriting, WaitsForFile, cuts_file, file_handle, holder_by};

use crate::calls::twice;
use crate::finding::Located;
use crate::handle_calls::start_write;
use crate::looking::other_holder;
use sf_call::{Call, Request};
use sf_field::{HandleOp, PathOp};
use sf_inode::{NodeId, Store};
use sf_reply::Reply;

/// The file that a WRITE copies into, and the number of blocks left.
#[derive(Clone, Copy, Debug, PartialEq, Eq)]
pub struct Copying {
    pub node: NodeId,
    pub left: usize,
}

/// A file, and the number of the call that holds it.
#[derive(Clone, Copy, Debug, PartialEq, Eq)]
pub struct Writer {
    pub node: NodeId,
    pub number: u64,
}

/// The other call that holds the file of the call's handle, if the call reads, writes or sets that
/// file.
pub fn file_holder(store: &Store, call: &Call) -> Option<u64>
    ensures held { IfSome result (λ holder. WaitsForFile store.now call.now holder) }
    ensures free { IfNone result (IsFileFree store.now call.now) }
{
    let handle = store.handle(call.session, file_handle(&call.request)?)?;
    store.file(handle.node)?;
    other_holder(store, call.number, handle.node)
}

/// The call that holds the file of a session's handle, if the request reads, writes or sets that
/// file.
pub fn holder_by(store: &Store, session: u64, request: &Request) -> Option<u64>
    ensures { result ≡ holder_by store.now session request.now }
{
    let handle = store.handle(session, file_handle(request)?)?;
    store.file(handle.node)?;
    store.holder(handle.node)
}

/// The handle by which a request reads, writes or sets its file.
fn file_handle(request: &Request) -> Option<u64>
    ensures { result ≡ file_handle request.now }
{
    match request {
        Request::ByHandle(HandleOp::Read { .. } | HandleOp::FSetStat(_), handle) => Some(*handle),
        Request::Write { handle, .. } => Some(*handle),
        _ => None,
    }
}

/// The first step of a WRITE. Returns its reply and a copy for its record. All its blocks but one
/// remain to be copied. Makes no lookup.
#[tactic(auto, using(crate::proofs::Refused::keeps_alike))]
pub fn start(store: &mut Store, call: &Call) -> (Reply, Reply)
    requires write { IsWriteRequest call.now.request }
    requires settled { IsSettled store.old call.now.session call.now.request NoWay }
    ensures served { (t : Tree) → Keeps store.old t
        → IsRefused store.old store.new t result.0
        ⊎ IsCarriedOut store.new t (answer_to t call.now.session call.now.number call.now.moment
        call.now.request) result.0 }
    ensures copy { result.1 ≡ result.0 }
    ensures sure { (t : Tree) → Keeps store.old t
        → may_want_memory call.now.request (answer_to t call.now.session call.now.number
        call.now.moment call.now.request).reply ≡ false
        → IsCarriedOut store.new t (answer_to t call.now.session call.now.number call.now.moment
        call.now.request) result.0 }
    ensures look_ups { store.new.look_ups ≡ store.old.look_ups }
    ensures starts { (number : ℕ) (offset : ℕ) (bytes : List ℕ) (h : OpenHandle)
        → call.now.request ≡ request.Write number offset bytes
        → open_handle_at store.old call.now.session number ≡ Some h
        → StartsWriting store.old store.new h offset bytes }
    ensures copied { (number : ℕ) (offset : ℕ) (bytes : List ℕ) (h : OpenHandle)
        → call.now.request ≡ request.Write number offset bytes
        → open_handle_at store.old call.now.session number ≡ Some h → is_nil bytes ≡ false
        → result.0 ≡ reply.Status Success → HasAllButOne store.old store.new h offset bytes }
    ensures none { (number : ℕ) (offset : ℕ) (bytes : List ℕ)
        → call.now.request ≡ request.Write number offset bytes
        → open_handle_at store.old call.now.session number ≡ None → store.new ≡ store.old }
    ensures sessions { store.new.sessions ≡ store.old.sessions }
{
    let Request::Write {
        handle,
        offset,
        data,
    } = &call.request
    else {
        unreachable!();
    };
    match start_write(store, call.session, call.moment, *handle, *offset, data) {
        Ok(reply) => twice(reply),
        Err(_) => (Reply::NoMemory, Reply::NoMemory),
    }
}

/// The file that a call copies into after its first step, if blocks remain.
pub fn left_to_copy(store: &Store, call: &Call) -> Option<Copying>
    ensures some { IfSome result (λ c. CopiesIntoFile store.now call.now c) }
    ensures none { IfNone result ((number : ℕ) (h : OpenHandle)
        → file_handle call.now.request ≡ Some number
        → open_handle_at store.now call.now.session number ≡ Some h
        → blocks_left_at store.now.nodes h.node ≡ 0) }
{
    let node = store
        .handle(call.session, file_handle(&call.request)?)?
        .node;
    let left = store.left(node);
    if left == 0 {
        return None;
    }
    Some(Copying { node, left })
}

/// The call that holds a file, if a request on its path sets its length. `found` is the result of
/// resolving that path.
pub fn writer_to_finish(store: &Store, request: &Request, found: Located) -> Option<Writer>
    ensures some { IfSome result (λ w. IsWriter store.now request.now found w) }
    ensures none { IfNone result (HasNoWriter store.now request.now found) }
{
    if !cuts_file(request) {
        return None;
    }
    let Located::At { parent: _, node } = found else {
        return None;
    };
    store.file(node)?;
    let number = store.holder(node)?;
    Some(Writer { node, number })
}

/// Whether a request truncates or extends the file of its path.
fn cuts_file(request: &Request) -> bool
    ensures { result ≡ cuts_file request.now }
{
    match request {
        Request::OnPath(PathOp::SetStat(attrs), _) => attrs.size.is_some(),
        Request::OnPath(PathOp::Open(flags, _), _) => flags.truncate && flags.write,
        _ => false,
    }
}
