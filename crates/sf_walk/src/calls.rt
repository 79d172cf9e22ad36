//! Deciding a call after its paths are resolved.

ghost use Rattle.std.specs.Prelude.{◌≡◌, ◌⊎◌, ℕ, Some, true, false, IfOk, IsOk, OnErr};
ghost use Rattle.std.specs.Result.{result_map_both};
ghost use Rattle.sf_reply.specs.Replies.{IsPlain};
ghost use Rattle.sf_call.specs.Tree.{Tree};
ghost use Rattle.sf_call.specs.Handles.{opened};
ghost use Rattle.sf_call.specs.Calls.{answer_to, read};
ghost use Rattle.sf_inode.specs.declared.handle.OpenHandle.{OpenHandle};
ghost use Rattle.sf_inode.specs.Stores.{open_handle_at, blocks_left_at};
ghost use Rattle.sf_keeps.specs.Keeps.{Keeps};
ghost use Rattle.sf_walk.specs.Ways.{IsLocated};
ghost use Rattle.sf_walk.specs.Files.{IsSettled, IsWriteRequest};
ghost use Rattle.sf_walk.specs.Served.{IsCarriedOut, IsRefused, IsAlike, NodesStay, IsUnused, is_success, takes_memory, may_want_memory};

use crate::finding::Ways;
use crate::handle_calls::{close, read, set_stat_handle, stat_handle};
use crate::links::link;
use crate::listing::read_directory;
use crate::opening::{open, open_directory};
use crate::path_calls::{mkdir, remove, rmdir, set_stat, stat};
use crate::renames::{posix_rename, rename};
use sf_call::{Call, Request};
use sf_field::{HandleOp, PairOp, PathOp};
use sf_inode::Store;
use sf_reply::Reply;
use std::alloc::AllocError;

/// Decides a call after its paths were resolved, without a lookup. Returns its reply and a copy for
/// its record.
///
/// `ways` is ignored for a call without a path. If the call reads a file or sets its length, the
/// file must have no blocks left to copy. A WRITE is decided by `start` instead. The call's number
/// is above 0, and unused as a label or a handle of the tree.
///
/// `NoMemory` changes nothing. It replaces only a success, and only of a call that creates
/// something, transfers bytes or returns names.
#[tactic(auto, using(crate::proofs::Refused::keeps_alike, crate::proofs::Trimmed::served_trimmed, crate::proofs::Trimmed::stays_trimmed, crate::proofs::Trimmed::looks_same))]
#[inline(always)]
pub fn decide(store: &mut Store, call: &Call, ways: Ways) -> (Reply, Reply)
    requires not_write { IsWriteRequest call.now.request → ⊥ }
    requires located { IsLocated store.old call.now.request ways }
    requires settled { IsSettled store.old call.now.session call.now.request ways.path }
    ensures served { (t : Tree) → Keeps store.old t → IsUnused t call.now.number
        → IsRefused store.old store.new t result.0
        ⊎ IsCarriedOut store.new t (answer_to t call.now.session call.now.number call.now.moment
        call.now.request) result.0 }
    ensures copy { result.1 ≡ result.0 }
    ensures sure { (t : Tree) → Keeps store.old t → IsUnused t call.now.number
        → may_want_memory call.now.request (answer_to t call.now.session call.now.number
        call.now.moment call.now.request).reply ≡ false
        → IsCarriedOut store.new t (answer_to t call.now.session call.now.number call.now.moment
        call.now.request) result.0 }
    ensures look_ups { store.new.look_ups ≡ store.old.look_ups }
    ensures nodes { NodesStay call.now.number store.old store.new }
{
    match answer(store, call, ways) {
        Ok(replies) => {
            store.trim();
            replies
        }
        Err(_) => (Reply::NoMemory, Reply::NoMemory),
    }
}

#[tactic(auto, using(crate::proofs::Holders::stays_none_new, crate::proofs::Rooted::twice_copies))]
#[inline(always)]
fn answer(store: &mut Store, call: &Call, ways: Ways) -> Result<(Reply, Reply), AllocError>
    requires not_write { IsWriteRequest call.now.request → ⊥ }
    requires located { IsLocated store.old call.now.request ways }
    requires settled { IsSettled store.old call.now.session call.now.request ways.path }
    ensures served { (t : Tree) → Keeps store.old t → IsUnused t call.now.number
        → IfOk result (λ replies. IsCarriedOut store.new t
        (answer_to t call.now.session call.now.number call.now.moment call.now.request)
        replies.0) }
    ensures copy { IfOk result (λ replies. replies.1 ≡ replies.0) }
    ensures sure { takes_memory call.now.request ≡ false → IsOk result }
    ensures wants { (t : Tree) → Keeps store.old t → IsUnused t call.now.number
        → OnErr result (is_success (answer_to t call.now.session call.now.number call.now.moment
        call.now.request).reply ≡ true) }
    ensures err { OnErr result (IsAlike store.old store.new) }
    ensures look_ups { store.new.look_ups ≡ store.old.look_ups }
    ensures nodes { NodesStay call.now.number store.old store.new }
{
    let (session, number, moment) = (call.session, call.number, call.moment);
    let located = ways.path;
    match &call.request {
        Request::OnPath(op, path) => match op {
            PathOp::Stat => Ok(twice(stat(store, located))),
            PathOp::SetStat(attrs) => Ok(twice(set_stat(store, moment, path, attrs, located))),
            PathOp::Mkdir(attrs) => twice_ok(mkdir(store, number, moment, path, attrs, located)),
            PathOp::Rmdir => Ok(twice(rmdir(store, moment, path, located))),
            PathOp::Remove => Ok(twice(remove(store, moment, path, located))),
            PathOp::OpenDir => twice_ok(open_directory(store, session, number, located)),
            PathOp::Open(flags, attrs) => {
                let opened = open(store, session, number, moment, path, *flags, attrs, located);
                twice_ok(opened)
            }
        },
        Request::OnPaths(op, old, new) => match op {
            PairOp::Rename => twice_ok(rename(store, moment, old, new, ways)),
            PairOp::PosixRename => twice_ok(posix_rename(store, moment, old, new, ways)),
            PairOp::Link => twice_ok(link(store, moment, old, new, ways)),
        },
        Request::ByHandle(op, handle) => match op {
            HandleOp::Close => Ok(twice(close(store, session, *handle))),
            HandleOp::FStat => Ok(twice(stat_handle(store, session, *handle))),
            HandleOp::FSetStat(attrs) => {
                let set = set_stat_handle(store, session, moment, *handle, attrs);
                Ok(twice(set))
            }
            HandleOp::Read { offset, len } => read_twice(store, session, *handle, *offset, *len),
            HandleOp::ReadDir => read_directory(store, session, *handle),
        },
        Request::Write { .. } => unreachable!(),
    }
}

/// A reply without bytes and names, twice.
pub(crate) fn twice(reply: Reply) -> (Reply, Reply)
    requires { IsPlain reply }
    ensures { result ≡ (reply, reply) }
{
    match reply.share() {
        Ok(copy) => (reply, copy),
        Err(_) => unreachable!(),
    }
}

fn twice_ok(reply: Result<Reply, AllocError>) -> Result<(Reply, Reply), AllocError>
    requires { IfOk reply IsPlain }
    ensures { result ≡ result_map_both (λ r. (r, r)) (λ e. e) reply }
{
    match reply {
        Ok(reply) => Ok(twice(reply)),
        Err(error) => Err(error),
    }
}

/// READ. Both replies share the bytes.
fn read_twice(
    store: &Store,
    session: u64,
    number: u64,
    offset: u64,
    len: u32,
) -> Result<(Reply, Reply), AllocError>
    requires { (h : OpenHandle) → open_handle_at store.now session number ≡ Some h
        → blocks_left_at store.now.nodes h.node ≡ 0 }
    ensures served { (t : Tree) → Keeps store.now t
        → IfOk result (λ replies. replies.0 ≡ (read offset len (opened t session number)).reply) }
    ensures wants { (t : Tree) → Keeps store.now t
        → OnErr result (is_success (read offset len (opened t session number)).reply ≡ true) }
    ensures copy { IfOk result (λ replies. replies.1 ≡ replies.0) }
{
    let reply = read(store, session, number, offset, len)?;
    let copy = reply.share()?;
    Ok((reply, copy))
}
