//! Equality of requests and replies.

ghost use Rattle.std.specs.Prelude.{◌≡◌, ◌↔◌, IsTrue};

use sf_call::Request;
use sf_field::{Attrs, ByteString, HandleOp, OpenFlags, PairOp, PathOp};
use sf_path::Path;
use sf_reply::{Listing, Reply};

fn same_path(a: &Path, b: &Path) -> bool
    ensures { IsTrue result ↔ (a.now ≡ b.now) }
{
    *a == *b
}

fn same_bytes(a: &ByteString, b: &ByteString) -> bool
    ensures { IsTrue result ↔ (a.now ≡ b.now) }
{
    *a == *b
}

fn same_attrs(a: Attrs, b: Attrs) -> bool
    ensures { IsTrue result ↔ (a ≡ b) }
{
    a == b
}

fn same_flags(a: OpenFlags, b: OpenFlags) -> bool
    ensures { IsTrue result ↔ (a ≡ b) }
{
    a == b
}

fn same_listing(a: &Listing, b: &Listing) -> bool
    ensures { IsTrue result ↔ (a.now ≡ b.now) }
{
    a.as_slice() == b.as_slice()
}

fn same_path_op(a: PathOp, b: PathOp) -> bool
    ensures { IsTrue result ↔ (a ≡ b) }
{
    match (a, b) {
        (PathOp::Stat, PathOp::Stat)
        | (PathOp::Rmdir, PathOp::Rmdir)
        | (PathOp::Remove, PathOp::Remove)
        | (PathOp::OpenDir, PathOp::OpenDir) => true,
        (PathOp::SetStat(a), PathOp::SetStat(b)) => same_attrs(a, b),
        (PathOp::Mkdir(a), PathOp::Mkdir(b)) => same_attrs(a, b),
        (PathOp::Open(f, a), PathOp::Open(g, b)) => same_flags(f, g) && same_attrs(a, b),
        _ => false,
    }
}

fn same_pair_op(a: PairOp, b: PairOp) -> bool
    ensures { IsTrue result ↔ (a ≡ b) }
{
    match (a, b) {
        (PairOp::Rename, PairOp::Rename)
        | (PairOp::PosixRename, PairOp::PosixRename)
        | (PairOp::Link, PairOp::Link) => true,
        _ => false,
    }
}

fn same_handle_op(a: HandleOp, b: HandleOp) -> bool
    ensures { IsTrue result ↔ (a ≡ b) }
{
    match (a, b) {
        (HandleOp::Close, HandleOp::Close)
        | (HandleOp::FStat, HandleOp::FStat)
        | (HandleOp::ReadDir, HandleOp::ReadDir) => true,
        (HandleOp::FSetStat(a), HandleOp::FSetStat(b)) => same_attrs(a, b),
        (
            HandleOp::Read {
                offset: from,
                len: m,
            },
            HandleOp::Read { offset: to, len: n },
        ) => from == to && m == n,
        _ => false,
    }
}

/// Whether two requests are equal.
pub(crate) fn same_request(a: &Request, b: &Request) -> bool
    ensures { IsTrue result ↔ (a.now ≡ b.now) }
{
    match (a, b) {
        (Request::OnPath(op, a), Request::OnPath(other, b)) => {
            same_path(a, b) && same_path_op(*op, *other)
        }
        (Request::OnPaths(op, a, c), Request::OnPaths(other, b, d)) => {
            same_path(a, b) && same_path(c, d) && same_pair_op(*op, *other)
        }
        (Request::ByHandle(op, a), Request::ByHandle(other, b)) => {
            *a == *b && same_handle_op(*op, *other)
        }
        (
            Request::Write {
                handle: a,
                offset: from,
                data: x,
            },
            Request::Write {
                handle: b,
                offset: to,
                data: y,
            },
        ) => *a == *b && *from == *to && same_bytes(x, y),
        _ => false,
    }
}

/// Whether two replies are equal.
pub(crate) fn same_reply(a: &Reply, b: &Reply) -> bool
    ensures { IsTrue result ↔ (a.now ≡ b.now) }
{
    match (a, b) {
        (Reply::Status(a), Reply::Status(b)) => *a == *b,
        (Reply::NoMemory, Reply::NoMemory) => true,
        (Reply::Handle(a), Reply::Handle(b)) => *a == *b,
        (Reply::Data(a), Reply::Data(b)) => same_bytes(a, b),
        (Reply::Names(a), Reply::Names(b)) => same_listing(a, b),
        (Reply::Attrs(a), Reply::Attrs(b)) => same_attrs(*a, *b),
        _ => false,
    }
}
