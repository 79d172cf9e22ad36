//! The slow tree: one request of each kind.

use sf_call::Request;
use sf_field::{Attrs, ByteString, HandleOp, NO_ATTRS, OpenFlags, Owner, PairOp, PathOp, Times};
use sf_path::Path;
use sf_plain::PlainTree;
use sf_reply::{Reply, StatusCode};
use std::alloc::Global;
use std::process::Abort;
use std::test::*;

/// READ, WRITE and CREAT.
const FLAGS: u32 = 0xb;

/// The slow tree, and the number of its next call. All calls are of session 1, with timestamp 100.
#[derive(Drop)]
struct Plain {
    tree: PlainTree,
    number: u64,
}

impl Plain {
    fn ask(&mut self, rt: &impl Abort, request: Request) -> Reply {
        let number = self.number;
        self.number = number.saturating_add(1);
        match self.tree.apply(1, number, 100, &request) {
            Ok(reply) => reply,
            Err(_) => panic!(rt; "no memory"),
        }
    }

    fn replies(&mut self, rt: &impl Abort, request: Request, want: Reply) {
        let reply = self.ask(rt, request);
        assert!(rt; reply == want, "{reply:?}");
    }

    fn succeeds(&mut self, rt: &impl Abort, request: Request) {
        self.replies(rt, request, Reply::Status(StatusCode::Success));
    }
}

fn path(alloc: Global, text: &[u8]) -> Result<Path, Fail> {
    Ok(Path::parse(alloc, text)?)
}

fn sized(size: u64) -> Attrs {
    Attrs {
        size: Some(size),
        ..NO_ATTRS
    }
}

fn attrs(size: u64, permissions: u32) -> Attrs {
    Attrs {
        size: Some(size),
        owner: Some(Owner { uid: 0, gid: 0 }),
        permissions: Some(permissions),
        times: Some(Times {
            atime: 100,
            mtime: 100,
        }),
    }
}

/// Makes `/d`, and opens `/d/f` as handle 2.
fn makes_a_file(rt: &impl Abort, alloc: Global, plain: &mut Plain) -> Result<(), Fail> {
    let made = Request::OnPath(PathOp::Mkdir(NO_ATTRS), path(alloc, b"/d")?);
    plain.succeeds(rt, made);
    let open = PathOp::Open(OpenFlags::from_bits(FLAGS), NO_ATTRS);
    let opened = Request::OnPath(open, path(alloc, b"/d/f")?);
    plain.replies(rt, opened, Reply::Handle(2));
    let written = Request::Write {
        handle: 2,
        offset: 0,
        data: ByteString::from_slice(alloc, b"abc")?,
    };
    plain.succeeds(rt, written);
    let read = Request::ByHandle(HandleOp::Read { offset: 1, len: 9 }, 2);
    let data = ByteString::from_slice(alloc, b"bc")?;
    plain.replies(rt, read, Reply::Data(data));
    Ok(())
}

/// Sets the size of the file by its handle and by its path.
fn resizes(rt: &impl Abort, alloc: Global, plain: &mut Plain) -> Result<(), Fail> {
    let stat = Request::ByHandle(HandleOp::FStat, 2);
    plain.replies(rt, stat, Reply::Attrs(attrs(3, 0o100644)));
    let resized = Request::ByHandle(HandleOp::FSetStat(sized(2)), 2);
    plain.succeeds(rt, resized);
    let resized = Request::OnPath(PathOp::SetStat(sized(5)), path(alloc, b"/d/f")?);
    plain.succeeds(rt, resized);
    let stat = Request::OnPath(PathOp::Stat, path(alloc, b"/d/f")?);
    plain.replies(rt, stat, Reply::Attrs(attrs(5, 0o100644)));
    Ok(())
}

/// Opens `/d` as handle 9. The file gets one more name, and loses it.
fn renames_and_removes(rt: &impl Abort, alloc: Global, plain: &mut Plain) -> Result<(), Fail> {
    let opened = Request::OnPath(PathOp::OpenDir, path(alloc, b"/d")?);
    plain.replies(rt, opened, Reply::Handle(9));
    let linked = Request::OnPaths(PairOp::Link, path(alloc, b"/d/f")?, path(alloc, b"/g")?);
    plain.succeeds(rt, linked);
    let renamed = Request::OnPaths(PairOp::Rename, path(alloc, b"/g")?, path(alloc, b"/d/h")?);
    plain.succeeds(rt, renamed);
    match plain.ask(rt, Request::ByHandle(HandleOp::ReadDir, 9)) {
        Reply::Names(names) => assert_eq!(rt; names.as_slice().len(), 2),
        reply => panic!(rt; "{reply:?}"),
    }
    let renamed = Request::OnPaths(
        PairOp::PosixRename,
        path(alloc, b"/d/h")?,
        path(alloc, b"/d/i")?,
    );
    plain.succeeds(rt, renamed);
    let removed = Request::OnPath(PathOp::Remove, path(alloc, b"/d/i")?);
    plain.succeeds(rt, removed);
    let removed = Request::OnPath(PathOp::Rmdir, path(alloc, b"/d")?);
    plain.replies(rt, removed, Reply::Status(StatusCode::Failure));
    plain.succeeds(rt, Request::ByHandle(HandleOp::Close, 2));
    Ok(())
}

/// One of each kind. A copy of the tree changes alone.
#[test]
fn each_kind_of_request(rt: HostRuntime) -> Result<(), Fail> {
    let alloc = rt.alloc();
    let mut plain = Plain {
        tree: PlainTree::new(alloc)?,
        number: 1,
    };
    makes_a_file(&rt, alloc, &mut plain)?;
    resizes(&rt, alloc, &mut plain)?;
    renames_and_removes(&rt, alloc, &mut plain)?;
    let mut copy = Plain {
        tree: plain.tree.try_copy()?,
        number: plain.number,
    };
    copy.tree.leave(1);
    let failure = Reply::Status(StatusCode::Failure);
    copy.replies(&rt, Request::ByHandle(HandleOp::FStat, 9), failure);
    let stat = Request::ByHandle(HandleOp::FStat, 9);
    plain.replies(&rt, stat, Reply::Attrs(attrs(0, 0o40755)));
    assert_eq!(rt; copy.tree.object_count(), 3);
    assert_eq!(rt; plain.tree.leaves()?.len(), 3);
    Ok(())
}
