//! Calls of a single request each.

ghost use Rattle.std.specs.Prelude.{◌≡◌, ◌+◌, ◌<◌, ◌^◌, length, Ok, Err};
ghost use Rattle.sf_field.specs.Attributes.{no_attrs};
ghost use Rattle.sf_field.specs.declared.operation.PathOp.TheVariants as path_op;
ghost use Rattle.sf_field.specs.declared.operation.PairOp.TheVariants as pair_op;
ghost use Rattle.sf_request.specs.declared.request.WireRequest.TheVariants as request;
ghost use Rattle.sf_request.specs.Requests.{request_body};
ghost use Rattle.sf_reply.specs.declared.reply.Reply.TheVariants as reply;
ghost use Rattle.sf_reply.specs.declared.reply.StatusCode.TheVariants.{Success};
ghost use Rattle.sf_client.specs.Pending.{pending_of};
ghost use Rattle.sf_client.specs.Outcomes.{Comes};

use crate::client::Client;
use crate::fault::ClientFault;
use crate::pending::PendingReply;
use sf_field::{Attrs, NO_ATTRS, PairOp, PathOp};
use sf_line::Line;
use sf_reply::Reply;
use sf_request::{ByteStr, WireRequest};

impl<L: Line + Drop> Client<L> {
    /// Sends a request that expects `SSH_FX_OK`.
    pub(crate) fn done(&mut self, request: &WireRequest) -> Result<(), ClientFault>
        requires short { length (request_body self.old.next request.now) < 2 ^ 32 }
        requires pending { pending_of request.now ≡ PendingReply.Success }
        ensures { Comes (λ _. reply.Status Success) self.old request.now result self.new }
    {
        self.exchange(request, PendingReply::Success)?;
        Ok(())
    }

    /// Returns the attributes of the file or directory at `path`.
    pub fn stat(&mut self, path: &[u8]) -> Result<Attrs, ClientFault>
        requires { length path.now < 2 ^ 31 }
        ensures { Comes reply.Attrs self.old (request.OnPath path_op.Stat path.now) result
            self.new }
    {
        let request = WireRequest::OnPath(PathOp::Stat, ByteStr::new(path));
        match self.exchange(&request, PendingReply::Attrs)? {
            Reply::Attrs(attrs) => Ok(attrs),
            _ => unreachable!(),
        }
    }

    /// Creates a directory.
    pub fn mkdir(&mut self, path: &[u8]) -> Result<(), ClientFault>
        requires { length path.now < 2 ^ 31 }
        ensures { Comes (λ _. reply.Status Success) self.old
            (request.OnPath (path_op.Mkdir no_attrs) path.now) result self.new }
    {
        let op = PathOp::Mkdir(NO_ATTRS);
        self.done(&WireRequest::OnPath(op, ByteStr::new(path)))
    }

    /// Removes an empty directory.
    pub fn rmdir(&mut self, path: &[u8]) -> Result<(), ClientFault>
        requires { length path.now < 2 ^ 31 }
        ensures { Comes (λ _. reply.Status Success) self.old
            (request.OnPath path_op.Rmdir path.now) result self.new }
    {
        self.done(&WireRequest::OnPath(PathOp::Rmdir, ByteStr::new(path)))
    }

    /// Removes a file.
    pub fn remove(&mut self, path: &[u8]) -> Result<(), ClientFault>
        requires { length path.now < 2 ^ 31 }
        ensures { Comes (λ _. reply.Status Success) self.old
            (request.OnPath path_op.Remove path.now) result self.new }
    {
        self.done(&WireRequest::OnPath(PathOp::Remove, ByteStr::new(path)))
    }

    /// Renames `old` to `new`. It fails if `new` exists.
    pub fn rename(&mut self, old: &[u8], new: &[u8]) -> Result<(), ClientFault>
        requires { length old.now + length new.now < 2 ^ 31 }
        ensures { Comes (λ _. reply.Status Success) self.old
            (request.OnPaths pair_op.Rename old.now new.now) result self.new }
    {
        let old = ByteStr::new(old);
        let new = ByteStr::new(new);
        self.done(&WireRequest::OnPaths(PairOp::Rename, old, new))
    }

    /// Renames `old` to `new` and replaces `new` if it exists, as POSIX's `rename`.
    pub fn posix_rename(&mut self, old: &[u8], new: &[u8]) -> Result<(), ClientFault>
        requires { length old.now + length new.now < 2 ^ 31 }
        ensures { Comes (λ _. reply.Status Success) self.old
            (request.OnPaths pair_op.PosixRename old.now new.now) result self.new }
    {
        let old = ByteStr::new(old);
        let new = ByteStr::new(new);
        self.done(&WireRequest::OnPaths(PairOp::PosixRename, old, new))
    }

    /// Creates the hard link `new` to the file `old`. It fails if `new` exists.
    pub fn hardlink(&mut self, old: &[u8], new: &[u8]) -> Result<(), ClientFault>
        requires { length old.now + length new.now < 2 ^ 31 }
        ensures { Comes (λ _. reply.Status Success) self.old
            (request.OnPaths pair_op.Link old.now new.now) result self.new }
    {
        let old = ByteStr::new(old);
        let new = ByteStr::new(new);
        self.done(&WireRequest::OnPaths(PairOp::Link, old, new))
    }
}
