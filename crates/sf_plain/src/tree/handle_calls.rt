//! Calls on handles.

ghost use Rattle.std.specs.Prelude.{◌≡◌, ◌+◌, nat_eq, nat_lt, IfOk, OnOk, OnErr};
ghost use Rattle.std.specs.Option.{option_copied};
ghost use Rattle.sf_call.specs.Changes.{changed, done};
ghost use Rattle.sf_call.specs.Changes.Change.{CloseHandle};
ghost use Rattle.sf_call.specs.Handles.{if_of, handle_in, opened};
ghost use Rattle.sf_call.specs.Calls.{close, stat_opened, set_opened, read, start_of, write};

use super::PlainTree;
use crate::node::Parts;
use crate::sweep::sweep;
use sf_block::WholeContents;
use sf_call::{Handle, MAX_FILE_SIZE, MAX_READ};
use sf_field::{Attrs, ByteString};
use sf_reply::{Reply, StatusCode};
use std::alloc::AllocError;

/// The handle, if it belongs to the session.
fn if_of(handle: &Handle, session: u64) -> Option<&Handle>
    ensures { option_copied result ≡ if_of session handle.now }
{
    if handle.session == session {
        Some(handle)
    } else {
        None
    }
}

/// The offset of a WRITE: the end of the file for a handle with APPEND.
fn start_of(handle: &Handle, contents: &WholeContents, offset: u64) -> u64
    ensures { result ≡ start_of handle.now contents.now offset }
{
    if handle.append {
        contents.len()
    } else {
        offset
    }
}

/// Whether a write would end after MAX_FILE_SIZE.
fn ends_past_limit(start: u64, count: usize) -> bool
    ensures { result ≡ nat_lt MAX_FILE_SIZE (start + count) }
{
    match start.checked_add(count as u64) {
        Some(end) => end > MAX_FILE_SIZE,
        None => true,
    }
}

impl PlainTree {
    /// The handle with this number, if it belongs to the session.
    pub(super) fn handle_in(&self, session: u64, number: u64) -> Option<&Handle>
        ensures { option_copied result ≡ handle_in self.now session number }
    {
        if_of(self.handles.get(&number)?, session)
    }

    /// Closes a handle, and deletes its object if it is unused.
    fn close_handle(&mut self, number: u64)
        ensures { self.new ≡ changed self.old (CloseHandle number) }
    {
        self.handles.remove(&number);
        sweep(&mut self.objects, &self.names, &self.handles);
    }

    /// CLOSE.
    pub(super) fn close(&mut self, session: u64, number: u64) -> Reply
        ensures reply { result ≡ (close number (handle_in self.old session number)).reply }
        ensures tree { self.new
            ≡ done self.old (close number (handle_in self.old session number)).changes }
    {
        if self.handle_in(session, number).is_none() {
            return Reply::Status(StatusCode::Failure);
        }
        self.close_handle(number);
        Reply::Status(StatusCode::Success)
    }

    /// FSTAT.
    #[tactic(auto, using(crate::proofs::Calls::tells_opened))]
    pub(super) fn stat_handle(&self, session: u64, number: u64) -> Reply
        ensures { result ≡ (stat_opened (opened self.now session number)).reply }
    {
        let Some(handle) = self.handle_in(session, number) else {
            return Reply::Status(StatusCode::Failure);
        };
        match self.objects.get(&handle.label) {
            Some(node) => Reply::Attrs(node.attrs()),
            None => Reply::Status(StatusCode::Failure),
        }
    }

    /// FSETSTAT. Allocates a map of the file's blocks, which are shared.
    #[tactic(auto, using(crate::proofs::Calls::sets_opened))]
    pub(super) fn set_stat_handle(
        &mut self,
        session: u64,
        moment: u32,
        number: u64,
        attrs: &Attrs,
    ) -> Result<Reply, AllocError>
        ensures reply { IfOk result (λ reply. reply
            ≡ (set_opened moment attrs.now (opened self.old session number)).reply) }
        ensures tree { OnOk result (self.new
            ≡ done self.old (set_opened moment attrs.now
            (opened self.old session number)).changes) }
        ensures err { OnErr result (self.new ≡ self.old) }
    {
        let Some(handle) = self.handle_in(session, number) else {
            return Ok(Reply::Status(StatusCode::Failure));
        };
        let label = handle.label;
        let Some(node) = self.objects.get(&label) else {
            return Ok(Reply::Status(StatusCode::Failure));
        };
        let is_directory = node.as_directory().is_some();
        if is_directory && label == 0 {
            return Ok(Reply::Status(StatusCode::Failure));
        }
        if !is_directory && attrs.size.is_some() && !handle.write {
            return Ok(Reply::Status(StatusCode::PermissionDenied));
        }
        if node.refuses_size(attrs.size) {
            return Ok(Reply::Status(StatusCode::Failure));
        }
        let set = node.with_attrs(self.alloc, moment, attrs)?;
        self.set_object(label, set);
        Ok(Reply::Status(StatusCode::Success))
    }

    /// READ.
    pub(super) fn read(
        &self,
        session: u64,
        number: u64,
        offset: u64,
        len: u32,
    ) -> Result<Reply, AllocError>
        ensures { IfOk result (λ reply. reply
            ≡ (read offset len (opened self.now session number)).reply) }
    {
        let Some(handle) = self.handle_in(session, number) else {
            return Ok(Reply::Status(StatusCode::Failure));
        };
        let Some(node) = self.objects.get(&handle.label) else {
            return Ok(Reply::Status(StatusCode::Failure));
        };
        let Parts::File(_, contents) = node.parts() else {
            return Ok(Reply::Status(StatusCode::Failure));
        };
        if !handle.read {
            return Ok(Reply::Status(StatusCode::PermissionDenied));
        }
        if offset >= contents.len() {
            return Ok(Reply::Status(StatusCode::EndOfFile));
        }
        let most = len.min(MAX_READ) as usize;
        let bytes = contents.read(self.alloc, offset, most)?;
        Ok(Reply::Data(bytes))
    }

    /// WRITE. Allocates a map of the file's blocks, and the blocks that change.
    pub(super) fn write(
        &mut self,
        session: u64,
        moment: u32,
        number: u64,
        offset: u64,
        bytes: &ByteString,
    ) -> Result<Reply, AllocError>
        ensures reply { IfOk result (λ reply. reply
            ≡ (write moment offset bytes.now (opened self.old session number)).reply) }
        ensures tree { OnOk result (self.new
            ≡ done self.old (write moment offset bytes.now
            (opened self.old session number)).changes) }
        ensures err { OnErr result (self.new ≡ self.old) }
    {
        let Some(handle) = self.handle_in(session, number) else {
            return Ok(Reply::Status(StatusCode::Failure));
        };
        let label = handle.label;
        let Some(node) = self.objects.get(&label) else {
            return Ok(Reply::Status(StatusCode::Failure));
        };
        let Parts::File(metadata, contents) = node.parts() else {
            return Ok(Reply::Status(StatusCode::Failure));
        };
        if !handle.write {
            return Ok(Reply::Status(StatusCode::PermissionDenied));
        }
        if bytes.is_empty() {
            return Ok(Reply::Status(StatusCode::Success));
        }
        let start = start_of(handle, contents, offset);
        if ends_past_limit(start, bytes.len()) {
            return Ok(Reply::Status(StatusCode::Failure));
        }
        let mut after = contents.try_copy(self.alloc)?;
        after.write(self.alloc, start, bytes)?;
        self.set_contents(label, moment, metadata, after);
        Ok(Reply::Status(StatusCode::Success))
    }
}
