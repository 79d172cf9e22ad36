//! Calls with a handle: each opens it, uses it and closes it.

ghost use Rattle.std.specs.Prelude.{◌≡◌, ◌+◌, ◌<◌, ◌≤◌, ◌^◌, length, false, Ok, Err, IfOk, IfSome, nat_lt};
ghost use Rattle.sf_field.specs.Fields.{be64};
ghost use Rattle.sf_reply.specs.declared.reply.StatusCode.TheVariants.{Success};
ghost use Rattle.sf_field.specs.Attributes.{no_attrs};
ghost use Rattle.sf_field.specs.declared.operation.PathOp.TheVariants as path_op;
ghost use Rattle.sf_field.specs.declared.operation.HandleOp.TheVariants as handle_op;
ghost use Rattle.sf_request.specs.declared.request.WireRequest.TheVariants as request;
ghost use Rattle.sf_request.specs.Requests.{request_body};
ghost use Rattle.sf_reply.specs.declared.reply.Reply.TheVariants as reply;
ghost use Rattle.sf_client.specs.Pending.{pending_of};
ghost use Rattle.sf_client.specs.Outcomes.{Comes};
ghost use Rattle.sf_client.specs.Ahead.{SendsOn, TakesOn, GathersPiece, GathersNames, most_ahead, sender};
ghost use Rattle.sf_client.specs.Calls.{DoesCall, ByHandle, ClosesAfter, AsksSize, after_closing, reply_by, ended_by, read_from, to_read, to_write, Reads, ReadsAll, WritesAll, ListsAll, items_of};

use crate::ahead::Ahead;
use crate::client::Client;
use crate::fault::ClientFault;
use crate::pending::PendingReply;
use sf_field::{ByteString, HandleOp, NO_ATTRS, OpenFlags, PathOp};
use sf_line::Line;
use sf_reply::{Entry, Listing, Reply, StatusCode};
use sf_request::{ByteStr, WireRequest};

/// The length of a READ, and the maximum length of a WRITE, in bytes.
const PIECE: usize = 32768;

/// The maximum size of a file to get, in bytes, by its size from FSTAT.
const MOST_GATHERED: u64 = 1 << 30;

/// The maximum number of READDIRs in flight.
const LISTINGS: u32 = 2;

/// The flag READ.
const TO_READ: OpenFlags = OpenFlags {
    read: true,
    write: false,
    append: false,
    create: false,
    truncate: false,
    exclusive: false,
};

/// The flags WRITE, CREAT and TRUNC.
const TO_WRITE: OpenFlags = OpenFlags {
    read: false,
    write: true,
    append: false,
    create: true,
    truncate: true,
    exclusive: false,
};

/// The result of a call after CLOSE: the first error, unless the client failed in CLOSE.
fn after_closing<T: Drop>(
    outcome: Result<T, ClientFault>,
    closing: Result<(), ClientFault>,
) -> Result<T, ClientFault>
    ensures { result ≡ after_closing outcome closing }
{
    match (outcome, closing) {
        (_, Err(ClientFault::Stream)) => Err(ClientFault::Stream),
        (_, Err(ClientFault::Protocol)) => Err(ClientFault::Protocol),
        (Ok(_), Err(fault)) => Err(fault),
        (outcome, _) => outcome,
    }
}

/// Appends a chunk of a file, and returns whether it is a short one, after which the chunks in
/// flight are discarded. If memory runs out, reading stops.
fn gather_piece(ahead: &mut Ahead, bytes: &mut Vec<u8>, piece: ByteString) -> bool
    ensures short { result ≡ nat_lt (length piece) PIECE }
    ensures gathers { GathersPiece bytes.old.items piece bytes.new.items ahead.old ahead.new }
{
    let short = piece.len() < PIECE;
    if bytes.extend_from_slice(piece.as_slice()).is_err() {
        ahead.stop(ClientFault::OutOfMemory);
    } else if short {
        ahead.drop_waiting();
    }
    short
}

/// Appends names. If memory runs out, listing stops.
fn gather_names(ahead: &mut Ahead, entries: &mut Vec<Entry>, names: Listing)
    ensures { GathersNames entries.old.items names entries.new.items ahead.old ahead.new }
{
    if names.append_to(entries).is_err() {
        ahead.stop(ClientFault::OutOfMemory);
    }
}

/// The collected items, if EOF ended the call.
fn ended<T: Drop>(stopped: Option<ClientFault>, items: Vec<T>) -> Result<Vec<T>, ClientFault>
    ensures { items_of result ≡ ended_by stopped items.items }
{
    match stopped {
        None | Some(ClientFault::Status(StatusCode::EndOfFile)) => Ok(items),
        Some(fault) => Err(fault),
    }
}

impl<L: Line + Drop> Client<L> {
    /// Opens a handle.
    fn open(&mut self, request: &WireRequest) -> Result<u64, ClientFault>
        requires short { length (request_body self.old.next request.now) < 2 ^ 32 }
        requires pending { pending_of request.now ≡ PendingReply.Handle }
        ensures { Comes reply.Handle self.old request.now result self.new }
    {
        match self.exchange(request, PendingReply::Handle)? {
            Reply::Handle(number) => Ok(number),
            _ => unreachable!(),
        }
    }

    /// Closes the handle, unless the client has failed, and returns the result of the call.
    fn closed<T: Drop>(
        &mut self,
        handle: u64,
        outcome: Result<T, ClientFault>,
    ) -> Result<T, ClientFault>
        ensures { ClosesAfter handle outcome self.old result self.new }
    {
        if self.has_failed() {
            return outcome;
        }
        let closing = self.close(handle);
        after_closing(outcome, closing)
    }

    /// The file's size from FSTAT; 0 if FSTAT returned an error status or no size.
    fn stated_size(&mut self, handle: u64) -> Result<u64, ClientFault>
        requires { self.old.failed ≡ false }
        ensures { AsksSize handle self.old result self.new }
    {
        let number = handle.to_be_bytes();
        let request = WireRequest::ByHandle(HandleOp::FStat, ByteStr::new(&number));
        let attrs = match self.exchange(&request, PendingReply::Attrs) {
            Ok(Reply::Attrs(attrs)) => attrs,
            Ok(_) => unreachable!(),
            Err(ClientFault::Status(_)) => return Ok(0),
            Err(fault) => return Err(fault),
        };
        Ok(attrs.size.unwrap_or(0))
    }

    /// Sends a READ.
    fn ask_piece(
        &mut self,
        ahead: &mut Ahead,
        handle: u64,
        offset: u64,
    ) -> Result<bool, ClientFault>
        requires { ahead.old.waiting < most_ahead }
        ensures { SendsOn (sender self.old ahead.old) (read_from handle offset) result
            (sender self.new ahead.new) }
    {
        let number = handle.to_be_bytes();
        let op = HandleOp::Read { offset, len: 32768 };
        self.send_on(ahead, &WireRequest::ByHandle(op, ByteStr::new(&number)))
    }

    /// Receives the data of a READ.
    fn take_piece(&mut self, ahead: &mut Ahead) -> Result<Option<ByteString>, ClientFault>
        requires { 0 < ahead.old.waiting }
        ensures { TakesOn (sender self.old ahead.old) (PendingReply.Data 32768)
            (reply_by reply.Data result) (sender self.new ahead.new) }
    {
        match self.take_on(ahead, PendingReply::Data(32768))? {
            Some(Reply::Data(bytes)) => Ok(Some(bytes)),
            Some(_) => unreachable!(),
            None => Ok(None),
        }
    }

    /// Reads the file to its end. READs are pipelined up to the size from FSTAT. After a short
    /// chunk the READs in flight are useless, and reading continues with one READ at a time.
    fn read_pieces(&mut self, handle: u64, size: u64) -> Result<Vec<u8>, ClientFault>
        requires { self.old.failed ≡ false }
        ensures { DoesCall (Reads handle) self.old (items_of result) self.new }
    {
        let mut bytes = Vec::new(self.alloc());
        let mut ahead = self.ahead();
        let mut expected = size;
        'pieces: loop {
            let offset = bytes.len() as u64 + u64::from(ahead.waiting) * PIECE as u64;
            if ahead.has_room_at(offset, expected) {
                self.ask_piece(&mut ahead, handle, offset)?;
            } else if ahead.waiting > 0 {
                match self.take_piece(&mut ahead) {
                    Ok(Some(piece)) => {
                        if gather_piece(&mut ahead, &mut bytes, piece) {
                            expected = 0;
                        }
                    }
                    Ok(None) => {}
                    Err(fault) => return Err(fault),
                }
            } else {
                return ended(ahead.stopped, bytes);
            }
        }
    }

    /// Reads the file, if its size is within the limit.
    fn read_all(&mut self, handle: u64) -> Result<Vec<u8>, ClientFault>
        requires { self.old.failed ≡ false }
        ensures { DoesCall (ReadsAll handle) self.old (items_of result) self.new }
    {
        let size = self.stated_size(handle)?;
        if size > MOST_GATHERED {
            return Err(ClientFault::TooLarge(size));
        }
        self.read_pieces(handle, size)
    }

    /// Sends a WRITE.
    fn send_piece(
        &mut self,
        ahead: &mut Ahead,
        handle: u64,
        offset: u64,
        piece: &[u8],
    ) -> Result<bool, ClientFault>
        requires short { length piece.now ≤ PIECE }
        requires room { ahead.old.waiting < most_ahead }
        ensures { SendsOn (sender self.old ahead.old)
            (request.Write (be64 handle) offset piece.now) result (sender self.new ahead.new) }
    {
        let number = handle.to_be_bytes();
        let request = WireRequest::Write {
            handle: ByteStr::new(&number),
            offset,
            data: ByteStr::new(piece),
        };
        self.send_on(ahead, &request)
    }

    /// Receives the `SSH_FX_OK` of a WRITE.
    fn take_success(&mut self, ahead: &mut Ahead) -> Result<Option<()>, ClientFault>
        requires { 0 < ahead.old.waiting }
        ensures { TakesOn (sender self.old ahead.old) PendingReply.Success
            (reply_by (λ _. reply.Status Success) result) (sender self.new ahead.new) }
    {
        match self.take_on(ahead, PendingReply::Success)? {
            Some(_reply) => Ok(Some(())),
            None => Ok(None),
        }
    }

    /// Writes the bytes from offset 0 on, with pipelined chunks.
    fn write_pieces(&mut self, handle: u64, bytes: &[u8]) -> Result<(), ClientFault>
        requires { self.old.failed ≡ false }
        ensures { DoesCall (WritesAll bytes.now handle) self.old result self.new }
    {
        let mut rest = bytes;
        let mut offset = 0;
        let mut ahead = self.ahead();
        'pieces: loop {
            if ahead.has_room() && !rest.is_empty() {
                let (piece, after) = rest.split_at(rest.len().min(PIECE));
                if self.send_piece(&mut ahead, handle, offset, piece)? {
                    offset += piece.len() as u64;
                    rest = after;
                }
            } else if ahead.waiting > 0 {
                self.take_success(&mut ahead)?;
            } else {
                return match ahead.stopped {
                    None => Ok(()),
                    Some(fault) => Err(fault),
                };
            }
        }
    }

    /// Sends a READDIR.
    fn ask_names(&mut self, ahead: &mut Ahead, handle: u64) -> Result<bool, ClientFault>
        requires { ahead.old.waiting < most_ahead }
        ensures { SendsOn (sender self.old ahead.old) (request.ByHandle handle_op.ReadDir (be64 handle))
            result (sender self.new ahead.new) }
    {
        let number = handle.to_be_bytes();
        let request = WireRequest::ByHandle(HandleOp::ReadDir, ByteStr::new(&number));
        self.send_on(ahead, &request)
    }

    /// Receives the names of a READDIR.
    fn take_names(&mut self, ahead: &mut Ahead) -> Result<Option<Listing>, ClientFault>
        requires { 0 < ahead.old.waiting }
        ensures { TakesOn (sender self.old ahead.old) PendingReply.Names
            (reply_by reply.Names result) (sender self.new ahead.new) }
    {
        match self.take_on(ahead, PendingReply::Names)? {
            Some(Reply::Names(entries)) => Ok(Some(entries)),
            Some(_) => unreachable!(),
            None => Ok(None),
        }
    }

    /// Lists the directory to its end, with at most two READDIRs in flight.
    fn list_all(&mut self, handle: u64) -> Result<Vec<Entry>, ClientFault>
        requires { self.old.failed ≡ false }
        ensures { DoesCall (ListsAll handle) self.old (items_of result) self.new }
    {
        let mut entries = Vec::new(self.alloc());
        let mut ahead = self.ahead();
        'parts: loop {
            if ahead.has_room() && ahead.waiting < LISTINGS {
                self.ask_names(&mut ahead, handle)?;
            } else if ahead.waiting > 0 {
                match self.take_names(&mut ahead) {
                    Ok(Some(part)) => gather_names(&mut ahead, &mut entries, part),
                    Ok(None) => {}
                    Err(fault) => return Err(fault),
                }
            } else {
                return ended(ahead.stopped, entries);
            }
        }
    }

    /// Opens a file.
    fn open_file(&mut self, path: &[u8], flags: OpenFlags) -> Result<u64, ClientFault>
        requires { length path.now < 2 ^ 31 }
        ensures { Comes reply.Handle self.old
            (request.OnPath (path_op.Open flags no_attrs) path.now) result self.new }
    {
        let op = PathOp::Open(flags, NO_ATTRS);
        self.open(&WireRequest::OnPath(op, ByteStr::new(path)))
    }

    /// Opens a directory.
    fn open_directory(&mut self, path: &[u8]) -> Result<u64, ClientFault>
        requires { length path.now < 2 ^ 31 }
        ensures { Comes reply.Handle self.old (request.OnPath path_op.OpenDir path.now) result
            self.new }
    {
        self.open(&WireRequest::OnPath(PathOp::OpenDir, ByteStr::new(path)))
    }

    /// Reads a whole file. It returns `TooLarge` if the server reports a size above 2^30 bytes.
    pub fn get(&mut self, path: &[u8]) -> Result<Vec<u8>, ClientFault>
        requires { length path.now < 2 ^ 31 }
        ensures { DoesCall
            (ByHandle (request.OnPath (path_op.Open to_read no_attrs) path.now) ReadsAll)
            self.old (items_of result) self.new }
    {
        let handle = self.open_file(path, TO_READ)?;
        let bytes = self.read_all(handle);
        self.closed(handle, bytes)
    }

    /// Creates a file with these bytes, or truncates an existing file and writes them.
    pub fn put(&mut self, path: &[u8], bytes: &[u8]) -> Result<(), ClientFault>
        requires { length path.now < 2 ^ 31 }
        ensures { DoesCall
            (ByHandle (request.OnPath (path_op.Open to_write no_attrs) path.now)
            (WritesAll bytes.now))
            self.old result self.new }
    {
        let handle = self.open_file(path, TO_WRITE)?;
        let written = self.write_pieces(handle, bytes);
        self.closed(handle, written)
    }

    /// Lists a directory.
    pub fn list(&mut self, path: &[u8]) -> Result<Vec<Entry>, ClientFault>
        requires { length path.now < 2 ^ 31 }
        ensures { DoesCall (ByHandle (request.OnPath path_op.OpenDir path.now) ListsAll)
            self.old (items_of result) self.new }
    {
        let handle = self.open_directory(path)?;
        let entries = self.list_all(handle);
        self.closed(handle, entries)
    }
}
