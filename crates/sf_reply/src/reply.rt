//! The replies to requests.

ghost use Rattle.std.specs.Prelude.{◌≡◌, ◌++◌, IfOk, IsOk, OnOk};
ghost use Rattle.sf_reply.specs.Replies.{number_of, message_of, IsPlain};

use sf_field::{Attrs, ByteString};
use std::alloc::AllocError;
use std::marker::Model;
use std::sync::ArcSlice;

/// The maximum packet length of a plain reply (a status, out of memory, a handle or attributes), in
/// bytes, including the length field.
pub const MAX_PLAIN_REPLY: usize = 42;

/// The status codes that the server sends (draft-ietf-secsh-filexfer-02, section 7).
#[derive(Clone, Copy, Debug, PartialEq, Eq)]
pub enum StatusCode {
    Success,
    EndOfFile,
    NoSuchFile,
    PermissionDenied,
    Failure,
    BadMessage,
    OpUnsupported,
}

impl StatusCode {
    /// The draft's number.
    pub fn number(self) -> u32
        ensures { result ≡ number_of self }
    {
        match self {
            StatusCode::Success => 0,
            StatusCode::EndOfFile => 1,
            StatusCode::NoSuchFile => 2,
            StatusCode::PermissionDenied => 3,
            StatusCode::Failure => 4,
            StatusCode::BadMessage => 5,
            StatusCode::OpUnsupported => 8,
        }
    }

    /// The error message sent with the code, in ASCII.
    pub fn message(self) -> &'static [u8]
        ensures { result.now ≡ message_of self }
    {
        match self {
            StatusCode::Success => b"Success",
            StatusCode::EndOfFile => b"End of file",
            StatusCode::NoSuchFile => b"No such file",
            StatusCode::PermissionDenied => b"Permission denied",
            StatusCode::Failure => b"Failure",
            StatusCode::BadMessage => b"Bad message",
            StatusCode::OpUnsupported => b"Operation unsupported",
        }
    }
}

/// One entry of a listing.
#[derive(Debug, PartialEq, Eq, Drop)]
pub struct Entry {
    pub filename: ByteString,
    /// A human-readable line that describes the file.
    pub longname: ByteString,
    pub attrs: Attrs,
}

impl Entry {
    /// Another reference to the entry. It allocates nothing.
    fn share(&self) -> Result<Entry, AllocError>
        ensures { IfOk result (λ e. e ≡ self.now) }
    {
        Ok(Entry {
            filename: self.filename.share()?,
            longname: self.longname.share()?,
            attrs: self.attrs,
        })
    }
}

/// A listing: reference-counted entries, shared without copying. Contracts see a list.
#[derive(Debug, Drop)]
pub struct Listing {
    entries: ArcSlice<Entry>,
}

impl Model for Listing {
    ghost use Rattle.std.specs.Prelude.{List};
    ghost use Rattle.std.specs.Arc.{arc_slice_items};
    ghost use Rattle.sf_reply.specs.declared.reply.Entry.{Entry};

    ghost Value = { List Entry };

    ghost view = { λ l. arc_slice_items l.entries };
}

impl PartialEq for Listing {
    ghost use Rattle.std.specs.Cmp.{partial_equiv_from_equiv};
    ghost use Rattle.std.specs.Cmp.Lexicographic.{pointwise, lists_equiv};
    ghost use Rattle.sf_reply.specs.contracts.reply.EntryPartialEq.TheImpl.{ghosts};
    ghost use Rattle.sf_reply.specs.contracts.reply.EntryEq.TheImpl.Laws.{laws-law};

    ghost eq = { pointwise ghosts.eq };

    ghost laws = { partial_equiv_from_equiv (lists_equiv laws-law) };

    fn eq(&self, other: &Listing) -> bool {
        self.as_slice() == other.as_slice()
    }
}

impl Eq for Listing {
    ghost use Rattle.std.specs.Cmp.Lexicographic.{lists_equiv};
    ghost use Rattle.sf_reply.specs.contracts.reply.EntryEq.TheImpl.Laws.{laws-law};

    ghost laws = { lists_equiv laws-law };
}

impl Listing {
    /// Takes the entries without copying. It allocates the reference count.
    pub fn from_vec(entries: Vec<Entry>) -> Result<Listing, AllocError>
        ensures { IfOk result (λ l. l ≡ entries.items) }
    {
        Ok(Self {
            entries: ArcSlice::from_vec(entries)?,
        })
    }

    /// Another reference to the same entries, without allocation. It fails if the reference count
    /// would overflow, at 2^63.
    fn share(&self) -> Result<Listing, AllocError>
        ensures { IfOk result (λ l. l ≡ self.now) }
    {
        Ok(Self {
            entries: self.entries.clone()?,
        })
    }

    /// The entries in order.
    pub fn as_slice(&self) -> &[Entry]
        ensures { result.now ≡ self.now }
    {
        self.entries.as_slice()
    }

    /// Appends the entries to `others`; their strings are shared.
    pub fn append_to(&self, others: &mut Vec<Entry>) -> Result<(), AllocError>
        ensures { OnOk result (others.new.items ≡ others.old.items ++ self.now) }
    {
        for entry in self.as_slice() {
            others.push(entry.share()?)?;
        }
        Ok(())
    }
}

/// A reply, decoded.
#[derive(Debug, PartialEq, Eq, Drop)]
pub enum Reply {
    Status(StatusCode),
    /// Out of memory: `SSH_FX_FAILURE` with the message `Out of memory`.
    NoMemory,
    /// The number of the call that opened the handle, sent as 8 bytes.
    Handle(u64),
    /// File data.
    Data(ByteString),
    Names(Listing),
    Attrs(Attrs),
}

impl Reply {
    /// The same reply again. Data and names are shared, so it allocates nothing. It fails only if a
    /// reference count would overflow.
    pub fn share(&self) -> Result<Reply, AllocError>
        ensures equal { IfOk result (λ copy. copy ≡ self.now) }
        ensures plain { IsPlain self.now → IsOk result }
    {
        Ok(match self {
            Reply::Status(code) => Reply::Status(*code),
            Reply::NoMemory => Reply::NoMemory,
            Reply::Handle(number) => Reply::Handle(*number),
            Reply::Data(bytes) => Reply::Data(bytes.share()?),
            Reply::Names(listing) => Reply::Names(listing.share()?),
            Reply::Attrs(attrs) => Reply::Attrs(*attrs),
        })
    }
}
