//! The first packet of a session's unread bytes.

ghost use Rattle.std.specs.Prelude.{◌≡◌, ◌≤◌, length, IfOk};
ghost use Rattle.sf_session.specs.Sessions.{Fronts};

use crate::asking::{Ask, ask_of};
use crate::cause::Cause;
use crate::unread::Unread;
use sf_wire::{BadCut, Cut};
use std::alloc::{AllocError, Global};

/// What the unread bytes begin with.
#[derive(Debug, Drop)]
pub(crate) enum Front {
    /// An incomplete packet.
    More,
    /// A wrong length, which ends the session.
    Wrong(Cause),
    /// What a packet requires, and its length in bytes, including its length field.
    Asks(Ask, usize),
}

/// What the unread bytes begin with. `begun` says whether the session has processed its first
/// packet.
pub(crate) fn front_of(alloc: Global, begun: bool, unread: &Unread) -> Result<Front, AllocError>
    ensures { IfOk result (λ front. Fronts begun unread.now front) }
{
    match unread.front() {
        Cut::More => Ok(Front::More),
        Cut::Bad(BadCut::ZeroLength) => Ok(Front::Wrong(Cause::ZeroLength)),
        Cut::Bad(BadCut::TooLong) => Ok(Front::Wrong(Cause::TooLong)),
        Cut::Whole(len) => {
            let ask = ask_of(alloc, begun, &unread.as_slice()[4..len])?;
            Ok(Front::Asks(ask, len))
        }
    }
}
