//! The ghost page of a session.

use sf_call::Request;
use sf_reply::Reply;
use sf_roll::{EntryChange, RollEntry};
use std::marker::{Model, PhantomData};
use std::snapshot::Snapshot;

/// The page of a session, as contracts see it. No value of this type is made.
pub struct Page {
    nothing: PhantomData<()>,
}

impl Model for Page {
    ghost use Rattle.sf_noted.specs.Pages.{Page};
    ghost use Rattle.sf_noted.specs.PageChanges.{fresh_page};

    ghost Value = { Page };

    ghost view = { λ _. fresh_page };
}

impl RollEntry for Page {
    ghost use Rattle.sf_noted.specs.PageChanges.{fresh_page};

    ghost fresh = { fresh_page };
}

/// A call began or was answered, or the session ended.
#[derive(Drop)]
pub enum PageChange {
    Begins(u64, u32, Snapshot<Request>),
    Answered(Snapshot<Reply>),
    Leaves,
}

impl EntryChange<Page> for PageChange {
    ghost use Rattle.sf_noted.specs.PageChanges.{page_after};

    ghost after = { page_after };
}

/// The calls of a closed core's session were counted, and go.
pub(crate) struct Clears;

impl EntryChange<Page> for Clears {
    ghost use Rattle.sf_noted.specs.PageChanges.{cleared};

    ghost after = { λ page _. cleared page };
}
