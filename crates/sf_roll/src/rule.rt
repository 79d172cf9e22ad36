//! The rule of the table behind a keeper and its tickets.

use atomic_table::{Join, Play, Split, TableRule};
use std::collections::LinkedList;
use std::marker::{Brand, PhantomData};

/// The name of a roll, in the types of its tokens: a table for the entries, and one for the log. A
/// call at `Brand` chooses the name.
pub trait RollName {
    ghost use Rattle.sf_roll.specs.Kept.{RollTables};

    ghost table: { RollTables };
}

impl RollName for Brand {
    ghost use Rattle.sf_roll.specs.Kept.{no_table, roll_tables};

    ghost table = { roll_tables no_table no_table };
}

/// An entry of a roll. No value of this type is made.
pub trait RollEntry {
    /// A new entry.
    ghost fresh: { Self };
}

/// A change of entries.
pub trait EntryChange<E> {
    /// The entry after the change.
    ghost after: { E → Self → E };
}

/// What an entry becomes, for proofs only. A call at `Brand` chooses it, so types that cross
/// threads don't mention it.
pub(crate) trait Becomes<E> {
    ghost becomes: { E → E };
}

impl<E> Becomes<E> for Brand {
    ghost becomes = { λ e. e };
}

/// What a seat of the table knows: all entries, or one. No value of this type is made.
pub struct Knowledge<E> {
    pub keeps: bool,
    pub all: LinkedList<E>,
    pub holds: bool,
    pub place: u64,
    pub own: E,
}

/// The rule: at most one seat knows all entries, and at most one seat knows each of them.
pub struct IsKept;

impl<E: RollEntry, S> TableRule<S, Knowledge<E>, ()> for IsKept {
    ghost use Rattle.std.specs.Prelude.{[]};
    ghost use Rattle.sf_roll.specs.Kept.{AreKept, keeper};

    ghost holds = { λ _ s. AreKept s.views };

    ghost first = { λ _. keeper E.fresh [] };
}

/// The keeper makes a new entry and its ticket.
pub(crate) struct Opens;

impl<E: RollEntry> Split<Knowledge<E>> for Opens {
    ghost use Rattle.sf_roll.specs.Kept.{with_entry, new_ticket};

    ghost left = { with_entry E.fresh };

    ghost right = { new_ticket E.fresh };
}

/// The keeper makes a seat that knows nothing, to put in place of a ticket's seat.
pub(crate) struct Spares;

impl<E: RollEntry> Split<Knowledge<E>> for Spares {
    ghost use Rattle.sf_roll.specs.Kept.{no_ticket};

    ghost left = { λ v. v };

    ghost right = { no_ticket E.fresh };
}

/// The keeper takes the knowledge of a ticket.
pub(crate) struct Takes;

impl<E: RollEntry> Join<Knowledge<E>> for Takes {
    ghost use Rattle.sf_roll.specs.Kept.{with_ticket, nobody};

    ghost both = { with_ticket };

    ghost spent = { nobody E.fresh };
}

/// The keeper gives that knowledge back.
pub(crate) struct Gives;

impl<E: RollEntry> Split<Knowledge<E>> for Gives {
    ghost use Rattle.sf_roll.specs.Kept.{without_ticket, its_ticket};

    ghost left = { without_ticket E.fresh };

    ghost right = { its_ticket };
}

/// The keeper compares the ticket's entry with its own list.
pub(crate) struct Compares;

impl<E, S> Play<S, Knowledge<E>> for Compares {
    ghost use Rattle.sf_roll.specs.Kept.{compares};

    ghost then = { λ _ m _ m'. compares m m' };
}

/// The entry of the ticket changes.
pub(crate) struct Changes<W> {
    to: PhantomData<W>,
}

impl<E, S, W: Becomes<E>> Play<S, Knowledge<E>> for Changes<W> {
    ghost use Rattle.sf_roll.specs.Kept.{changes};

    ghost then = { λ _ m _ m'. changes W.becomes m m' };
}
