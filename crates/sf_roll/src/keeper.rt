//! The keeper, which knows all entries, and the tickets, each of which knows one.

ghost use Rattle.std.specs.Prelude.{◌≡◌, [], ◌∷◌, ◌++◌, length, Some, slice_get, slice_set, IfOk};

use crate::log::{Log, NewLog};
use crate::rule::{
    Becomes, Changes, Compares, EntryChange, Gives, IsKept, Knowledge, Opens, RollEntry, RollName,
    Spares, Takes,
};
use atomic_table::{Seat, Table};
use std::alloc::{AllocError, Global};
use std::marker::{Brand, Model, PhantomData};
use std::mem;

/// A roll with no entry and an empty log, without a name. Contracts see the name that it will get.
#[derive(Drop)]
pub struct NewRoll<E: RollEntry, T> {
    table: Table<(), Knowledge<E>, (), IsKept, Global>,
    seat: Seat<(), Knowledge<E>>,
    log: NewLog<T>,
}

impl<E: RollEntry, T> Model for NewRoll<E, T> {
    ghost use Rattle.std.specs.Prelude.{◌≡◌, ◌<◌, []};
    ghost use Rattle.sf_roll.specs.Kept.{RollTables, roll_tables, keeper};

    ghost Value = { RollTables };

    ghost view = { λ o. roll_tables o.table.shared.table_id o.log };

    ghost invariant = { λ o. (0 < o.table.shared.table_id.words)
        × (o.seat.table_id ≡ o.table.shared.table_id) × (o.seat.me ≡ (keeper E.fresh [], [])) };
}

impl<E: RollEntry, T> NewRoll<E, T> {
    /// An empty roll.
    pub fn new(alloc: Global) -> Result<NewRoll<E, T>, AllocError> {
        let log = NewLog::new(alloc)?;
        let (table, seat) = Table::of_words(alloc, &[0], &())?;
        Ok(NewRoll { table, seat, log })
    }

    /// Gives the roll its name, and returns its keeper and its log.
    pub fn named<B: RollName>(self) -> (Keeper<E, B>, Log<T, B>)
        requires { self ≡ B.table }
        ensures keeper { result.0 ≡ [] }
        ensures log { result.1 ≡ [] }
    {
        let NewRoll { table, seat, log } = self;
        let keeper = Keeper {
            table,
            seat,
            of: PhantomData,
        };
        (keeper, log.named::<B>())
    }
}

/// Knows all entries of a roll. Threads that share it keep it under a mutex. Contracts see the list
/// of entries.
#[derive(Drop)]
pub struct Keeper<E: RollEntry, B: RollName> {
    table: Table<(), Knowledge<E>, (), IsKept, Global>,
    seat: Seat<(), Knowledge<E>>,
    of: PhantomData<B>,
}

impl<E: RollEntry, B: RollName> Model for Keeper<E, B> {
    ghost use Rattle.std.specs.Prelude.{◌≡◌, ◌<◌, List, []};
    ghost use Rattle.sf_roll.specs.Kept.{keeper};

    ghost Value = { List E };

    ghost view = { λ k. k.seat.me.0.all };

    ghost invariant = { λ k. (0 < B.table.entries.words) × (k.table.shared.table_id ≡ B.table.entries)
        × (k.seat.table_id ≡ B.table.entries) × (k.seat.me ≡ (keeper E.fresh k.seat.me.0.all, [])) };
}

/// Knows one entry of a roll. Each entry has one ticket. Contracts see the entry and its place in
/// the list.
#[derive(Drop)]
pub struct Ticket<E: RollEntry, B: RollName> {
    seat: Seat<(), Knowledge<E>>,
    of: PhantomData<B>,
}

impl<E: RollEntry, B: RollName> Model for Ticket<E, B> {
    ghost use Rattle.std.specs.Prelude.{◌≡◌, ℕ, []};
    ghost use Rattle.sf_roll.specs.Kept.{ticket};

    ghost Value = { ℕ × E };

    ghost view = { λ t. (t.seat.me.0.place, t.seat.me.0.own) };

    ghost invariant = { λ t. (t.seat.table_id ≡ B.table.entries)
        × (t.seat.me ≡ (ticket t.seat.me.0.place t.seat.me.0.own, [])) };
}

impl<E: RollEntry, B: RollName> Keeper<E, B> {
    /// Appends a new entry, and returns its ticket.
    pub fn open(&mut self) -> Ticket<E, B>
        ensures all { self.new ≡ self.old ++ E.fresh ∷ [] }
        ensures ticket { result ≡ (length self.old, E.fresh) }
    {
        let Keeper { table, seat, of: _ } = self;
        let seat = table.shared.split_seat::<Opens>(seat);
        Ticket {
            seat,
            of: PhantomData,
        }
    }

    /// Law: a ticket knows the entry at its place.
    pub fn agrees(&mut self, ticket: &mut Ticket<E, B>)
        ensures all { self.new ≡ self.old }
        ensures ticket { ticket.new ≡ ticket.old }
        ensures known { slice_get self.old ticket.old.0 ≡ Some ticket.old.1 }
    {
        let Keeper { table, seat, of: _ } = self;
        let Ticket { seat: own, of: _ } = ticket;
        let spare = table.shared.split_seat::<Spares>(seat);
        let theirs = mem::replace(own, spare);
        table.shared.join_seat::<Takes>(seat, theirs);
        table.shared.load::<Compares>(seat, 0);
        *own = table.shared.split_seat::<Gives>(seat);
    }

    /// Changes the entry of a ticket. The change is for proofs only.
    pub fn change<S: EntryChange<E>>(&mut self, ticket: &mut Ticket<E, B>, said: &S)
        ensures all { self.new ≡ slice_set self.old ticket.old.0 (S.after ticket.old.1 said.now) }
        ensures ticket { ticket.new ≡ (ticket.old.0, S.after ticket.old.1 said.now) }
    {
        self.change_to::<Brand, S>(ticket, said)
    }

    /// Changes the entry as `W` says. The caller chooses `W`.
    fn change_to<W: Becomes<E>, S>(&mut self, ticket: &mut Ticket<E, B>, _said: &S)
        ensures all { self.new ≡ slice_set self.old ticket.old.0 (W.becomes ticket.old.1) }
        ensures ticket { ticket.new ≡ (ticket.old.0, W.becomes ticket.old.1) }
    {
        let Keeper { table, seat, of: _ } = self;
        let Ticket { seat: own, of: _ } = ticket;
        let spare = table.shared.split_seat::<Spares>(seat);
        let theirs = mem::replace(own, spare);
        table.shared.join_seat::<Takes>(seat, theirs);
        table.shared.load::<Changes<W>>(seat, 0);
        *own = table.shared.split_seat::<Gives>(seat);
    }
}
