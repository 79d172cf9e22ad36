//! A log that only grows, and tokens for prefixes of it.

ghost use Rattle.std.specs.Prelude.{◌≡◌, ◌++◌, List, [], IfOk};
ghost use Rattle.sf_roll.specs.Seen.{IsPrefixOf};

use crate::log_rule::{Adds, Compares, Copies, Grows, IsSeen, LogGrowth, LogView, Takes};
use crate::rule::RollName;
use atomic_table::{Seat, Table};
use std::alloc::{AllocError, Global};
use std::marker::{Brand, Model, PhantomData};
use std::mem;

/// An empty log without a name. Contracts see the table that will name it.
#[derive(Drop)]
pub(crate) struct NewLog<T> {
    table: Table<(), LogView<T>, (), IsSeen, Global>,
    seat: Seat<(), LogView<T>>,
}

impl<T> Model for NewLog<T> {
    ghost use Rattle.std.specs.Prelude.{◌≡◌, ◌<◌, []};
    ghost use Rattle.atomic_table.specs.Seated.{TableId};
    ghost use Rattle.sf_roll.specs.Seen.{writer};

    ghost Value = { TableId };

    ghost view = { λ o. o.table.shared.table_id };

    ghost invariant = { λ o. (0 < o.table.shared.table_id.words)
        × (o.seat.table_id ≡ o.table.shared.table_id) × (o.seat.me ≡ (writer [], [])) };
}

impl<T> NewLog<T> {
    /// An empty log.
    pub(crate) fn new(alloc: Global) -> Result<NewLog<T>, AllocError> {
        let (table, seat) = Table::of_words(alloc, &[0], &())?;
        Ok(NewLog { table, seat })
    }

    /// Gives the log its name.
    pub(crate) fn named<B: RollName>(self) -> Log<T, B>
        requires { self ≡ B.table.log }
        ensures { result ≡ [] }
    {
        let NewLog { table, seat } = self;
        Log {
            table,
            seat,
            of: PhantomData,
        }
    }
}

/// A log that only grows. Threads that share it keep it under a mutex. Contracts see the list of
/// all that was added. It exists in proofs only.
#[derive(Drop)]
pub struct Log<T, B: RollName> {
    table: Table<(), LogView<T>, (), IsSeen, Global>,
    seat: Seat<(), LogView<T>>,
    of: PhantomData<B>,
}

impl<T, B: RollName> Model for Log<T, B> {
    ghost use Rattle.std.specs.Prelude.{◌≡◌, ◌<◌, List, []};
    ghost use Rattle.sf_roll.specs.Seen.{writer};

    ghost Value = { List T };

    ghost view = { λ l. l.seat.me.0.log };

    ghost invariant = { λ l. (0 < B.table.log.words) × (l.table.shared.table_id ≡ B.table.log)
        × (l.seat.table_id ≡ B.table.log) × (l.seat.me ≡ (writer l.seat.me.0.log, [])) };
}

/// A ghost token for a prefix of a log: the log began with this list once, so it does from then on.
/// Contracts see the list. A token has no bytes, crosses threads, and can be copied.
#[derive(Drop)]
pub struct Seen<T, B: RollName> {
    seat: Seat<(), LogView<T>>,
    of: PhantomData<B>,
}

impl<T, B: RollName> Model for Seen<T, B> {
    ghost use Rattle.std.specs.Prelude.{◌≡◌, List, []};
    ghost use Rattle.sf_roll.specs.Seen.{reader};

    ghost Value = { List T };

    ghost view = { λ s. s.seat.me.0.log };

    ghost invariant = { λ s. (s.seat.table_id ≡ B.table.log)
        × (s.seat.me ≡ (reader s.seat.me.0.log, [])) };
}

impl<T, B: RollName> Log<T, B> {
    /// A token for the whole log so far.
    pub fn token(&mut self) -> Seen<T, B>
        ensures log { self.new ≡ self.old }
        ensures seen { result ≡ self.old }
    {
        let Log { table, seat, of: _ } = self;
        let seat = table.shared.split_seat::<Copies>(seat);
        Seen {
            seat,
            of: PhantomData,
        }
    }

    /// A second token for the same prefix.
    pub fn copy(&self, seen: &mut Seen<T, B>) -> Seen<T, B>
        ensures seen { seen.new ≡ seen.old }
        ensures copy { result ≡ seen.old }
    {
        let Log {
            table,
            seat: _,
            of: _,
        } = self;
        let Seen { seat, of: _ } = seen;
        let seat = table.shared.split_seat::<Copies>(seat);
        Seen {
            seat,
            of: PhantomData,
        }
    }

    /// Extends a token to the whole log so far. Its old prefix is a prefix of the log.
    pub fn show(&mut self, seen: &mut Seen<T, B>)
        ensures log { self.new ≡ self.old }
        ensures seen { seen.new ≡ self.old }
        ensures known { IsPrefixOf seen.old self.old }
    {
        let Log { table, seat, of: _ } = self;
        let Seen { seat: own, of: _ } = seen;
        let next = table.shared.split_seat::<Copies>(seat);
        let before = mem::replace(own, next);
        table.shared.join_seat::<Takes>(seat, before);
        table.shared.load::<Compares>(seat, 0);
    }

    /// Adds to the log a list that `may_add` allows. The proof chooses the list.
    pub fn grow<S: LogGrowth<T>>(&mut self, said: &S)
        requires { (added : List T) × S.may_add said.now self.old added }
        ensures { (added : List T) × (self.new ≡ self.old ++ added)
            × S.may_add said.now self.old added }
    {
        self.grow_by::<Brand, S>(said)
    }

    /// Adds a list that `W` allows. The caller chooses `W`.
    fn grow_by<W: Adds<T>, S>(&mut self, _said: &S)
        requires { (added : List T) × W.adds self.old added }
        ensures { (added : List T) × (self.new ≡ self.old ++ added) × W.adds self.old added }
    {
        let Log { table, seat, of: _ } = self;
        table.shared.load::<Grows<W>>(seat, 0);
    }
}
