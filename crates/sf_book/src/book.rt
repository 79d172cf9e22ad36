//! Books of records.

ghost use Rattle.std.specs.Prelude.{◌≡◌, ◌∷◌, ◌+◌, ◌-◌, ◌^◌, ◌<◌, ◌≤◌, min, [], Some, None, length, take, drop, IsOk, OnOk};
ghost use Rattle.std.specs.List.{count_by};
ghost use Rattle.sf_book.specs.Books.{is_call, put};

use sf_call::Record;
use std::alloc::{AllocError, Global};
use std::marker::Model;

/// The retained records of a history, in order. Space is reserved before a record is added, so that
/// adding can't fail.
#[derive(Drop)]
pub struct Book {
    // Dropped records stay at the start, as `Left` of session 0, until space is reserved.
    entries: Vec<Record>,
    gone: usize,
    keep: Option<usize>,
    folded: u64,
}

impl Model for Book {
    ghost use Rattle.std.specs.Prelude.{◌≤◌, ◌<◌, ◌-◌, ◌+◌, drop, length, vec_len};
    ghost use Rattle.std.specs.Option.{IfSome};
    ghost use Rattle.std.specs.Vec.{vec_capacity};
    ghost use Rattle.sf_book.specs.Books.{BookView};

    ghost Value = { BookView };

    ghost view = { λ b. record {
      records = drop b.gone b.entries.items;
      room = vec_capacity b.entries - vec_len b.entries;
      keep = b.keep;
      folded = b.folded;
    } };

    ghost invariant = { λ b. (b.gone ≤ length b.entries.items)
        × IfSome b.keep (λ n. (0 < n) × (length b.entries.items ≤ b.gone + n)) };
}

impl Book {
    /// An empty book without reserved space, which retains all records.
    pub fn new(alloc: Global) -> Book
        ensures records { result.records ≡ [] }
        ensures keep { result.keep ≡ None }
        ensures folded { result.folded ≡ 0 }
    {
        Book {
            entries: Vec::new(alloc),
            gone: 0,
            keep: None,
            folded: 0,
        }
    }

    /// An empty book without reserved space, which retains the last `n` records.
    pub fn with_keep(alloc: Global, n: usize) -> Book
        requires { 0 < n }
        ensures records { result.records ≡ [] }
        ensures keep { result.keep ≡ Some n }
        ensures folded { result.folded ≡ 0 }
    {
        Book {
            entries: Vec::new(alloc),
            gone: 0,
            keep: Some(n),
            folded: 0,
        }
    }

    /// The number of records that can be added without allocation.
    pub fn room(&self) -> usize
        ensures { result ≡ self.now.room }
    {
        self.entries.capacity() - self.entries.len()
    }

    /// Reserves space for `n` records. If there is less, it first frees the slots of dropped
    /// records. Then it also asks for as much as the retained ones use, or three times that for a
    /// limited book, so that it allocates seldom.
    pub fn reserve(&mut self, n: usize) -> Result<(), AllocError>
        ensures records { self.new ≡ record self.old { room = self.new.room } }
        ensures ok { OnOk result (n ≤ self.new.room) }
        ensures room { self.old.room ≤ self.new.room }
        ensures enough { n ≤ self.old.room → IsOk result }
    {
        if self.room() >= n {
            return Ok(());
        }
        self.close_up();
        let kept = self.entries.len();
        let times = if self.keep.is_some() { 3 } else { 1 };
        let more = n.saturating_add(kept.saturating_mul(times));
        if self.entries.reserve(more).is_ok() {
            return Ok(());
        }
        self.entries.reserve(n)
    }

    /// Frees the slots of the dropped records.
    fn close_up(&mut self)
        ensures same { self.new ≡ record self.old { room = self.new.room } }
        ensures room { self.old.room ≤ self.new.room }
    {
        let left = self.entries.len() - self.gone;
        move_to_front(&mut self.entries, self.gone);
        self.entries.truncate(left);
        self.gone = 0;
    }

    /// Adds a record at the end, and drops the oldest if more would be retained than wanted.
    /// Allocates nothing.
    pub fn put(&mut self, entry: Record)
        requires { 0 < self.old.room }
        ensures { self.new ≡ put self.old entry }
    {
        if self.keep == Some(self.records().len()) {
            self.forget_oldest();
        }
        self.entries.push_reserved(entry);
    }

    /// Drops the oldest record.
    fn forget_oldest(&mut self)
        requires { 0 < length self.old.records }
        ensures records { self.new.records ≡ drop 1 self.old.records }
        ensures folded { self.new.folded
            ≡ min (self.old.folded + count_by is_call (take 1 self.old.records)) (2 ^ 64 - 1) }
        ensures room { self.new.room ≡ self.old.room }
        ensures keep { self.new.keep ≡ self.old.keep }
    {
        let told = call_count(&self.entries[self.gone]);
        self.entries[self.gone] = Record::Left { session: 0 };
        self.folded = self.folded.saturating_add(told);
        self.gone += 1;
    }

    /// The retained records, oldest first.
    pub fn records(&self) -> &[Record]
        ensures { result.now ≡ self.now.records }
    {
        &self.entries[self.gone..]
    }

    /// The number of calls whose records were dropped, up to 2^64 - 1.
    pub fn folded(&self) -> u64
        ensures { result ≡ self.now.folded }
    {
        self.folded
    }
}

/// Moves the entries from an index on to the start. The others follow in any order.
fn move_to_front(entries: &mut [Record], gone: usize)
    requires { gone ≤ length entries.old }
    ensures front { take (length entries.old - gone) entries.new ≡ drop gone entries.old }
    ensures len { length entries.new ≡ length entries.old }
{
    for i in 0..entries.len() - gone {
        entries.swap(i, gone + i);
    }
}

/// The number of calls of a dropped record: 1, or 0 for the end of a session.
fn call_count(gone: &Record) -> u64
    ensures { result ≡ count_by is_call (gone.now ∷ []) }
{
    match gone {
        Record::Did { .. } => 1,
        Record::Left { .. } => 0,
    }
}
