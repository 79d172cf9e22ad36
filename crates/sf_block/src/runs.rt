//! Runs of blocks in one buffer each.

ghost use Rattle.std.specs.Prelude.{◌≡◌, ◌⊎◌, ◌<◌, ◌≤◌, ◌+◌, ◌^◌, ℕ, List, length, Some, None, IsSome, IfOk, IfSome, IfNone, OnOk, OnErr};
ghost use Rattle.std.specs.Option.{option_copied};
ghost use Rattle.sf_block.specs.Blocks.{run_in, entry_in, IsNoted};

use crate::RUN;
use crate::copies::copy_of;
use sf_field::ByteString;
use std::alloc::{AllocError, Global};
use std::collections::BTreeMap;
use std::marker::Model;

/// Runs of eight blocks by number, each in one buffer that its blocks share, so that a reader can
/// share it too. A run may be missing.
#[derive(Debug, Drop)]
pub(crate) struct Runs {
    map: BTreeMap<u64, ByteString>,
}

impl Model for Runs {
    ghost use Rattle.std.specs.Prelude.{ℕ, List};

    ghost Value = { List (ℕ × List ℕ) };

    ghost view = { λ runs. runs.map.entries };
}

impl Runs {
    /// No runs. Allocates nothing.
    pub(crate) fn new(alloc: Global) -> Runs
        ensures { (k : ℕ) → run_in result k ≡ None }
    {
        Runs {
            map: BTreeMap::new(alloc),
        }
    }

    /// A copy that shares the bytes.
    pub(crate) fn try_copy(&self, alloc: Global) -> Result<Runs, AllocError>
        ensures { IfOk result (λ copy. copy ≡ self.now) }
    {
        Ok(Runs {
            map: copy_of(alloc, &self.map)?,
        })
    }

    /// The bytes of the run with this number, if any.
    pub(crate) fn get(&self, number: u64) -> Option<&ByteString>
        ensures { option_copied result ≡ run_in self.now number }
    {
        match self.map.get(&number) {
            Some(run) if !run.is_empty() => Some(run),
            _ => None,
        }
    }

    /// Removes the runs in a range of numbers.
    fn forget(&mut self, first: u64, end: u64)
        ensures gone { (k : ℕ) → first ≤ k → k < end → run_in self.new k ≡ None }
        ensures kept { (k : ℕ) (run : List ℕ) → run_in self.new k ≡ Some run
            → run_in self.old k ≡ Some run }
    {
        for number in first..end {
            self.take_out(number);
        }
    }

    fn take_out(&mut self, number: u64)
        ensures gone { run_in self.new number ≡ None }
        ensures still { (k : ℕ) → run_in self.old k ≡ None → run_in self.new k ≡ None }
        ensures kept { (k : ℕ) (run : List ℕ) → run_in self.new k ≡ Some run
            → run_in self.old k ≡ Some run }
    {
        self.map.remove(&number);
    }

    /// Makes an empty place for each run in a range of numbers.
    fn make_places(&mut self, first: u64, end: u64) -> Result<(), AllocError>
        ensures { (k : ℕ) (run : List ℕ) → run_in self.new k ≡ Some run
            → run_in self.old k ≡ Some run }
    {
        for number in first..end {
            self.make_place(number)?;
        }
        Ok(())
    }

    fn make_place(&mut self, number: u64) -> Result<(), AllocError>
        ensures { (k : ℕ) (run : List ℕ) → run_in self.new k ≡ Some run
            → run_in self.old k ≡ Some run }
    {
        self.map.insert(number, ByteString::new())?;
        Ok(())
    }

    /// Puts a run in its place, if that exists. Allocates nothing.
    pub(crate) fn put(&mut self, number: u64, run: ByteString)
        ensures { (k : ℕ) (other : List ℕ) → run_in self.new k ≡ Some other
            → ((k ≡ number) × (other ≡ run)) ⊎ (run_in self.old k ≡ Some other) }
    {
        if let Some(place) = self.map.get_mut(&number) {
            *place = run;
        }
    }

    /// Prepares for a write: removes the runs that it touches, and makes places for those that it
    /// covers. If the bytes are exactly one run, it is inserted.
    pub(crate) fn note(&mut self, offset: u64, bytes: &ByteString) -> Result<(), AllocError>
        requires some { 0 < length bytes.now }
        requires fits { offset + length bytes.now < 2 ^ 64 }
        ensures ok { OnOk result ((k : ℕ) (run : List ℕ) → run_in self.new k ≡ Some run
            → IsNoted self.old offset bytes.now k run) }
        ensures err { OnErr result ((k : ℕ) (run : List ℕ) → run_in self.new k ≡ Some run
            → run_in self.old k ≡ Some run) }
    {
        let end = offset + bytes.len() as u64;
        self.forget(offset / RUN, (end - 1) / RUN + 1);
        self.make_places(offset.div_ceil(RUN), end / RUN)?;
        if offset % RUN == 0 && bytes.len() as u64 == RUN {
            if let Ok(run) = bytes.share() {
                self.put(offset / RUN, run);
            }
        }
        Ok(())
    }

    /// Removes the runs from a number on.
    pub(crate) fn cut(&mut self, end: u64)
        ensures { (k : ℕ) (run : List ℕ) → run_in self.new k ≡ Some run
            → (k < end) × (run_in self.old k ≡ Some run) }
    {
        while let Some(last) = self.last() {
            if last < end {
                return;
            }
            self.map.pop_last();
        }
    }

    /// The greatest run number.
    fn last(&self) -> Option<u64>
        ensures there { IfSome result (λ number. IsSome (entry_in self.now number)) }
        ensures greatest { IfSome result (λ number. (k : ℕ) → number < k
            → entry_in self.now k ≡ None) }
        ensures none { IfNone result ((k : ℕ) → entry_in self.now k ≡ None) }
    {
        match self.map.last_key_value() {
            Some((number, _)) => Some(*number),
            None => None,
        }
    }
}
