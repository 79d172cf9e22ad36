//! The call counts of a core.

ghost use Rattle.std.specs.Prelude.{◌≡◌, ◌+◌, ◌≤◌, List};
ghost use Rattle.std.specs.List.{count_by};
ghost use Rattle.sf_call.specs.declared.record.Record.{Record};
ghost use Rattle.sf_book.specs.Books.{is_call};
ghost use Rattle.sf_core.specs.Histories.{IsHistory};

use sf_call::Record;
use sf_core::Core;

/// The number of calls of a core.
#[derive(Clone, Copy, Debug, PartialEq, Eq)]
pub struct Totals {
    /// Calls with a record, whether or not it is retained.
    pub recorded: u64,
    /// Calls without a record yet.
    pub under_way: u64,
}

/// Whether the record is of a call.
fn is_of_call(entry: &Record) -> bool
    ensures { result ≡ is_call entry.now }
{
    matches!(entry, Record::Did { .. })
}

/// The number of records of calls.
fn call_count(records: &[Record]) -> usize
    ensures { result ≡ count_by is_call records.now }
{
    let mut count = 0;
    for entry in records {
        if is_of_call(entry) {
            count += 1;
        }
    }
    count
}

/// The number of calls with a record, whether or not it is retained.
fn recorded(core: &Core, calls: u64) -> u64
    requires { calls ≡ core.now.drawn }
    ensures all { (h : List Record) → IsHistory core.now h → result ≡ count_by is_call h }
    ensures most { result ≤ calls }
{
    let kept = call_count(core.history());
    core.folded() + kept as u64
}

impl Totals {
    /// Counts the calls of a core.
    pub fn of(core: &Core) -> Totals
        ensures recorded { (h : List Record) → IsHistory core.now h
            → result.recorded ≡ count_by is_call h }
        ensures total { result.recorded + result.under_way ≡ core.now.drawn }
    {
        let calls = core.calls();
        let recorded = recorded(core, calls);
        Totals {
            recorded,
            under_way: calls - recorded,
        }
    }
}
