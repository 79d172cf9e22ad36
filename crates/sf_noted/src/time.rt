//! Real-time order, as a law for readers.

ghost use Rattle.std.specs.Prelude.{ℕ, List};
ghost use Rattle.sf_call.specs.declared.record.Record.{Record};
ghost use Rattle.sf_call.specs.Histories.{IsNewNumber};
ghost use Rattle.sf_roll.specs.Seen.{IsPrefixOf};
ghost use Rattle.sf_audit.specs.Audits.{CallRecord, call_records, IsIn};
ghost use Rattle.sf_noted.specs.Seen.{Precedes};

/// Law: let a call be in a token's prefix, and let that prefix reach, from token to token, whoever
/// begins a second call. Then the first call precedes the second in the history.
pub fn in_real_time()
    ensures { (history earlier seen : List Record) → IsPrefixOf earlier seen
        → IsPrefixOf seen history → (s t : ℕ) (first second : CallRecord) → IsIn (call_records s earlier) first
        → IsNewNumber second.number seen → IsIn (call_records t history) second
        → Precedes history (s, first) (t, second) }
{}
