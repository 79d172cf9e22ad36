//! Laws of histories.

ghost use Rattle.std.specs.Prelude.{◌≡◌, List};
ghost use Rattle.sf_call.specs.declared.record.Record.{Record};
ghost use Rattle.sf_call.specs.Histories.{IsLegal};
ghost use Rattle.sf_laws.specs.SameCalls.{calls_asked, AllHadMemory};

/// Determinism: two legal histories of the same calls, without allocation failures, are equal,
/// replies included.
pub fn equal_replies()
    ensures { (history other : List Record) → IsLegal history → IsLegal other → AllHadMemory history
        → AllHadMemory other
        → calls_asked history ≡ calls_asked other → history ≡ other }
{}
