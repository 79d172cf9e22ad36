//! Laws of logs.

ghost use Rattle.std.specs.Prelude.{◌≡◌, ℕ, List, Vec, map};
ghost use Rattle.std.specs.List.{AllByRecursion};
ghost use Rattle.std.specs.Global.{Global};
ghost use Rattle.sf_engine.specs.Promise.{Entry, event_of, result_of, added_by, IsKept, AreNeverAllBlocked, IsOfBytes};
ghost use Rattle.sf_engine.specs.Wrong.{init_packet, shared_record, unsent_request, other_reply, idle_turn, endless_call, blocked_calls, early_refusal};

/// Wrong logs (`specs/Wrong.antt`), each for one reason: one record for two requests, a record of a
/// request that no client sent, a reply that differs from the record's, an idle turn while a whole
/// packet is not read yet, a call that moves too often, calls that block each other, and a session
/// that may not open although none is present.
pub fn wrong_logs()
    ensures shared { (bytes : Vec ℕ Global) → IsKept (shared_record bytes) → ⊥ }
    ensures unsent { (bytes : Vec ℕ Global) → IsKept (unsent_request bytes) → ⊥ }
    ensures other { (bytes : Vec ℕ Global) → IsKept (other_reply bytes) → ⊥ }
    ensures idle { (bytes : Vec ℕ Global) → bytes.items ≡ init_packet
        → IsKept (idle_turn bytes) → ⊥ }
    ensures endless { (bytes : Vec ℕ Global) → IsKept (endless_call bytes) → ⊥ }
    ensures blocked { AreNeverAllBlocked blocked_calls → ⊥ }
    ensures refused { IsKept early_refusal → ⊥ }
{}

/// Two kept logs are equal if their events, results and records are. So replies depend on nothing
/// else.
pub fn determinism()
    ensures { (log log' : List Entry) → IsKept log → IsKept log' → AllByRecursion IsOfBytes log
        → map event_of log ≡ map event_of log' → map result_of log ≡ map result_of log'
        → map added_by log ≡ map added_by log' → log ≡ log' }
{}
