//! Laws of journals, which no method needs.

ghost use Rattle.std.specs.Prelude.{◌≡◌, ◌++◌, ℕ, List, [], map};
ghost use Rattle.sf_session.specs.Responses.{transcript};
ghost use Rattle.sf_engine.specs.Promise.{Entry, of_session};
ghost use Rattle.sf_refusing.specs.declared.refusals.Refusals.{Refusals};
ghost use Rattle.sf_refusing.specs.Journal.{Act, Apart, log_of, rules_in, sent_in, taken_in};
ghost use Rattle.sf_refusing.specs.Refusing.{HasJournal, IsOwn};

/// Without a rule, a session is sent exactly the engine's output, and the engine is fed all
/// received bytes that aren't buffered.
pub fn without_rules()
    ensures { (refusals : Refusals) (journal : List Act) → HasJournal refusals journal
        → rules_in journal ≡ [] → (session : ℕ) → IsOwn session journal
        → (sent_in session journal ≡ transcript (of_session session (log_of journal)).wrote)
        × (taken_in session journal ≡ (of_session session (log_of journal)).fed) }
{}

/// Events may be made on the engine directly, and refusals keep their journal. After an event that
/// feeds a session or removes its output, nothing is promised of that session. Any other event,
/// such as opening or closing a session, preserves all promises.
pub fn events_apart()
    ensures { (refusals : Refusals) (journal : List Act) (entries : List Entry)
        → HasJournal refusals journal → HasJournal refusals (journal ++ map Apart entries) }
{}
