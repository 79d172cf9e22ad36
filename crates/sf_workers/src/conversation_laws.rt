//! A law of conversations, which no call needs.

ghost use Rattle.std.specs.Prelude.{ℕ, List};
ghost use Rattle.sf_engine.specs.Promise.{Entry, linearization, of_session, IsKnown, IsUnsent, IsKept};
ghost use Rattle.sf_session.specs.Conversation.{IsConversation};
ghost use Rattle.sf_workers.specs.Conversations.{IsConversationIn};

/// An engine's promise implies, for each session, the promise of the threaded server: its input and
/// its output are a conversation in the history. The promise for a session alone implies the same.
pub fn one_promise()
    ensures engine { (log : List Entry) → IsKept log → (session : ℕ) → IsKnown log session
        → (output : List ℕ) → (unsent : IsUnsent (of_session session log).wrote
        (of_session session log).sent output)
        → IsConversationIn (linearization log) session (of_session session log).fed unsent.sent }
    ensures alone { (input moments output : List ℕ) → (talk : IsConversation input moments output)
        → IsConversationIn talk.history talk.session input output }
{}
