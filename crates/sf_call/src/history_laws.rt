//! Laws of histories, for proofs in other crates.

ghost use Rattle.std.specs.Prelude.{◌≡◌, ◌≢◌, ◌<◌, ◌≤◌, ℕ, true, false, List, [], ◌∷◌, ◌++◌, length, Some, None, IsSome};
ghost use Rattle.sf_field.specs.Fields.{packet};
ghost use Rattle.sf_reply.specs.declared.reply.Reply.{Reply};
ghost use Rattle.sf_call.specs.declared.request.Request.{Request};
ghost use Rattle.sf_call.specs.declared.record.Record.{Record};
ghost use Rattle.sf_call.specs.declared.record.Record.TheVariants.{Did};
ghost use Rattle.sf_path.specs.Names.{Path};
ghost use Rattle.sf_call.specs.Tree.{label_at, object_of, handle_of, links, is_directory, is_faulty_way};
ghost use Rattle.sf_call.specs.Changes.{Change, done};
ghost use Rattle.sf_call.specs.Calls.{answer_to};
ghost use Rattle.sf_reply.specs.Replies.{ReplyFits, reply_body};
ghost use Rattle.sf_call.specs.Allowed.{AreAllowed, IsWellFormed};
ghost use Rattle.sf_call.specs.Histories.{after, replay, IsNewNumber, IsLegal, MayFollow, IsAmong, IsGiven, record_of};
ghost use Rattle.sf_call.specs.ReplyKinds.{longest_packet};

/// A history extended by one record.
pub fn one_record_more()
    ensures replayed { (history : List Record) (r : Record)
        → replay (history ++ r ∷ []) ≡ after (replay history) r }
    ensures legal { (history : List Record) (r : Record) → IsLegal history → MayFollow history r
        → IsLegal (history ++ r ∷ []) }
{}

/// Each reply in a legal history follows from a legal history before it.
pub fn given_by_history()
    ensures { (number session moment : ℕ) (request : Request) (reply : Reply)
        (history : List Record)
        → IsLegal history → IsAmong (Did number session moment request reply) history
        → IsGiven number session reply }
{}

/// In a legal history a call's number identifies its record.
pub fn found_by_number()
    ensures { (number session moment : ℕ) (request : Request) (reply : Reply)
        (history : List Record)
        → IsLegal history → IsAmong (Did number session moment request reply) history
        → record_of number history ≡ Some (Did number session moment request reply) }
{}

/// After a legal history no path, object or handle has the number of a future call. A directory has
/// at most one path, and a file at most 1024.
pub fn labels_of_paths()
    ensures unused { (history : List Record) (number : ℕ) (path : Path) → IsLegal history
        → 0 < number → IsNewNumber number history
        → label_at (replay history).names path ≢ Some number }
    ensures no_object { (history : List Record) (number : ℕ) → IsLegal history → 0 < number
        → IsNewNumber number history → object_of (replay history).objects number ≡ None }
    ensures no_handle { (history : List Record) (number : ℕ) → IsLegal history → 0 < number
        → IsNewNumber number history → handle_of (replay history).handles number ≡ None }
    ensures one_path { (history : List Record) (path other : Path) (label : ℕ) → IsLegal history
        → is_directory (replay history) path ≡ true
        → label_at (replay history).names path ≡ Some label
        → label_at (replay history).names other ≡ Some label → path ≡ other }
    ensures few_paths { (history : List Record) (label : ℕ) → IsLegal history
        → links (replay history).names label ≤ 1024 }
{}

/// After a legal history each path resolves over directories to an object.
pub fn ways_of_paths()
    ensures object { (history : List Record) (path : Path) (label : ℕ) → IsLegal history
        → label_at (replay history).names path ≡ Some label
        → IsSome (object_of (replay history).objects label) }
    ensures way { (history : List Record) (path : Path) (label : ℕ) → IsLegal history
        → label_at (replay history).names path ≡ Some label
        → is_faulty_way (replay history) path ≡ false }
{}

/// The changes of a request are allowed after each legal history, and allowed changes keep the tree
/// well formed.
pub fn allowed_changes()
    ensures request { (history : List Record) (number session moment : ℕ) (request : Request)
        → IsLegal history → 0 < number → IsNewNumber number history
        → AreAllowed number (replay history)
        (answer_to (replay history) session number moment request).changes }
    ensures kept { (history : List Record) (number : ℕ) (changes : List Change) → IsLegal history
        → AreAllowed number (replay history) changes
        → IsWellFormed (done (replay history) changes) }
{}

/// Each reply after a legal history has a packet of at most 261,133 bytes, and its numbers and
/// strings fit their encodings.
pub fn replies_fit()
    ensures packet { (number session id : ℕ) (reply : Reply) → IsGiven number session reply
        → length (packet (reply_body id reply)) ≤ longest_packet }
    ensures spelled { (number session : ℕ) (reply : Reply) → IsGiven number session reply
        → ReplyFits reply }
{}
