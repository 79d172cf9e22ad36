//! Laws of replies, stated as contracts of empty functions.

ghost use Rattle.std.specs.Prelude.{◌≡◌, ℕ, ◌+◌, ◌≤◌, ◌<◌, ◌^◌, List, [], ◌∷◌, length, Some};
ghost use Rattle.std.specs.List.{flat_map};
ghost use Rattle.sf_field.specs.declared.attrs.Attrs.{Attrs};
ghost use Rattle.sf_field.specs.Attributes.{AttrsFit, attrs_text, no_attrs};
ghost use Rattle.sf_field.specs.Fields.{packet};
ghost use Rattle.sf_reply.specs.declared.reply.Entry.{Entry};
ghost use Rattle.sf_reply.specs.declared.reply.Reply.{Reply};
ghost use Rattle.sf_reply.specs.declared.reply.Reply.TheVariants.{Names};
ghost use Rattle.sf_reply.specs.Longname.{longname_text};
ghost use Rattle.sf_reply.specs.Reading.{IsReply};
ghost use Rattle.sf_reply.specs.Replies.{reply_body, entry_text, IsPlain, ReplyFits};

use crate::reply::MAX_PLAIN_REPLY;

/// Encoding is injective: replies with different ids or contents have different bytes.
pub fn one_reply()
    ensures { (id other_id : ℕ) (reply other : Reply) → id < 2 ^ 32 → other_id < 2 ^ 32
        → ReplyFits reply → ReplyFits other
        → reply_body id reply ≡ reply_body other_id other → (id ≡ other_id) × (reply ≡ other) }
{}

/// The lengths of reply packets, in bytes.
pub fn reply_lengths()
    ensures plain { (id : ℕ) (reply : Reply) → IsPlain reply
        → length (packet (reply_body id reply)) ≤ MAX_PLAIN_REPLY }
    ensures entry { (e : Entry)
        → length (entry_text e)
        ≡ 8 + length e.filename + length e.longname + length (attrs_text e.attrs) }
    ensures names { (id : ℕ) (es : List Entry)
        → length (packet (reply_body id (Names es))) ≡ 13 + length (flat_map entry_text es) }
    ensures attrs { (attrs : Attrs) → length (attrs_text attrs) ≤ 32 }
    // The length field, the type, the id, the count, the two names and the flags.
    ensures one_name { (id : ℕ) (e : Entry) → e.attrs ≡ no_attrs
        → length (packet (reply_body id (Names (e ∷ []))))
        ≡ 4 + 1 + 4 + 4 + (4 + length e.filename) + (4 + length e.longname) + 4 }
{}

/// The length of a listing line, in bytes.
pub fn longname_lengths()
    // Ten letters, six spaces, and numbers in 20, 10, 10, 20 and 12 bytes.
    ensures { (attrs : Attrs) (links : ℕ) (name line : List ℕ) → AttrsFit attrs → links < 2 ^ 64
        → longname_text attrs links name ≡ Some line
        → length line ≤ 10 + 6 + (20 + 10 + 10 + 20 + 12) + length name }
{}

/// The body that is sent for a reply decodes to that reply and to no other.
pub fn sent_replies()
    ensures spelled { (id : ℕ) (reply : Reply) → id < 2 ^ 32 → ReplyFits reply
        → IsReply (reply_body id reply) id reply }
    ensures only { (body : List ℕ) (id other_id : ℕ) (reply other : Reply) → IsReply body id reply
        → IsReply body other_id other
        → (id ≡ other_id) × (reply ≡ other) }
{}
