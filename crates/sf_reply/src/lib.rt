//! Encoding and decoding of SFTP version 3 replies.
//!
//! Start with `specs/Replies.antt`, the one encoding of each reply (`reply_body`, `version_body`).
//! `write_reply` and `write_version` append a whole packet or nothing. `find_reply` decodes a body
//! without allocating, and `read_reply` copies the result. Both accept a body exactly if it is the
//! encoding of a reply. `longname` formats a line of a listing (`specs/Longname.antt`). The laws in
//! `reply_laws.rt` state that encodings are unique, and the lengths of packets.
#![tactic(auto)]

mod long_names;
mod reading;
mod reply;
mod reply_laws;
mod replying;

pub use long_names::longname;
pub use reading::{FoundReply, find_reply, is_version, read_reply};
pub use reply::{Entry, Listing, MAX_PLAIN_REPLY, Reply, StatusCode};
pub use reply_laws::{longname_lengths, one_reply, reply_lengths, sent_replies};
pub use replying::{write_reply, write_version};
