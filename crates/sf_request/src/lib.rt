//! Decoding and encoding of SFTP version 3 requests.
//!
//! Start with the grammar in `specs/Requests.antt`: `Asks` relates a body to the request that it
//! encodes, and `SpellsFields` defines the encoding of each request's fields. `read_request`
//! decodes exactly this grammar and allocates nothing: a `WireRequest` borrows its strings from the
//! body. `specs/Reading.antt` is the same decoder as a definition, for proofs. `write_request`
//! encodes a client's requests. The laws in `request_laws.rt` state that a body encodes one
//! request, and that decoding inverts encoding.
#![tactic(auto)]

mod byte_str;
mod reading;
mod request;
mod request_laws;
mod requesting;

pub use byte_str::ByteStr;
pub use reading::read_request;
pub use request::{Asked, WireRequest};
pub use request_laws::{one_question, sent_requests};
pub use requesting::{close_packet, init_packet, write_request};
