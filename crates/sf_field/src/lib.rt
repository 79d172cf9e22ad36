//! Encoding and decoding of the fields of SFTP version 3 packets.
//!
//! Start with `specs/Fields.antt` and `specs/Attributes.antt`: the encodings of numbers, strings
//! and attributes. `fields.rt` decodes them (`u32_at`, `bytes_at`, `attrs_of`) as specified in
//! `specs/Reading.antt`. `writing.rt` encodes them: `put_..` into reserved capacity, `write_..`
//! with allocation if needed. `field_laws.rt` states that decoding inverts encoding and the
//! converse. `operation.rt` has the operations of requests. `proofs/Laws.antt` exports proofs to dependent crates.
#![tactic(auto)]

/// The maximum length of a packet's body, in bytes. The draft sets no limit.
pub const MAX_BODY: usize = 262144;

mod attrs;
mod byte_buffer;
mod byte_string;
mod field_laws;
mod fields;
mod open_flags;
mod operation;
mod writing;

pub use attrs::{Attrs, NO_ATTRS, Owner, Times};
pub use byte_buffer::ByteBuffer;
pub use byte_string::ByteString;
pub use field_laws::{bits_say_flags, field_is_read, read_field_is_there, sent_is_spelled};
pub use fields::{attrs_of, bytes_at, sent_attrs_of, u32_at, u64_at};
pub use open_flags::OpenFlags;
pub use operation::{HandleOp, PairOp, PathOp};
pub use writing::{
    attrs_len, put_attrs, put_string, put_u32, put_u64, write_attrs, write_string, write_u32,
    write_u64,
};
