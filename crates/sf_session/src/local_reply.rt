//! Replies that need no file-system call.

ghost use Rattle.std.specs.Prelude.{◌≡◌, ◌≤◌, ◌++◌, length, OnOk, OnErr};
ghost use Rattle.sf_field.specs.Fields.{packet, max_body};
ghost use Rattle.sf_session.specs.Limits.{limits_body, local_body};

use bytes::BytesMut;
use sf_reply::{Reply, write_reply};
use std::alloc::AllocError;

/// The type `SSH_FXP_EXTENDED_REPLY`.
const EXTENDED: u8 = 201;

/// A reply that needs no file-system call.
#[derive(Debug, Drop)]
pub enum LocalReply {
    /// A status, or the one name of REALPATH.
    Plain(Reply),
    /// To `limits@openssh.com`.
    Limits,
}

/// Appends the reply's packet, or nothing on error.
pub(crate) fn write_local(id: u32, reply: &LocalReply, out: &mut BytesMut) -> Result<(), AllocError>
    requires { length (local_body id reply.now) ≤ max_body }
    ensures ok { OnOk result (out.new.items ≡ out.old.items ++ packet (local_body id reply.now)) }
    ensures err { OnErr result (out.new.items ≡ out.old.items) }
{
    match reply {
        LocalReply::Plain(reply) => write_reply(id, reply, out),
        LocalReply::Limits => write_limits(id, out),
    }
}

fn write_limits(id: u32, out: &mut BytesMut) -> Result<(), AllocError>
    ensures ok { OnOk result (out.new.items ≡ out.old.items ++ packet (limits_body id)) }
    ensures err { OnErr result (out.new.items ≡ out.old.items) }
{
    out.extend_from_slice(&limits_packet(id))
}

/// The four limits, in 8 bytes each.
fn limits_packet(id: u32) -> [u8; 41]
    ensures { result ≡ packet (limits_body id) }
{
    let i = id.to_be_bytes();
    [
        0, 0, 0, 37, EXTENDED, i[0], i[1], i[2], i[3], 0, 0, 0, 0, 0, 4, 0, 0, 0, 0, 0, 0, 0, 3,
        252, 0, 0, 0, 0, 0, 0, 3, 252, 0, 0, 0, 0, 0, 0, 0, 0, 128,
    ]
}
