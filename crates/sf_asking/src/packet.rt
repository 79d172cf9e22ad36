//! Reading a reply's packet.

ghost use Rattle.std.specs.Prelude.{◌≡◌, ◌<◌, ◌^◌, ℕ, List, length, IfOk, IfErr, IfSome, IfNone};
ghost use Rattle.sf_field.specs.Fields.{packet};
ghost use Rattle.sf_reply.specs.Replies.{reply_body};
ghost use Rattle.sf_trees.specs.Lengths.{id};
ghost use Rattle.sf_asking.specs.Asking.{MayMissReply};

use sf_field::bytes_at;
use sf_reply::{Reply, read_reply};
use sf_trees::TreeFault;
use std::alloc::Global;

/// The id of each request; only one is pending at a time.
pub(crate) const ID: u32 = 1;

/// The body of these bytes, if they are one packet.
fn body_of(bytes: &[u8]) -> Option<&[u8]>
    ensures some { IfSome result (λ body. (bytes.now ≡ packet body.now)
        × (length body.now < 2 ^ 32)) }
    ensures none { IfNone result ((body : List ℕ) → length body < 2 ^ 32 → bytes.now ≡ packet body
        → ⊥) }
{
    let (body, rest) = bytes_at(bytes)?;
    if rest.is_empty() { Some(body) } else { None }
}

/// The reply in these bytes, if they are exactly its packet.
pub(crate) fn read_packet(alloc: Global, output: &[u8]) -> Result<Reply, TreeFault>
    ensures ok { IfOk result (λ r. output.now ≡ packet (reply_body id r)) }
    ensures err { IfErr result (MayMissReply output.now) }
{
    let Some(body) = body_of(output) else {
        return Err(TreeFault::Reply);
    };
    match read_reply(alloc, body) {
        Ok(Some((found, reply))) => {
            if found == ID {
                return Ok(reply);
            }
            Err(TreeFault::Reply)
        }
        Ok(None) => Err(TreeFault::Reply),
        Err(_) => Err(TreeFault::OutOfMemory),
    }
}
