//! Reading whole packets from a transport.

ghost use Rattle.std.specs.Prelude.{◌≡◌, ◌<◌, ◌≤◌, ℕ, List, ◌++◌, length, take, true, false, OnErr, IfOk, IfSome, IfNone, MatchOption};
ghost use Rattle.std.specs.Io.KnownBytes.{Consumes};
ghost use Rattle.sf_line.specs.Lines.{Rose};
ghost use Rattle.sf_field.specs.Fields.{be32, packet};
ghost use Rattle.sf_client.specs.Packets.{RunsOut, HasNoPacket};

use sf_field::MAX_BODY;
use sf_line::{Line, LineFault};

/// Fills the buffer. It returns `false` if the input ends before it is full.
fn fill<L: Line>(line: &mut L, buffer: &mut [u8]) -> Result<bool, LineFault>
    ensures full { IfOk result (λ full. full ≡ true
        → Consumes (L.incoming line.old) (L.incoming line.new) buffer.new) }
    ensures short { IfOk result (λ full. full ≡ false
        → RunsOut (L.incoming line.old) (length buffer.new)) }
    ensures outgoing { L.outgoing line.new ≡ L.outgoing line.old }
    ensures failures { L.failed line.old ≤ L.failed line.new }
    ensures fault { OnErr result (Rose (L.failed line.old) (L.failed line.new)) }
{
    let mut filled = 0;
    while filled < buffer.len() {
        let n = line.read(&mut buffer[filled..])?;
        if n == 0 {
            return Ok(false);
        }
        filled += n;
    }
    Ok(true)
}

/// The length of a body by its length field, if it is valid.
fn body_len(header: &[u8; 4]) -> Option<usize>
    ensures some { IfSome result (λ n. (0 < n) × (n ≤ MAX_BODY) × (header.now ≡ be32 n)) }
    ensures none { IfNone result ((n : ℕ) → 0 < n → n ≤ MAX_BODY → header.now ≡ be32 n → ⊥) }
{
    let len = u32::from_be_bytes(*header) as usize;
    if len == 0 || len > MAX_BODY {
        return None;
    }
    Some(len)
}

/// Reads one packet and stores its body as a prefix of the buffer. It returns the body's length, or
/// `None` if the input doesn't begin with a packet.
pub(crate) fn read_packet<L: Line>(
    line: &mut L,
    buffer: &mut [u8],
) -> Result<Option<usize>, LineFault>
    requires { length buffer.old ≡ MAX_BODY }
    ensures within { IfOk result (λ found. IfSome found (λ n. n ≤ length buffer.new)) }
    ensures read { IfOk result (λ found. IfSome found
        (λ n. Consumes (L.incoming line.old) (L.incoming line.new) (packet (take n buffer.new)))) }
    ensures none { IfOk result (λ found. IfNone found (HasNoPacket (L.incoming line.old))) }
    ensures outgoing { L.outgoing line.new ≡ L.outgoing line.old }
    ensures failures { L.failed line.old ≤ L.failed line.new }
    ensures fault { OnErr result (Rose (L.failed line.old) (L.failed line.new)) }
{
    let mut header = [0u8; 4];
    if !fill(line, &mut header)? {
        return Ok(None);
    }
    let Some(len) = body_len(&header) else {
        return Ok(None);
    };
    if !fill(line, &mut buffer[..len])? {
        return Ok(None);
    }
    Ok(Some(len))
}
