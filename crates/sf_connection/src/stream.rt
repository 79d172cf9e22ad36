//! Non-blocking byte streams.

ghost use Rattle.std.specs.Prelude.{◌≡◌, ◌<◌, ◌≤◌, ℕ, length, take, IfOk, OnErr, IfSome, IfNone};
ghost use Rattle.std.specs.Io.KnownBytes.{Consumes, Appends, Keeps, IsAtEnd};
ghost use Rattle.sf_line.specs.Lines.{Rose};
ghost use Rattle.sf_connection.specs.Streams.{StreamView, WaitsView, no_waits};

use sf_line::LineFault;

/// A byte stream whose operations never block. One that exposes its bytes does so for its lifetime.
pub trait Stream {
    /// The input not yet read and the output so far, if exposed, and the number of errors.
    ghost view: { Self → StreamView };

    /// A read would block.
    ghost reads_block: { Self → Type 0 } = { λ _. Unit {0} };

    /// A write would block.
    ghost writes_block: { Self → Type 0 } = { λ _. Unit {0} };

    /// The waits for it.
    ghost waits: { Self → WaitsView } = { λ _. no_waits };

    /// Reads some bytes into a prefix of the buffer. It returns `None` if it would block, and 0
    /// only at the end of input or for an empty buffer. On an error nothing was read.
    fn try_read(&mut self, buffer: &mut [u8]) -> Result<Option<usize>, LineFault>
        ensures within { IfOk result (λ read. IfSome read (λ n. n ≤ length buffer.new)) }
        ensures taken { IfOk result (λ read. IfSome read (λ n.
            Consumes (view self.old).incoming (view self.new).incoming (take n buffer.new))) }
        ensures ended { IfOk result (λ read. IfSome read (λ n. n ≡ 0 → 0 < length buffer.new
            → IsAtEnd (view self.new).incoming)) }
        ensures blocks { IfOk result (λ read. IfNone read
            (reads_block self.new × (view self.new ≡ view self.old))) }
        ensures err { OnErr result (Keeps (view self.old).incoming (view self.new).incoming) }
        ensures outgoing { (view self.new).outgoing ≡ (view self.old).outgoing }
        ensures writes { writes_block self.old → writes_block self.new }
        ensures failures { (view self.old).failed ≤ (view self.new).failed }
        ensures fault { OnErr result (Rose (view self.old).failed (view self.new).failed) }
        ensures waits { waits self.new ≡ waits self.old };

    /// Writes a nonempty prefix of the bytes; 0 bytes only if there are none. It returns `None` if
    /// it would block. Then and on an error nothing was written.
    fn try_write(&mut self, bytes: &[u8]) -> Result<Option<usize>, LineFault>
        ensures within { IfOk result (λ wrote. IfSome wrote (λ n. n ≤ length bytes.now)) }
        ensures some { 0 < length bytes.now → IfOk result (λ wrote. IfSome wrote (λ n. 0 < n)) }
        ensures added { IfOk result (λ wrote. IfSome wrote (λ n.
            Appends (view self.old).outgoing (view self.new).outgoing (take n bytes.now))) }
        ensures blocks { IfOk result (λ wrote. IfNone wrote
            (writes_block self.new × (view self.new ≡ view self.old))) }
        ensures err { OnErr result (Keeps (view self.old).outgoing (view self.new).outgoing) }
        ensures incoming { (view self.new).incoming ≡ (view self.old).incoming }
        ensures failures { (view self.old).failed ≤ (view self.new).failed }
        ensures fault { OnErr result (Rose (view self.old).failed (view self.new).failed) }
        ensures waits { waits self.new ≡ waits self.old };
}
