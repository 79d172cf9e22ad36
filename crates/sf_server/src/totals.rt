//! What a server prints when it ends.

ghost use Rattle.std.specs.Prelude.{◌≡◌, ◌⊎◌, OnOk, IfErr, List};
ghost use Rattle.std.specs.List.{count_by};
ghost use Rattle.std.specs.Io.KnownBytes.{Appends};
ghost use Rattle.sf_call.specs.declared.record.Record.{Record};
ghost use Rattle.sf_book.specs.Books.{is_call};
ghost use Rattle.sf_core.specs.Histories.{IsHistory};
ghost use Rattle.sf_audit.specs.Audits.{AgreesWith};
ghost use Rattle.sf_server.specs.Totals.{audit_line, totals_text, IsTellFault, IsStream};

use crate::server::ServerFault;
use sf_audit::{Totals, Transcript, audit};
use sf_core::Core;
use std::io::{self, Write};

/// Writes that the audit succeeded, and how many records are no longer kept.
fn write_audit<W: Write>(folded: u64, output: &mut W) -> io::Result<()>
    ensures { OnOk result (Appends (W.contents output.old) (W.contents output.new)
        (audit_line folded)) }
{
    if folded == 0 {
        writeln!(output, "audit ok")
    } else {
        writeln!(output, "audit ok, folded {folded}")
    }
}

/// Writes the numbers of sessions and calls, and the result of the audit.
fn write_totals<W: Write>(sessions: u64, calls: u64, folded: u64, output: &mut W) -> io::Result<()>
    ensures { OnOk result (Appends (W.contents output.old) (W.contents output.new)
        (totals_text sessions calls folded)) }
{
    writeln!(output, "sessions {sessions} calls {calls}")?;
    write_audit(folded, output)?;
    output.flush()
}

/// Compares the transcripts of the sessions with the core's history. If they agree, writes the
/// totals.
pub fn tell<W: Write>(
    core: &Core,
    transcripts: &[Transcript],
    sessions: u64,
    output: &mut W,
) -> Result<(), ServerFault>
    ensures told { OnOk result (AgreesWith core.now.records core.now.folded transcripts.now
        × ((h : List Record) → IsHistory core.now h
        → Appends (W.contents output.old) (W.contents output.new)
        (totals_text sessions (count_by is_call h) core.now.folded))) }
    ensures fault { IfErr result (IsTellFault core.now transcripts.now) }
    ensures quiet { IfErr result (λ fault. IsStream fault ⊎ (output.new ≡ output.old)) }
{
    let Ok(()) = audit(core, transcripts) else {
        return Err(ServerFault::Audit);
    };
    let totals = Totals::of(core);
    match write_totals(sessions, totals.recorded, core.folded(), output) {
        Ok(()) => Ok(()),
        Err(_) => Err(ServerFault::Stream),
    }
}
