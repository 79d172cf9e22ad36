//! Comparison of the replies that sessions received with the history.

ghost use Rattle.std.specs.Prelude.{◌≡◌, ◌↔◌, ◌∷◌, ◌≢◌, ◌≤◌, map, is_some, List, Some, length, IsTrue, IsOk, IfErr, IfSome, IfNone, not};
ghost use Rattle.std.specs.List.{list_any, prefix_len, sum_by, AllByRecursion};
ghost use Rattle.std.specs.Option.{MatchOption};
ghost use Rattle.sf_call.specs.declared.record.Record.{Record};
ghost use Rattle.sf_call.specs.Histories.{is_of};
ghost use Rattle.sf_audit.specs.Audits.{call_record, call_record_of, call_records, is_kept, front_len, fronts, Follows, IsIn, IsWithin, AgreesWith, IsFaultOf, IsFirstFault, IsAuditFault};

use crate::same::{same_reply, same_request};
use crate::transcript::{AnsweredCall, Transcript};
use sf_call::Record;
use sf_core::Core;
use thiserror::Error;

/// Why transcripts disagree with the history.
#[derive(Clone, Copy, Debug, PartialEq, Eq, Error)]
pub enum AuditFault {
    /// A session received a reply that no record contains.
    #[error("an answer is not in the history")]
    NotInHistory = 1,
    /// A session received its replies in an order other than the history's.
    #[error("answers are out of order")]
    OutOfOrder = 2,
    /// The history contains a call of a session that the session's transcript lacks.
    #[error("an answer is missing")]
    Missing = 3,
    /// Transcripts contain more calls without a record than were trimmed from the history.
    #[error("more answers than calls")]
    FoldedCount = 4,
}

/// Whether the record is of the call with this number.
fn has_number(entry: &Record, number: u64) -> bool
    ensures { result ≡ is_of number entry.now }
{
    match entry {
        Record::Did { number: n, .. } => *n == number,
        Record::Left { .. } => false,
    }
}

/// Whether a record of the call is retained.
fn is_kept(records: &[Record], call: &AnsweredCall) -> bool
    ensures { result ≡ is_kept records.now call.now }
{
    let number = call.answer.number();
    records.iter().any(|entry| has_number(entry, number))
}

/// The number of calls before the first with a retained record.
fn front_len(records: &[Record], calls: &[AnsweredCall]) -> usize
    ensures count { result ≡ prefix_len (λ e. not (is_kept records.now e)) calls.now }
    ensures within { result ≤ length calls.now }
{
    calls
        .iter()
        .take_while(|call| !is_kept(records, call))
        .count()
}

/// Whether the record is of a call of the session.
fn is_session_call(entry: &Record, session: u64) -> bool
    ensures { result ≡ is_some (call_record_of session entry.now) }
{
    match entry {
        Record::Did { session: s, .. } => *s == session,
        Record::Left { .. } => false,
    }
}

/// Whether the record is of this call by the session, with equal request and reply.
fn tells(entry: &Record, session: u64, call: &AnsweredCall) -> bool
    ensures { IsTrue result ↔ (call_record_of session entry.now ≡ Some (call_record call.now)) }
{
    match entry {
        Record::Did {
            number,
            session: s,
            request,
            reply,
            ..
        } => {
            *s == session
                && *number == call.answer.number()
                && same_request(request, &call.request)
                && same_reply(reply, call.answer.reply())
        }
        Record::Left { .. } => false,
    }
}

/// Whether one of the records is of this call by the session, with equal request and reply.
fn is_told(records: &[Record], session: u64, call: &AnsweredCall) -> bool
    ensures { IsTrue result ↔ IsIn (call_records session records.now) (call_record call.now) }
{
    for entry in records {
        if tells(entry, session, call) {
            return true;
        }
    }
    false
}

/// Whether the records contain all of these calls.
fn are_told(records: &[Record], session: u64, calls: &[AnsweredCall]) -> bool
    ensures { IsTrue result
        ↔ AllByRecursion (IsIn (call_records session records.now)) (map call_record calls.now) }
{
    for call in calls {
        if !is_told(records, session, call) {
            return false;
        }
    }
    true
}

/// The calls that remain after this record: unchanged if it is another session's, without the first
/// if it matches, `None` otherwise.
fn after_record<'a>(
    entry: &Record,
    session: u64,
    calls: &'a [AnsweredCall],
) -> Option<&'a [AnsweredCall]>
    ensures { (later : List Record)
        → MatchOption result (map call_record calls.now ≢ call_records session (entry.now ∷ later))
        (λ left. (map call_record calls.now ≡ call_records session (entry.now ∷ later))
        ↔ (map call_record left.now ≡ call_records session later)) }
{
    if !is_session_call(entry, session) {
        return Some(calls);
    }
    let (call, left) = calls.split_first()?;
    if !tells(entry, session, call) {
        return None;
    }
    Some(left)
}

/// Whether the calls equal the session's records, in order.
fn are_same_calls(records: &[Record], session: u64, calls: &[AnsweredCall]) -> bool
    ensures { IsTrue result ↔ (map call_record calls.now ≡ call_records session records.now) }
{
    let mut left = calls;
    for entry in records {
        match after_record(entry, session, left) {
            Some(later) => left = later,
            None => return false,
        }
    }
    left.is_empty()
}

/// The calls that remain after this record: without the first if it matches, otherwise unchanged.
fn past_record<'a>(entry: &Record, session: u64, calls: &'a [AnsweredCall]) -> &'a [AnsweredCall]
    ensures { (later : List Record)
        → IsWithin (map call_record calls.now) (call_records session (entry.now ∷ later))
        ↔ IsWithin (map call_record result.now) (call_records session later) }
{
    let Some((call, left)) = calls.split_first() else {
        return calls;
    };
    if tells(entry, session, call) {
        return left;
    }
    calls
}

/// Whether the calls are a subsequence of the session's records.
fn are_in_order(records: &[Record], session: u64, calls: &[AnsweredCall]) -> bool
    ensures { IsTrue result
        ↔ IsWithin (map call_record calls.now) (call_records session records.now) }
{
    let mut left = calls;
    for entry in records {
        left = past_record(entry, session, left);
    }
    left.is_empty()
}

/// The fault of a transcript, if any.
fn fault_of(records: &[Record], transcript: &Transcript) -> Option<AuditFault>
    ensures none { IfNone result (Follows records.now transcript.now) }
    ensures some { IfSome result (λ fault. IsFaultOf records.now transcript.now fault) }
{
    let calls = transcript.calls.as_slice();
    let rest = &calls[front_len(records, calls)..];
    let session = transcript.session;
    if are_same_calls(records, session, rest) {
        return None;
    }
    if !are_told(records, session, rest) {
        return Some(AuditFault::NotInHistory);
    }
    if !are_in_order(records, session, rest) {
        return Some(AuditFault::OutOfOrder);
    }
    Some(AuditFault::Missing)
}

/// The fault of the first transcript that disagrees with the records, if any.
fn first_fault(records: &[Record], transcripts: &[Transcript]) -> Option<AuditFault>
    ensures none { IfNone result (AllByRecursion (Follows records.now) transcripts.now) }
    ensures some { IfSome result (λ fault. IsFirstFault records.now transcripts.now fault) }
{
    for transcript in transcripts {
        if let Some(fault) = fault_of(records, transcript) {
            return Some(fault);
        }
    }
    None
}

/// Whether the number of calls before the retained records is at most `most`, over all transcripts.
fn are_few(records: &[Record], most: u64, transcripts: &[Transcript]) -> bool
    ensures { IsTrue result ↔ (fronts records.now transcripts.now ≤ most) }
{
    let mut left = most;
    for transcript in transcripts {
        let front = front_len(records, transcript.calls.as_slice()) as u64;
        if front > left {
            return false;
        }
        left -= front;
    }
    true
}

/// Compares transcripts with a trimmed history: `records` are retained, and those of `folded` calls
/// are not.
fn compare(records: &[Record], folded: u64, transcripts: &[Transcript]) -> Result<(), AuditFault>
    ensures ok { IsOk result ↔ AgreesWith records.now folded transcripts.now }
    ensures fault { IfErr result
        (λ fault. IsAuditFault records.now folded transcripts.now fault) }
{
    if let Some(fault) = first_fault(records, transcripts) {
        return Err(fault);
    }
    if !are_few(records, folded, transcripts) {
        return Err(AuditFault::FoldedCount);
    }
    Ok(())
}

/// Compares the replies that sessions received with the history that a core retains. It allocates
/// nothing.
///
/// A transcript may begin with calls that were trimmed from the history. Only their number is
/// compared.
pub fn audit(core: &Core, transcripts: &[Transcript]) -> Result<(), AuditFault>
    ensures ok { IsOk result ↔ AgreesWith core.now.records core.now.folded transcripts.now }
    ensures fault { IfErr result
        (λ fault. IsAuditFault core.now.records core.now.folded transcripts.now fault) }
{
    compare(core.history(), core.folded(), transcripts)
}
