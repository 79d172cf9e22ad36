//! Deciding on the first packet that is buffered for a session.

ghost use Rattle.std.specs.Prelude.{◌≡◌, ◌⊎◌, ◌++◌, ℕ, List, [], true, false, IfOk, IfSome, IfNone};
ghost use Rattle.sf_request.specs.declared.request.Asked.{Asked};
ghost use Rattle.sf_request.specs.declared.request.Asked.TheVariants.{Request};
ghost use Rattle.sf_request.specs.declared.request.WireRequest.{WireRequest};
ghost use Rattle.sf_request.specs.Requests.{Asks};
ghost use Rattle.sf_wire.specs.Streams.{HasBody};
ghost use Rattle.sf_refusing.specs.Rules.{kind_asked, paths_of};
ghost use Rattle.sf_refusing.specs.Journal.{Act};
ghost use Rattle.sf_refusing.specs.Refusing.{MovesFront};
ghost use Rattle.sf_refusing.specs.Fronts.{StandsBefore, EngineHoldsAfter};

use crate::given::{GivenRule, count_with, first_refusing};
use crate::passage::Passage;
use crate::rule::Subject;
use sf_engine::{EngineFault, Sftp};
use sf_request::{Asked, read_request};
use sf_wire::{Cut, cut};
use std::alloc::{AllocError, Global};

/// The id and the subject of a packet's body, if it is a request.
fn subject_of(
    alloc: Global,
    session: u64,
    body: &[u8],
) -> Result<Option<(u32, Subject)>, AllocError>
    ensures some { IfOk result (λ found. IfSome found (λ x. (request : WireRequest)
        × Asks body.now (Request x.0 request) × (x.1.session ≡ session)
        × (x.1.kind ≡ kind_asked request) × (x.1.paths.items ≡ paths_of request))) }
    ensures none { IfOk result (λ found. IfNone found ((asked : Asked) × Asks body.now asked
        × ((id : ℕ) (request : WireRequest) → asked ≡ Request id request → ⊥))) }
{
    match read_request(body) {
        Asked::Request(id, request) => Ok(Some((id, Subject::of(alloc, session, &request)?))),
        _ => Ok(None),
    }
}

/// Passes on the first buffered packet of a session, which has `len` bytes, or refuses it.
fn decide<E: Sftp>(
    alloc: Global,
    rules: &mut Vec<GivenRule>,
    passage: &mut Passage,
    engine: &mut E,
    session: u64,
    len: usize,
) -> Result<bool, EngineFault>
    requires whole { HasBody passage.old.held.items len }
    requires begun { passage.old.begun ≡ true }
    ensures { (journal : List Act)
        → StandsBefore E.has_log engine.old journal session passage.old rules.old.items
        → (acts : List Act) × MovesFront journal session result acts
        × EngineHoldsAfter E.has_log engine.new journal session passage.new rules.new.items
        (journal ++ acts) }
{
    let Ok(found) = subject_of(alloc, session, &passage.held.as_slice()[4..len]) else {
        return Err(EngineFault::OutOfMemory);
    };
    let Some((id, subject)) = found else {
        passage.pass(engine, session, len)?;
        return Ok(false);
    };
    let Some(number) = first_refusing(rules, &subject) else {
        passage.pass(engine, session, len)?;
        let count = rules.len();
        count_with(rules, count, &subject);
        return Ok(false);
    };
    let code = rules[number].rule.code;
    passage.refuse(engine, session, len, id, code)?;
    count_with(rules, number + 1, &subject);
    Ok(true)
}

/// Whether rules are applied to a session's next packet.
fn is_ruled(rules: &[GivenRule], passage: &Passage) -> bool
    ensures ruled { result ≡ true → passage.now.begun ≡ true }
    ensures unruled { result ≡ false → (passage.now.begun ≡ false) ⊎ (rules.now ≡ []) }
{
    passage.begun && !rules.is_empty()
}

/// Takes the first packet of a session that waits for bytes. It is passed on unexamined if it is
/// the session's first one or if there is no rule. An invalid length is passed on with all that
/// follows it. Otherwise rules decide.
pub(crate) fn take_front<E: Sftp>(
    alloc: Global,
    rules: &mut Vec<GivenRule>,
    passage: &mut Passage,
    engine: &mut E,
    session: u64,
) -> Result<bool, EngineFault>
    ensures { (journal : List Act)
        → StandsBefore E.has_log engine.old journal session passage.old rules.old.items
        → (acts : List Act) × MovesFront journal session result acts
        × EngineHoldsAfter E.has_log engine.new journal session passage.new rules.new.items
        (journal ++ acts) }
{
    let len = match cut(passage.held.as_slice()) {
        Cut::More => return Ok(false),
        Cut::Bad(_) => passage.held.len(),
        Cut::Whole(len) => {
            if is_ruled(rules, passage) {
                return decide(alloc, rules, passage, engine, session, len);
            }
            len
        }
    };
    passage.pass(engine, session, len)?;
    Ok(false)
}
