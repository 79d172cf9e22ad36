//! Rules of fault injection, as numbers and bytes.

ghost use Rattle.std.specs.Prelude.{◌≡◌, ◌<◌, ◌^◌, ◌⊎◌, ℕ, List, pos, IfSome, IfNone, IfOk, IfErr, Option, None, true};
ghost use Rattle.sf_path.specs.Names.{Path};
ghost use Rattle.sf_reply.specs.Replies.{number_of};
ghost use Rattle.sf_reply.specs.declared.reply.StatusCode.{StatusCode};
ghost use Rattle.sf_refusing.specs.declared.rule.RequestKind.{RequestKind};
ghost use Rattle.sf_session.specs.Asking.{path_at};
ghost use Rattle.sf_c.specs.Rules.{kind_number, HasKind, ruled_session, HasPath, IsRuleOf, IsFaulty, rule_fault_number, GivesRule, TellsRefused};

use sf_path::{Path, PathFault};
use sf_refusing::{Refusals, RequestKind, Rule};
use sf_reply::StatusCode;
use std::alloc::Global;

/// A rule as C gives it, without its path's text: 0 for any session, and 0 for any kind.
#[repr(C)]
#[derive(Clone, Copy, Debug)]
pub struct RuleParts {
    pub session: u64,
    pub pass: u64,
    pub refuse: u64,
    pub kind: u32,
    pub status: u32,
    pub has_path: bool,
}

/// Why a rule is invalid.
#[derive(Clone, Copy, Debug, PartialEq, Eq)]
pub enum RuleFault {
    OutOfMemory,
    Kind,
    Status,
    Path,
}

/// The request kind with a number.
fn kind_at(number: u32) -> Option<RequestKind>
    ensures some { IfSome result (λ kind. number ≡ kind_number kind) }
    ensures none { IfNone result ((kind : RequestKind) → number ≡ kind_number kind → ⊥) }
{
    match number {
        3 => Some(RequestKind::Open),
        4 => Some(RequestKind::Close),
        5 => Some(RequestKind::Read),
        6 => Some(RequestKind::Write),
        7 => Some(RequestKind::LStat),
        8 => Some(RequestKind::FStat),
        9 => Some(RequestKind::SetStat),
        10 => Some(RequestKind::FSetStat),
        11 => Some(RequestKind::OpenDir),
        12 => Some(RequestKind::ReadDir),
        13 => Some(RequestKind::Remove),
        14 => Some(RequestKind::Mkdir),
        15 => Some(RequestKind::Rmdir),
        16 => Some(RequestKind::RealPath),
        17 => Some(RequestKind::Stat),
        18 => Some(RequestKind::Rename),
        201 => Some(RequestKind::PosixRename),
        202 => Some(RequestKind::Link),
        _ => None,
    }
}

/// The status code with a number.
fn status_at(number: u32) -> Option<StatusCode>
    ensures some { IfSome result (λ code. number_of code ≡ number) }
    ensures none { IfNone result ((code : StatusCode) → number_of code ≡ number → ⊥) }
{
    match number {
        0 => Some(StatusCode::Success),
        1 => Some(StatusCode::EndOfFile),
        2 => Some(StatusCode::NoSuchFile),
        3 => Some(StatusCode::PermissionDenied),
        4 => Some(StatusCode::Failure),
        5 => Some(StatusCode::BadMessage),
        8 => Some(StatusCode::OpUnsupported),
        _ => None,
    }
}

/// The session that a rule is for; none for 0, which means any.
fn session_of(number: u64) -> Option<u64>
    ensures { result ≡ ruled_session number }
{
    if number == 0 {
        return None;
    }
    Some(number)
}

/// The kind that a rule is for; none for 0, which means any.
fn kind_of(number: u32) -> Result<Option<RequestKind>, RuleFault>
    ensures ok { IfOk result (λ wanted. HasKind wanted number) }
    ensures err { IfErr result (λ why. (why ≡ RuleFault.Kind)
        × ((wanted : Option RequestKind) → HasKind wanted number → ⊥)) }
{
    if number == 0 {
        return Ok(None);
    }
    match kind_at(number) {
        Some(kind) => Ok(Some(kind)),
        None => Err(RuleFault::Kind),
    }
}

/// The path that a rule is for, if it has one.
fn path_of(alloc: Global, has_path: bool, text: &[u8]) -> Result<Option<Path>, RuleFault>
    ensures ok { IfOk result (λ wanted. HasPath wanted has_path text.now) }
    ensures err { IfErr result (λ why. (why ≡ RuleFault.OutOfMemory) ⊎ ((why ≡ RuleFault.Path)
        × (has_path ≡ true) × (path_at text.now ≡ None))) }
{
    if !has_path {
        return Ok(None);
    }
    match Path::parse(alloc, text) {
        Ok(path) => Ok(Some(path)),
        Err(PathFault::OutOfMemory) => Err(RuleFault::OutOfMemory),
        Err(PathFault::TooLong | PathFault::NameTooLong | PathFault::NulByte) => {
            Err(RuleFault::Path)
        }
    }
}

/// The rule with these parts and this path's text.
fn rule_of(alloc: Global, parts: &RuleParts, text: &[u8]) -> Result<Rule, RuleFault>
    ensures ok { IfOk result (IsRuleOf parts.now text.now) }
    ensures err { IfErr result (IsFaulty parts.now text.now) }
{
    let kind = kind_of(parts.kind)?;
    let Some(code) = status_at(parts.status) else {
        return Err(RuleFault::Status);
    };
    let path = path_of(alloc, parts.has_path, text)?;
    Ok(Rule {
        session: session_of(parts.session),
        kind,
        path,
        pass: parts.pass,
        refuse: parts.refuse,
        code,
    })
}

/// The number of an invalid rule's error.
fn rule_fault_number(why: RuleFault) -> i64
    ensures { result ≡ rule_fault_number why }
{
    match why {
        RuleFault::OutOfMemory => -1,
        RuleFault::Kind => -12,
        RuleFault::Status => -13,
        RuleFault::Path => -14,
    }
}

/// Adds a rule, and returns its number.
pub fn give_rule(alloc: Global, refusals: &mut Refusals, parts: &RuleParts, text: &[u8]) -> i64
    ensures { GivesRule parts.now text.now refusals.old result refusals.new }
{
    let rule = match rule_of(alloc, parts, text) {
        Ok(rule) => rule,
        Err(why) => return rule_fault_number(why),
    };
    match refusals.rule(rule) {
        Ok(number) => number as i64,
        Err(_) => rule_fault_number(RuleFault::OutOfMemory),
    }
}

/// The number of requests that a rule has refused.
pub fn tell_refused(refusals: &Refusals, number: u64) -> i64
    ensures { TellsRefused refusals.now number result }
{
    match refusals.refused(number as usize) {
        Some(count) => i64::try_from(count).unwrap_or(i64::MAX),
        None => -15,
    }
}
