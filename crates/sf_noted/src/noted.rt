//! A core with ghost pages of its sessions and a ghost log of its history.

ghost use Rattle.std.specs.Prelude.{◌≡◌, ◌≢◌, ◌<◌, ◌+◌, ◌++◌, ◌∷◌, List, [], Ok, IsOk, IfOk, IfErr, OnOk, OnErr, All};
ghost use Rattle.sf_call.specs.declared.record.Record.{Record};
ghost use Rattle.sf_call.specs.declared.record.Record.TheVariants.{Left};
ghost use Rattle.sf_call.specs.Histories.{IsNewNumber};
ghost use Rattle.sf_core.specs.Cores.LaneState.{NoLane, Idle, Busy};
ghost use Rattle.sf_core.specs.Histories.{IsHistory};
ghost use Rattle.sf_core.specs.Events.{Joins, CallBegins, StepsOn, SessionLeaves, RefusesJoin, RefusesBegin};
ghost use Rattle.sf_noted.specs.Pages.{begun_call};
ghost use Rattle.sf_noted.specs.PageChanges.{page, fresh_page, IsUnderWay};
ghost use Rattle.sf_noted.specs.Noted.{PagesAgree, StepTells, lane_of, begun_on};
ghost use Rattle.sf_noted.specs.Seen.{HasSeen, StepShows};
ghost use Rattle.sf_noted.specs.Visits.{visit_calls, AreCallsOf, IsOnPage};
ghost use Rattle.sf_noted.specs.Closing.{AreCleared};
ghost use Rattle.sf_roll.specs.Seen.{IsPrefixOf};

use crate::growth::{CoreStep, HistoryGrowth};
use crate::page::{Clears, Page, PageChange};
use sf_call::{BeginFault, JoinFault, Record, Request};
use sf_core::{Core, CoreFault, Lane, Share, Step};
use sf_roll::{Keeper, Log, NewRoll, RollName, Seen, Ticket};
use std::alloc::{AllocError, Global};
use std::marker::Model;
use std::snapshot::Snapshot;
use std::sync::ledger::{self, Book, Ledger};

/// The share of a session that has left.
fn left(left: Result<Share, Lane>) -> Share
    requires { IsOk left }
    ensures { left ≡ Ok result }
{
    match left {
        Ok(share) => share,
        Err(lane) => {
            lane.abandon();
            unreachable!()
        }
    }
}

/// A core, the pages of its sessions, its history and the count of its calls. Contracts see the
/// core, the pages and the history.
#[derive(Drop)]
pub struct NotedCore<B: RollName + Ledger> {
    core: Core,
    keeper: Keeper<Page, B>,
    log: Log<Record, B>,
    calls: Book<B>,
}

impl<B: RollName + Ledger> Model for NotedCore<B> {
    ghost use Rattle.std.specs.Prelude.{◌≡◌, List};
    ghost use Rattle.sf_call.specs.declared.record.Record.{Record};
    ghost use Rattle.sf_core.specs.Cores.{CoreView};
    ghost use Rattle.sf_noted.specs.Pages.{Page};
    ghost use Rattle.sf_noted.specs.Noted.{PagesAgree};

    ghost Value = { CoreView × List Page × List Record };

    ghost view = { λ n. (n.core, n.keeper, n.log) };

    ghost invariant = { λ n. PagesAgree n.core n.keeper n.log × (n.calls.total ≡ n.core.drawn) };
}

/// A session of a core. Contracts see its number and its page.
pub struct NotedLane<B: RollName> {
    lane: Lane,
    ticket: Ticket<Page, B>,
}

impl<B: RollName> Model for NotedLane<B> {
    ghost use Rattle.std.specs.Prelude.{◌≡◌, ◌+◌, ℕ};
    ghost use Rattle.sf_noted.specs.Pages.{Page};
    ghost use Rattle.sf_noted.specs.Noted.{lane_of};

    ghost Value = { ℕ × Page };

    ghost view = { λ l. (l.lane.session, l.ticket.1) };

    ghost invariant = { λ l. l.lane ≡ lane_of (l.ticket.0 + 1, l.ticket.1) };
}

/// The page of a session that makes no more calls. Contracts see its number and its page. It has no
/// bytes.
#[derive(Drop)]
pub struct Visit<B: RollName> {
    ticket: Ticket<Page, B>,
}

impl<B: RollName> Model for Visit<B> {
    ghost use Rattle.std.specs.Prelude.{◌+◌, ℕ};
    ghost use Rattle.sf_noted.specs.Pages.{Page};

    ghost Value = { ℕ × Page };

    ghost view = { λ v. (v.ticket.0 + 1, v.ticket.1) };
}

impl<B: RollName> NotedLane<B> {
    /// The session's number.
    pub fn session(&self) -> u64
        ensures { result ≡ self.now.0 }
    {
        self.lane.session()
    }

    /// Abandons the session, perhaps with a call under way. Its page stays.
    pub fn abandon(self) -> Visit<B>
        ensures { result ≡ self }
    {
        let NotedLane { lane, ticket } = self;
        lane.abandon();
        Visit { ticket }
    }
}

impl<B: RollName + Ledger> NotedCore<B> {
    /// A core that no session has joined.
    pub fn open(core: Core, roll: NewRoll<Page, Record>, calls: Book<B>) -> NotedCore<B>
        requires new { IsHistory core [] }
        requires none { (core.joins ≡ 0) × (core.drawn ≡ 0) }
        requires name { roll ≡ B.table }
        requires total { calls.total ≡ 0 }
        ensures { result ≡ (core, [], []) }
    {
        core.owners();
        let (keeper, log) = roll.named::<B>();
        NotedCore {
            core,
            keeper,
            log,
            calls,
        }
    }

    /// A session joins. It has no call in the token's prefix.
    pub fn join(&mut self, seen: &mut Seen<Record, B>) -> Result<NotedLane<B>, JoinFault>
        ensures lane { IfOk result (λ lane. lane ≡ (self.old.0.joins + 1, fresh_page)) }
        ensures ok { OnOk result (Joins self.old.0 self.new.0) }
        ensures history { (h : List Record) → IsHistory self.old.0 h → IsHistory self.new.0 h }
        ensures err { OnErr result (self.new ≡ self.old) }
        ensures fault { IfErr result (λ fault. RefusesJoin self.old.0 fault) }
        ensures log { self.new.2 ≡ self.old.2 }
        ensures seen { IsPrefixOf seen.old seen.new }
        ensures own { IfOk result (λ lane. HasSeen seen.new lane) }
    {
        let NotedCore {
            core,
            keeper,
            log,
            calls: _,
        } = self;
        log.show(seen);
        let lane = core.join()?;
        let ticket = keeper.open();
        Ok(NotedLane { lane, ticket })
    }

    /// A call begins, and the share counts it. The token's prefix becomes the whole history so far, so
    /// it has every call that was answered, of any session. It does not have the call that begins.
    pub fn begin(
        &mut self,
        lane: &mut NotedLane<B>,
        share: &mut ledger::Share<B>,
        seen: &mut Seen<Record, B>,
        request: Request,
        moment: u32,
    ) -> Result<u64, BeginFault>
        requires resting { lane.old.1.state ≡ Idle }
        requires part { 0 < share.old.parts }
        ensures ok { IfOk result (λ n. (lane.new
            ≡ (lane.old.0, page (Busy (begun_call n moment request)) lane.old.1.told))
            × (share.new.amount ≡ share.old.amount + 1)) }
        ensures err { OnErr result ((lane.new ≡ lane.old) × (share.new.amount ≡ share.old.amount)) }
        ensures parts { share.new.parts ≡ share.old.parts }
        ensures begins { IfOk result (λ n. (n ≡ self.new.0.drawn)
            × CallBegins self.old.0 self.new.0 (lane_of lane.old) request moment) }
        ensures history { (h : List Record) → IsHistory self.old.0 h → IsHistory self.new.0 h }
        ensures refused { OnErr result (self.new ≡ self.old) }
        ensures fault { IfErr result (λ fault. RefusesBegin self.old.0 (lane_of lane.old)
            (CoreFault.Refused fault)) }
        ensures log { self.new.2 ≡ self.old.2 }
        ensures whole { seen.new ≡ self.old.2 }
        ensures seen { IsPrefixOf seen.old seen.new }
        ensures own { HasSeen seen.new lane.old }
        ensures new_number { IfOk result (λ n. IsNewNumber n seen.new) }
    {
        let NotedCore {
            core,
            keeper,
            log,
            calls,
        } = self;
        let NotedLane { lane, ticket } = lane;
        log.show(seen);
        keeper.agrees(ticket);
        let asked = Snapshot::of(&request);
        match core.begin(lane, request, moment) {
            Ok(()) => {}
            Err(CoreFault::Refused(fault)) => return Err(fault),
            Err(CoreFault::Stranger) => unreachable!(),
        }
        let number = core.calls();
        keeper.change(ticket, &PageChange::Begins(number, moment, asked));
        calls.add(share, 1);
        Ok(number)
    }

    /// A step of the session's call. If the call is answered, it is in the token's prefix.
    pub fn step(&mut self, lane: &mut NotedLane<B>, seen: &mut Seen<Record, B>) -> Step
        requires { IsUnderWay lane.old.1.state }
        ensures told { StepTells lane.old result lane.new }
        ensures steps { StepsOn self.old.0 (lane_of lane.old) result self.new.0 (lane_of lane.new) }
        ensures log { IsPrefixOf self.old.2 self.new.2 }
        ensures seen { IsPrefixOf seen.old seen.new }
        ensures shows { StepShows result lane.new seen.old seen.new }
    {
        let NotedCore {
            core,
            keeper,
            log,
            calls: _,
        } = self;
        let NotedLane { lane, ticket } = lane;
        core.owners();
        let before = Snapshot::of(&*core);
        let lane_before = Snapshot::of(&*lane);
        let step = core.step(lane);
        core.owners();
        let made = Snapshot::of(&step);
        let after = Snapshot::of(&*core);
        let lane_after = Snapshot::of(&*lane);
        log.grow(&HistoryGrowth::Steps(CoreStep {
            before,
            lane_before,
            made,
            after,
            lane_after,
        }));
        match step {
            Step::Moved => Step::Moved,
            Step::Blocked(holder) => Step::Blocked(holder),
            Step::Answered(answer) => {
                keeper.agrees(ticket);
                keeper.change(ticket, &PageChange::Answered(Snapshot::of(answer.reply())));
                log.show(seen);
                Step::Answered(answer)
            }
            Step::Stranger => {
                keeper.agrees(ticket);
                unreachable!()
            }
        }
    }

    /// The session leaves. Returns its number of calls.
    pub fn leave(&mut self, lane: NotedLane<B>) -> (Share, Visit<B>)
        requires { lane.1.state ≡ Idle }
        ensures visit { result.1 ≡ (lane.0, page NoLane lane.1.told) }
        ensures share { result.0 ≡ begun_on lane.1 }
        ensures leaves { SessionLeaves self.old.0 self.new.0 lane.0 }
        ensures history { (h : List Record) → IsHistory self.old.0 h
            → IsHistory self.new.0 (h ++ Left lane.0 ∷ []) }
        ensures log { self.new.2 ≡ self.old.2 ++ Left lane.0 ∷ [] }
    {
        let NotedCore {
            core,
            keeper,
            log,
            calls: _,
        } = self;
        let NotedLane { lane, mut ticket } = lane;
        let number = lane.session();
        keeper.agrees(&mut ticket);
        let share = left(core.leave(lane));
        log.grow(&HistoryGrowth::Leaves(number));
        keeper.change(&mut ticket, &PageChange::Leaves);
        (share, Visit { ticket })
    }

    /// Law: a visit is on its page.
    fn confirm(&mut self, visit: &mut Visit<B>)
        ensures core { self.new ≡ self.old }
        ensures visit { visit.new ≡ visit.old }
        ensures page { IsOnPage self.old.1 visit.old }
    {
        let NotedCore {
            core: _,
            keeper,
            log: _,
            calls: _,
        } = self;
        let Visit { ticket } = visit;
        keeper.agrees(ticket);
    }

    /// Law: the pages agree with the history.
    pub fn agrees(&self)
        ensures { PagesAgree self.now.0 self.now.1 self.now.2 }
    {
        let _core = &self.core;
    }

    /// A token for the whole history so far.
    pub fn token(&mut self) -> Seen<Record, B>
        ensures core { self.new ≡ self.old }
        ensures seen { result ≡ self.old.2 }
    {
        self.log.token()
    }

    /// A second token for the same prefix.
    pub fn copy(&self, seen: &mut Seen<Record, B>) -> Seen<Record, B>
        ensures seen { seen.new ≡ seen.old }
        ensures copy { result ≡ seen.old }
    {
        self.log.copy(seen)
    }

    /// Extends a token to the whole history so far. Its old prefix is a prefix of the history.
    pub fn show(&mut self, seen: &mut Seen<Record, B>)
        ensures core { self.new ≡ self.old }
        ensures seen { seen.new ≡ self.old.2 }
        ensures known { IsPrefixOf seen.old self.old.2 }
    {
        self.log.show(seen);
    }

    /// Law: the whole share counts as many calls as the core has.
    fn gather(&mut self, all: &mut ledger::Share<B>)
        requires { all.old.parts ≡ B.parts }
        ensures core { self.new ≡ self.old }
        ensures share { (all.new.amount ≡ all.old.amount) × (all.new.parts ≡ all.old.parts) }
        ensures all { all.old.amount ≡ self.old.0.drawn }
    {
        self.calls.audit(all);
    }

    /// Takes the core apart when all sessions have ended. The history has exactly their calls.
    pub fn close(
        self,
        alloc: Global,
        visits: Vec<Visit<B>>,
        all: &mut ledger::Share<B>,
    ) -> Result<(Core, Log<Record, B>), AllocError>
        requires parts { all.old.parts ≡ B.parts }
        requires calls { all.old.amount ≡ visit_calls visits.items }
        ensures core { IfOk result (λ r. r.0 ≡ self.0) }
        ensures log { IfOk result (λ r. r.1 ≡ self.2) }
        ensures share { (all.new.amount ≡ all.old.amount) × (all.new.parts ≡ all.old.parts) }
        ensures all { all.old.amount ≡ self.0.drawn }
        ensures history { IsHistory self.0 self.2 }
        ensures calls { OnOk result (AreCallsOf self.2 visits.items) }
    {
        let mut noted = self;
        noted.gather(all);
        noted.agrees();
        let visits = confirm_all(alloc, &mut noted, visits)?;
        let NotedCore {
            core,
            mut keeper,
            log,
            calls: _calls,
        } = noted;
        clear(&mut keeper, visits);
        Ok((core, log))
    }
}

/// Law: each visit is on its page.
fn confirm_all<B: RollName + Ledger>(
    alloc: Global,
    core: &mut NotedCore<B>,
    visits: Vec<Visit<B>>,
) -> Result<Vec<Visit<B>>, AllocError>
    ensures core { core.new ≡ core.old }
    ensures visits { IfOk result (λ all. all.items ≡ visits.items) }
    ensures pages { OnOk result (All (IsOnPage core.old.1) visits.items) }
{
    let mut all = Vec::new(alloc);
    for visit in visits {
        let mut visit = visit;
        core.confirm(&mut visit);
        all.push(visit)?;
    }
    Ok(all)
}

/// Clears the page of each visit: so no page is counted twice.
fn clear<B: RollName>(keeper: &mut Keeper<Page, B>, visits: Vec<Visit<B>>)
    requires { All (IsOnPage keeper.old) visits.items }
    ensures { AreCleared keeper.old visits.items keeper.new }
{
    for visit in visits {
        let Visit { mut ticket } = visit;
        keeper.agrees(&mut ticket);
        keeper.change(&mut ticket, &Clears);
    }
}
