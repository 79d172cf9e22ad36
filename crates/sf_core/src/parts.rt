//! The parts of a core, and what each event does to them.

ghost use Rattle.std.specs.Prelude.{◌≡◌, ◌<◌, ◌≤◌, ◌+◌, ◌-◌, ◌^◌, ◌↔◌, [], ◌∷◌, ℕ, true, false, length, Some, None, IsTrue, IsSome, IfOk, OnOk, OnErr, IfSome, IfNone};
ghost use Rattle.std.specs.Option.{option_and_then};
ghost use Rattle.sf_call.specs.declared.call.Call.{Call};
ghost use Rattle.sf_inode.specs.Stores.{is_directory_at};
ghost use Rattle.sf_inode.specs.Leaves.{AreLeaves};
ghost use Rattle.sf_walk.specs.Files.{IsSettled};
ghost use Rattle.sf_walk.specs.Ways.{IsLocated};
ghost use Rattle.sf_call.specs.Routes.{route_of, route_in};
ghost use Rattle.sf_walk.specs.Routes.{HoldsWay};
ghost use Rattle.sf_walk.specs.Steps.{Advances, walker};
ghost use Rattle.sf_core.specs.Cores.{call_at, session_at};
ghost use Rattle.sf_core.specs.Sound.{IsCore};
ghost use Rattle.sf_core.specs.Progress.{is_at_once, is_write, copy_of, did};
ghost use Rattle.sf_core.specs.declared.parts.WalkOutcome.TheVariants as outcome;
ghost use Rattle.sf_core.specs.Parts.{PartsView};
ghost use Rattle.sf_core.specs.Finishing.{IsSettledWhereFree};
ghost use Rattle.sf_core.specs.Stepping.{IsNewParts, SameButRoom, JoinState, BeginState, FinishState, FetchState, LeaveState, AtOnceState, HasComeTo, IsWalked, WalkState, come_to, stage_after, ending};

mod helping;
mod writing;

use crate::sessions::Sessions;
use sf_book::Book;
use sf_call::{Call, Calls, Leaf, Record, Request, RoutePaths, Stage};
use sf_inode::Store;
use sf_reply::Reply;
use sf_walk::{Walk, Ways, advance, decide, file_holder, holder_by, let_go};
use std::alloc::{AllocError, Global};
use std::marker::Model;

/// The outcome of steps of a call.
#[derive(Clone, Copy, Debug)]
pub(crate) enum WalkOutcome {
    /// The call isn't the session's.
    Foreign,
    /// Its reply is pending.
    Waits,
    /// Its reply is pending, and blocks remain to be copied into its file.
    Copies,
    /// The call with this number holds the file that it reads, writes or sets.
    FileHeld(u64),
    /// It is a WRITE that may start.
    Writes,
    Walked(Walk),
}

/// The store, the history, and the sessions and calls by number.
#[derive(Drop)]
pub(crate) struct Parts {
    store: Store,
    book: Book,
    sessions: Sessions,
    calls: Calls,
    drawn: u64,
    joins: u64,
}

impl Model for Parts {
    ghost use Rattle.sf_core.specs.Parts.{PartsView};

    ghost Value = { PartsView };

    ghost view = { λ p. record {
      store = p.store;
      book = p.book;
      sessions = p.sessions;
      calls = p.calls;
      drawn = p.drawn;
      joins = p.joins;
    } };
}

impl Parts {
    /// The root alone, and an empty book; no session and no call.
    pub(crate) fn new(alloc: Global, book: Book) -> Result<Parts, AllocError>
        requires { (book.records ≡ []) × (book.folded ≡ 0) }
        ensures parts { IfOk result IsNewParts }
        ensures keep { IfOk result (λ p. p.book.keep ≡ book.keep) }
    {
        Ok(Parts {
            store: Store::new(alloc)?,
            book,
            sessions: Sessions::new(alloc),
            calls: Calls::new(alloc),
            drawn: 0,
            joins: 0,
        })
    }

    /// The retained records.
    pub(crate) fn records(&self) -> &[Record]
        ensures { result.now ≡ self.now.book.records }
    {
        self.book.records()
    }

    /// The number of dropped call records.
    pub(crate) fn folded(&self) -> u64
        ensures { result ≡ self.now.book.folded }
    {
        self.book.folded()
    }

    /// Every path of the tree, with its inode's contents and attributes.
    pub(crate) fn leaves(&self, alloc: Global) -> Result<Vec<Leaf>, AllocError>
        ensures { IfOk result (λ leaves. AreLeaves self.now.store.nodes
            (([], self.now.store.root) ∷ []) leaves.items) }
    {
        self.store.leaves(alloc)
    }

    /// The number of calls that began.
    pub(crate) fn drawn(&self) -> u64
        ensures { result ≡ self.now.drawn }
    {
        self.drawn
    }

    /// The number of sessions that ever joined.
    pub(crate) fn joins(&self) -> u64
        ensures { result ≡ self.now.joins }
    {
        self.joins
    }

    /// The number of lookups.
    pub(crate) fn look_ups(&self) -> u64
        ensures count { result ≡ self.now.store.look_ups }
        ensures fits { self.now.store.look_ups < 2 ^ 64 }
    {
        self.store.look_ups()
    }

    /// The number of joined sessions.
    pub(crate) fn joined(&self) -> usize
        ensures { result ≡ length self.now.sessions }
    {
        self.sessions.len()
    }

    /// The number of unanswered calls.
    pub(crate) fn unanswered(&self) -> usize
        ensures count { result ≡ length self.now.calls }
        ensures small { result < 2 ^ 63 }
    {
        self.calls.len()
    }

    /// Whether a session is joined and has no unanswered call.
    pub(crate) fn is_idle(&self, session: u64) -> bool
        ensures { IsTrue result ↔ (session_at self.now.sessions session ≡ Some None) }
    {
        match self.sessions.get(session) {
            Some(None) => true,
            _ => false,
        }
    }

    /// Reserves room for the records of all calls and sessions that exist, and for one more.
    fn make_room(&mut self) -> Result<(), AllocError>
        ensures same { SameButRoom self.old self.new }
        ensures room { OnOk result (length self.old.calls + length self.old.sessions + 1
            ≤ self.new.book.room) }
    {
        self.book
            .reserve(self.calls.len() + self.sessions.len() + 1)
    }

    /// A session joins, under the next number.
    pub(crate) fn join(&mut self) -> Result<(), AllocError>
        requires { self.old.joins < 2 ^ 63 - 1 }
        ensures ok { OnOk result (JoinState self.old self.new) }
        ensures err { OnErr result (SameButRoom self.old self.new) }
    {
        self.make_room()?;
        self.sessions.insert(self.joins + 1)?;
        self.joins += 1;
        Ok(())
    }

    /// A session's call begins, under the next number.
    pub(crate) fn begin(
        &mut self,
        session: u64,
        request: Request,
        moment: u32,
    ) -> Result<(), AllocError>
        requires { self.old.drawn < 2 ^ 63 - 1 }
        ensures ok { OnOk result (BeginState self.old self.new session request moment) }
        ensures err { OnErr result (SameButRoom self.old self.new) }
    {
        self.make_room()?;
        let number = self.drawn + 1;
        let copy = copy_of(&request)?;
        self.calls.insert(Call {
            number,
            session,
            moment,
            request,
            stage: Stage::Fresh,
            copy,
            reply: None,
        })?;
        self.sessions.set(session, Some(number));
        self.drawn = number;
        Ok(())
    }

    /// Whether a session's call is decided as it begins.
    pub(crate) fn is_at_once(&self, session: u64, request: &Request) -> bool
        ensures { result ≡ is_at_once self.now.store session request.now }
    {
        if !request.walks_nothing() || is_write(request) {
            return false;
        }
        holder_by(&self.store, session, request).is_none()
    }

    /// Decides a session's call that looks up nothing, under the next number.
    pub(crate) fn answer_at_once(
        &mut self,
        session: u64,
        request: Request,
        moment: u32,
    ) -> Result<Reply, AllocError>
        requires unspent { self.old.drawn < 2 ^ 63 - 1 }
        requires idle { session_at self.old.sessions session ≡ Some None }
        requires new { call_at self.old.calls (self.old.drawn + 1) ≡ None }
        requires at_once { is_at_once self.old.store session request ≡ true }
        requires settled { IsSettledWhereFree self.old.store }
        ensures ok { IfOk result (λ given.
            AtOnceState self.old self.new session request moment given) }
        ensures err { OnErr result (SameButRoom self.old self.new) }
    {
        self.make_room()?;
        let number = self.drawn + 1;
        let call = Call {
            number,
            session,
            moment,
            request,
            stage: Stage::Fresh,
            copy: None,
            reply: None,
        };
        let ways = Ways::no_path();
        let (reply, copy) = decide(&mut self.store, &call, ways);
        self.book.put(record_of(call, reply));
        self.drawn = number;
        Ok(copy)
    }

    /// Takes up to `most` steps of a session's call, until one doesn't move it. A call with a
    /// pending reply takes none. The stage is stored once, after the last step.
    pub(crate) fn walk_on(&mut self, session: u64, number: u64, most: u64) -> WalkOutcome
        requires core { IsCore self.old }
        requires some { 0 < most }
        ensures comes { WalkState self.old session number most (ending result self.new) }
        ensures other { IsWalked result → (c : Call) → call_at self.new.calls number ≡ Some c
            → is_write c.request ≡ false }
    {
        let _count = self.store.look_ups();
        let Some((call, route)) = self.calls.get_with_route(number) else {
            return WalkOutcome::Foreign;
        };
        if call.session != session {
            return WalkOutcome::Foreign;
        }
        if let Stage::Copies { .. } = call.stage {
            return WalkOutcome::Copies;
        }
        if call.reply.is_some() {
            return WalkOutcome::Waits;
        }
        if let Some(holder) = file_holder(&self.store, call) {
            return WalkOutcome::FileHeld(holder);
        }
        if is_write(&call.request) {
            return WalkOutcome::Writes;
        }
        let mut stage = call.stage;
        let walk = go_on(&mut self.store, call, route, &mut stage, most);
        self.calls.set_stage(number, stage);
        WalkOutcome::Walked(walk)
    }

    /// Removes the call with this number if its reply is pending, and returns the reply.
    pub(crate) fn fetch(&mut self, session: u64, number: u64) -> Option<Reply>
        ensures reply { result
            ≡ option_and_then (λ (c : Call). c.reply) (call_at self.old.calls number) }
        ensures some { IfSome result (λ reply. FetchState self.old self.new session number) }
        ensures none { IfNone result (self.new ≡ self.old) }
    {
        let reply = self.calls.take_reply(number)?;
        self.sessions.set(session, None);
        Some(reply)
    }

    /// Decides a call, and writes its record.
    pub(crate) fn finish(&mut self, number: u64, ways: Ways) -> Reply
        requires there { IsSome (call_at self.old.calls number) }
        requires not_write { (c : Call) → call_at self.old.calls number ≡ Some c
            → is_write c.request ≡ false }
        requires located { (c : Call) → call_at self.old.calls number ≡ Some c
            → IsLocated self.old.store c.request ways }
        requires settled { (c : Call) → call_at self.old.calls number ≡ Some c
            → IsSettled self.old.store c.session c.request ways.path }
        requires room { 0 < self.old.book.room }
        ensures { (c : Call) → call_at self.old.calls number ≡ Some c
            → FinishState self.old self.new c number result }
    {
        let Some(call) = self.calls.remove(number) else {
            unreachable!();
        };
        let (reply, copy) = decide(&mut self.store, call.as_call(), ways);
        let_go(&mut self.store, call.as_call().stage, Stage::Fresh);
        self.sessions.set(call.as_call().session, None);
        self.book.put(call.into_record(reply));
        copy
    }

    /// A session leaves.
    pub(crate) fn leave(&mut self, session: u64)
        requires { 0 < self.old.book.room }
        ensures { LeaveState self.old self.new session }
    {
        self.store.close_all(session);
        self.sessions.remove(session);
        self.book.put(Record::Left { session });
    }
}

/// The record of a call with this reply.
fn record_of(call: Call, reply: Reply) -> Record
    ensures { result ≡ did call reply }
{
    let Call {
        number,
        session,
        moment,
        request,
        stage: _,
        copy: _copy,
        reply: _waiting,
    } = call;
    Record::Did {
        number,
        session,
        moment,
        request,
        reply,
    }
}

/// Takes up to `most` steps of a call from a stage, until one doesn't move it. Returns the last
/// step's outcome.
fn go_on(
    store: &mut Store,
    call: &Call,
    route: RoutePaths<'_>,
    stage: &mut Stage,
    most: u64,
) -> Walk
    requires route { route_in route ≡ route_of call.now.request }
    requires core { (p : PartsView) × (number : ℕ)
        × HasComeTo p number store.old call.now stage.old }
    requires some { 0 < most }
    ensures { (p : PartsView) (number : ℕ) → HasComeTo p number store.old call.now stage.old
        → WalkState p call.now.session number most
        (ending (outcome.Walked result) (come_to p number store.new stage.new)) }
{
    for _ in 1..most {
        let _count = store.look_ups();
        match advance(store, call.number, route, *stage) {
            Walk::Moved(after) => *stage = after,
            walk => return walk,
        }
    }
    step(store, call.number, route, stage)
}

/// Takes one step of a call from a stage.
fn step(store: &mut Store, number: u64, route: RoutePaths<'_>, stage: &mut Stage) -> Walk
    requires root { is_directory_at store.old.nodes store.old.root ≡ true }
    requires stands { HoldsWay store.old (route_in route) stage.old }
    ensures advances { Advances store.old store.new (walker number (route_in route.entry) stage.old)
        result }
    ensures stage { stage.new ≡ stage_after result stage.old }
    ensures fits { store.old.look_ups < 2 ^ 64 }
{
    let _count = store.look_ups();
    let walk = advance(store, number, route, *stage);
    if let Walk::Moved(after) = walk {
        *stage = after;
    }
    walk
}

/// The second copy of a request, for its record. A call on a path may be helped by another call,
/// and a WRITE's record is written before its last block.
fn copy_of(request: &Request) -> Result<Option<Request>, AllocError>
    ensures { IfOk result (λ copy. copy ≡ copy_of (route_of request.now) request.now) }
{
    if request.walks_nothing() && !is_write(request) {
        return Ok(None);
    }
    Ok(Some(request.share()?))
}

/// Whether a request is a WRITE.
fn is_write(request: &Request) -> bool
    ensures { result ≡ is_write request.now }
{
    matches!(request, Request::Write { .. })
}
