//! Helping: a call that moves a directory completes the calls that have passed it.

ghost use Rattle.std.specs.Prelude.{◌≡◌, ◌<◌, ◌≤◌, ◌+◌, ◌-◌, ◌&&◌, not, nat_eq, false, length, Some, None, is_none, is_some};
ghost use Rattle.std.specs.Option.{option_copied};
ghost use Rattle.sf_call.specs.Requests.{target_of};
ghost use Rattle.std.specs.Vec.{vec_capacity};
ghost use Rattle.sf_call.specs.declared.call.Call.{Call};
ghost use Rattle.sf_call.specs.Tree.{after_front};
ghost use Rattle.sf_walk.specs.Files.{file_handle};
ghost use Rattle.sf_walk.specs.Ways.{IsLocated};
ghost use Rattle.sf_call.specs.Routes.{route_of, route_in};
ghost use Rattle.sf_core.specs.Cores.{call_at};
ghost use Rattle.sf_core.specs.Sound.{IsCore};
ghost use Rattle.sf_core.specs.Progress.{waiting_reply, has_passed, has_walked, overtaken, undecided_in, old_at};
ghost use Rattle.sf_core.specs.Finishing.{AreOnPaths, IsReadyToHelp, IsSettledWhereFree, KeepsRequests};
ghost use Rattle.sf_core.specs.Stepping.{Overtakes, Helps, HelpsAll, is_move, set_back, all_set_back};

use super::Parts;
use sf_call::{Call, Calls, PlacedCall, Record, Request, RoutePaths, Stage};
use sf_path::Path;
use sf_walk::{Located, Ways, decide, is_move, let_go, locate_all, writer_to_finish};

impl Parts {
    /// Runs before a call that moves a path is decided. All other undecided calls that have passed
    /// the path release what they hold. They are then decided in ascending order of their numbers.
    /// Their replies are pending until their sessions fetch them.
    pub(crate) fn overtake(&mut self, number: u64, ways: Ways, numbers: &mut Vec<u64>)
        requires core { IsCore self.old }
        requires located { (c : Call) → call_at self.old.calls number ≡ Some c
            → IsLocated self.old.store c.request ways }
        requires room { undecided_in self.old.calls ≤ self.old.book.room }
        requires places { undecided_in self.old.calls ≤ vec_capacity numbers.old }
        ensures helped { (c : Call) → call_at self.old.calls number ≡ Some c → c.number ≡ number
            → Overtakes self.old self.new c }
        ensures places { vec_capacity numbers.old ≤ vec_capacity numbers.new }
    {
        if let Located::NoWay = ways.new {
            return;
        }
        let Some(call) = self.calls.get(number) else {
            return;
        };
        let Some(old) = old_path(&call.request) else {
            return;
        };
        if !is_move(&self.store, call, ways) {
            return;
        }
        overtaken(&self.calls, number, old, numbers);
        self.set_back_all(numbers);
        self.help_all(numbers);
    }

    fn set_back_all(&mut self, numbers: &[u64])
        ensures { self.new ≡ all_set_back self.old numbers.now }
    {
        for number in numbers {
            self.set_back(*number);
        }
    }

    /// The call with this number releases what it holds, and starts again at the root.
    fn set_back(&mut self, number: u64)
        ensures { self.new ≡ set_back self.old number }
    {
        let Some(call) = self.calls.get(number) else {
            return;
        };
        let stage = call.stage;
        let_go(&mut self.store, stage, Stage::Fresh);
        self.calls.set_stage(number, Stage::Fresh);
    }

    fn help_all(&mut self, numbers: &[u64])
        requires room { length numbers.now ≤ self.old.book.room }
        requires settled { IsSettledWhereFree self.old.store }
        requires paths { AreOnPaths self.old numbers.now }
        ensures { HelpsAll self.old numbers.now self.new }
    {
        for number in numbers {
            self.help(*number);
        }
    }

    /// Decides another session's call: resolves its paths, writes its record and stores its pending
    /// reply. The record takes the copy of the request.
    fn help(&mut self, overtaken: u64)
        requires room { 0 < self.old.book.room }
        requires settled { IsSettledWhereFree self.old.store }
        requires path { (c : Call) → call_at self.old.calls overtaken ≡ Some c
            → file_handle c.request ≡ None }
        ensures helps { Helps self.old self.new overtaken }
        ensures room { self.old.book.room ≤ self.new.book.room + 1 }
        ensures settled { IsSettledWhereFree self.new.store }
        ensures requests { KeepsRequests self.old self.new }
    {
        let ways = self.ways_to(overtaken);
        let Some(call) = self.calls.get(overtaken) else {
            return;
        };
        let (number, session, moment) = (call.number, call.session, call.moment);
        let (reply, waiting) = decide(&mut self.store, call, ways);
        let Some(request) = self.calls.set_reply(overtaken, waiting) else {
            return;
        };
        self.book.put(Record::Did {
            number,
            session,
            moment,
            request,
            reply,
        });
    }

    /// Resolves the paths of a call. If the call sets the length of a file that another call holds,
    /// the remaining blocks of that WRITE are copied first.
    fn ways_to(&mut self, number: u64) -> Ways
        requires { IsSettledWhereFree self.old.store }
        ensures ready { (c : Call) → call_at self.old.calls number ≡ Some c
            → IsReadyToHelp self.old self.new c result }
        ensures none { call_at self.old.calls number ≡ None → self.new ≡ self.old }
    {
        let Some((call, route)) = self.calls.get_with_route(number) else {
            return Ways::no_path();
        };
        let ways = locate_all(&mut self.store, route);
        if let Some(writer) = writer_to_finish(&self.store, &call.request, ways.path) {
            self.finish_write(writer);
        }
        ways
    }
}

/// The old path of a request on two paths: the path that a rename moves.
fn old_path(request: &Request) -> Option<&Path>
    ensures { option_copied result ≡ old_at (target_of request.now) }
{
    match request {
        Request::OnPaths(_, old, _) => Some(old),
        Request::OnPath(_, _) | Request::ByHandle(_, _) | Request::Write { .. } => None,
    }
}

/// The numbers of the other undecided calls that have passed a path.
fn overtaken(calls: &Calls, number: u64, old: &Path, numbers: &mut Vec<u64>)
    requires { undecided_in calls.now ≤ vec_capacity numbers.old }
    ensures numbers { numbers.new.items ≡ overtaken calls.now number (Some old.now) }
    ensures places { vec_capacity numbers.old ≤ vec_capacity numbers.new }
{
    numbers.clear();
    'calls: for (other, call) in calls.iter() {
        if is_overtaken(call, *other, number, old) {
            numbers.push_reserved(*other);
        }
    }
}

/// Whether this is another call, undecided, that has passed a path.
#[tactic(auto, using(crate::proofs::Maps::reply_is))]
fn is_overtaken(placed: &PlacedCall, other: u64, number: u64, old: &Path) -> bool
    ensures { result
        ≡ (not (nat_eq other number) && is_none (waiting_reply placed.now)
        && has_passed placed.now old.now) }
{
    let call = placed.as_call();
    other != number && call.reply.is_none() && has_passed(call, placed.route(), old)
}

/// Whether a path is a prefix of what a call has resolved.
fn has_passed(call: &Call, route: RoutePaths<'_>, front: &Path) -> bool
    requires { route_in route ≡ route_of call.now.request }
    ensures { result ≡ has_passed call.now front.now }
{
    match route {
        RoutePaths::NoPath => false,
        RoutePaths::Along(path) => match call.stage {
            Stage::Fresh => false,
            Stage::At { walked, node: _ } => is_past(path, walked, front),
            Stage::Ends {
                common,
                old: _,
                new: _,
            } => is_past(path, common.walked, front),
            Stage::Copies { .. } => false,
        },
        RoutePaths::Between(from, to) => match call.stage {
            Stage::Fresh => false,
            Stage::At { walked, node: _ } => is_past(from, walked, front),
            Stage::Ends { common, old, new } => {
                is_past(from, common.walked, front)
                    || is_past(from, old.walked, front)
                    || is_past(to, new.walked, front)
            }
            Stage::Copies { .. } => false,
        },
    }
}

/// Whether a path is a prefix of the first `walked` names of another.
fn is_past(path: &Path, walked: usize, front: &Path) -> bool
    ensures { result ≡ has_walked path.now walked front.now }
{
    front.len() <= walked && begins(path, front)
}

/// Whether a path is a prefix of another.
fn begins(path: &Path, front: &Path) -> bool
    ensures { result ≡ is_some (after_front front.now path.now) }
{
    path.begins_with(front)
}
