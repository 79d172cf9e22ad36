//! Pending calls: those without a reply, or with one that their session has not taken.

ghost use Rattle.std.specs.Prelude.{◌≡◌, ◌<◌, ◌^◌, [], length, IfOk, IfSome, OnOk, OnErr};
ghost use Rattle.std.specs.Option.{option_copied, option_map, option_and_then};
ghost use Rattle.std.specs.Ordering.{nat_cmp};
ghost use Rattle.std.specs.Map.{lookup, remove_entry};
ghost use Rattle.std.specs.BTreeMap.{is_at, insert_entry};
ghost use Rattle.sf_call.specs.declared.call.Call.{Call};
ghost use Rattle.sf_call.specs.declared.record.Record.TheVariants.{Did};
ghost use Rattle.sf_call.specs.Routes.{route_of, route_in};
ghost use Rattle.sf_call.specs.Unanswered.{staged, answered, gone_where_answered};

use crate::record::Record;
use crate::request::Request;
use crate::route::{RouteKind, RoutePaths};
use sf_reply::Reply;
use std::alloc::{AllocError, Global};
use std::collections::BTreeMap;
use std::collections::btree_map::Iter;
use std::marker::Model;

/// A directory that path resolution has reached.
#[derive(Clone, Copy, Debug, PartialEq, Eq)]
pub struct Reached {
    /// The number of components resolved from the root to it.
    pub walked: usize,
    /// The directory's number in the store.
    pub node: usize,
}

/// How far a call has proceeded.
#[derive(Clone, Copy, Debug, PartialEq, Eq)]
pub enum Stage {
    /// It holds no directory yet.
    Fresh,
    /// It holds the directory at the first `walked` components of its path.
    At {
        walked: usize,
        /// The directory's number in the store.
        node: usize,
    },
    /// A call on two paths that diverged: it holds the last common directory, and one on each path.
    Ends {
        common: Reached,
        old: Reached,
        new: Reached,
    },
    /// A WRITE with its record made: it holds its file, into which `left` blocks are still to be
    /// copied.
    Copies {
        /// The file's number in the store.
        node: usize,
        left: usize,
    },
}

/// A call of a session, not answered yet.
#[derive(Debug, Drop)]
pub struct Call {
    /// Unique, and above 0.
    pub number: u64,
    pub session: u64,
    /// The timestamp, in seconds since 1970.
    pub moment: u32,
    pub request: Request,
    pub stage: Stage,
    /// A second owner of the request, for the record if another call helps this one.
    pub copy: Option<Request>,
    /// The pending reply, if another call helped this one.
    pub reply: Option<Reply>,
}

/// A call with the kind of its route, computed once.
#[derive(Drop)]
struct RoutedCall {
    call: Call,
    kind: RouteKind,
}

/// A boxed call, so that a map of calls moves a pointer instead of a call.
#[derive(Drop)]
pub struct PlacedCall {
    routed: Box<RoutedCall>,
}

impl Model for PlacedCall {
    ghost use Rattle.sf_call.specs.declared.call.Call.{Call};

    ghost Value = { Call };

    ghost view = { λ placed. placed.routed.value.call };

    ghost use Rattle.std.specs.Prelude.{◌≡◌};
    ghost use Rattle.sf_call.specs.Routes.{route_of, route_kind};

    ghost invariant = { λ placed. placed.routed.value.kind
        ≡ route_kind (route_of placed.routed.value.call.request) };
}

impl PlacedCall {
    fn new(alloc: Global, call: Call) -> Result<PlacedCall, AllocError>
        ensures { IfOk result (λ placed. placed ≡ call) }
    {
        let kind = RouteKind::NoPath;
        let Ok(mut routed) = Box::new(alloc, RoutedCall { call, kind }) else {
            return Err(AllocError);
        };
        // The request is read after boxing, so that the call moves in one piece.
        routed.kind = routed.call.request.route_kind();
        Ok(PlacedCall { routed })
    }

    /// The call's record with this reply.
    pub fn into_record(self, reply: Reply) -> Record
        ensures { result ≡ Did self.number self.session self.moment self.request reply }
    {
        let Call {
            number,
            session,
            moment,
            request,
            stage: _,
            copy: _copy,
            reply: _waiting,
        } = Box::into_inner(self.routed).call;
        Record::Did {
            number,
            session,
            moment,
            request,
            reply,
        }
    }

    /// The pending reply.
    fn into_reply(self) -> Option<Reply>
        ensures { result ≡ self.reply }
    {
        let RoutedCall { call, kind: _ } = Box::into_inner(self.routed);
        call.reply
    }

    /// The call.
    pub fn as_call(&self) -> &Call
        ensures { result.now ≡ self.now }
    {
        &self.routed.as_ref().call
    }

    /// The route of the call.
    pub fn route(&self) -> RoutePaths<'_>
        ensures { route_in result ≡ route_of self.now.request }
    {
        let routed = self.routed.as_ref();
        routed.call.request.route(routed.kind)
    }
}

/// The pending calls, in the order of their numbers.
#[derive(Drop)]
pub struct Calls {
    alloc: Global,
    calls: BTreeMap<u64, PlacedCall>,
}

impl Model for Calls {
    ghost use Rattle.std.specs.Prelude.{List, ℕ};
    ghost use Rattle.sf_call.specs.declared.call.Call.{Call};

    ghost Value = { List (ℕ × Call) };

    ghost view = { λ calls. calls.calls.entries };
}

impl Calls {
    /// No calls.
    pub fn new(alloc: Global) -> Calls
        ensures { result ≡ [] }
    {
        Calls {
            alloc,
            calls: BTreeMap::new(alloc),
        }
    }

    /// The number of calls.
    pub fn len(&self) -> usize
        ensures count { result ≡ length self.now }
        ensures small { result < 2 ^ 63 }
    {
        self.calls.len()
    }

    /// Inserts a call; replaces one with the same number. On failure nothing changes.
    pub fn insert(&mut self, call: Call) -> Result<(), AllocError>
        ensures ok { OnOk result (self.new ≡ insert_entry nat_cmp self.old call.number call) }
        ensures err { OnErr result (self.new ≡ self.old) }
    {
        let number = call.number;
        let placed = PlacedCall::new(self.alloc, call)?;
        self.calls.insert(number, placed)?;
        Ok(())
    }

    /// The call with this number.
    pub fn get(&self, number: u64) -> Option<&Call>
        ensures { option_copied result ≡ lookup (is_at (nat_cmp number)) self.now }
    {
        Some(self.calls.get(&number)?.as_call())
    }

    /// The call with this number, and its route.
    pub fn get_with_route(&self, number: u64) -> Option<(&Call, RoutePaths<'_>)>
        ensures call { option_map (λ found. found.0.now) result
            ≡ lookup (is_at (nat_cmp number)) self.now }
        ensures route { IfSome result (λ found. route_in found.1 ≡ route_of found.0.now.request) }
    {
        let placed = self.calls.get(&number)?;
        Some((placed.as_call(), placed.route()))
    }

    /// The calls in the order of their numbers.
    pub fn iter(&self) -> Iter<'_, u64, PlacedCall>
        ensures { result ≡ self.now }
    {
        self.calls.iter()
    }

    /// Sets the stage of the call with this number. Allocates nothing.
    pub fn set_stage(&mut self, number: u64, stage: Stage)
        ensures { self.new ≡ staged self.old number stage }
    {
        if let Some(placed) = self.calls.get_mut(&number) {
            placed.routed.call.stage = stage;
        }
    }

    /// Sets the pending reply of the call with this number. Returns the copy of its request.
    pub fn set_reply(&mut self, number: u64, reply: Reply) -> Option<Request>
        ensures calls { self.new ≡ answered self.old number reply }
        ensures copy { result
            ≡ option_and_then (λ (call : Call). call.copy)
            (lookup (is_at (nat_cmp number)) self.old) }
    {
        let placed = self.calls.get_mut(&number)?;
        placed.routed.call.reply = Some(reply);
        placed.routed.call.copy.take()
    }

    /// Removes the call with this number if it has a reply, and returns the reply.
    pub fn take_reply(&mut self, number: u64) -> Option<Reply>
        ensures reply { result
            ≡ option_and_then (λ (call : Call). call.reply)
            (lookup (is_at (nat_cmp number)) self.old) }
        ensures rest { self.new ≡ gone_where_answered self.old number result }
    {
        let waits = self.get(number)?.reply.is_some();
        if !waits {
            return None;
        }
        self.remove_reply(number)
    }

    /// Removes the call with this number and returns its reply. Not inlined, so that callers need
    /// no stack space for a call.
    #[inline(never)]
    fn remove_reply(&mut self, number: u64) -> Option<Reply>
        ensures reply { result
            ≡ option_and_then (λ (call : Call). call.reply)
            (lookup (is_at (nat_cmp number)) self.old) }
        ensures rest { self.new ≡ remove_entry (is_at (nat_cmp number)) self.old }
    {
        self.remove(number)?.into_reply()
    }

    /// Removes the call with this number.
    pub fn remove(&mut self, number: u64) -> Option<PlacedCall>
        ensures call { result ≡ lookup (is_at (nat_cmp number)) self.old }
        ensures rest { self.new ≡ remove_entry (is_at (nat_cmp number)) self.old }
    {
        self.calls.remove(&number)
    }
}
