//! The open connections of one worker.

ghost use Rattle.std.specs.Prelude.{◌≡◌, ◌<◌, ◌≤◌, ◌+◌, ◌⊎◌, [], ◌∷◌, map, true, vec_len, IsPermutation, IfOk, OnOk, IfErr};
ghost use Rattle.std.specs.Vec.{vec_capacity};
ghost use Rattle.slab.specs.Slab.{slab_len, values, HasRoomFor};
ghost use Rattle.sf_noted.specs.Visits.{visit_calls};
ghost use Rattle.sf_workers.specs.LaneSessions.{AreOpenSessions, OpensSession, stream_before};
ghost use Rattle.sf_workers.specs.Streams.{ServesStreams, ServesSource, IsRefusedFor};

use crate::open_session::{
    EndedSession, OpenSession, Place, RefusedSession, advance_session, end_session,
};
use crate::ready::{KEYS, ReadyKeys};
use crate::sessions::Sessions;
use crate::streams::{Event, Refusal, StreamSource};
use sf_call::Record;
use sf_connection::{Stream, Wants};
use sf_pool::StepObserver;
use sf_roll::{RollName, Seen};
use sf_session::Clock;
use slab::Slab;
use std::alloc::Global;
use std::sync::Wait;
use std::sync::ledger::{Ledger, Share};

/// The open connections of a worker, at most 256, and its sessions that have ended. Each open one
/// has a part of the worker's share. Memory is reserved to note their sessions.
#[derive(Drop)]
pub(crate) struct Connections<'a, R: Wait, B: RollName + Ledger, G, L> {
    active: Slab<OpenSession<'a, R, B, G, L>>,
    sessions: Sessions<B>,
    share: Share<B>,
    seen: Seen<Record, B>,
    ghost parts: { share.parts + slab_len active ≡ 257 },
    ghost counted: { share.amount ≡ visit_calls sessions.visits.items },
    ghost visits: { vec_len sessions.visits + slab_len active ≤ vec_capacity sessions.visits },
    ghost transcripts: { vec_len sessions.transcripts + slab_len active
        ≤ vec_capacity sessions.transcripts },
}

impl<'a, R: Wait, B: RollName + Ledger, G: StepObserver, L: Stream> Connections<'a, R, B, G, L> {
    /// No connections.
    pub(crate) fn none(
        alloc: Global,
        keeps: bool,
        share: Share<B>,
        seen: Seen<Record, B>,
    ) -> Connections<'a, R, B, G, L>
        requires parts { share.parts ≡ 257 }
        requires none { share.amount ≡ 0 }
        ensures active { values result.active ≡ [] }
        ensures keeps { result.sessions.keeps ≡ keeps }
        ensures visits { result.sessions.visits.items ≡ [] }
    {
        Connections {
            active: Slab::new(alloc),
            sessions: Sessions::none(alloc, keeps),
            share,
            seen,
        }
    }

    /// Whether no connection is open.
    pub(crate) fn are_closed(&self) -> bool
        ensures { result ≡ true → values self.now.active ≡ [] }
    {
        self.active.is_empty()
    }

    /// Reserves memory for one more connection, and returns its key.
    fn reserve(&mut self) -> Result<usize, Refusal>
        ensures values { values self.new.active ≡ values self.old.active }
        ensures lens { slab_len self.new.active ≡ slab_len self.old.active }
        ensures visits { self.new.sessions.visits.items ≡ self.old.sessions.visits.items }
        ensures keeps { self.new.sessions.keeps ≡ self.old.sessions.keeps }
        ensures few { OnOk result (slab_len self.new.active < 256) }
        ensures key { IfOk result (λ key. (key ≡ self.new.active.vacant_key) × (key < 256)) }
        ensures room { OnOk result (HasRoomFor self.new.active 1) }
        ensures visits_room { OnOk result (vec_len self.new.sessions.visits
            + (slab_len self.new.active + 1) ≤ vec_capacity self.new.sessions.visits) }
        ensures transcripts_room { OnOk result (vec_len self.new.sessions.transcripts
            + (slab_len self.new.active + 1) ≤ vec_capacity self.new.sessions.transcripts) }
        ensures why { IfErr result (λ why. IsRefusedFor why
            ((256 ≤ slab_len self.old.active) ⊎ (256 ≤ self.old.active.vacant_key))
            ((vec_capacity self.old.sessions.visits
            < vec_len self.old.sessions.visits + (slab_len self.old.active + 1))
            ⊎ (vec_capacity self.old.sessions.transcripts
            < vec_len self.old.sessions.transcripts + (slab_len self.old.active + 1))
            ⊎ (self.old.active.capacity < slab_len self.old.active + 1))) }
    {
        let key = self.active.vacant_key();
        let len = self.active.len();
        if len >= KEYS || key >= KEYS {
            return Err(Refusal::Full);
        }
        if let Err(error) = self.sessions.reserve(len + 1) {
            return Err(Refusal::OutOfMemory(error));
        }
        if let Err(error) = self.active.reserve(1) {
            return Err(Refusal::OutOfMemory(error));
        }
        Ok(key)
    }

    /// Begins a session over a stream. Returns its key, or the stream, untouched, and why.
    fn begin<S: StreamSource<L>>(
        &mut self,
        place: &Place<'a, R, B, G>,
        source: &mut S,
        stream: L,
    ) -> Result<usize, (L, Refusal)>
        ensures opened { OnOk result (OpensSession L.view stream self.old.sessions.keeps
            (values self.old.active) (values self.new.active)) }
        ensures why { IfErr result (λ r. IsRefusedFor r.1
            ((256 ≤ slab_len self.old.active) ⊎ (256 ≤ self.old.active.vacant_key))
            ((vec_capacity self.old.sessions.visits
            < vec_len self.old.sessions.visits + (slab_len self.old.active + 1))
            ⊎ (vec_capacity self.old.sessions.transcripts
            < vec_len self.old.sessions.transcripts + (slab_len self.old.active + 1))
            ⊎ (self.old.active.capacity < slab_len self.old.active + 1))) }
        ensures refused { IfErr result (λ r. (r.0 ≡ stream)
            × (values self.new.active ≡ values self.old.active)) }
        ensures visits { self.new.sessions.visits.items ≡ self.old.sessions.visits.items }
        ensures keeps { self.new.sessions.keeps ≡ self.old.sessions.keeps }
        ensures source { S.view source.new ≡ S.view source.old }
    {
        let key = match self.reserve() {
            Ok(key) => key,
            Err(why) => return Err((stream, why)),
        };
        if !source.watch(&stream, key) {
            return Err((stream, Refusal::Unwatched));
        }
        let lent = self.share.split_off(1, 0);
        match place.open(lent, &mut self.seen, self.sessions.keeps, stream) {
            Ok(session) => Ok(self.active.insert_reserved(session)),
            Err(refused) => {
                let RefusedSession {
                    refusal,
                    share: own,
                    stream,
                } = refused;
                self.share.merge(own);
                Err((stream, Refusal::NotJoined(refusal)))
            }
        }
    }

    /// Begins a session over a stream, which is advanced in its turn. Or refuses it and returns the
    /// stream to the source.
    fn accept<S: StreamSource<L>>(
        &mut self,
        place: &Place<'a, R, B, G>,
        source: &mut S,
        ready: &mut ReadyKeys,
        stream: L,
    )
        requires { AreOpenSessions L.view self.old.sessions.keeps
            (values self.old.active) }
        ensures going { AreOpenSessions L.view self.new.sessions.keeps
            (values self.new.active) }
        ensures keeps { self.new.sessions.keeps ≡ self.old.sessions.keeps }
        ensures streams { ServesStreams L.view (map stream_before (values self.old.active))
            (stream ∷ [])
            (map stream_before (values self.new.active)) (S.view source.old).returned
            (S.view source.new).returned self.old.sessions.visits.items
            self.new.sessions.visits.items }
        ensures received { (S.view source.new).received ≡ (S.view source.old).received }
        ensures count { (S.view source.new).count ≡ (S.view source.old).count }
    {
        match self.begin(place, source, stream) {
            Ok(key) => ready.add(key),
            Err((stream, why)) => source.give_back(stream, Some(why)),
        }
    }

    /// Handles what the source reports next.
    pub(crate) fn handle_next<S: StreamSource<L>>(
        &mut self,
        place: &Place<'a, R, B, G>,
        source: &mut S,
        ready: &mut ReadyKeys,
        waits: bool,
    )
        requires { AreOpenSessions L.view self.old.sessions.keeps
            (values self.old.active) }
        ensures going { AreOpenSessions L.view self.new.sessions.keeps
            (values self.new.active) }
        ensures keeps { self.new.sessions.keeps ≡ self.old.sessions.keeps }
        ensures streams { ServesSource L.view (S.view source.old) (S.view source.new)
            (map stream_before (values self.old.active))
            (map stream_before (values self.new.active))
            self.old.sessions.visits.items self.new.sessions.visits.items }
    {
        match source.next(waits) {
            Event::Arrived(stream) => self.accept(place, source, ready, stream),
            Event::Ready(key) => ready.add(key),
            Event::Nothing => {}
        }
    }

    /// Advances a connection. If its session has ended, notes it, and returns the stream to the
    /// source.
    pub(crate) fn advance<S: StreamSource<L>, C: Clock>(
        &mut self,
        source: &mut S,
        ready: &mut ReadyKeys,
        key: usize,
        clock: &mut C,
        piece: &mut Vec<u8>,
    )
        requires going { AreOpenSessions L.view self.old.sessions.keeps
            (values self.old.active) }
        requires room { vec_len piece.old ≡ 65536 }
        ensures going { AreOpenSessions L.view self.new.sessions.keeps
            (values self.new.active) }
        ensures keeps { self.new.sessions.keeps ≡ self.old.sessions.keeps }
        ensures streams { ServesSource L.view (S.view source.old) (S.view source.new)
            (map stream_before (values self.old.active))
            (map stream_before (values self.new.active))
            self.old.sessions.visits.items self.new.sessions.visits.items }
        ensures len { vec_len piece.new ≡ vec_len piece.old }
    {
        let Some(session) = self.active.get_mut(key) else {
            return;
        };
        let wants = advance_session(session, clock, piece);
        if let Wants::Ended(_) = wants {
            let EndedSession {
                visit,
                transcript,
                share,
                steps: _,
                seen,
                stream,
            } = end_session(self.active.remove(key));
            self.share.merge(share);
            self.seen = seen;
            self.sessions.add(visit, transcript);
            source.give_back(stream, None);
            return;
        }
        if wants == Wants::Again {
            ready.add(key);
        }
    }

    /// The sessions, once no connection is open.
    pub(crate) fn into_parts(self) -> (Sessions<B>, Share<B>, Seen<Record, B>)
    where
        L: Drop,
        requires { values self.active ≡ [] }
        ensures sessions { result.0 ≡ self.entry.sessions }
        ensures parts { result.1.parts ≡ 257 }
        ensures counted { result.1.amount ≡ visit_calls self.entry.sessions.visits.items }
    {
        let Connections {
            active: _active,
            sessions,
            share,
            seen,
        } = self;
        (sessions, share, seen)
    }
}
