//! The `Server` of `sf_trees` on an engine.

ghost use Rattle.std.specs.Prelude.{◌≡◌};
ghost use Rattle.sf_trees.specs.Operations.{Asks};
ghost use Rattle.sf_asking.specs.Asking.{IsDone, OpensGreeted};

use crate::conversing::{close, open, say, take, welcome};
use sf_engine::Sftp;
use sf_reply::Reply;
use sf_request::WireRequest;
use sf_trees::{Server, TreeFault, is_too_long};
use std::alloc::Global;
use std::marker::Model;

/// An engine with sessions that send requests one at a time, all with one timestamp.
#[derive(Drop)]
pub struct Asker<E: Sftp> {
    engine: Box<E, Global>,
    alloc: Global,
    moment: u32,
}

impl<E: Sftp> Model for Asker<E> {
    ghost use Rattle.sf_asking.specs.Askers.{AskerView};

    ghost Value = { AskerView E };

    ghost view = { λ a. record { engine = a.engine.value; moment = a.moment } };
}

/// Opens a session, and initializes it.
fn begin<E: Sftp>(engine: &mut E, moment: u32) -> Result<u64, TreeFault>
    ensures { OpensGreeted E.has_log moment engine.old result engine.new }
{
    let session = open(engine)?;
    welcome(engine, session, moment)?;
    Ok(session)
}

/// Sends a request, and receives its reply.
fn ask<E: Sftp>(
    engine: &mut E,
    alloc: Global,
    moment: u32,
    session: u64,
    request: &WireRequest,
) -> Result<Reply, TreeFault>
    ensures { IsDone E.has_log moment (Asks session request.now result) engine.old engine.new }
{
    if is_too_long(request) {
        return Err(TreeFault::Path);
    }
    say(engine, alloc, session, moment, request)?;
    let reply = take(engine, alloc, session)?;
    Ok(reply)
}

impl<E: Sftp> Asker<E> {
    /// An asker on an engine. `moment` is the timestamp of all requests, in seconds since 1970.
    pub fn new(engine: Box<E, Global>, alloc: Global, moment: u32) -> Asker<E>
        ensures { result ≡ record { engine = engine.value; moment = moment } }
    {
        Asker {
            engine,
            alloc,
            moment,
        }
    }

    /// Returns the engine.
    pub fn into_engine(self) -> Box<E, Global>
        ensures { result.value ≡ self.engine }
    {
        let Asker { engine, .. } = self;
        engine
    }
}

impl<E: Sftp> Server for Asker<E> {
    ghost use Rattle.sf_asking.specs.Asking.{Reaches};
    ghost use Rattle.sf_asking.specs.Laws.{none_done, done_on};

    ghost reaches = { Reaches E.has_log };

    ghost none = { none_done E.has_log };

    ghost on = { done_on E.has_log };

    fn begin(&mut self) -> Result<u64, TreeFault> {
        begin(&mut *self.engine, self.moment)
    }

    fn ask(&mut self, session: u64, request: &WireRequest) -> Result<Reply, TreeFault> {
        ask(&mut *self.engine, self.alloc, self.moment, session, request)
    }

    fn finish(&mut self, session: u64) {
        close(&mut *self.engine, session, self.moment);
    }
}
