//! The server on which trees are built.

ghost use Rattle.std.specs.Prelude.{◌≡◌, ℕ, List, [], ◌∷◌, ◌++◌, Ok, Err, IfOk, IfErr};
ghost use Rattle.sf_trees.specs.declared.fault.TreeFault.{TreeFault};
ghost use Rattle.sf_trees.specs.Operations.{Operation, Begins, Asks, Ends, Does, IsAsked, fault_in_reply, done_by, handle_by, refused_at, request_place};

use crate::fault::{Place, Refused, TreeFault};
use sf_reply::{Reply, StatusCode};
use sf_request::WireRequest;

/// An SFTP server. Each session sends one request after the other.
pub trait Server {
    /// The operations that lead from one state of the server to another.
    ghost reaches: { Self → List Operation → Self → Type 0 };

    /// Opens a session.
    fn begin(&mut self) -> Result<u64, TreeFault>
        ensures { reaches self.old (Begins result ∷ []) self.new };

    /// Sends a request of a session, and receives the reply.
    fn ask(&mut self, session: u64, request: &WireRequest) -> Result<Reply, TreeFault>
        ensures { reaches self.old (Asks session request.now result ∷ []) self.new };

    /// Closes a session.
    fn finish(&mut self, session: u64)
        ensures { reaches self.old (Ends session ∷ []) self.new };

    ghost none: { (a : Self) → reaches a [] a };

    ghost on: { (a b c : Self) (first second : List Operation) → reaches a first b
        → reaches b second c → reaches a (first ++ second) c };
}

/// The error for an unexpected reply.
pub(crate) fn refusal_of(reply: &Reply) -> TreeFault
    ensures { result ≡ fault_in_reply reply.now }
{
    match reply {
        Reply::Status(code) => TreeFault::Status(*code),
        Reply::NoMemory => TreeFault::OutOfMemory,
        _ => TreeFault::Reply,
    }
}

/// Whether a request was done.
fn done_by(place: Place, outcome: &Result<Reply, TreeFault>) -> Result<(), Refused>
    ensures { result ≡ done_by place outcome.now }
{
    match outcome {
        Ok(Reply::Status(StatusCode::Success)) => Ok(()),
        Ok(reply) => Err(Refused {
            fault: refusal_of(reply),
            place,
        }),
        Err(fault) => Err(Refused {
            fault: *fault,
            place,
        }),
    }
}

/// Sends a request that expects a status.
pub(crate) fn succeed<S: Server>(
    server: &mut S,
    session: u64,
    request: &WireRequest,
    place: Place,
) -> Result<(), Refused>
    ensures { Does S.reaches server.old server.new
        (IsAsked session request.now (done_by place)) result }
{
    let outcome = server.ask(session, request);
    done_by(place, &outcome)
}

/// The number of a handle that was opened.
fn handle_by(place: Place, outcome: &Result<Reply, TreeFault>) -> Result<u64, Refused>
    ensures { result ≡ handle_by place outcome.now }
{
    match outcome {
        Ok(Reply::Handle(number)) => Ok(*number),
        Ok(reply) => Err(Refused {
            fault: refusal_of(reply),
            place,
        }),
        Err(fault) => Err(Refused {
            fault: *fault,
            place,
        }),
    }
}

/// Sends a request that expects a handle.
pub(crate) fn open<S: Server>(
    server: &mut S,
    session: u64,
    request: &WireRequest,
    place: Place,
) -> Result<u64, Refused>
    ensures { Does S.reaches server.old server.new
        (IsAsked session request.now (handle_by place)) result }
{
    let outcome = server.ask(session, request);
    handle_by(place, &outcome)
}

/// Opens a session.
pub(crate) fn begin<S: Server>(server: &mut S) -> Result<u64, Refused>
    ensures ok { IfOk result (λ session.
        S.reaches server.old (Begins (Ok session) ∷ []) server.new) }
    ensures err { IfErr result (λ r. (why : TreeFault)
        × S.reaches server.old (Begins (Err why) ∷ []) server.new
        × (r ≡ refused_at (request_place 1 0) why)) }
{
    match server.begin() {
        Ok(session) => Ok(session),
        Err(fault) => Err(Refused {
            fault,
            place: Place { kind: 1, length: 0 },
        }),
    }
}
