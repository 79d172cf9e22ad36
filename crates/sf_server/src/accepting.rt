//! How a server accepts connections and hands them to workers.

ghost use Rattle.std.specs.Prelude.{◌≡◌, List, [], ◌∷◌, Option, IfSome, IfNone, true, false};
ghost use Rattle.sf_pool.specs.SessionLanes.{Notes};
ghost use Rattle.sf_server.specs.Accepting.{GivesNext, GivesNone, TakesLines};

use std::sync::Wait;

/// Where connections come from.
pub trait Acceptor<L> {
    /// The result of each call of `accept`, in order, if it is known.
    ghost given: { Self → Option (List (Option L)) };

    /// No more connections will come.
    ghost closed: { Self → Type 0 };

    /// The next connection, if there is one now.
    fn accept(&mut self) -> Option<L>
        ensures { Notes (given self.old) (given self.new) (result ∷ []) };

    /// Whether no more connections will come.
    fn is_closed(&self) -> bool
        ensures { result ≡ true → closed self.now };

    /// Waits before the next try.
    fn wait(&mut self)
        ensures { given self.new ≡ given self.old };
}

/// Who serves connections.
pub trait Taker<L> {
    /// The connections that it took, in order, if they are known.
    ghost taken: { Self → Option (List L) };

    /// Takes a connection, and returns whether it did. It takes none once it has ended.
    fn take(&mut self, line: L) -> bool
        ensures taken { result ≡ true → Notes (taken self.old) (taken self.new) (line ∷ []) }
        ensures ended { result ≡ false → taken self.new ≡ taken self.old };
}

/// Why no more connections are accepted.
#[derive(Clone, Copy, Debug, PartialEq, Eq)]
pub enum Stopped {
    /// The requested number was taken.
    All,
    /// The taker has ended: the last connection was closed.
    Ended,
    /// No more connections will come.
    Closed,
}

/// The next connection. Tries until there is one, or no more will come.
fn next_line<L, A: Acceptor<L>>(threads: &impl Wait, acceptor: &mut A) -> Option<L>
    ensures some { IfSome result (GivesNext (A.given acceptor.old) (A.given acceptor.new)) }
    ensures none { IfNone result (GivesNone (A.given acceptor.old) (A.given acceptor.new)
        × A.closed acceptor.new) }
{
    for _ in threads.forever() {
        if let Some(line) = acceptor.accept() {
            return Some(line);
        }
        if acceptor.is_closed() {
            return None;
        }
        acceptor.wait();
    }
    unreachable!()
}

/// Accepts `most` connections, or fewer if no more will come, and hands each to the taker once, in
/// order.
pub fn accept_all<L: Drop, A: Acceptor<L>, T: Taker<L>>(
    threads: &impl Wait,
    acceptor: &mut A,
    taker: &mut T,
    most: u64,
) -> Stopped
    ensures takes { TakesLines most result (A.given acceptor.old) (A.given acceptor.new)
        (T.taken taker.old) (T.taken taker.new) }
    ensures closed { result ≡ Stopped.Closed → A.closed acceptor.new }
{
    for _ in 0..most {
        let Some(line) = next_line(threads, acceptor) else {
            return Stopped::Closed;
        };
        if !taker.take(line) {
            return Stopped::Ended;
        }
    }
    Stopped::All
}
