//! A session with its own engine.

ghost use Rattle.std.specs.Prelude.{◌<◌};
ghost use Rattle.sf_alone.specs.Talks.{talk_view, ConversesTo};

use crate::on_engine::serve_one;
use sf_connection::{LineStream, NoObserver};
use sf_engine::Engine;
use sf_line::Line;
use sf_session::{Cause, Clock, ServeFault};
use std::alloc::Global;

/// Serves one session over a blocking stream until its input or the session ends, on a new engine
/// that retains the last `keep` records. Returns the stream too. The bytes read and written and the
/// clock's timestamps form a conversation; it is a complete one on success.
pub fn serve_alone<L: Line, C: Clock>(
    alloc: Global,
    keep: usize,
    line: L,
    clock: &mut C,
) -> (Result<Cause, ServeFault>, L)
    requires { 0 < keep }
    ensures { ConversesTo (talk_view (L.incoming line) (C.moments clock.old) (L.outgoing line))
        (talk_view (L.incoming result.1) (C.moments clock.new) (L.outgoing result.1)) result.0 }
{
    match Engine::with_keep(alloc, keep) {
        Ok(engine) => {
            let mut engine = engine;
            let stream = LineStream::new(line);
            let (outcome, stream) = serve_one(alloc, &mut engine, stream, clock, &NoObserver);
            (outcome, stream.into_line())
        }
        Err(_) => (Err(ServeFault::OutOfMemory), line),
    }
}
