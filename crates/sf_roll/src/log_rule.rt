//! The rule of the table behind a log and its tokens.

use atomic_table::{Join, Play, Split, TableRule};
use std::collections::LinkedList;
use std::marker::{Brand, PhantomData};

/// What may be added to a log. A value of this type decides it.
pub trait LogGrowth<T> {
    ghost use Rattle.std.specs.Prelude.{List};

    /// The list that may be added to this log.
    ghost may_add: { Self → List T → List T → Type 0 };
}

/// What may be added, for proofs only. A call at `Brand` chooses it, so types that cross threads
/// don't mention it.
pub(crate) trait Adds<T> {
    ghost use Rattle.std.specs.Prelude.{List};

    ghost adds: { List T → List T → Type 0 };
}

impl<T> Adds<T> for Brand {
    ghost adds = { λ _ _. Unit {0} };
}

/// What a seat of the table knows of the log: all of it, if it writes, or a prefix. A seat can hold
/// a second prefix, of another seat. No value of this type is made.
pub struct LogView<T> {
    pub writes: bool,
    pub log: LinkedList<T>,
    pub beside: LinkedList<T>,
}

/// The rule: at most one seat writes, and every seat has a prefix of what that one knows.
pub struct IsSeen;

impl<T, S> TableRule<S, LogView<T>, ()> for IsSeen {
    ghost use Rattle.std.specs.Prelude.{[]};
    ghost use Rattle.sf_roll.specs.Seen.{AreSeen, writer};

    ghost holds = { λ _ s. AreSeen s.views };

    ghost first = { λ _. writer [] };
}

/// A second seat gets the same prefix.
pub(crate) struct Copies;

impl<T> Split<LogView<T>> for Copies {
    ghost use Rattle.sf_roll.specs.Seen.{reader_right};

    ghost left = { λ v. v };

    ghost right = { reader_right };
}

/// The writer takes the prefix of a reader.
pub(crate) struct Takes;

impl<T> Join<LogView<T>> for Takes {
    ghost use Rattle.std.specs.Prelude.{[]};
    ghost use Rattle.sf_roll.specs.Seen.{with_reader, reader};

    ghost both = { with_reader };

    ghost spent = { reader [] };
}

/// The writer compares that prefix with the log, and drops it.
pub(crate) struct Compares;

impl<T, S> Play<S, LogView<T>> for Compares {
    ghost use Rattle.sf_roll.specs.Seen.{compares};

    ghost then = { λ _ m _ m'. compares m m' };
}

/// The log grows.
pub(crate) struct Grows<W> {
    by: PhantomData<W>,
}

impl<T, S, W: Adds<T>> Play<S, LogView<T>> for Grows<W> {
    ghost use Rattle.sf_roll.specs.Seen.{grows};

    ghost then = { λ _ m _ m'. grows W.adds m m' };
}
