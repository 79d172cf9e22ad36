//! Which connections of a worker are advanced next.

ghost use Rattle.std.specs.Prelude.{◌≡◌, ◌≤◌, ◌<◌, ◌⊎◌, ◌==◌, ◌++◌, [], ◌∷◌, ℕ, length, Contains, option_to_list, IfNone, IfOk};

use std::alloc::{AllocError, Global};
use std::collections::VecDeque;
use std::marker::Model;

/// The number of keys.
pub(crate) const KEYS: usize = 256;

/// The keys of connections to advance: each at most once, in the order in which they were added.
#[derive(Drop)]
pub(crate) struct ReadyKeys {
    queue: VecDeque<usize>,
    /// The flags of the keys that are in the queue.
    is_queued: Vec<bool>,
}

impl Model for ReadyKeys {
    ghost use Rattle.std.specs.Prelude.{◌≡◌, ◌≤◌, List, ℕ, vec_len};
    ghost use Rattle.std.specs.VecDeque.{deque_capacity};
    ghost use Rattle.sf_workers.specs.Ready.{IsKeyQueue};

    ghost Value = { List ℕ };

    ghost view = { λ r. r.queue.items };

    ghost invariant = { λ r. IsKeyQueue r.queue.items r.is_queued.items
        × (vec_len r.is_queued ≡ 256) × (256 ≤ deque_capacity r.queue) };
}

impl ReadyKeys {
    /// No keys.
    pub(crate) fn none(alloc: Global) -> Result<ReadyKeys, AllocError>
        ensures { IfOk result (λ ready. ready ≡ []) }
    {
        Ok(ReadyKeys {
            queue: VecDeque::with_capacity(alloc, KEYS)?,
            is_queued: vec![in alloc; false; KEYS]?,
        })
    }

    /// Whether there are no keys.
    pub(crate) fn is_empty(&self) -> bool
        ensures { result ≡ (length self.now == 0) }
    {
        self.queue.is_empty()
    }

    /// Adds a key as the last one, unless it is there.
    pub(crate) fn add(&mut self, key: usize)
        ensures added { key < 256 → ¬ Contains self.old key → self.new ≡ self.old ++ key ∷ [] }
        ensures same { Contains self.old key ⊎ (256 ≤ key) → self.new ≡ self.old }
    {
        if key < KEYS && !self.is_queued[key] {
            self.is_queued[key] = true;
            self.queue.push_back_reserved(key);
        }
    }

    /// Removes the first key.
    pub(crate) fn take(&mut self) -> Option<usize>
        ensures first { self.old ≡ option_to_list result ++ self.new }
        ensures none { IfNone result (self.old ≡ []) }
    {
        let key = self.queue.pop_front()?;
        self.is_queued[key] = false;
        Some(key)
    }
}
