//! Clocks.

ghost use Rattle.std.specs.Prelude.{List, ℕ, [], ◌∷◌, Option};
ghost use Rattle.std.specs.Io.KnownBytes.{Appends};

/// A source of timestamps, in seconds since 1970-01-01 UTC.
pub trait Clock {
    /// The timestamps returned so far, if the clock records them; recording never stops.
    ghost moments: { Self → Option (List ℕ) };

    /// The current time.
    fn now(&mut self) -> u32
        ensures { Appends (moments self.old) (moments self.new) (result ∷ []) };
}
