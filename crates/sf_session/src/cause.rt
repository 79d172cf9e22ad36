//! Causes of a session's end.

ghost use Rattle.std.specs.Prelude.{◌≡◌};
ghost use Rattle.sf_session.specs.Causes.{words_of};

use std::fmt;

/// Why a session ended. A packet's fault takes effect after all earlier packets are processed.
#[derive(Clone, Copy, Debug, PartialEq, Eq)]
pub enum Cause {
    NotInit = 1,
    OldVersion = 2,
    SecondInit = 3,
    ZeroLength = 4,
    TooLong = 5,
    /// A packet without a complete id, or INIT without a complete version.
    NoId = 6,
    /// The input ended, or the session was closed.
    Closed = 7,
}

impl Cause {
    /// A description of the cause, for logs.
    pub fn words(self) -> &'static str
        ensures { result.now ≡ words_of self }
    {
        match self {
            Cause::NotInit => "first packet is not INIT",
            Cause::OldVersion => "client version below 3",
            Cause::SecondInit => "second INIT",
            Cause::ZeroLength => "length 0",
            Cause::TooLong => "length above 262144",
            Cause::NoId => "no room for an id",
            Cause::Closed => "closed",
        }
    }
}

impl fmt::Display for Cause {
    ghost use Rattle.std.specs.Prelude.{Some};
    ghost use Rattle.sf_session.specs.Causes.{words_of};

    ghost output = { λ cause. Some (words_of cause) };

    fn fmt<W: fmt::Write>(&self, f: &mut fmt::Formatter<W>) -> fmt::Result {
        f.write_str(self.words())
    }
}
