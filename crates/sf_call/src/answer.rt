//! Replies with the numbers of their calls and sessions.

ghost use Rattle.std.specs.Prelude.{◌≡◌};
ghost use Rattle.sf_call.specs.Answers.{AnswerView};
ghost use Rattle.sf_call.specs.Histories.{IsGiven};

use sf_reply::Reply;
use std::marker::Model;

/// The reply to a call of a session. After some legal history it is the specified reply to the
/// call's request, or out of memory.
#[derive(Debug, Drop)]
pub struct Answer {
    number: u64,
    session: u64,
    reply: Reply,
}

impl Model for Answer {
    ghost use Rattle.sf_call.specs.Answers.{AnswerView};
    ghost use Rattle.sf_call.specs.Histories.{IsGiven};

    ghost Value = { AnswerView };

    ghost view = { λ a. record { number = a.number; session = a.session; reply = a.reply } };

    ghost invariant = { λ a. IsGiven a.number a.session a.reply };
}

impl Answer {
    /// Requires a legal history that leads to the reply. Allocates nothing.
    pub fn new(number: u64, session: u64, reply: Reply) -> Answer
        requires { IsGiven number session reply }
        ensures { result ≡ record { number = number; session = session; reply = reply } }
    {
        Answer {
            number,
            session,
            reply,
        }
    }

    /// The number of the call.
    pub fn number(&self) -> u64
        ensures { result ≡ self.now.number }
    {
        self.number
    }

    /// The number of the session that made the call.
    pub fn session(&self) -> u64
        ensures { result ≡ self.now.session }
    {
        self.session
    }

    /// The reply.
    pub fn reply(&self) -> &Reply
        ensures reply { result.now ≡ self.now.reply }
        ensures given { IsGiven self.now.number self.now.session result.now }
    {
        &self.reply
    }
}
