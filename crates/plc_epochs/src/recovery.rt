//! A machine that recovers in its epoch: how it freezes, asks, answers, and goes on.

ghost use Rattle.std.specs.Prelude.{◌≡◌, ◌<◌, ◌&&◌, is_some};
ghost use Rattle.vr_model.specs.Groups.{most_replicas};
ghost use Rattle.plc_epochs.specs.Recovering.{answer_of, asking, asking_again, evidence, first_nonce, freezing};
ghost use Rattle.plc_epochs.specs.Recovering.{is_first_answer, is_first_in, is_frozen_long, is_second_answer, is_unasked};
ghost use Rattle.plc_epochs.specs.Recovering.{may_ask, may_ask_again, may_confirm, may_freeze, next_nonce, question_word};
ghost use Rattle.plc_epochs.specs.Recovering.{recovering_under, recovers_long, thawed, with_first, with_second};

use crate::told::{Moment, Told, count, has_told, nothing_told, with_told};
use crate::word::{Answer, Word};

/// So long a machine recovers before it freezes, in milliseconds.
pub const BEFORE_FREEZING: u64 = 1000;

/// For so many milliseconds it's frozen for itself and for each machine of the f that may fail. So machines that thaw one
/// after another are all frozen at one moment, though each is unfrozen for a second in turn.
const FROZEN_EACH: u64 = 1000;

/// So many nonces belong to each start of a machine.
const NONCES: u64 = 1 << 32;

/// What a machine has asked under its nonce.
#[derive(Clone, Copy)]
pub enum Question {
    Unasked,
    /// Whether others freeze: the nonces of those that did.
    First { frozen: Told },
    /// Whether those that froze still are: their nonces, and of those that are.
    Second { asked: Told, still: Told },
}

/// A machine that recovers.
#[derive(Clone, Copy)]
pub struct Recovery {
    /// Of its RECOVERY. It's never used before or again.
    pub nonce: u64,
    /// Since when it recovers under this nonce.
    pub since: Moment,
    /// Since when it's frozen, if it is: no RECOVERYRESPONSE is handed to its replica.
    pub frozen: Option<Moment>,
    pub question: Question,
}

/// The first nonce of a start of a machine.
pub(crate) fn first_nonce(starts: u32) -> u64
    ensures { result ≡ first_nonce starts }
{
    u64::from(starts) * NONCES
}

/// The nonce behind this one, if its start has one more.
fn next_nonce(nonce: u64) -> Option<u64>
    ensures { result ≡ next_nonce nonce }
{
    if nonce % NONCES < NONCES - 1 {
        Some(nonce + 1)
    } else {
        None
    }
}

impl Recovery {
    /// It recovers from now on, under this nonce.
    pub(crate) fn new(nonce: u64, now: Moment) -> Recovery
        ensures { result ≡ recovering_under nonce now }
    {
        Recovery {
            nonce,
            since: now,
            frozen: None,
            question: Question::Unasked,
        }
    }

    /// Whether it's frozen.
    pub fn is_frozen(&self) -> bool
        ensures { result ≡ is_some self.now.frozen }
    {
        self.frozen.is_some()
    }

    /// Whether it has recovered for a second under its nonce.
    pub(crate) fn recovers_long(&self, now: Moment) -> bool
        ensures { result ≡ recovers_long self.now now }
    {
        now.saturating_sub(self.since) >= BEFORE_FREEZING
    }

    /// Whether it has asked nothing yet.
    fn is_unasked(&self) -> bool
        ensures { result ≡ is_unasked self.now.question }
    {
        matches!(self.question, Question::Unasked)
    }

    /// Whether it may ask.
    pub(crate) fn may_ask(&self, now: Moment) -> bool
        ensures { result ≡ may_ask self.now now }
    {
        self.is_unasked() && self.recovers_long(now)
    }

    /// The same, once it asks.
    pub(crate) fn ask(self, now: Moment) -> Recovery
        ensures { result ≡ asking self now }
    {
        Recovery {
            frozen: Some(self.frozen.unwrap_or(now)),
            question: Question::First {
                frozen: nothing_told(),
            },
            ..self
        }
    }

    /// Whether it freezes where it's asked to.
    pub(crate) fn may_freeze(&self, now: Moment) -> bool
        ensures { result ≡ may_freeze self.now now }
    {
        self.is_frozen() || self.recovers_long(now)
    }

    /// The same, once it froze.
    pub(crate) fn freeze(self, now: Moment) -> Recovery
        ensures { result ≡ freezing self now }
    {
        Recovery {
            frozen: Some(self.frozen.unwrap_or(now)),
            ..self
        }
    }

    /// Its answer to a question.
    pub(crate) fn answer(&self, question: u64) -> Answer
        ensures { result ≡ answer_of self.now question }
    {
        Answer {
            question,
            nonce: self.nonce,
        }
    }

    /// Whether it asks this, which is its first question.
    pub(crate) fn asks_first(&self, question: u64) -> bool
        ensures { result ≡ is_first_in self.now.question self.now.nonce question }
    {
        match self.question {
            Question::First { .. } => question == self.nonce,
            _ => false,
        }
    }

    /// Whether an answer is one to its first question.
    pub(crate) fn is_first_answer(&self, answer: &Answer) -> bool
        ensures { result ≡ is_first_answer self.now answer.now }
    {
        self.asks_first(answer.question)
    }

    /// The same, with a machine that froze under this nonce.
    pub(crate) fn with_first(self, from: u8, nonce: u64) -> Recovery
        requires { from < most_replicas }
        ensures { result ≡ with_first self from nonce }
    {
        match self.question {
            Question::First { frozen } => Recovery {
                question: Question::First {
                    frozen: with_told(frozen, from, nonce),
                },
                ..self
            },
            _ => self,
        }
    }

    /// Whether so many others have frozen that it asks those once more.
    pub(crate) fn may_ask_again(&self, f: u8) -> bool
        ensures { result ≡ may_ask_again self.now f }
    {
        match &self.question {
            Question::First { frozen } => usize::from(f) <= count(frozen),
            _ => false,
        }
    }

    /// The same, once it asks those that froze.
    pub(crate) fn ask_again(self) -> Recovery
        ensures { result ≡ asking_again self }
    {
        match self.question {
            Question::First { frozen } => Recovery {
                question: Question::Second {
                    asked: frozen,
                    still: nothing_told(),
                },
                ..self
            },
            _ => self,
        }
    }

    /// Whether it says that it's still frozen, where these are asked, and it's the machine of this number.
    pub(crate) fn may_confirm(&self, number: u8, asked: &Told) -> bool
        ensures { result ≡ may_confirm self.now number asked.now }
    {
        self.is_frozen() && has_told(asked, number, self.nonce)
    }

    /// Whether an answer is one to its second question, of a machine that was asked, under the nonce that it told.
    pub(crate) fn is_second_answer(&self, from: u8, answer: &Answer) -> bool
        ensures { result ≡ is_second_answer self.now from answer.now }
    {
        match &self.question {
            Question::Second { asked, .. } => {
                answer.question == self.nonce && has_told(asked, from, answer.nonce)
            }
            _ => false,
        }
    }

    /// The same, with a machine that is still frozen under this nonce.
    pub(crate) fn with_second(self, from: u8, nonce: u64) -> Recovery
        requires { from < most_replicas }
        ensures { result ≡ with_second self from nonce }
    {
        match self.question {
            Question::Second { asked, still } => Recovery {
                question: Question::Second {
                    asked,
                    still: with_told(still, from, nonce),
                },
                ..self
            },
            _ => self,
        }
    }

    /// Whether it knows that its epoch can't go on: it's frozen, and f others still are.
    pub(crate) fn has_evidence(&self, f: u8) -> bool
        ensures { result ≡ evidence self.now f }
    {
        match &self.question {
            Question::Second { still, .. } => self.is_frozen() && usize::from(f) <= count(still),
            _ => false,
        }
    }

    /// Whether it has been frozen for f+1 seconds.
    fn is_frozen_long(&self, f: u8, now: Moment) -> bool
        ensures { result ≡ is_frozen_long self.now f now }
    {
        match self.frozen {
            Some(since) => now.saturating_sub(since) >= (u64::from(f) + 1) * FROZEN_EACH,
            None => false,
        }
    }

    /// What it is once it thaws, where it's time: it recovers anew, under the next nonce. `None` also where its start
    /// has no nonce left.
    pub(crate) fn thaw(&self, f: u8, now: Moment) -> Option<Recovery>
        ensures { result ≡ thawed self.now f now }
    {
        if !self.is_frozen_long(f, now) {
            return None;
        }
        let nonce = next_nonce(self.nonce)?;
        Some(Recovery::new(nonce, now))
    }

    /// What it asks others, again and again.
    pub(crate) fn question(&self) -> Option<Word>
        ensures { result ≡ question_word self.now.nonce self.now.question }
    {
        match self.question {
            Question::Unasked => None,
            Question::First { .. } => Some(Word::Freeze {
                question: self.nonce,
            }),
            Question::Second { asked, .. } => Some(Word::Confirm {
                question: self.nonce,
                asked,
            }),
        }
    }
}
