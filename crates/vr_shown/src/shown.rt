//! What shows of a replica, and the words that are published for it.

ghost use Rattle.std.specs.Prelude.{◌≡◌};
ghost use Rattle.vr_shown.specs.declared.shown.Shown.{Shown as View};
ghost use Rattle.vr_shown.specs.Showing.{nothing_shown, shows_normal, shown_words, status_word, flag_word};
ghost use Rattle.vr_shown.specs.Showing.{down_standing, while_starting};

use vr_model::{Standing, Status};

/// So many words stand for what shows of a replica.
pub const WORDS: usize = 8;

/// What shows of a replica. It is down until a start of it is counted. Then, before its first step, it is normal in
/// view 0 where that was its first start, and down otherwise; after each step it is what the replica is then. Once it
/// is served no more it is down again.
#[derive(Clone, Copy, Debug, PartialEq, Eq)]
pub struct Shown {
    pub standing: Standing,
    /// How often it was started, with its last start; 0 until a start is counted.
    pub starts: u64,
    /// Whether its store has failed, at its last start or since: then it is down until it is started anew.
    pub has_failed: bool,
    /// How many orders to start it have come to an end: it was served then, or could not be.
    pub tries: u64,
    /// Whether its thread serves it now.
    pub is_served: bool,
    /// How many of its messages were lost by its last step because they are too long for a frame.
    pub frameless: u64,
}

impl Shown {
    /// What shows of a replica no start of which was counted.
    pub fn nothing() -> Shown
        ensures { result ≡ nothing_shown }
    {
        Shown {
            standing: down(),
            starts: 0,
            has_failed: false,
            tries: 0,
            is_served: false,
            frameless: 0,
        }
    }

    /// What shows of a replica that is being started, by what showed before.
    pub fn starting(self) -> Shown
        ensures { result ≡ while_starting self }
    {
        Shown {
            standing: down(),
            starts: self.starts,
            has_failed: self.has_failed,
            tries: self.tries,
            is_served: self.is_served,
            frameless: self.frameless,
        }
    }

    /// Whether its view goes on normally, and its store has not failed.
    pub fn is_normal(self) -> bool
        ensures { result ≡ shows_normal self }
    {
        match self.standing.status {
            Status::Normal => !self.has_failed,
            Status::ViewChange | Status::Recovering | Status::Down => false,
        }
    }

    /// The words that are published for it.
    pub fn words(self) -> [u64; WORDS]
        ensures { result ≡ shown_words self }
    {
        [
            status_word(self.standing.status),
            self.standing.view,
            flag_word(self.standing.is_primary),
            self.starts,
            flag_word(self.has_failed),
            self.tries,
            flag_word(self.is_served),
            self.frameless,
        ]
    }

    /// What was published as these words.
    pub fn from_words(words: [u64; WORDS]) -> Shown
        ensures { (shown : View) → words ≡ shown_words shown → result ≡ shown }
    {
        Shown {
            standing: Standing {
                status: status_from(words[0]),
                view: words[1],
                is_primary: words[2] == 1,
            },
            starts: words[3],
            has_failed: words[4] == 1,
            tries: words[5],
            is_served: words[6] == 1,
            frameless: words[7],
        }
    }
}

/// What a replica that is down is.
pub(crate) fn down() -> Standing
    ensures { result ≡ down_standing }
{
    Standing {
        status: Status::Down,
        view: 0,
        is_primary: false,
    }
}

/// The word of a status.
fn status_word(status: Status) -> u64
    ensures { result ≡ status_word status }
{
    match status {
        Status::Down => 0,
        Status::Normal => 1,
        Status::ViewChange => 2,
        Status::Recovering => 3,
    }
}

/// The status of this word; `Down` for a word of none.
fn status_from(word: u64) -> Status
    ensures { (status : _) → word ≡ status_word status → result ≡ status }
{
    match word {
        1 => Status::Normal,
        2 => Status::ViewChange,
        3 => Status::Recovering,
        _ => Status::Down,
    }
}

/// The word of a flag.
fn flag_word(flag: bool) -> u64
    ensures { result ≡ flag_word flag }
{
    if flag { 1 } else { 0 }
}
