//! What the thread of a replica does about the epochs of its group.

ghost use Rattle.std.specs.Prelude.{◌≡◌, false, true, IfSome, IsNone, Some};
ghost use Rattle.plc_epochs.specs.Table as table;
ghost use Rattle.plc_host_core.specs.Keeping as spec;
ghost use Rattle.plc_host_core.specs.Reaching.{is_frozen, lets_through, recovering_in};

use crate::reaching::{is_answer, recovering_in};
use net_hello::Epoch;
use plc_epochs::{ColdStart, Kept, Moment, Step, Word};
use vr_model::Message;

/// In milliseconds: so often it looks at its epoch.
const POLL: Moment = 50;

/// In milliseconds: so often it says again what it asks.
const ASKING: Moment = 100;

/// What an operator is told of an epoch.
#[derive(Clone, Copy)]
pub enum EpochNotice {
    /// A machine that this one asked is marked: a cold start takes a person.
    Marked,
    /// Another machine is in this later epoch, and this group goes on in its own.
    Refused(Epoch),
    /// Another machine is in this epoch, more than one above: following it takes a person.
    FarAbove(Epoch),
    /// Another machine is in this later epoch, whose program its store hasn't: following it takes a person.
    OtherProgram(Epoch),
}

/// Why the life of a machine is over.
#[derive(Clone, Copy, Debug, PartialEq, Eq)]
pub enum LifeEnd {
    /// Its epoch can't go on.
    EpochEnded,
    /// Another machine is in a later epoch.
    LaterHeard,
    /// Its disk was lost: it waits for an epoch above those of the others.
    WaitsAbove,
}

/// What the thread of a replica is to do about epochs.
#[derive(Clone, Copy)]
pub enum EpochAction {
    Rests,
    /// This is said to the machine whose word came.
    Answers(Word),
    /// This is told of the machine that came.
    Tells(EpochNotice),
    /// Its store is to have this: `stored` tells that.
    Keeps(Kept),
    /// Its replica starts, normal in view 0; its store counts that start.
    Starts,
    /// Its replica crashes, and recovers anew under this nonce.
    Thaws(u64),
    /// The life of its machine is over for that, and the store is to have this.
    Leaves(LifeEnd, Kept),
}

/// What a machine asks all others, and in which epoch.
#[derive(Clone, Copy)]
pub struct Question {
    pub epoch: Epoch,
    pub word: Word,
}

/// What keeps to the epochs of a group, for the thread of a replica.
#[derive(Drop)]
pub struct EpochKeeper {
    pub(crate) cold_start: ColdStart,
    /// When it looked at its epoch last.
    pub(crate) looked: Option<Moment>,
    /// When it said last what it asks.
    pub(crate) asked: Option<Moment>,
    /// The life of its machine is over.
    pub(crate) has_left: bool,
}

/// Whether so much time has passed since then, if that was at all.
fn is_past(then: Option<Moment>, now: Moment, pause: Moment) -> bool
    ensures { result ≡ spec.is_past then now pause }
{
    match then {
        Some(then) => now.saturating_sub(then) >= pause,
        None => true,
    }
}

/// What is done by a step of a machine whose store is to have this then.
fn action_by(step: Step, kept: Kept) -> EpochAction
    ensures { result ≡ spec.action_by step kept }
{
    match step {
        Step::Freezes(word) | Step::Confirms(word) | Step::Declines(word) => {
            EpochAction::Answers(word)
        }
        Step::HearsMarked => EpochAction::Tells(EpochNotice::Marked),
        Step::Refuses(epoch) => EpochAction::Tells(EpochNotice::Refused(epoch)),
        Step::FarAbove(epoch) => EpochAction::Tells(EpochNotice::FarAbove(epoch)),
        Step::OtherProgram(epoch) => EpochAction::Tells(EpochNotice::OtherProgram(epoch)),
        Step::Ends(_) => EpochAction::Leaves(LifeEnd::EpochEnded, kept),
        Step::Hears(_) => EpochAction::Leaves(LifeEnd::LaterHeard, kept),
        Step::WaitsAbove(_) => EpochAction::Leaves(LifeEnd::WaitsAbove, kept),
        Step::Begins(_) => EpochAction::Keeps(kept),
        Step::Starts(_) => EpochAction::Starts,
        Step::Thaws(nonce) => EpochAction::Thaws(nonce),
        Step::Nothing
        | Step::Counts
        | Step::Asks
        | Step::AsksAgain
        | Step::Before(_)
        | Step::Enters(_) => EpochAction::Rests,
    }
}

/// Whether a life is over by this.
fn ends_life(action: &EpochAction) -> bool
    ensures { result ≡ spec.ends_life action.now }
{
    matches!(action, EpochAction::Leaves(_, _))
}

/// Whether by this step what is asked is said at once.
fn asks_at_once(step: &Step) -> bool
    ensures { result ≡ spec.asks_at_once step.now }
{
    matches!(step, Step::AsksAgain)
}

impl EpochKeeper {
    /// Of a machine whose life begins.
    pub fn new(cold_start: ColdStart) -> EpochKeeper
        ensures { (result.cold_start ≡ cold_start) × (result.has_left ≡ false) × (result.looked ≡ None)
            × (result.asked ≡ None) }
    {
        EpochKeeper {
            cold_start,
            looked: None,
            asked: None,
            has_left: false,
        }
    }

    /// Where it is.
    pub fn cold_start(&self) -> &ColdStart
        ensures { result.now ≡ self.now.cold_start }
    {
        &self.cold_start
    }

    /// Whether the life of its machine is over.
    pub fn has_left(&self) -> bool
        ensures { result ≡ self.now.has_left }
    {
        self.has_left
    }

    /// Whether its replica is frozen: it recovers, and takes no answer.
    pub fn is_frozen(&self) -> bool
        ensures { result ≡ is_frozen self.now.cold_start.phase }
    {
        self.cold_start.recovers() && !self.cold_start.takes_answers()
    }

    /// Whether a message reaches its replica: no answer to a RECOVERY does while that is frozen.
    pub fn lets_through(&self, message: &Message) -> bool
        ensures { result ≡ lets_through self.now.cold_start.phase message.now }
    {
        !(self.is_frozen() && is_answer(message))
    }

    /// It took this step: what is done now.
    fn done_by(&mut self, step: Step) -> EpochAction
        ensures action { result ≡ spec.action_by step (table.kept_in self.old.cold_start.phase) }
        ensures left { self.new.has_left ≡ spec.ends_life result }
        ensures asked { self.new.asked ≡ spec.asked_by step self.old.asked }
        ensures same { (self.new.cold_start ≡ self.old.cold_start) × (self.new.looked ≡ self.old.looked) }
    {
        if asks_at_once(&step) {
            self.asked = None;
        }
        let action = action_by(step, self.cold_start.kept());
        self.has_left = ends_life(&action);
        action
    }

    /// Its store has this now.
    pub fn stored(&mut self, kept: &Kept) -> EpochAction
        ensures { spec.KeepsTo (table.Stores kept.now) result self.old self.new }
    {
        if self.has_left {
            return EpochAction::Rests;
        }
        let step = self.cold_start.stored(kept);
        self.done_by(step)
    }

    /// A machine said hello in this epoch. Number 0 is nobody's: it says that its disk was lost.
    pub fn hear(&mut self, from: u8, epoch: &Epoch, now: Moment) -> EpochAction
        ensures { spec.HearsHelloOf from epoch.now now result self.old self.new }
    {
        if epoch.number == 0 {
            return EpochAction::Rests;
        }
        if self.has_left {
            return EpochAction::Rests;
        }
        let step = self.cold_start.hear(from, epoch, now);
        self.done_by(step)
    }

    /// A word of a machine came, in this epoch.
    pub fn hear_word(&mut self, from: u8, epoch: &Epoch, word: &Word, now: Moment) -> EpochAction
        ensures { spec.KeepsTo (table.HearsWord from epoch.now word.now now) result self.old self.new }
    {
        if self.has_left {
            return EpochAction::Rests;
        }
        let step = self.cold_start.hear_word(from, epoch, word, now);
        self.done_by(step)
    }

    /// Something came of a machine over a connection of this epoch, as it does as long as that one is near.
    pub fn hear_sign(&mut self, from: u8, epoch: &Epoch, now: Moment) -> EpochAction
        ensures { spec.KeepsTo (table.HearsSign from epoch.now now) result self.old self.new }
    {
        if self.has_left {
            return EpochAction::Rests;
        }
        let step = self.cold_start.hear_sign(from, epoch, now);
        self.done_by(step)
    }

    /// RECOVERY of a machine came, in this epoch.
    pub fn hear_recovery(&mut self, from: u8, epoch: &Epoch, now: Moment) -> EpochAction
        ensures { spec.KeepsTo (table.HearsRecovery from epoch.now now) result self.old self.new }
    {
        if self.has_left {
            return EpochAction::Rests;
        }
        let step = self.cold_start.hear_recovery(from, epoch, now);
        self.done_by(step)
    }

    /// A message comes to its replica: where it's a RECOVERY of a machine, that one takes no part in the epoch.
    pub fn note_recovery(&mut self, message: &Message, now: Moment)
        ensures { spec.NotesRecovery (recovering_in message.now) (table.spoken_in self.old.cold_start.phase) now
            self.old self.new }
    {
        if let (Some(from), Some(epoch)) = (recovering_in(message), self.cold_start.speaks_in()) {
            let _ = self.hear_recovery(from, &epoch, now);
        }
    }

    /// Whether it's time to look at its epoch.
    pub fn is_look_due(&self, now: Moment) -> bool
        ensures { result ≡ spec.is_look_due self.now now }
    {
        is_past(self.looked, now, POLL)
    }

    /// Time has passed: it looks at its epoch now.
    pub fn look(&mut self, now: Moment) -> EpochAction
        ensures kept { spec.KeepsTo (table.Looks now) result self.old self.new }
        ensures looked { self.old.has_left ≡ false → self.new.looked ≡ Some now }
    {
        if self.has_left {
            return EpochAction::Rests;
        }
        self.looked = Some(now);
        let step = self.cold_start.look(now);
        self.done_by(step)
    }

    /// What it asks each other machine, in the epoch that it has begun, where it's time to say it: it's said now.
    pub fn take_question(&mut self, now: Moment) -> Option<Question>
        ensures some { IfSome result (λ q. (spec.is_question_due self.old now ≡ true)
            × (table.spoken_in self.old.cold_start.phase ≡ Some q.epoch)
            × (table.question_in self.old.cold_start.phase ≡ Some q.word) × (self.new.asked ≡ Some now)) }
        ensures none { IsNone result → spec.is_question_due self.old now ≡ false }
        ensures same { (self.new.cold_start ≡ self.old.cold_start) × (self.new.has_left ≡ self.old.has_left) }
    {
        let word = self.cold_start.question()?;
        let epoch = self.cold_start.speaks_in()?;
        if self.has_left || !is_past(self.asked, now, ASKING) {
            return None;
        }
        self.asked = Some(now);
        Some(Question { epoch, word })
    }

    /// Its replica has recovered. Nothing changes where it's frozen, or where the life of its machine is over.
    pub fn recovered(&mut self)
        ensures recovered { self.new.cold_start ≡ spec.recovered_by self.old.has_left self.old.cold_start }
        ensures same { self.new.has_left ≡ self.old.has_left }
    {
        if !self.has_left {
            self.cold_start.recovered();
        }
    }
}
