//! What one machine does about the epochs of its group.

ghost use Rattle.std.specs.Prelude.{◌≡◌, ◌<◌, IsTrue};
ghost use Rattle.vr_model.specs.Groups.{most_replicas};
ghost use Rattle.plc_epochs.specs.Recovering.{first_nonce, thawed};
ghost use Rattle.plc_epochs.specs.Table as table;

use crate::epoch::{is_far_above, is_later, is_same, next_epoch};
use crate::kept::Kept;
use crate::recovery::{Recovery, first_nonce};
use crate::told::{
    Moment, Told, count, count_recent, is_recent_of, nothing_told, with_told, without_told,
};
use crate::word::{Answer, Word};
use net_hello::Epoch;
use vr_model::Config;

/// A machine's place in its group.
#[derive(Clone, Copy)]
pub struct Place {
    pub config: Config,
    /// The machine's number.
    pub number: u8,
    /// Whether the group begins anew by itself; else by hand alone.
    pub is_automatic: bool,
    /// Whether the program was changed in the epoch that it has begun: then its store has the one before, and the group
    /// begins anew with it by hand alone.
    pub is_marked: bool,
}

/// Where a machine is.
#[derive(Clone, Copy)]
pub enum Phase {
    /// Its disk was lost. When each other was heard, and the greatest epoch that any of them was in.
    Waiting { heard: Told, above: Option<Epoch> },
    /// Its disk was lost, and a majority was heard: it waits for an epoch above this one.
    Above { above: Epoch },
    /// It has left the epoch before, and its store is to have this one. When each other was heard in it.
    Entering { epoch: Epoch, heard: Told },
    /// Its store has this epoch, which it hasn't begun.
    Entered { epoch: Epoch, heard: Told },
    /// It begins this epoch as soon as its store has that.
    Beginning { epoch: Epoch },
    /// It has begun this epoch, and its replica takes part.
    TakingPart { epoch: Epoch },
    /// It has begun this epoch, and its replica recovers.
    Recovering { epoch: Epoch, recovery: Recovery },
}

/// What a machine does. What it says, stores and drops besides is what `hello`, `speaks_in`, `question`, `kept` and
/// `takes_answers` tell then.
#[derive(Clone, Copy)]
pub enum Step {
    /// Nothing: it is as it was.
    Nothing,
    /// What it was told counts, and nothing is to be done.
    Counts,
    /// It freezes, and begins to ask.
    Asks,
    /// It's frozen: this is said to the machine that asked.
    Freezes(Word),
    /// It begins to ask once more.
    AsksAgain,
    /// It's still frozen: this is said to the machine that asked.
    Confirms(Word),
    /// It doesn't freeze, since it's marked: this is said to the machine that asked.
    Declines(Word),
    /// The machine that it asked doesn't freeze, since that is marked: a cold start takes a person.
    HearsMarked,
    /// Its epoch can't go on. Port, sessions, links, and what waits in memory are closed and dropped; then its store is
    /// to have the next epoch, this one.
    Ends(Epoch),
    /// Another machine is in this later epoch: as with `Ends`, its store is to have it.
    Hears(Epoch),
    /// Another machine is in this later epoch, and this group goes on: a majority takes part in its own.
    Refuses(Epoch),
    /// Another machine is in this epoch, whose number is more than one above its own: following it takes a person.
    FarAbove(Epoch),
    /// Another machine is in this later epoch, whose image its store hasn't: following it takes a person.
    OtherProgram(Epoch),
    /// Another machine is in this epoch, which is before the one that it has entered and waits in for others.
    Before(Epoch),
    /// Its store is to have that it waits for an epoch above this one.
    WaitsAbove(Epoch),
    /// Its store has this epoch: hello is said in it.
    Enters(Epoch),
    /// Its store is to have this epoch as begun.
    Begins(Epoch),
    /// Its store has that: its replica is normal in view 0 of this epoch, with an empty log.
    Starts(Epoch),
    /// It thaws: its replica crashes and recovers anew under this nonce, without a start. Nothing is stored.
    Thaws(u64),
}

/// What a machine waits for before it goes on.
#[derive(Clone, Copy, Debug, PartialEq, Eq)]
pub struct OthersHeard {
    /// So many others were heard.
    pub heard: usize,
    /// It goes on when so many were.
    pub wanted: usize,
}

/// What a machine says first at each connection.
#[derive(Clone, Copy)]
pub enum Greeting {
    /// Nothing: its links are down.
    Silence,
    /// That its disk was lost, and it waits.
    Waits,
    /// Hello in this epoch.
    Hello(Epoch),
}

/// One machine of a group, and its epochs.
#[derive(Drop)]
pub struct ColdStart {
    pub(crate) place: Place,
    /// The sum of the image that its store keeps: the one in force.
    pub(crate) image: [u8; 32],
    pub(crate) phase: Phase,
    /// When a RECOVERY of each other came last, in this epoch.
    pub(crate) recoveries: Told,
    /// When each other was last known to take part in this epoch.
    pub(crate) parts: Told,
}

/// Where a machine is whose process starts.
fn phase_from(kept: &Kept, nonce: u64, now: Moment) -> Phase
    ensures { result ≡ table.phase_from kept.now nonce now }
{
    match *kept {
        Kept::Nothing => Phase::Waiting {
            heard: nothing_told(),
            above: None,
        },
        Kept::Above(above) => Phase::Above { above },
        Kept::Entered(epoch) => Phase::Entered {
            epoch,
            heard: nothing_told(),
        },
        Kept::Begun(epoch) => Phase::Recovering {
            epoch,
            recovery: Recovery::new(nonce, now),
        },
    }
}

/// The later of two epochs, of which there may be one alone.
fn later_of(above: Option<Epoch>, epoch: Epoch) -> Epoch
    ensures { result ≡ table.later_of above epoch }
{
    match above {
        Some(above) if is_later(&above, &epoch) => above,
        _ => epoch,
    }
}

/// Where a machine is whose replica has recovered.
fn recovered_in(phase: Phase) -> Phase
    ensures { result ≡ table.recovered_in phase }
{
    match phase {
        Phase::Recovering { epoch, recovery } => {
            if recovery.is_frozen() {
                phase
            } else {
                Phase::TakingPart { epoch }
            }
        }
        _ => phase,
    }
}

/// What it does where a machine that it asked this is marked, which recovers itself.
fn hear_marked(recovery: &Recovery, question: u64) -> Step
    ensures { result ≡ table.marked_step recovery.now question }
{
    if recovery.asks_first(question) {
        Step::HearsMarked
    } else {
        Step::Nothing
    }
}

impl ColdStart {
    /// A machine whose process starts, with what its store has of epochs, and the sum of the image there. The store has
    /// counted this start, so often it started before.
    pub fn new(place: Place, kept: &Kept, image: [u8; 32], starts: u32, now: Moment) -> ColdStart
        ensures { table.StartsAs place kept.now image (first_nonce starts) now result }
    {
        ColdStart {
            place,
            image,
            phase: phase_from(kept, first_nonce(starts), now),
            recoveries: nothing_told(),
            parts: nothing_told(),
        }
    }

    /// What its store is to have.
    pub fn kept(&self) -> Kept
        ensures { result ≡ table.kept_in self.now.phase }
    {
        match self.phase {
            Phase::Waiting { .. } => Kept::Nothing,
            Phase::Above { above } => Kept::Above(above),
            Phase::Entering { epoch, .. } | Phase::Entered { epoch, .. } => Kept::Entered(epoch),
            Phase::Beginning { epoch }
            | Phase::TakingPart { epoch }
            | Phase::Recovering { epoch, .. } => Kept::Begun(epoch),
        }
    }

    /// What it says first at each connection.
    pub fn greeting(&self) -> Greeting
        ensures { result ≡ table.greeting_in self.now.phase }
    {
        match self.phase {
            Phase::Waiting { .. } | Phase::Above { .. } => Greeting::Waits,
            Phase::Entering { .. } => Greeting::Silence,
            Phase::Entered { epoch, .. }
            | Phase::Beginning { epoch }
            | Phase::TakingPart { epoch }
            | Phase::Recovering { epoch, .. } => Greeting::Hello(epoch),
        }
    }

    /// The epoch in which it says anything but hello, and takes anything: the one that it has begun.
    pub fn speaks_in(&self) -> Option<Epoch>
        ensures { result ≡ table.spoken_in self.now.phase }
    {
        match self.phase {
            Phase::TakingPart { epoch } | Phase::Recovering { epoch, .. } => Some(epoch),
            _ => None,
        }
    }

    /// What it asks all others, again and again.
    pub fn question(&self) -> Option<Word>
        ensures { result ≡ table.question_in self.now.phase }
    {
        match self.phase {
            Phase::Recovering { recovery, .. } => recovery.question(),
            _ => None,
        }
    }

    /// Whether its replica recovers.
    pub fn recovers(&self) -> bool
        ensures { result ≡ table.recovers_in self.now.phase }
    {
        matches!(self.phase, Phase::Recovering { .. })
    }

    /// Whether a RECOVERYRESPONSE is handed to its replica.
    pub fn takes_answers(&self) -> bool
        ensures { result ≡ table.takes_answers_in self.now.phase }
    {
        match self.phase {
            Phase::Recovering { recovery, .. } => !recovery.is_frozen(),
            _ => false,
        }
    }

    /// For what it waits, where it waits for others: of one whose disk was lost, for f+1 that tell their epochs; of one
    /// that has entered an epoch, for f in it.
    pub fn waits_for(&self) -> Option<OthersHeard>
        ensures { result ≡ table.waits_in self.now.phase self.now.place.config.f }
    {
        let f = usize::from(self.place.config.f);
        match &self.phase {
            Phase::Waiting { heard, .. } => Some(OthersHeard {
                heard: count(heard),
                wanted: f + 1,
            }),
            Phase::Entered { heard, .. } => Some(OthersHeard {
                heard: count(heard),
                wanted: f,
            }),
            _ => None,
        }
    }

    /// Its store keeps another image from now on, of this sum.
    pub fn keep_image(&mut self, image: [u8; 32])
        ensures { self.new ≡ record self.old { image = image } }
    {
        self.image = image;
    }

    /// Its replica has recovered. Nothing changes where it's frozen.
    pub fn recovered(&mut self)
        ensures { self.new ≡ record self.old { phase = table.recovered_in self.old.phase } }
    {
        self.phase = recovered_in(self.phase);
    }

    /// Whether this is another machine of the group.
    fn is_other(&self, machine: u8) -> bool
        ensures other { result ≡ table.is_other self.now.place machine }
        ensures bound { IsTrue result → machine < most_replicas }
    {
        machine != self.place.number && machine < self.place.config.group_size()
    }

    /// Whether hello of this machine in this epoch is heard.
    fn hears(&self, from: u8, epoch: &Epoch) -> bool
        ensures heard { result ≡ table.is_heard self.now from epoch.now }
        ensures bound { IsTrue result → from < most_replicas }
    {
        self.is_other(from) && epoch.number < u64::MAX
    }

    /// Whether words of this machine in this epoch are taken, where this is its own.
    fn takes(&self, from: u8, epoch: &Epoch, own: &Epoch) -> bool
        ensures taken { result ≡ table.is_taken self.now from epoch.now own.now }
        ensures bound { IsTrue result → from < most_replicas }
    {
        self.is_other(from) && is_same(epoch, own)
    }

    /// Its store has this now.
    pub fn stored(&mut self, kept: &Kept) -> Step
        ensures { table.Stores kept.now self.old result self.new }
    {
        match self.phase {
            Phase::Entering { epoch, heard } => self.enter(epoch, heard, kept),
            Phase::Beginning { epoch } => self.start(epoch, kept),
            _ => Step::Nothing,
        }
    }

    fn enter(&mut self, epoch: Epoch, heard: Told, kept: &Kept) -> Step
        ensures { table.StoresEntered epoch heard kept.now self.old result self.new }
    {
        let Kept::Entered(has) = kept else {
            return Step::Nothing;
        };
        if !is_same(has, &epoch) {
            return Step::Nothing;
        }
        self.phase = Phase::Entered { epoch, heard };
        Step::Enters(epoch)
    }

    fn start(&mut self, epoch: Epoch, kept: &Kept) -> Step
        ensures { table.StoresBegun epoch kept.now self.old result self.new }
    {
        let Kept::Begun(has) = kept else {
            return Step::Nothing;
        };
        if !is_same(has, &epoch) {
            return Step::Nothing;
        }
        self.phase = Phase::TakingPart { epoch };
        Step::Starts(epoch)
    }

    /// Time has passed.
    pub fn look(&mut self, now: Moment) -> Step
        ensures { table.Looks now self.old result self.new }
    {
        match self.phase {
            Phase::Entered { epoch, heard } => self.look_entered(epoch, &heard),
            Phase::Recovering { epoch, recovery } => self.look_recovering(epoch, recovery, now),
            _ => Step::Nothing,
        }
    }

    /// Whether it may begin an epoch that it has entered: f others were heard in it, and it has its image.
    fn may_begin(&self, epoch: &Epoch, heard: &Told) -> bool
        ensures { result ≡ table.may_begin self.now epoch.now heard.now }
    {
        usize::from(self.place.config.f) <= count(heard) && epoch.image == self.image
    }

    fn look_entered(&mut self, epoch: Epoch, heard: &Told) -> Step
        ensures { table.LooksEntered epoch heard.now self.old result self.new }
    {
        if self.may_begin(&epoch, heard) {
            self.phase = Phase::Beginning { epoch };
            Step::Begins(epoch)
        } else {
            Step::Nothing
        }
    }

    /// Whether it asks: the group begins by itself, it isn't marked, and f others recover, too.
    fn may_ask(&self, recovery: &Recovery, now: Moment) -> bool
        ensures { result ≡ table.may_ask self.now recovery.now now }
    {
        self.place.is_automatic
            && !self.place.is_marked
            && recovery.may_ask(now)
            && usize::from(self.place.config.f) <= count_recent(&self.recoveries, now)
    }

    fn look_recovering(&mut self, epoch: Epoch, recovery: Recovery, now: Moment) -> Step
        ensures { table.LooksBy epoch recovery now (thawed recovery self.old.place.config.f now) self.old result self.new }
    {
        match recovery.thaw(self.place.config.f, now) {
            Some(recovery) => {
                self.phase = Phase::Recovering { epoch, recovery };
                Step::Thaws(recovery.nonce)
            }
            None => self.ask(epoch, recovery, now),
        }
    }

    fn ask(&mut self, epoch: Epoch, recovery: Recovery, now: Moment) -> Step
        ensures { table.AsksOrStays epoch recovery now self.old result self.new }
    {
        if !self.may_ask(&recovery, now) {
            return Step::Nothing;
        }
        self.phase = Phase::Recovering {
            epoch,
            recovery: recovery.ask(now),
        };
        Step::Asks
    }

    /// A machine says hello in this epoch.
    pub fn hear(&mut self, from: u8, epoch: &Epoch, now: Moment) -> Step
        ensures { table.HearsHello from epoch.now now self.old result self.new }
    {
        if !self.hears(from, epoch) {
            return Step::Nothing;
        }
        match self.phase {
            Phase::Waiting { heard, above } => {
                self.hear_waiting(with_told(heard, from, now), later_of(above, *epoch))
            }
            Phase::Above { above } => self.hear_later(&above, from, epoch, now),
            Phase::Entering { epoch: own, heard } => {
                self.hear_entering(own, heard, from, epoch, now)
            }
            Phase::Entered { epoch: own, heard } => {
                self.hear_entered(own, heard, from, epoch, now)
            }
            Phase::Beginning { epoch: own }
            | Phase::TakingPart { epoch: own }
            | Phase::Recovering { epoch: own, .. } => self.hear_later(&own, from, epoch, now),
        }
    }

    /// It's to enter an epoch, and another machine said hello.
    fn hear_entering(
        &mut self,
        own: Epoch,
        heard: Told,
        from: u8,
        epoch: &Epoch,
        now: Moment,
    ) -> Step
        requires { from < most_replicas }
        ensures { table.HearsEntering own heard from epoch.now now self.old result self.new }
    {
        if !is_same(epoch, &own) {
            return self.hear_later(&own, from, epoch, now);
        }
        self.phase = Phase::Entering {
            epoch: own,
            heard: with_told(heard, from, now),
        };
        Step::Counts
    }

    /// It has entered an epoch, and another machine said hello in it, or in another one, before it or later.
    fn hear_entered(
        &mut self,
        own: Epoch,
        heard: Told,
        from: u8,
        epoch: &Epoch,
        now: Moment,
    ) -> Step
        requires { from < most_replicas }
        ensures { table.HearsEntered own heard from epoch.now now self.old result self.new }
    {
        if is_later(epoch, &own) {
            return self.hear_later(&own, from, epoch, now);
        }
        if !is_same(epoch, &own) {
            return Step::Before(*epoch);
        }
        self.phase = Phase::Entered {
            epoch: own,
            heard: with_told(heard, from, now),
        };
        Step::Counts
    }

    /// One whose disk was lost has heard these, of which the greatest epoch is this one.
    fn hear_waiting(&mut self, heard: Told, above: Epoch) -> Step
        ensures { table.HearsWaiting heard above self.old result self.new }
    {
        if usize::from(self.place.config.f) < count(&heard) {
            self.phase = Phase::Above { above };
            Step::WaitsAbove(above)
        } else {
            self.phase = Phase::Waiting {
                heard,
                above: Some(above),
            };
            Step::Counts
        }
    }

    /// Whether its group goes on: it takes part in its epoch, and so did f others within the last second; or it recovers
    /// there, and f+1 others did, who bring it back.
    fn goes_on(&self, now: Moment) -> bool
        ensures { result ≡ table.goes_on self.now now }
    {
        let f = usize::from(self.place.config.f);
        match self.phase {
            Phase::TakingPart { .. } => f <= count_recent(&self.parts, now),
            Phase::Recovering { .. } => f < count_recent(&self.parts, now),
            _ => false,
        }
    }

    /// Whether it can't know yet who takes part: it has recovered for less than a second.
    fn is_early(&self, now: Moment) -> bool
        ensures { result ≡ table.is_early self.now now }
    {
        match &self.phase {
            Phase::Recovering { recovery, .. } => !recovery.recovers_long(now),
            _ => false,
        }
    }

    /// Why it stays in its own epoch though another machine is in this later one; `None` where it leaves.
    fn stays(&self, own: &Epoch, epoch: &Epoch, now: Moment) -> Option<Step>
        ensures { result ≡ table.staying self.now own.now epoch.now now }
    {
        if self.is_early(now) {
            Some(Step::Nothing)
        } else if self.goes_on(now) {
            Some(Step::Refuses(*epoch))
        } else if is_far_above(epoch, own) {
            Some(Step::FarAbove(*epoch))
        } else if epoch.image != self.image {
            Some(Step::OtherProgram(*epoch))
        } else {
            None
        }
    }

    /// A machine said hello in this epoch: where it's later than its own, it leaves that, unless there's a reason to stay.
    fn hear_later(&mut self, own: &Epoch, from: u8, epoch: &Epoch, now: Moment) -> Step
        requires { from < most_replicas }
        ensures { table.HearsLater own.now from epoch.now now self.old result self.new }
    {
        if !is_later(epoch, own) {
            return Step::Nothing;
        }
        match self.stays(own, epoch, now) {
            Some(step) => step,
            None => {
                self.leave(*epoch, with_told(nothing_told(), from, now));
                Step::Hears(*epoch)
            }
        }
    }

    /// It leaves its epoch for a later one.
    fn leave(&mut self, epoch: Epoch, heard: Told)
        ensures { self.new ≡ table.leaving self.old epoch heard }
    {
        self.phase = Phase::Entering { epoch, heard };
        self.recoveries = nothing_told();
        self.parts = nothing_told();
    }

    /// Something came of a machine over a connection of this epoch, as it does as long as that one is near: it takes part,
    /// unless it recovers.
    pub fn hear_sign(&mut self, from: u8, epoch: &Epoch, now: Moment) -> Step
        ensures { table.HearsSign from epoch.now now self.old result self.new }
    {
        let Some(own) = self.speaks_in() else {
            return Step::Nothing;
        };
        if !self.takes(from, epoch, &own) || is_recent_of(&self.recoveries, from, now) {
            return Step::Nothing;
        }
        self.parts = with_told(self.parts, from, now);
        Step::Counts
    }

    /// RECOVERY of a machine came, in this epoch: it takes no part.
    pub fn hear_recovery(&mut self, from: u8, epoch: &Epoch, now: Moment) -> Step
        ensures { table.HearsRecovery from epoch.now now self.old result self.new }
    {
        let Some(own) = self.speaks_in() else {
            return Step::Nothing;
        };
        if !self.takes(from, epoch, &own) {
            return Step::Nothing;
        }
        self.recoveries = with_told(self.recoveries, from, now);
        self.parts = without_told(self.parts, from);
        Step::Counts
    }

    /// A word of a machine came, in this epoch.
    pub fn hear_word(&mut self, from: u8, epoch: &Epoch, word: &Word, now: Moment) -> Step
        ensures { table.HearsWord from epoch.now word.now now self.old result self.new }
    {
        let Phase::Recovering {
            epoch: own,
            recovery,
        } = self.phase
        else {
            return Step::Nothing;
        };
        if !self.takes(from, epoch, &own) {
            return Step::Nothing;
        }
        match word {
            Word::Freeze { question } => self.freeze(own, recovery, *question, now),
            Word::Frozen(answer) => self.hear_frozen(own, recovery, from, answer),
            Word::Confirm { question, asked } => self.confirm(&recovery, *question, asked),
            Word::StillFrozen(answer) => self.hear_still_frozen(own, recovery, from, answer),
            Word::Marked { question } => hear_marked(&recovery, *question),
        }
    }

    /// It's asked to freeze. One that is marked declines; one of a group that begins by hand alone says nothing.
    fn freeze(&mut self, epoch: Epoch, recovery: Recovery, question: u64, now: Moment) -> Step
        ensures { table.HearsFreeze epoch recovery question now self.old result self.new }
    {
        if self.place.is_marked {
            return Step::Declines(Word::Marked { question });
        }
        if !self.place.is_automatic || !recovery.may_freeze(now) {
            return Step::Nothing;
        }
        self.phase = Phase::Recovering {
            epoch,
            recovery: recovery.freeze(now),
        };
        Step::Freezes(Word::Frozen(recovery.answer(question)))
    }

    fn confirm(&mut self, recovery: &Recovery, question: u64, asked: &Told) -> Step
        ensures { table.ConfirmsOrStays recovery.now question asked.now self.old result self.new }
    {
        if recovery.may_confirm(self.place.number, asked) {
            Step::Confirms(Word::StillFrozen(recovery.answer(question)))
        } else {
            Step::Nothing
        }
    }

    fn hear_frozen(&mut self, epoch: Epoch, recovery: Recovery, from: u8, answer: &Answer) -> Step
        requires { from < most_replicas }
        ensures { table.HearsFrozen epoch recovery from answer.now self.old result self.new }
    {
        if !recovery.is_first_answer(answer) {
            return Step::Nothing;
        }
        let recovery = recovery.with_first(from, answer.nonce);
        if !recovery.may_ask_again(self.place.config.f) {
            self.phase = Phase::Recovering { epoch, recovery };
            return Step::Counts;
        }
        self.phase = Phase::Recovering {
            epoch,
            recovery: recovery.ask_again(),
        };
        Step::AsksAgain
    }

    fn hear_still_frozen(
        &mut self,
        epoch: Epoch,
        recovery: Recovery,
        from: u8,
        answer: &Answer,
    ) -> Step
        requires { from < most_replicas }
        ensures { table.HearsStillFrozen epoch recovery from answer.now self.old result self.new }
    {
        if !recovery.is_second_answer(from, answer) {
            return Step::Nothing;
        }
        let recovery = recovery.with_second(from, answer.nonce);
        match self.epoch_behind(&epoch, &recovery) {
            Some(next) => {
                self.leave(next, nothing_told());
                Step::Ends(next)
            }
            None => {
                self.phase = Phase::Recovering { epoch, recovery };
                Step::Counts
            }
        }
    }

    /// The epoch behind one that can't go on, as it's known now.
    fn epoch_behind(&self, epoch: &Epoch, recovery: &Recovery) -> Option<Epoch>
        ensures { result ≡ table.epoch_behind self.now epoch.now recovery.now }
    {
        if recovery.has_evidence(self.place.config.f) {
            next_epoch(epoch, self.image)
        } else {
            None
        }
    }
}
