//! How a machine whose replica recovers freezes, answers and thaws.

ghost use Rattle.std.specs.Prelude.{◌≡◌};
ghost use Rattle.plc_member.specs.Holding.{link_order, may_freeze, stays_held};

use crate::held_link::HeldLink;
use crate::keeper::{Keeper, Leaving, Thaw, leaving_by};
use plc_epochs::{Moment, Visit};
use plc_host::ServiceRuntime;
use plc_host_core::{EpochAction, EpochNotice};
use std::net::{Net, TcpListener, TcpStream};
use std::thread;
use std::time::Duration;
use vr_model::Status;
use vr_shown::Shown;
use vr_threads::OwnReplica;

/// In milliseconds: so long it waits for the thread of its replica to come to its next receive.
const TAKING_UP: u32 = 100;

/// What is done with the link of a replica that recovers, behind a look at the protocol.
#[derive(Clone, Copy, Debug, PartialEq, Eq)]
pub(crate) enum LinkOrder {
    /// The replica is to crash and to recover under another nonce; meanwhile it stays held.
    Thaw,
    /// It's let go: the machine isn't frozen.
    LetGo,
    /// It stays held: the machine is frozen.
    Stay,
}

/// What is done with the link where this is to be done about epochs, and answers may be taken, or not.
fn link_order(action: EpochAction, takes_answers: bool) -> LinkOrder
    ensures { result ≡ link_order action takes_answers }
{
    match action {
        EpochAction::Thaws(_) => LinkOrder::Thaw,
        _ if takes_answers => LinkOrder::LetGo,
        _ => LinkOrder::Stay,
    }
}

/// Whether a machine may freeze by what it's told next: words came, or it begins anew by itself and f others recover.
fn may_freeze(has_words: bool, is_automatic: bool, others_recover: bool) -> bool
    ensures { result ≡ may_freeze has_words is_automatic others_recover }
{
    has_words || (is_automatic && others_recover)
}

/// Whether a link that was held stays so: no answer is under way in its replica any more, and that recovers still.
fn stays_held(is_taken_up: bool, recovers: bool) -> bool
    ensures { result ≡ stays_held is_taken_up recovers }
{
    is_taken_up && recovers
}

/// Whether a replica recovers.
fn is_recovering(shown: Shown) -> bool {
    !shown.has_failed && shown.standing.status == Status::Recovering
}

/// Whether a replica has recovered.
fn has_recovered(shown: Shown) -> bool {
    !shown.has_failed && matches!(shown.standing.status, Status::Normal | Status::ViewChange)
}

impl<R> Keeper<R>
where
    R: ServiceRuntime + Net<Listener = TcpListener, Stream = TcpStream>,
{
    /// Looks at what came, of a machine that has begun its epoch. How its life is to end, if it is.
    pub(crate) fn attend(&mut self, replica: &mut OwnReplica<HeldLink<R>>) -> Option<Leaving> {
        let now = self.due()?;
        self.probe(now);
        let words = self.words();
        let epoch = self.epochs.cold_start().speaks_in()?;
        // Before the hellos: they say whether its group goes on.
        self.note_recoveries(&epoch, now);
        self.note_signs(&epoch, now);
        if let Some(leaving) = self.hear_hellos(now) {
            return Some(leaving);
        }
        // Who takes part, asks nobody and answers nobody.
        if !self.epochs.cold_start().recovers() {
            return None;
        }
        if !self.has_thawed(replica) {
            return None;
        }
        self.recover(replica, words, now)
    }

    /// Whether its replica recovers under the nonce under which it's to, and has done so since its link was let go.
    fn has_thawed(&mut self, replica: &mut OwnReplica<HeldLink<R>>) -> bool {
        match self.thaw {
            Thaw::No => true,
            Thaw::Wanted => {
                if replica.restart(&self.host.rt) {
                    self.thaw = Thaw::Ordered;
                }
                false
            }
            Thaw::Ordered => {
                // Until it's up again an answer to its nonce before could still be under way in it.
                if replica.look().standing.status == Status::Down {
                    return false;
                }
                self.thaw = Thaw::No;
                self.terms.hold.let_go();
                true
            }
        }
    }

    /// Goes on with a replica that recovers.
    fn recover(
        &mut self,
        replica: &mut OwnReplica<HeldLink<R>>,
        words: Vec<Visit>,
        now: Moment,
    ) -> Option<Leaving> {
        if !self.epochs.is_frozen() && !self.is_held(replica, &words, now) {
            return None;
        }
        if let Some(leaving) = self.hear_words(words, now) {
            return Some(leaving);
        }
        let action = self.epochs.look(now);
        match link_order(action, self.epochs.cold_start().takes_answers()) {
            LinkOrder::Thaw => self.thaw = Thaw::Wanted,
            LinkOrder::LetGo => self.terms.hold.let_go(),
            LinkOrder::Stay => {}
        }
        self.ask(now);
        None
    }

    /// Holds its link, where it may freeze by what it's told next: whether it does, and recovers still. No answer that
    /// came before is under way in its replica then.
    fn is_held(
        &mut self,
        replica: &mut OwnReplica<HeldLink<R>>,
        words: &Vec<Visit>,
        now: Moment,
    ) -> bool {
        if has_recovered(replica.look()) {
            self.epochs.recovered();
            return false;
        }
        let others_recover = self.others_recover(now);
        if !may_freeze(!words.is_empty(), self.terms.is_automatic, others_recover) {
            return false;
        }
        self.terms.hold.hold();
        // The replica is looked at behind its next receive: what an answer before that made of it shows then.
        let is_taken_up = self.is_taken_up();
        if stays_held(is_taken_up, is_recovering(replica.look())) {
            return true;
        }
        self.terms.hold.let_go();
        false
    }

    /// Waits until its replica has come to its next receive: whether it has.
    fn is_taken_up(&self) -> bool {
        for _ in 0..TAKING_UP {
            if self.terms.hold.is_taken_up() {
                return true;
            }
            thread::sleep(&self.host.rt, Duration::from_millis(1));
        }
        false
    }

    /// Hears what was said to it, and answers, until something ends its life.
    fn hear_words(&mut self, words: Vec<Visit>, now: Moment) -> Option<Leaving> {
        for visit in words {
            let heard = self.heard_from(visit.from);
            match self
                .epochs
                .hear_word(visit.from, &visit.epoch, &visit.word, now)
            {
                EpochAction::Answers(word) => {
                    let connected = self.terms.exchange.reached();
                    self.speaker.say(connected, visit.from, visit.epoch, word);
                }
                EpochAction::Tells(EpochNotice::Marked) => self.hear_marked(&visit.epoch),
                action => {
                    if let Some(leaving) = leaving_by(action, heard) {
                        return Some(leaving);
                    }
                }
            }
        }
        None
    }
}
