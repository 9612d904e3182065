//! A device with its connection, its round, and what is to be handed over of it.

ghost use Rattle.std.specs.Prelude.{◌≡◌, ◌||◌, true, false, None};
ghost use Rattle.std.specs.Option.{option_copied};
ghost use Rattle.field_cycle.specs.Stations.{found_by, lost_by};

use crate::hands::Hands;
use crate::link::{Link, LinkFault, Moment, Phase};
use crate::notices::{Change, Notices};
use crate::passage::{Passage, Showing};
use crate::round::Round;
use crate::spans::Spans;
use field_map::{Device, Outputs};
use il_model::Cells;
use modbus_wire::Adu;

/// Whether one answers.
#[derive(Clone, Copy)]
pub enum Standing {
    Unknown,
    Answers,
    Lost,
}

impl Standing {
    /// What changes where one answers.
    pub fn found(self) -> Option<Change>
        ensures { result ≡ found_by self }
    {
        match self {
            Standing::Unknown => Some(Change::Found),
            Standing::Answers => None,
            Standing::Lost => Some(Change::Back),
        }
    }

    /// What changes where one is lost.
    pub fn lost(self, fault: LinkFault) -> Option<Change>
        ensures { result ≡ lost_by self fault }
    {
        match self {
            Standing::Unknown | Standing::Answers => Some(Change::Lost(fault)),
            Standing::Lost => None,
        }
    }
}

/// A device of the field.
#[derive(Drop)]
pub struct Station {
    pub device: Device,
    pub link: Link,
    /// The round that goes on, if one does.
    pub round: Option<Round>,
    /// The last one that was whole.
    pub last: Option<Round>,
    /// Whether a round is to begin.
    pub is_due: bool,
    /// So many cycles go by before the next round is due.
    pub rests: u32,
    /// How far its inputs came since there is a connection to it, and one to the controller.
    pub passage: Passage,
    /// Whether it may be written outputs: they are those of a scan that had its inputs.
    pub is_admitted: bool,
    /// Whether outputs were written to it, and not since what its writings fall back to.
    pub has_outputs: bool,
    /// The outputs of the last round, where it was whole and wrote outputs: what the device has.
    pub written: Option<Cells>,
    /// When the last round began that wrote all outputs, whether the device had them or not.
    pub refreshed: Moment,
    /// When the round began that goes on, or the last one.
    pub begun: Moment,
    /// How long whole rounds took.
    pub spans: Spans,
    pub standing: Standing,
    /// Whether the controller is to be told that it answers.
    pub tells: bool,
    /// Whether its next round is the last one.
    pub is_ending: bool,
    /// What is to be handed over to the controller.
    pub hands: Hands,
    /// What is to be told.
    pub notices: Notices,
}

impl Station {
    ghost use Rattle.field_cycle.specs.Stations.{begins, has_outputs, is_passed, is_nothing, hands_anew, passage_anew};
    ghost use Rattle.field_cycle.specs.Stations.{HandsOver, IsLost, IsWhole, has_already, begun_as, refreshed};
    ghost use Rattle.field_cycle.specs.Stations.{begun_at, spans_after};
    ghost use Rattle.field_cycle.specs.Passages.{stepped, is_released};

    /// A device that nothing is known of.
    pub fn new(device: Device) -> Station
        ensures { (result.is_admitted ≡ false) × (result.has_outputs ≡ false) × (result.written ≡ None) }
    {
        let link = Link::new(device.unit, u64::from(device.timeout), device.retries);
        Station {
            device,
            link,
            round: None,
            last: None,
            is_due: false,
            rests: 0,
            passage: Passage::Unread,
            is_admitted: false,
            has_outputs: false,
            written: None,
            refreshed: 0,
            begun: 0,
            spans: Spans::none(),
            standing: Standing::Unknown,
            tells: true,
            is_ending: false,
            hands: Hands::none(),
            notices: Notices::none(),
        }
    }

    /// A cycle begins: a round is due, unless the device rests.
    pub fn tick(&mut self) {
        if self.rests > 0 {
            self.rests -= 1;
            return;
        }
        self.rests = self.device.every.saturating_sub(1);
        self.is_due = true;
    }

    /// What the device has of its outputs, unless all are to be written again.
    fn has_already(&self, now: Moment) -> Option<Cells>
        ensures { result ≡ has_already self.now now }
    {
        let refresh = u64::from(self.device.refresh);
        if now < self.refreshed.saturating_add(refresh) {
            self.written
        } else {
            None
        }
    }

    /// A round with these outputs; where they aren't known, one by what its writings fall back to, if the device has
    /// outputs, and else one that only reads.
    fn round(&self, known: Option<Cells>, now: Moment) -> Round
        ensures { result ≡ begun_as self.now known now }
    {
        if known.is_some() {
            let written = self.has_already(now);
            return Round::new(Outputs { known, written });
        }
        if self.has_outputs {
            return Round::new(Outputs {
                known: None,
                written: None,
            });
        }
        Round::only_reading(&self.device)
    }

    /// Begins the round that is due, if the device can be asked: one with the outputs, where they are known and it may
    /// be written them; else one by what its writings fall back to, where it has outputs; else one that only reads.
    pub fn begin(&mut self, outputs: Option<&Cells>, now: Moment)
        ensures round { self.new.round ≡ begins self.old (option_copied outputs.entry) now }
        ensures has { self.new.has_outputs ≡ has_outputs self.old (option_copied outputs.entry) }
        ensures written { self.new.written ≡ self.old.written }
        ensures refreshed { self.new.refreshed ≡ refreshed self.old (option_copied outputs.entry) now }
        ensures begun { self.new.begun ≡ begun_at self.old now }
    {
        if !self.is_due || self.round.is_some() || !self.link.is_idle() {
            return;
        }
        let outputs = if self.is_admitted { outputs } else { None };
        let known = outputs.copied();
        self.round = Some(self.round(known, now));
        if known.is_some() && self.has_already(now).is_none() {
            self.refreshed = now;
        }
        self.has_outputs = self.has_outputs || known.is_some();
        self.is_due = false;
        self.begun = now;
    }

    /// What is to be sent to the device now. Where its round is whole, what it gathered is to be handed over.
    pub fn send(&mut self, now: Moment) -> Option<Adu> {
        if !self.link.is_idle() {
            return None;
        }
        let request = match &mut self.round {
            Some(round) => round.next(&self.device),
            None => return None,
        };
        match request {
            Some(request) => self.link.ask(request, now),
            None => {
                self.finish(now);
                None
            }
        }
    }

    /// Ends a round that is whole: its inputs are to be handed over, or, if it's the last one, that nobody asks the
    /// device any more; and where it was one without outputs, the device has none any more.
    fn finish(&mut self, now: Moment)
        requires { IsWhole self.old.device self.old.round }
        ensures hands { HandsOver self.old self.new }
        ensures spans { self.new.spans ≡ spans_after self.old now }
        ensures admitted { self.new.is_admitted ≡ self.old.is_admitted }
    {
        if let Some(round) = &self.round {
            if self.is_ending {
                self.hands = Hands::ending(&self.device);
            } else {
                self.hands.answer(&self.device, &round.gathered, self.tells);
            }
            self.has_outputs = self.has_outputs && round.outputs.known.is_some();
            self.written = round.outputs.known;
            self.spans.add(now.saturating_sub(self.begun));
            self.passage = self.passage.read();
            self.last = Some(*round);
        }
        self.link.trust(now);
        self.round = None;
        self.tells = false;
        if let Some(change) = self.standing.found() {
            self.notices.put(change);
        }
        self.standing = Standing::Answers;
    }

    /// Takes a unit that came from the device. The fault where the connection is to be given up.
    pub fn hear(&mut self, adu: &Adu, now: Moment) -> Result<(), LinkFault> {
        let Some(reply) = self.link.hear(adu)? else {
            return Ok(());
        };
        let Some(round) = &mut self.round else {
            return Err(LinkFault::Transaction);
        };
        if !round.take(&self.device, &reply) {
            return Err(LinkFault::Length);
        }
        if round.step >= self.device.steps() {
            self.finish(now);
        }
        Ok(())
    }

    /// The controller showed its outputs.
    pub fn step(&mut self, showing: Showing)
        ensures passage { self.new.passage ≡ stepped self.old.passage (is_nothing self.old.hands) showing }
        ensures admitted { self.new.is_admitted ≡ self.old.is_admitted }
    {
        self.passage = self.passage.step(self.hands.is_empty(), showing);
    }

    /// Whether a scan that had its inputs was released, or it has none, since it's lost.
    pub fn is_passed(&self) -> bool
        ensures { result ≡ is_passed self.now }
    {
        match self.standing {
            Standing::Lost => true,
            Standing::Unknown | Standing::Answers => self.passage.is_released(),
        }
    }

    /// Whether the controller has its inputs, or has been told that it's lost.
    pub fn is_known_there(&self) -> bool {
        let has_inputs = !matches!(self.passage, Passage::Unread | Passage::Read);
        self.hands.is_empty() && (has_inputs || matches!(self.standing, Standing::Lost))
    }

    /// The outputs that count are those that the controller showed now: it may be written them, where a scan that had
    /// its inputs was released.
    pub fn admit(&mut self)
        ensures { self.new.is_admitted ≡ self.old.is_admitted || is_released self.old.passage }
    {
        self.is_admitted = self.is_admitted || self.passage.is_released();
    }

    /// Gives the connection up. Before it's written outputs again, its inputs have to be in a scan.
    pub fn lose(&mut self, fault: LinkFault, now: Moment)
        ensures { IsLost self.new }
    {
        self.link.fail(now);
        self.round = None;
        self.passage = Passage::Unread;
        self.is_admitted = false;
        self.written = None;
        if let Some(change) = self.standing.lost(fault) {
            self.notices.put(change);
            self.standing = Standing::Lost;
            self.tells = true;
            self.hands = Hands::losing(&self.device);
        }
    }

    /// Whether nothing is due of it, and nothing to be told: it waits, or its next round isn't due.
    pub fn is_quiet(&self, now: Moment) -> bool {
        let waits = match self.link.phase {
            Phase::Down | Phase::Connecting | Phase::Waiting(_) => now < self.link.until,
            Phase::Idle => self.round.is_none() && !self.is_due,
        };
        waits && self.notices.is_empty()
    }

    /// Whether it isn't to be asked: the controller is lost, and the device has no outputs of it.
    pub fn is_left(&self, is_controller_lost: bool) -> bool {
        is_controller_lost && !self.has_outputs
    }

    /// Gives up its connection and what is to be handed over of it. Whether there was one.
    pub fn leave(&mut self) -> bool
        ensures { result ≡ true → IsLost self.new }
    {
        if matches!(self.link.phase, Phase::Down) {
            return false;
        }
        self.link.close();
        self.round = None;
        self.passage = Passage::Unread;
        self.is_admitted = false;
        self.written = None;
        self.hands = Hands::none();
        true
    }

    /// Whether it was read and written the outputs, or is lost or left.
    pub fn is_carried(&self, is_controller_lost: bool) -> bool {
        if self.is_left(is_controller_lost) {
            return true;
        }
        match (self.standing, &self.last) {
            (Standing::Lost, _) => true,
            (Standing::Answers, Some(round)) => round.outputs.known.is_some(),
            _ => false,
        }
    }

    /// Whether it had its round, or is lost or left, and what it gathered is handed over, or can't be.
    pub fn is_settled(&self, is_controller_lost: bool) -> bool {
        if self.is_left(is_controller_lost) {
            return true;
        }
        let is_asked = match self.standing {
            Standing::Unknown => false,
            Standing::Answers => !self.is_due && self.round.is_none(),
            Standing::Lost => true,
        };
        is_asked && (is_controller_lost || self.hands.is_empty())
    }

    /// Its next round is the last one; where there can be none, what is handed over then is so now.
    pub fn end(&mut self) {
        self.is_due = true;
        self.is_ending = true;
        if !matches!(self.standing, Standing::Answers) {
            self.hands = Hands::ending(&self.device);
        }
    }

    /// There is a new connection to the controller, which knows nothing of the device: what was read last is handed
    /// over at once, where it answers; else that it's lost. Its next round is due.
    pub fn tell_anew(&mut self)
        ensures hands { self.new.hands ≡ hands_anew self.old }
        ensures passage { self.new.passage ≡ passage_anew self.old }
        ensures admitted { self.new.is_admitted ≡ self.old.is_admitted }
    {
        self.tells = true;
        self.is_due = true;
        self.passage = Passage::Unread;
        match (self.standing, &self.last) {
            (Standing::Answers, Some(round)) if self.link.is_up() => {
                self.hands.answer(&self.device, &round.gathered, true);
                self.passage = Passage::Read;
            }
            (Standing::Answers, _) => {}
            (Standing::Lost | Standing::Unknown, _) => {
                self.hands = Hands::losing(&self.device);
            }
        }
    }
}
