//! What the thread of a replica does, as a value: its replica, its timer, what keeps to its epoch, and what it shows.

ghost use Rattle.std.specs.Prelude.{◌≡◌, false};
ghost use Rattle.std.specs.Global.{Box};
ghost use Rattle.vr_model.specs.declared.message.Message.{Message};
ghost use Rattle.plc_host_core.specs.Reaching.{lets_through};
ghost use Rattle.node_core.specs.declared.host.HostEvent.TheVariants as events;
ghost use Rattle.node_core.specs.declared.host.Phase.TheVariants.{Left};

use crate::joints::{down, millis};
use crate::scan_watch::ScanWatch;
use il_loader::Image;
use il_model::Budget;
use net_hello::Epoch;
use plc_epochs::{ColdStart, Greeting, Kept, Moment, Place, Word};
use plc_host_core::{EpochAction, EpochKeeper};
use plc_machine::SeenScan;
use std::alloc::{AllocError, Global};
use std::time::Duration;
use vr_model::{Config, Message, Standing, Stored};
use vr_replica::{Replica, ViewStore};
use vr_threads::{GroupPatience, GroupTimes};

/// What a host is made of.
#[derive(Drop)]
pub struct HostSetup {
    pub config: Config,
    /// Of its machine.
    pub number: u8,
    pub image: Image,
    /// The sum of that image.
    pub sum: [u8; 32],
    pub budget: Budget,
    pub times: GroupTimes,
    /// Whether its group begins anew by itself.
    pub is_automatic: bool,
}

/// What comes to the thread of a replica.
#[derive(Drop)]
pub enum HostEvent {
    Message(Box<Message>),
    /// Time has passed; these replicas of other machines are near, and these reached, by bits.
    Tick { near: u8, reached: u8 },
    /// A replica of another machine said hello in this epoch.
    Hello { from: u8, epoch: Epoch },
    /// A visit came.
    Visit { from: u8, epoch: Epoch, word: Word },
    /// The store has counted a start, or couldn't.
    Began(Option<Stored>),
    /// The store has this of epochs.
    Kept(Kept),
}

/// What the thread of a replica is to do.
#[derive(Drop)]
pub enum HostDeed {
    Send(Box<Message>),
    /// A word is to be said to a machine in this epoch; it's lost where that isn't reached within so many milliseconds.
    Say {
        to: u8,
        epoch: Epoch,
        word: Word,
        within: u64,
    },
    /// The store is to count a start; `Began` tells that.
    Begin,
    /// The mark that the epoch was begun goes, before anything that stands behind this.
    EndBegins,
    /// The store is to have this of epochs; `Kept` tells that.
    Keep(Kept),
    /// The life of the machine ends, and its store is to have this.
    Leave(Kept),
}

/// What a replica shows of itself to its machine's driver: one value, published behind each step.
#[derive(Clone, Copy, Debug, PartialEq, Eq)]
pub struct Shown {
    pub standing: Standing,
    /// Whether its store has failed.
    pub has_failed: bool,
    /// The last scan of its log.
    pub seen: Option<SeenScan>,
}

/// Where a host is.
#[derive(Clone, Copy, PartialEq, Eq)]
pub(crate) enum Phase {
    /// It has begun no epoch.
    Waiting,
    /// Its store counts a start.
    Counting,
    Serving,
    /// Its life is over.
    Left,
}

/// The thread of a replica, as a value.
#[derive(Drop)]
pub struct Host {
    pub(crate) setup: HostSetup,
    pub(crate) keeper: EpochKeeper,
    pub(crate) phase: Phase,
    pub(crate) replica: Option<Box<Replica>>,
    pub(crate) timer: GroupPatience,
    pub(crate) watch: ScanWatch,
    pub(crate) has_failed: bool,
    /// The store has a beginning that stands for no start.
    pub(crate) has_begins: bool,
    /// Which other machines are reached, by bits.
    pub(crate) reached: u8,
    /// When it looked at its epoch last.
    pub(crate) looked: Option<Moment>,
}

/// Where a host is whose life begins, by what its store has of epochs.
fn phase_of(kept: &Kept) -> Phase {
    match kept {
        Kept::Begun(_) => Phase::Counting,
        _ => Phase::Waiting,
    }
}

impl Host {
    /// Of a machine whose life begins now, from a store that has this of epochs, and so many starts with this one.
    pub fn new(setup: HostSetup, kept: &Kept, starts: u64, now: Duration) -> Host {
        let place = Place {
            config: setup.config,
            number: setup.number,
            is_automatic: setup.is_automatic,
            is_marked: false,
        };
        let starts = u32::try_from(starts).unwrap_or(u32::MAX);
        let cold_start = ColdStart::new(place, kept, setup.sum, starts, millis(now));
        let timer = GroupPatience::new(setup.config, setup.number, setup.times);
        Host {
            setup,
            keeper: EpochKeeper::new(cold_start),
            phase: phase_of(kept),
            replica: None,
            timer,
            watch: ScanWatch::new(),
            has_failed: false,
            has_begins: true,
            reached: 0,
            looked: None,
        }
    }

    /// What it does first.
    pub fn begin(&self, deeds: &mut Vec<HostDeed>) -> Result<(), AllocError> {
        if self.phase == Phase::Counting {
            deeds.push(HostDeed::Begin)?;
        }
        Ok(())
    }

    /// The epoch in which it says hello; number 0 where it's in none.
    pub fn greeting(&self) -> Epoch {
        match self.keeper.cold_start().greeting() {
            Greeting::Hello(epoch) => epoch,
            _ => Epoch {
                number: 0,
                image: [0; 32],
            },
        }
    }

    /// The epoch in which it takes part.
    pub fn epoch(&self) -> Option<Epoch> {
        self.keeper.cold_start().speaks_in()
    }

    /// Whether its life is over.
    pub fn is_over(&self) -> bool {
        self.phase == Phase::Left
    }

    /// The replica, for those that check it.
    pub fn replica(&self) -> Option<&Replica> {
        match &self.replica {
            Some(replica) => Some(replica),
            None => None,
        }
    }

    /// What it shows.
    pub fn shown(&self) -> Shown {
        let standing = match &self.replica {
            Some(replica) => replica.standing(),
            None => down(),
        };
        Shown {
            standing,
            has_failed: self.has_failed,
            seen: self.watch.seen(),
        }
    }

    /// One event: what is to be done is added to the deeds, in order. A host whose life is over does nothing any more.
    pub fn step<S: ViewStore>(
        &mut self,
        alloc: Global,
        now: Duration,
        event: HostEvent,
        store: &mut S,
        deeds: &mut Vec<HostDeed>,
    ) -> Result<(), AllocError>
        ensures over { self.old.phase ≡ Left → (self.new ≡ self.old) × (deeds.new.items ≡ deeds.old.items) }
        ensures frozen { (message : Box Message) → event ≡ events.Message message
            → lets_through self.old.keeper.cold_start.phase message.value ≡ false
            → (self.new ≡ self.old) × (deeds.new.items ≡ deeds.old.items) }
    {
        if self.phase == Phase::Left {
            drop(event);
            return Ok(());
        }
        match event {
            HostEvent::Message(message) => self.take(alloc, now, message, store, deeds),
            HostEvent::Tick { near, reached } => {
                self.reached = reached;
                self.tick(alloc, now, near, store, deeds)
            }
            HostEvent::Hello { from, epoch } => self.hear(from, epoch, millis(now), deeds),
            HostEvent::Visit { from, epoch, word } => {
                let moment = millis(now);
                self.visit(from, epoch, word, moment, deeds)
            }
            HostEvent::Began(stored) => self.began(alloc, now, stored, store, deeds),
            HostEvent::Kept(kept) => self.kept(kept, deeds),
        }
    }

    /// The store has this of epochs.
    fn kept(&mut self, kept: Kept, deeds: &mut Vec<HostDeed>) -> Result<(), AllocError> {
        if let EpochAction::Starts = self.keeper.stored(&kept) {
            self.phase = Phase::Counting;
            deeds.push(HostDeed::Begin)?;
        }
        Ok(())
    }
}
