//! A machine of the group: its disk, its clock, its process, and the ends of its connections.

use crate::disk::Disk;
use crate::net::{End, Stage};
use crate::setup::Setup;
use io_image::StageBook;
use net_hello::{Epoch, Hello, Known};
use net_peers::Pulse;
use node_core::{Host, HostDeed, HostEvent, HostSetup, Node, NodeDeed, NodeSetup, Shown};
use plc_epochs::Kept;
use sim_checker::Point;
use sim_time::{Clock, MS, SECOND, micros, micros_of};
use std::alloc::{AllocError, Global};
use std::time::Duration;
use vr_model::{Message, Party, Standing, Status, Stored};

/// The longest time between two turns of a machine.
pub const TURN: u64 = 5 * MS;

/// The shortest one.
const SHORTEST: u64 = 100;

/// One that is to end and hasn't for so long hangs.
const HANG: u64 = 3 * SECOND;

/// The process and the life of a machine that something is for: what is for another one is let go.
#[derive(Clone, Copy)]
pub struct Owner {
    pub machine: u8,
    process: u64,
    life: u64,
}

/// What a machine shows clients.
#[derive(Clone, Copy)]
struct Visible {
    point: Point,
    /// When its scan was submitted, by the world's clock.
    at: u64,
}

/// A life that is to end.
#[derive(Clone, Copy)]
pub struct Leaving {
    /// What the store is to have.
    pub kept: Kept,
    pub since: u64,
}

/// How far the end of a life is.
#[derive(Clone, Copy, PartialEq, Eq)]
pub enum Ending {
    /// It goes on, or is over already.
    No,
    /// Something of it is left.
    Waits,
    Hangs,
    /// Nothing is left: its store gets what it's to have.
    Keeps(Kept),
}

/// A machine.
#[derive(Drop)]
pub struct Machine {
    pub number: u8,
    pub disk: Disk,
    /// Processes are counted, and lives.
    process: u64,
    life: u64,
    pub is_up: bool,
    /// When its process is to start by itself.
    pub boots_at: Option<u64>,
    clock: Clock,
    pub paused_until: u64,
    /// Until then its replica's thread waits for its disk.
    pub busy_until: u64,
    pub host: Option<Box<Host>>,
    pub node: Option<Box<Node>>,
    pub stage: StageBook,
    visible: Option<Visible>,
    /// What its replica's thread has published.
    shown: Option<Shown>,
    pub leaving: Option<Leaving>,
    pub(crate) ends: Vec<End>,
    /// So often it was started in its epoch, with this time.
    starts: u64,
}

/// The same in a box.
fn in_box<T: Drop>(alloc: Global, it: Option<T>) -> Result<Option<Box<T>>, AllocError> {
    match it {
        Some(it) => Ok(Some(Box::new(alloc, it)?)),
        None => Ok(None),
    }
}

impl Machine {
    /// One that is down, with these ends of connections.
    pub fn new(alloc: Global, number: u8, disk: Disk, clock: Clock, ends: Vec<End>) -> Machine {
        Machine {
            number,
            disk,
            process: 0,
            life: 0,
            is_up: false,
            boots_at: None,
            clock,
            paused_until: 0,
            busy_until: 0,
            host: None,
            node: None,
            stage: StageBook::new(alloc),
            visible: None,
            shown: None,
            leaving: None,
            ends,
            starts: 0,
        }
    }

    /// Its process and life now.
    pub fn owner(&self) -> Owner {
        Owner {
            machine: self.number,
            process: self.process,
            life: self.life,
        }
    }

    /// Whether it's up, in this process.
    pub fn is_process(&self, owner: Owner) -> bool {
        self.is_up && self.process == owner.process
    }

    /// Whether it's up, in this life.
    pub fn is_life(&self, owner: Owner) -> bool {
        self.is_process(owner) && self.life == owner.life
    }

    /// Until when it's paused, if it is.
    pub fn paused(&self, now: u64) -> Option<u64> {
        if self.paused_until > now {
            Some(self.paused_until)
        } else {
            None
        }
    }

    /// Until when its replica's thread takes nothing, if it doesn't.
    pub fn occupied(&self, now: u64) -> Option<u64> {
        let until = self.busy_until.max(self.paused_until);
        if until > now { Some(until) } else { None }
    }

    /// Its own time, in microseconds.
    pub fn local(&self, now: u64) -> u64 {
        self.clock.local(now)
    }

    /// Its own time, in milliseconds.
    pub fn moment(&self, now: u64) -> u64 {
        self.local(now) / MS
    }

    /// Whether clients may read and write at it.
    pub fn is_open(&self, now: u64) -> bool {
        let is_open = match &self.node {
            Some(node) => node.is_open(),
            None => false,
        };
        self.is_up && is_open && self.paused(now).is_none()
    }

    /// What a client reads at it, if its port is open: a session refuses what isn't fresh.
    pub fn read(&self, now: u64, fresh: u64) -> Option<Point> {
        let visible = self.visible?;
        let age = now.saturating_sub(visible.at);
        if self.is_open(now) && age / MS < fresh / MS {
            Some(visible.point)
        } else {
            None
        }
    }

    /// Its driver releases something, of a scan that was submitted at that time of its own: clients see it from now on.
    pub fn release(&mut self, point: Point, submitted: Duration, now: u64) {
        let age = self.local(now).saturating_sub(micros_of(submitted));
        self.visible = Some(Visible {
            point,
            at: now.saturating_sub(age),
        });
    }

    /// Whether its replica is normal, and its thread waits for nothing.
    fn is_normal(&self) -> bool {
        let is_normal = match &self.shown {
            Some(shown) => shown.standing.status == Status::Normal,
            None => false,
        };
        is_normal && !self.disk.is_saving()
    }

    /// Whether its replica is normal, or it waits for an epoch, and it isn't paused.
    pub fn is_well(&self, now: u64) -> bool {
        (self.is_normal() || self.disk.files.waits()) && self.paused(now).is_none()
    }

    /// The epoch in which its replica's thread takes part.
    pub fn epoch(&self) -> Option<Epoch> {
        match &self.host {
            Some(host) => host.epoch(),
            None => None,
        }
    }

    /// Its process starts.
    pub fn boot(&mut self, now: u64) {
        self.boots_at = None;
        self.is_up = true;
        self.process = self.process.saturating_add(1);
        self.clock.began = now;
        self.paused_until = 0;
        self.busy_until = 0;
    }

    /// Its process ends, and what its disk hasn't flushed is lost; what is under way may be flushed.
    pub fn cut(&mut self, is_flushed: bool) {
        self.is_up = false;
        self.host = None;
        self.node = None;
        self.visible = None;
        self.shown = None;
        self.disk.cut(is_flushed);
    }

    /// A life begins: nothing of the one before is left.
    pub fn renew(&mut self, alloc: Global, pulse: Pulse) {
        self.life = self.life.saturating_add(1);
        self.host = None;
        self.node = None;
        self.visible = None;
        self.shown = None;
        self.leaving = None;
        self.stage = StageBook::new(alloc);
        for end in self.ends.iter_mut() {
            *end = End::new(pulse);
        }
    }

    /// Its replica's thread begins: what it does first.
    pub fn begin(
        &mut self,
        alloc: Global,
        setup: HostSetup,
        now: u64,
    ) -> Result<Vec<HostDeed>, AllocError> {
        self.starts = self.disk.files.next_starts();
        let local = micros(self.local(now));
        let host = Host::new(setup, &self.disk.files.kept, self.starts, local);
        let host = Box::new(alloc, host)?;
        let mut deeds = Vec::new(alloc);
        host.begin(&mut deeds)?;
        self.host = Some(host);
        Ok(deeds)
    }

    /// One event of its replica's thread: what is to be done. Where a view is saved first, the thread waits for that.
    pub fn step(
        &mut self,
        alloc: Global,
        now: u64,
        event: Box<HostEvent>,
    ) -> Result<Vec<HostDeed>, AllocError> {
        let local = micros(self.local(now));
        let mut deeds = Vec::new(alloc);
        if let Some(host) = &mut self.host {
            let event = Box::into_inner(event);
            host.step(alloc, local, event, &mut self.disk, &mut deeds)?;
        }
        if self.disk.is_saving() {
            self.busy_until = now.saturating_add(self.disk.latency);
        }
        Ok(deeds)
    }

    /// Its replica's thread publishes what it shows.
    pub fn publish(&mut self) -> Option<Standing> {
        let Some(host) = &self.host else {
            return None;
        };
        let shown = host.shown();
        self.shown = Some(shown);
        Some(shown.standing)
    }

    /// A turn of its driver, if it has one: what is to be done is added to the deeds. When the next turn is.
    pub fn drive(
        &mut self,
        alloc: Global,
        now: u64,
        deeds: &mut Vec<NodeDeed>,
    ) -> Result<u64, AllocError> {
        let local = micros(self.local(now));
        let (Some(node), Some(shown)) = (&mut self.node, self.shown) else {
            return Ok(now.saturating_add(TURN));
        };
        node.turn(alloc, local, &shown, &mut self.stage, deeds)?;
        let wait = micros_of(node.next_due(local).saturating_sub(local));
        Ok(now.saturating_add(wait.max(SHORTEST).min(TURN)))
    }

    /// A message for its driver, which has a turn behind it at once: what is to be done is added to the deeds.
    pub fn reply(
        &mut self,
        alloc: Global,
        now: u64,
        message: &Message,
        deeds: &mut Vec<NodeDeed>,
    ) -> Result<(), AllocError> {
        let local = micros(self.local(now));
        let (Some(node), Some(shown)) = (&mut self.node, self.shown) else {
            return Ok(());
        };
        node.reply(message, deeds)?;
        node.turn(alloc, local, &shown, &mut self.stage, deeds)
    }

    /// An operator stops its driver, if it has one: what is to be done is added to the deeds.
    pub fn stop(&mut self, now: u64, deeds: &mut Vec<NodeDeed>) -> Result<(), AllocError> {
        let local = micros(self.local(now));
        match &mut self.node {
            Some(node) => node.stop(local, deeds),
            None => Ok(()),
        }
    }

    /// Its replica's thread says that its life is to end, and what its store is to have then: what is to be done is added
    /// to the deeds.
    pub fn leave(
        &mut self,
        kept: Kept,
        since: u64,
        deeds: &mut Vec<NodeDeed>,
    ) -> Result<(), AllocError> {
        let local = micros(self.local(since));
        match &mut self.node {
            Some(node) => node.left(kept, local, deeds),
            None => {
                self.leaving = Some(Leaving { kept, since });
                Ok(())
            }
        }
    }

    /// Its disk has counted a start, or couldn't: its driver begins, unless its life is to end. What its replica's thread
    /// is told of its store.
    pub fn count(
        &mut self,
        alloc: Global,
        setup: &Setup,
        is_counted: bool,
    ) -> Result<Option<Stored>, AllocError> {
        if !is_counted {
            return Ok(None);
        }
        let (view, starts) = (self.disk.files.view, self.disk.files.starts);
        if self.node.is_none() && self.leaving.is_none() {
            let node = Node::new(NodeSetup {
                config: setup.config,
                number: self.number,
                starts,
                pace: setup.pace(),
            });
            self.node = in_box(alloc, node)?;
        }
        Ok(Some(Stored { view, starts }))
    }

    /// How far the end of its life is.
    pub fn ending(&self, now: u64) -> Ending {
        let Some(leaving) = self.leaving else {
            return Ending::No;
        };
        if self.disk.is_busy() {
            return Ending::No;
        }
        match &self.host {
            Some(host) if host.is_over() => Ending::Keeps(leaving.kept),
            Some(_) if now.saturating_sub(leaving.since) > HANG => Ending::Hangs,
            Some(_) => Ending::Waits,
            None if self.node.is_some() => Ending::Keeps(leaving.kept),
            None => Ending::No,
        }
    }

    /// Which other machines are near, and which reached, by bits.
    pub fn neighbours(&self, now: u64) -> (u8, u8) {
        let moment = self.moment(now);
        let (mut near, mut reached) = (0u8, 0u8);
        let mut bit = 1u8;
        for end in self.ends.iter() {
            if end.stage == Stage::Open {
                reached |= bit;
            }
            if end.is_near(moment) {
                near |= bit;
            }
            bit = bit.wrapping_mul(2);
        }
        (near, reached)
    }

    /// What it says first at a connection to another machine; none where nothing of it runs.
    pub fn hello_to(&self, other: u8, setup: &Setup) -> Option<Hello> {
        let Some(host) = &self.host else {
            return None;
        };
        let starts = match self.ends.get(usize::from(other)) {
            Some(end) => end.starts,
            None => 0,
        };
        Some(Hello {
            identity: [1; 32],
            epoch: host.greeting(),
            party: Party::Replica(self.number),
            starts: self.starts,
            fresh: u32::try_from(setup.fresh / MS).unwrap_or(u32::MAX),
            store: self.disk.files.store,
            known: Known {
                store: self.disk.files.seen_of(other),
                starts,
            },
        })
    }
}
