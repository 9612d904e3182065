//! The group of replicas that a driver has scan.

ghost use Rattle.std.specs.Prelude.{◌≡◌, ◌*◌, ◌-◌, ◌^◌, IfOk, vec_len};
ghost use Rattle.std.specs.Duration.{as_nanos};
ghost use Rattle.vr_model.specs.Groups.{group_size};
ghost use Rattle.plc_status.specs.Journal.{AreNoted};
ghost use Rattle.plc_driver.specs.Driving.{start_failed};

use crate::saving::patient_stores;
use crate::watch::Watch;
use il_loader::Image;
use plc_host::{Failed, Host, ServiceRuntime};
use plc_settings::Settings;
use plc_sight::{SightGate, SnapshotBoard};
use plc_status::{Journal, Notice, StatusWriter};
use std::sync::{Arc, Wait};
use std::thread;
use std::time::{Clock, Duration};
use vr_model::Config;
use vr_ports::Relink;
use vr_shown::Shown;
use vr_threads::{
    Cluster, ClusterConfig, ClusterError, ClusterThreads, MachineTimer, Saves, Seat, Starts,
};

/// For so many milliseconds a replica hears nothing of its view before it begins another.
const TIMEOUT: u64 = 2000;

/// After so many milliseconds a replica sends again what may have been lost.
const RESEND: u64 = 300;

/// In milliseconds: how long replicas have for their first start, and for their end.
const LONGEST_START: u64 = 30_000;

const LONGEST_END: u64 = 5_000;

/// In milliseconds: the time from one look at them to the next meanwhile.
const LOOK: u64 = 10;

/// A group of replicas that each have a thread, watched.
#[derive(Drop)]
pub(crate) struct Group<R: Clock + Copy + Drop, L: Relink + Drop> {
    host: Host<R>,
    config: Config,
    cluster: Cluster<L>,
    watch: Watch,
    /// How the saves of each replica go.
    saves: Vec<Arc<Saves>>,
}

/// What a replica works with.
type GroupSeat<R, L, S> = Seat<L, S, MachineTimer<R>, SightGate<R>>;

/// The parts of a replica with this link and this store. While it leads it leaves what is wanted on this board.
fn seat<R: Wait + Clock + Copy + Drop, L, S>(
    host: Host<R>,
    config: Config,
    link: L,
    store: S,
    sight: Arc<SnapshotBoard>,
) -> GroupSeat<R, L, S> {
    Seat {
        link,
        store,
        timer: MachineTimer::new(
            host.rt,
            config,
            Duration::from_millis(TIMEOUT),
            Duration::from_millis(RESEND),
        ),
        gate: SightGate::new(host, sight),
    }
}

/// A seat for each of these stores, of the replica with its number and the link at its place.
fn seats<R: Wait + Clock + Copy + Drop, L: Drop, S: Drop>(
    host: Host<R>,
    config: Config,
    links: Vec<L>,
    stores: Vec<S>,
    sight: &Arc<SnapshotBoard>,
) -> Result<Vec<GroupSeat<R, L, S>>, Failed>
    ensures seats { IfOk result (λ v. vec_len v ≡ vec_len stores) }
{
    let mut links = links.into_iter();
    let mut seats = Vec::new(host.alloc);
    for store in stores {
        let Some(link) = links.next() else {
            return Err(Failed::Device);
        };
        let sight = Arc::try_clone(sight)?;
        seats.push(seat(host, config, link, store, sight))?;
    }
    Ok(seats)
}

impl<R, L> Group<R, L>
where
    R: ServiceRuntime,
    L: Relink + Send + Drop + 'static,
{
    /// Has the replicas of an image's program started, all or none, each with the link and the store at its place.
    /// Beside it their threads, to be joined. The one that leads leaves what is wanted on the board. Where that fails no
    /// thread goes on.
    pub(crate) fn start<S: Starts + Send + Drop + 'static>(
        host: Host<R>,
        image: &Image,
        settings: &Settings,
        links: Vec<L>,
        stores: Vec<S>,
        sight: &Arc<SnapshotBoard>,
    ) -> Result<(Group<R, L>, ClusterThreads), Failed>
        requires { vec_len stores ≡ group_size settings.now.config.f }
        ensures turns { IfOk result (λ r. r.0.cluster.config.turns ≡ 2 ^ 64 - 1) }
        ensures patience { IfOk result
            (λ r. as_nanos r.0.watch.patience ≡ settings.now.lost_after * 1_000_000_000) }
    {
        let Host { rt, alloc } = host;
        let config = settings.config;
        let patience = Duration::from_secs(u64::from(settings.lost_after));
        let watch = Watch::new(alloc, config, patience)?;
        let (stores, saves) = patient_stores(rt, alloc, stores)?;
        let seats = seats(host, config, links, stores, sight)?;
        let common = ClusterConfig {
            group: config,
            budget: settings.budget,
            turns: u64::MAX,
        };
        match Cluster::start(&rt, alloc, common, image, seats) {
            Ok((cluster, threads)) => {
                let group = Group {
                    host,
                    config,
                    cluster,
                    watch,
                    saves,
                };
                Ok((group, threads))
            }
            Err(error) => Err(failed_by(error)),
        }
    }

    /// Waits until each replica's first start has come to its end, but not for ever. Of a replica whose start hasn't,
    /// the store isn't to be had.
    pub(crate) fn await_starts(&mut self) -> Result<(), Failed> {
        for _ in 0..LONGEST_START / LOOK {
            if self.starting().is_none() {
                return Ok(());
            }
            thread::sleep(&self.host.rt, Duration::from_millis(LOOK));
        }
        match self.starting() {
            Some(number) => Err(Failed::Store(number)),
            None => Ok(()),
        }
    }

    /// The first replica that is being started, if one is.
    fn starting(&mut self) -> Option<u8> {
        for number in 0..self.config.group_size() {
            if self.cluster.is_starting(number) {
                return Some(number);
            }
        }
        None
    }

    /// Has a replica started anew from its store; one that is up crashes first. It waits for nothing. Whether that's
    /// done: not where it's being started.
    pub(crate) fn restart(&mut self, number: u8) -> bool {
        self.cluster.restart(&self.host.rt, number)
    }

    /// What shows of a replica. While a save of it is to be tried again it's down.
    pub(crate) fn shown(&mut self, number: u8) -> Shown {
        let shown = self.cluster.shown(number);
        match self.saves.get(usize::from(number)) {
            Some(saves) if saves.are_failing() => shown.starting(),
            _ => shown,
        }
    }

    /// Notes what changed of the replicas since the last look at them, and has those started anew that need it, where
    /// that is due. Where fewer than f+1 replicas have been normal for too long, it's a device that failed.
    #[tactic(auto, using(crate::proofs::Noted::both, crate::proofs::Noted::none, crate::proofs::Noted::one))]
    pub(crate) fn tend(&mut self, now: Duration, journal: &mut Journal) -> Result<(), Failed>
        ensures { AreNoted journal.old journal.new }
    {
        let normal = self.look(now, journal);
        if self.watch.is_lost(normal > self.config.f, now) {
            return Err(Failed::Majority);
        }
        self.revive(now, journal);
        Ok(())
    }

    /// Notes what changed of the replicas since the last look at them. How many are normal.
    #[tactic(auto, using(crate::proofs::Noted::both, crate::proofs::Noted::none, crate::proofs::Noted::one))]
    fn look(&mut self, now: Duration, journal: &mut Journal) -> u8
        ensures { AreNoted journal.old journal.new }
    {
        let mut normal = 0u8;
        for number in 0..self.config.group_size() {
            self.note_saves(number, journal);
            let shown = self.shown(number);
            self.watch.look_at(number, shown, now, journal);
            if shown.is_normal() {
                normal = normal.saturating_add(1);
            }
        }
        normal
    }

    /// Notes each save of a replica that failed since the last look.
    #[tactic(auto, using(crate::proofs::Noted::both, crate::proofs::Noted::none, crate::proofs::Noted::one))]
    fn note_saves(&mut self, number: u8, journal: &mut Journal)
        ensures { AreNoted journal.old journal.new }
    {
        let Some(saves) = self.saves.get(usize::from(number)) else {
            return;
        };
        if saves.has_failed_anew() {
            journal.put(Notice::Store(number));
        }
    }

    /// Has those replicas started anew that need it, where that is due, and notes each.
    #[tactic(auto, using(crate::proofs::Noted::both, crate::proofs::Noted::none, crate::proofs::Noted::one))]
    fn revive(&mut self, now: Duration, journal: &mut Journal)
        ensures { AreNoted journal.old journal.new }
    {
        for number in 0..self.config.group_size() {
            if self.is_due(number, now) && self.restart(number) {
                journal.put(Notice::Starts(number));
            }
        }
    }

    /// Whether a replica is to be started anew now.
    fn is_due(&mut self, number: u8, now: Duration) -> bool {
        let shown = self.shown(number);
        let is_starting = self.cluster.is_starting(number);
        self.watch.is_due(number, shown, is_starting, now)
    }

    /// Sets what shows of each replica.
    pub(crate) fn show(&mut self, status: &mut StatusWriter) {
        for number in 0..self.config.group_size() {
            let shown = self.shown(number);
            status.set_replica(number, shown);
        }
    }

    /// Ends each replica, and waits until its thread is at its end, but not for ever: one that isn't is noted. Whether
    /// all are.
    #[tactic(auto, using(crate::proofs::Noted::both, crate::proofs::Noted::none, crate::proofs::Noted::one))]
    pub(crate) fn end(&mut self, journal: &mut Journal) -> bool
        ensures { AreNoted journal.old journal.new }
    {
        for saves in &self.saves {
            saves.end();
        }
        for _ in 0..LONGEST_END / LOOK {
            // Again with each look: a start that was under way makes its link anew.
            self.cluster.cut();
            if self.are_idle() {
                return true;
            }
            thread::sleep(&self.host.rt, Duration::from_millis(LOOK));
        }
        self.note_hanging(journal);
        false
    }

    /// Whether nothing is done for any replica.
    fn are_idle(&mut self) -> bool {
        let mut are_all = true;
        for number in 0..self.config.group_size() {
            are_all = are_all && self.cluster.is_idle(number);
        }
        are_all
    }

    /// Notes each replica whose thread isn't at its end.
    #[tactic(auto, using(crate::proofs::Noted::both, crate::proofs::Noted::none, crate::proofs::Noted::one))]
    fn note_hanging(&mut self, journal: &mut Journal)
        ensures { AreNoted journal.old journal.new }
    {
        for number in 0..self.config.group_size() {
            if !self.cluster.is_idle(number) {
                journal.put(Notice::Hangs(number));
            }
        }
    }
}

/// Why no replica runs.
fn failed_by(error: ClusterError) -> Failed
    ensures { result ≡ start_failed error }
{
    match error {
        ClusterError::Memory => Failed::Memory,
        ClusterError::Thread => Failed::Thread,
    }
}
