//! What the thread of a replica does.

ghost use Rattle.std.specs.Prelude.{◌≡◌, IfOk, OnOk, false};
ghost use Rattle.vr_serving.specs.Serving.{scene};
ghost use Rattle.vr_shown.specs.Showing.{down_standing};
ghost use Rattle.vr_threads.specs.Working.{HasStarted, ComesUp, Worked, planned};

use crate::starting::{Started, Starts, start_from};
use crossbeam_channel::Receiver;
use il_loader::Image;
use il_model::Budget;
use std::alloc::{AllocError, Global};
use std::sync::Wait;
use std::thread;
use std::thread::{JoinHandle, Threads};
use vr_model::{Config, Event};
use vr_ports::{Relink, Timer};
use vr_replica::Replica;
use vr_serving::{Observer, Seat, act, serve_from};
use vr_shown::ShownWriter;

/// What a replica is started from, each time: its group and its number there, its program, and for how long it is
/// served.
#[derive(Drop)]
pub(crate) struct Plan {
    pub(crate) config: Config,
    pub(crate) number: u8,
    pub(crate) image: Image,
    pub(crate) budget: Budget,
    /// For so many turns after each of its starts.
    pub(crate) turns: u64,
}

/// The work of a replica's thread: what it starts the replica from, its parts, and what publishes what shows of it.
#[derive(Drop)]
pub(crate) struct Work<L, S, T, G> {
    pub(crate) plan: Plan,
    pub(crate) seat: Seat<L, S, T, G>,
    pub(crate) shown: ShownWriter,
    /// Whether its link was served before: then it is made anew at a start.
    pub(crate) is_used: bool,
}

impl<L: Relink, S: Starts, T: Timer, G: Observer> Work<L, S, T, G> {
    /// Does what an order to start asks for, and returns once the replica is served no more.
    fn obey(&mut self, alloc: Global) {
        if !self.is_linked() || self.run(alloc).is_err() {
            self.shown.show_not_started();
        }
    }

    /// Makes the link anew, if it was served before: whether it can be served now.
    fn is_linked(&mut self) -> bool {
        let was_used = self.is_used;
        self.is_used = true;
        !was_used || self.seat.link.renew().is_ok()
    }

    /// Starts the replica from its store. Then it comes up, where it is to, and is served: the gate is called round
    /// each of these steps. At the end it shows as down. It fails only where memory runs out, before the replica is
    /// served.
    fn run(&mut self, alloc: Global) -> Result<(), AllocError>
        ensures worked { OnOk result (Worked S.load_gives S.save_gives S.faults S.begin_gives (planned self.old.plan)
            self.old.plan.turns
            (scene (T.ticks self.old.seat.timer) (L.inputs self.old.seat.link) (L.sent self.old.seat.link))
            self.old.seat.store
            (scene (T.ticks self.new.seat.timer) (L.inputs self.new.seat.link) (L.sent self.new.seat.link))
            self.new.seat.store) }
        ensures shown { OnOk result ((self.new.shown.standing ≡ down_standing) × (self.new.shown.is_served ≡ false)) }
        ensures plan { self.new.plan ≡ self.old.plan }
    {
        let mut started = self.start(alloc)?;
        let call = self.come_up(alloc, &mut started.replica, started.nonce);
        let turns = self.plan.turns;
        serve_from(
            call,
            alloc,
            &mut started.replica,
            &mut self.seat,
            &mut self.shown,
            turns,
        );
        self.shown.show_end();
        Ok(())
    }

    /// The replica from its store, which counts a start more: the gate has looked at it, and it shows from now on. It
    /// fails only where memory runs out.
    fn start(&mut self, alloc: Global) -> Result<Started, AllocError>
        ensures started { IfOk result (λ start. HasStarted S.begin_gives (planned self.old.plan) self.old.seat.store
            self.new.seat.store start.replica start.nonce start.starts) }
        ensures same { (self.new.plan ≡ self.old.plan) × (self.new.seat.link ≡ self.old.seat.link)
            × (self.new.seat.timer ≡ self.old.seat.timer) }
    {
        let Plan {
            config,
            number,
            budget,
            ..
        } = self.plan;
        let image = self.plan.image.copy(alloc)?;
        let started = start_from(alloc, config, number, image, budget, &mut self.seat.store)?;
        // Before it shows, as behind each step.
        self.seat.gate.observe(&started.replica);
        self.shown
            .show_start(started.replica.standing(), started.count());
        Ok(started)
    }

    /// Has a replica come up with this nonce, if there is one, as its first step: the call that the gate counts next.
    fn come_up(&mut self, alloc: Global, replica: &mut Replica, nonce: Option<u64>) -> u64
        ensures up { ComesUp S.load_gives S.save_gives S.faults nonce
            (scene (T.ticks self.old.seat.timer) (L.inputs self.old.seat.link) (L.sent self.old.seat.link)
            replica.old self.old.seat.store)
            (scene (T.ticks self.new.seat.timer) (L.inputs self.new.seat.link) (L.sent self.new.seat.link)
            replica.new self.new.seat.store) }
        ensures plan { self.new.plan ≡ self.old.plan }
    {
        let mut call = 1u64;
        if let Some(nonce) = nonce {
            let Work { seat, shown, .. } = self;
            act(
                alloc,
                replica,
                seat,
                shown,
                &mut call,
                Event::Restart(nonce),
            );
        }
        call
    }
}

/// The thread of a replica: for each order it starts the replica and serves it, until nobody is left who gives any. So
/// the replica has no other thread, and each start finds the store that the one before left.
fn attend<R: Wait, L: Relink + Drop, S: Starts + Drop, T: Timer + Drop, G: Observer + Drop>(
    rt: &R,
    alloc: Global,
    orders: &Receiver<()>,
    mut work: Work<L, S, T, G>,
) {
    for _ in rt.forever() {
        if orders.recv(rt).is_err() {
            return;
        }
        work.obey(alloc);
    }
}

/// A thread for this work, which these orders go to. None where no thread is to be had.
pub(crate) fn spawned<R, L, S, T, G>(
    rt: &R,
    alloc: Global,
    orders: Receiver<()>,
    work: Work<L, S, T, G>,
) -> Option<JoinHandle<()>>
where
    R: Threads + Wait + Copy + Send + 'static,
    L: Relink + Send + Drop + 'static,
    S: Starts + Send + Drop + 'static,
    T: Timer + Send + Drop + 'static,
    G: Observer + Send + Drop + 'static,
{
    let theirs = *rt;
    thread::spawn(rt, move || attend(&theirs, alloc, &orders, work)).ok()
}
