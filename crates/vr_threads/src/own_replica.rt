//! One replica with a thread of its own.

ghost use Rattle.std.specs.Prelude.{IfOk};
ghost use Rattle.vr_threads.specs.Working.{IsPlannedFor};

use crate::cluster::{ClusterConfig, ClusterError};
use crate::starting::Starts;
use crate::working::{Plan, Work, spawned};
use crossbeam_channel::{Sender, bounded};
use il_loader::Image;
use std::alloc::Global;
use std::sync::Wait;
use std::thread::{JoinHandle, Threads};
use vr_ports::{Cutter, Relink, Timer};
use vr_serving::{Observer, Seat};
use vr_shown::{Shown, ShownReader, ShownWriter};

/// A replica that runs in this process, in a thread of its own, as others see it: what cuts its link, the way to give
/// its thread orders to start it, and what shows of it.
#[derive(Drop)]
pub struct OwnReplica<L: Relink + Drop> {
    cutter: L::Cutter,
    shown: ShownReader,
    orders: Sender<()>,
    /// So many orders it was given.
    ordered: u64,
}

impl<L: Relink + Drop> OwnReplica<L> {
    /// What shows of it now: it is down from an order on until that came to its end.
    pub fn look(&mut self) -> Shown {
        let shown = self.shown.read();
        if shown.tries == self.ordered {
            shown
        } else {
            shown.starting()
        }
    }

    /// Whether an order has not come to its end.
    pub(crate) fn is_starting(&mut self) -> bool {
        self.shown.read().tries != self.ordered
    }

    /// Whether nothing is done for it: it is not served, and no order has yet to come to its end. It will be served
    /// again by `restart` alone.
    pub fn is_idle(&mut self) -> bool {
        !self.is_starting() && !self.look().is_served
    }

    /// Has its thread start it, unless an order has not come to its end: whether that is ordered.
    pub(crate) fn order<R: Wait>(&mut self, rt: &R) -> bool {
        if self.is_starting() || self.orders.try_send(rt, ()).is_err() {
            return false;
        }
        self.ordered = self.ordered.saturating_add(1);
        true
    }

    /// Has its thread start it anew from its store, with a start more and its link made anew, unless an order has not
    /// come to its end: one that is up crashes first. It waits for nothing. Whether that is ordered.
    pub fn restart<R: Wait>(&mut self, rt: &R) -> bool {
        if self.is_starting() {
            return false;
        }
        self.cutter.cut();
        self.order(rt)
    }

    /// Closes its link, which ends its serving. Of a replica that is not served it does nothing.
    pub fn cut(&self) {
        self.cutter.cut();
    }
}

impl<L: Relink + Send + Drop + 'static> OwnReplica<L> {
    /// Has the replica of this number started by a thread of its own, as `Cluster::start` has each of a group. It waits
    /// for nothing. Where memory or a thread is refused, nothing was started. Beside the replica its thread, to be
    /// joined: it ends once this is let go of and the link is closed.
    pub fn start<R, S, T, G>(
        rt: &R,
        alloc: Global,
        config: ClusterConfig,
        number: u8,
        image: &Image,
        seat: Seat<L, S, T, G>,
    ) -> Result<(OwnReplica<L>, JoinHandle<()>), ClusterError>
    where
        R: Threads + Wait + Copy + Send + 'static,
        S: Starts + Send + Drop + 'static,
        T: Timer + Send + Drop + 'static,
        G: Observer + Send + Drop + 'static,
    {
        let (mut replica, thread) = enrolled(rt, alloc, work(alloc, config, number, image, seat)?)?;
        let _ = replica.order(rt);
        Ok((replica, thread))
    }
}

/// A replica whose thread has this work and waits for an order, and that thread.
pub(crate) fn enrolled<R, L, S, T, G>(
    rt: &R,
    alloc: Global,
    work: Work<L, S, T, G>,
) -> Result<(OwnReplica<L>, JoinHandle<()>), ClusterError>
where
    R: Threads + Wait + Copy + Send + 'static,
    L: Relink + Send + Drop + 'static,
    S: Starts + Send + Drop + 'static,
    T: Timer + Send + Drop + 'static,
    G: Observer + Send + Drop + 'static,
{
    let cutter = work.seat.link.cutter()?;
    let shown = work.shown.reader()?;
    let (orders, inbox) = bounded(alloc, 1)?;
    let Some(thread) = spawned(rt, alloc, inbox, work) else {
        return Err(ClusterError::Thread);
    };
    Ok((
        OwnReplica {
            cutter,
            shown,
            orders,
            ordered: 0,
        },
        thread,
    ))
}

/// The work of the replica of this number, with these parts.
pub(crate) fn work<L: Drop, S: Drop, T: Drop, G: Drop>(
    alloc: Global,
    config: ClusterConfig,
    number: u8,
    image: &Image,
    seat: Seat<L, S, T, G>,
) -> Result<Work<L, S, T, G>, ClusterError>
    ensures { IfOk result (λ work. IsPlannedFor config image.now number work.plan) }
{
    let ClusterConfig {
        group,
        budget,
        turns,
    } = config;
    Ok(Work {
        plan: Plan {
            config: group,
            number,
            image: image.copy(alloc)?,
            budget,
            turns,
        },
        seat,
        shown: ShownWriter::new(alloc)?,
        is_used: false,
    })
}
