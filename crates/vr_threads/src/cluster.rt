//! Replicas with a thread each.

ghost use Rattle.std.specs.Prelude.{◌≡◌, IfOk, vec_len};
ghost use Rattle.vr_model.specs.Groups.{group_size};

use crate::own_replica::{OwnReplica, enrolled, work};
use crate::starting::Starts;
use crate::working::Work;
use il_loader::Image;
use il_model::Budget;
use std::alloc::{AllocError, AllocFailed, Global};
use std::sync::Wait;
use std::thread::{JoinHandle, Threads};
use thiserror::Error;
use vr_model::Config;
use vr_ports::{Relink, Timer};
use vr_serving::{Observer, Seat};
use vr_shown::Shown;

/// Why no replica is served.
#[derive(Clone, Copy, Debug, PartialEq, Eq, Error)]
pub enum ClusterError {
    #[error("out of memory")]
    Memory,
    #[error("no thread for a replica")]
    Thread,
}

impl From<AllocError> for ClusterError {
    ghost use Rattle.std.specs.Prelude.{◌≡◌};
    ghost use Rattle.vr_threads.specs.declared.cluster.ClusterError.TheVariants.{Memory};

    ghost from_gives = { λ _ e. e ≡ Memory };

    fn from(_error: AllocError) -> ClusterError {
        ClusterError::Memory
    }
}

impl<T: Drop> From<AllocFailed<T>> for ClusterError {
    ghost use Rattle.std.specs.Prelude.{◌≡◌};
    ghost use Rattle.vr_threads.specs.declared.cluster.ClusterError.TheVariants.{Memory};

    ghost from_gives = { λ _ e. e ≡ Memory };

    fn from(_error: AllocFailed<T>) -> ClusterError {
        ClusterError::Memory
    }
}

/// What the replicas of a cluster have in common.
#[derive(Clone, Copy)]
pub struct ClusterConfig {
    pub group: Config,
    pub budget: Budget,
    /// For so many turns each replica is served after each of its starts.
    pub turns: u64,
}

/// A group of replicas, each started and served by a thread of its own, which it keeps. Any thread may have it.
#[derive(Drop)]
pub struct Cluster<L: Relink + Drop> {
    alloc: Global,
    pub config: ClusterConfig,
    members: Vec<OwnReplica<L>>,
}

/// The threads of a cluster's replicas. They end once the cluster is let go of and their links are closed.
#[derive(Drop)]
pub struct ClusterThreads {
    threads: Vec<JoinHandle<()>>,
}

impl ClusterThreads {
    /// Waits until each has ended.
    pub fn join<R: Threads>(self, rt: &R) {
        for thread in self.threads {
            thread.join(rt);
        }
    }
}

impl<L: Relink + Send + Drop + 'static> Cluster<L> {
    /// Has the replicas of a group started, all or none, each by a thread of its own: it counts a start more in its
    /// store, and is served for so many turns, or until its link is closed. It waits for none of them. Where memory or
    /// a thread is refused, none was started, and no thread is left. Beside the cluster the threads, to be joined.
    pub fn start<R, S, T, G>(
        rt: &R,
        alloc: Global,
        config: ClusterConfig,
        image: &Image,
        seats: Vec<Seat<L, S, T, G>>,
    ) -> Result<(Cluster<L>, ClusterThreads), ClusterError>
    where
        R: Threads + Wait + Copy + Send + 'static,
        S: Starts + Send + Drop + 'static,
        T: Timer + Send + Drop + 'static,
        G: Observer + Send + Drop + 'static,
        requires { vec_len seats ≡ group_size config.group.f }
        ensures { IfOk result (λ r. r.0.config ≡ config) }
    {
        let works = works(alloc, config, image, seats)?;
        let mut cluster = Cluster {
            alloc,
            config,
            members: Vec::new(alloc),
        };
        // With room for each, so that none is lost for want of memory.
        let mut threads = Vec::with_capacity(alloc, works.len())?;
        let enrolled = cluster.enrol_all(rt, works, &mut threads);
        let threads = ClusterThreads { threads };
        match enrolled {
            Ok(()) => {
                cluster.order_all(rt);
                Ok((cluster, threads))
            }
            Err(error) => {
                drop(cluster);
                threads.join(rt);
                Err(error)
            }
        }
    }

    /// A member for each of these works, whose thread waits for an order.
    fn enrol_all<R, S, T, G>(
        &mut self,
        rt: &R,
        works: Vec<Work<L, S, T, G>>,
        threads: &mut Vec<JoinHandle<()>>,
    ) -> Result<(), ClusterError>
    where
        R: Threads + Wait + Copy + Send + 'static,
        S: Starts + Send + Drop + 'static,
        T: Timer + Send + Drop + 'static,
        G: Observer + Send + Drop + 'static,
        ensures { self.new.config ≡ self.old.config }
    {
        for work in works {
            let (member, thread) = enrolled(rt, self.alloc, work)?;
            threads.push(thread)?;
            self.members.push(member)?;
        }
        Ok(())
    }

    /// Has each replica started.
    fn order_all<R: Wait>(&mut self, rt: &R)
        ensures { self.new.config ≡ self.old.config }
    {
        for member in self.members.iter_mut() {
            let _ = member.order(rt);
        }
    }

    /// Closes the link of a replica: its thread drops its state, unless that hangs. Of a replica that is not served it
    /// does nothing.
    pub fn crash(&self, number: u8) {
        if let Some(member) = self.members.get(usize::from(number)) {
            member.cut();
        }
    }

    /// Has a replica started anew from its store by its thread, with a start more and its link made anew at both ends.
    /// One that is up crashes first. It waits for nothing; where the order before has not come to its end, it does
    /// nothing. Whether it was ordered.
    pub fn restart<R: Wait>(&mut self, rt: &R, number: u8) -> bool {
        match self.members.get_mut(usize::from(number)) {
            Some(member) => member.restart(rt),
            None => false,
        }
    }

    /// Whether an order to start a replica has not come to its end.
    pub fn is_starting(&mut self, number: u8) -> bool {
        match self.members.get_mut(usize::from(number)) {
            Some(member) => member.is_starting(),
            None => false,
        }
    }

    /// What shows of a replica now; from an order to start it until that came to its end it is down. Of a number that
    /// no replica has it is what shows before any start.
    pub fn shown(&mut self, number: u8) -> Shown {
        match self.members.get_mut(usize::from(number)) {
            Some(member) => member.look(),
            None => Shown::nothing(),
        }
    }

    /// Whether nothing is done for a replica: it is not served, and no order has yet to come to its end.
    pub fn is_idle(&mut self, number: u8) -> bool {
        match self.members.get_mut(usize::from(number)) {
            Some(member) => member.is_idle(),
            None => true,
        }
    }

    /// Closes the link of each replica, which ends its serving.
    pub fn cut(&self) {
        for member in &self.members {
            member.cut();
        }
    }
}

/// The work of each replica of a group, by its number.
fn works<L: Drop, S: Drop, T: Drop, G: Drop>(
    alloc: Global,
    config: ClusterConfig,
    image: &Image,
    seats: Vec<Seat<L, S, T, G>>,
) -> Result<Vec<Work<L, S, T, G>>, ClusterError> {
    let mut works = Vec::new(alloc);
    for (number, seat) in (0..config.group.group_size()).zip(seats) {
        works.push(work(alloc, config, number, image, seat)?)?;
    }
    Ok(works)
}
