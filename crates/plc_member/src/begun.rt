//! A machine that has begun its epoch, and whose replica is not started.

use crate::keeper::Keeper;
use crate::life::Origin;
use crate::serving::MachineRuntime;
use crate::stop::Stop;
use net_hello::Epoch;
use net_peers::{Exchange, PeerLink};
use plc_trace::{Started, Trace};
use std::sync::Arc;
use vr_threads::Saves;

/// A machine that has begun its epoch, as its store says, and is to be served in it: its links are up, and its replica
/// is not started.
#[derive(Drop)]
pub struct Begun<R: MachineRuntime, S: Drop, M: Drop> {
    pub(crate) around: Surroundings<R>,
    /// Of its replica.
    pub(crate) link: PeerLink<R>,
    pub(crate) files: ReplicaFiles<S, M>,
}

/// What stands around the replica of a machine in its epoch.
#[derive(Drop)]
pub(crate) struct Surroundings<R: MachineRuntime> {
    pub(crate) epoch: Epoch,
    pub(crate) origin: Origin,
    /// What the links of its parties share.
    pub(crate) exchange: Arc<Exchange>,
    /// The link of its driver.
    pub(crate) driver: PeerLink<R>,
    /// The link of its console, if it has one.
    pub(crate) console: Option<PeerLink<R>>,
    pub(crate) keeper: Keeper<R>,
    /// What ends it.
    pub(crate) stop: Stop,
    /// Where what it releases is put, if that's wanted.
    pub(crate) trace: Option<Trace>,
}

/// The files of a replica.
#[derive(Drop)]
pub(crate) struct ReplicaFiles<S: Drop, M: Drop> {
    /// Of its view.
    pub(crate) store: S,
    pub(crate) marks: M,
    /// How what it keeps there goes.
    pub(crate) saves: Arc<Saves>,
}

impl<R: MachineRuntime> Surroundings<R> {
    /// Which machine it is.
    pub(crate) fn number(&self) -> u8 {
        self.origin.header.machine
    }
}

impl<R: MachineRuntime, S: Drop, M: Drop> Begun<R, S, M> {
    /// The same, which puts what it releases into a trace.
    pub fn traced(mut self, trace: Trace) -> Begun<R, S, M> {
        self.around.trace = Some(trace);
        self
    }

    /// The same, whose replica has these keep what its directory keeps else.
    pub fn marked_by<N: Drop>(self, marks: N) -> Begun<R, S, N> {
        let Begun {
            around,
            link,
            files,
        } = self;
        let ReplicaFiles { store, saves, .. } = files;
        Begun {
            around,
            link,
            files: ReplicaFiles {
                store,
                marks,
                saves,
            },
        }
    }

    /// Which machine it is, and how often it was started in its epoch, with this time.
    pub fn started(&self) -> Started {
        Started {
            machine: self.around.number(),
            starts: self.around.origin.starts,
        }
    }
}
