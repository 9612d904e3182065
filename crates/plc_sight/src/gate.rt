//! What looks at a replica behind its steps for those who want to see its controller.

use crate::board::SnapshotBoard;
use crate::watch::ForceWatch;
use plc_host::Host;
use std::sync::{Arc, Wait};
use vr_model::Standing;
use vr_ports::Gate;
use vr_replica::Replica;
use vr_serving::Observer;

/// Leaves a snapshot of its replica's controller where one is wanted, and the number of forces, while the replica leads
/// its group: of several that share a board one does.
#[derive(Drop)]
pub struct SightGate<R: Copy + Drop> {
    host: Host<R>,
    board: Arc<SnapshotBoard>,
    forces: ForceWatch,
}

impl<R: Wait + Copy + Drop> SightGate<R> {
    /// Of a replica that was not started.
    pub fn new(host: Host<R>, board: Arc<SnapshotBoard>) -> SightGate<R> {
        SightGate {
            host,
            board,
            forces: ForceWatch::new(),
        }
    }
}

impl<R: Wait + Copy + Drop> Gate for SightGate<R> {
    fn before(&mut self, _call: u64) {}

    fn after(&mut self, _call: u64, _standing: Standing) {}
}

impl<R: Wait + Copy + Drop> Observer for SightGate<R> {
    fn observe(&mut self, replica: &Replica) {
        if !replica.is_normal() || !replica.standing().is_primary {
            return;
        }
        self.forces.look(&self.host, replica, &self.board);
        let Some(wish) = self.board.wish() else {
            return;
        };
        // Where memory runs out, it's tried behind the next step.
        if let Ok(snapshot) = replica.snapshot(self.host.alloc) {
            self.board.put(&self.host.rt, wish, snapshot);
        }
    }
}
