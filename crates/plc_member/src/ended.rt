//! How a machine ends that has begun an epoch, and what a life leaves behind.

ghost use Rattle.std.specs.Prelude.{◌≡◌};

use crate::life::Life;
use crate::serving::MachineRuntime;
use plc_epochs::Kept;
use plc_host::Failed;
use std::thread::JoinHandle;

/// What a life leaves behind that ends for another epoch: what the store is to have of epochs. Only the end of a life
/// gives it. So its port, its sessions and its links are closed, and its replica is served no longer, before the store
/// has a later epoch.
#[derive(Drop)]
pub struct Left {
    kept: Kept,
}

/// How a machine ends that has begun an epoch.
#[derive(Drop)]
pub enum Ended {
    /// It was asked to.
    Stopped,
    Failed(Failed),
    /// It has left its epoch, and its store is to have what this says.
    Leaves(Left),
}

impl Left {
    /// Of a life in which no epoch was begun. Its links are closed.
    pub(crate) fn unbegun<R: MachineRuntime>(life: Life<R>, kept: Kept) -> Left
        ensures { result.kept ≡ kept }
    {
        drop(life);
        Left { kept }
    }

    /// Of a machine whose replica has this thread, and whose links are cut. Its listener is closed once that's at its
    /// end.
    pub(crate) fn begun<R: MachineRuntime>(rt: &R, thread: JoinHandle<()>, kept: Kept) -> Left
        ensures { result.kept ≡ kept }
    {
        thread.join(rt);
        Left { kept }
    }

    /// What the store is to have.
    pub(crate) fn kept(&self) -> Kept
        ensures { result ≡ self.now.kept }
    {
        self.kept
    }
}
