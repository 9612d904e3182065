//! When the number of forces may have changed.

ghost use Rattle.std.specs.Prelude.{◌≡◌, true};
ghost use Rattle.il_model.specs.declared.command.Command.{Command as Asked};
ghost use Rattle.plc_sight.specs.Staying.{LeavesForces, leaves_forces};

use crate::board::SnapshotBoard;
use il_model::Command;
use plc_host::Host;
use std::sync::Wait;
use vr_replica::Replica;

/// Up to where a replica's committed commands were looked at: the number of forces behind them is on the board.
#[derive(Drop)]
pub struct ForceWatch {
    known: Option<u64>,
}

/// Whether a command is one that leaves what is forced as it was.
fn leaves_forces(command: &Command) -> bool
    ensures { result ≡ leaves_forces command.now }
{
    match command {
        Command::Force(_, _) | Command::Unforce(_) | Command::Change(_) => false,
        _ => true,
    }
}

/// That these commands do so, whatever the controller is. It does nothing: its contract is a law.
pub fn forces_stay()
    ensures { (command : Asked) → leaves_forces command ≡ true → LeavesForces command }
{}

/// Whether a replica keeps each of the commands that it executed behind so many, and they leave what is forced.
fn leave_forces(replica: &Replica, known: u64) -> bool {
    for place in known..replica.commit() {
        match replica.entry(place) {
            Some(entry) if leaves_forces(&entry.command) => {}
            _ => return false,
        }
    }
    true
}

impl ForceWatch {
    /// Nothing is known.
    pub fn new() -> ForceWatch {
        ForceWatch { known: None }
    }

    /// Whether the number of forces is that on the board.
    fn is_known(&self, replica: &Replica) -> bool {
        match self.known {
            Some(known) => known <= replica.commit() && leave_forces(replica, known),
            None => false,
        }
    }

    /// Puts the number of forces on the board, where it may be another one than before.
    pub fn look<R: Wait + Copy>(
        &mut self,
        host: &Host<R>,
        replica: &Replica,
        board: &SnapshotBoard,
    ) {
        if !self.is_known(replica) {
            // Where memory runs out, it's tried behind the next step.
            let Ok(snapshot) = replica.snapshot(host.alloc) else {
                return;
            };
            board.put_forces(snapshot.forces.len() as u64);
        }
        self.known = Some(replica.commit());
    }
}
