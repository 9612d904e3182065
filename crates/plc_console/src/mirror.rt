//! What a console knows of the controller by the answers of its commands.

ghost use Rattle.std.specs.Prelude.{◌≡◌, IfOk};
ghost use Rattle.il_model.specs.declared.command.Command.{Command as Given};
ghost use Rattle.ctl_debugger.specs.Owned.{cold_owned};
ghost use Rattle.ctl_debugger.specs.Prepared.{IsReady};
ghost use Rattle.plc_console.specs.Mirrored.{StaysMirror, mirrored};

use ctl_debugger::{Controller, Ready};
use il_loader::Image;
use il_model::{Answer, Budget, Snapshot};
use std::alloc::{AllocError, Global};

/// It runs no scan, so any budget does.
const BUDGET: Budget = Budget { instructions: 1 };

/// A controller that takes each command that the controller took and answered by `done`: those change forces,
/// breakpoints and the program, and none of them depends on a scan. Nobody but the console submits them, so it has the
/// same forces, breakpoints and program.
#[derive(Drop)]
pub(crate) struct Mirror {
    controller: Controller,
}

impl Mirror {
    /// Of a controller of this image's program that took no command yet.
    pub(crate) fn new(alloc: Global, image: &Image) -> Result<Mirror, AllocError>
        ensures { IfOk result (λ m. m.controller ≡ cold_owned image.now 1) }
    {
        Ok(Mirror {
            controller: Controller::new(alloc, image.copy(alloc)?, BUDGET)?,
        })
    }

    /// Of the controller of this program that a snapshot is of. None where it's of no such controller, or memory runs
    /// out.
    pub(crate) fn restored(
        alloc: Global,
        image: Image,
        budget: Budget,
        snapshot: &Snapshot,
    ) -> Option<Mirror> {
        match Controller::restore(alloc, image, budget, snapshot) {
            Ok(controller) => Some(Mirror { controller }),
            Err(_) => None,
        }
    }

    /// Takes a command, which is ready, by its answer.
    #[tactic(auto, using(crate::proofs::Mirrors::followed))]
    pub(crate) fn follow(&mut self, ready: Ready, answer: &Answer)
        ensures { (command : Given) → IsReady command ready
            → self.new.controller ≡ mirrored self.old.controller command answer.now }
    {
        if let Answer::Done = answer {
            let _ = self.controller.apply_ready(ready);
        }
    }

    /// What it has.
    pub(crate) fn save(&self, alloc: Global) -> Result<Snapshot, AllocError> {
        self.controller.save(alloc)
    }
}

/// That a mirror stays one of its controller, whatever commands that one takes. It does nothing: its contract is a law.
pub fn mirrors_stay()
    ensures { StaysMirror }
{}
