//! A controller: it applies scans and debugger commands in any order, each with its answer, and goes on with another
//! program between two scans; and the slots of names. It uses il_model (commands and answers), ctl_model (the
//! table that says what each does), loader (the image) and ctl_scan (one scan).
//!
//! ```rust
//! use ctl_debugger::{Controller, prepare};
//! use il_model::{Budget, Command, ImageBytes, InImage};
//!
//! let mut controller = Controller::new(alloc, image, Budget::new(10_000)?).ok()?;
//! let inputs = InImage::clear();
//! let answer = controller.apply(&Command::Scan { inputs, moment: 0 });
//! let change = Command::Change(ImageBytes::new(bytes)?);
//! let done = controller.apply_ready(prepare(alloc, &change).ok()?);
//! ```
//!
//! Proved: `apply` gives, in every state and for every command but a change of the program, the answer and the state of
//! the table of commands (`ctl_model/specs/Commands`), always returns, and takes no memory. `prepare` takes what
//! memory any command takes, by the command alone, and `apply_ready` then gives the answer and the state of the table
//! with a change in it (`specs/Outcome`), and takes none. A change goes by names (`a_change_goes_by_names`). `slot`
//! gives exactly the slot of a name. What `save` tells is restored, with the same image and budget, to the same
//! controller; a snapshot is refused exactly where it doesn't fit, or where the words of a block are no state of it.
//!
//! Tests (nothing rests on them alone): `debugger.rows` of `tests_rows` has sessions, `controllers.rows` of
//! `tests_bytes` commands, snapshots that are restored, and spoilt ones. Some sessions are computed from the tables as
//! proofs (`proofs/WorkedRows`). By its code alone: that `save_over` moves the bytes of an image that is the same.
#![tactic(auto)]

ghost use Rattle.std.specs.Prelude.{◌≡◌, ℕ, List, Result};
ghost use Rattle.ctl_debugger.specs.declared.snap_error.SnapError.{SnapError};
ghost use Rattle.il_model.specs.declared.command.Command.{Command};
ghost use Rattle.il_loader.specs.Images.{Reading};
ghost use Rattle.ctl_debugger.specs.Outcome.{outcome};
ghost use Rattle.ctl_debugger.specs.Prepared.{Prepared, IsReady, prepared_outcome};
ghost use Rattle.ctl_debugger.specs.Owned.{Owned};
ghost use Rattle.ctl_debugger.specs.Changing.{ChangesByNames};
ghost use Rattle.ctl_debugger.specs.Restored.{RestoresTheSame};

use ctl_model::{a_change_carries_over, snapshots_tell_instances};
use il_loader::know_well_formed;

mod breaks;
mod controller;
mod names;
mod ready;
mod shape;
mod snap_error;

pub use controller::Controller;
pub use names::slot;
pub use ready::{Ready, prepare};
pub use shape::can_restore;
pub use snap_error::SnapError;

/// What is saved of a controller is restored, with the same image and budget, to the same controller, unless memory
/// runs out.
pub fn restores_the_same()
    ensures { (o : Owned) (r : Result Owned SnapError) → RestoresTheSame o r }
{
    snapshots_tell_instances();
}

/// What is ready does what its command does, whatever is owned.
pub fn what_is_ready_is_its_command()
    ensures { (o : Owned) (c : Command) (p : Prepared) → IsReady c p → outcome o c ≡ prepared_outcome o p }
{}

/// What a change of the program is answered and leaves, said by names, whatever reads images. Between two scans the
/// image of a program is `Done`: a variable without a location before and after, of equal name and type, keeps its
/// value; an instance of equal name and kind its inputs and its state; all others are as when cold; the areas, forces,
/// the count of scans, the greatest moment and the budget stay; breakpoints go, no scan is open, and what is left is a
/// controller of the new program. Bytes that are the image of no program are refused as `BadImage`. While a scan is
/// held or stopped either is refused as `NotIdle`.
pub fn a_change_goes_by_names()
    ensures { (reading : Reading) (o : Owned) (bytes : List ℕ) → ChangesByNames reading o bytes }
{
    a_change_carries_over();
    know_well_formed();
}
