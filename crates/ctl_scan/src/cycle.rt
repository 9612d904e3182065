//! What is kept from scan to scan, and the calls of a scan.

ghost use Rattle.std.specs.Prelude.{◌≡◌, ◌<◌, ◌≤◌, ℕ, true, length, is_some, unwrap_or, IfOk, IfSome, option_map};
ghost use Rattle.il_model.specs.Program.{Program};
ghost use Rattle.ctl_model.specs.Forces.{with_forces};
ghost use Rattle.ctl_model.specs.Changes.{carried_state};
ghost use Rattle.ctl_model.specs.Slots.{slot_value};
ghost use Rattle.ctl_model.specs.Scan.{scan_start, scan_run, scan_run_over, scan_step, scan_result, with_force};
ghost use Rattle.ctl_model.specs.Scan.{without_force, cold_again, warm_again};
ghost use Rattle.ctl_model.specs.Runs.{ScanRuns, ScanRunsOver};
ghost use Rattle.ctl_model.specs.Snapshots.{fit_forces};
ghost use Rattle.ctl_machine.specs.Kept.{FitsMachine, AreLawful};
ghost use Rattle.ctl_scan.specs.Kept.{cold_kept, IsCycleOf, HasCycle, performed_in, RestoresCycle, AreMasks};
ghost use Rattle.ctl_scan.specs.Told.{came_to, IsWithin};

use crate::breakpoints::Breakpoints;
use crate::force_table::ForceTable;
use crate::run::{Came, run, run_one, run_over};
use ctl_machine::Machine;
use ctl_model::ScanOut;
use il_loader::Image;
use il_model::{Budget, InImage, Loc, OutImage, SavedPhase, Slot, Snapshot, Value};
use std::alloc::{AllocError, Global};
use std::marker::Model;

/// A machine with what is kept from scan to scan: the number of scans begun, the greatest moment, in milliseconds, the
/// forces of inputs and outputs, and how many instructions a held scan has performed.
#[derive(Drop)]
pub struct ScanCycle {
    machine: Machine,
    count: u64,
    moment: u64,
    forces: ForceTable,
    performed: u32,
}

impl Model for ScanCycle {
    ghost use Rattle.ctl_scan.specs.Kept.{KeptCycle};

    ghost Value = { KeptCycle };

    ghost view = { λ c. record {
      cycle = record {
        state = c.machine.state;
        count = c.count;
        moment = c.moment;
        forces = c.forces;
        performed = c.performed;
      };
      places = c.machine.places;
    } };
}

/// How many instructions a held scan has performed.
fn performed_in(phase: SavedPhase) -> u32
    ensures { result ≡ performed_in phase }
{
    match phase {
        SavedPhase::Held { performed } => performed,
        SavedPhase::Idle | SavedPhase::Stopped(_) => 0,
    }
}

impl ScanCycle {
    /// A scan cycle that never ran, of a machine for this image; it fails only where memory runs out.
    pub fn new(alloc: Global, image: &Image) -> Result<ScanCycle, AllocError>
        ensures cold { IfOk result (λ c. c ≡ cold_kept image.now) }
        ensures kept { IfOk result (IsCycleOf image.now) }
    {
        Ok(ScanCycle {
            machine: Machine::new(alloc, image)?,
            count: 0,
            moment: 0,
            forces: ForceTable::none(),
            performed: 0,
        })
    }

    /// What a snapshot of a scan cycle for this image has of it: all but the image, the breakpoints and whether a scan
    /// is open. It fails only where memory runs out.
    pub fn parts(&self, alloc: Global, image: &Image) -> Result<Snapshot, AllocError>
        ensures has { IfOk result (λ s. HasCycle image.now s self.now.cycle) }
        ensures lawful { IfOk result (λ s. AreLawful self.now.cycle.state.instances) }
    {
        let mut parts = self.machine.parts(alloc, image)?;
        parts.forces = self.forces.saved(alloc)?;
        parts.count = self.count;
        parts.moment = self.moment;
        Ok(parts)
    }

    /// The scan cycle that a snapshot has, where its values, its types on arrival and its forces fit the image; None
    /// where the words of a block are no state of its kind. It fails only where memory runs out.
    pub fn from_parts(
        alloc: Global,
        image: &Image,
        parts: &Snapshot,
    ) -> Result<Option<ScanCycle>, AllocError>
        requires machine { FitsMachine image.now parts.now }
        requires forces { fit_forces parts.now.forces ≡ true }
        ensures cycle { IfOk result (λ o. RestoresCycle image.now parts.now (option_map (λ c. c.cycle) o)) }
        ensures kept { IfOk result (λ o. IfSome o (IsCycleOf image.now)) }
    {
        let Some(machine) = Machine::from_parts(alloc, image, parts)? else {
            return Ok(None);
        };
        Ok(Some(ScanCycle {
            machine,
            count: parts.count,
            moment: parts.moment,
            forces: ForceTable::restored(parts.forces.as_slice()),
            performed: performed_in(parts.phase),
        }))
    }

    /// A held scan has performed so many instructions; 0 unless one is held.
    pub fn performed(&self) -> u32
        ensures { result ≡ self.now.cycle.performed }
    {
        self.performed
    }

    /// There is a place for the force of each input and output. For proofs; it does nothing.
    pub fn know_whole(&self)
        ensures { AreMasks self.now.cycle.forces }
    {
        self.forces.know_whole();
    }

    /// Begins a scan: it is counted, up to the greatest number of 64 bits; its moment, in milliseconds, is no less than
    /// the last one's; the inputs are latched with the forces over them; the run is at position 0. A scan that is open
    /// is given up.
    pub fn begin(&mut self, inputs: &InImage, moment: u64)
        ensures begun { self.new ≡ record self.old { cycle = scan_start self.old.cycle inputs.now moment } }
        ensures kept { (Q : Program) → IsCycleOf Q self.old → IsCycleOf Q self.new }
    {
        let latched = InImage {
            cells: self.forces.over_inputs(&inputs.cells),
        };
        self.machine.start(&latched);
        self.count = self.count.saturating_add(1);
        self.moment = moment.max(self.moment);
        self.performed = 0;
    }

    /// Runs an open scan on. Before each instruction, in this order: the end, or what comes after RET, is Done, with
    /// the outputs and the forces over them; as many instructions performed as the budget has is Stopped; a breakpoint
    /// is Held. There is a flag for each instruction. Done leaves the machine at rest; Held and Stopped leave it at the
    /// instruction that comes next or was refused, and only Held keeps how many were performed.
    pub fn run_to(&mut self, image: &Image, breaks: &Breakpoints, budget: Budget) -> ScanOut
        requires kept { IsCycleOf image.now self.old }
        requires breaks { length image.now.code ≤ length breaks.now }
        ensures runs { ScanRuns image.now breaks.now budget.instructions self.old.cycle (result, self.new.cycle) }
        ensures run { (result, self.new.cycle) ≡ scan_run image.now breaks.now budget.instructions self.old.cycle }
        ensures kept { IsCycleOf image.now self.new }
        ensures performed { self.new.cycle.performed < budget.instructions }
    {
        image.know_lawful();
        let came = run(
            &mut self.machine,
            image,
            self.moment,
            breaks,
            budget.instructions,
            self.performed,
        );
        self.tell(came)
    }

    /// Performs the instruction that a scan is held at, and runs on as `run_to` does.
    pub fn step_over(&mut self, image: &Image, breaks: &Breakpoints, budget: Budget) -> ScanOut
        requires kept { IsCycleOf image.now self.old }
        requires breaks { length image.now.code ≤ length breaks.now }
        requires left { self.old.cycle.performed < budget.instructions }
        ensures runs { ScanRunsOver image.now breaks.now budget.instructions self.old.cycle (result, self.new.cycle) }
        ensures run { (result, self.new.cycle) ≡ scan_run_over image.now breaks.now budget.instructions self.old.cycle }
        ensures kept { IsCycleOf image.now self.new }
        ensures performed { self.new.cycle.performed < budget.instructions }
    {
        image.know_lawful();
        let came = run_over(
            &mut self.machine,
            image,
            self.moment,
            breaks,
            budget.instructions,
            self.performed,
        );
        self.tell(came)
    }

    /// Performs the instruction that a scan is held at, and no other: the scan is then Done, Stopped, or Held at the
    /// next one.
    pub fn step(&mut self, image: &Image, budget: Budget) -> ScanOut
        requires kept { IsCycleOf image.now self.old }
        requires left { self.old.cycle.performed < budget.instructions }
        ensures run { (result, self.new.cycle) ≡ scan_step image.now budget.instructions self.old.cycle }
        ensures kept { IsCycleOf image.now self.new }
        ensures performed { self.new.cycle.performed < budget.instructions }
    {
        let came = run_one(
            &mut self.machine,
            image,
            self.moment,
            budget.instructions,
            self.performed,
        );
        self.tell(came)
    }

    /// What a run comes to, seen from outside; its end brings the machine to rest.
    fn tell(&mut self, came: Came) -> ScanOut
        ensures seen { (result, self.new.cycle) ≡ scan_result self.old.cycle (came_to came self.old.cycle.state) }
        ensures kept { (Q : Program) → IsCycleOf Q self.old → IsCycleOf Q self.new }
        ensures performed { (budget : ℕ) → 0 < budget → IsWithin budget came → self.new.cycle.performed < budget }
    {
        match came {
            Came::Done => {
                let outputs = self.released();
                self.machine.rest();
                self.performed = 0;
                ScanOut::Done(outputs)
            }
            Came::Held(performed) => {
                self.performed = performed;
                ScanOut::Held(self.machine.pos())
            }
            Came::Stopped(stop) => {
                self.performed = 0;
                ScanOut::Stopped(stop, self.machine.pos())
            }
        }
    }

    /// The outputs with the forces over them, which change `%Q` itself in nothing.
    fn released(&self) -> OutImage
        ensures { result.cells ≡ with_forces self.now.cycle.forces.output self.now.cycle.state.output }
    {
        OutImage {
            cells: self.forces.over_outputs(&self.machine.outputs().cells),
        }
    }

    /// Forces a bit of `%I` or `%Q` (IEC 61131-3:2003 2.4.1.1) to a BOOL, or a word to an INT, from the next latch or
    /// release on. False, and nothing changed, where the location is of another area, a pattern or a double word, or the
    /// value of another type.
    pub fn force(&mut self, loc: Loc, v: Value) -> bool
        ensures told { result ≡ is_some (with_force self.old.cycle loc v) }
        ensures forced { self.new
            ≡ record self.old { cycle = unwrap_or (with_force self.old.cycle loc v) self.old.cycle } }
        ensures kept { (Q : Program) → IsCycleOf Q self.old → IsCycleOf Q self.new }
        ensures performed { self.new.cycle.performed ≡ self.old.cycle.performed }
    {
        self.forces.force(loc, v)
    }

    /// Frees a bit or a word of `%I` or `%Q`, forced or not. False, and nothing changed, where it is of another area, a
    /// pattern or a double word.
    pub fn unforce(&mut self, loc: Loc) -> bool
        ensures told { result ≡ is_some (without_force self.old.cycle loc) }
        ensures unforced { self.new
            ≡ record self.old { cycle = unwrap_or (without_force self.old.cycle loc) self.old.cycle } }
        ensures kept { (Q : Program) → IsCycleOf Q self.old → IsCycleOf Q self.new }
        ensures performed { self.new.cycle.performed ≡ self.old.cycle.performed }
    {
        self.forces.unforce(loc)
    }

    /// Back to the cold machine, with no scan open; forces, moment and count stay. It takes no memory.
    pub fn reset(&mut self, image: &Image)
        requires { IsCycleOf image.now self.old }
        ensures cold { self.new ≡ record self.old { cycle = cold_again image.now self.old.cycle } }
        ensures kept { IsCycleOf image.now self.new }
    {
        self.machine.reset(image);
        self.performed = 0;
    }

    /// Back to the cold machine but for what is retained, with no scan open; forces, moment and count stay. It takes no
    /// memory.
    pub fn warm(&mut self, image: &Image)
        requires { IsCycleOf image.now self.old }
        ensures warm { self.new ≡ record self.old { cycle = warm_again image.now self.old.cycle } }
        ensures kept { IsCycleOf image.now self.new }
    {
        self.machine.warm(image);
        self.performed = 0;
    }

    /// Goes on from the scan cycle of another image, with no scan open: what goes on by its name keeps its value, or
    /// its inputs and its state; the areas, forces, moment and count stay. It takes no memory.
    pub fn carry_over(&mut self, image: &Image, old: &ScanCycle, old_image: &Image)
        requires new { IsCycleOf image.now self.old }
        requires old { IsCycleOf old_image.now old.now }
        ensures carried { self.new.cycle ≡ record old.now.cycle {
          state = carried_state old_image.now old.now.cycle.state image.now;
          performed = 0;
        } }
        ensures kept { IsCycleOf image.now self.new }
    {
        self.machine.carry_over(image, &old.machine, old_image);
        self.count = old.count;
        self.moment = old.moment;
        self.forces = old.forces.copy();
        self.performed = 0;
    }

    /// The value of a location, a variable or a field; none where the slot is none of these.
    pub fn peek(&self, slot: Slot) -> Option<Value>
        ensures { result ≡ slot_value self.now.places self.now.cycle.state slot.0 }
    {
        self.machine.peek(slot)
    }

    /// The current result, if there is one.
    pub fn cr(&self) -> Option<Value>
        ensures { result ≡ self.now.cycle.state.cr }
    {
        self.machine.cr()
    }

    /// The number of the instruction that comes next.
    pub fn pos(&self) -> u16
        ensures { result ≡ self.now.cycle.state.position }
    {
        self.machine.pos()
    }

    /// How many scans were begun, up to the greatest number of 64 bits.
    pub fn count(&self) -> u64
        ensures { result ≡ self.now.cycle.count }
    {
        self.count
    }
}
