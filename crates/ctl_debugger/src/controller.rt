//! A controller, which goes on with another program between two scans.

ghost use Rattle.std.specs.Prelude.{◌≡◌, true, false, Some, Ok, IfOk, OnErr};
ghost use Rattle.il_model.specs.declared.command.Refusal.TheVariants.{BadSlot, NotIdle};
ghost use Rattle.il_model.specs.declared.command.Answer.{Answer};
ghost use Rattle.il_model.specs.declared.command.Answer.TheVariants.{Refused};
ghost use Rattle.ctl_debugger.specs.Owned.{Owned};
ghost use Rattle.il_model.specs.declared.command.Command.TheVariants.{Step, Continue, Reset, Warm};
ghost use Rattle.il_model.specs.declared.command.Answer.TheVariants.{Stopped};
ghost use Rattle.il_model.specs.Locations.{safe_image};
ghost use Rattle.ctl_model.specs.Slots.{value_read};
ghost use Rattle.ctl_model.specs.Commands.{answer_of, phase_of, on_scan, on_break, forcible_at, on_force};
ghost use Rattle.ctl_model.specs.Commands.{on_unforce, value_answer, result_read, command_outcome};
ghost use Rattle.il_model.specs.Image.{spelling};
ghost use Rattle.ctl_model.specs.Runs.{AnswersRun, HasWholeInputs};
ghost use Rattle.ctl_model.specs.Snapshots.{saved_phase, snapshot_of, with_image};
ghost use Rattle.ctl_scan.specs.Kept.{performed_in};
ghost use Rattle.ctl_debugger.specs.Owned.{cold_owned, with_control, IsController};
ghost use Rattle.ctl_debugger.specs.Restored.{Restores, CanRestore};
ghost use Rattle.ctl_debugger.specs.Outcome.{outcome, on_image, if_idle};
ghost use Rattle.ctl_debugger.specs.Prepared.{To, NoImage, IsFresh, IsReady, prepared_outcome};
ghost use Rattle.il_model.specs.declared.command.Command as command;
ghost use Rattle.il_model.specs.Answers.{is_change};
ghost use Rattle.ctl_model.specs.declared.phase.Phase.TheVariants.{Idle};

use crate::breaks::{break_flags, break_positions};
use crate::ready::{Fresh, Kind, Ready};
use crate::shape::{can_restore, fits};
use crate::snap_error::SnapError;
use ctl_model::{Phase, ScanOut};
use ctl_scan::{Breakpoints, ScanCycle, have_states};
use il_loader::Image;
use il_model::{
    Answer, Area, Budget, Command, InImage, Loc, OutImage, Refusal, SavedPhase, Slot, Snapshot,
    Stop, Value,
};
use std::alloc::{AllocError, Global};
use std::marker::Model;
use std::mem::swap;

/// A controller: it owns the image of its program, and all that the program's scans and the debugger leave.
#[derive(Drop)]
pub struct Controller {
    image: Image,
    budget: Budget,
    cycle: ScanCycle,
    breaks: Breakpoints,
    phase: Phase,
}

impl Model for Controller {
    ghost use Rattle.ctl_debugger.specs.Owned.{Owned, IsKept};

    ghost Value = { Owned };

    ghost view = { λ c. record {
      program = c.image;
      budget = c.budget.instructions;
      control = record { cycle = c.cycle.cycle; breaks = c.breaks; phase = c.phase };
    } };

    ghost invariant = { λ c. IsKept c.image c.budget.instructions c.cycle c.breaks c.phase };
}

/// A stop, which releases the safe image.
fn stopped(stop: Stop, position: u16) -> Answer
    ensures { result ≡ Stopped stop position safe_image }
{
    Answer::Stopped {
        stop,
        position,
        image: OutImage::safe(),
    }
}

/// What a scan tells, as an answer; an end has the count of scans.
fn answer_of(count: u64, out: ScanOut) -> Answer
    ensures { result ≡ answer_of count out }
{
    match out {
        ScanOut::Done(image) => Answer::Outputs { count, image },
        ScanOut::Held(position) => Answer::Held(position),
        ScanOut::Stopped(stop, position) => stopped(stop, position),
    }
}

/// Whether a scan that told so is still open.
fn phase_of(out: ScanOut) -> Phase
    ensures { result ≡ phase_of out }
{
    match out {
        ScanOut::Done(_) => Phase::Idle,
        ScanOut::Held(_) => Phase::Held,
        ScanOut::Stopped(stop, _) => Phase::Stopped(stop),
    }
}

/// What a scan tells, as an answer; the phase is then that which it left.
fn tell(phase: &mut Phase, count: u64, out: ScanOut) -> Answer
    ensures answer { result ≡ answer_of count out }
    ensures phase { phase.new ≡ phase_of out }
{
    *phase = phase_of(out);
    answer_of(count, out)
}

/// What a snapshot has of a phase; a held scan has performed so many instructions.
fn saved_phase(phase: Phase, performed: u32) -> SavedPhase
    ensures { result ≡ saved_phase phase performed }
{
    match phase {
        Phase::Idle => SavedPhase::Idle,
        Phase::Held => SavedPhase::Held { performed },
        Phase::Stopped(stop) => SavedPhase::Stopped(stop),
    }
}

/// The phase that a snapshot has.
fn restored_phase(phase: SavedPhase) -> Phase
    ensures { saved_phase result (performed_in phase) ≡ phase }
{
    match phase {
        SavedPhase::Idle => Phase::Idle,
        SavedPhase::Held { .. } => Phase::Held,
        SavedPhase::Stopped(stop) => Phase::Stopped(stop),
    }
}

/// A scan has an input for each cell. For proofs; it does nothing.
fn know_whole_inputs(command: &Command)
    ensures { HasWholeInputs command.now }
{
    if let Command::Scan { inputs, .. } = command {
        let _bit = inputs.cells.bits[0];
        let _word = inputs.cells.words[0];
    }
}

/// The bit or the word of the inputs or of the outputs that a slot is.
pub(crate) fn forcible_at(slot: Slot) -> Option<Loc>
    ensures { result ≡ forcible_at slot.0 }
{
    let loc = Loc::of_code(slot.0)?;
    match loc {
        Loc::Bit(Area::Input | Area::Output, _) | Loc::Word(Area::Input | Area::Output, _) => {
            Some(loc)
        }
        _ => None,
    }
}

impl Controller {
    /// A controller of this image that never ran: all variables at their first values, no forces, no breakpoints, no
    /// scan open, and 0 for the count of scans and the greatest moment. A scan may perform as many instructions as the
    /// budget says. It fails only where memory runs out.
    pub fn new(alloc: Global, image: Image, budget: Budget) -> Result<Controller, AllocError>
        ensures { IfOk result (λ c. c ≡ cold_owned image budget.instructions) }
    {
        let cycle = ScanCycle::new(alloc, &image)?;
        let breaks = Breakpoints::none(alloc, image.len())?;
        Ok(Controller {
            image,
            budget,
            cycle,
            breaks,
            phase: Phase::Idle,
        })
    }

    /// The image of its program.
    pub fn image(&self) -> &Image
        ensures { result.now ≡ self.now.program }
    {
        &self.image
    }

    /// How many instructions a scan may perform.
    pub fn budget(&self) -> Budget
        ensures { result.instructions ≡ self.now.budget }
    {
        self.budget
    }

    /// A snapshot of it, without the image.
    fn saved(&self, alloc: Global) -> Result<Snapshot, AllocError>
        ensures saved { IfOk result
            (λ s. with_image s (spelling self.now.program) ≡ snapshot_of self.now.program self.now.control) }
        ensures lawful { IfOk result (λ s. IsController self.now) }
    {
        self.cycle.know_whole();
        self.image.know_lawful();
        let mut snapshot = self.cycle.parts(alloc, &self.image)?;
        snapshot.breaks = break_positions(alloc, self.breaks.flags())?;
        snapshot.phase = saved_phase(self.phase, self.cycle.performed());
        Ok(snapshot)
    }

    /// A snapshot of it: the image of its program, and all else that its answers depend on but its budget. It fails
    /// only where memory runs out.
    pub fn save(&self, alloc: Global) -> Result<Snapshot, AllocError>
        ensures saved { IfOk result (λ s. s ≡ snapshot_of self.now.program self.now.control) }
        ensures lawful { IfOk result (λ s. IsController self.now) }
    {
        let mut snapshot = self.saved(alloc)?;
        snapshot.image = Vec::from_slice(alloc, self.image.bytes())?;
        Ok(snapshot)
    }

    /// Puts a snapshot of it in the place of an earlier one, whose image's bytes are moved into it where they are the
    /// same ones. It fails only where memory runs out, and then the earlier one is as it was.
    #[tactic(auto, using(crate::proofs::SameBytes::same_bytes))]
    pub fn save_over(&self, alloc: Global, earlier: &mut Snapshot) -> Result<(), AllocError>
        ensures saved { IfOk result (λ u. earlier.new ≡ snapshot_of self.now.program self.now.control) }
        ensures lawful { IfOk result (λ u. IsController self.now) }
        ensures kept { OnErr result (earlier.new ≡ earlier.old) }
    {
        let mut snapshot = self.saved(alloc)?;
        if earlier.image.as_slice() == self.image.bytes() {
            swap(&mut snapshot.image, &mut earlier.image);
        } else {
            snapshot.image = Vec::from_slice(alloc, self.image.bytes())?;
        }
        *earlier = snapshot;
        Ok(())
    }

    /// The controller of this image and this budget that a snapshot is of.
    ///
    /// `BadShape`: the snapshot doesn't fit. One that fits begins with the bytes of this image, and has a value of its
    /// type for each variable without a location, an instance of its kind for each instance, with a value of its type
    /// for each input, breakpoints at instructions, rising, and forces of locations of `%I` and `%Q` (IEC 61131-3:2003,
    /// 2.4.1.1), rising by slot, each to a value of its type. A held or stopped scan is at an instruction, with a
    /// current result and deferred operators of the types on arrival there, and a held one has performed fewer
    /// instructions than the budget says; without an open scan there is no current result and no deferred operator, and
    /// the position is 0. All this is judged before the blocks.
    ///
    /// `BadBlock`: it fits, but the words of a block are no state of its kind. `Memory`: neither is so, and memory ran
    /// out.
    pub fn restore(
        alloc: Global,
        image: Image,
        budget: Budget,
        snapshot: &Snapshot,
    ) -> Result<Controller, SnapError>
        ensures { Restores image budget.instructions snapshot.now result }
    {
        if !fits(&image, budget, snapshot) {
            return Err(SnapError::BadShape);
        }
        if !have_states(snapshot.instances.as_slice()) {
            return Err(SnapError::BadBlock);
        }
        let flags = break_flags(alloc, image.len(), snapshot.breaks.as_slice())?;
        let breaks = Breakpoints::of(flags);
        let Some(cycle) = ScanCycle::from_parts(alloc, &image, snapshot)? else {
            return Err(SnapError::BadBlock);
        };
        cycle.know_whole();
        Ok(Controller {
            image,
            budget,
            cycle,
            breaks,
            phase: restored_phase(snapshot.phase),
        })
    }

    /// Whether this snapshot is one of a controller of its program and its budget, as `restore` judges it: then only
    /// want of memory keeps it from being restored. It takes no memory.
    pub fn fits(&self, snapshot: &Snapshot) -> bool
        ensures { CanRestore self.now.program self.now.budget snapshot.now result }
    {
        can_restore(&self.image, self.budget, snapshot)
    }

    fn scan(&mut self, inputs: &InImage, moment: u64) -> Answer
        ensures { (result, self.new) ≡ with_control self.old
            (on_scan self.old.program self.old.budget self.old.control inputs.now moment self.old.control.phase) }
    {
        match self.phase {
            Phase::Idle => {
                self.image.know_lawful();
                self.cycle.begin(inputs, moment);
                let out = self.cycle.run_to(&self.image, &self.breaks, self.budget);
                tell(&mut self.phase, self.cycle.count(), out)
            }
            Phase::Held => Answer::Held(self.cycle.pos()),
            Phase::Stopped(stop) => stopped(stop, self.cycle.pos()),
        }
    }

    fn step(&mut self) -> Answer
        ensures { (result, self.new) ≡ with_control self.old
            (command_outcome self.old.program self.old.budget self.old.control Step) }
    {
        match self.phase {
            Phase::Held => {
                self.image.know_lawful();
                let out = self.cycle.step(&self.image, self.budget);
                tell(&mut self.phase, self.cycle.count(), out)
            }
            Phase::Idle | Phase::Stopped(_) => Answer::Refused(Refusal::NotHeld),
        }
    }

    fn go_on(&mut self) -> Answer
        ensures { (result, self.new) ≡ with_control self.old
            (command_outcome self.old.program self.old.budget self.old.control Continue) }
    {
        match self.phase {
            Phase::Held => {
                self.image.know_lawful();
                let out = self.cycle.step_over(&self.image, &self.breaks, self.budget);
                tell(&mut self.phase, self.cycle.count(), out)
            }
            Phase::Idle | Phase::Stopped(_) => Answer::Refused(Refusal::NotHeld),
        }
    }

    fn flag(&mut self, position: u16, set: bool) -> Answer
        ensures { (result, self.new) ≡ with_control self.old (on_break self.old.program self.old.control position set) }
    {
        let position = position as usize;
        if position < self.image.len() {
            self.breaks.put(position, set);
            Answer::Done
        } else {
            Answer::Refused(Refusal::BadPosition)
        }
    }

    fn force_at(&mut self, loc: Loc, v: Value) -> Answer
        ensures { (result, self.new) ≡ with_control self.old (on_force self.old.control v (Some loc)) }
    {
        if self.cycle.force(loc, v) {
            Answer::Done
        } else {
            Answer::Refused(Refusal::BadType)
        }
    }

    fn force(&mut self, slot: Slot, v: Value) -> Answer
        ensures { (result, self.new) ≡ with_control self.old (on_force self.old.control v (forcible_at slot.0)) }
    {
        match forcible_at(slot) {
            None => Answer::Refused(Refusal::BadSlot),
            Some(loc) => self.force_at(loc, v),
        }
    }

    fn unforce_at(&mut self, loc: Loc) -> Answer
        ensures { (result, self.new) ≡ with_control self.old (on_unforce self.old.control (Some loc)) }
    {
        if self.cycle.unforce(loc) {
            Answer::Done
        } else {
            Answer::Refused(Refusal::BadType)
        }
    }

    fn unforce(&mut self, slot: Slot) -> Answer
        ensures { (result, self.new) ≡ with_control self.old (on_unforce self.old.control (forcible_at slot.0)) }
    {
        match forcible_at(slot) {
            None => Answer::Refused(Refusal::BadSlot),
            Some(loc) => self.unforce_at(loc),
        }
    }

    /// The value that a slot names; none of a location that came with a later version than the program's.
    fn peek(&self, slot: Slot) -> Option<Value>
        ensures { result ≡ value_read self.now.program self.now.control.cycle.state slot.0 }
    {
        if self.image.version().may_lie(Loc::of_code(slot.0)) {
            self.cycle.peek(slot)
        } else {
            None
        }
    }

    fn read(&self, slot: Slot) -> Answer
        ensures { (result, self.now.control) ≡ value_answer self.now.control
            (value_read self.now.program self.now.control.cycle.state slot.0) BadSlot }
    {
        match self.peek(slot) {
            Some(v) => Answer::Value(v),
            None => Answer::Refused(Refusal::BadSlot),
        }
    }

    fn read_cr(&self) -> Answer
        ensures { (result, self.now.control) ≡ result_read self.now.control self.now.control.phase }
    {
        match self.phase {
            Phase::Idle => Answer::Refused(Refusal::NotHeld),
            Phase::Held | Phase::Stopped(_) => match self.cycle.cr() {
                Some(v) => Answer::Value(v),
                None => Answer::Refused(Refusal::NoResult),
            },
        }
    }

    fn reset(&mut self) -> Answer
        ensures { (result, self.new) ≡ with_control self.old
            (command_outcome self.old.program self.old.budget self.old.control Reset) }
    {
        self.cycle.reset(&self.image);
        self.phase = Phase::Idle;
        Answer::Done
    }

    fn start_warm(&mut self) -> Answer
        ensures { (result, self.new) ≡ with_control self.old
            (command_outcome self.old.program self.old.budget self.old.control Warm) }
    {
        self.cycle.warm(&self.image);
        self.phase = Phase::Idle;
        Answer::Done
    }

    /// Performs a command that doesn't change the program (`prepare` and `apply_ready` perform any), and answers it; it
    /// takes no memory. No scan is open while the controller is idle; an open one is held at a breakpoint, or was
    /// stopped. What is refused changes nothing.
    ///
    /// Idle, `Scan` latches its inputs and its moment, which doesn't go back, counts one scan, and runs: to the end,
    /// with the answer `Outputs`, and the controller is idle again; to a breakpoint, with `Held`; or to a stop, with
    /// `Stopped` and the safe image. `Step`, `Continue` and `ReadCr` are refused as `NotHeld`.
    ///
    /// Held, `Step` performs the instruction at the position, and `Continue` goes on over it to the next breakpoint;
    /// both answer as `Scan` does, and draw on the budget of the one scan. `Scan` answers `Held` again and changes
    /// nothing. `ReadCr` tells the current result, or is refused as `NoResult`.
    ///
    /// Stopped, `Scan` answers `Stopped` again, with the safe image, and changes nothing. `Step` and `Continue` are
    /// refused as `NotHeld`; `ReadCr` is as when held. Only `Reset` and `Warm` lead out of it.
    ///
    /// In all three: `SetBreak` and `ClearBreak` are `Done`, or refused as `BadPosition` past the last instruction.
    /// `Force` and `Unforce` are `Done`, or refused as `BadSlot` where the slot is no bit and no word of `%I` or `%Q`
    /// (IEC 61131-3:2003, 2.4.1.1), also that of a variable that lies there, and then as `BadType` where a bit is given
    /// no BOOL or a word no INT; a force of an input counts from the next scan on, one of an output from the next end
    /// of a scan on, and `%Q` itself keeps its value. `ReadVar` tells the value of any slot, of a pattern's or a
    /// double word's only in a program of the third version, or is refused as `BadSlot`. `Reset` is `Done`: all
    /// variables at their first values, the controller idle; forces, breakpoints, the moment and the count stay. `Warm`
    /// is `Done` too, and the same but for retained variables, which keep their values, and retained instances, which
    /// keep their inputs and their states (IEC 61131-3:2003, 2.4.2).
    pub fn apply(&mut self, command: &Command) -> Answer
        requires { is_change command.now ≡ false }
        // By the table of commands.
        ensures applied { (result, self.new.control)
            ≡ command_outcome self.old.program self.old.budget self.old.control command.now }
        // Of a command that runs the scan on: by the one end of that run.
        ensures runs { AnswersRun self.old.program self.old.budget self.old.control command.now
            (result, self.new.control) }
        ensures program { self.new.program ≡ self.old.program }
        ensures budget { self.new.budget ≡ self.old.budget }
        ensures outcome { (result, self.new) ≡ outcome self.old command.now }
    {
        know_whole_inputs(command);
        self.image.know_lawful();
        self.answer(command)
    }

    /// Performs a command that doesn't change the program, and answers it.
    fn answer(&mut self, command: &Command) -> Answer
        requires { is_change command.now ≡ false }
        ensures applied { (result, self.new.control)
            ≡ command_outcome self.old.program self.old.budget self.old.control command.now }
        ensures program { self.new.program ≡ self.old.program }
        ensures budget { self.new.budget ≡ self.old.budget }
        ensures outcome { (result, self.new) ≡ outcome self.old command.now }
    {
        match command {
            Command::Scan { inputs, moment } => self.scan(inputs, *moment),
            Command::SetBreak(position) => self.flag(*position, true),
            Command::ClearBreak(position) => self.flag(*position, false),
            Command::Step => self.step(),
            Command::Continue => self.go_on(),
            Command::Force(slot, v) => self.force(*slot, *v),
            Command::Unforce(slot) => self.unforce(*slot),
            Command::ReadVar(slot) => self.read(*slot),
            Command::ReadCr => self.read_cr(),
            Command::Reset => self.reset(),
            Command::Warm => self.start_warm(),
            Command::Change(_) => unreachable!(),
        }
    }

    /// Goes on with another program, on a scan cycle of it, whatever that holds.
    fn go_on_with(&mut self, fresh: Fresh) -> Answer
        requires fresh { IsFresh fresh }
        requires idle { self.old.control.phase ≡ Idle }
        ensures { (result, self.new) ≡ on_image self.old (Ok fresh.image) }
    {
        let Fresh {
            image,
            mut cycle,
            breaks,
        } = fresh;
        image.know_lawful();
        cycle.carry_over(&image, &self.cycle, &self.image);
        self.image = image;
        self.cycle = cycle;
        self.breaks = breaks;
        Answer::Done
    }

    fn is_idle(&self) -> bool
        ensures idle { result ≡ true → self.now.control.phase ≡ Idle }
        ensures open { result ≡ false → (x : Answer × Owned)
            → if_idle self.now x self.now.control.phase ≡ (Refused NotIdle, self.now) }
    {
        match self.phase {
            Phase::Idle => true,
            Phase::Held | Phase::Stopped(_) => false,
        }
    }

    /// A change to another program, on a scan cycle of it, whatever that holds.
    fn change(&mut self, fresh: Fresh) -> Answer
        requires { IsFresh fresh }
        ensures { (result, self.new) ≡ prepared_outcome self.old (To fresh.image) }
    {
        if self.is_idle() {
            self.go_on_with(fresh)
        } else {
            Answer::Refused(Refusal::NotIdle)
        }
    }

    /// A change to bytes that are no image.
    fn refuse_image(&self) -> Answer
        ensures { (result, self.now) ≡ prepared_outcome self.now NoImage }
    {
        if self.is_idle() {
            Answer::Refused(Refusal::BadImage)
        } else {
            Answer::Refused(Refusal::NotIdle)
        }
    }

    /// Performs a command that is ready, and answers it; it takes no memory. A change of the program is refused as
    /// `NotIdle` while a scan is held or stopped, else as `BadImage` where its bytes are no image, else it's `Done`: a
    /// variable without a location before and after, of equal name and type, keeps its value, and an instance of equal
    /// name and kind its inputs and its state; all other variables without a location, and all other instances, start
    /// as when cold; the areas, forces, the moment, the count and the budget stay, and breakpoints go. From then on
    /// `Reset` is to the first values of the new program.
    pub fn apply_ready(&mut self, ready: Ready) -> Answer
        ensures prepared { (result, self.new) ≡ prepared_outcome self.old ready }
        ensures outcome { (command : command.Command) → IsReady command ready
            → (result, self.new) ≡ outcome self.old command }
    {
        match ready.kind {
            Kind::Given(command) => self.apply(&command),
            Kind::NoImage => self.refuse_image(),
            Kind::Change(fresh) => self.change(fresh),
        }
    }
}
