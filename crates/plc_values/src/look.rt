//! A controller to look at.

ghost use Rattle.std.specs.Prelude.{◌≡◌, IfSome};
ghost use Rattle.il_model.specs.Locations.{area_of};
ghost use Rattle.plc_values.specs.Values.{answered, has_force, is_forced, is_output, location_of, read_in, saved, shown_at};
ghost use Rattle.plc_values.specs.Values.{value_at};

use crate::outputs::{released, value_in};
use crate::shown::Shown;
use ctl_debugger::Controller;
use il_loader::Image;
use il_model::{
    Answer, Area, Budget, Cells, CodedOperand, Command, ForcedSlot, Loc, Slot, Snapshot, Value,
};
use std::alloc::{AllocError, Global};
use std::marker::Model;

/// It runs no scan, and a scan that is held has performed fewer instructions, whatever its own budget is.
const BUDGET: Budget = Budget {
    instructions: 1_000_000,
};

/// A controller as a snapshot has it, and its outputs as they would be released now.
#[derive(Drop)]
pub(crate) struct Look {
    controller: Controller,
    snapshot: Snapshot,
    outputs: Cells,
}

impl Model for Look {
    ghost use Rattle.ctl_debugger.specs.Owned.{Owned};
    ghost use Rattle.plc_values.specs.Seen.{IsSeen};

    ghost Value = { Owned };

    ghost view = { λ l. l.controller };

    ghost invariant = { λ l. IsSeen l.controller l.snapshot l.outputs };
}

/// Whether the location with this code is forced.
fn has_force(forces: &[ForcedSlot], code: usize) -> bool
    ensures { result ≡ has_force forces.now code }
{
    forces.iter().any(|force| usize::from(force.slot.0) == code)
}

/// Whether what lies there is forced.
#[tactic(auto, using(crate::proofs::Entries::word_small))]
fn is_forced(forces: &[ForcedSlot], place: Option<Loc>) -> bool
    ensures { result ≡ is_forced forces.now place }
{
    match place {
        None => false,
        Some(Loc::Bit(area, number)) => has_force(forces, Loc::Bit(area, number).code()),
        Some(Loc::Word(area, number) | Loc::Pattern(area, number)) => {
            has_force(forces, Loc::Word(area, number).code())
        }
        Some(Loc::Double(area, number, _)) => {
            let code = Loc::Word(area, number).code();
            has_force(forces, code) || has_force(forces, code + 1)
        }
    }
}

/// At which location a slot's value lies, if it lies at one.
fn location_of(image: &Image, slot: Slot) -> Option<Loc>
    ensures { result ≡ location_of image.now slot.0 }
{
    match CodedOperand::of_code(slot.0)? {
        CodedOperand::Location(place) => Some(place),
        CodedOperand::Variable(number) => image.variables().get(usize::from(number))?.location,
        _ => None,
    }
}

fn is_output(place: Loc) -> bool
    ensures { result ≡ is_output (area_of place) }
{
    match place.area() {
        Area::Output => true,
        Area::Input | Area::Memory => false,
    }
}

/// The value that an answer tells.
fn value_of(answer: Answer) -> Option<Value>
    ensures { result ≡ answered answer }
{
    match answer {
        Answer::Value(value) => Some(value),
        _ => None,
    }
}

/// What a read of a slot answers.
fn read(controller: &mut Controller, slot: Slot) -> Option<Value>
    ensures value { result ≡ read_in controller.old slot.0 }
    ensures same { controller.new ≡ controller.old }
{
    let answer = controller.apply(&Command::ReadVar(slot));
    value_of(answer)
}

impl Look {
    /// The controller of this image's program that a snapshot is of: none where it's of no such controller, or memory
    /// runs out.
    pub(crate) fn of(alloc: Global, image: &Image, snapshot: Snapshot) -> Option<Look>
        ensures program { IfSome result (λ look. look.program ≡ image.now) }
        ensures snapshot { IfSome result (λ look. snapshot ≡ saved look) }
    {
        let Ok(own) = image.copy(alloc) else {
            return None;
        };
        match Controller::restore(alloc, own, BUDGET, &snapshot) {
            Ok(controller) => {
                let outputs = released(&snapshot);
                Some(Look {
                    controller,
                    snapshot,
                    outputs,
                })
            }
            Err(_) => None,
        }
    }

    /// What is saved of the controller.
    pub(crate) fn snapshot(&self) -> &Snapshot
        ensures { result.now ≡ saved self.now }
    {
        &self.snapshot
    }

    /// What a read of a slot answers.
    fn read(&mut self, slot: Slot) -> Option<Value>
        ensures value { result ≡ read_in self.old slot.0 }
        ensures same { self.new ≡ self.old }
    {
        read(&mut self.controller, slot)
    }

    /// The value of a slot that lies there.
    fn value_at(&mut self, slot: Slot, place: Option<Loc>) -> Option<Value>
        ensures value { result ≡ value_at self.old slot.0 place }
        ensures same { self.new ≡ self.old }
    {
        match place {
            Some(place) if is_output(place) => value_in(&self.outputs, place),
            _ => self.read(slot),
        }
    }

    /// What is seen of a slot, by the image of the program.
    pub(crate) fn shown_at(&mut self, image: &Image, slot: Slot) -> Shown
        requires { self.old.program ≡ image.now }
        ensures shown { result ≡ shown_at self.old slot.0 }
        ensures same { self.new ≡ self.old }
    {
        let place = location_of(image, slot);
        Shown {
            place,
            value: self.value_at(slot, place),
            is_forced: is_forced(self.snapshot.forces.as_slice(), place),
        }
    }
}
