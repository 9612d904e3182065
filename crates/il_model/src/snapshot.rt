//! Snapshots of a controller: plain data.

ghost use Rattle.std.specs.Prelude.{◌≡◌, IfOk, map};

use crate::cells::Cells;
use crate::fetched::Deferred;
use crate::kind::BlockKind;
use crate::slot::Slot;
use il_values::{Stop, Value};
use std::alloc::{AllocError, Global};
use std::marker::Model;

/// A forced location of `%I` or `%Q`, by its slot, with the value that stands there.
#[derive(Clone, Copy, Debug, PartialEq, Eq)]
pub struct ForcedSlot {
    pub slot: Slot,
    pub value: Value,
}

/// Whether a scan was open.
#[derive(Clone, Copy, Debug, PartialEq, Eq)]
pub enum SavedPhase {
    /// None was.
    Idle,
    /// One was held, after so many instructions.
    Held { performed: u32 },
    /// One was stopped.
    Stopped(Stop),
}

/// A function block instance: its kind, the values of its inputs in the order of the kind's fields, and the words of
/// its block.
#[derive(Drop)]
pub struct SavedInstance {
    pub kind: BlockKind,
    pub inputs: Vec<Value>,
    pub words: [u64; 4],
}

impl Model for SavedInstance {
    ghost use Rattle.il_model.specs.Snapshots.{SavedBlock};

    ghost Value = { SavedBlock };

    ghost view = { λ x. record { kind = x.kind; inputs = x.inputs.items; words = x.words } };
}

/// A controller as it was when it was saved: all that its answers depend on but its budget.
#[derive(Drop)]
pub struct Snapshot {
    /// The bytes of the image of the program in force.
    pub image: Vec<u8>,
    /// The values of the variables without a location, in order.
    pub variables: Vec<Value>,
    /// The function block instances, in the order of declaration.
    pub instances: Vec<SavedInstance>,
    pub input: Cells,
    pub output: Cells,
    pub memory: Cells,
    /// The current result of the open scan.
    pub cr: Option<Value>,
    /// The deferred operators of the open scan, the outermost first.
    pub deferred: Vec<Deferred>,
    /// The number of the instruction that the open scan is held or stopped at.
    pub position: u16,
    /// How many scans were begun.
    pub count: u64,
    /// The greatest moment so far, in milliseconds.
    pub moment: u64,
    /// What is forced, rising by slot.
    pub forces: Vec<ForcedSlot>,
    /// The positions of the breakpoints, rising.
    pub breaks: Vec<u16>,
    pub phase: SavedPhase,
}

impl Model for Snapshot {
    ghost use Rattle.il_model.specs.Snapshots.{SavedController};

    ghost Value = { SavedController };

    ghost view = { λ s. record {
      image = s.image.items;
      variables = s.variables.items;
      instances = s.instances.items;
      input = s.input;
      output = s.output;
      memory = s.memory;
      cr = s.cr;
      deferred = s.deferred.items;
      position =
          s.position;
      count = s.count;
      moment = s.moment;
      forces = s.forces.items;
      breaks = s.breaks.items;
      phase =
          s.phase;
    } };
}

impl SavedInstance {
    /// An equal one.
    pub fn copy(&self, alloc: Global) -> Result<SavedInstance, AllocError>
        ensures { IfOk result (λ x. x ≡ self.now) }
    {
        Ok(SavedInstance {
            kind: self.kind,
            inputs: Vec::from_slice(alloc, self.inputs.as_slice())?,
            words: self.words,
        })
    }
}

fn copy_instances(
    alloc: Global,
    instances: &[SavedInstance],
) -> Result<Vec<SavedInstance>, AllocError>
    ensures { IfOk result (λ v. v.items ≡ instances.now) }
{
    let mut copied = Vec::new(alloc);
    for x in instances {
        copied.push(x.copy(alloc)?)?;
    }
    Ok(copied)
}

impl Snapshot {
    /// An equal one; it fails only where memory runs out.
    pub fn copy(&self, alloc: Global) -> Result<Snapshot, AllocError>
        ensures { IfOk result (λ s. s ≡ self.now) }
    {
        Ok(Snapshot {
            image: Vec::from_slice(alloc, self.image.as_slice())?,
            variables: Vec::from_slice(alloc, self.variables.as_slice())?,
            instances: copy_instances(alloc, self.instances.as_slice())?,
            input: self.input,
            output: self.output,
            memory: self.memory,
            cr: self.cr,
            deferred: Vec::from_slice(alloc, self.deferred.as_slice())?,
            position: self.position,
            count: self.count,
            moment: self.moment,
            forces: Vec::from_slice(alloc, self.forces.as_slice())?,
            breaks: Vec::from_slice(alloc, self.breaks.as_slice())?,
            phase: self.phase,
        })
    }
}
