//! A function block instance of a run.

ghost use Rattle.std.specs.Prelude.{◌≡◌, ◌≤◌, length, slice_get, IfOk, option_map};
ghost use Rattle.ctl_model.specs.State.{field_value, with_input, cold_inputs, cold_instance};
ghost use Rattle.ctl_model.specs.Step.{instance_after};
ghost use Rattle.ctl_model.specs.Snapshots.{saved_instance};
ghost use Rattle.ctl_machine.specs.Kept.{IsLawful, HasFewInputs, Restores};

use arrayvec::ArrayVec;
use ctl_blocks::Block;
use il_model::{BlockKind, Instance, SavedInstance, Value};
use std::alloc::{AllocError, Global};
use std::marker::Model;

/// The values of the inputs, in the order of the kind's fields, and the block. The number of its first output and the
/// values of its outputs are kept beside it, to be read fast.
#[derive(Drop)]
pub struct InstanceState {
    inputs: ArrayVec<Value, 8>,
    first_output: u8,
    outputs: ArrayVec<Value, 3>,
    block: Block,
}

impl Model for InstanceState {
    ghost use Rattle.ctl_model.specs.State.{BlockInstance};
    ghost use Rattle.ctl_machine.specs.Kept.{KeepsOutputs};

    ghost Value = { BlockInstance };

    ghost view = { λ x. record { inputs = x.inputs.items; block = x.block } };

    ghost invariant = { λ x. KeepsOutputs x.block x.first_output x.outputs.items };
}

impl InstanceState {
    /// An instance that was never called.
    pub fn cold(declared: &Instance) -> InstanceState
        ensures { result ≡ cold_instance declared.now }
    {
        let block = Block::cold(declared.kind);
        InstanceState {
            inputs: cold_inputs(declared.kind),
            first_output: block.input_count(),
            outputs: block.outputs(),
            block,
        }
    }

    /// An equal one.
    pub fn copy(&self) -> InstanceState
        ensures { result ≡ self.now }
    {
        let block = copied(&self.block);
        InstanceState {
            inputs: restored_inputs(self.inputs.as_slice()),
            first_output: block.input_count(),
            outputs: block.outputs(),
            block,
        }
    }

    /// What a snapshot has of it.
    pub fn saved(&self, alloc: Global) -> Result<SavedInstance, AllocError>
        ensures saved { IfOk result (λ x. x ≡ saved_instance self.now) }
        ensures lawful { IfOk result (λ x. IsLawful self.now) }
    {
        Ok(SavedInstance {
            kind: self.block.kind(),
            inputs: Vec::from_slice(alloc, self.inputs.as_slice())?,
            words: self.block.save(),
        })
    }

    /// The instance that a snapshot has; None where its words are no state of its kind.
    pub fn restored(saved: &SavedInstance) -> Option<InstanceState>
        requires { HasFewInputs saved.now }
        ensures { Restores saved.now result }
    {
        let block = Block::restore(saved.kind, saved.words)?;
        let inputs = restored_inputs(saved.inputs.as_slice());
        Some(InstanceState {
            inputs,
            first_output: block.input_count(),
            outputs: block.outputs(),
            block,
        })
    }

    /// The value of the field with that number; None where the kind has fewer.
    #[inline(always)]
    pub fn field(&self, n: u8) -> Option<Value>
        ensures { result ≡ field_value n self.now }
    {
        if (n as usize) < self.inputs.len() {
            value_at(self.inputs.as_slice(), n)
        } else if n < self.first_output {
            None
        } else {
            value_at(self.outputs.as_slice(), n - self.first_output)
        }
    }

    /// Writes the input with that number; None where that is no input.
    #[inline(always)]
    pub fn set_input(&mut self, n: u8, v: Value) -> Option<()>
        ensures { with_input n v self.old ≡ option_map (λ _. self.new) result }
    {
        if (n as usize) < self.inputs.len() {
            self.inputs[n as usize] = v;
            Some(())
        } else {
            None
        }
    }

    /// Calls the block with the values of the inputs. Not inlined: the loop of a run stays small enough for the
    /// compiler to have the whole instruction in it.
    #[inline(never)]
    pub fn call(&mut self, now: u64)
        ensures { self.new ≡ instance_after now self.old }
    {
        self.outputs = self.block.call(self.inputs.as_slice(), now);
    }
}

#[inline(always)]
fn value_at(values: &[Value], n: u8) -> Option<Value>
    ensures { result ≡ slice_get values.now n }
{
    values.get(n as usize).copied()
}

/// An equal block: that of its kind with the same words.
fn copied(block: &Block) -> Block
    ensures { result ≡ block.now }
{
    match Block::restore(block.kind(), block.save()) {
        Some(copy) => copy,
        None => unreachable!(),
    }
}

/// The values of the inputs that a snapshot has.
fn restored_inputs(values: &[Value]) -> ArrayVec<Value, 8>
    requires { length values.now ≤ 8 }
    ensures { result.items ≡ values.now }
{
    let mut inputs = ArrayVec::new();
    for value in values {
        inputs.push(*value);
    }
    inputs
}

/// The inputs of a kind before any value was stored.
fn cold_inputs(kind: BlockKind) -> ArrayVec<Value, 8>
    ensures { result.items ≡ cold_inputs kind }
{
    let mut inputs = ArrayVec::new();
    for field in kind.fields() {
        if field.is_input() {
            inputs.push(Value::zero(field.ty()));
        }
    }
    inputs
}
