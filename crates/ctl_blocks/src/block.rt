//! A standard function block of any kind, called with the list of its inputs' values.

ghost use Rattle.std.specs.Prelude.{◌≡◌, true, ℕ, List, Option, Some, IfSome, slice_get, option_map};
ghost use Rattle.il_model.specs.Kinds.{field_type, input_count};
ghost use Rattle.il_values.specs.Values.{ty_of};
ghost use Rattle.ctl_blocks.specs.declared.block.Block.{Block};
ghost use Rattle.ctl_blocks.specs.Blocks.{bool_of, int_of, time_of, sr_inputs, rs_inputs, edge_inputs, ctu_inputs};
ghost use Rattle.ctl_blocks.specs.Blocks.{ctd_inputs, ctud_inputs, timer_inputs, bistable_values, edge_values};
ghost use Rattle.ctl_blocks.specs.Blocks.{counter_values, ctud_values, timer_values, kind_of, cold_block};
ghost use Rattle.ctl_blocks.specs.Blocks.{block_after, outputs_of, output_field, output_value, is_block};
ghost use Rattle.ctl_blocks.specs.Blocks.{block_words, IsKnown};

use crate::bistable::{BistableOut, Rs, RsIn, Sr, SrIn};
use crate::counter::{CounterOut, Ctd, CtdIn, Ctu, CtuIn, Ctud, CtudIn, CtudOut};
use crate::edge::{EdgeIn, EdgeOut, FTrig, RTrig};
use crate::function_block::FunctionBlock;
use crate::timer::{TimerIn, TimerOut, Tof, Ton, Tp};
use arrayvec::ArrayVec;
use il_model::{BlockKind, Value};

/// A standard function block. Its state is always one of its kind.
#[derive(Drop)]
pub enum Block {
    Sr(Sr),
    Rs(Rs),
    RTrig(RTrig),
    FTrig(FTrig),
    Ctu(Ctu),
    Ctd(Ctd),
    Ctud(Ctud),
    Tp(Tp),
    Ton(Ton),
    Tof(Tof),
}

fn bool_of(value: Option<Value>) -> bool
    ensures { result ≡ bool_of value }
{
    match value {
        Some(Value::Bool(b)) => b,
        _ => false,
    }
}

fn int_of(value: Option<Value>) -> i16
    ensures { result ≡ int_of value }
{
    match value {
        Some(Value::Int(z)) => z,
        _ => 0,
    }
}

fn time_of(value: Option<Value>) -> i32
    ensures { result ≡ time_of value }
{
    match value {
        Some(Value::Time(z)) => z,
        _ => 0,
    }
}

fn value_at(values: &[Value], n: usize) -> Option<Value>
    ensures { result ≡ slice_get values.now n }
{
    values.get(n).copied()
}

fn sr_inputs(values: &[Value]) -> SrIn
    ensures { result ≡ sr_inputs values.now }
{
    SrIn {
        s1: bool_of(value_at(values, 0)),
        r: bool_of(value_at(values, 1)),
    }
}

fn rs_inputs(values: &[Value]) -> RsIn
    ensures { result ≡ rs_inputs values.now }
{
    RsIn {
        s: bool_of(value_at(values, 0)),
        r1: bool_of(value_at(values, 1)),
    }
}

fn edge_inputs(values: &[Value]) -> EdgeIn
    ensures { result ≡ edge_inputs values.now }
{
    EdgeIn {
        clk: bool_of(value_at(values, 0)),
    }
}

fn ctu_inputs(values: &[Value]) -> CtuIn
    ensures { result ≡ ctu_inputs values.now }
{
    CtuIn {
        cu: bool_of(value_at(values, 0)),
        r: bool_of(value_at(values, 1)),
        pv: int_of(value_at(values, 2)),
    }
}

fn ctd_inputs(values: &[Value]) -> CtdIn
    ensures { result ≡ ctd_inputs values.now }
{
    CtdIn {
        cd: bool_of(value_at(values, 0)),
        ld: bool_of(value_at(values, 1)),
        pv: int_of(value_at(values, 2)),
    }
}

fn ctud_inputs(values: &[Value]) -> CtudIn
    ensures { result ≡ ctud_inputs values.now }
{
    CtudIn {
        cu: bool_of(value_at(values, 0)),
        cd: bool_of(value_at(values, 1)),
        r: bool_of(value_at(values, 2)),
        ld: bool_of(value_at(values, 3)),
        pv: int_of(value_at(values, 4)),
    }
}

fn timer_inputs(values: &[Value]) -> TimerIn
    ensures { result ≡ timer_inputs values.now }
{
    TimerIn {
        input: bool_of(value_at(values, 0)),
        pt: time_of(value_at(values, 1)),
    }
}

#[inline(always)]
fn bistable_values(o: &BistableOut) -> ArrayVec<Value, 3>
    ensures { result.items ≡ bistable_values o.now }
{
    let mut values = ArrayVec::new();
    values.push(Value::Bool(o.q1));
    values
}

#[inline(always)]
fn edge_values(o: &EdgeOut) -> ArrayVec<Value, 3>
    ensures { result.items ≡ edge_values o.now }
{
    let mut values = ArrayVec::new();
    values.push(Value::Bool(o.q));
    values
}

#[inline(always)]
fn counter_values(o: &CounterOut) -> ArrayVec<Value, 3>
    ensures { result.items ≡ counter_values o.now }
{
    let mut values = ArrayVec::new();
    values.push(Value::Bool(o.q));
    values.push(Value::Int(o.cv));
    values
}

#[inline(always)]
fn ctud_values(o: &CtudOut) -> ArrayVec<Value, 3>
    ensures { result.items ≡ ctud_values o.now }
{
    let mut values = ArrayVec::new();
    values.push(Value::Bool(o.qu));
    values.push(Value::Bool(o.qd));
    values.push(Value::Int(o.cv));
    values
}

#[inline(always)]
fn timer_values(o: &TimerOut) -> ArrayVec<Value, 3>
    ensures { result.items ≡ timer_values o.now }
{
    let mut values = ArrayVec::new();
    values.push(Value::Bool(o.q));
    values.push(Value::Time(o.et));
    values
}

impl Block {
    /// A block that was never called.
    pub fn cold(kind: BlockKind) -> Block
        ensures value { result ≡ cold_block kind }
        ensures lawful { is_block result ≡ true }
    {
        match kind {
            BlockKind::Sr => Block::Sr(Sr::cold()),
            BlockKind::Rs => Block::Rs(Rs::cold()),
            BlockKind::RTrig => Block::RTrig(RTrig::cold()),
            BlockKind::FTrig => Block::FTrig(FTrig::cold()),
            BlockKind::Ctu => Block::Ctu(Ctu::cold()),
            BlockKind::Ctd => Block::Ctd(Ctd::cold()),
            BlockKind::Ctud => Block::Ctud(Ctud::cold()),
            BlockKind::Tp => Block::Tp(Tp::cold()),
            BlockKind::Ton => Block::Ton(Ton::cold()),
            BlockKind::Tof => Block::Tof(Tof::cold()),
        }
    }

    /// Its kind.
    pub fn kind(&self) -> BlockKind
        ensures { result ≡ kind_of self.now }
    {
        match self {
            Block::Sr(_) => BlockKind::Sr,
            Block::Rs(_) => BlockKind::Rs,
            Block::RTrig(_) => BlockKind::RTrig,
            Block::FTrig(_) => BlockKind::FTrig,
            Block::Ctu(_) => BlockKind::Ctu,
            Block::Ctd(_) => BlockKind::Ctd,
            Block::Ctud(_) => BlockKind::Ctud,
            Block::Tp(_) => BlockKind::Tp,
            Block::Ton(_) => BlockKind::Ton,
            Block::Tof(_) => BlockKind::Tof,
        }
    }

    /// Calls it at the moment `now`, in ms, with the values of its inputs in the order of the fields, and answers those
    /// of its outputs after the call. An input without a value of its type counts as FALSE or 0.
    pub fn call(&mut self, inputs: &[Value], now: u64) -> ArrayVec<Value, 3>
        ensures equations { self.new ≡ block_after self.old inputs.now now }
        ensures lawful { is_block self.new ≡ true }
        ensures answer { result.items ≡ outputs_of self.new }
        ensures kind { kind_of self.new ≡ kind_of self.old }
    {
        match self {
            Block::Sr(b) => bistable_values(&b.call(&sr_inputs(inputs), now)),
            Block::Rs(b) => bistable_values(&b.call(&rs_inputs(inputs), now)),
            Block::RTrig(b) => edge_values(&b.call(&edge_inputs(inputs), now)),
            Block::FTrig(b) => edge_values(&b.call(&edge_inputs(inputs), now)),
            Block::Ctu(b) => counter_values(&b.call(&ctu_inputs(inputs), now)),
            Block::Ctd(b) => counter_values(&b.call(&ctd_inputs(inputs), now)),
            Block::Ctud(b) => ctud_values(&b.call(&ctud_inputs(inputs), now)),
            Block::Tp(b) => timer_values(&b.call(&timer_inputs(inputs), now)),
            Block::Ton(b) => timer_values(&b.call(&timer_inputs(inputs), now)),
            Block::Tof(b) => timer_values(&b.call(&timer_inputs(inputs), now)),
        }
    }

    /// The values of its outputs, in the order of the fields.
    pub fn outputs(&self) -> ArrayVec<Value, 3>
        ensures { result.items ≡ outputs_of self.now }
    {
        match self {
            Block::Sr(b) => bistable_values(&b.outs()),
            Block::Rs(b) => bistable_values(&b.outs()),
            Block::RTrig(b) => edge_values(&b.outs()),
            Block::FTrig(b) => edge_values(&b.outs()),
            Block::Ctu(b) => counter_values(&b.outs()),
            Block::Ctd(b) => counter_values(&b.outs()),
            Block::Ctud(b) => ctud_values(&b.outs()),
            Block::Tp(b) => timer_values(&b.outs()),
            Block::Ton(b) => timer_values(&b.outs()),
            Block::Tof(b) => timer_values(&b.outs()),
        }
    }

    /// How many inputs its kind has.
    pub fn input_count(&self) -> u8
        ensures { result ≡ input_count (kind_of self.now) }
    {
        match self {
            Block::RTrig(_) | Block::FTrig(_) => 1,
            Block::Sr(_) | Block::Rs(_) => 2,
            Block::Tp(_) | Block::Ton(_) | Block::Tof(_) => 2,
            Block::Ctu(_) | Block::Ctd(_) => 3,
            Block::Ctud(_) => 5,
        }
    }

    /// The value of the field with that number in the kind's table, where that is an output; None at an input, and
    /// where the kind has fewer fields.
    pub fn output(&self, number: u8) -> Option<Value>
        ensures value { result ≡ output_value self.now number }
        ensures typed { option_map ty_of result ≡ option_map field_type (output_field (kind_of self.now) number) }
    {
        let inputs = self.input_count();
        if number < inputs {
            None
        } else {
            let outputs = self.outputs();
            value_at(outputs.as_slice(), (number - inputs) as usize)
        }
    }

    /// The words of its state.
    pub fn save(&self) -> [u64; 4]
        ensures words { result ≡ block_words self.now }
        ensures lawful { is_block self.now ≡ true }
    {
        match self {
            Block::Sr(b) => b.save(),
            Block::Rs(b) => b.save(),
            Block::RTrig(b) => b.save(),
            Block::FTrig(b) => b.save(),
            Block::Ctu(b) => b.save(),
            Block::Ctd(b) => b.save(),
            Block::Ctud(b) => b.save(),
            Block::Tp(b) => b.save(),
            Block::Ton(b) => b.save(),
            Block::Tof(b) => b.save(),
        }
    }

    /// The block of that kind whose state has these words; None where they are no state's.
    pub fn restore(kind: BlockKind, words: [u64; 4]) -> Option<Block>
        ensures found { (b : Block) → is_block b ≡ true → kind_of b ≡ kind → block_words b ≡ words → result ≡ Some b }
        ensures only { IfSome result (λ b. (is_block b ≡ true) × (kind_of b ≡ kind) × (block_words b ≡ words)) }
    {
        match kind {
            BlockKind::Sr => Some(Block::Sr(Sr::restore(words)?)),
            BlockKind::Rs => Some(Block::Rs(Rs::restore(words)?)),
            BlockKind::RTrig => Some(Block::RTrig(RTrig::restore(words)?)),
            BlockKind::FTrig => Some(Block::FTrig(FTrig::restore(words)?)),
            BlockKind::Ctu => Some(Block::Ctu(Ctu::restore(words)?)),
            BlockKind::Ctd => Some(Block::Ctd(Ctd::restore(words)?)),
            BlockKind::Ctud => Some(Block::Ctud(Ctud::restore(words)?)),
            BlockKind::Tp => Some(Block::Tp(Tp::restore(words)?)),
            BlockKind::Ton => Some(Block::Ton(Ton::restore(words)?)),
            BlockKind::Tof => Some(Block::Tof(Tof::restore(words)?)),
        }
    }
}

/// A block is known by its kind and its words.
pub fn words_tell_a_block()
    ensures { (a b : Block) → IsKnown a b }
{}
