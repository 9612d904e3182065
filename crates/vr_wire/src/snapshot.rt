//! Snapshots of a controller, both ways.

ghost use Rattle.std.specs.Prelude.{◌≡◌, ◌<◌, ◌≤◌, ◌^◌, ◌↔◌, ◌++◌, IsTrue, OnOk, length};
ghost use Rattle.std.specs.Int.{w8, w32, w64};
ghost use Rattle.std.specs.List.{AllByRecursion};
ghost use Rattle.vr_wire.specs.Fields.{listed, counted};
ghost use Rattle.vr_wire.specs.Reading.{Gives, number_at, items_at, counted_at};
ghost use Rattle.vr_wire.specs.Snapshots.{phase_code, phase_stop, phase_performed, phase_bytes, result_bytes};
ghost use Rattle.vr_wire.specs.Snapshots.{deferred_bytes, scan_bytes, areas_bytes, block_bytes, force_bytes};
ghost use Rattle.vr_wire.specs.Snapshots.{tables_bytes, snapshot_bytes, rises_from, may_open, IsOpening, IsAtRest};
ghost use Rattle.vr_wire.specs.Snapshots.{IsScan, IsBlock, IsTables, IsSnapshot, FitsPhase, FitsResult, FitsDeferred};
ghost use Rattle.vr_wire.specs.Snapshots.{FitsScan, FitsAreas, FitsBlock, FitsForce, FitsTables, FitsSnapshot};
ghost use Rattle.vr_wire.specs.SnapshotReading.{phase_of, placed_at, result_at, opening, truth_of, deferred_at};
ghost use Rattle.vr_wire.specs.SnapshotReading.{deferred_list_at, is_at_rest, scan_at, areas_at, block_at, force_at};
ghost use Rattle.vr_wire.specs.SnapshotReading.{breaks_at, slots_rise, forces_at, tables_at, snapshot_of, snapshot_at};

use crate::answer::stop_of;
use crate::bytes::taken;
use crate::cells::{cells_at, put_cells};
use crate::fault::ReadError;
use crate::field::{Field, are_lawful, items_at, list_at, put_items, put_list};
use crate::numbers::{put_u8, put_u16, put_u32, put_u64, u8_at, u16_at, u32_at, u64_at};
use crate::value::{lawful, put_slot, put_value, slot_at, value_at};
use il_model::{
    BlockKind, Cells, Deferred, ForcedSlot, MOST_OPEN_PARENTHESES, Op, SavedInstance, SavedPhase,
    Snapshot, Value, letters_of, op_code, op_of,
};
use std::alloc::{AllocError, Global};
use std::marker::Model;

// ---- the open scan

fn phase_code(phase: SavedPhase) -> u8
    ensures { result ≡ phase_code phase }
{
    match phase {
        SavedPhase::Idle => 0,
        SavedPhase::Held { .. } => 1,
        SavedPhase::Stopped(_) => 2,
    }
}

fn phase_stop(phase: SavedPhase) -> u8
    ensures { result ≡ phase_stop phase }
{
    match phase {
        SavedPhase::Idle | SavedPhase::Held { .. } => 0,
        SavedPhase::Stopped(stop) => stop.number(),
    }
}

fn phase_performed(phase: SavedPhase) -> u32
    ensures value { result ≡ phase_performed phase }
    ensures fits { FitsPhase phase }
{
    match phase {
        SavedPhase::Held { performed } => performed,
        SavedPhase::Idle | SavedPhase::Stopped(_) => 0,
    }
}

fn put_phase(out: &mut Vec<u8>, phase: SavedPhase, position: u16) -> Result<(), AllocError>
    ensures text { OnOk result (out.new.items ≡ out.old.items ++ phase_bytes phase position) }
    ensures fits { FitsPhase phase }
{
    let performed = phase_performed(phase);
    put_u8(out, phase_code(phase))?;
    put_u8(out, phase_stop(phase))?;
    put_u16(out, position)?;
    put_u32(out, performed)
}

fn put_result(out: &mut Vec<u8>, cr: Option<Value>) -> Result<(), AllocError>
    ensures text { OnOk result (out.new.items ≡ out.old.items ++ result_bytes cr) }
    ensures fits { OnOk result (FitsResult cr) }
{
    match cr {
        None => put_u8(out, 0),
        Some(value) => {
            put_u8(out, 1)?;
            put_value(out, value)
        }
    }
}

fn phase_of(code: u8, stop: u8, performed: u32) -> Option<SavedPhase>
    ensures { result ≡ phase_of code stop performed }
{
    match (code, stop, performed) {
        (0, 0, 0) => Some(SavedPhase::Idle),
        (1, 0, _) => Some(SavedPhase::Held { performed }),
        (2, _, 0) => match stop_of(stop) {
            Some(stop) => Some(SavedPhase::Stopped(stop)),
            None => None,
        },
        _ => None,
    }
}

fn placed_at(bytes: &[u8]) -> Result<(SavedPhase, u16, &[u8]), ReadError>
    ensures { Gives (λ x. (record { phase = x.0; position = x.1 }, x.2.now)) result (placed_at bytes.now) }
{
    let (code, rest) = u8_at(bytes)?;
    let (stop, rest) = u8_at(rest)?;
    let (position, rest) = u16_at(rest)?;
    let (performed, rest) = u32_at(rest)?;
    let phase = lawful(phase_of(code, stop, performed))?;
    Ok((phase, position, rest))
}

fn result_at(bytes: &[u8]) -> Result<(Option<Value>, &[u8]), ReadError>
    ensures { Gives (λ x. (x.0, x.1.now)) result (result_at bytes.now) }
{
    let (tag, rest) = u8_at(bytes)?;
    match tag {
        0 => Ok((None, rest)),
        1 => {
            let (value, rest) = value_at(rest)?;
            Ok((Some(value), rest))
        }
        _ => Err(ReadError::Malformed),
    }
}

/// Whether an operator can stand before a parenthesis.
fn may_open(op: Op) -> bool
    ensures { result ≡ may_open op }
{
    letters_of(op, 4).is_some()
}

fn opening(code: u8) -> Option<Op>
    ensures { result ≡ opening code }
{
    let op = op_of(code)?;
    if may_open(op) { Some(op) } else { None }
}

fn truth_of(code: u8) -> Option<bool>
    ensures { result ≡ truth_of code }
{
    match code {
        0 => Some(false),
        1 => Some(true),
        _ => None,
    }
}

impl Field for Deferred {
    ghost text = { deferred_bytes };

    ghost IsLawful = { IsOpening };

    ghost Fits = { FitsDeferred };

    ghost read_at = { deferred_at };

    fn put(&self, out: &mut Vec<u8>) -> Result<(), AllocError> {
        put_u8(out, op_code(self.op) as u8)?;
        put_u8(out, u8::from(self.negated))?;
        put_result(out, Some(self.cr))
    }

    fn is_lawful(&self) -> bool {
        may_open(self.op)
    }

    fn read(_alloc: Global, bytes: &[u8]) -> Result<(Deferred, &[u8]), ReadError> {
        let (code, rest) = u8_at(bytes)?;
        let op = lawful(opening(code))?;
        let (code, rest) = u8_at(rest)?;
        let negated = lawful(truth_of(code))?;
        let (cr, rest) = result_at(rest)?;
        let cr = lawful(cr)?;
        Ok((Deferred { op, negated, cr }, rest))
    }
}

fn put_deferred(out: &mut Vec<u8>, deferred: &[Deferred]) -> Result<(), AllocError>
    requires { length deferred.now ≤ MOST_OPEN_PARENTHESES }
    ensures text { OnOk result (out.new.items ≡ out.old.items ++ listed w8 deferred_bytes deferred.now) }
    ensures fits { OnOk result (AllByRecursion FitsDeferred deferred.now) }
{
    put_u8(out, deferred.len() as u8)?;
    put_items(out, deferred)
}

fn put_scan(
    out: &mut Vec<u8>,
    phase: SavedPhase,
    position: u16,
    cr: Option<Value>,
    deferred: &[Deferred],
) -> Result<(), AllocError>
    requires { length deferred.now ≤ MOST_OPEN_PARENTHESES }
    ensures text { OnOk result (out.new.items ≡ out.old.items ++ scan_bytes phase position cr deferred.now) }
    ensures fits { OnOk result (FitsScan phase position cr deferred.now) }
{
    put_phase(out, phase, position)?;
    put_result(out, cr)?;
    put_deferred(out, deferred)
}

fn is_at_rest(phase: SavedPhase, position: u16, cr: Option<Value>, deferred: &[Deferred]) -> bool
    ensures value { result ≡ is_at_rest phase position cr deferred.now }
    ensures lawful { IsTrue result ↔ IsAtRest phase position cr deferred.now }
{
    match phase {
        SavedPhase::Idle => position == 0 && (cr.is_none() && deferred.len() == 0),
        SavedPhase::Held { .. } | SavedPhase::Stopped(_) => true,
    }
}

fn is_scan(phase: SavedPhase, position: u16, cr: Option<Value>, deferred: &[Deferred]) -> bool
    ensures { IsTrue result ↔ IsScan phase position cr deferred.now }
{
    deferred.len() <= MOST_OPEN_PARENTHESES
        && are_lawful(deferred)
        && is_at_rest(phase, position, cr, deferred)
}

/// What is open of a scan.
#[derive(Drop)]
struct OpenScan {
    phase: SavedPhase,
    position: u16,
    cr: Option<Value>,
    deferred: Vec<Deferred>,
}

impl Model for OpenScan {
    ghost use Rattle.vr_wire.specs.SnapshotReading as read;

    ghost Value = { read.OpenScan };

    ghost view = { λ s. record { phase = s.phase; position = s.position; cr = s.cr; deferred = s.deferred.items } };
}

fn deferred_list_at(alloc: Global, bytes: &[u8]) -> Result<(Vec<Deferred>, &[u8]), ReadError>
    ensures { Gives (λ x. (x.0.items, x.1.now)) result (deferred_list_at bytes.now) }
{
    let (depth, rest) = u8_at(bytes)?;
    if usize::from(depth) > MOST_OPEN_PARENTHESES {
        return Err(ReadError::Malformed);
    }
    items_at(alloc, usize::from(depth), rest)
}

fn scan_at(alloc: Global, bytes: &[u8]) -> Result<(OpenScan, &[u8]), ReadError>
    ensures { Gives (λ x. (x.0, x.1.now)) result (scan_at bytes.now) }
{
    let (phase, position, rest) = placed_at(bytes)?;
    let (cr, rest) = result_at(rest)?;
    let (deferred, rest) = deferred_list_at(alloc, rest)?;
    if !is_at_rest(phase, position, cr, deferred.as_slice()) {
        return Err(ReadError::Malformed);
    }
    let scan = OpenScan {
        phase,
        position,
        cr,
        deferred,
    };
    Ok((scan, rest))
}

// ---- the areas

fn put_areas(
    out: &mut Vec<u8>,
    input: &Cells,
    output: &Cells,
    memory: &Cells,
) -> Result<(), AllocError>
    ensures text { OnOk result (out.new.items ≡ out.old.items ++ areas_bytes input.now output.now memory.now) }
    ensures fits { OnOk result (FitsAreas input.now output.now memory.now) }
{
    put_cells(out, input)?;
    put_cells(out, output)?;
    put_cells(out, memory)
}

#[derive(Drop)]
struct Areas {
    input: Cells,
    output: Cells,
    memory: Cells,
}

fn areas_at(bytes: &[u8]) -> Result<(Areas, &[u8]), ReadError>
    ensures { Gives (λ x. (record { input = x.0.input; output = x.0.output; memory = x.0.memory }, x.1.now)) result
        (areas_at bytes.now) }
{
    let (input, rest) = cells_at(bytes)?;
    let (output, rest) = cells_at(rest)?;
    let (memory, rest) = cells_at(rest)?;
    let areas = Areas {
        input,
        output,
        memory,
    };
    Ok((areas, rest))
}

// ---- the tables

impl Field for ForcedSlot {
    ghost text = { force_bytes };

    ghost IsLawful = { λ _. Unit {0} };

    ghost Fits = { FitsForce };

    ghost read_at = { force_at };

    fn put(&self, out: &mut Vec<u8>) -> Result<(), AllocError> {
        put_slot(out, self.slot)?;
        put_value(out, self.value)
    }

    fn is_lawful(&self) -> bool {
        true
    }

    fn read(_alloc: Global, bytes: &[u8]) -> Result<(ForcedSlot, &[u8]), ReadError> {
        let (slot, rest) = slot_at(bytes)?;
        let (value, rest) = value_at(rest)?;
        Ok((ForcedSlot { slot, value }, rest))
    }
}

/// The four saved words of a block.
#[tactic(auto, unfolding(crate::specs::Reading::items_at))]
fn words_at(bytes: &[u8]) -> Result<([u64; 4], &[u8]), ReadError>
    ensures { Gives (λ x. (x.0, x.1.now)) result (items_at (number_at w64) 4 bytes.now) }
{
    let (first, rest) = u64_at(bytes)?;
    let (second, rest) = u64_at(rest)?;
    let (third, rest) = u64_at(rest)?;
    let (fourth, rest) = u64_at(rest)?;
    Ok(([first, second, third, fourth], rest))
}

impl Field for SavedInstance {
    ghost text = { block_bytes };

    ghost IsLawful = { IsBlock };

    ghost Fits = { FitsBlock };

    ghost read_at = { block_at };

    fn put(&self, out: &mut Vec<u8>) -> Result<(), AllocError> {
        put_u8(out, self.kind.code())?;
        put_items(out, self.inputs.as_slice())?;
        put_items(out, &self.words)
    }

    fn is_lawful(&self) -> bool {
        self.inputs.len() == usize::from(self.kind.input_count())
    }

    fn read(alloc: Global, bytes: &[u8]) -> Result<(SavedInstance, &[u8]), ReadError> {
        let (code, rest) = u8_at(bytes)?;
        let kind = lawful(BlockKind::of_code(code))?;
        let (inputs, rest) = items_at(alloc, usize::from(kind.input_count()), rest)?;
        let (words, rest) = words_at(rest)?;
        let instance = SavedInstance {
            kind,
            inputs,
            words,
        };
        Ok((instance, rest))
    }
}

fn put_tables(
    out: &mut Vec<u8>,
    variables: &[Value],
    instances: &[SavedInstance],
    breaks: &[u16],
    forces: &[ForcedSlot],
) -> Result<(), AllocError>
    requires { IsTables variables.now instances.now breaks.now forces.now }
    ensures text { OnOk result
        (out.new.items ≡ out.old.items ++ tables_bytes variables.now instances.now breaks.now forces.now) }
    ensures fits { OnOk result (FitsTables variables.now instances.now breaks.now forces.now) }
{
    put_list(out, variables)?;
    put_list(out, instances)?;
    put_list(out, breaks)?;
    put_list(out, forces)
}

/// Whether each position is above the one before it.
fn breaks_rise(breaks: &[u16]) -> bool
    ensures { result ≡ rises_from 0 breaks.now }
{
    let mut next = 0u32;
    for position in breaks {
        if u32::from(*position) < next {
            return false;
        }
        next = u32::from(*position) + 1;
    }
    true
}

/// Whether each slot is above the one before it.
fn slots_rise(forces: &[ForcedSlot]) -> bool
    ensures { result ≡ slots_rise forces.now }
{
    let mut next = 0u32;
    for force in forces {
        if u32::from(force.slot.0) < next {
            return false;
        }
        next = u32::from(force.slot.0) + 1;
    }
    true
}

fn is_short<T>(items: &[T]) -> bool
    ensures { IsTrue result ↔ (length items.now < 2 ^ 16) }
{
    items.len() < 65536
}

fn are_tables(
    variables: &[Value],
    instances: &[SavedInstance],
    breaks: &[u16],
    forces: &[ForcedSlot],
) -> bool
    ensures { IsTrue result ↔ IsTables variables.now instances.now breaks.now forces.now }
{
    is_short(variables)
        && is_short(instances)
        && are_lawful(instances)
        && is_short(breaks)
        && breaks_rise(breaks)
        && is_short(forces)
        && slots_rise(forces)
}

/// The variables without a location, the instances, the breakpoints and the forces.
#[derive(Drop)]
struct Tables {
    variables: Vec<Value>,
    instances: Vec<SavedInstance>,
    breaks: Vec<u16>,
    forces: Vec<ForcedSlot>,
}

impl Model for Tables {
    ghost use Rattle.vr_wire.specs.SnapshotReading as read;

    ghost Value = { read.Tables };

    ghost view = { λ t. record {
      variables = t.variables.items;
      instances = t.instances.items;
      breaks = t.breaks.items;
      forces = t.forces.items;
    } };
}

fn breaks_at(alloc: Global, bytes: &[u8]) -> Result<(Vec<u16>, &[u8]), ReadError>
    ensures { Gives (λ x. (x.0.items, x.1.now)) result (breaks_at bytes.now) }
{
    let (breaks, rest) = list_at(alloc, bytes)?;
    if !breaks_rise(breaks.as_slice()) {
        return Err(ReadError::Malformed);
    }
    Ok((breaks, rest))
}

fn forces_at(alloc: Global, bytes: &[u8]) -> Result<(Vec<ForcedSlot>, &[u8]), ReadError>
    ensures { Gives (λ x. (x.0.items, x.1.now)) result (forces_at bytes.now) }
{
    let (forces, rest) = list_at(alloc, bytes)?;
    if !slots_rise(forces.as_slice()) {
        return Err(ReadError::Malformed);
    }
    Ok((forces, rest))
}

fn tables_at(alloc: Global, bytes: &[u8]) -> Result<(Tables, &[u8]), ReadError>
    ensures { Gives (λ x. (x.0, x.1.now)) result (tables_at bytes.now) }
{
    let (variables, rest) = list_at(alloc, bytes)?;
    let (instances, rest) = list_at(alloc, rest)?;
    let (breaks, rest) = breaks_at(alloc, rest)?;
    let (forces, rest) = forces_at(alloc, rest)?;
    let tables = Tables {
        variables,
        instances,
        breaks,
        forces,
    };
    Ok((tables, rest))
}

// ---- the whole

/// Whether a snapshot has a spelling.
pub(crate) fn is_snapshot(s: &Snapshot) -> bool
    ensures { IsTrue result ↔ IsSnapshot s.now }
{
    s.image.len() < 4294967296
        && is_scan(s.phase, s.position, s.cr, s.deferred.as_slice())
        && are_tables(
            s.variables.as_slice(),
            s.instances.as_slice(),
            s.breaks.as_slice(),
            s.forces.as_slice(),
        )
}

/// An image, behind its length.
fn put_image(out: &mut Vec<u8>, image: &[u8]) -> Result<(), AllocError>
    requires { length image.now < 2 ^ 32 }
    ensures { OnOk result (out.new.items ≡ out.old.items ++ counted w32 image.now) }
{
    put_u32(out, image.len() as u32)?;
    out.extend_from_slice(image)
}

fn put_content(out: &mut Vec<u8>, s: &Snapshot) -> Result<(), AllocError>
    requires { IsSnapshot s.now }
    ensures text { OnOk result
        (out.new.items ≡ out.old.items
        ++ (scan_bytes s.now.phase s.now.position s.now.cr s.now.deferred
        ++ (areas_bytes s.now.input s.now.output s.now.memory
        ++ tables_bytes s.now.variables s.now.instances s.now.breaks s.now.forces))) }
    ensures scan { OnOk result (FitsScan s.now.phase s.now.position s.now.cr s.now.deferred) }
    ensures areas { OnOk result (FitsAreas s.now.input s.now.output s.now.memory) }
    ensures tables { OnOk result (FitsTables s.now.variables s.now.instances s.now.breaks s.now.forces) }
{
    put_scan(out, s.phase, s.position, s.cr, s.deferred.as_slice())?;
    put_areas(out, &s.input, &s.output, &s.memory)?;
    put_tables(
        out,
        s.variables.as_slice(),
        s.instances.as_slice(),
        s.breaks.as_slice(),
        s.forces.as_slice(),
    )
}

pub(crate) fn put_snapshot(out: &mut Vec<u8>, s: &Snapshot) -> Result<(), AllocError>
    requires { IsSnapshot s.now }
    ensures text { OnOk result (out.new.items ≡ out.old.items ++ snapshot_bytes s.now) }
    ensures fits { OnOk result (FitsSnapshot s.now) }
{
    put_image(out, s.image.as_slice())?;
    put_u64(out, s.count)?;
    put_u64(out, s.moment)?;
    put_content(out, s)
}

/// Bytes behind their count.
fn counted_at(bytes: &[u8]) -> Result<(&[u8], &[u8]), ReadError>
    ensures { Gives (λ x. (x.0.now, x.1.now)) result (counted_at (number_at w32) bytes.now) }
{
    let (count, rest) = u32_at(bytes)?;
    taken(count as usize, rest)
}

fn image_at(alloc: Global, bytes: &[u8]) -> Result<(Vec<u8>, &[u8]), ReadError>
    ensures { Gives (λ x. (x.0.items, x.1.now)) result (counted_at (number_at w32) bytes.now) }
{
    let (image, rest) = counted_at(bytes)?;
    Ok((Vec::from_slice(alloc, image)?, rest))
}

fn snapshot_of(
    image: Vec<u8>,
    count: u64,
    moment: u64,
    scan: OpenScan,
    areas: Areas,
    tables: Tables,
) -> Snapshot
    ensures { result ≡ snapshot_of image.items count moment scan
        (record { input = areas.input; output = areas.output; memory = areas.memory }) tables }
{
    Snapshot {
        image,
        variables: tables.variables,
        instances: tables.instances,
        input: areas.input,
        output: areas.output,
        memory: areas.memory,
        cr: scan.cr,
        deferred: scan.deferred,
        position: scan.position,
        count,
        moment,
        forces: tables.forces,
        breaks: tables.breaks,
        phase: scan.phase,
    }
}

pub(crate) fn snapshot_at(alloc: Global, bytes: &[u8]) -> Result<(Snapshot, &[u8]), ReadError>
    ensures { Gives (λ x. (x.0, x.1.now)) result (snapshot_at bytes.now) }
{
    let (image, rest) = image_at(alloc, bytes)?;
    let (count, rest) = u64_at(rest)?;
    let (moment, rest) = u64_at(rest)?;
    let (scan, rest) = scan_at(alloc, rest)?;
    let (areas, rest) = areas_at(rest)?;
    let (tables, rest) = tables_at(alloc, rest)?;
    let snapshot = snapshot_of(image, count, moment, scan, areas, tables);
    Ok((snapshot, rest))
}
