//! Values forced in place of the cells of an area.

ghost use Rattle.std.specs.Prelude.{◌≡◌, ◌≤◌, ◌+◌, ◌++◌, true, length, is_some, unwrap_or, nat_lt, slice_set, OnOk};
ghost use Rattle.std.specs.Prelude.{IfOk};
ghost use Rattle.ctl_model.specs.Forces.{overlay, with_forces, no_mask, no_forces, with_forced, with_freed};
ghost use Rattle.ctl_model.specs.Forces.{put_force, lift_force};
ghost use Rattle.ctl_model.specs.Snapshots.{forced_bits, forced_words, forced_in, forced_slots, fit_forces};
ghost use Rattle.ctl_scan.specs.Kept.{forced_word, IsMask, AreMasks};

use ctl_model::{Forces, Mask};
use il_model::{Area, BITS, Cells, ForcedSlot, Loc, Slot, Value, WORDS};
use std::alloc::{AllocError, Global};

/// No forces.
pub fn no_forces() -> Forces
    ensures { result ≡ no_forces }
{
    Forces {
        input: no_mask(),
        output: no_mask(),
    }
}

fn no_mask() -> Mask
    ensures { result ≡ no_mask }
{
    Mask {
        bits: [None; BITS],
        words: [None; WORDS],
    }
}

/// The cells of an area with the forces laid over them.
pub fn with_forces(mask: &Mask, cells: &Cells) -> Cells
    ensures { result ≡ with_forces mask.now cells.now }
{
    let mut forced = *cells;
    lay(&mask.bits, &mut forced.bits);
    lay(&mask.words, &mut forced.words);
    forced
}

fn lay<T: Copy>(mask: &[Option<T>], cells: &mut [T])
    requires { length mask.now ≡ length cells.old }
    ensures { cells.new ≡ overlay mask.now cells.old }
{
    for i in 0..mask.len() {
        if let Some(x) = mask[i] {
            cells[i] = x;
        }
    }
}

/// Forces a bit or a word of the inputs or outputs; false, and nothing changed, where it is of another area, a pattern
/// or a double word, or the value isn't of its type.
pub fn force(forces: &mut Forces, loc: Loc, v: Value) -> bool
    ensures told { result ≡ is_some (put_force forces.old loc v) }
    ensures forced { forces.new ≡ unwrap_or (put_force forces.old loc v) forces.old }
{
    match loc.area() {
        Area::Input => force_in(&mut forces.input, loc, v),
        Area::Output => force_in(&mut forces.output, loc, v),
        Area::Memory => false,
    }
}

/// Frees a bit or a word of the inputs or outputs; false, and nothing changed, where it is of another area, a pattern
/// or a double word.
pub fn unforce(forces: &mut Forces, loc: Loc) -> bool
    ensures told { result ≡ is_some (lift_force forces.old loc) }
    ensures unforced { forces.new ≡ unwrap_or (lift_force forces.old loc) forces.old }
{
    match loc.area() {
        Area::Input => unforce_in(&mut forces.input, loc),
        Area::Output => unforce_in(&mut forces.output, loc),
        Area::Memory => false,
    }
}

fn force_in(mask: &mut Mask, loc: Loc, v: Value) -> bool
    ensures told { result ≡ is_some (with_forced mask.old loc v) }
    ensures forced { mask.new ≡ unwrap_or (with_forced mask.old loc v) mask.old }
{
    match (loc, v) {
        (Loc::Bit(_, n), Value::Bool(b)) => set(&mut mask.bits, n, Some(b)),
        (Loc::Word(_, n), Value::Int(z)) => set(&mut mask.words, n, Some(z)),
        _ => false,
    }
}

fn unforce_in(mask: &mut Mask, loc: Loc) -> bool
    ensures told { result ≡ is_some (with_freed mask.old loc) }
    ensures unforced { mask.new ≡ unwrap_or (with_freed mask.old loc) mask.old }
{
    match loc {
        Loc::Bit(_, n) => set(&mut mask.bits, n, None),
        Loc::Word(_, n) => set(&mut mask.words, n, None),
        Loc::Pattern(_, _) | Loc::Double(_, _, _) => false,
    }
}

/// Sets what a cell is forced to; false, and nothing changed, where there is no such cell.
fn set<T: Copy>(mask: &mut [Option<T>], n: u16, force: Option<T>) -> bool
    ensures told { result ≡ nat_lt n (length mask.old) }
    ensures set { mask.new ≡ slice_set mask.old n force }
{
    let is_there = (n as usize) < mask.len();
    if is_there {
        mask[n as usize] = force;
    }
    is_there
}

/// Appends the slots of forced bits; the first bit has the number `base`.
fn save_bits(
    slots: &mut Vec<ForcedSlot>,
    base: u16,
    bits: &[Option<bool>],
) -> Result<(), AllocError>
    requires { base + length bits.now ≤ 65536 }
    ensures { OnOk result (slots.new.items ≡ slots.old.items ++ forced_bits base bits.now) }
{
    for i in 0..bits.len() {
        if let Some(b) = bits[i] {
            slots.push(ForcedSlot {
                slot: Slot(base + i as u16),
                value: Value::Bool(b),
            })?;
        }
    }
    Ok(())
}

/// The slot of a word, where it is forced.
fn forced_word(n: u16, force: Option<i16>) -> Option<ForcedSlot>
    ensures { result ≡ forced_word n force }
{
    match force {
        Some(z) => Some(ForcedSlot {
            slot: Slot(n),
            value: Value::Int(z),
        }),
        None => None,
    }
}

/// Appends the slots of forced words; the first word has the number `base`.
fn save_words(
    slots: &mut Vec<ForcedSlot>,
    base: u16,
    words: &[Option<i16>],
) -> Result<(), AllocError>
    requires { base + length words.now ≤ 65536 }
    ensures { OnOk result (slots.new.items ≡ slots.old.items ++ forced_words base words.now) }
{
    for i in 0..words.len() {
        if let Some(forced) = forced_word(base + i as u16, words[i]) {
            slots.push(forced)?;
        }
    }
    Ok(())
}

/// Appends the slots of an area's forces.
#[tactic(auto, using(il_model::proofs::CodedOperands::loc_small))]
fn save_mask(slots: &mut Vec<ForcedSlot>, area: Area, mask: &Mask) -> Result<(), AllocError>
    ensures { OnOk result (slots.new.items ≡ slots.old.items ++ forced_in area mask.now) }
{
    let first_bit = Loc::Bit(area, 0).code();
    let first_word = Loc::Word(area, 0).code();
    save_bits(slots, first_bit as u16, &mask.bits)?;
    save_words(slots, first_word as u16, &mask.words)
}

/// What is forced, rising by slot.
pub fn saved_forces(alloc: Global, forces: &Forces) -> Result<Vec<ForcedSlot>, AllocError>
    ensures { IfOk result (λ v. v.items ≡ forced_slots forces.now) }
{
    let mut slots = Vec::new(alloc);
    save_mask(&mut slots, Area::Input, &forces.input)?;
    save_mask(&mut slots, Area::Output, &forces.output)?;
    Ok(slots)
}

/// A mask has a place for each cell of its area. For proofs; it does nothing.
fn know_whole(mask: &Mask)
    ensures { IsMask mask.now }
{
    let _bit = mask.bits[0];
    let _word = mask.words[0];
}

/// Forces have a place for each cell. For proofs; it does nothing.
pub fn know_whole_forces(forces: &Forces)
    ensures { AreMasks forces.now }
{
    know_whole(&forces.input);
    know_whole(&forces.output);
}

/// The forces of slots that rise and have values of their types.
pub fn restored_forces(slots: &[ForcedSlot]) -> Forces
    requires { fit_forces slots.now ≡ true }
    ensures { forced_slots result ≡ slots.now }
{
    let mut forces = no_forces();
    for forced in slots {
        if let Some(loc) = Loc::of_code(forced.slot.0) {
            let _is_set = force(&mut forces, loc, forced.value);
        }
    }
    forces
}
