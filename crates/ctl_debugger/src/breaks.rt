//! Breakpoints as a controller keeps them and as a snapshot has them.

ghost use Rattle.std.specs.Prelude.{◌≡◌, ◌≤◌, true, length, IfOk};
ghost use Rattle.ctl_model.specs.Snapshots.{break_positions, fit_breaks};

use std::alloc::{AllocError, Global};

/// The positions of the breakpoints, rising; there is a flag for each instruction.
pub fn break_positions(alloc: Global, flags: &[bool]) -> Result<Vec<u16>, AllocError>
    requires { length flags.now ≤ 65536 }
    ensures { IfOk result (λ v. v.items ≡ break_positions flags.now) }
{
    let mut positions = Vec::new(alloc);
    for position in 0..flags.len() {
        if flags[position] {
            positions.push(position as u16)?;
        }
    }
    Ok(positions)
}

/// A flag for each instruction: whether its position is one of these, which rise.
pub fn break_flags(alloc: Global, len: usize, positions: &[u16]) -> Result<Vec<bool>, AllocError>
    requires { fit_breaks len positions.now ≡ true }
    ensures listed { IfOk result (λ v. break_positions v.items ≡ positions.now) }
    ensures each { IfOk result (λ v. length v.items ≡ len) }
{
    let mut flags = vec![in alloc; false; len]?;
    for position in positions {
        flags[*position as usize] = true;
    }
    Ok(flags)
}
