//! The codes of the bits and words at which variables lie, in a table, so that a look-up takes a time that grows as the
//! logarithm of their number. A variable at a double word lies at both of its words.

ghost use Rattle.std.specs.Prelude.{◌≡◌, ◌++◌, ◌||◌, ℕ, List, [], ◌∷◌, OnOk, Some};
ghost use Rattle.std.specs.BTreeSet as sorted;
ghost use Rattle.std.specs.Ordering.{nat_cmp};
ghost use Rattle.il_model.specs.declared.program.Variable.{Variable};
ghost use Rattle.il_model.specs.Codes.{has_code, is_overlapped};
ghost use Rattle.il_model.specs.Tables.{AreCodes};

use crate::program::{Loc, Variable};
use std::alloc::AllocError;
use std::collections::BTreeSet;

/// Whether one of the variables that a table is of lies at a part of the location.
pub fn is_overlapping(codes: &BTreeSet<usize>, loc: Loc) -> bool
    ensures { (seen : List Variable) → AreCodes seen codes.now → result ≡ is_overlapped seen loc }
{
    match loc {
        Loc::Bit(_, _) | Loc::Word(_, _) => codes.contains(&loc.code()),
        Loc::Pattern(area, n) => codes.contains(&Loc::Word(area, n).code()),
        Loc::Double(area, n, _) => {
            let first = Loc::Word(area, n).code();
            codes.contains(&first) || codes.contains(&(first + 1))
        }
    }
}

/// Puts the codes of the bit or the words that a location is to the others.
fn put_parts(codes: &mut BTreeSet<usize>, loc: Loc) -> Result<(), AllocError>
    ensures { OnOk result ((n : ℕ) → sorted.contains nat_cmp codes.new n
        ≡ (has_code n (Some loc) || sorted.contains nat_cmp codes.old n)) }
{
    match loc {
        Loc::Bit(_, _) | Loc::Word(_, _) => {
            codes.insert(loc.code())?;
        }
        Loc::Pattern(area, n) => {
            codes.insert(Loc::Word(area, n).code())?;
        }
        Loc::Double(area, n, _) => {
            let first = Loc::Word(area, n).code();
            codes.insert(first)?;
            codes.insert(first + 1)?;
        }
    }
    Ok(())
}

/// Puts the codes of a variable's location, if it has one, to those of the others.
pub fn put_code(
    codes: &mut BTreeSet<usize>,
    seen: &[Variable],
    v: &Variable,
) -> Result<(), AllocError>
    requires { AreCodes seen.now codes.old }
    ensures { OnOk result (AreCodes (seen.now ++ v.now ∷ []) codes.new) }
{
    match v.location {
        Some(loc) => put_parts(codes, loc),
        None => Ok(()),
    }
}
