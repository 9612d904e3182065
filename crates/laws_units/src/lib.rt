//! The laws of texts of units. There is no code here: each function's clause states a law, and its empty body is proved
//! to meet it.
//!
//! A law is used by naming it in a function whose clause rests on it; nothing in the repository does, since nothing
//! builds on these:
//!
//! ```rust
//! laws_units::two_instances_do_alike();
//! ```
//!
//! Proved, of the bodies that `il_units` puts where blocks are called (`specs/Names`, `specs/Bodies`): two instances
//! share no name; a body names nothing of the unit that calls it but what stands under the instance and what the call
//! gives; two instances of a block that are given the same do alike, their bodies being the same lines with the one's
//! name in place of the other's.
//!
//! Tests (nothing rests on them alone): `units.rows` of `tests_rows` runs such programs.
#![tactic(auto)]

ghost use Rattle.std.specs.Prelude.{◌≡◌};
ghost use Rattle.il_units.specs.Words.{Placing, placed};
ghost use Rattle.il_units.specs.Flats.{FlatUnit};
ghost use Rattle.laws_units.specs.Names.{TellsApart};
ghost use Rattle.laws_units.specs.Bodies.{KeepsTo, AreAlike};

/// Two instances share no name: where what stands under the one has the name of what stands under the other, they are
/// one instance, and what stands under it is the same.
pub fn two_instances_share_no_name()
    ensures { TellsApart }
{}

/// Each variable or instance that a placed body names stands under the instance, or is what the call gives for a
/// VAR_IN_OUT.
pub fn a_body_keeps_to_its_instance()
    ensures { (at : Placing) (block : FlatUnit) → KeepsTo at block }
{}

/// Two instances of a block that are given the same do alike: their bodies are the same lines, with the one's name in
/// place of the other's, and the one call's labels in place of the other's.
pub fn two_instances_do_alike()
    ensures { (at bt : Placing) (block : FlatUnit) → at.sort ≡ bt.sort → at.given ≡ bt.given
        → AreAlike at bt block }
{}
