//! When a new base is due.

ghost use Rattle.std.specs.Prelude.{◌<◌, ◌↔◌, IsTrue};
ghost use Rattle.vr_kept.specs.Inputs.{longest};

/// In bytes: past so many a file of a journal is left, as soon as its replica may give a base.
pub const LONGEST: usize = 65_536;

/// Whether a file of so many bytes is to be left for another one, with a new base.
pub fn is_base_due(length: usize) -> bool
    ensures { IsTrue result ↔ (longest < length) }
{
    length > LONGEST
}
