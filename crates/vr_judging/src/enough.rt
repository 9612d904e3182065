//! Whether a replica that recovers is told enough.

ghost use Rattle.std.specs.Prelude.{◌≡◌, ◌≤◌, true};
ghost use Rattle.vr_judging.specs.Judging.{told_enough};

/// Whether more than f have answered, and the latest view among them is no earlier than the stored one: a replica that
/// said something in a later view would forget it otherwise.
pub fn is_enough(f: u8, answers: u8, stored: u64, view: u64) -> bool
    ensures enough { result ≡ told_enough f answers stored view }
    ensures stored { result ≡ true → stored ≤ view }
{
    f < answers && stored <= view
}
