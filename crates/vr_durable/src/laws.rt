//! What is promised of a durable replica, whatever is called in whichever order, and wherever the power goes.

ghost use Rattle.vr_durable.specs.Calls.{CallsAreALife, CutsArePauses};

/// Whatever is called of a durable replica, in whichever order: it's a life as the law of pauses has them. And where
/// the power goes, whoever goes on from what is read back goes on in that life: to the group the cut was a pause.
pub fn a_life_goes_on()
    ensures calls { CallsAreALife }
    ensures cuts { CutsArePauses }
{}
