//! What is promised of an outbox, whatever is called in whichever order.

ghost use Rattle.std.specs.Prelude.{List};
ghost use Rattle.vr_outbox.specs.Calls.{Call, KeepsOrder, WaitsForFlushes};

/// Whatever is called, in whichever order: what was handed out, and behind that what waits, is what came in; and what
/// may be handed out is nothing, or all that was put is flushed.
pub fn nothing_leaves_before_its_flush()
    ensures order { (calls : List Call) → KeepsOrder calls }
    ensures flushed { (calls : List Call) → WaitsForFlushes calls }
{}
