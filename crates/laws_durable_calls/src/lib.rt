//! The road from the calls of durable replicas to one run. There is no code here, as in `laws_durable`: the function's
//! clause states the law, and its empty body is proved to meet it.
//!
//! ```rust
//! laws_durable_calls::durable_calls_are_one_run(); // for whoever's clause rests on it
//! ```
//!
//! What a machine's code does with a `Durable` of vr_durable is a list of calls, each by its clause; behind a power cut
//! its next process goes on from a base and the events behind it, by the clause of vr_resumed. Proved: the calls of all
//! machines of a group, over any power cuts, and the steps of its clients, in one order, show as deeds of machines as
//! laws_durable has them: so they are one run of the group, with one history; each value stands for what is known of
//! its machine in it, and what was handed out for what was said.
//!
//! Presupposed of each move, wherever those before it have led (`MayBe`): that an event means an input whose message
//! left its sender before, to this machine; that what is read behind a power cut is what was flushed, which is trusted
//! of a disk; and that what a client hears left its sender before. That the run gives what an event's rule needs of its
//! message, as `next_moves_may_presuppose` of laws_threads says of plain machines, is no theorem yet. A machine that
//! loses its journal isn't in these lists. No test is needed here.
#![tactic(auto)]

ghost use Rattle.std.specs.Prelude.{List};
ghost use Rattle.vr_model.specs.Membership.{Group};
ghost use Rattle.laws_durable_calls.specs.CodeOfDurables.{AreFromTheStart, CodeMove, ShowAsOneRun};

use il_model::{Answer, Command};

/// What the code of durable machines and of clients did, each call by its clause and in one order, is one run of the
/// group, with one history, over any number of power cuts.
pub fn durable_calls_are_one_run()
    ensures { (g : Group) (moves : List CodeMove) → AreFromTheStart g moves → ShowAsOneRun g moves }
{
    laws_durable::durable_machines_are_one_run::<Command, Answer>();
}
