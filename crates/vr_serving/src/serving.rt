//! The loop of a thread that owns a replica.

ghost use Rattle.std.specs.Prelude.{◌≡◌};
ghost use Rattle.vr_ports.specs.Parties.{Grows};
ghost use Rattle.vr_replica.specs.Stepped.{StepResult};
ghost use Rattle.vr_serving.specs.Serving.{StepsTo, Served, Turned, sends_in, scene};
ghost use Rattle.vr_serving.specs.Showing.{ShowsStep, KeepsShowing, IsStandingOf, is_store_fault};

use crate::observer::Observer;
use crate::seat::Seat;
use std::alloc::Global;
use vr_model::{Event, Sends, Standing};
use vr_ports::{Input, Link, Tick, Timer, send_all};
use vr_replica::{Replica, StepFault, ViewStore};
use vr_shown::ShownWriter;

/// Serves a replica for so many turns, or fewer where a receive gives Closed. Each turn takes one event at most, the
/// timer's first, hands on what `Replica::step` makes of it, and shows what the replica is then, to its timer as well.
/// The gate counts the steps from 1, and looks at the replica behind each of them.
pub fn serve<L: Link, S: ViewStore, T: Timer, G: Observer>(
    alloc: Global,
    replica: &mut Replica,
    seat: &mut Seat<L, S, T, G>,
    shown: &mut ShownWriter,
    turns: u64,
)
    ensures served { Served S.load_gives S.save_gives S.faults turns
        (scene (T.ticks seat.old.timer) (L.inputs seat.old.link) (L.sent seat.old.link) replica.old seat.old.store)
        (scene (T.ticks seat.new.timer) (L.inputs seat.new.link) (L.sent seat.new.link) replica.new seat.new.store) }
    ensures shown { KeepsShowing replica.old replica.new shown.old shown.new }
{
    serve_from(1, alloc, replica, seat, shown, turns);
}

/// Serves a replica as `serve` does, where the gate counts from this call.
pub fn serve_from<L: Link, S: ViewStore, T: Timer, G: Observer>(
    first: u64,
    alloc: Global,
    replica: &mut Replica,
    seat: &mut Seat<L, S, T, G>,
    shown: &mut ShownWriter,
    turns: u64,
)
    ensures served { Served S.load_gives S.save_gives S.faults turns
        (scene (T.ticks seat.old.timer) (L.inputs seat.old.link) (L.sent seat.old.link) replica.old seat.old.store)
        (scene (T.ticks seat.new.timer) (L.inputs seat.new.link) (L.sent seat.new.link) replica.new seat.new.store) }
    ensures shown { KeepsShowing replica.old replica.new shown.old shown.new }
{
    let mut call = first;
    for _ in 0..turns {
        if !turn(alloc, replica, seat, shown, &mut call) {
            return;
        }
    }
}

/// One turn. False where the link is closed.
fn turn<L: Link, S: ViewStore, T: Timer, G: Observer>(
    alloc: Global,
    replica: &mut Replica,
    seat: &mut Seat<L, S, T, G>,
    shown: &mut ShownWriter,
    call: &mut u64,
) -> bool
    ensures turned { Turned S.load_gives S.save_gives S.faults result
        (scene (T.ticks seat.old.timer) (L.inputs seat.old.link) (L.sent seat.old.link) replica.old seat.old.store)
        (scene (T.ticks seat.new.timer) (L.inputs seat.new.link) (L.sent seat.new.link) replica.new seat.new.store) }
    ensures shown { KeepsShowing replica.old replica.new shown.old shown.new }
{
    match seat.timer.poll() {
        Tick::Timeout => act(alloc, replica, seat, shown, call, Event::Timeout),
        Tick::Resend => act(alloc, replica, seat, shown, call, Event::Resend),
        Tick::None => match seat.link.recv() {
            Input::Message(message) => {
                seat.timer.heard(&message);
                act(alloc, replica, seat, shown, call, Event::Message(message));
            }
            Input::Nothing => {}
            Input::Closed => return false,
        },
    }
    true
}

/// One step of the replica, inside the gate, which looks at it then, and behind that its sends.
pub fn act<L: Link, S: ViewStore, T: Timer, G: Observer>(
    alloc: Global,
    replica: &mut Replica,
    seat: &mut Seat<L, S, T, G>,
    shown: &mut ShownWriter,
    call: &mut u64,
    event: Event,
)
    ensures did { (result : StepResult)
        × StepsTo S.load_gives S.save_gives S.faults replica.old seat.old.store event replica.new seat.new.store result
        × Grows (L.sent seat.old.link) (L.sent seat.new.link) (sends_in result)
        × ShowsStep replica.new result shown.old shown.new }
    ensures inputs { L.inputs seat.new.link ≡ L.inputs seat.old.link }
    ensures ticks { T.ticks seat.new.timer ≡ T.ticks seat.old.timer }
{
    seat.gate.before(*call);
    let stepped = replica.step(alloc, event, &mut seat.store);
    seat.gate.observe(replica);
    tell(replica, seat, shown, call, stepped);
}

/// Shows what a replica is behind a step, and hands on what that sends. The gate has looked at it by then: whoever
/// reads or hears of it finds what the gate saw to.
fn tell<L: Link, S, T: Timer, G: Observer>(
    replica: &Replica,
    seat: &mut Seat<L, S, T, G>,
    shown: &mut ShownWriter,
    call: &mut u64,
    stepped: Result<Sends, StepFault>,
)
    requires seen { G.has_seen seat.old.gate replica.now }
    ensures sent { Grows (L.sent seat.old.link) (L.sent seat.new.link) (sends_in stepped) }
    ensures shown { ShowsStep replica.now stepped shown.old shown.new }
    ensures store { seat.new.store ≡ seat.old.store }
    ensures inputs { L.inputs seat.new.link ≡ L.inputs seat.old.link }
    ensures ticks { T.ticks seat.new.timer ≡ T.ticks seat.old.timer }
{
    let standing = standing_of(replica);
    shown.show_step(standing, is_store_fault(&stepped), seat.link.frameless());
    seat.timer.stepped(standing);
    seat.gate.after(*call, standing);
    *call = call.saturating_add(1);
    if let Ok(sends) = stepped {
        send_all(&mut seat.link, sends);
    }
}

/// What a replica shows of itself.
fn standing_of(replica: &Replica) -> Standing
    ensures { IsStandingOf replica.now result }
{
    replica.standing()
}

/// Whether the store failed in a step.
fn is_store_fault(stepped: &Result<Sends, StepFault>) -> bool
    ensures { result ≡ is_store_fault stepped.now }
{
    matches!(stepped, Err(StepFault::Store))
}
