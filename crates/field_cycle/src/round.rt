//! One round of a device: what is written there, and then what is read.

ghost use Rattle.std.specs.Prelude.{◌≡◌, ◌<◌, ◌≤◌, true, None, IfNone, IfSome};
ghost use Rattle.modbus_wire.specs.Requests.{is_request};
ghost use Rattle.field_map.specs.Rounds.{asked_at, steps_of, is_taken_at};
ghost use Rattle.field_cycle.specs.Rounds.{begun, only_reading, taken, Advances, ArePassed, Asks, Reaches};

use field_map::{Device, Outputs};
use il_model::Cells;
use modbus_wire::{Reply, Request};

/// A request, and the step whose reply it has.
#[derive(Drop)]
struct Found {
    step: usize,
    request: Request,
}

/// What is asked at a step, by itself or with the one behind it.
fn asked(device: &Device, step: usize, outputs: &Outputs) -> Option<Found>
    requires { step < 1024 }
    ensures asked { IfSome result (λ f. Asks device.now outputs.now f.step f.request) }
    ensures lawful { IfSome result (λ f. is_request f.request ≡ true) }
    ensures reached { IfSome result (λ f. Reaches device.now outputs.now step f.step) }
    ensures none { IfNone result (asked_at device.now step outputs.now ≡ None) }
{
    if let Some(request) = device.ask_both(step, outputs) {
        return Some(Found {
            step: step + 1,
            request,
        });
    }
    let request = device.ask(step, outputs)?;
    Some(Found { step, request })
}

/// What is asked next, from a step on.
#[tactic(auto, using(crate::proofs::Passing::passed_more, crate::proofs::Passing::passed_to))]
fn ahead(device: &Device, from: usize, outputs: &Outputs) -> Option<Found>
    ensures asked { IfSome result (λ f. Asks device.now outputs.now f.step f.request) }
    ensures lawful { IfSome result (λ f. is_request f.request ≡ true) }
    ensures passed { IfSome result (λ f. ArePassed device.now outputs.now from f.step) }
    ensures none { IfNone result (ArePassed device.now outputs.now from (steps_of device.now)) }
{
    for step in from..device.steps() {
        if let Some(found) = asked(device, step, outputs) {
            return Some(found);
        }
    }
    None
}

/// How far a round came.
#[derive(Clone, Copy)]
pub struct Round {
    /// What the device is to have, and has.
    pub outputs: Outputs,
    /// The step whose reply comes next.
    pub step: usize,
    /// What was read so far, at its places.
    pub gathered: Cells,
}

impl Round {
    /// Nothing is written yet, and nothing read.
    pub fn new(outputs: Outputs) -> Round
        ensures { result ≡ begun outputs }
    {
        Round {
            outputs,
            step: 0,
            gathered: Cells::clear(),
        }
    }

    /// One that writes nothing: it begins with the readings.
    pub fn only_reading(device: &Device) -> Round
        ensures { result ≡ only_reading device.now }
    {
        Round {
            outputs: Outputs {
                known: None,
                written: None,
            },
            step: device.writings.len(),
            gathered: Cells::clear(),
        }
    }

    /// The request of the next step that has one; none where the round is whole. A request for two steps is that of the
    /// later one.
    pub fn next(&mut self, device: &Device) -> Option<Request>
        ensures asked { IfSome result (λ r. Asks device.now self.new.outputs self.new.step r) }
        ensures lawful { IfSome result (λ r. is_request r ≡ true) }
        ensures whole { IfNone result (steps_of device.now ≤ self.new.step) }
        ensures skips { Advances device.now self.old self.new }
    {
        match ahead(device, self.step, &self.outputs) {
            Some(found) => {
                self.step = found.step;
                Some(found.request)
            }
            None => {
                self.step = self.step.max(device.steps());
                None
            }
        }
    }

    /// Takes the reply to the request of its step, and goes on to the next. False where it's no reply to that: then
    /// nothing changes.
    pub fn take(&mut self, device: &Device, reply: &Reply) -> bool
        ensures is { result ≡ is_taken_at device.now self.old.step reply.now }
        ensures taken { self.new ≡ taken device.now self.old reply.now }
    {
        let is_taken = device.take(self.step, reply, &mut self.gathered);
        if is_taken {
            self.step = self.step.saturating_add(1);
        }
        is_taken
    }
}
