//! A device of a field.

ghost use Rattle.std.specs.Prelude.{◌≡◌, ◌≤◌, true, length, IfSome};
ghost use Rattle.std.specs.Option.{option_copied};
ghost use Rattle.modbus_wire.specs.Requests.{is_request};
ghost use Rattle.field_map.specs.declared.device.TheConstants.{MOST_WRITINGS};
ghost use Rattle.field_map.specs.Asking.{joined, after_some};

use crate::inputs::Inputs;
use crate::places::Places;
use crate::reading::{Fallback, Outputs, Writing};
use il_model::Cells;
use modbus_wire::{Reply, Request, Table};
use std::net::SocketAddr;

/// So many writings a device may have.
pub const MOST_WRITINGS: usize = 512;

/// One request of function 23 writes at most so many words (V1.1b3, section 6.17).
const MOST_EXCHANGED: usize = 121;

/// A Modbus server, what is read of it and what is written to it.
#[derive(Drop)]
pub struct Device {
    pub name: String,
    pub address: SocketAddr,
    /// The unit behind the address: the address itself is 255 or 0.
    pub unit: u8,
    /// In milliseconds: a reply is late after so long.
    pub timeout: u32,
    /// So often a request is asked again that has no reply.
    pub retries: u8,
    /// It has a round in every so many cycles, at least 1.
    pub every: u32,
    /// One bit of `%I`, which is TRUE while the device answers.
    pub alive: Option<Places>,
    /// What its places of `%I` have while it doesn't answer.
    pub on_loss: Fallback,
    /// Whether it's asked to write and read registers in one request (function 23), where that saves one.
    pub exchange: bool,
    /// In milliseconds: so long after all of its outputs were written they are all written again, also those that are
    /// written on changes only. 0 where none is.
    pub refresh: u32,
    /// What is read of it.
    pub inputs: Inputs,
    /// In the order of the text.
    pub writings: Vec<Writing>,
    ghost few: { length writings.items ≤ MOST_WRITINGS },
}

/// One request that writes and reads in place of two, if both are of registers that a client may write, and it can
/// carry them.
fn joined(write: Request, read: Request) -> Option<Request>
    requires write { is_request write ≡ true }
    requires read { is_request read ≡ true }
    ensures is { result ≡ joined write read }
    ensures lawful { IfSome result (λ r. is_request r ≡ true) }
{
    match (write, read) {
        (
            Request::WriteWords {
                address: write_address,
                values,
            },
            Request::ReadWords {
                table: Table::ReadWrite,
                address,
                quantity,
            },
        ) => {
            if values.len() > MOST_EXCHANGED {
                return None;
            }
            Some(Request::WriteReadWords {
                address,
                quantity,
                write_address,
                values,
            })
        }
        _ => None,
    }
}

impl Device {
    ghost use Rattle.field_map.specs.Rounds.{steps_of, asked_at, both_at, is_taken_at, taken_at, handed_inputs};
    ghost use Rattle.field_map.specs.Rounds.{handed_alive};

    /// How many steps a round has: one for each writing, and then one for each reading.
    pub fn steps(&self) -> usize
        ensures is { result ≡ steps_of self.now }
        ensures few { result ≤ 1024 }
    {
        self.writings.len() + self.inputs.readings.len()
    }

    /// The request of a step: a write as the outputs are, or by its fallback where they aren't known, or a read. None
    /// where nothing is to be written.
    pub fn ask(&self, step: usize, outputs: &Outputs) -> Option<Request>
        ensures is { result ≡ asked_at self.now step outputs.now }
        ensures lawful { IfSome result (λ r. is_request r ≡ true) }
    {
        let writings = self.writings.len();
        if step < writings {
            return self.writings[step].request(outputs);
        }
        Some(self.inputs.readings.get(step - writings)?.request())
    }

    /// One request for this step and the next, where the device is asked so: the last write and the first read, if both
    /// are of holding registers. Its reply is that of the next step.
    pub fn ask_both(&self, step: usize, outputs: &Outputs) -> Option<Request>
        ensures is { result ≡ both_at self.now step outputs.now }
        ensures lawful { IfSome result (λ r. is_request r ≡ true) }
    {
        let writings = self.writings.len();
        if !self.exchange || step >= writings || step + 1 < writings {
            return None;
        }
        joined(self.ask(step, outputs)?, self.ask(step + 1, outputs)?)
    }

    /// Takes the reply to the request of a step: of a read, lays what it shows over the cells. False where it's no
    /// reply to that: then nothing changes.
    pub fn take(&self, step: usize, reply: &Reply, gathered: &mut Cells) -> bool
        ensures is { result ≡ is_taken_at self.now step reply.now }
        ensures taken { gathered.new ≡ after_some gathered.old (taken_at self.now step reply.now) }
    {
        let writings = self.writings.len();
        if step < writings {
            return matches!(reply, Reply::Done);
        }
        match self.inputs.readings.get(step - writings) {
            Some(reading) => reading.take(reply, gathered),
            None => false,
        }
    }

    /// The request that hands its inputs over, whole: as they were gathered, or by its fallback where it doesn't
    /// answer.
    pub fn hand_inputs(&self, gathered: Option<&Cells>) -> Option<Request>
        ensures is { result ≡ handed_inputs self.now (option_copied gathered.entry) }
        ensures lawful { IfSome result (λ r. is_request r ≡ true) }
    {
        let places = self.inputs.places?;
        match (gathered, self.on_loss) {
            (Some(cells), _) => Some(places.write(places.from as u16, cells)),
            (None, Fallback::Zero) => Some(places.write(places.from as u16, &Cells::clear())),
            (None, Fallback::Hold) => None,
        }
    }

    /// The request that says whether it answers.
    pub fn hand_alive(&self, answers: bool) -> Option<Request>
        ensures is { result ≡ handed_alive self.now answers }
        ensures lawful { IfSome result (λ r. is_request r ≡ true) }
    {
        let places = self.alive?;
        Some(places.write_bit(answers))
    }
}
