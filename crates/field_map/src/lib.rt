//! A field: the Modbus devices of a controller, which of their cells go to which places of `%I`, and which places of
//! `%Q` go to which of theirs. It's read from a text in TOML, and says what a device is asked and what is handed over
//! of it. It knows no socket and no time.
//!
//! ```rust
//! let map = FieldMap::read(alloc, text)?; // or the first fault, as `device 1 read 2 to: a place that is filled twice`
//! let device = map.devices.first()?;
//! let outputs = Outputs { known: Some(cells), written: None }; // what it's to have, and what it has already
//! let request = device.ask(0, &outputs)?; // its first write, or its first read
//! let is_reply = device.take(0, &reply, &mut gathered); // what is shown is laid over `gathered`, at its places
//! let inputs = device.hand_inputs(Some(&gathered)); // one request to the controller; by the fallback for None
//! let alive = device.hand_alive(true);
//! ```
//!
//! Proved: a map that is read has each place of `%I` filled once at most, ranges inside their areas and lawful
//! requests; each request and each thing taken of a reply is that of `specs/Asking` and `specs/Rounds`, also where two
//! registers are a value of 32 bits (`specs/Layouts`), and where a write goes out on changes only. Where the
//! devices of a map were handed over, each place that a reading fills has what was gathered there, or what its device's
//! fallback says, each alive bit says whether its device answers, and no other place is written (`know_each_place`);
//! what is gathered of replies has at each place the value that was read for it (`know_each_reading`). So after a cycle
//! each place has what its device answered for it, or what the fallback of a lost device says (`know_a_cycle`).
//!
//! By its code alone, and shown by rows (`fields.rows` of `tools/try/words`): which key says what, and that a fault is
//! told by its own.
#![tactic(auto)]

mod device;
mod fault;
mod field;
mod filled;
mod inputs;
mod judging;
mod laws;
mod layout;
mod places;
mod reading;
mod requests;
mod section;
mod text;

pub use device::{Device, MOST_WRITINGS};
pub use fault::{FieldFault, Spot, Why};
pub use field::FieldMap;
pub use inputs::Inputs;
pub use laws::{know_a_cycle, know_each_place, know_each_reading};
pub use layout::{Form, Layout};
pub use places::{Kind, Places};
pub use reading::{Fallback, Outputs, Reading, Writing};
