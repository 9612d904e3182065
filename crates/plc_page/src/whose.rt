//! What a page is of.

ghost use Rattle.std.specs.Prelude.{◌≡◌, ◌≤◌};
ghost use Rattle.plc_page.specs.Sources.{first_of, machine_of};

use plc_figures::Machine;
use plc_status::MachineStatus;
use std::ops::Range;

/// What a page is of.
#[derive(Clone, Copy, Debug, PartialEq, Eq)]
pub enum Whose {
    /// Of a group of so many replicas, each of which shows.
    Group(u8),
    /// Of the machine of a group with this number: its own replica shows, which has the same number, and no other.
    Machine(u8),
}

impl Whose {
    /// The numbers of the replicas that show.
    pub(crate) fn replicas(self) -> Range<u8>
        ensures first { result.start ≡ first_of self }
        ensures ordered { result.start ≤ result.end }
    {
        match self {
            Whose::Group(count) => 0..count,
            Whose::Machine(number) => number..number.saturating_add(1),
        }
    }

    /// The machine, if it's of one, by what is published of it.
    pub(crate) fn machine(self, published: Option<MachineStatus>) -> Option<Machine>
        ensures { result ≡ machine_of self published }
    {
        let Whose::Machine(number) = self else {
            return None;
        };
        let published = published?;
        Some(Machine {
            number,
            epoch: published.epoch,
            is_driving: published.is_driving,
            heard: published.heard,
            others: published.others,
            has_majority: published.has_majority,
            forged: published.forged,
        })
    }
}
