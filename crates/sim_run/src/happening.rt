//! What happens in a run.

use node_core::{HostDeed, HostEvent};
use sim_machine::{Owner, Segment};
use vr_model::Message;

/// What happens.
#[derive(Drop)]
pub(crate) enum Happening {
    /// Something at the machine of this number.
    At(u8, Event),
    /// Clients write, and read; an operator forces something or takes that back.
    Write,
    Read,
    Operate,
    /// It's looked how far the run is.
    Plan,
    /// A fault between machines ends.
    Ends(Trouble),
}

/// What happens at a machine.
#[derive(Drop)]
pub(crate) enum Event {
    /// A segment comes.
    Arrives(Box<Segment>),
    /// Its process starts.
    Boots,
    /// Its disk has room again, or is as quick as before.
    HasRoom,
    IsQuick,
    /// Something for this process, or this life of it.
    Has(Owner, Task),
}

/// What a process of a machine has to do.
#[derive(Drop)]
pub(crate) enum Task {
    /// It has a turn.
    Turn,
    /// The first write that waits at its disk is flushed.
    Flush,
    /// Something comes to its replica's thread.
    Host(Box<HostEvent>),
    /// A view is to be saved by now.
    Saved(Save),
    /// Something comes to its driver.
    Driver(Box<Message>),
}

/// A replica's thread that waits for a save of a view.
#[derive(Drop)]
pub(crate) struct Save {
    /// What it does then.
    pub(crate) deeds: Vec<HostDeed>,
    /// If that fails, it's tried again after so long.
    pub(crate) pause: u64,
}

/// A fault between machines.
#[derive(Clone, Copy)]
pub(crate) enum Trouble {
    /// Nothing goes from one machine to another, nor back, if both ways are blocked.
    Blocked { one: u8, other: u8, is_both: bool },
    /// Segments are lost.
    Loss,
    /// Segments take longer, or now more time, now less.
    Delay,
    Reorder,
}

/// How far a run is.
#[derive(Clone, Copy, Debug, PartialEq, Eq)]
pub(crate) enum Act {
    /// Faults come until then.
    Faults { until: u64 },
    /// All is well again since then: soon outputs are to be there.
    Heals { since: u64 },
    Calm { until: u64 },
    /// The machine that leads was killed.
    TakesOver { since: u64, machine: u8 },
    /// All were cut off.
    Dark { since: u64 },
}
