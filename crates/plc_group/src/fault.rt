//! Why a file is no group.

ghost use Rattle.std.specs.Prelude.{◌≡◌};
ghost use Rattle.plc_group.specs.declared.fault.GroupFault.TheVariants.{Memory};

use crate::key::Key;
use std::alloc::{AllocError, AllocFailed};

/// What is wrong at a key.
#[derive(Clone, Copy, Debug, PartialEq, Eq)]
pub enum Why {
    /// It has to be there.
    Missing,
    /// Its value is none that it takes.
    Refused,
    /// Its address stands before it too.
    Twice,
    /// It's below a period and 20, so outputs would come and go with each scan.
    BelowPeriod,
    /// It's above a fifth of the patience, so a machine that leads would be given up.
    AbovePatience,
    /// Its address stands for each one of the machine, and the others can't reach it by that.
    Everywhere,
    /// A machine has a console at a port beside it.
    BesidePorts,
    /// It's no loopback address, and the group has no key.
    WithoutKey,
}

/// Why a file is no group. A machine goes by its place in the file, from 0; outside machines there is none.
#[derive(Debug, Drop)]
pub enum GroupFault {
    /// The bytes are no TOML 1.1 in UTF-8, by what stands at a place. Line and column are from 1.
    Toml {
        line: usize,
        column: usize,
    },
    /// A key that no group has.
    Unknown {
        machine: Option<usize>,
        key: String,
    },
    /// A key, and what is wrong there.
    At {
        machine: Option<usize>,
        key: Key,
        why: Why,
    },
    /// Memory ran out.
    Memory,
}

impl From<AllocError> for GroupFault {
    ghost from_gives = { λ _ e. e ≡ Memory };

    fn from(_error: AllocError) -> GroupFault {
        GroupFault::Memory
    }
}

impl<T: Drop> From<AllocFailed<T>> for GroupFault {
    ghost from_gives = { λ _ e. e ≡ Memory };

    fn from(_failed: AllocFailed<T>) -> GroupFault {
        GroupFault::Memory
    }
}
