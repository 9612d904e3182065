//! A field: a controller's devices.

ghost use Rattle.std.specs.Prelude.{◌≡◌, ◌++◌, true};
ghost use Rattle.field_map.specs.Filled.{are_all_apart};
ghost use Rattle.field_map.specs.Field.{filled_by, own_places};
ghost use Rattle.std.specs.List.{flat_map};

use crate::device::Device;
use crate::places::Places;
use std::net::SocketAddr;

/// The devices of a controller, what goes where, and how fast.
#[derive(Drop)]
pub struct FieldMap {
    /// Tried in turn. At least one.
    pub controllers: Vec<SocketAddr>,
    /// In milliseconds: from cycle to cycle.
    pub cycle: u32,
    /// In milliseconds: the controller's outputs count as known for so long after it answered.
    pub fresh: u32,
    /// In milliseconds: an answer of the controller is late after so long.
    pub controller_timeout: u32,
    /// In milliseconds: a scan of the controller takes so long, where no word counts them.
    pub scan: u32,
    /// A word of `%Q` that the program changes in each scan, if it has one.
    pub scan_count: Option<Places>,
    /// A word of `%I` that each cycle counts up, if one does.
    pub beat: Option<Places>,
    /// A bit of `%I` that says that inputs are real, if one does.
    pub ready: Option<Places>,
    /// The path of the socket by which whoever runs it is asked to stop, if it can be.
    pub control: Option<String>,
    pub devices: Vec<Device>,
    ghost apart: { are_all_apart (own_places beat ready ++ flat_map filled_by devices.items) ≡ true },
}
