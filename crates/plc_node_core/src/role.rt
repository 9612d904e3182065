//! What a node is in its group.

ghost use Rattle.std.specs.Prelude.{◌≡◌, true};
ghost use Rattle.plc_node_core.specs.Quiet.{may_inherit};

use crate::scan_client::ScanClient;
use crate::tries::Tries;
use il_model::InImage;

/// What a node is to do next about its port, its stage and its scans. Each is told back by a call, so the next action
/// is another one.
#[derive(Clone, Copy, Debug, PartialEq, Eq)]
pub enum Action {
    /// The stage gets the inputs that the node inherits: `Role::fill`.
    Fill,
    /// The scan of a sample of the stage is submitted: `Role::submit`.
    Submit,
    /// The request that waits goes to every replica: `Role::again`.
    Again,
    /// The port closes, with each of its sessions: `Role::closed`.
    Close,
    /// The port opens in this view: `Role::opened`, or `Role::refused`.
    Open(u64),
}

/// What a node knows of its port.
#[derive(Clone, Copy, PartialEq, Eq)]
pub struct PortState {
    pub(crate) is_open: bool,
    /// How often it was refused.
    pub(crate) tries: Tries,
}

/// What a node is in its group: what it submits while it leads, what its stage inherits, and its port.
#[derive(Drop)]
pub struct Role {
    pub(crate) scans: ScanClient,
    /// Where it began to lead, the inputs of the last scan: the stage has to have them before the next one.
    pub(crate) inherited: Option<InImage>,
    pub(crate) port: PortState,
    ghost quiet: { may_inherit inherited scans.driver ≡ true },
}
