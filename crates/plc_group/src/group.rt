//! A group of machines, as its file says it.

ghost use Rattle.std.specs.Prelude.{◌≡◌, vec_len};
ghost use Rattle.vr_model.specs.Groups.{group_size};

use il_model::Budget;
use net_addresses::Clients;
use std::net::SocketAddr;
use vr_model::Config;

/// Where a machine is reached.
#[derive(Clone, Copy, PartialEq, Eq)]
pub struct Machine {
    /// By the other machines.
    pub replica: SocketAddr,
    /// By Modbus clients.
    pub modbus: SocketAddr,
    /// By Modbus clients who only read, if there's a port for them.
    pub modbus_read: Option<SocketAddr>,
    /// By an operator's console, if it has one.
    pub console: Option<SocketAddr>,
    /// By who asks for its status, if it's shown.
    pub status: Option<SocketAddr>,
}

/// How long a machine waits.
#[derive(Clone, Copy, Debug, PartialEq, Eq)]
pub struct Times {
    /// In milliseconds: a backup that hears nothing of its primary for so long begins a view change.
    pub patience: u32,
    /// In milliseconds: what may have been lost is sent again. At most a fifth of the patience.
    pub resend: u32,
    /// In milliseconds: outputs are shown for so long after their scan was submitted. At least a period and 20.
    pub fresh: u32,
    /// In seconds: a session ends whose client sends nothing, or takes nothing, for so long.
    pub idle: u32,
}

/// What a group does whose replicas have lost their memory together.
#[derive(Clone, Copy, Debug, PartialEq, Eq)]
pub enum ColdStart {
    /// It begins anew by itself.
    Auto,
    /// It waits for an operator.
    ByHand,
}

/// A group of machines.
#[derive(Drop)]
pub struct Group {
    /// From 1 to 64 visible bytes of ASCII.
    pub name: String,
    /// Drawn for this group alone: names are copied with the file.
    pub identity: [u8; 16],
    /// How many machines there are, and how often their replicas make checkpoints.
    pub config: Config,
    /// How many instructions a scan may perform.
    pub budget: Budget,
    /// In milliseconds, from one scan to the next.
    pub period: u32,
    pub times: Times,
    pub cold_start: ColdStart,
    /// What a console asks for first, if anything: from 8 to 128 visible bytes of ASCII.
    pub console_key: Option<String>,
    /// The directory in which the console of machine I is the socket `console-I`, in place of a port, if that's so.
    pub console_sockets: Option<String>,
    /// The file of the key by which its machines know each other, if it has one.
    pub key_file: Option<String>,
    /// Whether its machines may reach each other over a network without a key.
    pub is_insecure: bool,
    /// Who may be a Modbus client, and who of them may only read, by the addresses that they come from.
    pub clients: Clients,
    pub machines: Vec<Machine>,
    ghost one_each: { vec_len machines ≡ group_size config.f },
}
