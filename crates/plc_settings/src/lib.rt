//! How `plc serve` serves a controller: one value, which the words of a call are read into and the service is opened
//! with.
//!
//! ```rust
//! use plc_settings::{Links, Settings};
//!
//! // Two scans of a group of three, 100 ms apart, at port 5020, and then the end.
//! let settings = Settings {
//!     config: Config::new(1, 64)?,
//!     budget: Budget::new(10_000)?,
//!     port: 5020,
//!     period: 100,
//!     scans: Some(2),
//!     idle: 300,
//!     links: Links::Tcp,
//!     crash: None,
//!     lost_after: 60,
//!     console: None,
//!     stale: None,
//!     status: None,
//! };
//! ```
//!
//! Proved: that two settings are told to be equal only where they are. There is nothing else here to prove.
//!
//! Tests: `words.rows` of `tests_rows` has the settings that words come to.
#![tactic(auto)]

use il_model::Budget;
use net_addresses::Clients;
use std::net::SocketAddr;
use vr_model::Config;

/// How messages go from one replica of a group to another.
#[derive(Clone, Copy, Debug, PartialEq, Eq)]
pub enum Links {
    /// Over connections of TCP on this machine.
    Tcp,
    /// Through channels of this process.
    Channels,
}

/// Where an operator's console is served.
#[derive(Clone, Copy, Debug, PartialEq, Eq)]
pub enum ConsoleAt {
    /// At this port of 127.0.0.1.
    Port(u16),
    /// At a socket whose path `Operators` has.
    Socket,
}

/// How operators come to a console.
#[derive(Drop)]
pub struct Operators {
    /// The path of a socket that its owner alone can reach, in place of a port.
    pub path: Option<String>,
    /// The word that an operator tells first, if one is asked for.
    pub key: Option<Vec<u8>>,
}

impl Operators {
    /// They come by a port, if by any, and no word is asked for.
    pub fn by_port() -> Operators {
        Operators {
            path: None,
            key: None,
        }
    }
}

/// Who may come to a controller as a Modbus client.
#[derive(Drop, PartialEq, Eq)]
pub struct ModbusClients {
    /// By the addresses that they come from.
    pub clients: Clients,
    /// A further port of 127.0.0.1, at which everybody only reads, if one is wanted.
    pub reading: Option<u16>,
}

impl ModbusClients {
    /// Everybody, to read and to write, by one port.
    pub fn all() -> ModbusClients {
        ModbusClients {
            clients: Clients::all(),
            reading: None,
        }
    }
}

/// How a controller is served.
#[derive(Clone, Copy, PartialEq, Eq)]
pub struct Settings {
    /// The size of the group, and how often its replicas make checkpoints.
    pub config: Config,
    /// How many instructions a scan may perform.
    pub budget: Budget,
    /// Of 127.0.0.1; port 0 is any that is free.
    pub port: u16,
    /// In milliseconds, from 1: with 0 the driver never rests, and asks again after each message.
    pub period: u32,
    /// After so many scans it ends; without a number it goes on until it's interrupted or the group is lost.
    pub scans: Option<u32>,
    /// In seconds, from 1: a session ends whose client sends nothing, or takes nothing, for so long.
    pub idle: u32,
    pub links: Links,
    /// After so many releases, from 1, one of the replicas crashes and is at once restarted, if that is asked for.
    pub crash: Option<u32>,
    /// In seconds: the group is lost after so long with fewer than f+1 replicas that are normal, and it ends.
    pub lost_after: u32,
    /// Where an operator's console is served, if one is.
    pub console: Option<ConsoleAt>,
    /// In milliseconds, from 1: outputs aren't shown that were released longer ago, if that is asked for.
    pub stale: Option<u32>,
    /// Where what shows is served to browsers and to Prometheus, if it is.
    pub status: Option<SocketAddr>,
}
