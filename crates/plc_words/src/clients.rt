//! Who may come as a Modbus client, as words say it.

use crate::error::WordsError;
use crate::options::{MODBUS_ALLOW, MODBUS_READ_ONLY, READ_PORT};
use clap::ArgMatches;
use net_addresses::{Clients, NetworkFault, Networks, NetworksFault};
use plc_settings::ModbusClients;
use std::alloc::Global;

/// Who may come to a controller that is served alone.
pub(crate) fn modbus_clients(
    alloc: Global,
    inner: &ArgMatches,
) -> Result<ModbusClients, WordsError> {
    Ok(ModbusClients {
        clients: Clients {
            allowed: networks(alloc, inner, MODBUS_ALLOW)?,
            readers: networks(alloc, inner, MODBUS_READ_ONLY)?,
        },
        reading: inner.get_one::<u16>(READ_PORT),
    })
}

/// The networks that an option lists, if it's given.
fn networks(
    alloc: Global,
    inner: &ArgMatches,
    option: &str,
) -> Result<Option<Networks>, WordsError> {
    let Some(text) = inner.get_str(option) else {
        return Ok(None);
    };
    match Networks::read(alloc, text) {
        Ok(networks) => Ok(Some(networks)),
        Err(fault) => Err(refused(alloc, option, fault)?),
    }
}

/// Why a list of an option is refused.
fn refused(alloc: Global, option: &str, fault: NetworksFault) -> Result<WordsError, WordsError> {
    match fault {
        NetworksFault::Entry { entry, fault } => {
            let (number, why) = (entry.saturating_add(1), why_of(fault));
            let line = format!(in alloc; "error: --{option}: network {number}: {why}\n")?;
            Ok(WordsError::Bad(line))
        }
        NetworksFault::TooMany => {
            let line = format!(in alloc; "error: --{option}: more than 32 networks\n")?;
            Ok(WordsError::Bad(line))
        }
        NetworksFault::Memory => Ok(WordsError::Memory),
    }
}

/// What is said of a text that is no network.
fn why_of(fault: NetworkFault) -> &'static str {
    match fault {
        NetworkFault::Address => "no address of IPv4, as 10.0.0.5 or 10.0.0.0/24",
        NetworkFault::Prefix => "no number from 0 to 32 behind its '/'",
        NetworkFault::HostBits => "bits of a host are set, as in 10.0.0.5/24",
    }
}
