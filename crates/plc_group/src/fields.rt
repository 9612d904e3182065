//! What stands at a key of a table.

ghost use Rattle.std.specs.Prelude.{◌≡◌, ◌≤◌, IfOk, ⊤, false, find, None, Some};
ghost use Rattle.std.specs.Prelude.{option_copied, option_map, string_bytes, unwrap_or};
ghost use Rattle.std.specs.BTreeMap.{keys};
ghost use Rattle.toml.specs.Data.{as_bool, get_member};
ghost use Rattle.toml.specs.View.{view, table_view};
ghost use Rattle.plc_group.specs.Faults.{Judges, is_unknown, keys_in, needed_faults, unknown_faults, wanted_faults};
ghost use Rattle.plc_group.specs.Values.{is_among, word_of, address_of, cold_start_of, console_key_of, path_of};
ghost use Rattle.plc_group.specs.Values.{identity_of, name_of, networks_of, number_in, number_or, value_at};

use crate::fault::{GroupFault, Why};
use crate::group::ColdStart;
use crate::key::{Key, Range};
use crate::values::{
    address_of, cold_start_of, console_key_of, identity_of, name_of, networks_of, number_in,
    path_of,
};
use net_addresses::Networks;
use std::alloc::Global;
use std::net::SocketAddr;
use toml::{Table, Value};

/// The value at a key.
pub(crate) fn value_at(table: &Table, key: Key) -> Option<&Value>
    ensures { option_map (λ v. view v.now) result ≡ get_member (word_of key) (table_view table.now) }
{
    table.get(key.word())
}

/// The first key of a table, in the order of their bytes, that is none of these.
fn unknown_key<'a>(table: &'a Table, known: &[Key]) -> Option<&'a str>
    ensures { option_copied result ≡ find (is_unknown known.now) (keys_in (table_view table.now)) }
{
    match unknown_word(table, known) {
        Some(word) => Some(word.as_str()),
        None => None,
    }
}

fn unknown_word<'a>(table: &'a Table, known: &[Key]) -> Option<&'a String>
    ensures { option_copied result ≡ find (λ word. is_unknown known.now (string_bytes word)) (keys table.now) }
{
    table.keys().find(|word| !is_among(word.as_str(), known))
}

fn is_among(word: &str, known: &[Key]) -> bool
    ensures { result ≡ is_among known.now word.now }
{
    known.iter().any(|key| key.word() == word)
}

/// Refuses a table that has a key that is none of these.
pub(crate) fn refuse_unknown(
    alloc: Global,
    table: &Table,
    known: &[Key],
    machine: Option<usize>,
) -> Result<(), GroupFault>
    ensures { Judges (unknown_faults machine known.now (table_view table.now)) (λ _. ⊤) result }
{
    match unknown_key(table, known) {
        Some(key) => Err(GroupFault::Unknown {
            machine,
            key: String::from_str(alloc, key)?,
        }),
        None => Ok(()),
    }
}

/// What is wrong at a key.
pub(crate) fn wrong(machine: Option<usize>, key: Key, why: Why) -> GroupFault
    ensures { result ≡ GroupFault.At machine key why }
{
    GroupFault::At { machine, key, why }
}

/// The number at a key, or the one that is taken where nothing stands there.
pub(crate) fn number(table: &Table, key: Key, range: Range, default: u32) -> Result<u32, GroupFault>
    ensures judged { Judges (wanted_faults (number_in range) None key (table_view table.now))
        (λ n. n ≡ number_or default range key (table_view table.now)) result }
    ensures within { range.least ≤ default → default ≤ range.most
        → IfOk result (λ n. (range.least ≤ n) × (n ≤ range.most)) }
{
    match value_at(table, key) {
        Some(value) => match number_in(value, range) {
            Some(number) => Ok(number),
            None => Err(wrong(None, key, Why::Refused)),
        },
        None => Ok(default),
    }
}

/// The name of the group.
pub(crate) fn name(alloc: Global, table: &Table) -> Result<String, GroupFault>
    ensures { Judges (needed_faults name_of None Key.Name (table_view table.now))
        (λ s. value_at name_of Key.Name (table_view table.now) ≡ Some (string_bytes s)) result }
{
    let Some(value) = value_at(table, Key::Name) else {
        return Err(wrong(None, Key::Name, Why::Missing));
    };
    match name_of(value) {
        Some(name) => Ok(String::from_str(alloc, name)?),
        None => Err(wrong(None, Key::Name, Why::Refused)),
    }
}

/// The identity of the group.
pub(crate) fn identity(table: &Table) -> Result<[u8; 16], GroupFault>
    ensures { Judges (needed_faults identity_of None Key.Identity (table_view table.now))
        (λ i. value_at identity_of Key.Identity (table_view table.now) ≡ Some i) result }
{
    let Some(value) = value_at(table, Key::Identity) else {
        return Err(wrong(None, Key::Identity, Why::Missing));
    };
    match identity_of(value) {
        Some(identity) => Ok(identity),
        None => Err(wrong(None, Key::Identity, Why::Refused)),
    }
}

/// What a console asks for first, if anything.
pub(crate) fn console_key(alloc: Global, table: &Table) -> Result<Option<String>, GroupFault>
    ensures { Judges (wanted_faults console_key_of None Key.ConsoleKey (table_view table.now))
        (λ o. value_at console_key_of Key.ConsoleKey (table_view table.now) ≡ option_map string_bytes o) result }
{
    let Some(value) = value_at(table, Key::ConsoleKey) else {
        return Ok(None);
    };
    match console_key_of(value) {
        Some(key) => Ok(Some(String::from_str(alloc, key)?)),
        None => Err(wrong(None, Key::ConsoleKey, Why::Refused)),
    }
}

/// The directory of the sockets of consoles, if they have sockets.
pub(crate) fn console_sockets(alloc: Global, table: &Table) -> Result<Option<String>, GroupFault>
    ensures { Judges (wanted_faults path_of None Key.ConsoleSockets (table_view table.now))
        (λ o. value_at path_of Key.ConsoleSockets (table_view table.now) ≡ option_map string_bytes o) result }
{
    let Some(value) = value_at(table, Key::ConsoleSockets) else {
        return Ok(None);
    };
    match path_of(value) {
        Some(path) => Ok(Some(String::from_str(alloc, path)?)),
        None => Err(wrong(None, Key::ConsoleSockets, Why::Refused)),
    }
}

/// The file of the group's key, if it has one.
pub(crate) fn key_file(alloc: Global, table: &Table) -> Result<Option<String>, GroupFault>
    ensures { Judges (wanted_faults path_of None Key.KeyFile (table_view table.now))
        (λ o. value_at path_of Key.KeyFile (table_view table.now) ≡ option_map string_bytes o) result }
{
    let Some(value) = value_at(table, Key::KeyFile) else {
        return Ok(None);
    };
    match path_of(value) {
        Some(path) => Ok(Some(String::from_str(alloc, path)?)),
        None => Err(wrong(None, Key::KeyFile, Why::Refused)),
    }
}

/// Whether others may reach the replicas of a group without a key.
pub(crate) fn insecure(table: &Table) -> Result<bool, GroupFault>
    ensures { Judges (wanted_faults as_bool None Key.Insecure (table_view table.now))
        (λ b. b ≡ unwrap_or (value_at as_bool Key.Insecure (table_view table.now)) false) result }
{
    match value_at(table, Key::Insecure) {
        Some(value) => match value.as_bool() {
            Some(is_so) => Ok(is_so),
            None => Err(wrong(None, Key::Insecure, Why::Refused)),
        },
        None => Ok(false),
    }
}

/// A list of networks, if there is one.
pub(crate) fn networks(
    alloc: Global,
    table: &Table,
    key: Key,
) -> Result<Option<Networks>, GroupFault>
    ensures { Judges (wanted_faults networks_of None key (table_view table.now))
        (λ o. value_at networks_of key (table_view table.now) ≡ option_map (λ n. n.networks.items) o) result }
{
    let Some(value) = value_at(table, key) else {
        return Ok(None);
    };
    match networks_of(alloc, value)? {
        Some(networks) => Ok(Some(networks)),
        None => Err(wrong(None, key, Why::Refused)),
    }
}

/// What is done at a cold start: it begins by itself, where nothing is said.
pub(crate) fn cold_start(table: &Table) -> Result<ColdStart, GroupFault>
    ensures { Judges (wanted_faults cold_start_of None Key.ColdStart (table_view table.now))
        (λ c. c ≡ unwrap_or (value_at cold_start_of Key.ColdStart (table_view table.now)) ColdStart.Auto) result }
{
    match value_at(table, Key::ColdStart) {
        Some(value) => match cold_start_of(value) {
            Some(cold_start) => Ok(cold_start),
            None => Err(wrong(None, Key::ColdStart, Why::Refused)),
        },
        None => Ok(ColdStart::Auto),
    }
}

/// The address that a machine has to have.
pub(crate) fn needed_address(
    table: &Table,
    key: Key,
    machine: usize,
) -> Result<SocketAddr, GroupFault>
    ensures { Judges (needed_faults address_of (Some machine) key (table_view table.now))
        (λ a. value_at address_of key (table_view table.now) ≡ Some a) result }
{
    let Some(value) = value_at(table, key) else {
        return Err(wrong(Some(machine), key, Why::Missing));
    };
    match address_of(value) {
        Some(address) => Ok(address),
        None => Err(wrong(Some(machine), key, Why::Refused)),
    }
}

/// An address that a machine may have.
pub(crate) fn wanted_address(
    table: &Table,
    key: Key,
    machine: usize,
) -> Result<Option<SocketAddr>, GroupFault>
    ensures { Judges (wanted_faults address_of (Some machine) key (table_view table.now))
        (λ a. value_at address_of key (table_view table.now) ≡ a) result }
{
    let Some(value) = value_at(table, key) else {
        return Ok(None);
    };
    match address_of(value) {
        Some(address) => Ok(Some(address)),
        None => Err(wrong(Some(machine), key, Why::Refused)),
    }
}
