//! What a value of the file is read as.

ghost use Rattle.std.specs.Prelude.{◌≡◌, ◌↔◌, ℕ, IfOk, List, [], Some, map, option_copied, option_map};
ghost use Rattle.std.specs.List.{list_all};
ghost use Rattle.std.specs.Net.Grammar.{IsSocketText};
ghost use Rattle.toml.specs.View.{view};
ghost use Rattle.plc_group.specs.Values.{address_in, address_of, cold_start_of, console_key_of, path_of, identity_in};
ghost use Rattle.plc_group.specs.Values.{identity_of, is_console_key, is_path, is_name, is_size, is_visible};
ghost use Rattle.plc_group.specs.Values.{added, machines_of, name_of, networks_from, networks_of, number_in, with_value};
ghost use Rattle.plc_group.specs.Values.{written_address};

use crate::group::ColdStart;
use crate::key::Range;
use net_addresses::{Networks, NetworksFault};
use std::alloc::{AllocError, Global};
use std::net::SocketAddr;
use toml::Value;

/// The longest name, in bytes.
pub(crate) const LONGEST_NAME: usize = 64;

/// A number of this range.
pub(crate) fn number_in(value: &Value, range: Range) -> Option<u32>
    ensures { result ≡ number_in range (view value.now) }
{
    let number = u32::try_from(value.as_integer()?).ok()?;
    if range.least <= number && number <= range.most {
        Some(number)
    } else {
        None
    }
}

/// The name of a group: from 1 to 64 visible bytes of ASCII.
pub(crate) fn name_of(value: &Value) -> Option<&str>
    ensures { option_copied result ≡ name_of (view value.now) }
{
    let name = value.as_str()?;
    if is_name(name.as_bytes()) {
        Some(name)
    } else {
        None
    }
}

fn is_name(bytes: &[u8]) -> bool
    ensures { result ≡ is_name bytes.now }
{
    1 <= bytes.len() && bytes.len() <= LONGEST_NAME && are_visible(bytes)
}

/// The key of a console: from 8 to 128 visible bytes of ASCII.
pub(crate) fn console_key_of(value: &Value) -> Option<&str>
    ensures { option_copied result ≡ console_key_of (view value.now) }
{
    let key = value.as_str()?;
    if is_console_key(key.as_bytes()) {
        Some(key)
    } else {
        None
    }
}

fn is_console_key(bytes: &[u8]) -> bool
    ensures { result ≡ is_console_key bytes.now }
{
    8 <= bytes.len() && bytes.len() <= 128 && are_visible(bytes)
}

/// A path from the root, of at most 90 visible bytes of ASCII.
pub(crate) fn path_of(value: &Value) -> Option<&str>
    ensures { option_copied result ≡ path_of (view value.now) }
{
    let path = value.as_str()?;
    if is_path(path.as_bytes()) {
        Some(path)
    } else {
        None
    }
}

fn is_path(bytes: &[u8]) -> bool
    ensures { result ≡ is_path bytes.now }
{
    bytes.starts_with(b"/") && bytes.len() <= 90 && are_visible(bytes)
}

/// An identity: sixteen bytes, as 32 hexadecimal digits.
pub(crate) fn identity_of(value: &Value) -> Option<[u8; 16]>
    ensures { result ≡ identity_of (view value.now) }
{
    identity_in(value.as_str()?)
}

fn identity_in(text: &str) -> Option<[u8; 16]>
    ensures { result ≡ identity_in text.now }
{
    let mut identity = [0u8; 16];
    match hex::decode_to_slice(text, &mut identity) {
        Ok(()) => Some(identity),
        Err(_) => None,
    }
}

fn are_visible(bytes: &[u8]) -> bool
    ensures { result ≡ list_all is_visible bytes.now }
{
    bytes.iter().all(|byte| is_visible(*byte))
}

/// A byte of ASCII that is printed, and no space.
fn is_visible(byte: u8) -> bool
    ensures { result ≡ is_visible byte }
{
    b'!' <= byte && byte <= b'~'
}

/// An address with a port.
pub(crate) fn address_of(value: &Value) -> Option<SocketAddr>
    ensures { result ≡ address_of (view value.now) }
{
    address_in(value.as_str()?)
}

fn address_in(text: &str) -> Option<SocketAddr>
    ensures { result ≡ address_in text.now }
{
    let address = written_address(text)?;
    if address.port() == 0 {
        None
    } else {
        Some(address)
    }
}

/// The address that a text writes.
#[tactic(auto, using(crate::proofs::Addresses::parsed))]
fn written_address(text: &str) -> Option<SocketAddr>
    ensures { result ≡ written_address text.now }
{
    text.parse::<SocketAddr>().ok()
}

/// What is done at a cold start.
pub(crate) fn cold_start_of(value: &Value) -> Option<ColdStart>
    ensures { result ≡ cold_start_of (view value.now) }
{
    match value.as_str()? {
        "auto" => Some(ColdStart::Auto),
        "by hand" => Some(ColdStart::ByHand),
        _ => None,
    }
}

/// Three, five or seven values.
pub(crate) fn machines_of(value: &Value) -> Option<&[Value]>
    ensures { option_map (λ vs. map view vs.now) result ≡ machines_of (view value.now) }
{
    let values = value.as_array()?;
    if is_size(values.len()) {
        Some(values.as_slice())
    } else {
        None
    }
}

/// The networks of an array of texts, of at most 32.
pub(crate) fn networks_of(alloc: Global, value: &Value) -> Result<Option<Networks>, AllocError>
    ensures { IfOk result (λ o. option_map (λ n. n.networks.items) o ≡ networks_of (view value.now)) }
{
    match value.as_array() {
        Some(values) => each_network(alloc, values.as_slice()),
        None => Ok(None),
    }
}

/// The networks of these values, where each is a text of one.
fn each_network(alloc: Global, values: &[Value]) -> Result<Option<Networks>, AllocError>
    ensures { IfOk result (λ o. option_map (λ n. n.networks.items) o ≡ networks_from [] (map view values.now)) }
{
    let mut networks = Networks::none(alloc);
    for value in values {
        if !is_added(&mut networks, value)? {
            return Ok(None);
        }
    }
    Ok(Some(networks))
}

/// Adds the network of a value to a list: whether that could be.
fn is_added(networks: &mut Networks, value: &Value) -> Result<bool, AllocError>
    ensures { IfOk result (λ is_so. added is_so networks.new.networks.items
        ≡ with_value networks.old.networks.items (view value.now)) }
{
    let Some(text) = value.as_str() else {
        return Ok(false);
    };
    match networks.add(text.as_bytes()) {
        Ok(()) => Ok(true),
        Err(NetworksFault::Memory) => Err(AllocError),
        Err(_) => Ok(false),
    }
}

fn is_size(count: usize) -> bool
    ensures { result ≡ is_size count }
{
    count == 3 || count == 5 || count == 7
}

/// An address is read exactly where std's grammar of socket addresses has it: `a.b.c.d:port` (RFC 791's four numbers),
/// or `[..]:port` of IPv6 (RFC 4291, 2.2).
pub fn addresses_are_written()
    ensures { (text : List ℕ) (a : SocketAddr) → (written_address text ≡ Some a) ↔ IsSocketText text a }
{}
