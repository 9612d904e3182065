//! A network of IPv4, and its text.

ghost use Rattle.std.specs.Prelude.{◌≡◌, nat_eq, position};
ghost use Rattle.net_addresses.specs.Addresses.{first_bits, has, host_bits};
ghost use Rattle.net_addresses.specs.Texts.{address_in, network_at, network_by, network_in, prefix_in, two_digits};

use std::net::Ipv4Addr;
use thiserror::Error;

/// How many bits an address has.
const BITS: u8 = 32;

/// A network: the addresses whose first bits are its own (RFC 4632, 3.1).
#[derive(Clone, Copy, PartialEq, Eq)]
pub struct Network {
    /// Its own address.
    pub address: Ipv4Addr,
    /// How many bits count: of 32 and more, all.
    pub prefix: u8,
}

/// Why a text is no network.
#[derive(Clone, Copy, Debug, PartialEq, Eq, Error)]
pub enum NetworkFault {
    /// In front of its `/`, or as a whole, it's no address of IPv4.
    #[error("no address of IPv4")]
    Address,
    /// Behind its `/` stands no number from 0 to 32.
    #[error("no count of bits, 0 to 32")]
    Prefix,
    /// Its address names a host of the network: behind the bits that count one is set.
    #[error("bits of a host are set")]
    HostBits,
}

impl Network {
    /// The network of a text: `10.0.0.0/24`, or `10.0.0.1` for an address by itself.
    pub fn read(text: &[u8]) -> Result<Network, NetworkFault>
        ensures { result ≡ network_in text.now }
    {
        match slash_in(text) {
            Some(slash) => network_of(address_in(&text[..slash]), prefix_in(&text[slash + 1..])),
            None => network_of(address_in(text), Some(BITS)),
        }
    }

    /// Whether it has an address.
    pub fn has(&self, address: Ipv4Addr) -> bool
        ensures { result ≡ has self.now address }
    {
        first_bits(self.prefix, address) == first_bits(self.prefix, self.address)
    }
}

/// Where the first `/` of a text is.
fn slash_in(text: &[u8]) -> Option<usize>
    ensures { result ≡ position (nat_eq 47) text.now }
{
    text.iter().position(|byte| *byte == b'/')
}

/// The network of an address and a count of bits.
fn network_of(address: Option<Ipv4Addr>, prefix: Option<u8>) -> Result<Network, NetworkFault>
    ensures { result ≡ network_by address prefix }
{
    let address = address.ok_or(NetworkFault::Address)?;
    let prefix = prefix.ok_or(NetworkFault::Prefix)?;
    if host_bits(prefix, address) != 0 {
        return Err(NetworkFault::HostBits);
    }
    Ok(Network { address, prefix })
}

/// The number that the first bits of an address write.
fn first_bits(count: u8, address: Ipv4Addr) -> u64
    ensures { result ≡ first_bits count address }
{
    u64::from(address.to_bits()) >> u32::from(BITS.saturating_sub(count))
}

/// The number that the bits behind them write.
fn host_bits(count: u8, address: Ipv4Addr) -> u64
    ensures { result ≡ host_bits count address }
{
    let hosts = 1u64 << u32::from(BITS.saturating_sub(count));
    u64::from(address.to_bits()) % hosts
}

/// The address that a text writes.
#[tactic(auto, using(crate::proofs::Readings::parsed))]
fn address_in(text: &[u8]) -> Option<Ipv4Addr>
    ensures { result ≡ address_in text.now }
{
    Ipv4Addr::parse_ascii(text).ok()
}

/// A decimal number from 0 to 32, with no leading zero.
fn prefix_in(text: &[u8]) -> Option<u8>
    ensures { result ≡ prefix_in text.now }
{
    match text {
        [only] if only.is_ascii_digit() => Some(*only - b'0'),
        [first, second] => two_digits(*first, *second),
        _ => None,
    }
}

/// The same with two digits.
fn two_digits(first: u8, second: u8) -> Option<u8>
    ensures { result ≡ two_digits first second }
{
    if !(b'1' <= first && first <= b'9' && b'0' <= second && second <= b'9') {
        return None;
    }
    let number = (first - b'0') * 10 + (second - b'0');
    if number <= BITS { Some(number) } else { None }
}
