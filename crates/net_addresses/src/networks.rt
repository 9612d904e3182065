//! Lists of networks.

ghost use Rattle.std.specs.Prelude.{◌≡◌, ◌+◌, ◌<◌, [], ◌∷◌, IfOk, IfSome, MatchOption, length, nat_eq, position};
ghost use Rattle.std.specs.List.{list_any};
ghost use Rattle.net_addresses.specs.Addresses.{has, hold};
ghost use Rattle.net_addresses.specs.Texts.{Gives, Leaves, networks_in, texts_in, with_text};
ghost use Rattle.net_addresses.specs.declared.networks.NetworksFault.TheVariants.{Memory as NoMemory};

use crate::network::{Network, NetworkFault};
use std::alloc::{AllocError, AllocFailed, Global};
use std::net::{IpAddr, Ipv4Addr};
use thiserror::Error;

/// So many networks a list has at most.
pub const MOST_NETWORKS: usize = 32;

/// Why texts are no list of networks.
#[derive(Clone, Copy, Debug, PartialEq, Eq, Error)]
pub enum NetworksFault {
    /// One of them is no network: its place from 0, and why.
    #[error("no network")]
    Entry { entry: usize, fault: NetworkFault },
    /// There are more than 32.
    #[error("more than 32")]
    TooMany,
    /// Memory ran out.
    #[error("memory")]
    Memory,
}

impl From<AllocError> for NetworksFault {
    ghost from_gives = { λ _ e. e ≡ NoMemory };

    fn from(_error: AllocError) -> NetworksFault {
        NetworksFault::Memory
    }
}

impl<T: Drop> From<AllocFailed<T>> for NetworksFault {
    ghost from_gives = { λ _ e. e ≡ NoMemory };

    fn from(_failed: AllocFailed<T>) -> NetworksFault {
        NetworksFault::Memory
    }
}

/// A list of networks.
#[derive(Drop, PartialEq, Eq)]
pub struct Networks {
    pub networks: Vec<Network>,
}

impl Networks {
    /// A list with none.
    pub fn none(alloc: Global) -> Networks
        ensures { result.networks.items ≡ [] }
    {
        Networks {
            networks: Vec::new(alloc),
        }
    }

    /// Adds the network of a text. After an `Err` the list is as it was.
    pub fn add(&mut self, text: &[u8]) -> Result<(), NetworksFault>
        ensures { Leaves (with_text self.old.networks.items text.now)
            self.old.networks.items self.new.networks.items result }
    {
        let entry = self.networks.len();
        if entry >= MOST_NETWORKS {
            return Err(NetworksFault::TooMany);
        }
        match Network::read(text) {
            Ok(network) => {
                self.networks.push(network)?;
                Ok(())
            }
            Err(fault) => Err(NetworksFault::Entry { entry, fault }),
        }
    }

    /// The list of a text that has commas between the networks.
    pub fn read(alloc: Global, text: &str) -> Result<Networks, NetworksFault>
        ensures { Gives (networks_in text.now) result }
    {
        let mut networks = Networks::none(alloc);
        let mut rest = text.as_bytes();
        'texts: while let Some((first, others)) = cut(rest) {
            networks.add(first)?;
            rest = others;
        }
        networks.add(rest)?;
        Ok(networks)
    }

    /// The same list once more.
    pub fn again(&self, alloc: Global) -> Result<Networks, AllocError>
        ensures { IfOk result (λ n. n.networks.items ≡ self.now.networks.items) }
    {
        Ok(Networks {
            networks: Vec::from_slice(alloc, self.networks.as_slice())?,
        })
    }

    /// Whether one of them has an address: none has one of IPv6.
    pub fn hold(&self, address: IpAddr) -> bool
        ensures { result ≡ hold self.now.networks.items address }
    {
        match address {
            IpAddr::V4(address) => have(self.networks.as_slice(), address),
            IpAddr::V6(_) => false,
        }
    }
}

/// Whether one of these networks has an address.
fn have(networks: &[Network], address: Ipv4Addr) -> bool
    ensures { result ≡ list_any (λ network. has network address) networks.now }
{
    networks.iter().any(|network| network.has(address))
}

/// A text in front of its first comma, and behind it, if it has one.
#[tactic(auto, using(crate::proofs::Lists::whole))]
fn cut(text: &[u8]) -> Option<(&[u8], &[u8])>
    ensures { MatchOption result (texts_in text.now ≡ text.now ∷ [])
        (λ p. (texts_in text.now ≡ p.0.now ∷ texts_in p.1.now) × (length p.1.now < length text.now)) }
{
    match comma_in(text) {
        Some(comma) => Some((&text[..comma], &text[comma + 1..])),
        None => None,
    }
}

/// Where the first comma of a text is.
fn comma_in(text: &[u8]) -> Option<usize>
    ensures is { result ≡ position (nat_eq 44) text.now }
    ensures within { IfSome result (λ i. i < length text.now) }
{
    text.iter().position(|byte| *byte == b',')
}
