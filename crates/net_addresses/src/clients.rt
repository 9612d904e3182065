//! Who may be a client, by where he comes from.

ghost use Rattle.std.specs.Prelude.{◌≡◌, IfOk, None};
ghost use Rattle.net_addresses.specs.Addresses.{admits, items_of, reads_alone};

use crate::networks::Networks;
use std::alloc::{AllocError, Global};
use std::net::IpAddr;

/// A list once more, if there's one.
fn list_again(alloc: Global, list: &Option<Networks>) -> Result<Option<Networks>, AllocError>
    ensures { IfOk result (λ l. items_of l ≡ items_of list.now) }
{
    match list {
        Some(networks) => Ok(Some(networks.again(alloc)?)),
        None => Ok(None),
    }
}

/// Who may come as a client, and who of them may only read.
#[derive(Drop, PartialEq, Eq)]
pub struct Clients {
    /// Who is let in: without a list everybody.
    pub allowed: Option<Networks>,
    /// Who may only read: without a list nobody.
    pub readers: Option<Networks>,
}

impl Clients {
    /// Everybody may come, read and write.
    pub fn all() -> Clients
        ensures allowed { result.allowed ≡ None }
        ensures readers { result.readers ≡ None }
    {
        Clients {
            allowed: None,
            readers: None,
        }
    }

    /// The same once more.
    pub fn again(&self, alloc: Global) -> Result<Clients, AllocError>
        ensures allowed { IfOk result (λ c. items_of c.allowed ≡ items_of self.now.allowed) }
        ensures readers { IfOk result (λ c. items_of c.readers ≡ items_of self.now.readers) }
    {
        Ok(Clients {
            allowed: list_again(alloc, &self.allowed)?,
            readers: list_again(alloc, &self.readers)?,
        })
    }

    /// Whether who comes from there is let in: without a list everybody is, and else whom it holds. Who comes from no
    /// address is on no list.
    pub fn admits(&self, peer: Option<IpAddr>) -> bool
        ensures { result ≡ admits self.now.allowed peer }
    {
        match (&self.allowed, peer) {
            (None, _) => true,
            (Some(allowed), Some(peer)) => allowed.hold(peer),
            (Some(_), None) => false,
        }
    }

    /// Whether who comes from there may only read.
    pub fn reads_alone(&self, peer: Option<IpAddr>) -> bool
        ensures { result ≡ reads_alone self.now.readers peer }
    {
        match (&self.readers, peer) {
            (Some(readers), Some(peer)) => readers.hold(peer),
            _ => false,
        }
    }
}
