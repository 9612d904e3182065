//! What carries frames over a connection.

ghost use Rattle.std.specs.Prelude.{None};
ghost use Rattle.net_peers.specs.Carried.{stops_coming, stops_going};

use crate::meeting::Line;
use mio::net::TcpStream as Wire;
use net_ends::{NonBlocking, NonBlockingRead, NonBlockingWrite, Stop};
use net_records::{Records, Signs};
use net_sealed::SealedRecords;
use std::alloc::{AllocError, Global};

/// What carries frames over a connection: records, which are sealed where there is a key.
#[derive(Drop)]
pub(crate) enum Carrier {
    Plain(Records<NonBlocking<Wire>>),
    Sealed(SealedRecords<NonBlocking<Wire>>),
}

impl Carrier {
    /// Nothing came or went yet. It fails only where memory runs out.
    pub(crate) fn new(alloc: Global, line: Line) -> Result<Carrier, AllocError> {
        let Line { wire, ends } = line;
        let wire = NonBlocking::new(wire);
        match ends {
            Some(ends) => Ok(Carrier::Sealed(SealedRecords::new(alloc, wire, ends)?)),
            None => Ok(Carrier::Plain(Records::new(alloc, wire)?)),
        }
    }

    /// Writes what waits, until nothing does or no more is taken.
    pub(crate) fn push(&mut self) -> Result<(), Stop> {
        match self {
            Carrier::Plain(records) => records.push(),
            Carrier::Sealed(records) => records.push(),
        }
    }

    /// Puts a beat, unless something waits, and writes what waits.
    pub(crate) fn beat(&mut self) -> Result<(), Stop> {
        match self {
            Carrier::Plain(records) => records.beat(),
            Carrier::Sealed(records) => records.beat(),
        }
    }

    /// Whether anything came or went since that was asked last.
    pub(crate) fn signs(&mut self) -> Signs {
        match self {
            Carrier::Plain(records) => records.signs(),
            Carrier::Sealed(records) => {
                let signs = records.signs();
                Signs {
                    has_come: signs.has_come,
                    has_gone: signs.has_gone,
                }
            }
        }
    }

    /// Whether a record came that was forged or damaged.
    pub(crate) fn is_forged(&self) -> bool {
        match self {
            Carrier::Plain(_) => false,
            Carrier::Sealed(records) => records.is_forged(),
        }
    }
}

impl NonBlockingRead for Carrier {
    ghost left = { λ _. None };

    ghost stops = { λ c. stops_coming c };

    fn read(&mut self, buf: &mut [u8]) -> Result<usize, Stop> {
        match self {
            Carrier::Plain(records) => records.read(buf),
            Carrier::Sealed(records) => records.read(buf),
        }
    }
}

impl NonBlockingWrite for Carrier {
    ghost held = { λ _. None };

    ghost stops = { λ c. stops_going c };

    fn write(&mut self, buf: &[u8]) -> Result<usize, Stop> {
        match self {
            Carrier::Plain(records) => records.write(buf),
            Carrier::Sealed(records) => records.write(buf),
        }
    }
}
