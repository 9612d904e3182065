//! How a machine says words to other machines of its group.

ghost use Rattle.std.specs.Prelude.{◌≡◌};
ghost use Rattle.std.specs.Duration.{as_nanos};
ghost use Rattle.plc_member.specs.Probing.{reaching};

use crate::keeper::is_among;
use net_hello::Epoch;
use net_keys::Keys;
use net_peers::Visitor;
use plc_epochs::{Visit, Word};
use std::alloc::Global;
use std::net::{Net, SocketAddr, TcpListener, TcpStream};
use std::random::RandomSource;
use std::sync::Wait;
use std::time::{Clock, Duration};
use vr_model::MOST_REPLICAS;

/// In milliseconds: a machine that isn't reached within that isn't told a word.
const REACHING: u64 = 20;

/// The same of a machine that there is a connection with, which may be far away.
const REACHING_CONNECTED: u64 = 400;

/// For so long it's tried to reach a machine, by whether there is a connection with it.
fn reaching(is_connected: bool) -> Duration
    ensures { as_nanos result ≡ reaching is_connected }
{
    if is_connected {
        Duration::from_millis(REACHING_CONNECTED)
    } else {
        Duration::from_millis(REACHING)
    }
}

/// What a machine says words by: one that recovers, since nobody else says any.
#[derive(Drop)]
pub(crate) struct Speaker<R: Drop> {
    pub(crate) rt: R,
    pub(crate) alloc: Global,
    /// Of its group.
    pub(crate) identity: [u8; 32],
    /// Of its machine.
    pub(crate) number: u8,
    /// Of its group, if that has any.
    pub(crate) keys: Option<Keys>,
    /// Where the replica of each machine listens.
    pub(crate) addresses: Vec<SocketAddr>,
}

impl<R> Speaker<R>
where
    R: Wait + Clock + RandomSource + Net<Listener = TcpListener, Stream = TcpStream> + Copy + Drop,
{
    /// Says a word to a machine, in this epoch. Where it isn't reached soon, or memory is wanting, the word is lost.
    /// There are connections with these machines, by bits.
    pub(crate) fn say(&self, connected: u8, to: u8, epoch: Epoch, word: Word) {
        let Some(address) = self.addresses.get(usize::from(to)) else {
            return;
        };
        let said = Visit {
            identity: self.identity,
            epoch,
            from: self.number,
            word,
        };
        if let Ok(frame) = said.spell(self.alloc) {
            let longest = reaching(is_among(connected, to));
            let visitor = Visitor {
                keys: self.keys,
                from: self.number,
                to,
            };
            let _ = visitor.visit(&self.rt, self.alloc, *address, frame.as_slice(), longest);
        }
    }

    /// Says a word to each other machine, in this epoch. There are connections with these, by bits.
    pub(crate) fn say_to_all(&self, connected: u8, epoch: Epoch, word: Word) {
        for machine in 0..MOST_REPLICAS as u8 {
            if machine != self.number {
                self.say(connected, machine, epoch, word);
            }
        }
    }
}
