//! A life of a machine: what it begins with, as the machine's store has it, and the links that are up in it.

ghost use Rattle.std.specs.Prelude.{◌≡◌, ◌-◌, ◌^◌, min};
ghost use Rattle.plc_epochs.specs.Recovering.{first_nonce};
ghost use Rattle.plc_epochs.specs.Table.{StartsAs};
ghost use Rattle.plc_member.specs.Keeping.{begins_by_itself};

use crate::begun::{Begun, ReplicaFiles, Surroundings};
use crate::both::both;
use crate::held_link::Hold;
use crate::keeper::{Keeper, Terms};
use crate::links::{Linked, hello_of, links_of, machine_of};
use crate::serving::MachineRuntime;
use crate::stop::Stop;
use il_loader::Image;
use net_hello::Epoch;
use net_keys::Keys;
use net_peers::{Exchange, Machine};
use plc_epochs::{ColdStart, Place};
use plc_group::{ColdStart as Manner, Group};
use plc_host::{Failed, Host};
use plc_store::{Header, Start};
use std::alloc::{AllocError, Global};
use std::net::{Net, SocketAddr, TcpListener, TcpStream};
use std::sync::Arc;

/// What a life begins with, as its store has it.
#[derive(Drop)]
pub(crate) struct Origin {
    pub(crate) header: Header,
    pub(crate) start: Start,
    /// Of the program with which its epoch begins.
    pub(crate) image: Image,
    /// How many starts there are in its epoch with this one.
    pub(crate) starts: u64,
    /// Whether the program was changed in its epoch.
    pub(crate) is_marked: bool,
}

/// A life whose links are up.
#[derive(Drop)]
pub(crate) struct Life<R: MachineRuntime> {
    pub(crate) origin: Origin,
    pub(crate) linked: Linked<R>,
    pub(crate) keeper: Keeper<R>,
}

/// Listens at an address of this machine.
fn listening<R: Net<Listener = TcpListener, Stream = TcpStream>>(
    rt: &R,
    address: SocketAddr,
) -> Result<TcpListener, Failed> {
    match TcpListener::bind(rt, address) {
        Ok(listener) => Ok(listener),
        Err(_) => Err(Failed::Port(address.port())),
    }
}

/// The links of a machine, whose replica listens at this address.
fn linked_at<R: MachineRuntime>(
    host: Host<R>,
    machine: &Machine,
    address: SocketAddr,
) -> Result<Linked<R>, Failed> {
    let listener = listening(&host.rt, address)?;
    links_of(host, machine, listener)
}

/// Whether a group begins anew by itself as far as this machine is concerned: not where its program was changed, since
/// its store has the one before.
fn is_automatic(group: &Group, is_marked: bool) -> bool
    ensures { result ≡ begins_by_itself group.now.cold_start is_marked }
{
    matches!(group.cold_start, Manner::Auto) && !is_marked
}

/// So many starts, as the protocol counts them.
fn starts_told(starts: u64) -> u32
    ensures { result ≡ min starts (2 ^ 32 - 1) }
{
    if starts < u64::from(u32::MAX) {
        starts as u32
    } else {
        u32::MAX
    }
}

/// What a machine is to the protocol of its group, as it starts from its store: what it says has nonces of this start.
fn cold_start_of(group: &Group, origin: &Origin) -> ColdStart
    ensures { StartsAs result.place origin.now.header.kept origin.now.header.program
        (first_nonce (min origin.now.starts (2 ^ 32 - 1))) 0 result }
{
    let place = Place {
        config: group.config,
        number: origin.header.machine,
        is_automatic: matches!(group.cold_start, Manner::Auto),
        is_marked: origin.is_marked,
    };
    let starts = starts_told(origin.starts);
    ColdStart::new(place, &origin.header.kept, origin.header.program, starts, 0)
}

/// What a machine knows of its group that says hello as the protocol has it.
fn greeting_machine(
    alloc: Global,
    group: &Group,
    origin: &Origin,
    cold_start: &ColdStart,
    keys: Option<Keys>,
) -> Result<Machine, AllocError> {
    let hello = hello_of(cold_start.greeting());
    machine_of(alloc, group, &origin.header, hello, origin.starts, keys)
}

/// What a machine keeps to whose links share this.
fn terms_of(
    alloc: Global,
    group: &Group,
    is_marked: bool,
    exchange: &Arc<Exchange>,
) -> Result<Terms, AllocError> {
    Ok(Terms {
        f: group.config.f,
        is_automatic: is_automatic(group, is_marked),
        hold: Arc::new(alloc, Hold::new())?,
        exchange: Arc::try_clone(exchange)?,
    })
}

/// The links of a life that begins so, at an address of its machine, and what keeps to its epoch.
fn connected<R: MachineRuntime>(
    host: Host<R>,
    group: &Group,
    origin: &Origin,
    address: SocketAddr,
    keys: Option<Keys>,
) -> Result<(Linked<R>, Keeper<R>), Failed> {
    let cold_start = cold_start_of(group, origin);
    let machine = greeting_machine(host.alloc, group, origin, &cold_start, keys)?;
    let linked = linked_at(host, &machine, address);
    let (machine, linked) = both(machine, linked)?;
    let terms = terms_of(host.alloc, group, origin.is_marked, &linked.exchange);
    let ((machine, linked), terms) = both((machine, linked), terms)?;
    let keeper = Keeper::new(host, cold_start, machine, terms);
    Ok(both(linked, keeper)?)
}

/// The life that begins so, at an address of its machine.
pub(crate) fn life_of<R: MachineRuntime>(
    host: Host<R>,
    group: &Group,
    origin: Origin,
    address: SocketAddr,
    keys: Option<Keys>,
) -> Result<Life<R>, Failed> {
    let connected = connected(host, group, &origin, address, keys);
    let (origin, (linked, keeper)) = both(origin, connected)?;
    Ok(Life {
        origin,
        linked,
        keeper,
    })
}

impl<R: MachineRuntime> Life<R> {
    /// The same, which has begun this epoch: its replica, which is not started, has these files, and `stop` ends it.
    pub(crate) fn begun<S: Drop, M: Drop>(
        self,
        epoch: Epoch,
        files: ReplicaFiles<S, M>,
        stop: Stop,
    ) -> Begun<R, S, M> {
        let Life {
            origin,
            linked,
            keeper,
        } = self;
        let Linked {
            exchange,
            replica: link,
            driver,
            console,
        } = linked;
        let around = Surroundings {
            epoch,
            origin,
            exchange,
            driver,
            console,
            keeper,
            stop,
            trace: None,
        };
        Begun {
            around,
            link,
            files,
        }
    }
}
