//! The links of a group: those of its replicas by their numbers, then that of its driver, and of its console, if it has
//! one.

ghost use Rattle.std.specs.Prelude.{◌≡◌, IfOk};
ghost use Rattle.plc_driver.specs.Driving.{kind_of};

use net_links::{TcpLink, links};
use plc_host::{Failed, Host};
use plc_settings::{Links, Settings};
use std::alloc::AllocError;
use std::net::{Net, TcpListener, TcpStream};
use std::sync::{Arc, Wait};
use std::time::{Clock, Duration};
use vr_model::Party;
use vr_ports::party_at;
use vr_threads::{ChannelLink, Switchboard};

/// For so many milliseconds a link waits for a message: a clock may be late by that.
const WAIT: u64 = 50;

/// For so long a client's link waits.
fn client_wait(settings: &Settings) -> Duration {
    Duration::from_millis(WAIT.min(u64::from(settings.period)))
}

/// So many clients the group has: the driver, and the console if there is one.
fn client_count(settings: &Settings) -> u8 {
    if settings.console.is_some() { 2 } else { 1 }
}

/// The link of a party over channels.
fn channel_link<R: Wait + Clock + Copy + Drop>(
    host: Host<R>,
    board: &Arc<Switchboard>,
    party: Party,
    wait: Duration,
) -> Result<ChannelLink<R>, AllocError> {
    ChannelLink::new(host.rt, host.alloc, Arc::try_clone(board)?, party, wait)
}

/// The links of a group, of one kind or the other.
#[derive(Drop)]
pub enum GroupLinks<R>
where
    R: Wait + Net<Listener = TcpListener, Stream = TcpStream> + Clock + Copy + Drop,
{
    Tcp(Vec<TcpLink<R>>),
    Channels(Vec<ChannelLink<R>>),
}

impl<R> GroupLinks<R>
where
    R: Wait + Net<Listener = TcpListener, Stream = TcpStream> + Clock + Copy + Drop,
{
    /// The links of a group, of the kind that the settings name.
    pub fn of(host: Host<R>, settings: &Settings) -> Result<GroupLinks<R>, Failed>
        ensures { IfOk result (λ links. kind_of links ≡ settings.now.links) }
    {
        match settings.links {
            Links::Tcp => Ok(GroupLinks::Tcp(links_over_tcp(host, settings)?)),
            Links::Channels => Ok(GroupLinks::Channels(links_over_channels(host, settings)?)),
        }
    }
}

/// The links of a group over channels.
fn links_over_channels<R: Wait + Clock + Copy + Drop>(
    host: Host<R>,
    settings: &Settings,
) -> Result<Vec<ChannelLink<R>>, Failed> {
    let alloc = host.alloc;
    let size = settings.config.group_size();
    let clients = client_count(settings);
    let board = Arc::new(alloc, Switchboard::new(alloc, size, clients)?)?;
    let mut links = Vec::new(alloc);
    for place in 0..u16::from(size) + u16::from(clients) {
        let Some(party) = party_at(size, place) else {
            return Err(Failed::Device);
        };
        let wait = match party {
            Party::Replica(_) => Duration::from_millis(WAIT),
            Party::Client(_) => client_wait(settings),
        };
        links.push(channel_link(host, &board, party, wait)?)?;
    }
    Ok(links)
}

/// The links of a group over connections.
fn links_over_tcp<R>(host: Host<R>, settings: &Settings) -> Result<Vec<TcpLink<R>>, Failed>
where
    R: Wait + Net<Listener = TcpListener, Stream = TcpStream> + Copy + Drop,
{
    let size = settings.config.group_size();
    let wait = Duration::from_millis(WAIT);
    let mut links = match links(host.rt, host.alloc, size, client_count(settings), wait) {
        Ok(links) => links,
        Err(error) => return Err(Failed::from(error).known_as(Failed::Connection)),
    };
    for link in links.iter_mut().skip(usize::from(size)) {
        link.wait_for(client_wait(settings));
    }
    Ok(links)
}
