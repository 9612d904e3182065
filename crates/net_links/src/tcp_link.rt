//! A link over a connection to each other party.

ghost use Rattle.std.specs.Prelude.{◌≡◌, [], None, IfSome, true};
ghost use Rattle.vr_model.specs.declared.message.Party.{Party as Whose};
ghost use Rattle.net_links.specs.Own.{is_between, AreBetween, IsBetween};

use crate::connecting::pair;
use crate::hub::{Hub, Post, TcpCutter};
use crate::peer::{Peer, is_same};
use mio::net::TcpStream as Wire;
use mio::{Events, Interest, Poll, Token};
use net_ends::Loss;
use std::alloc::{AllocError, Global};
use std::io;
use std::io::ErrorKind;
use std::net::{Net, TcpListener, TcpStream};
use std::sync::{Arc, Wait};
use std::time::Duration;
use vr_model::{Message, Party};
use vr_ports::{Input, Link, Relink, Unlinked};

/// How often in a row a link may give what came with no look at what else happened.
const MOST_UNSEEN: u32 = 64;

/// How many events are told at once, at most.
const EVENTS: usize = 32;

/// The token of what wakes a link: no connection has it.
pub(crate) const WAKER: usize = usize::MAX;

/// The link of one party. It tells nothing: no socket says what it delivers. A receive sleeps until a connection has
/// something, or the wait is over; a send never waits. A connection that is over is made anew by the party at the
/// higher place, while the link at neither end is cut. It's closed where it's cut, or all others are.
#[derive(Drop)]
pub struct TcpLink<R: Wait + Drop> {
    rt: R,
    alloc: Global,
    hub: Arc<Hub>,
    place: usize,
    party: Party,
    poll: Poll,
    events: Events<Global>,
    /// By the places of the parties, which are the tokens of the connections; there is none to its own.
    peers: Vec<Peer>,
    /// The place of the connection that is read first.
    next: usize,
    /// The party whose connection was read last.
    source: Party,
    /// What came over it and was not given yet, the last first.
    arrived: Vec<Message>,
    /// So often in a row something arrived with no look at what else happened.
    unseen: u32,
    wait: Duration,
    /// So many messages had no frame.
    frameless: u64,
    ghost own: { AreBetween source party arrived.items },
}

impl<R: Wait + Net<Listener = TcpListener, Stream = TcpStream> + Copy + Drop> TcpLink<R> {
    /// The link of the party at this place, with no connection yet. `InvalidInput` where there is no such place.
    pub(crate) fn new(
        rt: R,
        alloc: Global,
        hub: Arc<Hub>,
        place: usize,
        poll: Poll,
        wait: Duration,
    ) -> io::Result<TcpLink<R>> {
        let Some(party) = hub.party(place) else {
            return Err(io::Error::from(ErrorKind::InvalidInput));
        };
        let peers = peers_of(alloc, &hub)?;
        Ok(TcpLink {
            rt,
            alloc,
            hub,
            place,
            party,
            poll,
            events: Events::with_capacity(alloc, EVENTS)?,
            peers,
            next: 0,
            source: party,
            arrived: Vec::new(alloc),
            unseen: 0,
            wait,
            frameless: 0,
        })
    }

    /// Sets how long a receive waits from now on.
    pub fn wait_for(&mut self, wait: Duration) {
        self.wait = wait;
    }

    /// Makes a connection to each other party below this place whose link isn't cut.
    pub(crate) fn connect_below(&mut self, places: usize) -> io::Result<()>
        ensures { self.new.party ≡ self.old.party }
    {
        for other in 0..places {
            if other != self.place && !self.hub.is_cut(&self.rt, other) {
                self.connect(other)?;
            }
        }
        Ok(())
    }

    /// Makes a connection to the party with this place, which is handed its end.
    fn connect(&mut self, other: usize) -> io::Result<()>
        ensures { self.new.party ≡ self.old.party }
    {
        let listener = TcpListener::bind(&self.rt, ("127.0.0.1", 0))?;
        let (near, far) = pair(&self.rt, &listener)?;
        if self.hub.hand(&self.rt, other, self.place, far) {
            self.keep(other, near)?;
        }
        Ok(())
    }

    /// Makes a connection anew to each party below this place that has none and isn't cut. Where one can't be made
    /// it's tried again at the next look. The parties above make theirs.
    fn reconnect(&mut self)
        ensures { self.new.party ≡ self.old.party }
    {
        for other in 0..self.place {
            if self.is_apart(other) && !self.hub.is_cut(&self.rt, other) {
                let _ = self.connect(other);
            }
        }
    }

    /// Whether there is no connection to the party with this place.
    fn is_apart(&self, other: usize) -> bool {
        match self.peers.get(other) {
            Some(peer) => !peer.is_connected(),
            None => true,
        }
    }

    /// From now on this is the connection to the party with this place; what was there before is closed.
    fn keep(&mut self, other: usize, stream: TcpStream) -> io::Result<()>
        ensures { self.new.party ≡ self.old.party }
    {
        stream.set_nodelay(true)?;
        stream.set_nonblocking(true)?;
        let mut wire = Wire::from_std(stream);
        let both = Interest::READABLE | Interest::WRITABLE;
        self.poll
            .registry()
            .register(&mut wire, Token(other), both)?;
        if let Some(peer) = self.peers.get_mut(other) {
            peer.connect(self.alloc, wire)?;
        }
        Ok(())
    }

    /// Takes the ends of connections that were handed to it; one that can't be kept is closed. False where it was cut:
    /// then all of its connections are ended.
    pub(crate) fn obey(&mut self) -> bool
        ensures { self.new.party ≡ self.old.party }
    {
        for _ in 0..=self.peers.len() {
            match self.hub.take(&self.rt, self.place) {
                Post::Nothing => return true,
                Post::Arrival(from, stream) => {
                    let _ = self.keep(from, stream);
                }
                Post::Cut => {
                    self.close();
                    return false;
                }
            }
        }
        true
    }

    /// Ends all of its connections.
    fn close(&mut self)
        ensures { self.new.party ≡ self.old.party }
    {
        for peer in self.peers.iter_mut() {
            peer.close();
        }
        self.arrived.clear();
    }

    /// Whether there is no connection to any other party, and all others are cut.
    fn is_alone(&self) -> bool {
        for other in 0..self.peers.len() {
            let is_up = !self.is_apart(other) || !self.hub.is_cut(&self.rt, other);
            if other != self.place && is_up {
                return false;
            }
        }
        true
    }

    /// Whether a connection may have something to read.
    fn is_ready(&self) -> bool {
        self.peers.iter().any(|peer: &Peer| peer.is_ready())
    }

    /// Waits for so long that something happens. Then connections that are ready are known, and what waited was
    /// written.
    fn look(&mut self, wait: Duration)
        ensures { self.new.party ≡ self.old.party }
    {
        self.unseen = 0;
        self.reconnect();
        // Where it fails it gives no event.
        let _ = self.poll.poll(&mut self.events, Some(wait));
        for event in self.events.iter() {
            let Token(place) = event.token();
            if let Some(peer) = self.peers.get_mut(place) {
                peer.wake();
            }
        }
    }

    /// Reads the next connection, if it's ready: what came stands the last first.
    fn read_next(&mut self)
        requires { self.old.arrived.items ≡ [] }
        ensures { self.new.party ≡ self.old.party }
    {
        let place = self.next;
        self.next = place.saturating_add(1);
        if self.next >= self.peers.len() {
            self.next = 0;
        }
        if let Some(peer) = self.peers.get_mut(place) {
            self.source = peer.party();
            peer.read(self.alloc, self.party, &mut self.arrived);
        }
        turn_round(&mut self.arrived);
    }

    /// Reads ready connections, one after the other, until something arrived.
    fn read_ready(&mut self)
        ensures { self.new.party ≡ self.old.party }
    {
        for _ in 0..self.peers.len() {
            if self.arrived.is_empty() {
                self.read_next();
            }
        }
    }

    /// Reads what is ready, and where there is nothing waits once for it.
    fn gather(&mut self)
        ensures { self.new.party ≡ self.old.party }
    {
        self.read_ready();
        if self.arrived.is_empty() {
            let wait = if self.is_ready() {
                Duration::from_millis(0)
            } else {
                self.wait
            };
            self.look(wait);
            self.read_ready();
        } else {
            self.unseen = self.unseen.saturating_add(1);
            if self.unseen > MOST_UNSEEN {
                self.look(Duration::from_millis(0));
            }
        }
    }

    /// Gives what arrived first, if anything did.
    fn take(&mut self) -> Option<Message>
        ensures own { IfSome result (λ m. is_between self.old.source self.old.party m ≡ true) }
        ensures source { self.new.source ≡ self.old.source }
        ensures party { self.new.party ≡ self.old.party }
    {
        take_last(&mut self.arrived)
    }

    /// What a receive gives: a message from the party whose connection was read last to this party, and no other.
    fn receive(&mut self) -> Input
        ensures { IsBetween self.new.source self.old.party result }
    {
        if !self.obey() {
            return Input::Closed;
        }
        if let Some(message) = self.take() {
            return Input::Message(message);
        }
        if self.is_alone() {
            return Input::Closed;
        }
        self.gather();
        match self.take() {
            Some(message) => Input::Message(message),
            None => Input::Nothing,
        }
    }

    /// Hands a message to the connection to its party; counts it where it has no frame.
    fn hand_over(&mut self, message: &Message) {
        for peer in self.peers.iter_mut() {
            if is_same(peer.party(), message.to) {
                if let Err(Loss::NoFrame) = peer.send(self.alloc, message) {
                    self.frameless = self.frameless.saturating_add(1);
                }
                return;
            }
        }
    }
}

/// The parties of a group, to none of which there is a connection yet.
fn peers_of(alloc: Global, hub: &Hub) -> Result<Vec<Peer>, AllocError> {
    let mut peers = Vec::new(alloc);
    for place in 0..hub.count() {
        if let Some(party) = hub.party(place) {
            peers.push(Peer::new(party))?;
        }
    }
    Ok(peers)
}

/// The last of them, which they have no more.
fn take_last(messages: &mut Vec<Message>) -> Option<Message>
    ensures others { (from to : Whose) → AreBetween from to messages.old.items → AreBetween from to messages.new.items }
    ensures last { (from to : Whose) → AreBetween from to messages.old.items
        → IfSome result (λ m. is_between from to m ≡ true) }
{
    messages.pop()
}

/// Puts the last of them first.
fn turn_round(messages: &mut Vec<Message>)
    ensures { (from to : Whose) → AreBetween from to messages.old.items → AreBetween from to messages.new.items }
{
    messages.reverse();
}

impl<R: Wait + Net<Listener = TcpListener, Stream = TcpStream> + Copy + Drop> Link for TcpLink<R> {
    ghost inputs = { λ _. None };

    ghost sent = { λ _. None };

    fn recv(&mut self) -> Input {
        self.receive()
    }

    fn send(&mut self, message: Message) {
        self.hand_over(&message);
    }

    fn frameless(&self) -> u64 {
        self.frameless
    }
}

impl<R> Relink for TcpLink<R>
where
    R: Wait + Net<Listener = TcpListener, Stream = TcpStream> + Copy + Send + Drop + 'static,
{
    type Cutter = TcpCutter<R>;

    fn cutter(&self) -> Result<TcpCutter<R>, AllocError> {
        Ok(TcpCutter {
            rt: self.rt,
            hub: Arc::try_clone(&self.hub)?,
            place: self.place,
        })
    }

    fn renew(&mut self) -> Result<(), Unlinked> {
        self.close();
        let places = self.peers.len();
        if self.connect_below(places).is_ok() {
            self.hub.open(&self.rt, self.place);
            return Ok(());
        }
        self.hub.cut(&self.rt, self.place);
        self.close();
        Err(Unlinked)
    }
}
