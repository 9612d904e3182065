//! The link of a party of one machine.

ghost use Rattle.std.specs.Prelude.{◌≡◌, [], None, true, IfSome, Option};
ghost use Rattle.vr_model.specs.declared.message.Party.{Party as Whose};
ghost use Rattle.net_peers.specs.declared.accepted.Accepted.{Accepted as Source};
ghost use Rattle.net_links.specs.Own.{is_same};
ghost use Rattle.net_peers.specs.Passing.{AreTo, CameFrom, IsGiven, is_from};

use crate::accepted::Accepted;
use crate::connection::Connection;
use crate::exchange::{Exchange, PeerCutter};
use crate::greeting::{greet, heard_in};
use crate::guard::{Guard, machine_of};
use crate::machine::{EVENTS, FIRST_CONSOLE};
use crate::meeting::{Line, say};
use crate::notice::{LinkNotice, Told};
use crate::peer::{Change, Peer};
use crate::strangers::{Introduced, Strangers};
use mio::net::{TcpListener as Listener, TcpStream as Wire};
use mio::{Events, Interest, Poll, Token};
use net_ends::Loss;
use net_hello::{Hello, Known, Refusal, said_to_strangers};
use net_keys::ChallengeFault;
use net_links::is_same;
use std::alloc::{AllocError, Global};
use std::io;
use std::net::{Net, SocketAddr, TcpListener, TcpStream};
use std::random::RandomSource;
use std::sync::{Arc, Wait};
use std::time::{Clock, Duration, Instant};
use vr_model::{Message, Party};
use vr_ports::{Input, Link, Relink, Unlinked};

/// How often in a row a link may give what came with no look at what else happened.
const MOST_UNSEEN: u32 = 64;

/// So many causes are told of who isn't met.
const MOST_UNMET: usize = 64;

/// The token of what wakes a link: no connection has it.
pub(crate) const WAKER: usize = usize::MAX;

/// The token of the listener.
pub(crate) const LISTENER: usize = usize::MAX - 1;

/// In milliseconds: what is under way is looked at no more often, unless something happened.
const TENDING: u64 = 5;

/// The link of one party of a machine: by the exchange to the machine's other parties, and over connections to those of
/// other machines. A receive sleeps until something comes, or the wait is over; a send never waits. It's closed once
/// it's cut, and its connections are over then.
#[derive(Drop)]
pub struct PeerLink<R: Wait + Drop> {
    pub(crate) rt: R,
    pub(crate) alloc: Global,
    pub(crate) exchange: Arc<Exchange>,
    pub(crate) place: usize,
    pub(crate) party: Party,
    /// What it says first, to one of which it knows nothing.
    pub(crate) own: Hello,
    /// By which it proves that it's of the group, where that has a key.
    pub(crate) guard: Option<Guard>,
    /// Who wasn't met, and why, as far as that was told.
    pub(crate) unmet: Vec<(Option<u8>, ChallengeFault)>,
    /// Times are counted from here.
    pub(crate) started: Instant,
    pub(crate) listener: Option<Listener>,
    pub(crate) poll: Poll,
    pub(crate) events: Events<Global>,
    /// By their places, which are the tokens of their connections.
    pub(crate) peers: Vec<Peer>,
    pub(crate) strangers: Strangers,
    pub(crate) told: Told,
    /// The place of the connection that is read first.
    pub(crate) next: usize,
    /// With which accepted hello the connection began that was read last; none where it was the machine's own exchange.
    pub(crate) source: Option<Accepted>,
    /// What came from there and was not given yet, the last first.
    pub(crate) arrived: Vec<Message>,
    /// So often in a row something arrived with no look at what else happened.
    pub(crate) unseen: u32,
    pub(crate) wait: Duration,
    /// When it looked last at what is under way; `None` where it has to now.
    pub(crate) tended: Option<u64>,
    /// So many messages had no frame.
    pub(crate) frameless: u64,
    ghost came_from: { CameFrom source party arrived.items },
}

/// The last of them, which they have no more.
fn take_last(messages: &mut Vec<Message>) -> Option<Message>
    ensures others { (source : Option Source) (own : Whose) → CameFrom source own messages.old.items
        → CameFrom source own messages.new.items }
    ensures last { (source : Option Source) (own : Whose) → CameFrom source own messages.old.items
        → IfSome result (λ m. is_from source own m ≡ true) }
{
    messages.pop()
}

/// Puts the last of them first.
fn turn_round(messages: &mut Vec<Message>)
    ensures { (source : Option Source) (own : Whose) → CameFrom source own messages.old.items
        → CameFrom source own messages.new.items }
{
    messages.reverse();
}

/// Reads a connection, if there is one at this place, until something came; nothing had come before. False where it's
/// over.
#[tactic(auto, using(crate::proofs::Passed::nothing_came))]
fn read_at(
    peers: &mut Vec<Peer>,
    place: usize,
    alloc: Global,
    own: Party,
    source: &mut Option<Accepted>,
    came: &mut Vec<Message>,
) -> bool
    ensures { came.old.items ≡ [] → CameFrom source.new own came.new.items }
{
    match peers.get_mut(place) {
        Some(peer) => peer.read(alloc, own, source, came),
        None => true,
    }
}

/// A connection in the making to this address, told under this token.
fn dial<R: Net>(rt: &R, poll: &Poll, address: SocketAddr, token: usize) -> io::Result<Wire> {
    let mut wire = Wire::connect(rt, address)?;
    let both = Interest::READABLE | Interest::WRITABLE;
    poll.registry().register(&mut wire, Token(token), both)?;
    Ok(wire)
}

/// The token of the event at this place, if there is one.
fn token_at(events: &Events<Global>, place: usize) -> Option<usize> {
    let Token(token) = events.iter().nth(place)?.token();
    Some(token)
}

impl<R> PeerLink<R>
where
    R: Wait + Clock + RandomSource + Net<Listener = TcpListener, Stream = TcpStream> + Copy + Drop,
{
    /// From now on other machines' parties are taken at this listener.
    pub(crate) fn listen(&mut self, listener: TcpListener) -> io::Result<()> {
        listener.set_nonblocking(true)?;
        let mut listener = Listener::from_std(listener);
        self.poll
            .registry()
            .register(&mut listener, Token(LISTENER), Interest::READABLE)?;
        self.listener = Some(listener);
        Ok(())
    }

    /// Sets how long a receive waits from now on.
    pub fn wait_for(&mut self, wait: Duration) {
        self.wait = wait;
    }

    /// In milliseconds since it was made. A clock that fails stands still.
    fn now(&self) -> u64 {
        let now = Instant::now(&self.rt).unwrap_or(self.started);
        let since = now.saturating_duration_since(self.started);
        u64::try_from(since.as_millis()).unwrap_or(u64::MAX)
    }

    /// The party by which a refusal is remembered: none of those that this one isn't connected with.
    fn remembered(&self, party: Option<Party>) -> Option<Party> {
        let party = party?;
        if party == self.party || self.place_of(party) < self.peers.len() {
            Some(party)
        } else {
            None
        }
    }

    /// Tells why whoever says that it's this machine isn't met, unless that was told; of a machine that the group hasn't
    /// no number is told.
    fn unmet(&mut self, machine: Option<u8>, fault: ChallengeFault)
        ensures { self.new.party ≡ self.old.party }
    {
        let known = machine.filter(|number: &u8| *number < FIRST_CONSOLE);
        let unmet = (known, fault);
        if self.unmet.len() < MOST_UNMET && !self.unmet.as_slice().contains(&unmet) {
            // Where memory runs out it's told again.
            let _ = self.unmet.push(unmet);
            self.tell(LinkNotice::Unmet(known, fault));
        }
    }

    /// Tells what changed, if this is a replica's link: one link of a machine does.
    fn tell(&self, notice: LinkNotice) {
        if let Party::Replica(_) = self.party {
            self.exchange.note(&self.rt, notice);
        }
    }

    /// Tells a refusal, unless it was told.
    fn refuse(&mut self, party: Option<Party>, refusal: Refusal)
        ensures { self.new.party ≡ self.old.party }
    {
        let remembered = self.remembered(party);
        if self.told.is_new(remembered, refusal) {
            self.tell(LinkNotice::Refused(party, refusal));
        }
    }

    /// Tells what changed of the connection to this party.
    fn note(&mut self, party: Party, change: Change)
        ensures { self.new.party ≡ self.old.party }
    {
        match change {
            Change::None => {}
            Change::Joined => {
                self.told.forget(party);
                self.unmet.clear();
                self.tell(LinkNotice::Joined(party));
            }
            Change::Lost => self.tell(LinkNotice::Lost(party)),
            Change::Forged => self.tell(LinkNotice::Forged(party)),
            Change::Unmet(fault) => self.unmet(Some(machine_of(party)), fault),
            Change::Refused(refusal) => self.refuse(Some(party), refusal),
        }
    }

    /// The connection at this place is over, as a call told.
    fn end(&mut self, place: usize)
        ensures { self.new.party ≡ self.old.party }
    {
        let now = self.now();
        if let Some(peer) = self.peers.get_mut(place) {
            let (party, change) = (peer.party, peer.over(now));
            self.note(party, change);
        }
    }

    /// Dials the party at this place if it's time, or goes on with its connection.
    fn tend_peer(&mut self, place: usize, now: u64)
        ensures { self.new.party ≡ self.old.party }
    {
        let Some(peer) = self.peers.get_mut(place) else {
            return;
        };
        if let Some(address) = peer.to_dial(now) {
            match dial(&self.rt, &self.poll, address, place) {
                Ok(wire) => peer.dialled(wire, now),
                Err(_) => peer.failed(now),
            }
            return;
        }
        let (rt, alloc, guard) = (&self.rt, self.alloc, self.guard);
        let (party, change) = (peer.party, peer.tend(rt, alloc, guard, &self.own, now));
        let (heard, store) = (peer.take_heard(), peer.take_store());
        if let Some(hello) = heard {
            self.hear(&hello);
        }
        if let Some(store) = store {
            self.see(party, store);
        }
        self.note(party, change);
    }

    /// Tells which store a machine has, if this party and that are replicas: one link of a machine does.
    fn see(&self, party: Party, store: u64) {
        if let (Party::Replica(_), Party::Replica(number)) = (self.party, party) {
            self.exchange.see(&self.rt, number, store);
        }
    }

    /// Tells whose hello came, if it's of a replica of this group that this party is connected with.
    fn hear(&self, hello: &Hello) {
        if self.place_of(hello.party) == self.peers.len() {
            return;
        }
        if let Some((replica, epoch)) = heard_in(&self.own, hello) {
            self.exchange.hear(&self.rt, replica, epoch);
        }
    }

    /// Answers what a stranger said, and keeps the connection if its hello is accepted. A visit is kept, unanswered.
    fn welcome(&mut self, introduced: Introduced, now: u64)
        ensures { self.new.party ≡ self.old.party }
    {
        match introduced {
            Introduced::Said(wire, hello) => self.answer(Line::plain(wire), &hello, now),
            Introduced::Met(wire, proved) => {
                let hello = proved.hello;
                self.answer(Line::sealed(wire, proved.ends), &hello, now);
            }
            Introduced::Unmet(machine, fault) => self.unmet(machine, fault),
            Introduced::OtherVersion(wire) => {
                let mut wire = wire;
                greet(self.alloc, &mut wire, &said_to_strangers(self.party));
                self.refuse(None, Refusal::OtherVersion);
            }
            Introduced::Visited(visit) => self.exchange.visited(&self.rt, visit),
        }
    }

    /// What is known now of a party; nothing of one that it isn't connected with.
    fn known(&self, party: Party, now: u64) -> Known {
        match self.peers.get(self.place_of(party)) {
            Some(peer) => peer.known(now),
            None => Known::nothing(),
        }
    }

    /// Answers this hello, and keeps the connection if it's accepted.
    fn answer(&mut self, line: Line, hello: &Hello, now: u64)
        ensures { self.new.party ≡ self.old.party }
    {
        self.hear(hello);
        let answer = self.own.answer_to(hello, self.known(hello.party, now));
        let mut line = line;
        if say(self.alloc, &mut line, &answer).is_some() {
            let change = self.join(hello, line, now);
            self.note(hello.party, change);
        }
    }

    /// Keeps a connection that came in, if its hello is accepted: what there was of its party is over.
    fn join(&mut self, hello: &Hello, line: Line, now: u64) -> Change
        ensures { self.new.party ≡ self.old.party }
    {
        let place = self.place_of(hello.party);
        let mut line = line;
        let both = Interest::READABLE | Interest::WRITABLE;
        if self
            .poll
            .registry()
            .reregister(&mut line.wire, Token(place), both)
            .is_err()
        {
            return Change::None;
        }
        let seen = self.peers.get(place).and_then(|peer| peer.seen(now));
        match Connection::accept(self.alloc, &self.own, seen, hello, line) {
            Ok(connection) => match self.peers.get_mut(place) {
                Some(peer) => peer.opens(self.alloc, connection, now),
                None => Change::None,
            },
            Err(unopened) => Change::of_unopened(unopened),
        }
    }

    /// The place of this party; behind all places if it's none to be connected with.
    fn place_of(&self, party: Party) -> usize {
        let place = self.peers.iter().position(|peer| peer.party == party);
        place.unwrap_or(self.peers.len())
    }

    /// Takes the connections that wait, and hears those that have said no hello yet.
    fn tend_strangers(&mut self, now: u64)
        ensures { self.new.party ≡ self.old.party }
    {
        if let Some(listener) = &self.listener {
            self.strangers.accept(listener, self.poll.registry(), now);
        }
        for place in 0..self.strangers.count() {
            let (rt, alloc) = (&self.rt, self.alloc);
            if let Some(introduced) = self.strangers.hear(rt, alloc, place, &self.own, now) {
                self.welcome(introduced, now);
            }
        }
    }

    /// Dials, greets, sends beats, and lets go of what is silent, unless that was done just now.
    fn tend(&mut self, now: u64)
        ensures { self.new.party ≡ self.old.party }
    {
        if let Some(tended) = self.tended {
            if now.saturating_sub(tended) < TENDING {
                return;
            }
        }
        self.tended = Some(now);
        self.tend_strangers(now);
        for place in 0..self.peers.len() {
            self.tend_peer(place, now);
        }
        self.show(now);
    }

    /// Shows which replicas are connected, and from which something came just now, if this is a replica's link.
    fn show(&self, now: u64) {
        if let Party::Client(_) = self.party {
            return;
        }
        let (mut reached, mut near) = (0u8, 0u8);
        for peer in &self.peers {
            let bit = bit_of(peer.party);
            if peer.has_joined() {
                reached = reached | bit;
            }
            if peer.is_near(now) {
                near = near | bit;
            }
        }
        self.exchange.show(reached, near);
    }

    /// From when on what is under way is looked at: when something is to be done, but not again at once.
    fn next_tending(&self) -> u64 {
        let Some(tended) = self.tended else {
            return 0;
        };
        let mut due = self.strangers.next_due();
        for peer in &self.peers {
            due = due.min(peer.next_due());
        }
        due.max(tended.saturating_add(TENDING))
    }

    /// How long a wait may be: the link's own, and no longer than until something is to be done.
    fn patience(&self, now: u64) -> Duration {
        let left = self.next_tending().saturating_sub(now);
        self.wait.min(Duration::from_millis(left))
    }

    /// Waits for so long that something happens. Then connections that are ready are known, what waited was written,
    /// and what is under way goes on.
    fn look(&mut self, wait: Duration)
        ensures { self.new.party ≡ self.old.party }
    {
        self.unseen = 0;
        // Where it fails it gives no event.
        let _ = self.poll.poll(&mut self.events, Some(wait));
        for place in 0..EVENTS {
            let Some(token) = token_at(&self.events, place) else {
                break;
            };
            self.wake(token);
        }
        let now = self.now();
        self.tend(now);
    }

    /// What has this token is ready.
    fn wake(&mut self, token: usize)
        ensures { self.new.party ≡ self.old.party }
    {
        let (is_open, goes_on) = match self.peers.get_mut(token) {
            Some(peer) => (peer.is_open(), peer.wake()),
            None => (token == WAKER, true),
        };
        if !is_open {
            self.tended = None;
        }
        if !goes_on {
            self.end(token);
        }
    }

    /// Reads the connection that is next, if it's ready, until something came, and holds the last first. Nothing had
    /// arrived before.
    fn read_next(&mut self)
        requires { self.old.arrived.items ≡ [] }
        ensures { self.new.party ≡ self.old.party }
    {
        let place = self.next;
        self.next = place.saturating_add(1);
        if self.next >= self.peers.len() {
            self.next = 0;
        }
        let PeerLink {
            alloc,
            party,
            peers,
            source,
            arrived,
            ..
        } = self;
        let goes_on = read_at(peers, place, *alloc, *party, source, arrived);
        turn_round(arrived);
        if !goes_on {
            self.end(place);
        }
    }

    /// Reads ready connections, one after the other, until something arrived.
    fn read_ready(&mut self)
        ensures { self.new.party ≡ self.old.party }
    {
        for _ in 0..self.peers.len() {
            if self.arrived.is_empty() {
                self.read_next();
            }
        }
    }

    /// Takes what the machine's other parties sent, where nothing had arrived. False where the link is cut.
    fn read_near(&mut self) -> bool
        ensures { self.new.party ≡ self.old.party }
    {
        let Some(messages) = self.exchange.take(&self.rt, self.alloc, self.place) else {
            return false;
        };
        let mut messages = messages;
        keep_to(&mut messages, self.party);
        turn_round(&mut messages);
        self.source = None;
        self.arrived = messages;
        true
    }

    /// Reads what is there, from the machine's other parties first. False where the link is cut.
    fn read(&mut self) -> bool
        ensures { self.new.party ≡ self.old.party }
    {
        if !self.read_near() {
            return false;
        }
        if self.arrived.is_empty() {
            self.read_ready();
        }
        true
    }

    /// Reads what is ready, and where there is nothing waits once for it. False where the link is cut.
    fn gather(&mut self) -> bool
        ensures { self.new.party ≡ self.old.party }
    {
        self.unseen = self.unseen.saturating_add(1);
        if self.unseen > MOST_UNSEEN {
            self.look(Duration::from_millis(0));
        }
        if !self.read() {
            return false;
        }
        if !self.arrived.is_empty() {
            return true;
        }
        let now = self.now();
        self.look(self.patience(now));
        self.read()
    }

    /// Ends all of its connections; what came and wasn't given yet is lost.
    fn close(&mut self)
        ensures { self.new.party ≡ self.old.party }
    {
        for place in 0..self.peers.len() {
            self.end(place);
        }
        self.arrived.clear();
    }

    /// What a receive gives: a message to this party, and no other, from the machine's other parties or from the party
    /// of the accepted hello with which the connection began that it came over.
    fn receive(&mut self) -> Input
        ensures { IsGiven self.new.source self.old.party result }
    {
        if let Some(message) = take_last(&mut self.arrived) {
            return Input::Message(message);
        }
        if !self.gather() {
            self.close();
            return Input::Closed;
        }
        match take_last(&mut self.arrived) {
            Some(message) => Input::Message(message),
            None => Input::Nothing,
        }
    }

    /// Sends a message over the connection to its party, if there is one; counts it where it has no frame.
    fn send_far(&mut self, message: &Message)
        ensures { self.new.party ≡ self.old.party }
    {
        let place = self.place_of(message.to);
        let Some(peer) = self.peers.get_mut(place) else {
            return;
        };
        match peer.send(self.alloc, message) {
            Ok(true) => {}
            Ok(false) => self.end(place),
            Err(Loss::NoFrame) => self.frameless = self.frameless.saturating_add(1),
            Err(Loss::Slow | Loss::Memory) => {}
        }
    }
}

/// The bit of a replica.
fn bit_of(party: Party) -> u8 {
    match party {
        Party::Replica(number) if number < 8 => 1u8 << number,
        _ => 0,
    }
}

/// Drops each message that isn't to this party.
fn keep_to(messages: &mut Vec<Message>, party: Party)
    ensures { AreTo party messages.new.items }
{
    messages.retain(
        |message: &Message| -> bool
            ensures { result ≡ is_same message.now.to party }
        { is_same(message.to, party) },
    );
}

impl<R> Link for PeerLink<R>
where
    R: Wait + Clock + RandomSource + Net<Listener = TcpListener, Stream = TcpStream> + Copy + Drop,
{
    ghost inputs = { λ _. None };

    ghost sent = { λ _. None };

    fn recv(&mut self) -> Input {
        self.receive()
    }

    fn send(&mut self, message: Message) {
        if let Some(message) = self.exchange.post(&self.rt, message) {
            self.send_far(&message);
        }
    }

    fn frameless(&self) -> u64 {
        self.frameless
    }
}

impl<R> Relink for PeerLink<R>
where
    R: Wait
        + Clock
        + RandomSource
        + Net<Listener = TcpListener, Stream = TcpStream>
        + Copy
        + Send
        + Drop
        + 'static,
{
    type Cutter = PeerCutter<R>;

    fn cutter(&self) -> Result<PeerCutter<R>, AllocError> {
        Ok(PeerCutter {
            rt: self.rt,
            exchange: Arc::try_clone(&self.exchange)?,
            place: self.place,
        })
    }

    fn renew(&mut self) -> Result<(), Unlinked> {
        self.close();
        self.exchange.open(&self.rt, self.place);
        Ok(())
    }
}
