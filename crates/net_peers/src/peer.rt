//! A party of another machine, and the connection to it.

ghost use Rattle.std.specs.Prelude.{◌≡◌, [], Err};
ghost use Rattle.vr_wire.specs.Frames.{IsFramed};
ghost use Rattle.net_ends.specs.declared.outbox.Loss.TheVariants.{NoFrame};
ghost use Rattle.net_peers.specs.Passing.{CameFrom};

use crate::accepted::Accepted;
use crate::acquaintance::Acquaintance;
use crate::connection::{Connection, Unopened};
use crate::course::{Course, Pulse};
use crate::greeting::{Greeted, Greeting, greet};
use crate::guard::{Guard, machine_of};
use crate::meeting::{Line, Meeting, Met};
use crate::phase::Duty;
use crate::proved::Word;
use mio::net::TcpStream as Wire;
use net_ends::Loss;
use net_hello::{Hello, HelloFault, Known, Refusal};
use net_keys::ChallengeFault;
use std::alloc::Global;
use std::mem;
use std::net::SocketAddr;
use std::random::RandomSource;
use vr_model::{Message, Party};

/// Where the connection to a party stands.
#[derive(Drop)]
enum State {
    Away,
    Dialling(Wire),
    Greeting(Greeting),
    Meeting(Meeting),
    Open(Box<Connection>),
}

/// What came of a look at a connection.
#[derive(Clone, Copy, Debug, PartialEq, Eq)]
pub(crate) enum Change {
    None,
    /// Something came behind the hello.
    Joined,
    /// That was so, and it's over.
    Lost,
    /// That was so, and it's over because a record came that was forged or damaged.
    Forged,
    /// The other end's hello was refused.
    Refused(Refusal),
    /// Its machine hasn't proved that it has the key.
    Unmet(ChallengeFault),
}

impl Change {
    /// That a connection wasn't opened.
    pub(crate) fn of_unopened(unopened: Unopened) -> Change {
        match unopened {
            Unopened::Refused(refusal) => Change::Refused(refusal),
            Unopened::Memory => Change::None,
        }
    }
}

/// A party of another machine.
#[derive(Drop)]
pub(crate) struct Peer {
    pub(crate) party: Party,
    /// Where it's dialled, if it's this end that dials.
    address: Option<SocketAddr>,
    state: State,
    course: Course,
    acquaintance: Acquaintance,
    /// Whether its machine's store was seen for the first time, and nobody asked for that yet.
    is_store_new: bool,
    has_joined: bool,
    /// The last hello that came where it was dialled, until it's asked for.
    heard: Option<Hello>,
}

impl Peer {
    /// A party that is not connected yet, and is dialled at once if it's this end that dials. Its machine has this store,
    /// as far as it's known; 0 where none was seen.
    pub(crate) fn new(party: Party, address: Option<SocketAddr>, pulse: Pulse, store: u64) -> Peer {
        Peer {
            party,
            address,
            state: State::Away,
            course: Course::new(pulse, 0),
            acquaintance: Acquaintance::new(store),
            is_store_new: false,
            has_joined: false,
            heard: None,
        }
    }

    /// What is known of it now.
    pub(crate) fn known(&self, now: u64) -> Known {
        self.acquaintance.known(now)
    }

    /// The same, if it's the other end that dials.
    pub(crate) fn seen(&self, now: u64) -> Option<Known> {
        match self.address {
            None => Some(self.known(now)),
            Some(_) => None,
        }
    }

    /// The number of its machine's store, where that was seen for the first time since it was asked.
    pub(crate) fn take_store(&mut self) -> Option<u64> {
        if !self.is_store_new {
            return None;
        }
        self.is_store_new = false;
        Some(self.acquaintance.known.store)
    }

    /// The hello that came last where it was dialled, accepted or not, unless that was asked before.
    pub(crate) fn take_heard(&mut self) -> Option<Hello> {
        self.heard.take()
    }

    /// Whether something came over its connection, and that isn't over.
    pub(crate) fn has_joined(&self) -> bool {
        self.has_joined
    }

    /// Whether its hello was accepted, and its connection isn't over.
    pub(crate) fn is_open(&self) -> bool {
        self.course.is_open()
    }

    /// Whether something came from it just now.
    pub(crate) fn is_near(&self, now: u64) -> bool {
        self.has_joined && self.course.is_near(now)
    }

    /// Until when there is nothing to be done.
    pub(crate) fn next_due(&self) -> u64 {
        match (&self.state, self.address) {
            (State::Away, None) => u64::MAX,
            _ => self.course.next_due(),
        }
    }

    /// Where it's to be dialled now.
    pub(crate) fn to_dial(&self, now: u64) -> Option<SocketAddr> {
        match self.course.duty(now) {
            Duty::Dial => self.address,
            _ => None,
        }
    }

    /// It was dialled.
    pub(crate) fn dialled(&mut self, wire: Wire, now: u64) {
        self.state = State::Dialling(wire);
        self.course.dialled(now);
    }

    /// It's not connected, and is dialled again after a pause.
    pub(crate) fn failed(&mut self, now: u64) {
        self.state = State::Away;
        self.course.failed(now);
    }

    /// Its connection is over.
    pub(crate) fn over(&mut self, now: u64) -> Change {
        let is_forged = matches!(&self.state, State::Open(connection) if connection.is_forged());
        self.state = State::Away;
        if self.course.is_open() {
            self.acquaintance.end(now);
        }
        self.course.closed(now);
        if self.has_joined {
            self.has_joined = false;
            return if is_forged {
                Change::Forged
            } else {
                Change::Lost
            };
        }
        Change::None
    }

    /// From now on this is its connection. One that it had is over.
    pub(crate) fn opens(&mut self, alloc: Global, connection: Connection, now: u64) -> Change {
        let change = self.over(now);
        if self.acquaintance.accept(&connection.accepted().hello) {
            self.is_store_new = true;
        }
        if let Ok(connection) = Box::new(alloc, connection) {
            self.state = State::Open(connection);
            self.course.opened(now);
        }
        change
    }

    /// Goes on with what is under way.
    pub(crate) fn tend<R: RandomSource>(
        &mut self,
        rt: &R,
        alloc: Global,
        guard: Option<Guard>,
        own: &Hello,
        now: u64,
    ) -> Change {
        match mem::replace(&mut self.state, State::Away) {
            State::Away => Change::None,
            State::Dialling(wire) => {
                let known = self.known(now);
                if let Some(wire) = self.reached(wire, now) {
                    self.begin(rt, alloc, wire, guard, &Hello { known, ..*own });
                }
                if matches!(self.state, State::Away) {
                    self.failed(now);
                }
                Change::None
            }
            State::Meeting(meeting) => self.tend_meeting(rt, alloc, meeting, own, now),
            State::Greeting(greeting) => self.tend_greeting(alloc, greeting, own, now),
            State::Open(connection) => self.tend_open(connection, now),
        }
    }

    /// The connection that was dialled, once it's there. It isn't waited for any longer where it failed.
    fn reached(&mut self, wire: Wire, now: u64) -> Option<Wire> {
        let is_late = self.course.duty(now) == Duty::GiveUp;
        if is_late || !matches!(wire.take_error(), Ok(None)) {
            return None;
        }
        if wire.peer_addr().is_err() {
            self.state = State::Dialling(wire);
            return None;
        }
        Some(wire)
    }

    /// Says this hello over a connection that was dialled, or first this end's challenge where there's a key. Its state
    /// stays as it is where it doesn't.
    fn begin<R: RandomSource>(
        &mut self,
        rt: &R,
        alloc: Global,
        wire: Wire,
        guard: Option<Guard>,
        own: &Hello,
    ) {
        match guard {
            Some(guard) => {
                let machine = machine_of(self.party);
                if let Some(meeting) = Meeting::dialled(rt, alloc, wire, guard, machine) {
                    self.state = State::Meeting(meeting);
                }
            }
            None => {
                let mut wire = wire;
                if greet(alloc, &mut wire, own) {
                    self.state = State::Greeting(Greeting::new(wire));
                }
            }
        }
    }

    /// Hears the machine that was dialled, which is to prove that it has the key.
    fn tend_meeting<R: RandomSource>(
        &mut self,
        rt: &R,
        alloc: Global,
        meeting: Meeting,
        own: &Hello,
        now: u64,
    ) -> Change {
        let known = self.known(now);
        let mut meeting = meeting;
        match meeting.hear(rt, alloc, &Hello { known, ..*own }) {
            Met::Waits if self.course.duty(now) != Duty::GiveUp => {
                self.state = State::Meeting(meeting);
                Change::None
            }
            Met::Says(Word::Hello(proved)) => {
                let hello = proved.hello;
                let line = Line::sealed(meeting.wire, proved.ends);
                self.answered(alloc, line, own, &hello, now)
            }
            Met::Unmet(_, fault) => {
                self.failed(now);
                Change::Unmet(fault)
            }
            _ => {
                self.failed(now);
                Change::None
            }
        }
    }

    /// Hears the other end's hello.
    fn tend_greeting(
        &mut self,
        alloc: Global,
        greeting: Greeting,
        own: &Hello,
        now: u64,
    ) -> Change {
        let mut greeting = greeting;
        match greeting.hear() {
            Greeted::Waits if self.course.duty(now) != Duty::GiveUp => {
                self.state = State::Greeting(greeting);
                Change::None
            }
            Greeted::Said(hello) => {
                self.answered(alloc, Line::plain(greeting.wire), own, &hello, now)
            }
            Greeted::Faulty(HelloFault::OtherVersion) => {
                self.failed(now);
                Change::Refused(Refusal::OtherVersion)
            }
            _ => {
                self.failed(now);
                Change::None
            }
        }
    }

    /// The other end, which was dialled, said this hello.
    fn answered(
        &mut self,
        alloc: Global,
        line: Line,
        own: &Hello,
        hello: &Hello,
        now: u64,
    ) -> Change {
        self.heard = Some(*hello);
        let seen = if hello.party == self.party {
            Some(self.known(now))
        } else {
            None
        };
        match Connection::accept(alloc, own, seen, hello, line) {
            Ok(connection) => self.opens(alloc, connection, now),
            Err(unopened) => {
                self.failed(now);
                Change::of_unopened(unopened)
            }
        }
    }

    /// Notes what came and went, sends a beat where one is due, and ends a connection that is silent and of which
    /// nothing waits to be read: this end may have stood still.
    fn tend_open(&mut self, connection: Box<Connection>, now: u64) -> Change {
        let mut connection = connection;
        let signs = connection.signs();
        if signs.has_come {
            self.course.heard(now);
        }
        if signs.has_gone {
            self.course.sent(now);
        }
        let goes_on = match self.course.duty(now) {
            Duty::End => connection.is_ready(),
            Duty::Beat => connection.beat(),
            _ => true,
        };
        if !goes_on {
            return self.over(now);
        }
        self.state = State::Open(connection);
        if signs.has_come && !self.has_joined {
            self.has_joined = true;
            return Change::Joined;
        }
        Change::None
    }

    /// Its connection may have something to read, or take more. False where it's over.
    pub(crate) fn wake(&mut self) -> bool {
        match &mut self.state {
            State::Open(connection) => connection.wake(),
            _ => true,
        }
    }

    /// Sends a message over its connection, if there is one: `false` where that's over. One that's lost changes
    /// nothing.
    pub(crate) fn send(&mut self, alloc: Global, message: &Message) -> Result<bool, Loss>
        ensures { result ≡ Err NoFrame → IsFramed message.now → ⊥ }
    {
        match &mut self.state {
            State::Open(connection) => connection.send(alloc, message),
            _ => Ok(true),
        }
    }

    /// Reads until a message came or there is no more for now; nothing had come before. Notes whose hello the
    /// connection began with. False where the connection is over.
    #[tactic(auto, using(crate::proofs::Passed::nothing_passes, crate::proofs::Passed::nothing_came))]
    pub(crate) fn read(
        &mut self,
        alloc: Global,
        own: Party,
        source: &mut Option<Accepted>,
        came: &mut Vec<Message>,
    ) -> bool
        ensures { came.old.items ≡ [] → CameFrom source.new own came.new.items }
    {
        match &mut self.state {
            State::Open(connection) => {
                *source = Some(connection.accepted());
                connection.read(alloc, own, came)
            }
            _ => true,
        }
    }
}
