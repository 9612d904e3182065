//! Connections that came in and whose other ends have said no hello yet.

ghost use Rattle.std.specs.Prelude.{◌≤◌, length};

use crate::greeting::{Greeted, Greeting};
use crate::guard::Guard;
use crate::meeting::{Meeting, Met};
use crate::proved::{Proved, Word};
use crate::visiting::Visited;
use mio::net::{TcpListener as Listener, TcpStream as Wire};
use mio::{Interest, Registry, Token};
use net_hello::{Hello, HelloFault};
use net_keys::ChallengeFault;
use std::alloc::{AllocError, Global};
use std::random::RandomSource;

/// So many are kept; a further one is closed.
pub(crate) const STRANGERS: usize = 16;

/// In milliseconds: who hasn't said hello by then is let go.
const PATIENCE: u64 = 400;

/// The token of the first place.
const FIRST: usize = 1000;

/// A connection that came in: whose other end is to say hello, or to prove first that it has the key.
#[derive(Drop)]
enum Introduction {
    Greeting(Greeting),
    Meeting(Meeting),
}

/// A connection that came in, and when.
#[derive(Drop)]
struct Stranger {
    introduction: Introduction,
    since: u64,
}

/// What a stranger said, and the connection if it's to be answered.
#[derive(Drop)]
pub(crate) enum Introduced {
    Said(Wire, Hello),
    /// Its machine has proved that it says this.
    Met(Wire, Proved),
    /// Whoever says that it's the machine of this number hasn't.
    Unmet(Option<u8>, ChallengeFault),
    /// A hello of another version.
    OtherVersion(Wire),
    /// The bytes of a visit, whose connection is closed.
    Visited(Visited),
}

/// Those whose other ends have said no hello yet, by places.
#[derive(Drop)]
pub(crate) struct Strangers {
    places: Vec<Option<Stranger>>,
    /// By which they prove that they are of the group, where it has a key.
    guard: Option<Guard>,
    ghost few: { length places.items ≤ 16 },
}

impl Strangers {
    /// No connection came in yet. It fails only where memory runs out.
    pub(crate) fn new(alloc: Global, guard: Option<Guard>) -> Result<Strangers, AllocError> {
        let mut places = Vec::new(alloc);
        for _ in 0..STRANGERS {
            places.push(None)?;
        }
        Ok(Strangers { places, guard })
    }

    /// Takes the connections that wait at the listener. One that there is no place for is closed.
    pub(crate) fn accept(&mut self, listener: &Listener, registry: &Registry, now: u64) {
        for _ in 0..STRANGERS {
            let Ok((wire, _)) = listener.accept() else {
                return;
            };
            self.keep(wire, registry, now);
        }
    }

    /// Keeps a connection at the first place that is free, if one is.
    fn keep(&mut self, wire: Wire, registry: &Registry, now: u64) {
        let Some(place) = self.places.iter().position(|stranger| stranger.is_none()) else {
            return;
        };
        let mut wire = wire;
        let both = Interest::READABLE | Interest::WRITABLE;
        let token = Token(FIRST.saturating_add(place));
        if registry.register(&mut wire, token, both).is_err() {
            return;
        }
        let introduction = match self.guard {
            Some(guard) => Introduction::Meeting(Meeting::of_stranger(wire, guard)),
            None => Introduction::Greeting(Greeting::new(wire)),
        };
        if let Some(slot) = self.places.get_mut(place) {
            *slot = Some(Stranger {
                introduction,
                since: now,
            });
        }
    }

    /// When the next one is let go, unless it says hello.
    pub(crate) fn next_due(&self) -> u64 {
        let mut due = u64::MAX;
        for stranger in &self.places {
            if let Some(stranger) = stranger {
                due = due.min(stranger.since.saturating_add(PATIENCE));
            }
        }
        due
    }

    /// How many places there are.
    pub(crate) fn count(&self) -> usize {
        self.places.len()
    }

    /// Hears the one at this place, which is answered by this hello. What it said, if it said a hello or left a visit;
    /// one that says something else, or nothing for too long, is closed.
    pub(crate) fn hear<R: RandomSource>(
        &mut self,
        rt: &R,
        alloc: Global,
        place: usize,
        own: &Hello,
        now: u64,
    ) -> Option<Introduced> {
        let slot = self.places.get_mut(place)?;
        let Stranger {
            introduction,
            since,
        } = slot.take()?;
        let is_late = now.saturating_sub(since) >= PATIENCE;
        let heard = match introduction {
            Introduction::Greeting(greeting) => greeted(greeting),
            Introduction::Meeting(meeting) => met(rt, alloc, meeting, own),
        };
        match heard {
            Heard::Introduced(introduced) => Some(introduced),
            Heard::Waits(introduction) => {
                if !is_late {
                    *slot = Some(Stranger {
                        introduction,
                        since,
                    });
                }
                None
            }
            Heard::Over => None,
        }
    }
}

/// What came of one that was heard.
#[derive(Drop)]
enum Heard {
    Introduced(Introduced),
    Waits(Introduction),
    Over,
}

fn greeted(greeting: Greeting) -> Heard {
    let mut greeting = greeting;
    match greeting.hear() {
        Greeted::Waits => Heard::Waits(Introduction::Greeting(greeting)),
        Greeted::Said(hello) => Heard::Introduced(Introduced::Said(greeting.wire, hello)),
        Greeted::Faulty(HelloFault::OtherVersion) => {
            Heard::Introduced(Introduced::OtherVersion(greeting.wire))
        }
        Greeted::Visits(bytes) => {
            Heard::Introduced(Introduced::Visited(Visited { by: None, bytes }))
        }
        Greeted::Faulty(HelloFault::NoHello) | Greeted::Over => Heard::Over,
    }
}

fn met<R: RandomSource>(rt: &R, alloc: Global, meeting: Meeting, own: &Hello) -> Heard {
    let mut meeting = meeting;
    match meeting.hear(rt, alloc, own) {
        Met::Waits => Heard::Waits(Introduction::Meeting(meeting)),
        Met::Says(Word::Hello(proved)) => Heard::Introduced(Introduced::Met(meeting.wire, proved)),
        Met::Says(Word::Visit(left)) => {
            let bytes = left.bytes;
            let by = Some(left.by);
            Heard::Introduced(Introduced::Visited(Visited { by, bytes }))
        }
        Met::Unmet(machine, fault) => Heard::Introduced(Introduced::Unmet(machine, fault)),
        Met::Says(Word::Other) | Met::Over => Heard::Over,
    }
}
