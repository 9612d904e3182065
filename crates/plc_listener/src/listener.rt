//! The loop that gives connections their sessions.

use crate::connection::Connection;
use crate::door::{Bound, Door, DoorRuntime};
use crate::places::Places;
use crate::session::Session;
use crate::wire::{Guest, Wire};
use net_addresses::Clients;
use plc_host::{Failed, Host, ServiceRuntime};
use std::alloc::AllocError;
use std::sync::Arc;
use std::thread;
use std::thread::JoinHandle;
use std::time::Duration;

/// For so many pauses a connection waits for a place: one whose client has just gone is free in a moment.
const PATIENCE: u32 = 10;

/// For so many pauses a connection waits for the place of one that gives way: its session may still wait for an answer.
const PATIENCE_WITH_ONE: u32 = 10_000;

/// In milliseconds.
const PAUSE: u64 = 1;

/// What a connection finds that comes while each place is taken.
#[derive(Clone, Copy, PartialEq, Eq)]
pub enum WhenFull {
    /// It's closed unanswered.
    Closes,
    /// It takes over the first place, once the session there has ended: that one reads nothing more.
    TakesOver,
}

/// A port whose connections wait: none is served before it's opened.
#[derive(Drop)]
pub struct Listener<R: ServiceRuntime, S: Drop> {
    host: Host<R>,
    door: Door,
    places: Places<S>,
    /// A session ends whose client has no whole request for so long, or doesn't take its reply.
    idle: Duration,
    when_full: WhenFull,
    /// Who may come: without it everybody.
    clients: Option<Arc<Clients>>,
}

impl<R: ServiceRuntime, S: Session<R> + Send + Drop + 'static> Listener<R, S> {
    /// So many connections at this door are served at once as there are sessions. A session ends whose client has no
    /// whole request, or doesn't take its reply, for as long as `idle`.
    pub fn new(
        host: Host<R>,
        door: Door,
        sessions: Vec<S>,
        idle: Duration,
        when_full: WhenFull,
    ) -> Result<Listener<R, S>, AllocError> {
        Ok(Listener {
            host,
            door,
            places: Places::new(host.alloc, sessions)?,
            idle,
            when_full,
            clients: None,
        })
    }

    /// The same, where a connection is closed at once that comes from an address whom these don't admit: it takes no
    /// place, nor has one give way.
    pub fn for_clients(self, clients: Arc<Clients>) -> Listener<R, S> {
        Listener {
            clients: Some(clients),
            ..self
        }
    }

    /// Whether who has come by this connection may come.
    fn lets_in(&self, wire: &Wire) -> bool {
        match &self.clients {
            Some(clients) => clients.admits(wire.peer()),
            None => true,
        }
    }

    /// A place for this connection, if one is free within so many pauses.
    fn place_within(&self, guest: &Guest, pauses: u32) -> Option<usize> {
        let rt = &self.host.rt;
        for _ in 0..pauses {
            let place = self.places.take(rt, guest);
            if place.is_some() {
                return place;
            }
            if self.places.are_closed() {
                return None;
            }
            thread::sleep(rt, Duration::from_millis(PAUSE));
        }
        None
    }

    /// A place for this connection, if one is free or soon will be, or another connection gives way.
    fn place_for(&self, guest: &Guest) -> Option<usize> {
        let place = self.place_within(guest, PATIENCE);
        if place.is_some() || self.when_full == WhenFull::Closes {
            return place;
        }
        self.places.dismiss(&self.host.rt);
        self.place_within(guest, PATIENCE_WITH_ONE)
    }

    /// Who has come by this connection, if he may, whose replies are sent at once, and a place for him.
    fn admit(&self, wire: Wire) -> Option<(Guest, usize)> {
        if !self.lets_in(&wire) {
            return None;
        }
        wire.hasten().ok()?;
        let guest = Guest::new(self.host.alloc, wire).ok()?;
        let place = self.place_for(&guest)?;
        Some((guest, place))
    }

    /// Serves a connection to its end, whichever it is, and frees its place.
    fn attend(&self, place: usize, guest: &Guest) {
        let rt = &self.host.rt;
        if let Some(mut session) = self.places.lend(rt, place) {
            if let Ok(connection) = Connection::new(*rt, guest, self.idle) {
                session.serve(&self.host, &connection);
            }
            self.places.give_back(rt, place, session);
        }
        self.places.leave(rt, place);
    }

    /// Gives each connection a session, in a thread of its own, until the door is shut and each session ended. Where its
    /// client may not come, no place is free, or no thread is to be had, the connection is closed unanswered.
    fn accept_all(&self, bound: &Bound) {
        let rt = &self.host.rt;
        thread::scope(thread::scope_env(), rt, |scope| {
            for _ in 0..u64::MAX {
                let Some(wire) = self.door.next(rt, bound) else {
                    break;
                };
                if let Some((guest, place)) = self.admit(wire) {
                    let session = scope.spawn(move || self.attend(place, &guest));
                    if session.is_err() {
                        self.places.leave(rt, place);
                    }
                }
            }
        });
    }

    /// The same at a door that was open from the start; at another one it's over at once.
    fn accept_at_once(&self) {
        if let Some(bound) = self.door.bound() {
            self.accept_all(bound);
        }
    }

    /// What is shared with the thread that takes connections, and what is known of it.
    fn shared(self) -> Result<(Arc<Listener<R, S>>, Vec<S>, u16), Failed> {
        let port = self.door.port()?;
        let alloc = self.host.alloc;
        let room = Vec::with_capacity(alloc, self.places.count())?;
        Ok((Arc::new(alloc, self)?, room, port))
    }

    /// Gives connections their sessions from now on, by a thread of its own. The door is open from the start.
    pub fn open(self) -> Result<OpenListener<R, S>, Failed> {
        let (listener, room, port) = self.shared()?;
        let shared = Arc::try_clone(&listener)?;
        match thread::spawn(&listener.host.rt, move || shared.accept_at_once()) {
            Ok(acceptor) => Ok(OpenListener {
                listener,
                port,
                acceptor,
                room,
            }),
            Err(_) => Err(Failed::Thread),
        }
    }
}

impl<R: ServiceRuntime, S: Session<R> + Send + Drop + 'static> Listener<R, S> {
    /// Tells the first place whether the door is had.
    fn tell_of_door(&self, is_had: bool) {
        let rt = &self.host.rt;
        if let Some(mut session) = self.places.lend(rt, 0) {
            session.hear_of_door(is_had);
            self.places.give_back(rt, 0, session);
        }
    }
}

impl<R: DoorRuntime, S: Session<R> + Send + Drop + 'static> Listener<R, S> {
    /// What the door wants, as soon as it's to be had, which the first place is told if it isn't at once: nothing once
    /// the door is shut.
    fn bound_when_free(&self) -> Option<Bound> {
        let bound = self.door.bind(&self.host);
        if bound.is_some() {
            return bound;
        }
        self.tell_of_door(false);
        let bound = self.door.bind_when_free(&self.host)?;
        self.tell_of_door(true);
        Some(bound)
    }

    /// Gives connections their sessions as soon as the door is had, until it's shut.
    fn accept_when_free(&self) {
        if let Some(bound) = self.door.bound() {
            self.accept_all(bound);
        } else if let Some(bound) = self.bound_when_free() {
            self.accept_all(&bound);
        }
    }

    /// The same as `open`, where the door may be one that isn't had yet: what it wants is tried until it's to be had.
    pub fn open_when_free(self) -> Result<OpenListener<R, S>, Failed> {
        let (listener, room, port) = self.shared()?;
        let shared = Arc::try_clone(&listener)?;
        match thread::spawn(&listener.host.rt, move || shared.accept_when_free()) {
            Ok(acceptor) => Ok(OpenListener {
                listener,
                port,
                acceptor,
                room,
            }),
            Err(_) => Err(Failed::Thread),
        }
    }
}

/// A port whose connections are served. It can't be let go of but by `close`, which joins its thread.
pub struct OpenListener<R: ServiceRuntime, S: Drop> {
    listener: Arc<Listener<R, S>>,
    port: u16,
    acceptor: JoinHandle<()>,
    /// Empty, for what serves connections at each place, once none is served.
    room: Vec<S>,
}

impl<R: ServiceRuntime, S: Drop> OpenListener<R, S> {
    /// The port's number.
    pub fn port(&self) -> u16 {
        self.port
    }

    /// Takes no connection any more, and ends the reads and writes of each session.
    pub fn shut(&self) {
        self.listener.door.shut(&self.listener.host.rt);
        self.listener.places.close(&self.listener.host.rt);
    }

    /// Takes no connection any more, ends each session and the thread, and gives back what served them.
    pub fn close(self) -> Vec<S> {
        self.shut();
        let OpenListener {
            listener,
            port: _port,
            acceptor,
            mut room,
        } = self;
        let rt = &listener.host.rt;
        acceptor.join(rt);
        listener.places.clear_into(rt, &mut room);
        room
    }
}
