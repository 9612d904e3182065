//! The places for connections that are served.

use crate::wire::Guest;
use std::alloc::{AllocError, Global};
use std::sync::atomic::{AtomicBool, Ordering};
use std::sync::{Mutex, Wait};

/// A place for one session: free where it has no connection.
#[derive(Drop)]
struct Place<S: Drop> {
    /// What connections are served with here: taken along while one is.
    session: Option<S>,
    guest: Option<Guest>,
}

/// The places, each with what serves its connections.
#[derive(Drop)]
pub(crate) struct Places<S: Drop> {
    places: Vec<Mutex<Place<S>>>,
    are_closed: AtomicBool,
}

impl<S: Drop> Places<S> {
    /// A place for each of these.
    pub(crate) fn new(alloc: Global, sessions: Vec<S>) -> Result<Places<S>, AllocError> {
        let mut places = Vec::new(alloc);
        for session in sessions {
            places.push(Mutex::new(Place {
                session: Some(session),
                guest: None,
            }))?;
        }
        Ok(Places {
            places,
            are_closed: AtomicBool::new(false),
        })
    }

    /// Takes a free place for a connection, of which it keeps a handle: the number of the place. None where each is
    /// taken, they are closed, or no handle is to be had.
    pub(crate) fn take<R: Wait>(&self, rt: &R, guest: &Guest) -> Option<usize> {
        for (number, place) in self.places.iter().enumerate() {
            let mut place = place.lock(rt);
            if self.are_closed.load(Ordering::SeqCst) {
                return None;
            }
            if place.guest.is_none() {
                place.guest = Some(guest.again().ok()?);
                return Some(number);
            }
        }
        None
    }

    /// What serves the connection of a place that was taken.
    pub(crate) fn lend<R: Wait>(&self, rt: &R, number: usize) -> Option<S> {
        let place = self.places.get(number)?;
        place.lock(rt).session.take()
    }

    /// Gives it back.
    pub(crate) fn give_back<R: Wait>(&self, rt: &R, number: usize, session: S) {
        if let Some(place) = self.places.get(number) {
            place.lock(rt).session = Some(session);
        }
    }

    /// The place is free again.
    pub(crate) fn leave<R: Wait>(&self, rt: &R, number: usize) {
        if let Some(place) = self.places.get(number) {
            place.lock(rt).guest = None;
        }
    }

    /// Whether they are closed.
    pub(crate) fn are_closed(&self) -> bool {
        self.are_closed.load(Ordering::SeqCst)
    }

    /// Has the connection of the first place give way: its session reads what came by now, and then the end.
    pub(crate) fn dismiss<R: Wait>(&self, rt: &R) {
        if let Some(place) = self.places.first() {
            if let Some(guest) = &place.lock(rt).guest {
                guest.dismiss();
            }
        }
    }

    /// Ends the reads and writes of each session, and lets no other begin.
    pub(crate) fn close<R: Wait>(&self, rt: &R) {
        self.are_closed.store(true, Ordering::SeqCst);
        for place in &self.places {
            if let Some(guest) = &place.lock(rt).guest {
                guest.cut();
            }
        }
    }

    /// How many there are.
    pub(crate) fn count(&self) -> usize {
        self.places.len()
    }

    /// Adds what serves connections at each place, and leaves nothing there. These have room for so many as there are
    /// places.
    pub(crate) fn clear_into<R: Wait>(&self, rt: &R, sessions: &mut Vec<S>) {
        for place in &self.places {
            let session = place.lock(rt).session.take();
            if let Some(session) = session {
                let _ = sessions.push(session);
            }
        }
    }
}
