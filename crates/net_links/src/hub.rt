//! The mailboxes of the links of one process. The link that dials makes both sockets of a connection, keeps the near
//! one and posts the far one to the mailbox of its peer, which takes it at its next receive. A mailbox also says that
//! its link was cut.

ghost use Rattle.std.specs.Prelude.{◌≡◌, ◌≤◌, length, slice_set, true, false};

use mio::Waker;
use std::alloc::{AllocError, Global};
use std::io;
use std::net::TcpStream;
use std::sync::{Arc, Mutex, Wait};
use vr_model::Party;
use vr_ports::Cutter;

/// What a link finds in its mailbox.
#[derive(Drop)]
pub(crate) enum Post {
    Nothing,
    /// The far end of a connection that the party at this place made.
    Arrival(usize, TcpStream),
    /// It's cut.
    Cut,
}

/// The mailbox of a link.
#[derive(Drop)]
struct Mailbox {
    /// By the places of the parties: the far end of the last connection that each made, unless it was taken.
    arrivals: Vec<Option<TcpStream>>,
    is_cut: bool,
}

impl Mailbox {
    /// With room for an arrival of each of so many parties. It fails only where memory runs out.
    fn new(alloc: Global, parties: usize) -> Result<Mailbox, AllocError> {
        let mut arrivals = Vec::new(alloc);
        for _ in 0..parties {
            arrivals.push(None)?;
        }
        Ok(Mailbox {
            arrivals,
            is_cut: false,
        })
    }

    /// Closes what waits.
    fn clear(&mut self) {
        for arrival in self.arrivals.iter_mut() {
            *arrival = None;
        }
    }

    /// The first that waits, which waits no more, and the place of its party.
    fn take(&mut self) -> Post {
        if self.is_cut {
            return Post::Cut;
        }
        for (from, arrival) in self.arrivals.iter_mut().enumerate() {
            if let Some(stream) = arrival.take() {
                return Post::Arrival(from, stream);
            }
        }
        Post::Nothing
    }
}

/// Puts the end of a connection that the party at this place made, in the place of the earlier one, which is closed.
/// False where there is no such place.
fn put(arrivals: &mut [Option<TcpStream>], from: usize, stream: TcpStream) -> bool
    ensures newest { result ≡ true → arrivals.new ≡ slice_set arrivals.old from (Some stream) }
    ensures nobody { result ≡ false → length arrivals.old ≤ from }
{
    if from >= arrivals.len() {
        return false;
    }
    arrivals[from] = Some(stream);
    true
}

/// A party, and the way to its link.
#[derive(Drop)]
struct Slot {
    party: Party,
    /// Ends its wait.
    waker: Waker,
    mailbox: Mutex<Mailbox>,
}

impl Slot {
    fn wake(&self) {
        // A link that can't be woken wakes when its wait is over.
        let _ = self.waker.wake();
    }
}

/// The parties of a group, each with a place.
#[derive(Drop)]
pub(crate) struct Hub {
    /// So many there will be.
    parties: usize,
    slots: Vec<Slot>,
}

impl Hub {
    /// Of so many parties, none of which has a place yet.
    pub(crate) fn new(alloc: Global, parties: usize) -> Hub {
        Hub {
            parties,
            slots: Vec::new(alloc),
        }
    }

    /// One party more, at the next place, with what wakes its link, which is not cut.
    pub(crate) fn add(&mut self, alloc: Global, party: Party, waker: Waker) -> io::Result<()> {
        let mailbox = Mutex::new(Mailbox::new(alloc, self.parties)?);
        Ok(
            self.slots.push(Slot {
                party,
                waker,
                mailbox,
            })?,
        )
    }

    /// How many places there are.
    pub(crate) fn count(&self) -> usize {
        self.slots.len()
    }

    /// The party at this place.
    pub(crate) fn party(&self, place: usize) -> Option<Party> {
        Some(self.slots.get(place)?.party)
    }

    /// Opens the mailbox of the link at this place, which is cut no more. What was in it is closed.
    pub(crate) fn open<R: Wait>(&self, rt: &R, place: usize) {
        if let Some(slot) = self.slots.get(place) {
            let mut mailbox = slot.mailbox.lock(rt);
            mailbox.is_cut = false;
            mailbox.clear();
        }
    }

    /// Cuts the link at this place: nothing is handed to it any more.
    pub(crate) fn cut<R: Wait>(&self, rt: &R, place: usize) {
        if let Some(slot) = self.slots.get(place) {
            let mut mailbox = slot.mailbox.lock(rt);
            mailbox.is_cut = true;
            mailbox.clear();
            slot.wake();
        }
    }

    /// Whether the link at this place is cut; so is one of no place.
    pub(crate) fn is_cut<R: Wait>(&self, rt: &R, place: usize) -> bool {
        match self.slots.get(place) {
            Some(slot) => slot.mailbox.lock(rt).is_cut,
            None => true,
        }
    }

    /// Hands the link at place `to` its end of a connection that the party at place `from` made. Where an earlier one
    /// of that party still waits, it's closed: of each party one waits at most. False where the link is cut: then the
    /// end is closed.
    pub(crate) fn hand<R: Wait>(&self, rt: &R, to: usize, from: usize, stream: TcpStream) -> bool {
        let Some(slot) = self.slots.get(to) else {
            return false;
        };
        let mut mailbox = slot.mailbox.lock(rt);
        if mailbox.is_cut || !put(&mut mailbox.arrivals, from, stream) {
            return false;
        }
        slot.wake();
        true
    }

    /// What is in the mailbox of the link at this place; a link of no place is cut.
    pub(crate) fn take<R: Wait>(&self, rt: &R, place: usize) -> Post {
        match self.slots.get(place) {
            Some(slot) => slot.mailbox.lock(rt).take(),
            None => Post::Cut,
        }
    }
}

/// Cuts the link of a party.
#[derive(Drop)]
pub struct TcpCutter<R: Wait + Drop> {
    pub(crate) rt: R,
    pub(crate) hub: Arc<Hub>,
    pub(crate) place: usize,
}

impl<R: Wait + Drop> Cutter for TcpCutter<R> {
    fn cut(&self) {
        self.hub.cut(&self.rt, self.place);
    }
}
