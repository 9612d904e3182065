//! The parties of one machine: what waits for each of them, and what is known of the connections to other machines.

use crate::notice::LinkNotice;
use crate::visiting::Visited;
use crate::waiting::Waiting;
use mio::Waker;
use net_hello::Epoch;
use std::alloc::Global;
use std::sync::atomic::{AtomicU8, Ordering};
use std::sync::{Arc, Mutex, Wait};
use std::{io, mem};
use vr_model::{Message, Party};
use vr_ports::Cutter;

/// So many messages may wait for a party of the machine; more are lost.
const MOST_WAITING: usize = 1024;

/// What waits for a party.
#[derive(Drop)]
struct Post {
    /// The earliest first.
    messages: Vec<Message>,
    is_cut: bool,
}

/// A party, and the way to its link.
#[derive(Drop)]
struct Slot {
    party: Party,
    /// Ends its wait.
    waker: Waker,
    post: Mutex<Post>,
}

impl Slot {
    /// Adds a message, unless the link is cut, too many wait or memory runs out: then it's lost.
    fn put<R: Wait>(&self, rt: &R, message: Message) {
        let mut post = self.post.lock(rt);
        if post.is_cut || post.messages.len() >= MOST_WAITING {
            return;
        }
        if post.messages.push(message).is_ok() {
            self.wake();
        }
    }

    fn wake(&self) {
        // A link that can't be woken wakes when its wait is over.
        let _ = self.waker.wake();
    }
}

/// The parties of a machine, each with a place.
#[derive(Drop)]
pub struct Exchange {
    slots: Vec<Slot>,
    notices: Waiting<LinkNotice>,
    hellos: Waiting<(u8, Epoch)>,
    visits: Waiting<Visited>,
    stores: Waiting<(u8, u64)>,
    /// Which replicas are connected to the machine's own, by bits.
    reached: AtomicU8,
    /// From which of them something came just now.
    near: AtomicU8,
}

impl Exchange {
    /// No party has a place yet.
    pub(crate) fn new(alloc: Global) -> Exchange {
        Exchange {
            slots: Vec::new(alloc),
            notices: Waiting::new(alloc),
            hellos: Waiting::new(alloc),
            visits: Waiting::new(alloc),
            stores: Waiting::new(alloc),
            reached: AtomicU8::new(0),
            near: AtomicU8::new(0),
        }
    }

    /// One party more, at the next place, with what wakes its link, which is not cut.
    pub(crate) fn add(&mut self, alloc: Global, party: Party, waker: Waker) -> io::Result<()> {
        let post = Mutex::new(Post {
            messages: Vec::new(alloc),
            is_cut: false,
        });
        Ok(self.slots.push(Slot { party, waker, post })?)
    }

    /// Hands a message to the party of this machine that it's for. It's given back where there is none.
    pub(crate) fn post<R: Wait>(&self, rt: &R, message: Message) -> Option<Message> {
        for slot in &self.slots {
            if slot.party == message.to {
                slot.put(rt, message);
                return None;
            }
        }
        Some(message)
    }

    /// What waits for the party at this place, the earliest first; `None` where its link is cut.
    pub(crate) fn take<R: Wait>(
        &self,
        rt: &R,
        alloc: Global,
        place: usize,
    ) -> Option<Vec<Message>> {
        let mut post = self.slots.get(place)?.post.lock(rt);
        if post.is_cut {
            return None;
        }
        Some(mem::replace(&mut post.messages, Vec::new(alloc)))
    }

    /// Ends the wait of the link at this place.
    pub fn wake(&self, place: usize) {
        if let Some(slot) = self.slots.get(place) {
            slot.wake();
        }
    }

    /// Cuts the link at this place: nothing is handed to it any more.
    pub(crate) fn cut<R: Wait>(&self, rt: &R, place: usize) {
        if let Some(slot) = self.slots.get(place) {
            let mut post = slot.post.lock(rt);
            post.is_cut = true;
            post.messages.clear();
            slot.wake();
        }
    }

    /// Opens the link at this place, which is cut no more. What waited is lost.
    pub(crate) fn open<R: Wait>(&self, rt: &R, place: usize) {
        if let Some(slot) = self.slots.get(place) {
            let mut post = slot.post.lock(rt);
            post.is_cut = false;
            post.messages.clear();
        }
    }

    /// A notice waits to be told.
    pub(crate) fn note<R: Wait>(&self, rt: &R, notice: LinkNotice) {
        self.notices.add(rt, notice);
    }

    /// What changed since that was asked last, the earliest first. What is too much to wait is lost, here as below.
    pub fn notices<R: Wait>(&self, rt: &R, alloc: Global) -> Vec<LinkNotice> {
        self.notices.take(rt, alloc)
    }

    /// A replica of another machine said hello in this epoch.
    pub(crate) fn hear<R: Wait>(&self, rt: &R, replica: u8, epoch: Epoch) {
        self.hellos.add(rt, (replica, epoch));
    }

    /// The hellos of other machines' replicas since that was asked last, the earliest first: the replica's number, and
    /// the epoch in which it was said, whether it was accepted or refused. One is said as often as a connection begins,
    /// whoever dialled it; where connections stay none is.
    pub fn hellos<R: Wait>(&self, rt: &R, alloc: Global) -> Vec<(u8, Epoch)> {
        self.hellos.take(rt, alloc)
    }

    /// A visit came.
    pub(crate) fn visited<R: Wait>(&self, rt: &R, visit: Visited) {
        self.visits.add(rt, visit);
    }

    /// The visits since that was asked last, the earliest first. Of their bytes the first eight alone are known: those
    /// of a visit.
    pub fn visits<R: Wait>(&self, rt: &R, alloc: Global) -> Vec<Visited> {
        self.visits.take(rt, alloc)
    }

    /// The store of another machine was seen that has this number.
    pub(crate) fn see<R: Wait>(&self, rt: &R, machine: u8, store: u64) {
        self.stores.add(rt, (machine, store));
    }

    /// The stores of other machines that were seen since that was asked last, and weren't known before: the machine, and
    /// the number of its store. Who is to know them in another life of this machine keeps them, beside its epoch.
    pub fn stores<R: Wait>(&self, rt: &R, alloc: Global) -> Vec<(u8, u64)> {
        self.stores.take(rt, alloc)
    }

    /// Shows which replicas are connected to the machine's own, and from which something came just now, by bits.
    pub(crate) fn show(&self, reached: u8, near: u8) {
        self.reached.store(reached, Ordering::SeqCst);
        self.near.store(near, Ordering::SeqCst);
    }

    /// Which replicas of other machines are connected to the machine's own: bit k stands for replica k.
    pub fn reached(&self) -> u8 {
        self.reached.load(Ordering::SeqCst)
    }

    /// From which of them something came just now, by the pulse of the machine.
    pub fn near(&self) -> u8 {
        self.near.load(Ordering::SeqCst)
    }
}

/// Cuts the link of a party of this machine.
#[derive(Drop)]
pub struct PeerCutter<R: Wait + Drop> {
    pub(crate) rt: R,
    pub(crate) exchange: Arc<Exchange>,
    pub(crate) place: usize,
}

impl<R: Wait + Drop> Cutter for PeerCutter<R> {
    fn cut(&self) {
        self.exchange.cut(&self.rt, self.place);
    }
}
