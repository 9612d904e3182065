//! Links over channels.

ghost use Rattle.std.specs.Prelude.{None};

use crossbeam_channel::{Receiver, RecvTimeoutError, Sender, bounded};
use std::alloc::{AllocError, Global};
use std::sync::{Arc, Mutex, Wait};
use std::time;
use std::time::Duration;
use vr_model::{Message, Party};
use vr_ports::{Cutter, Input, Link, Relink, Unlinked};

/// So many messages wait for a party at most.
const WAITING: usize = 1024;

/// An in-process network: the way in to each party, to the replicas by their numbers and then to the clients by theirs.
#[derive(Drop)]
pub struct Switchboard {
    replicas: usize,
    ways: Vec<Mutex<Option<Sender<Message>>>>,
}

impl Switchboard {
    /// A board for so many replicas and clients, none of which is connected. It fails only where memory runs out.
    pub fn new(alloc: Global, replicas: u8, clients: u8) -> Result<Switchboard, AllocError> {
        let mut ways = Vec::new(alloc);
        for _ in 0..usize::from(replicas) + usize::from(clients) {
            ways.push(Mutex::new(None))?;
        }
        Ok(Switchboard {
            replicas: usize::from(replicas),
            ways,
        })
    }

    fn way(&self, party: Party) -> Option<&Mutex<Option<Sender<Message>>>> {
        match party {
            Party::Replica(number) => self.ways.get(usize::from(number)),
            Party::Client(client) => self
                .ways
                .get(self.replicas.saturating_add(usize::from(client.number))),
        }
    }

    /// From now on a party is reached by this sender, or not at all.
    fn connect<R: Wait>(&self, rt: &R, party: Party, sender: Option<Sender<Message>>) {
        if let Some(way) = self.way(party) {
            *way.lock(rt) = sender;
        }
    }

    /// A message to a party that is not connected is lost, and so is one for which there is no room, since the party
    /// stalls.
    fn send<R: Wait>(&self, rt: &R, message: Message) {
        if let Some(way) = self.way(message.to) {
            if let Some(sender) = &*way.lock(rt) {
                let _ = sender.try_send(rt, message);
            }
        }
    }
}

/// The link of one party over a board. It tells nothing: no channel says what it delivers.
#[derive(Drop)]
pub struct ChannelLink<R: Wait + time::Clock + Drop> {
    rt: R,
    alloc: Global,
    party: Party,
    board: Arc<Switchboard>,
    inbox: Receiver<Message>,
    wait: Duration,
}

impl<R: Wait + time::Clock + Drop> ChannelLink<R> {
    /// The link of a party, which is connected from now on. A receive waits for so long. It fails only where memory
    /// runs out.
    pub fn new(
        rt: R,
        alloc: Global,
        board: Arc<Switchboard>,
        party: Party,
        wait: Duration,
    ) -> Result<ChannelLink<R>, AllocError> {
        let (sender, inbox) = bounded(alloc, WAITING)?;
        board.connect(&rt, party, Some(sender));
        Ok(ChannelLink {
            rt,
            alloc,
            party,
            board,
            inbox,
            wait,
        })
    }
}

impl<R: Wait + time::Clock + Drop> Link for ChannelLink<R> {
    ghost inputs = { λ _. None };

    ghost sent = { λ _. None };

    fn recv(&mut self) -> Input {
        match self.inbox.recv_timeout(&self.rt, self.wait) {
            Ok(message) => Input::Message(message),
            Err(RecvTimeoutError::Timeout) => Input::Nothing,
            Err(RecvTimeoutError::Disconnected) => Input::Closed,
        }
    }

    fn send(&mut self, message: Message) {
        self.board.send(&self.rt, message);
    }
}

/// Cuts the link of a party.
#[derive(Drop)]
pub struct ChannelCutter<R: Wait + Drop> {
    rt: R,
    board: Arc<Switchboard>,
    party: Party,
}

impl<R: Wait + Drop> Cutter for ChannelCutter<R> {
    fn cut(&self) {
        self.board.connect(&self.rt, self.party, None);
    }
}

impl<R: Wait + time::Clock + Copy + Send + Drop + 'static> Relink for ChannelLink<R> {
    type Cutter = ChannelCutter<R>;

    fn cutter(&self) -> Result<ChannelCutter<R>, AllocError> {
        Ok(ChannelCutter {
            rt: self.rt,
            board: Arc::try_clone(&self.board)?,
            party: self.party,
        })
    }

    fn renew(&mut self) -> Result<(), Unlinked> {
        let Ok((sender, inbox)) = bounded(self.alloc, WAITING) else {
            self.board.connect(&self.rt, self.party, None);
            return Err(Unlinked);
        };
        self.inbox = inbox;
        self.board.connect(&self.rt, self.party, Some(sender));
        Ok(())
    }
}
