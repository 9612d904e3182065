//! What a link has of one other party.

ghost use Rattle.std.specs.Prelude.{◌≡◌, filter, Err};
ghost use Rattle.vr_wire.specs.Frames.{IsFramed};
ghost use Rattle.net_ends.specs.declared.outbox.Loss.TheVariants.{NoFrame};
ghost use Rattle.net_links.specs.Own.{is_same as same_parties, is_between as between, AreBetween};

use mio::net::TcpStream as Wire;
use net_ends::{Flow, Inbox, Loss, NonBlocking, Outbox};
use std::alloc::{AllocError, Global};
use vr_model::{Message, Party};

/// So many pieces one receive reads at most of one connection, so that no other waits for long.
const MOST_PIECES: u32 = 16;

/// Whether these are one party.
pub fn is_same(party: Party, other: Party) -> bool
    ensures { result ≡ same_parties party other }
{
    match (party, other) {
        (Party::Replica(i), Party::Replica(j)) => i == j,
        (Party::Client(c), Party::Client(d)) => c.number == d.number,
        _ => false,
    }
}

/// Whether it's a message from one of these to the other.
pub fn is_between(message: &Message, from: Party, to: Party) -> bool
    ensures { result ≡ between from to message.now }
{
    is_same(message.from, from) && is_same(message.to, to)
}

/// Drops each message that isn't from one of these to the other.
pub fn keep_own(messages: &mut Vec<Message>, from: Party, to: Party)
    ensures own { messages.new.items ≡ filter (between from to) messages.old.items }
    ensures all { AreBetween from to messages.new.items }
{
    messages.retain(
        |message: &Message| -> bool
            ensures { result ≡ between from to message.now }
        { is_between(message, from, to) },
    );
}

/// A connection.
#[derive(Drop)]
struct Connection {
    wire: NonBlocking<Wire>,
    inbox: Inbox,
    outbox: Outbox,
    /// Whether there may be something to read.
    is_ready: bool,
}

impl Connection {
    /// A connection over which nothing came yet. It fails only where memory runs out.
    fn new(alloc: Global, wire: Wire) -> Result<Connection, AllocError> {
        Ok(Connection {
            wire: NonBlocking::new(wire),
            inbox: Inbox::new(alloc)?,
            outbox: Outbox::new(alloc),
            is_ready: true,
        })
    }

    /// Writes what waits. False where the connection is over.
    fn flush(&mut self) -> bool {
        self.outbox.flush(&mut self.wire)
    }

    /// Reads until a message came, there is no more for now, or enough was read. What isn't from one of these parties
    /// to the other is dropped. False where the connection is over.
    fn read(&mut self, alloc: Global, from: Party, to: Party, came: &mut Vec<Message>) -> bool
        ensures { AreBetween from to came.old.items → AreBetween from to came.new.items }
    {
        if !self.is_ready && !self.inbox.is_kept() {
            return true;
        }
        for _ in 0..MOST_PIECES {
            match self.read_piece(alloc, from, to, came) {
                Flow::More => self.is_ready = true,
                Flow::Dry | Flow::Kept => {
                    self.is_ready = false;
                    return true;
                }
                Flow::Over => return false,
            }
            if !came.is_empty() {
                return true;
            }
        }
        true
    }

    /// Reads once, and keeps what is from one of these parties to the other.
    fn read_piece(&mut self, alloc: Global, from: Party, to: Party, came: &mut Vec<Message>) -> Flow
        ensures { AreBetween from to came.new.items }
    {
        let flow = self.inbox.read(alloc, &mut self.wire, came);
        keep_own(came, from, to);
        flow
    }
}

/// Another party, and the connection to it, if there is one.
#[derive(Drop)]
pub(crate) struct Peer {
    party: Party,
    connection: Option<Connection>,
}

impl Peer {
    /// This party, to which there is no connection yet.
    pub(crate) fn new(party: Party) -> Peer
        ensures { result.party ≡ party }
    {
        Peer {
            party,
            connection: None,
        }
    }

    pub(crate) fn party(&self) -> Party
        ensures { result ≡ self.now.party }
    {
        self.party
    }

    /// From now on this is the connection; what was there before is closed. It fails only where memory runs out.
    pub(crate) fn connect(&mut self, alloc: Global, wire: Wire) -> Result<(), AllocError>
        ensures { self.new.party ≡ self.old.party }
    {
        self.connection = Some(Connection::new(alloc, wire)?);
        Ok(())
    }

    /// Ends the connection.
    pub(crate) fn close(&mut self)
        ensures { self.new.party ≡ self.old.party }
    {
        self.connection = None;
    }

    /// Whether there is a connection.
    pub(crate) fn is_connected(&self) -> bool {
        self.connection.is_some()
    }

    /// Whether there may be something to read.
    pub(crate) fn is_ready(&self) -> bool {
        match &self.connection {
            Some(connection) => connection.is_ready,
            None => false,
        }
    }

    /// The connection may have something to read, or take more: what waits is written.
    pub(crate) fn wake(&mut self)
        ensures { self.new.party ≡ self.old.party }
    {
        let goes_on = match &mut self.connection {
            Some(connection) => {
                connection.is_ready = true;
                connection.flush()
            }
            None => true,
        };
        if !goes_on {
            self.connection = None;
        }
    }

    /// Sends a message, if there is a connection, unless it's lost.
    pub(crate) fn send(&mut self, alloc: Global, message: &Message) -> Result<(), Loss>
        ensures party { self.new.party ≡ self.old.party }
        ensures no_frame { result ≡ Err NoFrame → IsFramed message.now → ⊥ }
    {
        let goes_on = match &mut self.connection {
            Some(connection) => {
                connection.outbox.put(alloc, message)?;
                connection.flush()
            }
            None => true,
        };
        if !goes_on {
            self.connection = None;
        }
        Ok(())
    }

    /// Reads the connection, if there is one, until something came from this party to `own`.
    pub(crate) fn read(&mut self, alloc: Global, own: Party, came: &mut Vec<Message>)
        ensures party { self.new.party ≡ self.old.party }
        ensures own { AreBetween self.old.party own came.old.items → AreBetween self.old.party own came.new.items }
    {
        let goes_on = match &mut self.connection {
            Some(connection) => connection.read(alloc, self.party, own, came),
            None => true,
        };
        if !goes_on {
            self.connection = None;
        }
    }
}
