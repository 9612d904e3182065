//! A connection whose other end said an accepted hello.

ghost use Rattle.std.specs.Prelude.{◌≡◌, filter, Ok, Err, IfOk, OnOk, OnErr, IfErr};
ghost use Rattle.vr_wire.specs.Frames.{IsFramed, frame_of};
ghost use Rattle.net_ends.specs.Ends.{IsTooMuch};
ghost use Rattle.net_ends.specs.declared.outbox.Loss.TheVariants.{NoFrame, Slow};
ghost use Rattle.net_hello.specs.Identity.{Judges};
ghost use Rattle.net_peers.specs.Heard.{IsAccepted};
ghost use Rattle.net_peers.specs.Passing.{IsRefused, MayPass, is_scan, may_pass};

use crate::accepted::Accepted;
use crate::carrier::Carrier;
use crate::meeting::Line;
use il_model::Command;
use net_ends::{Flow, Inbox, Loss, Outbox, Stop};
use net_hello::{Hello, Known, Refusal, judge};
use net_links::is_between;
use net_records::Signs;
use std::alloc::{AllocError, Global};
use vr_model::{Body, Message, Party};

/// So many pieces a receive reads of one connection, at most, before it turns to another.
const MOST_PIECES: u32 = 16;

/// Why a connection isn't opened.
#[derive(Clone, Copy, Debug, PartialEq, Eq)]
pub(crate) enum Unopened {
    Refused(Refusal),
    Memory,
}

/// A connection whose other end said an accepted hello.
#[derive(Drop)]
pub(crate) struct Connection {
    accepted: Accepted,
    records: Carrier,
    inbox: Inbox,
    outbox: Outbox,
    /// Whether there may be something to read.
    is_ready: bool,
}

/// Whether a client asks for a scan.
fn is_scan(body: &Body) -> bool
    ensures { result ≡ is_scan body.now }
{
    match body {
        Body::Request(request) => matches!(request.command, Command::Scan { .. }),
        _ => false,
    }
}

/// Whether it's from one of these to the other, and no scan.
fn may_pass(message: &Message, from: Party, to: Party) -> bool
    ensures { result ≡ may_pass from to message.now }
{
    is_between(message, from, to) && !is_scan(&message.body)
}

impl Connection {
    /// A connection over which nothing came behind this hello. It fails only where memory runs out.
    fn open(alloc: Global, own: &Hello, hello: &Hello, line: Line) -> Result<Connection, AllocError>
        requires { IsAccepted own.now hello.now }
        ensures own { IfOk result (λ connection. connection.accepted.own ≡ own.now) }
        ensures hello { IfOk result (λ connection. connection.accepted.hello ≡ hello.now) }
    {
        // Where it can't be set the connection is slower.
        let _ = line.wire.set_nodelay(true);
        Ok(Connection {
            accepted: Accepted::new(own, hello),
            records: Carrier::new(alloc, line)?,
            inbox: Inbox::new(alloc)?,
            outbox: Outbox::new(alloc),
            is_ready: true,
        })
    }

    /// The connection whose other end said this hello, by what is known of its party; nothing came behind the hello. The
    /// connection is closed where the hello is refused, or where memory runs out.
    pub(crate) fn accept(
        alloc: Global,
        own: &Hello,
        seen: Option<Known>,
        hello: &Hello,
        line: Line,
    ) -> Result<Connection, Unopened>
        ensures own { IfOk result (λ connection. connection.accepted.own ≡ own.now) }
        ensures hello { IfOk result (λ connection. connection.accepted.hello ≡ hello.now) }
        ensures judged { OnOk result (Judges own.now seen hello.now (Ok (tt))) }
        ensures refused { IfErr result (λ unopened. IsRefused own.now seen hello.now unopened) }
    {
        match judge(own, seen, hello) {
            Ok(()) => {}
            Err(refusal) => return Err(Unopened::Refused(refusal)),
        }
        match Connection::open(alloc, own, hello, line) {
            Ok(connection) => Ok(connection),
            Err(_) => Err(Unopened::Memory),
        }
    }

    /// What its other end said: a hello that this end accepted.
    pub(crate) fn accepted(&self) -> Accepted
        ensures { result ≡ self.now.accepted }
    {
        self.accepted
    }

    /// Notes that there may be something to read, and writes what waits. False where the connection is over.
    pub(crate) fn wake(&mut self) -> bool {
        self.is_ready = true;
        self.flush()
    }

    /// Whether there may be something to read.
    pub(crate) fn is_ready(&self) -> bool {
        self.is_ready
    }

    /// Writes what waits. False where the connection is over.
    fn flush(&mut self) -> bool {
        match self.records.push() {
            Ok(()) => self.outbox.flush(&mut self.records) && self.push(),
            Err(stop) => stop == Stop::ForNow,
        }
    }

    /// Writes what was taken and waits. False where the connection is over.
    fn push(&mut self) -> bool {
        match self.records.push() {
            Ok(()) => true,
            Err(stop) => stop == Stop::ForNow,
        }
    }

    /// Whether it's over because a record came that was forged or damaged.
    pub(crate) fn is_forged(&self) -> bool {
        self.records.is_forged()
    }

    /// Sends a message: `false` where the connection is over. One that's lost changes nothing.
    pub(crate) fn send(&mut self, alloc: Global, message: &Message) -> Result<bool, Loss>
        ensures framed { OnOk result (IsFramed message.now) }
        ensures room { OnOk result (IsTooMuch self.old.outbox (frame_of message.now) → ⊥) }
        ensures lost { OnErr result (self.new.outbox ≡ self.old.outbox) }
        ensures no_frame { result ≡ Err NoFrame → IsFramed message.now → ⊥ }
        ensures slow { result ≡ Err Slow → IsTooMuch self.old.outbox (frame_of message.now) }
    {
        self.outbox.put(alloc, message)?;
        Ok(self.flush())
    }

    /// Sends a beat. False where the connection is over.
    pub(crate) fn beat(&mut self) -> bool {
        match self.records.beat() {
            Ok(()) => true,
            Err(stop) => stop == Stop::ForNow,
        }
    }

    /// Whether anything came or went since that was asked last.
    pub(crate) fn signs(&mut self) -> Signs {
        self.records.signs()
    }

    /// Reads until a message came or there is no more for now. One that isn't from the party of the other end to `own`
    /// is dropped, and so is a scan. False where the connection is over.
    pub(crate) fn read(&mut self, alloc: Global, own: Party, came: &mut Vec<Message>) -> bool
        ensures { MayPass self.old.accepted.hello.party own came.old.items
            → MayPass self.old.accepted.hello.party own came.new.items }
    {
        if !self.is_ready && !self.inbox.is_kept() {
            return true;
        }
        let from = self.accepted.hello.party;
        for _ in 0..MOST_PIECES {
            match self.read_piece(alloc, from, own, came) {
                Flow::More => self.is_ready = true,
                Flow::Dry | Flow::Kept => {
                    self.is_ready = false;
                    return true;
                }
                Flow::Over => return false,
            }
            if !came.is_empty() {
                return true;
            }
        }
        true
    }

    /// Reads once, and keeps what may pass from one of these to the other.
    fn read_piece(
        &mut self,
        alloc: Global,
        from: Party,
        own: Party,
        came: &mut Vec<Message>,
    ) -> Flow
        ensures { MayPass from own came.new.items }
    {
        let flow = self.inbox.read(alloc, &mut self.records, came);
        keep_passing(came, from, own);
        flow
    }
}

/// Drops each message that may not pass from one of these to the other.
fn keep_passing(messages: &mut Vec<Message>, from: Party, to: Party)
    ensures kept { messages.new.items ≡ filter (may_pass from to) messages.old.items }
    ensures all { MayPass from to messages.new.items }
{
    messages.retain(
        |message: &Message| -> bool
            ensures { result ≡ may_pass from to message.now }
        { may_pass(message, from, to) },
    );
}
