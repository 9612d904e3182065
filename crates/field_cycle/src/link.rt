//! One connection to a server: what was asked there, and by when an answer is wanted.

ghost use Rattle.std.specs.Prelude.{◌≡◌, ◌↔◌, true, None, IfSome, IsSome, OnOk, OnErr};
ghost use Rattle.field_cycle.specs.Links.{misfit, reply_by, IsNew, is_due, is_late, is_idle, is_up, connecting, opened};
ghost use Rattle.field_cycle.specs.Links.{may_ask, IsSent, asking, heard, answered, trusted, failed};
ghost use Rattle.field_cycle.specs.Links.{is_earlier, may_ask_again, asking_again, IsSentAgain, IsAnswer, IsSkipped};
ghost use Rattle.field_cycle.specs.Links.{turned_away, skipping, closed};

use modbus_wire::{Adu, HeaderFault, Reply, Request};
use thiserror::Error;

/// A moment, in milliseconds.
pub type Moment = u64;

/// The first pause before a connection is made anew.
pub const FIRST_PAUSE: u64 = 100;

/// The longest.
pub const LONGEST_PAUSE: u64 = 5000;

/// The pause before the addresses of a controller are tried anew, each of which was tried.
pub const TURN: u64 = 20;

/// Once rounds have been good for so long, the next pause is the first again.
pub const GOOD: u64 = 5000;

/// A reply to one of so many requests before the last is late, or came twice.
const EARLIER: u32 = 16;

/// Why a connection is given up.
#[derive(Clone, Copy, Debug, Error)]
pub enum LinkFault {
    /// It's not to be had, or it ended.
    #[error("closed")]
    Closed,
    /// Nothing came for too long.
    #[error("timeout")]
    Timeout,
    /// What came is no data unit.
    #[error("{0}")]
    Header(HeaderFault),
    /// It came and nothing was asked, or as the reply to another request.
    #[error("another transaction")]
    Transaction,
    #[error("another unit")]
    Unit,
    #[error("another function")]
    Function,
    /// The reply to the function has not as many values as were asked for, or is no echo.
    #[error("another length")]
    Length,
    /// The server said by this number why it isn't done.
    #[error("exception {0}")]
    Exception(u8),
    #[error("out of memory")]
    Memory,
}

/// A request that waits for its reply.
#[derive(Drop)]
pub struct Asked {
    pub transaction: u16,
    pub request: Request,
}

/// How a connection stands.
#[derive(Drop)]
pub enum Phase {
    /// There is none, and none is made before `until`.
    Down,
    /// It's being made.
    Connecting,
    /// Nothing is asked.
    Idle,
    /// A request waits for its reply.
    Waiting(Asked),
}

/// What came of the requests over a connection, and how often it was given up.
#[derive(Clone, Copy, Debug, PartialEq, Eq)]
pub struct Tally {
    /// Replies that were taken.
    pub replies: u64,
    /// Replies that were late, or came twice, and were skipped.
    pub skipped: u64,
    /// Requests that were asked again.
    pub retries: u64,
    /// How often the connection was given up for a fault.
    pub losses: u64,
}

/// A connection to a server of a unit.
#[derive(Drop)]
pub struct Link {
    pub unit: u8,
    /// A reply, or a connection, is late after so long.
    pub timeout: u64,
    /// So often a request is asked again that has no reply.
    pub retries: u8,
    /// So often that one is which was asked last.
    pub left: u8,
    pub phase: Phase,
    /// When something is due: a connection that is down is made, one that waits is late.
    pub until: Moment,
    /// The transaction of the request that was sent last.
    pub transaction: u16,
    /// So long is the next pause.
    pub pause: u64,
    /// Since when rounds have been good.
    pub good: Option<Moment>,
    pub tally: Tally,
}

/// Whether a transaction is one of the last before the next one. Behind 65535 comes 0.
fn is_earlier(next: u16, transaction: u16) -> bool
    ensures { result ≡ is_earlier next transaction }
{
    let behind = (u32::from(next) + 65536 - u32::from(transaction)) % 65536;
    0 < behind && behind <= EARLIER
}

/// The fault of a PDU that is no reply to a request of this function.
fn misfit(code: u8, pdu: &[u8]) -> LinkFault
    ensures { result ≡ misfit code pdu.now }
{
    match pdu.first() {
        Some(first) if *first & 0x7f == code => LinkFault::Length,
        _ => LinkFault::Function,
    }
}

impl Asked {
    /// The reply that a unit is to this request, if it's one.
    pub fn reply(&self, unit: u8, adu: &Adu) -> Result<Reply, LinkFault>
        ensures { result ≡ reply_by self.now unit adu.now }
    {
        if adu.transaction != self.transaction {
            return Err(LinkFault::Transaction);
        }
        if adu.unit != unit {
            return Err(LinkFault::Unit);
        }
        match Reply::read(&self.request, adu.pdu.as_slice()) {
            Some(Reply::Failed(number)) => Err(LinkFault::Exception(number)),
            Some(reply) => Ok(reply),
            None => Err(misfit(self.request.function().code(), adu.pdu.as_slice())),
        }
    }
}

impl Link {
    /// No connection yet; one may be made at once.
    pub fn new(unit: u8, timeout: u64, retries: u8) -> Link
        ensures { IsNew unit timeout retries result }
    {
        Link {
            unit,
            timeout,
            retries,
            left: 0,
            phase: Phase::Down,
            until: 0,
            transaction: 0,
            pause: FIRST_PAUSE,
            good: None,
            tally: Tally {
                replies: 0,
                skipped: 0,
                retries: 0,
                losses: 0,
            },
        }
    }

    /// Whether it's down, and to be made now.
    pub fn is_due(&self, now: Moment) -> bool
        ensures { result ≡ is_due self.now now }
    {
        matches!(self.phase, Phase::Down) && self.until <= now
    }

    /// Whether what it waits for is late now.
    pub fn is_late(&self, now: Moment) -> bool
        ensures { result ≡ is_late self.now now }
    {
        matches!(self.phase, Phase::Connecting | Phase::Waiting(_)) && self.until <= now
    }

    /// Whether something may be asked.
    pub fn is_idle(&self) -> bool
        ensures { result ≡ is_idle self.now.phase }
    {
        matches!(self.phase, Phase::Idle)
    }

    /// Whether there is a connection.
    pub fn is_up(&self) -> bool
        ensures { result ≡ is_up self.now.phase }
    {
        matches!(self.phase, Phase::Idle | Phase::Waiting(_))
    }

    /// It's being made from now on.
    pub fn connect(&mut self, now: Moment)
        ensures { self.new ≡ connecting self.old now }
    {
        self.phase = Phase::Connecting;
        self.until = now.saturating_add(self.timeout);
    }

    /// It's made, if that was waited for.
    pub fn open(&mut self)
        ensures { self.new ≡ opened self.old }
    {
        if matches!(self.phase, Phase::Connecting) {
            self.phase = Phase::Idle;
        }
    }

    /// Asks, and gives what is to be sent. None where it isn't idle, or the request isn't lawful: then nothing changes.
    pub fn ask(&mut self, request: Request, now: Moment) -> Option<Adu>
        ensures asked { IsSome result ↔ (may_ask self.old request ≡ true) }
        ensures sent { IfSome result (λ adu. IsSent self.old request adu) }
        ensures waits { IfSome result (λ adu. self.new ≡ asking self.old request now) }
        ensures none { result ≡ None → self.new ≡ self.old }
    {
        if !self.is_idle() {
            return None;
        }
        let pdu = request.write()?;
        let transaction = self.transaction.wrapping_add(1);
        let unit = self.unit;
        self.transaction = transaction;
        self.left = self.retries;
        self.until = now.saturating_add(self.timeout);
        self.phase = Phase::Waiting(Asked {
            transaction,
            request,
        });
        Some(Adu {
            transaction,
            unit,
            pdu,
        })
    }

    /// Asks once more what had no reply, under its transaction, and gives what is to be sent. None where nothing is
    /// asked, or it was asked often enough: then nothing changes.
    pub fn ask_again(&mut self, now: Moment) -> Option<Adu>
        ensures asked { IsSome result ↔ (may_ask_again self.old ≡ true) }
        ensures sent { IfSome result (λ adu. IsSentAgain self.old adu) }
        ensures waits { IfSome result (λ adu. self.new ≡ asking_again self.old now) }
        ensures none { result ≡ None → self.new ≡ self.old }
    {
        let Phase::Waiting(asked) = &self.phase else {
            return None;
        };
        if self.left == 0 {
            return None;
        }
        let adu = Adu {
            transaction: asked.transaction,
            unit: self.unit,
            pdu: asked.request.write()?,
        };
        self.left -= 1;
        self.until = now.saturating_add(self.timeout);
        self.tally.retries = self.tally.retries.saturating_add(1);
        Some(adu)
    }

    /// What a unit is: the reply that is waited for; or none, where it's the reply to a request before, which is late
    /// or came twice; or the fault of the connection.
    fn judge(&self, adu: &Adu) -> Result<Option<Reply>, LinkFault>
        ensures { result ≡ heard self.now adu.now }
    {
        match &self.phase {
            Phase::Waiting(asked) => {
                if is_earlier(asked.transaction, adu.transaction) {
                    return Ok(None);
                }
                Ok(Some(asked.reply(self.unit, adu)?))
            }
            Phase::Idle if is_earlier(self.transaction.wrapping_add(1), adu.transaction) => {
                Ok(None)
            }
            _ => Err(LinkFault::Transaction),
        }
    }

    /// Takes a unit that came: the reply that was waited for; or none, where it's the reply to a request before, which
    /// is late or came twice, and is skipped; or the fault of the connection, which is to be given up.
    pub fn hear(&mut self, adu: &Adu) -> Result<Option<Reply>, LinkFault>
        ensures is { result ≡ heard self.old adu.now }
        ensures answer { IsAnswer result → self.new ≡ answered self.old }
        ensures skipped { IsSkipped result → self.new ≡ skipping self.old }
        ensures err { OnErr result (self.new ≡ self.old) }
    {
        let heard = self.judge(adu)?;
        if heard.is_some() {
            self.phase = Phase::Idle;
            self.tally.replies = self.tally.replies.saturating_add(1);
        } else {
            self.tally.skipped = self.tally.skipped.saturating_add(1);
        }
        Ok(heard)
    }

    /// A round was good. Where they have been so for 5 s, the next pause is the first again.
    pub fn trust(&mut self, now: Moment)
        ensures { self.new ≡ trusted self.old now }
    {
        let good = self.good.unwrap_or(now);
        self.good = Some(good);
        if good.saturating_add(GOOD) <= now {
            self.pause = FIRST_PAUSE;
        }
    }

    /// Gives the connection up, and waits: 100 ms at first, each time twice as long, up to 5 s, until it's trusted
    /// again.
    pub fn fail(&mut self, now: Moment)
        ensures { self.new ≡ failed self.old now }
    {
        self.phase = Phase::Down;
        self.good = None;
        self.until = now.saturating_add(self.pause);
        self.pause = self.pause.saturating_mul(2).min(LONGEST_PAUSE);
        self.tally.losses = self.tally.losses.saturating_add(1);
    }

    /// Gives the connection up for a fault; one is made again at this moment.
    pub fn turn_away(&mut self, until: Moment)
        ensures { self.new ≡ turned_away self.old until }
    {
        self.phase = Phase::Down;
        self.until = until;
        self.tally.losses = self.tally.losses.saturating_add(1);
    }

    /// Gives the connection up, which has no fault; one may be made again at once.
    pub fn close(&mut self)
        ensures { self.new ≡ closed self.old }
    {
        self.phase = Phase::Down;
        self.until = 0;
    }
}
