//! The journals: what an operator is to be told, from when it's noticed until it's printed.

ghost use Rattle.std.specs.Prelude.{◌≡◌, ◌<◌, ◌≤◌, ◌++◌, IfOk};
ghost use Rattle.rtrb.specs.Ring.{known_free};
ghost use Rattle.plc_status.specs.Journal.{IsEmpty, IsNew, IsPut, IsSameJournal, loss, noted};

use crate::feed::Feed;
use crate::notice::Notice;
use crate::printer::Printer;
use rtrb::{Producer, RingBuffer};
use std::alloc::{AllocError, Global};
use std::sync::atomic::{AtomicBool, Ordering};
use std::sync::{Arc, Wait};
use std::thread::Parker;

/// So many notices find room that aren't printed yet.
const ROOM: usize = 256;

/// How journals wake their printer.
#[derive(Drop)]
pub(crate) struct Bell {
    parker: Parker,
    is_over: AtomicBool,
}

impl Bell {
    fn new() -> Bell {
        Bell {
            parker: Parker::new(),
            is_over: AtomicBool::new(false),
        }
    }

    /// Waits until something was put since it waited last, or the journals are over.
    pub(crate) fn wait<R: Wait>(&self, rt: &R) {
        self.parker.park(rt);
    }

    /// Whether nothing more is put.
    pub(crate) fn is_over(&self) -> bool {
        self.is_over.load(Ordering::SeqCst)
    }
}

/// What one thread notices is put into it, in order. Where more is put than has room before it's printed, the notices
/// that find none are counted, and the count is put once there is room again: so whoever notices never waits.
#[derive(Drop)]
pub struct Journal {
    pub(crate) producer: Producer<Notice>,
    bell: Arc<Bell>,
    /// How many found no room since the last one that did.
    pub(crate) lost: usize,
}

/// The journals of a served controller, and what prints them. Each may go to a thread of its own.
#[derive(Drop)]
pub struct Journals {
    /// What the driver notices of its scans and of the replicas.
    pub driver: Journal,
    /// What an operator does at the console, and what becomes of where it's found.
    pub console: Journal,
    /// What becomes of where the page is found.
    pub page: Journal,
    pub printer: Printer,
}

impl Journals {
    /// Nothing was put yet.
    pub fn new(alloc: Global) -> Result<Journals, AllocError>
        ensures { IfOk result IsNew }
    {
        let bell = Arc::new(alloc, Bell::new())?;
        let (driver, from_driver) = Journal::new(alloc, &bell)?;
        let (console, from_console) = Journal::new(alloc, &bell)?;
        let (page, from_page) = Journal::new(alloc, &bell)?;
        Ok(Journals {
            driver,
            console,
            page,
            printer: Printer {
                driver: from_driver,
                console: from_console,
                page: from_page,
                bell,
            },
        })
    }
}

impl Journal {
    /// A journal that rings this bell, and what is read of it.
    fn new(alloc: Global, bell: &Arc<Bell>) -> Result<(Journal, Feed), AllocError>
        ensures { IfOk result (λ r. IsEmpty r.0 r.1) }
    {
        let (producer, consumer) = RingBuffer::new(alloc, ROOM)?;
        let journal = Journal {
            producer,
            bell: Arc::try_clone(bell)?,
            lost: 0,
        };
        Ok((journal, Feed { consumer }))
    }

    /// Puts how many were lost behind all that were put, if any were.
    #[tactic(auto, using(crate::proofs::Putting::loss_some, crate::proofs::Putting::loss_none, crate::proofs::Putting::nothing))]
    fn put_loss(&mut self)
        requires { 2 ≤ known_free self.old.producer }
        ensures same { IsSameJournal self.old self.new }
        ensures put { noted self.new ≡ noted self.old ++ loss self.old.lost }
        ensures lost { self.new.lost ≡ 0 }
        ensures room { 0 < known_free self.new.producer }
    {
        if self.lost > 0 {
            self.producer.push_reserved(Notice::Lost(self.lost));
            self.lost = 0;
        }
    }

    /// Puts a notice behind all that were put; where it finds no room it's counted as lost. It never waits.
    #[tactic(auto, using(crate::proofs::Putting::listed, crate::proofs::Putting::lost))]
    pub fn put(&mut self, notice: Notice)
        ensures { IsPut notice self.old self.new }
    {
        if self.producer.slots() < 2 {
            self.lost = self.lost.saturating_add(1);
            return;
        }
        self.put_loss();
        self.producer.push_reserved(notice);
        self.bell.parker.unpark();
    }

    /// Nothing more is put into any journal: their printer ends once all is printed.
    pub fn end(&self) {
        self.bell.is_over.store(true, Ordering::SeqCst);
        self.bell.parker.unpark();
    }
}
