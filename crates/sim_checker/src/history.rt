//! The one history of an epoch, as it was seen, with a controller of its own that has executed it.

use crate::verdicts::{Sampled, Submitted, Wrong, fallen, is_ahead};
use ctl_debugger::{Controller, prepare};
use il_loader::Image;
use il_model::{Answer, Budget, Command, InImage, OutImage};
use net_hello::Epoch;
use std::alloc::{AllocError, Global};
use std::collections::VecDeque;
use vr_model::Request;

/// So many entries are kept, the last ones.
const MOST: usize = 8192;

/// An entry of a history: who asked for it, what it samples, and what its controller answers.
#[derive(Clone, Copy)]
struct Entry {
    client: u8,
    number: u64,
    value: u64,
    answer: Answer,
}

/// The history of an epoch.
#[derive(Drop)]
pub(crate) struct History {
    pub(crate) epoch: Epoch,
    /// The last ones, and so many before them are kept no longer.
    entries: VecDeque<Entry>,
    gone: u64,
    controller: Controller,
    /// Of the last scan.
    last: Sampled,
    /// The scan that was submitted first.
    first: Option<Submitted>,
    counter: Option<u16>,
}

/// The number that stands in two words of the inputs, of which this is the first.
fn number_at(inputs: &InImage, counter: u16) -> Option<u64> {
    let place = usize::from(counter);
    let low = i64::from(inputs.cells.words.get(place).copied()?);
    let high = i64::from(inputs.cells.words.get(place + 1).copied()?);
    u64::try_from(low + 30_000 * high).ok()
}

/// How many writes a command samples, where they are counted there; 0 where it's no scan, or they aren't counted.
fn value_of(command: &Command, counter: Option<u16>) -> u64 {
    match (command, counter) {
        (Command::Scan { inputs, .. }, Some(counter)) => number_at(inputs, counter).unwrap_or(0),
        _ => 0,
    }
}

/// The moment of a command, if it's a scan.
pub(crate) fn moment_of(command: &Command) -> Option<u64> {
    match command {
        Command::Scan { moment, .. } => Some(*moment),
        _ => None,
    }
}

/// What a command samples, if it's a scan.
fn sampled_by(command: &Command, counter: Option<u16>) -> Option<Sampled> {
    let moment = moment_of(command)?;
    let value = value_of(command, counter);
    Some(Sampled { value, moment })
}

impl History {
    /// That of an epoch which begins. Clients count their writes in two words, of which `counter` is the first.
    pub(crate) fn new(
        alloc: Global,
        epoch: Epoch,
        image: &Image,
        budget: Budget,
        counter: Option<u16>,
    ) -> Result<History, AllocError> {
        Ok(History {
            epoch,
            entries: VecDeque::new(alloc),
            gone: 0,
            controller: Controller::new(alloc, image.copy(alloc)?, budget)?,
            last: Sampled {
                value: 0,
                moment: 0,
            },
            first: None,
            counter,
        })
    }

    /// A scan was submitted: what is wrong of it, if anything.
    pub(crate) fn submitted(&mut self, scan: Submitted) -> Option<Wrong> {
        match self.first {
            Some(first) if is_ahead(first, scan) => Some(Wrong::MomentJumped),
            Some(_) => None,
            None => {
                self.first = Some(scan);
                None
            }
        }
    }

    /// So many entries it has.
    pub(crate) fn len(&self) -> u64 {
        self.gone.saturating_add(self.entries.len() as u64)
    }

    /// Whether the entry at a place is this request, as far as it's kept.
    pub(crate) fn has(&self, place: u64, request: &Request) -> bool {
        let Some(place) = place.checked_sub(self.gone) else {
            return true;
        };
        let place = usize::try_from(place).unwrap_or(usize::MAX);
        let Some(entry) = self.entries.get(place) else {
            return false;
        };
        entry.client == request.client.number
            && entry.number == request.number
            && entry.value == value_of(&request.command, self.counter)
    }

    /// This is its next entry: what is wrong of it, if anything.
    pub(crate) fn add(
        &mut self,
        alloc: Global,
        request: &Request,
    ) -> Result<Option<Wrong>, AllocError> {
        let mut wrong = None;
        if let Some(scan) = sampled_by(&request.command, self.counter) {
            wrong = fallen(self.last, scan);
            self.last = scan;
        }
        let ready = prepare(alloc, &request.command)?;
        let answer = self.controller.apply_ready(ready);
        if self.entries.len() >= MOST {
            let _ = self.entries.pop_front();
            self.gone = self.gone.saturating_add(1);
        }
        self.entries.push_back(Entry {
            client: request.client.number,
            number: request.number,
            value: value_of(&request.command, self.counter),
            answer,
        })?;
        Ok(wrong)
    }

    /// The place of the scan that this client asked for under this number, if its outputs are these.
    pub(crate) fn released(&self, client: u8, number: u64, image: &OutImage) -> Option<u64> {
        let count = self.entries.len();
        for behind in 0..count {
            let place = count - 1 - behind;
            let entry = self.entries.get(place)?;
            if entry.client == client && entry.number == number {
                let is_given = entry.answer.image().is_some_and(|given| given == *image);
                let place = self.gone.saturating_add(place as u64);
                return if is_given { Some(place) } else { None };
            }
        }
        None
    }
}
