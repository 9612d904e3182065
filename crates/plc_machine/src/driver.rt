//! The driver of one machine: a client of its group, which submits scans while the machine leads.

ghost use Rattle.std.specs.Prelude.{◌≡◌, ◌↔◌, ◌&&◌, List, None, Some, IfNone, IfOk, IfSome, IsTrue, OnErr, OnOk};
ghost use Rattle.std.specs.Prelude.{is_some, not};
ghost use Rattle.std.specs.Duration.{as_nanos};
ghost use Rattle.il_model.specs.declared.command.Command.{Command as Asked};
ghost use Rattle.vr_client.specs.Client.{BecomesAt, SendsAt, answer_by, new_client};
ghost use Rattle.vr_model.specs.Logs.{Request as Entry};
ghost use Rattle.vr_model.specs.StandsFor.{body_with, message_with};
ghost use Rattle.vr_model.specs.Steps.{Hears, Retries};
ghost use Rattle.io_driver.specs.Driver.{release_by};
ghost use Rattle.plc_machine.specs.Driving.{GivesUp, IsKept, Looks, Shows, SubmitsScan, TakesReply};
ghost use Rattle.plc_machine.specs.Driving.{client_starts, shown_by};
ghost use Rattle.plc_machine.specs.declared.leading.Course.TheVariants.{StandingBy};

use crate::leading::{Course, LastScan, Pace};
use io_driver::ScanDriver;
use io_image::{Release, Staging};
use std::alloc::{AllocError, Global};
use std::time::Duration;
use vr_model::{ClientNumber, Config, Message, Sends};

/// The numbers of a client's requests are used up: its machine has to start anew.
#[derive(Clone, Copy, Debug, PartialEq, Eq)]
pub struct NumbersUsedUp;

/// So many starts of a client belong to each start of its machine.
const RESTARTS: u64 = 1 << 16;

/// How often the client of a machine started before, by the machine's own starts; `None` past 65,535 of those.
pub fn client_starts(starts: u64) -> Option<u32>
    ensures { result ≡ client_starts starts }
{
    if starts < RESTARTS {
        Some((starts * RESTARTS) as u32)
    } else {
        None
    }
}

/// The driver of one machine of a group. It submits a scan only while the machine leads, and shows what a scan released
/// only while that is fresh.
#[derive(Drop)]
pub struct MachineDriver {
    pub(crate) driver: ScanDriver,
    pub(crate) course: Course,
    pub(crate) pace: Pace,
    /// How often its client started again, within this start of the machine.
    pub(crate) restarts: u16,
    /// When the scan was submitted that was submitted last.
    pub(crate) submitted: Duration,
    /// When the scan was submitted as of which outputs are shown: that released them, or is held behind that one; none
    /// where the machine has released nothing since it leads.
    pub(crate) shown: Option<Duration>,
}

/// When the scan was submitted as of which outputs are shown, where one that was submitted then was answered or not,
/// and released some or not: before it was another one, if any.
fn shown_by(
    is_released: bool,
    is_answered: bool,
    submitted: Duration,
    shown: Option<Duration>,
) -> Option<Duration>
    ensures { result ≡ shown_by is_released is_answered submitted shown }
{
    match (is_released, is_answered, shown) {
        (true, _, _) => Some(submitted),
        (false, true, Some(_)) => Some(submitted),
        (false, true, None) => None,
        (false, false, shown) => shown,
    }
}

/// Whether a request was answered that waited before or didn't, and waits now or doesn't.
fn is_answered(waited: bool, waits: bool) -> bool
    ensures { result ≡ (waited && not waits) }
{
    waited && !waits
}

impl MachineDriver {
    /// The driver of a machine that stands by. It's this client of its group, which started so often before.
    pub fn new(config: &Config, client: ClientNumber, starts: u32, pace: Pace) -> MachineDriver
        ensures client { result.driver ≡ new_client config.now.f client.number starts }
        ensures standing_by { (result.course ≡ StandingBy) × (result.shown ≡ None) × (result.pace ≡ pace) }
        ensures restarts { result.restarts ≡ 0 }
    {
        MachineDriver {
            driver: ScanDriver::of_client(config, client, starts),
            course: Course::StandingBy,
            pace,
            restarts: 0,
            submitted: Duration::from_millis(0),
            shown: None,
        }
    }

    /// Whether the machine leads, and how.
    pub fn course(&self) -> Course
        ensures { result ≡ self.now.course }
    {
        self.course
    }

    /// Whether a scan waits for its reply.
    pub fn is_waiting(&self) -> bool
        ensures { result ≡ is_some self.now.driver.state.waits }
    {
        self.driver.is_waiting()
    }

    /// Looks at its replica, which leads this view, if it leads. Where the machine begins or ceases to lead, what waits
    /// is given up, so that no old inputs are ever asked for again, and nothing is shown.
    pub fn look(
        &mut self,
        leads: Option<u64>,
        last: Option<LastScan>,
        now: Duration,
    ) -> Result<(), NumbersUsedUp>
        ensures looked { OnOk result (Looks leads last now self.old self.new) }
        ensures used_up { OnErr result (self.new ≡ self.old) }
    {
        let after = self.course.after(leads, last, now, self.pace);
        if !self.goes_on(leads) {
            self.give_up()?;
            self.shown = None;
        }
        self.course = after;
        Ok(())
    }

    /// Whether the machine goes on as it is, where its replica leads this view, if it leads.
    fn goes_on(&self, leads: Option<u64>) -> bool
        ensures { IsTrue result ↔ IsKept leads self.now.course }
    {
        match (self.course, leads) {
            (Course::StandingBy, None) => true,
            (Course::Leading(lead), Some(view)) => lead.view == view,
            _ => false,
        }
    }

    /// Gives up what waits.
    #[tactic(auto, using(crate::proofs::Restarts::waits_for_nothing, crate::proofs::Restarts::one_start_more))]
    fn give_up(&mut self) -> Result<(), NumbersUsedUp>
        ensures given_up { OnOk result (GivesUp self.old self.new) }
        ensures used_up { OnErr result (self.new ≡ self.old) }
    {
        if !self.driver.is_waiting() {
            return Ok(());
        }
        let Some(restarts) = self.restarts.checked_add(1) else {
            return Err(NumbersUsedUp);
        };
        if !self.driver.start_again() {
            return Err(NumbersUsedUp);
        }
        self.restarts = restarts;
        Ok(())
    }

    /// Submits the scan of one sample of the staged inputs, where the machine leads, a scan is due and none waits: its
    /// REQUEST. `None` where that isn't so, or numbers are used up; then, and where memory runs out, nothing changed.
    pub fn submit<S: Staging>(
        &mut self,
        alloc: Global,
        staging: &mut S,
        now: Duration,
    ) -> Result<Option<Sends>, AllocError>
        ensures some { IfOk result (λ o. IfSome o
            (λ sends. SubmitsScan now (S.told staging.old) sends.items (S.told staging.new) self.old self.new)) }
        ensures none { IfOk result
            (λ o. IfNone o ((self.new ≡ self.old) × (S.told staging.new ≡ S.told staging.old))) }
        ensures err { OnErr result ((self.new ≡ self.old) × (S.told staging.new ≡ S.told staging.old)) }
    {
        let Course::Leading(lead) = self.course else {
            return Ok(None);
        };
        if now.as_nanos() < lead.due.as_nanos() {
            return Ok(None);
        }
        let moment = lead.moment_at(now);
        let Some(sends) = self.driver.sample_and_submit(alloc, staging, moment)? else {
            return Ok(None);
        };
        self.course = Course::Leading(lead.submitted(now, self.pace.period));
        self.submitted = now;
        Ok(Some(sends))
    }

    /// The REQUEST that waits, to every replica; nothing where none waits.
    pub fn retry(&self, alloc: Global) -> Result<Sends, AllocError>
        ensures { IfOk result (λ sends. SendsAt self.now.driver Retries sends.items) }
    {
        self.driver.retry(alloc)
    }

    /// Takes a message to its client: the release of the scan that waits, if the message is the first REPLY to it and
    /// has an image. That is shown from now on. A scan that is held has no image: behind its REPLY what is shown stays,
    /// as fresh as that scan, since a majority has it, and whoever leads next waits until it's no longer fresh.
    pub fn on_reply(&mut self, message: &Message) -> Option<Release>
        ensures heard { (log : List (Entry Asked))
            → BecomesAt self.old.driver (Hears (message_with log message.now)) self.new.driver }
        ensures release { (log : List (Entry Asked))
            → result ≡ release_by self.old.driver.state (body_with log message.now.body) }
        ensures shown { (log : List (Entry Asked))
            → TakesReply result (is_some (answer_by self.old.driver.state (body_with log message.now.body)))
            self.old self.new }
    {
        let waited = self.driver.is_waiting();
        let release = self.driver.on_reply(message);
        let waits = self.driver.is_waiting();
        let is_answered = is_answered(waited, waits);
        self.shown = shown_by(release.is_some(), is_answered, self.submitted, self.shown);
        release
    }

    /// When the scan was submitted as of which outputs are shown, while the machine leads; none where it has released
    /// nothing since.
    pub fn shown(&self) -> Option<Duration>
        ensures { result ≡ self.now.shown }
    {
        self.shown
    }

    /// Whether outputs are shown now: the machine leads, whoever led before shows nothing any more, and they are fresh.
    pub fn shows(&self, now: Duration) -> bool
        ensures { IsTrue result ↔ Shows now self.now }
    {
        match (self.course, self.shown) {
            (Course::Leading(lead), Some(submitted)) => {
                let fresh = submitted.saturating_add(self.pace.fresh);
                lead.opens.as_nanos() <= now.as_nanos() && now.as_nanos() < fresh.as_nanos()
            }
            _ => false,
        }
    }
}
