//! The client by which a node has its group scan.

ghost use Rattle.std.specs.Prelude.{◌≡◌, ◌&&◌, List, IfNone, IfOk, IfSome, OnErr, OnOk, is_some, not, false, true, None, Some};
ghost use Rattle.std.specs.Duration.{as_nanos};
ghost use Rattle.il_model.specs.declared.command.Command.{Command as Asked};
ghost use Rattle.io_driver.specs.Driver.{release_by};
ghost use Rattle.plc_machine.specs.Driving.{Looks, SubmitsScan, TakesReply};
ghost use Rattle.plc_node_core.specs.Quiet.{is_quiet};
ghost use Rattle.plc_node_core.specs.Scanning as spec;
ghost use Rattle.vr_client.specs.Client.{BecomesAt, SendsAt, answer_by};
ghost use Rattle.vr_model.specs.Logs.{Request as Entry};
ghost use Rattle.vr_model.specs.StandsFor.{body_with, message_with};
ghost use Rattle.vr_model.specs.Steps.{Hears, Retries};

use io_image::{Release, Staging};
use plc_machine::{Course, LastScan, MachineDriver, NumbersUsedUp};
use std::alloc::{AllocError, Global};
use std::time::Duration;
use vr_model::{Message, Party, Sends};

/// In milliseconds, the longest that a node waits for what comes next: so late it may be seen that its replica leads.
const LONGEST_WAIT: u64 = 5;

/// In milliseconds: after so long without a reply a request goes to every replica, or after a period if that's
/// shorter.
const LONGEST_SILENCE: u64 = 1_000;

/// What a message makes of the scan that waits for its reply.
#[derive(Clone, Copy)]
pub enum Answered {
    /// It isn't the reply.
    Nothing,
    /// It's the reply, and releases this.
    Released(Release),
    /// It's the reply of a scan that is held or stopped, which releases nothing: what is shown, if anything is, stays,
    /// and is as old as that scan.
    Held { shows: bool },
}

impl Answered {
    /// What is released, if anything is.
    pub fn released(self) -> Option<Release>
        ensures { result ≡ spec.released_in self }
    {
        match self {
            Answered::Released(release) => Some(release),
            Answered::Held { .. } | Answered::Nothing => None,
        }
    }
}

/// The client by which a node has its group scan: what it submits while the node leads, and when it asks again.
#[derive(Drop)]
pub struct ScanClient {
    /// Of the node's own replica, if its group has others than the node's.
    pub(crate) own: Option<u8>,
    pub(crate) period: Duration,
    pub(crate) driver: MachineDriver,
    /// When its request was sent last.
    pub(crate) sent: Duration,
    /// Its request went to others than the own replica, as that of a client that knows no view yet: it goes to all.
    pub(crate) asks_all: bool,
}

/// The shorter one.
fn shorter(one: Duration, other: Duration) -> Duration
    ensures { as_nanos result ≡ spec.earlier (as_nanos one) (as_nanos other) }
{
    if one.as_nanos() < other.as_nanos() {
        one
    } else {
        other
    }
}

/// For so long a request of a node with this period waits for its reply before it goes again.
fn silence(period: Duration) -> Duration
    ensures { as_nanos result ≡ spec.silence (as_nanos period) }
{
    shorter(period, Duration::from_millis(LONGEST_SILENCE))
}

/// Whether this is the replica of this number.
fn is_replica(party: Party, number: u8) -> bool
    ensures { result ≡ spec.is_replica party number }
{
    match party {
        Party::Replica(to) => to == number,
        Party::Client(_) => false,
    }
}

/// Whether one of these messages goes to this replica.
fn goes_to(sends: &Sends, number: u8) -> bool
    ensures { result ≡ spec.goes_to sends.now.items number }
{
    sends.iter().any(|message| is_replica(message.to, number))
}

/// Whether these messages go to others than this replica; none is another's, where all are the node's.
fn goes_to_others(sends: &Sends, own: Option<u8>) -> bool
    ensures { result ≡ spec.goes_to_others sends.now.items own }
{
    match own {
        Some(number) => !goes_to(sends, number),
        None => false,
    }
}

/// Whether a request was answered that waited before or didn't, and waits now or doesn't.
fn is_answered(waited: bool, waits: bool) -> bool
    ensures { result ≡ (waited && not waits) }
{
    waited && !waits
}

/// What a message made of a scan: it released this, if anything, it was answered or not, and outputs are shown as of
/// then, if any are.
fn answered_by(release: Option<Release>, is_answered: bool, shown: Option<Duration>) -> Answered
    ensures { result ≡ spec.answered_by release is_answered (is_some shown) }
{
    match (release, is_answered) {
        (Some(release), _) => Answered::Released(release),
        (None, true) => Answered::Held {
            shows: shown.is_some(),
        },
        (None, false) => Answered::Nothing,
    }
}

/// Whether a scan is due of a node that leads, or doesn't.
fn is_scan_due(course: Course, now: Duration) -> bool
    ensures { result ≡ spec.is_scan_due course now }
{
    match course {
        Course::Leading(lead) => lead.due.as_nanos() <= now.as_nanos(),
        Course::StandingBy => false,
    }
}

/// Whether a scan was due a period ago, or longer, of a node that leads, or doesn't.
fn is_scan_late(course: Course, period: Duration, now: Duration) -> bool
    ensures { result ≡ spec.is_scan_late course period now }
{
    match course {
        Course::Leading(lead) => lead.due.saturating_add(period).as_nanos() <= now.as_nanos(),
        Course::StandingBy => false,
    }
}

/// When a node looks again that leads, or doesn't, and for which a scan waits, or doesn't: then at the latest.
fn woken_by(course: Course, waits: bool, latest: Duration) -> Duration
    ensures { as_nanos result ≡ spec.woken_by course waits (as_nanos latest) }
{
    match (course, waits) {
        (Course::Leading(lead), false) => shorter(lead.due, latest),
        (Course::Leading(_), true) => latest,
        (Course::StandingBy, _) => latest,
    }
}

impl ScanClient {
    /// Of a node whose own replica has this number, and that scans in this period. It has sent nothing.
    pub fn new(number: u8, period: Duration, driver: MachineDriver) -> ScanClient
        ensures { (result.own ≡ Some number) × (result.period ≡ period) × (result.driver ≡ driver)
            × (result.asks_all ≡ false) }
    {
        ScanClient {
            own: Some(number),
            period,
            driver,
            sent: Duration::from_millis(0),
            asks_all: false,
        }
    }

    /// Of a node that has all replicas of its group, and that scans in this period. It has sent nothing.
    pub fn of_all(period: Duration, driver: MachineDriver) -> ScanClient
        ensures { (result.own ≡ None) × (result.period ≡ period) × (result.driver ≡ driver)
            × (result.asks_all ≡ false) }
    {
        ScanClient {
            own: None,
            period,
            driver,
            sent: Duration::from_millis(0),
            asks_all: false,
        }
    }

    /// Whether a scan waits for its reply.
    pub fn is_waiting(&self) -> bool
        ensures { result ≡ spec.waits_in self.now.driver }
    {
        self.driver.is_waiting()
    }

    /// Whether the node leads, and a scan is due.
    pub fn is_scan_due(&self, now: Duration) -> bool
        ensures { result ≡ spec.is_scan_due self.now.driver.course now }
    {
        is_scan_due(self.driver.course(), now)
    }

    /// Whether a scan that is submitted now comes a period late or more.
    pub fn is_scan_late(&self, now: Duration) -> bool
        ensures { result ≡ spec.is_scan_late self.now.driver.course self.now.period now }
    {
        is_scan_late(self.driver.course(), self.period, now)
    }

    /// Whether no reply came for so long that the request goes again.
    fn is_silent(&self, now: Duration) -> bool
        ensures { result ≡ spec.is_silent (as_nanos self.now.sent) (as_nanos self.now.period) (as_nanos now) }
    {
        now.saturating_sub(self.sent).as_nanos() >= silence(self.period).as_nanos()
    }

    /// Whether the request that waits is to go to every replica now.
    pub fn is_asked_again(&self, now: Duration) -> bool
        ensures { result ≡ spec.is_asked_again self.now now }
    {
        self.is_waiting() && (self.asks_all || self.is_silent(now))
    }

    /// When a scan is due that can be submitted then, where the node leads: at this time at the latest.
    pub fn woken_by(&self, latest: Duration) -> Duration
        ensures { as_nanos result
            ≡ spec.woken_by self.now.driver.course (spec.waits_in self.now.driver) (as_nanos latest) }
    {
        woken_by(self.driver.course(), self.driver.is_waiting(), latest)
    }

    /// When it's to look again, unless something comes before that.
    pub fn next_look(&self, now: Duration) -> Duration
        ensures { as_nanos result
            ≡ spec.next_look self.now.driver.course (spec.waits_in self.now.driver) (as_nanos now) }
    {
        self.woken_by(now.saturating_add(Duration::from_millis(LONGEST_WAIT)))
    }

    /// Looks at the own replica, which leads this view, if it leads, and at the last scan of its log.
    pub fn look(
        &mut self,
        leads: Option<u64>,
        last: Option<LastScan>,
        now: Duration,
    ) -> Result<(), NumbersUsedUp>
        ensures looked { OnOk result (Looks leads last now self.old.driver self.new.driver) }
        ensures used_up { OnErr result (self.new ≡ self.old) }
    {
        self.driver.look(leads, last, now)
    }

    /// Submits the scan of one sample of the staged inputs, where the node leads, a scan is due and none waits: its
    /// REQUEST. `None` where that isn't so, or numbers are used up; then, and where memory runs out, nothing changed.
    pub fn submit<S: Staging>(
        &mut self,
        alloc: Global,
        stage: &mut S,
        now: Duration,
    ) -> Result<Option<Sends>, AllocError>
        ensures some { IfOk result (λ o. IfSome o (λ sends.
            SubmitsScan now (S.told stage.old) sends.items (S.told stage.new) self.old.driver self.new.driver)) }
        ensures sent { IfOk result (λ o. IfSome o (λ sends.
            (self.new.sent ≡ now) × (self.new.asks_all ≡ spec.goes_to_others sends.items self.old.own))) }
        ensures none { IfOk result
            (λ o. IfNone o ((self.new ≡ self.old) × (S.told stage.new ≡ S.told stage.old))) }
        ensures err { OnErr result ((self.new ≡ self.old) × (S.told stage.new ≡ S.told stage.old)) }
    {
        let Some(sends) = self.driver.submit(alloc, stage, now)? else {
            return Ok(None);
        };
        self.sent = now;
        self.asks_all = goes_to_others(&sends, self.own);
        Ok(Some(sends))
    }

    /// The REQUEST that waits, to every replica: it counts as sent now. `None` where memory is wanting: then it's put
    /// off.
    pub fn again(&mut self, alloc: Global, now: Duration) -> Option<Sends>
        ensures sends { IfSome result (λ sends. SendsAt self.old.driver.driver Retries sends.items) }
        ensures noted { (self.new.sent ≡ now) × (self.new.asks_all ≡ false) }
        ensures same { (self.new.driver ≡ self.old.driver) × (self.new.period ≡ self.old.period) }
    {
        self.sent = now;
        self.asks_all = false;
        match self.driver.retry(alloc) {
            Ok(sends) => Some(sends),
            Err(_) => None,
        }
    }

    /// Takes a message of the group.
    pub fn reply(&mut self, message: &Message) -> Answered
        ensures heard { (log : List (Entry Asked))
            → BecomesAt self.old.driver.driver (Hears (message_with log message.now)) self.new.driver.driver }
        ensures answered { (log : List (Entry Asked)) → result ≡ spec.answered_by
            (release_by self.old.driver.driver.state (body_with log message.now.body))
            (is_some (answer_by self.old.driver.driver.state (body_with log message.now.body)))
            (is_some self.old.driver.shown) }
        ensures released { (log : List (Entry Asked))
            → spec.released_in result ≡ release_by self.old.driver.driver.state (body_with log message.now.body) }
        ensures shown { (log : List (Entry Asked)) → TakesReply
            (release_by self.old.driver.driver.state (body_with log message.now.body))
            (is_some (answer_by self.old.driver.driver.state (body_with log message.now.body)))
            self.old.driver self.new.driver }
        ensures quiet { is_quiet self.old.driver ≡ true → is_quiet self.new.driver ≡ true }
        ensures course { self.new.driver.course ≡ self.old.driver.course }
        ensures same { (self.new.sent ≡ self.old.sent) × (self.new.asks_all ≡ self.old.asks_all) }
    {
        let waited = self.driver.is_waiting();
        let shown = self.driver.shown();
        let release = self.driver.on_reply(message);
        let waits = self.driver.is_waiting();
        let is_answered = is_answered(waited, waits);
        answered_by(release, is_answered, shown)
    }
}
