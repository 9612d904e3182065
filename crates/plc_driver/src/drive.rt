//! The driver of a group: the client that has it scan once a period, and publishes what it releases.

ghost use Rattle.std.specs.Prelude.{◌≡◌, ◌+◌, ◌*◌, if◌then◌else◌, min, OnOk, OnErr, IfOk, IfSome, IfNone, List, length};
ghost use Rattle.std.specs.Prelude.{Some, false, vec_len};
ghost use Rattle.std.specs.Duration.{as_nanos};
ghost use Rattle.vr_model.specs.Groups.{group_size};
ghost use Rattle.il_model.specs.declared.command.Command.{Command as Asked};
ghost use Rattle.vr_model.specs.Logs.{Request as Entry};
ghost use Rattle.vr_model.specs.StandsFor.{body_with};
ghost use Rattle.io_driver.specs.Driver.{release_by};
ghost use Rattle.plc_status.specs.Journal.{AreNoted};
ghost use Rattle.plc_status.specs.Scans.{after_scan, IsHaltNoted, halted};
ghost use Rattle.plc_driver.specs.Driving.{AsksForScan, HasRun, Publishes, Scans, scan_of};

use crate::crashes::Crashes;
use crate::group::Group;
use crate::pace::{Came, Pace};
use il_loader::Image;
use io_driver::ScanDriver;
use io_image::{Naming, Pen, ReleasedWriter, Staging};
use plc_host::{Failed, Host, ServiceRuntime};
use plc_settings::Settings;
use plc_sight::SnapshotBoard;
use plc_status::{Halt, Journal, Notice, Scan, StatusWriter, halt_in};
use std::sync::{Arc, Wait};
use std::time::{Clock, Duration, Instant};
use vr_model::Message;
use vr_ports::{Input, Relink, send_all};
use vr_threads::{ClusterThreads, Starts};

/// What is noted of a scan that was held or stopped by this, or goes on.
fn halted(halt: Option<Halt>) -> Notice
    ensures { result ≡ halted halt }
{
    match halt {
        Some(halt) => halt.notice(),
        None => Notice::GoesOn,
    }
}

/// What came of a scan.
#[derive(Clone, Copy)]
pub(crate) struct Scanned {
    /// By what it was held or stopped, if it was.
    halt: Option<Halt>,
    /// Whether it released outputs: one that's held doesn't.
    is_released: bool,
}

/// What a driver is given beside its settings: the links of the replicas and then its own, a store for each replica,
/// and what it publishes and notes.
#[derive(Drop)]
pub struct Parts<L: Drop, S: Drop, J: Naming, P: Pen<J> + Drop> {
    pub links: Vec<L>,
    pub stores: Vec<S>,
    pub writer: ReleasedWriter<J, P>,
    pub journal: Journal,
    pub status: StatusWriter,
    /// Since when the moments of scans are counted.
    pub begun: Instant,
    /// Where the replica that leads leaves snapshots of the controller for those who want one.
    pub sight: Arc<SnapshotBoard>,
}

/// The scan loop of a group: the client that submits its scans, with its link, the images that it publishes, and the
/// journal that it writes. Any thread may have it.
#[derive(Drop)]
pub(crate) struct Drive<R, L, J, P>
where
    R: Clock + Copy + Drop,
    L: Relink + Drop,
    J: Naming,
    P: Pen<J> + Drop,
{
    host: Host<R>,
    driver: ScanDriver,
    link: L,
    pub writer: ReleasedWriter<J, P>,
    group: Group<R, L>,
    pace: Pace,
    crashes: Crashes,
    /// By what the last scan was held or stopped, if it was.
    halt: Option<Halt>,
    pub journal: Journal,
    /// After so many releases it ends; without a number it goes on.
    pub scans: Option<u32>,
    status: StatusWriter,
}

impl<R, L, J, P> Drive<R, L, J, P>
where
    R: ServiceRuntime,
    L: Relink + Send + Drop + 'static,
    J: Naming,
    P: Pen<J> + Drop,
{
    /// Starts the replicas of an image's program, all or none, each in a thread of its own. The first scan is due at
    /// once. Beside it their threads, to be joined behind `end`. Where it fails no thread goes on.
    pub fn start<S: Starts + Send + Drop + 'static>(
        host: Host<R>,
        settings: &Settings,
        image: &Image,
        parts: Parts<L, S, J, P>,
    ) -> Result<(Drive<R, L, J, P>, ClusterThreads), Failed>
        requires { vec_len parts.stores ≡ group_size settings.now.config.f }
        ensures writer { IfOk result (λ r. r.0.writer ≡ parts.writer) }
        ensures journal { IfOk result (λ r. r.0.journal ≡ parts.journal) }
        ensures scans { IfOk result (λ r. r.0.scans ≡ settings.now.scans) }
        ensures period { IfOk result (λ r. as_nanos r.0.pace.period ≡ settings.now.period * 1_000_000) }
    {
        let Parts {
            mut links,
            stores,
            writer,
            journal,
            status,
            begun,
            sight,
        } = parts;
        let Some(link) = links.pop() else {
            return Err(Failed::Device);
        };
        let pace = Pace::new(begun, settings.period);
        let (group, threads) = Group::start(host, image, settings, links, stores, &sight)?;
        let drive = Drive {
            host,
            driver: ScanDriver::new(&settings.config, 0),
            link,
            writer,
            group,
            pace,
            crashes: Crashes::new(settings.config, settings.crash),
            halt: None,
            journal,
            scans: settings.scans,
            status,
        };
        Ok((drive, threads))
    }

    /// Waits until each replica's first start has come to its end, but not for ever. Of a replica whose start hasn't,
    /// the store isn't to be had.
    pub fn await_starts(&mut self) -> Result<(), Failed>
        ensures { (self.new.writer ≡ self.old.writer) × (self.new.journal ≡ self.old.journal)
            × (self.new.scans ≡ self.old.scans) }
    {
        self.group.await_starts()
    }

    /// One scan a period, until so many were released as are asked for: how many. What changes meanwhile is noted.
    #[tactic(auto, using(crate::proofs::Noted::both, crate::proofs::Noted::none, crate::proofs::Noted::one))]
    pub fn run<T: Staging>(&mut self, staging: &mut T) -> Result<u32, Failed>
        ensures counted { HasRun self.old.scans self.old.writer self.new.writer result }
        ensures noted { AreNoted self.old.journal self.new.journal }
    {
        match self.scans {
            Some(scans) => self.run_for(staging, scans),
            None => Err(self.run_on(staging)),
        }
    }

    /// One scan a period, until so many were released.
    #[tactic(auto, using(crate::proofs::Noted::both, crate::proofs::Noted::none, crate::proofs::Noted::one))]
    fn run_for<T: Staging>(&mut self, staging: &mut T, scans: u32) -> Result<u32, Failed>
        ensures counted { IfOk result
            (λ made. (made ≡ scans) × (length self.new.writer ≡ length self.old.writer + scans)) }
        ensures noted { AreNoted self.old.journal self.new.journal }
    {
        for _ in 0..scans {
            self.release(staging)?;
            self.crash_in_turn();
        }
        Ok(scans)
    }

    /// One scan a period, until one fails: why.
    #[tactic(auto, using(crate::proofs::Noted::both, crate::proofs::Noted::none, crate::proofs::Noted::one))]
    fn run_on<T: Staging>(&mut self, staging: &mut T) -> Failed
        ensures noted { AreNoted self.old.journal self.new.journal }
    {
        let rt = self.host.rt;
        for _ in rt.forever() {
            if let Err(failed) = self.release(staging) {
                return failed;
            }
            self.crash_in_turn();
        }
        unreachable!()
    }

    /// One scan a period, until one was released: a scan that's held releases nothing, and the next period has the next
    /// one.
    #[tactic(auto, using(crate::proofs::Noted::both, crate::proofs::Noted::none, crate::proofs::Noted::one))]
    fn release<T: Staging>(&mut self, staging: &mut T) -> Result<(), Failed>
        ensures counted { OnOk result (length self.new.writer ≡ length self.old.writer + 1) }
        ensures noted { AreNoted self.old.journal self.new.journal }
    {
        let rt = self.host.rt;
        for _ in rt.forever() {
            self.rest()?;
            let came = self.submit(staging)?;
            let scanned = self.await_reply()?;
            self.note_halt(scanned.halt);
            self.show_scan(came, scanned);
            if scanned.is_released {
                return Ok(());
            }
        }
        unreachable!()
    }

    /// Sleeps until the next scan is nearly due, and looks at the replicas meanwhile.
    #[tactic(auto, using(crate::proofs::Noted::both, crate::proofs::Noted::none, crate::proofs::Noted::one))]
    fn rest(&mut self) -> Result<(), Failed>
        ensures same { self.new.writer ≡ self.old.writer }
        ensures noted { AreNoted self.old.journal self.new.journal }
    {
        let rt = self.host.rt;
        for _ in rt.forever() {
            self.tend()?;
            if self.pace.rest(&self.host.rt)? {
                return Ok(());
            }
        }
        unreachable!()
    }

    /// Looks at the replicas, and has those started anew that are due.
    fn tend(&mut self) -> Result<(), Failed>
        ensures same { self.new.writer ≡ self.old.writer }
        ensures noted { AreNoted self.old.journal self.new.journal }
    {
        let now = self.pace.elapsed(&self.host.rt)?;
        self.group.tend(now, &mut self.journal)?;
        self.group.show(&mut self.status);
        self.status.publish();
        Ok(())
    }

    /// Counts a scan that came so, with what came of it, and publishes what shows of the scans.
    fn show_scan(&mut self, came: Came, scanned: Scanned)
        ensures counted { self.new.status.scans ≡ after_scan self.old.status.scans (scan_of came scanned) }
        ensures same { (self.new.writer ≡ self.old.writer) × (self.new.journal ≡ self.old.journal) }
    {
        self.status.scanned(Scan {
            at: came.at,
            is_late: came.is_late,
            is_released: scanned.is_released,
            halt: scanned.halt,
        });
        self.status.publish();
    }

    /// Waits until a scan is due, and submits the scan of a sample of the staged inputs: how it came. Where the numbers
    /// of requests are used up a device failed.
    fn submit<T: Staging>(&mut self, staging: &mut T) -> Result<Came, Failed>
        ensures asked { IfOk result (λ came. AsksForScan (as_nanos self.old.pace.period) (as_nanos self.old.pace.due)
            (as_nanos self.new.pace.due) came self.old.driver self.new.driver (T.told staging.old)
            (T.told staging.new) (L.sent self.old.link) (L.sent self.new.link)) }
        ensures same { (self.new.writer ≡ self.old.writer) × (self.new.journal ≡ self.old.journal) }
    {
        let came = self.pace.await_scan(&self.host.rt)?;
        let Some(sends) = self
            .driver
            .sample_and_submit(self.host.alloc, staging, came.moment)?
        else {
            return Err(Failed::Device);
        };
        send_all(&mut self.link, sends);
        Ok(came)
    }

    /// Waits for the reply to the scan, and publishes what it releases; it asks again where no reply comes for a while,
    /// and looks at the replicas meanwhile.
    #[tactic(auto, using(crate::proofs::Noted::both, crate::proofs::Noted::none, crate::proofs::Noted::one))]
    fn await_reply(&mut self) -> Result<Scanned, Failed>
        ensures scanned { IfOk result (λ scanned. Scans scanned self.old.writer self.new.writer) }
        ensures counted { IfOk result
            (λ scanned. length self.new.writer ≡ length self.old.writer + (if scanned.is_released then 1 else 0)) }
        ensures noted { AreNoted self.old.journal self.new.journal }
    {
        let mut asked = self.pace.elapsed(&self.host.rt)?;
        let rt = self.host.rt;
        for _ in rt.forever() {
            if let Some(scanned) = self.hear()? {
                return Ok(scanned);
            }
            asked = self.ask_again(asked)?;
            self.tend()?;
        }
        unreachable!()
    }

    /// Receives once. Where that brings the reply that is waited for, what it releases is published, and this is what
    /// came of the scan.
    fn hear(&mut self) -> Result<Option<Scanned>, Failed>
        ensures scanned { IfOk result
            (λ heard. IfSome heard (λ scanned. Scans scanned self.old.writer self.new.writer)) }
        ensures counted { IfOk result
            (λ heard. IfSome heard
            (λ scanned. length self.new.writer ≡ length self.old.writer + (if scanned.is_released then 1 else 0))) }
        ensures kept { IfOk result (λ heard. IfNone heard (self.new.writer ≡ self.old.writer)) }
        ensures same { self.new.journal ≡ self.old.journal }
    {
        match self.link.recv() {
            Input::Message(message) => {
                let is_released = self.take(&message)?;
                if !is_released && self.driver.is_waiting() {
                    return Ok(None);
                }
                Ok(Some(Scanned {
                    halt: halt_in(&message),
                    is_released,
                }))
            }
            Input::Nothing => Ok(None),
            Input::Closed => Err(Failed::Connection),
        }
    }

    /// Asks again where it's time since it asked last: when it asked last. Where memory is wanting, that's put off until
    /// the next time.
    fn ask_again(&mut self, asked: Duration) -> Result<Duration, Failed>
        ensures same { (self.new.writer ≡ self.old.writer) × (self.new.journal ≡ self.old.journal) }
    {
        let now = self.pace.elapsed(&self.host.rt)?;
        if now.saturating_sub(asked) < self.pace.longest_silence() {
            return Ok(asked);
        }
        if let Ok(sends) = self.driver.retry(self.host.alloc) {
            send_all(&mut self.link, sends);
        }
        Ok(now)
    }

    /// Takes a message of the group. Whether it was the reply that is waited for: then what it releases is published.
    fn take(&mut self, message: &Message) -> Result<bool, Failed>
        ensures published { IfOk result (λ is_released. (log : List (Entry Asked))
            → Publishes (release_by self.old.driver.state
            (body_with log message.now.body)) is_released self.old.writer self.new.writer) }
        ensures counted { IfOk result
            (λ is_released. length self.new.writer ≡ length self.old.writer + (if is_released then 1 else 0)) }
        ensures kept { IfOk result (λ is_released. is_released ≡ false → self.new.writer ≡ self.old.writer) }
        ensures same { OnErr result (self.new.writer ≡ self.old.writer) }
        ensures journal { self.new.journal ≡ self.old.journal }
    {
        let Some(release) = self.driver.on_reply(message) else {
            return Ok(false);
        };
        // Numbers of requests rise, so only memory can be wanting.
        match self.writer.publish(release) {
            Ok(()) => Ok(true),
            Err(_) => Err(Failed::Memory),
        }
    }

    /// Notes by what the scan was held or stopped, unless the one before it was so; or that it wasn't, where that one
    /// was.
    #[tactic(auto, using(crate::proofs::Noted::both, crate::proofs::Noted::none, crate::proofs::Noted::one))]
    fn note_halt(&mut self, halt: Option<Halt>)
        ensures changes { AreNoted self.old.journal self.new.journal }
        ensures noted { IsHaltNoted self.old.halt halt self.old.journal self.new.journal }
        ensures halt { self.new.halt ≡ halt }
        ensures same { self.new.writer ≡ self.old.writer }
    {
        if self.halt != halt {
            self.journal.put(halted(halt));
        }
        self.halt = halt;
    }

    /// Counts a release. Where a replica is to crash after it, that one is restarted, which is noted.
    #[tactic(auto, using(crate::proofs::Noted::both, crate::proofs::Noted::none, crate::proofs::Noted::one))]
    fn crash_in_turn(&mut self)
        ensures same { self.new.writer ≡ self.old.writer }
        ensures noted { AreNoted self.old.journal self.new.journal }
    {
        let is_over = match self.crashes.last() {
            Some(number) => self.group.shown(number).is_normal(),
            None => true,
        };
        let Some(number) = self.crashes.released(is_over) else {
            return;
        };
        if self.group.restart(number) {
            self.journal.put(Notice::Crashed(number));
        }
    }

    /// How often a replica crashed because that was asked for.
    pub fn crashes(&self) -> u64 {
        self.crashes.count()
    }

    /// Ends each replica, and waits until its thread is at its end, but not for ever: one that isn't is noted. Whether
    /// all are.
    pub fn end(&mut self) -> bool
        ensures noted { AreNoted self.old.journal self.new.journal }
        ensures same { self.new.writer ≡ self.old.writer }
    {
        self.group.end(&mut self.journal)
    }

    /// Lets go of the scan loop and its group: its journal.
    pub fn into_journal(self) -> Journal
        ensures { result ≡ self.journal }
    {
        let Drive { journal, .. } = self;
        journal
    }
}
