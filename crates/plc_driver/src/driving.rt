//! The driver's own thread, while another one prints what is noted in it.

ghost use Rattle.std.specs.Prelude.{◌≡◌, IfOk, Ok, Some, vec_len};
ghost use Rattle.vr_model.specs.Groups.{group_size};
ghost use Rattle.plc_status.specs.Journal.{AreNoted, Prints};

use crate::drive::{Drive, Parts};
use il_loader::Image;
use io_image::{Naming, Pen, Stage};
use io_model::CountedWrite;
use plc_host::{Failed, Host, ServiceRuntime};
use plc_settings::Settings;
use plc_status::{Journal, Printer};
use std::snapshot::Snapshot;
use std::sync::Arc;
use std::thread;
use std::thread::Promise;
use vr_ports::Relink;
use vr_threads::{ClusterThreads, Starts};

/// A scan loop whose replicas have started, with their threads.
#[derive(Drop)]
pub struct Driver<R, L, J, P>
where
    R: ServiceRuntime,
    L: Relink + Drop,
    J: Naming,
    P: Pen<J> + Drop,
{
    drive: Drive<R, L, J, P>,
    threads: ClusterThreads,
}

/// A scan loop that has the group scan no more, and how many scans it made, or why it failed.
#[derive(Drop)]
struct Ran<R, L, J, P>
where
    R: ServiceRuntime,
    L: Relink + Drop,
    J: Naming,
    P: Pen<J> + Drop,
{
    drive: Drive<R, L, J, P>,
    done: Result<u32, Failed>,
}

/// A driver that has the group scan no more, whose replicas have not ended yet.
#[derive(Drop)]
pub struct Driven<R, L, J, P>
where
    R: ServiceRuntime,
    L: Relink + Drop,
    J: Naming,
    P: Pen<J> + Drop,
{
    ran: Ran<R, L, J, P>,
    threads: ClusterThreads,
}

/// How many scans were released, and how often a replica crashed because that was asked for.
#[derive(Clone, Copy)]
pub struct DriverCounts {
    pub scans: u32,
    pub crashes: u64,
}

/// What is left of a driver that has ended: its journal, and its counts, or why it failed.
#[derive(Drop)]
pub struct Ended {
    pub journal: Journal,
    pub counts: Result<DriverCounts, Failed>,
}

/// What is known of a scan loop that comes back: after how many scans it ends well, and of which journal its own goes
/// on.
#[derive(Drop)]
struct Returning {
    scans: Option<u32>,
    journal: Snapshot<Journal>,
}

impl<R, L, J, P> Promise<Ran<R, L, J, P>> for Returning
where
    R: ServiceRuntime,
    L: Relink + Drop,
    J: Naming,
    P: Pen<J> + Drop,
{
    ghost use Rattle.std.specs.Prelude.{◌≡◌, IfOk, Some};
    ghost use Rattle.plc_status.specs.Journal.{AreNoted};

    ghost kept_by = { λ p r. IfOk r.done (λ scans. p.scans ≡ Some scans) × AreNoted p.journal.value r.drive.journal };
}

/// Has the group scan until as many scans are released as are asked for. Then nothing more is noted in this thread.
fn run_to_end<R, L, J, P>(rt: R, mut drive: Drive<R, L, J, P>, stage: Arc<Stage>) -> Ran<R, L, J, P>
where
    R: ServiceRuntime,
    L: Relink + Send + Drop + 'static,
    J: Naming + Send + Sync + 'static,
    P: Pen<J> + Send + Drop + 'static,
    ensures scans { IfOk result.done (λ scans. drive.scans ≡ Some scans) }
    ensures noted { AreNoted drive.journal result.drive.journal }
{
    let done = drive.run(&mut stage.handle(&rt));
    drive.journal.end();
    Ran { drive, done }
}

impl<R, L, J, P> Driver<R, L, J, P>
where
    R: ServiceRuntime,
    L: Relink + Send + Drop + 'static,
    J: Naming + Send + Sync + 'static,
    P: Pen<J> + Send + Drop + 'static,
{
    /// Starts the replicas of an image's program, and waits until each has started: all or none. Where it fails no
    /// thread goes on that doesn't hang.
    pub fn start<S: Starts + Send + Drop + 'static>(
        host: Host<R>,
        settings: &Settings,
        image: &Image,
        parts: Parts<L, S, J, P>,
    ) -> Result<Driver<R, L, J, P>, Failed>
        requires { vec_len parts.stores ≡ group_size settings.now.config.f }
        ensures journal { IfOk result (λ driver. driver.drive.journal ≡ parts.journal) }
        ensures scans { IfOk result (λ driver. driver.drive.scans ≡ settings.now.scans) }
    {
        let (mut drive, threads) = Drive::start(host, settings, image, parts)?;
        match drive.await_starts() {
            Ok(()) => Ok(Driver { drive, threads }),
            Err(failed) => {
                Driver { drive, threads }.end(&host.rt);
                Err(failed)
            }
        }
    }

    /// Has the group scan until as many scans are released as are asked for, in a thread of its own, and prints what is
    /// noted meanwhile. Where no thread is to be had it's done in this one, and printed behind it.
    pub fn run<E: CountedWrite>(
        self,
        rt: &R,
        stage: Arc<Stage>,
        printer: &mut Printer,
        err: &mut E,
    ) -> Driven<R, L, J, P>
        ensures scans { IfOk result.ran.done (λ scans. self.drive.scans ≡ Some scans) }
        ensures noted { AreNoted self.drive.journal result.ran.drive.journal }
        ensures printed { Prints E.CountedWrite printer.old printer.new err.old err.new }
    {
        let Driver { drive, threads } = self;
        let returning = Returning {
            scans: drive.scans,
            journal: Snapshot::of(&drive.journal),
        };
        let theirs = *rt;
        let work = move || run_to_end(theirs, drive, stage);
        let ran = match thread::spawn_with(rt, returning, work) {
            Ok(thread) => {
                printer.attend(rt, err);
                thread.join(rt)
            }
            Err(refused) => (refused.value)(),
        };
        Driven { ran, threads }
    }

    /// Ends each replica, and joins the threads, unless one isn't at its end after a while.
    pub fn end(self, rt: &R) {
        let Driver { mut drive, threads } = self;
        if drive.end() {
            drop(drive);
            threads.join(rt);
        }
    }
}

impl<R, L, J, P> Driven<R, L, J, P>
where
    R: ServiceRuntime,
    L: Relink + Send + Drop + 'static,
    J: Naming + Send + Sync + 'static,
    P: Pen<J> + Send + Drop + 'static,
{
    /// Ends each replica, and joins the threads. Where one isn't at its end after a while, that's noted, a device
    /// failed, and none is joined.
    #[tactic(auto, using(crate::proofs::Noted::both, crate::proofs::Noted::none, crate::proofs::Noted::one))]
    pub fn end(self, rt: &R) -> Ended
        ensures scans { IfOk result.counts (λ counts. self.ran.done ≡ Ok counts.scans) }
        ensures noted { AreNoted self.ran.drive.journal result.journal }
    {
        let Driven {
            ran: Ran { mut drive, done },
            threads,
        } = self;
        let is_ended = drive.end();
        let crashes = drive.crashes();
        let journal = drive.into_journal();
        if !is_ended {
            return Ended {
                journal,
                counts: Err(Failed::Device),
            };
        }
        threads.join(rt);
        Ended {
            journal,
            counts: counted(done, crashes),
        }
    }
}

/// The counts of a scan loop that made so many scans, unless it failed.
fn counted(done: Result<u32, Failed>, crashes: u64) -> Result<DriverCounts, Failed>
    ensures { IfOk result (λ counts. done ≡ Ok counts.scans) }
{
    Ok(DriverCounts {
        scans: done?,
        crashes,
    })
}
