//! The driver of a machine: the shell of the node that decides what the machine does in its group. It reads the clock,
//! looks at boards, sends, publishes, opens and closes.

ghost use Rattle.std.specs.Prelude.{◌≡◌, IfOk, List, OnErr, OnOk, Option, false, is_some, true};
ghost use Rattle.il_model.specs.declared.command.Command.{Command as Asked};
ghost use Rattle.vr_model.specs.Logs.{Request as Entry};
ghost use Rattle.vr_model.specs.StandsFor.{body_with};
ghost use Rattle.io_driver.specs.Driver.{release_by};
ghost use Rattle.plc_node_core.specs.Going.{NodeLooks};
ghost use Rattle.plc_node_core.specs.declared.node.ShownReplica.{ShownReplica as Replica};
ghost use Rattle.plc_member.specs.Driving.{MayScan, Publishes, TracesRelease, traced_by};
ghost use Rattle.plc_member.specs.Keeping.{failed_of, parting_of};
ghost use Rattle.plc_member.specs.Watching.{is_open};
ghost use Rattle.plc_member.specs.declared.scans.Entered.{Entered};

use crate::held_link::HeldLink;
use crate::keeper::{Keeper, Leaving};
use crate::port::Port;
use crate::publisher::Publisher;
use crate::receiving::{Receives, hang_notice};
use crate::scans::{Entered, ScanBoard, SeenScan};
use crate::signals::Signals;
use crate::stop::Stop;
use crate::teller::{Submitted, Teller};
use crate::tracer::Tracer;
use io_image::{Naming, Pen, Release, Stage};
use net_peers::PeerLink;
use plc_epochs::Kept;
use plc_host::{Failed, Host, ServiceRuntime};
use plc_machine::SeenScan as LastSeen;
use plc_node_core::{
    Action, Answered, Ending, Failure, LastAction, Node, NodeAction, ShownReplica,
};
use plc_status::{Notice, halt_in};
use std::net::{Net, TcpListener, TcpStream};
use std::sync::Arc;
use std::sync::atomic::Ordering;
use std::thread;
use std::time::{Duration, Instant};
use vr_model::Message;
use vr_ports::{Input, Link, send_all};
use vr_shown::Shown;
use vr_threads::{OwnReplica, Saves};

/// In milliseconds: so often a driver that has ended looks whether its replica's thread is at its end.
const LOOK: u64 = 1;

/// So many actions of one turn follow each other at most.
const MOST_ACTIONS: u8 = 8;

/// The driver of a machine, with what it looks at and what it publishes and notes.
#[derive(Drop)]
pub(crate) struct Drive<R, J, P>
where
    R: ServiceRuntime + Net<Listener = TcpListener, Stream = TcpStream>,
    J: Naming,
    P: Pen<J> + Drop,
{
    pub(crate) host: Host<R>,
    /// Since when its times are told.
    pub(crate) begun: Instant,
    /// Of its machine.
    pub(crate) number: u8,
    /// What decides what it does.
    pub(crate) node: Node,
    /// By which it sends requests, and receives.
    pub(crate) link: PeerLink<R>,
    pub(crate) replica: OwnReplica<HeldLink<R>>,
    pub(crate) keeper: Keeper<R>,
    pub(crate) board: Arc<ScanBoard>,
    /// How what its replica keeps in the machine's directory goes.
    pub(crate) saves: Arc<Saves>,
    pub(crate) stage: Arc<Stage>,
    pub(crate) publisher: Publisher<R, J, P>,
    pub(crate) teller: Teller,
    pub(crate) tracer: Tracer,
    /// The last scan that was submitted.
    pub(crate) submitted: Submitted,
    /// What the store is to have, where its machine leaves its epoch.
    pub(crate) kept: Option<Kept>,
    /// How its replica's thread goes on.
    pub(crate) receives: Receives,
    /// What it shows other threads.
    pub(crate) signals: Signals,
    /// What ends it.
    pub(crate) stop: Stop,
}

/// How the work of a machine's driver ends.
#[derive(Clone, Copy)]
pub(crate) enum Parting {
    /// It was asked to.
    Stopped,
    Failed(Failed),
    /// Its machine leaves its epoch, and the store is to have this.
    Leaves(Kept),
}

/// A driver behind a turn.
enum Turned<R: ServiceRuntime, J: Naming> {
    GoesOn(Port<R, J>),
    /// It's over; its port is closed, with each of its sessions.
    Over(Parting),
}

/// A moment, by the clock, and since the machine began.
#[derive(Clone, Copy)]
struct Now {
    at: Instant,
    since: Duration,
}

/// Why a machine of this number can't go on whose node can't for this.
fn failed_of(failure: Failure, number: u8) -> Failed
    ensures { result ≡ failed_of failure number }
{
    match failure {
        Failure::Store => Failed::Store(number),
        Failure::Thread => Failed::Thread,
        Failure::Memory => Failed::Memory,
        Failure::NumbersUsedUp => Failed::Device,
    }
}

/// How the driver of a machine of this number ends whose node ends so, and whose store is to have this, if the machine
/// leaves its epoch.
fn parting_of(ending: Ending, kept: Option<Kept>, number: u8) -> Parting
    ensures { result ≡ parting_of ending kept number }
{
    match (ending, kept) {
        (Ending::Stopped, _) => Parting::Stopped,
        (Ending::Failed(failure), _) => Parting::Failed(failed_of(failure, number)),
        (Ending::Leaves, Some(kept)) => Parting::Leaves(kept),
        (Ending::Leaves, None) => Parting::Failed(Failed::Store(number)),
    }
}

/// Whether this opens the port, or closes it.
fn is_of_port(action: Action) -> bool {
    matches!(action, Action::Open(_) | Action::Close)
}

/// The last scan, as a node sees it.
fn scan_of(seen: Option<SeenScan>) -> Option<LastSeen> {
    match seen {
        Some(seen) => Some(seen.scan),
        None => None,
    }
}

impl<R, J, P> Drive<R, J, P>
where
    R: ServiceRuntime + Net<Listener = TcpListener, Stream = TcpStream>,
    J: Naming + Send + Sync + 'static,
    P: Pen<J> + Drop,
{
    /// Drives while the machine leads, and stands by else, until something fails, it's asked to stop, or it leaves its
    /// epoch. The port is open while outputs are shown, and closed at the end with each of its sessions: so nothing of
    /// the epoch is shown any more before anything is said in a later one. Then nothing more is noted.
    pub(crate) fn run(mut self, port: Port<R, J>) -> Parting {
        let parting = match self.go_on(port) {
            Ok(parting) => parting,
            Err(failed) => {
                self.cut();
                Parting::Failed(failed)
            }
        };
        self.teller.end();
        drop(self);
        parting
    }

    /// Turn by turn, until it ends. By then its port is closed.
    fn go_on(&mut self, mut port: Port<R, J>) -> Result<Parting, Failed> {
        let rt = self.host.rt;
        for _ in rt.forever() {
            match self.turn(port)? {
                Turned::GoesOn(tended) => port = tended,
                Turned::Over(parting) => return Ok(parting),
            }
        }
        port.close();
        unreachable!()
    }

    /// Looks at the replica, does what is due, and takes one message at most. The port opens or closes behind that: a
    /// reply that is there counts first. Where it fails the port is closed.
    fn turn(&mut self, port: Port<R, J>) -> Result<Turned<R, J>, Failed> {
        if let Err(failed) = self.look() {
            self.close(port);
            return Err(failed);
        }
        let port = match self.act(port, false)? {
            Turned::GoesOn(port) => port,
            Turned::Over(parting) => return Ok(Turned::Over(parting)),
        };
        if let Err(failed) = self.receive() {
            self.close(port);
            return Err(failed);
        }
        self.act(port, true)
    }

    /// Now.
    fn now(&self) -> Result<Now, Failed> {
        let at = Instant::now(&self.host.rt)?;
        Ok(Now {
            at,
            since: at.saturating_duration_since(self.begun),
        })
    }

    /// Closes the port, which nobody is let in by any more: so the machine drives no longer.
    fn close(&mut self, port: Port<R, J>)
        ensures { self.new.teller.machine.is_driving ≡ false }
    {
        port.close();
        self.teller.show_course(false);
    }

    /// Cuts the link of its replica, which writes nothing more into the machine's directory.
    fn cut(&mut self) {
        self.saves.end();
        self.replica.cut();
    }

    // ---- what it looks at

    /// Looks at what may end it, and at the replica. A driver that has ended only looks whether the replica is still
    /// served.
    fn look(&mut self) -> Result<(), Failed> {
        let now = self.now()?.since;
        if !self.node.has_ended() {
            self.attend(now);
        }
        let shown = self.replica.look();
        if self.node.has_ended() {
            let replica = self.replica(shown);
            self.node.look(&replica, now);
        } else {
            self.tell_replica(shown, now);
            self.follow(shown, now);
            self.tell_around();
        }
        Ok(())
    }

    /// Follows what its replica shows, and notes where the machine leads no longer.
    fn follow(&mut self, shown: Shown, now: Duration)
        ensures { (replica : Replica) × (replica.standing ≡ shown.standing)
            × NodeLooks replica now self.old.node self.new.node }
    {
        let led = self.node.role().led();
        let replica = self.replica(shown);
        self.node.look(&replica, now);
        if led.is_some() && self.node.role().led().is_none() {
            self.teller.note_standing_by(shown.standing.view);
        }
    }

    /// What its replica shows to the node. One whose link is dead has failed, too.
    fn replica(&mut self, shown: Shown) -> ShownReplica
        ensures shown { (result.standing ≡ shown.standing) × (shown.has_failed ≡ true → result.has_failed ≡ true) }
        ensures same { self.new.node ≡ self.old.node }
    {
        ShownReplica {
            standing: shown.standing,
            has_failed: shown.has_failed || self.keeper.terms.hold.is_dead(),
            is_over: self.replica.is_idle(),
            seen: scan_of(self.board.read(&self.host.rt)),
        }
    }

    /// It ends where it's asked to stop, or leaves its epoch.
    fn attend(&mut self, now: Duration) {
        if self.stop.is_asked() {
            self.node.end_by(Ending::Stopped, now);
            return;
        }
        let leaving = self.keeper.attend(&mut self.replica);
        for notice in self.keeper.take_untold() {
            self.teller.note(notice);
        }
        let waits = self.keeper.waits_by_hand();
        self.teller.note_by_hand(waits);
        let Some(Leaving { kept, notice }) = leaving else {
            return;
        };
        if let Some(notice) = notice {
            self.teller.note(notice);
        }
        self.kept = Some(kept);
        self.node.end_by(Ending::Leaves, now);
    }

    /// Tells what the links and the trace show.
    fn tell_around(&mut self) {
        self.teller.note_links(&self.host);
        self.teller.note_trace(self.tracer.has_failed());
    }

    /// Looks whether the replica's thread hangs, and notes where that turned.
    fn look_at_receives(&mut self, now: Duration) {
        let hung = self.receives.hang();
        let count = self.keeper.terms.hold.receives();
        self.receives.look(count, self.saves.are_failing(), now);
        if let Some(notice) = hang_notice(hung, self.receives.hang(), self.number) {
            self.teller.note(notice);
        }
    }

    /// Tells what the replica shows: while it waits for its disk, or hangs behind it, it's not normal. Notes each time
    /// that it couldn't write.
    fn tell_replica(&mut self, shown: Shown, now: Duration) {
        if self.saves.has_failed_anew() {
            self.teller.note(Notice::Store(self.number));
        }
        self.look_at_receives(now);
        let told = if self.saves.are_failing() || self.receives.hang() {
            shown.starting()
        } else {
            shown
        };
        self.teller.look(told, now);
        let has_no_majority = self.teller.has_no_majority();
        self.signals
            .has_no_majority
            .store(has_no_majority, Ordering::SeqCst);
    }

    // ---- what it does

    /// Does what is due, until nothing is, or it's over. Unless it has received, or ends, it leaves the port as it is.
    /// Where it fails the port is closed.
    fn act(&mut self, mut port: Port<R, J>, has_received: bool) -> Result<Turned<R, J>, Failed> {
        for _ in 0..MOST_ACTIONS {
            let Ok(now) = self.now() else {
                self.close(port);
                return Err(Failed::Device);
            };
            match self.node.next_action(now.since) {
                None => return Ok(Turned::GoesOn(port)),
                Some(NodeAction::Does(action)) if !has_received && is_of_port(action) => {
                    return Ok(Turned::GoesOn(port));
                }
                Some(NodeAction::Does(action)) => port = self.act_once(port, action, now)?,
                Some(NodeAction::Ends(LastAction::Close)) => port = self.shut(port)?,
                Some(NodeAction::Ends(LastAction::Cut)) => {
                    self.cut();
                    self.node.cut(now.since);
                }
                Some(NodeAction::Ends(LastAction::End(ending))) => {
                    self.close(port);
                    return Ok(Turned::Over(self.part(ending)));
                }
            }
        }
        Ok(Turned::GoesOn(port))
    }

    /// It's over, and its machine ends so. A replica that hangs behind its disk at the end is noted.
    fn part(&mut self, ending: Ending) -> Parting {
        if self.kept.is_some() && ending == Ending::Failed(Failure::Store) {
            self.teller.note(Notice::Hangs(self.number));
        }
        parting_of(ending, self.kept, self.number)
    }

    /// Does this, which is due.
    fn act_once(
        &mut self,
        port: Port<R, J>,
        action: Action,
        now: Now,
    ) -> Result<Port<R, J>, Failed> {
        match action {
            Action::Fill => {
                let stage = &mut self.stage.handle(&self.host.rt);
                self.node.fill(stage, now.since);
            }
            Action::Submit => self.scan(now),
            Action::Again => {
                if let Some(sends) = self.node.again(self.host.alloc, now.since) {
                    send_all(&mut self.link, sends);
                }
            }
            Action::Open(view) => return self.open(port, view, now.since),
            Action::Close => return self.shut(port),
        }
        Ok(port)
    }

    /// Submits the scan of a sample of the staged inputs.
    fn scan(&mut self, now: Now)
        ensures { MayScan self.old.node.role.scans.driver self.new.node.role.scans.driver }
    {
        let is_late = self.node.role().is_scan_late(now.since);
        let stage = &mut self.stage.handle(&self.host.rt);
        if let Some(sends) = self.node.submit(self.host.alloc, stage, now.since) {
            self.submitted = Submitted {
                at: now.at,
                since: now.since,
                is_late,
            };
            send_all(&mut self.link, sends);
        }
    }

    /// Opens the port, or closes it with each of its sessions, and notes what became of it where the machine leads this
    /// view. The machine shows that it drives exactly while its port is open. Where it fails the port is closed.
    fn tend(
        &mut self,
        port: Port<R, J>,
        is_wanted: bool,
        led: Option<u64>,
    ) -> Result<Port<R, J>, Failed>
        ensures driving { IfOk result (λ port. self.new.teller.machine.is_driving ≡ is_open port.serving) }
        ensures closed { IfOk result (λ port. is_wanted ≡ false → is_open port.serving ≡ false) }
        ensures failed { OnErr result (self.new.teller.machine.is_driving ≡ false) }
        ensures same { self.new.node ≡ self.old.node }
    {
        match port.tended(is_wanted) {
            Ok((port, turn)) => {
                if let Some(view) = led {
                    self.teller.note_port(turn, view);
                }
                self.teller.show_course(port.is_open());
                Ok(port)
            }
            Err(failed) => {
                self.teller.show_course(false);
                Err(failed)
            }
        }
    }

    /// Opens the port in this view, where its address is to be had. Where it was refused too often the view is given
    /// up.
    fn open(&mut self, port: Port<R, J>, view: u64, now: Duration) -> Result<Port<R, J>, Failed>
        ensures driving { IfOk result (λ port. self.new.teller.machine.is_driving ≡ is_open port.serving) }
        ensures told { IfOk result (λ port. self.new.node.role.port.is_open ≡ is_open port.serving) }
        ensures failed { OnErr result (self.new.teller.machine.is_driving ≡ false) }
    {
        let port = self.tend(port, true, Some(view))?;
        if port.is_open() {
            self.node.opened();
        } else {
            self.node.refused(view, now);
            if let Some(view) = self.node.role().given_up() {
                self.signals.given_up.order(view);
            }
        }
        Ok(port)
    }

    /// Closes the port, with each of its sessions. That's noted while the machine leads.
    fn shut(&mut self, port: Port<R, J>) -> Result<Port<R, J>, Failed>
        ensures driving { IfOk result (λ port. self.new.teller.machine.is_driving ≡ false) }
        ensures closed { IfOk result (λ port. is_open port.serving ≡ false) }
        ensures told { IfOk result (λ port. self.new.node.role.port.is_open ≡ false) }
        ensures failed { OnErr result (self.new.teller.machine.is_driving ≡ false) }
    {
        let led = if self.node.has_ended() {
            None
        } else {
            self.node.role().led()
        };
        let port = self.tend(port, false, led)?;
        self.node.closed();
        Ok(port)
    }

    // ---- what it takes

    /// Receives once, until it's to look again. A driver that has ended takes nothing, and waits for a moment.
    fn receive(&mut self) -> Result<(), Failed> {
        if self.node.has_ended() {
            thread::sleep(&self.host.rt, Duration::from_millis(LOOK));
            return Ok(());
        }
        let now = self.now()?.since;
        let next = self.node.role().next_look(now);
        self.link.wait_for(next.saturating_sub(now));
        match self.link.recv() {
            Input::Message(message) => {
                let taken = self.take(&message);
                drop(message);
                taken
            }
            Input::Nothing => Ok(()),
            Input::Closed => Err(Failed::Connection),
        }
    }

    /// Where the last scan of the own log stands, if that is known.
    fn last_entered(&self) -> Option<Entered> {
        self.board.read(&self.host.rt)?.entered
    }

    /// Takes a message of the group. Where it's the reply that is waited for, what it releases is published, and put
    /// into the trace.
    #[tactic(auto, using(plc_node_core::proofs::Releases::released_back))]
    fn take(&mut self, message: &Message) -> Result<(), Failed>
        ensures published { is_some self.old.node.end ≡ false → OnOk result ((log : List (Entry Asked))
            → Publishes (release_by self.old.node.role.scans.driver.driver.state (body_with log message.now.body))
            self.old.publisher.writer self.new.publisher.writer) }
        ensures traced { is_some self.old.node.end ≡ false → OnOk result ((log : List (Entry Asked))
            → (entered : Option Entered)
            × TracesRelease (release_by self.old.node.role.scans.driver.driver.state (body_with log message.now.body))
            (traced_by self.old.tracer.number self.old.tracer.epoch entered (body_with log message.now.body))
            self.old.tracer.trace self.new.tracer.trace) }
    {
        let answered = self.node.reply(message);
        self.count(message, answered);
        self.release(message, answered.released())
    }

    /// Counts the scan that was submitted last, where this message answers it. Where it's held, what is shown, if
    /// anything is, stays, and is as old as that scan.
    fn count(&mut self, message: &Message, answered: Answered)
        ensures published { self.new.publisher.writer ≡ self.old.publisher.writer }
        ensures traced { (self.new.tracer.number ≡ self.old.tracer.number)
            × (self.new.tracer.epoch ≡ self.old.tracer.epoch) × (self.new.tracer.trace ≡ self.old.tracer.trace) }
    {
        match answered {
            Answered::Nothing => {}
            Answered::Released(_) => self.teller.count(self.submitted, halt_in(message), true),
            Answered::Held { shows } => {
                self.teller.count(self.submitted, halt_in(message), false);
                if shows {
                    self.publisher.renew(self.submitted.at);
                }
            }
        }
    }

    /// What a message released, if anything, is published, and put into the trace.
    fn release(&mut self, message: &Message, release: Option<Release>) -> Result<(), Failed>
        ensures published { OnOk result (Publishes release self.old.publisher.writer self.new.publisher.writer) }
        ensures traced { OnOk result ((log : List (Entry Asked)) → (entered : Option Entered)
            × TracesRelease release
            (traced_by self.old.tracer.number self.old.tracer.epoch entered (body_with log message.now.body))
            self.old.tracer.trace self.new.tracer.trace) }
    {
        let Some(release) = release else {
            return Ok(());
        };
        let entered = self.last_entered();
        self.tracer.put(message, entered);
        self.publisher.publish(release, self.submitted.at)
    }
}
