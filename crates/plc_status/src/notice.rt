//! What an operator is told of a controller while it is served.

ghost use Rattle.std.specs.Prelude.{◌≡◌, ◌++◌, []};
ghost use Rattle.il_text.specs.Telling.{Sends};
ghost use Rattle.il_text.specs.Lines.{stop_name};
ghost use Rattle.plc_status.specs.Notices.{IsPortTold, cold_start_line, epoch_text, heard_line, long_line};
ghost use Rattle.plc_status.specs.Notices.{machine_line, majority_of};
ghost use Rattle.plc_status.specs.Notices.{normal_in_line, notice_line, numbered_line, refused_line, refused_party};
ghost use Rattle.plc_status.specs.Notices.{replica_line, stopped_line, view_line, waits_line, why_name};

use crate::deed::{Deed, put_deed};
use crate::door::{DoorNotice, put_door};
use crate::group::{GroupNotice, put_group};
use il_model::Stop;
use il_text::{put, put_numbered};
use io_model::{CountedWrite, DeviceFault};

/// Why a connection with another machine was refused.
#[derive(Clone, Copy, Debug, PartialEq, Eq)]
pub enum Why {
    OtherVersion,
    OtherGroup,
    OtherEpoch,
    OtherProgram,
    /// The other end says that it's this machine.
    OwnParty,
    NoMember,
    /// It was started before the one that was seen last.
    FewerStarts,
    /// It was started so many times more that it isn't believed.
    MoreStarts,
    /// Its machine's group's file has another time for which outputs are shown.
    OtherFresh,
    /// Its machine has another store than the one that was seen in this epoch.
    OtherStore,
    /// It has seen another store of this machine.
    OwnStore,
    /// It has seen this machine started more often: by a copy of its store.
    OwnStarts,
    /// It doesn't begin as machines of a group with a key do.
    NoChallenge,
    /// It begins as machines of a group without a key do.
    NoKey,
    /// It names a key that this machine hasn't.
    OtherKey,
    /// It isn't the machine that was dialled, or takes this one for another.
    OtherMachine,
    /// It sends back what this machine sent.
    OwnChallenge,
    /// Its sum isn't the one of the key that it names.
    Forged,
}

/// A change, as it is told by a line of its own.
#[derive(Clone, Copy, PartialEq, Eq)]
pub enum Notice {
    /// The replica starts from its store.
    Starts(u8),
    /// The replica hasn't been normal for a while.
    Down(u8),
    /// It's normal again.
    Normal(u8),
    /// Its store failed.
    Store(u8),
    /// It crashed because that was asked for, and was restarted.
    Crashed(u8),
    /// A message of it had no frame, and wasn't sent.
    NoFrame(u8),
    /// Its thread isn't at its end, a while after the end of all.
    Hangs(u8),
    /// The machine of this number is connected.
    MachineJoined(u8),
    /// It isn't any more.
    MachineLost(u8),
    /// It isn't any more, since a record of it was forged or damaged.
    MachineForged(u8),
    /// A connection was refused: that of this machine, if it told its number.
    MachineRefused(Option<u8>, Why),
    /// The replica of this machine is normal in this view.
    ReplicaNormalIn(u64),
    /// It isn't any more.
    ReplicaNotNormal,
    /// It wasn't for a minute.
    NotNormalLong,
    /// Machines of a group of 2f+1 have lost their memory: f+1 of them, with this one. The next epoch begins, with this
    /// number.
    ColdStart(u8, u64),
    /// This machine's disk was lost. It waits for an epoch after this one.
    WaitsAfter(u8, u64),
    /// A machine is in this later epoch. This one was normal in an epoch before, if in any.
    EpochHeard {
        epoch: u64,
        machine: u8,
        normal_in: Option<u64>,
    },
    /// The epoch that this machine is to begin has another program than its store.
    OtherProgram(u64),
    /// The epoch that this machine is to begin waits for other machines.
    WaitsForOthers(u64),
    /// The program was changed in this epoch: the group doesn't begin anew by itself.
    ProgramChanged(u64),
    /// This machine drives the plant in this view: its port is open.
    Driving(u64),
    /// Another one drives it.
    StandingBy(u64),
    /// This one drives, and released nothing for so long that its port is closed.
    Stale(u64),
    /// It drives, and its port can't be opened.
    NoPort(u64),
    /// Its trace can't be written, and isn't from now on.
    NoTrace,
    /// A scan was held there, after one that wasn't.
    Held(u16),
    /// A scan stopped there, after one that didn't stop so.
    Stopped(Stop, u16),
    /// A scan was neither held nor stopped, after one that was.
    GoesOn,
    /// An operator's console begins.
    ConsoleBegins,
    /// It ends.
    ConsoleEnds,
    /// It ends since another operator takes it over.
    ConsoleTaken,
    /// It is ended: what came isn't from a console, or its key was wrong.
    ConsoleRefused,
    /// What became of the port of a console or of a page, or of a console's socket.
    Door(DoorNotice),
    /// What this machine tells of its group.
    Group(GroupNotice),
    /// A command of it changed something.
    Done(Deed),
    /// So many notices found no room in the journal, and are lost.
    Lost(usize),
}

/// The word for why a scan stopped.
fn name_of(stop: Stop) -> &'static str
    ensures { result.now ≡ stop_name stop }
{
    match stop {
        Stop::Overflow => "overflow",
        Stop::ZeroDivisor => "zerodivisor",
        Stop::Budget => "budget",
    }
}

/// A line with a number between two texts.
pub(crate) fn put_line_of<E: CountedWrite>(
    err: &mut E,
    before: &[u8],
    number: usize,
    after: &[u8],
) -> Result<(), DeviceFault>
    ensures { Sends E.CountedWrite (numbered_line before.now number after.now) err.old err.new result }
{
    put_numbered(err, before, number)?;
    put(err, after)
}

/// What is told of a replica.
fn put_replica<E: CountedWrite>(err: &mut E, number: u8, what: &[u8]) -> Result<(), DeviceFault>
    ensures { Sends E.CountedWrite (replica_line number what.now) err.old err.new result }
{
    put_line_of(err, b"replica ", usize::from(number), what)
}

/// What is told of another machine.
pub(crate) fn put_machine<E: CountedWrite>(
    err: &mut E,
    number: u8,
    what: &[u8],
) -> Result<(), DeviceFault>
    ensures { Sends E.CountedWrite (machine_line number what.now) err.old err.new result }
{
    put_line_of(err, b"machine ", usize::from(number), what)
}

/// What is told of this machine in a view.
fn put_view<E: CountedWrite>(err: &mut E, what: &[u8], view: u64) -> Result<(), DeviceFault>
    ensures { Sends E.CountedWrite (view_line what.now view) err.old err.new result }
{
    put(err, what)?;
    put_line_of(err, b" view ", view as usize, b"\n")
}

/// The words for why a connection was refused.
fn name_of_why(why: Why) -> &'static str
    ensures { result.now ≡ why_name why }
{
    match why {
        Why::OtherVersion => "another version",
        Why::OtherGroup => "another group",
        Why::OtherEpoch => "another epoch",
        Why::OtherProgram => "another program",
        Why::OwnParty => "own party",
        Why::NoMember => "no member",
        Why::FewerStarts => "fewer starts",
        Why::MoreStarts => "more starts",
        Why::OtherFresh => "another fresh",
        Why::OtherStore => "another store: format it with --wait",
        Why::OwnStore => "it has seen another store of this machine: format this one with --wait",
        Why::OwnStarts => "it has seen a copy of this machine's store",
        Why::NoChallenge => "no challenge",
        Why::NoKey => "no key",
        Why::OtherKey => "another key",
        Why::OtherMachine => "another machine: see the addresses",
        Why::OwnChallenge => "own challenge",
        Why::Forged => "forged or damaged record",
    }
}

/// Who was refused, if it told its number.
fn put_refused_party<E: CountedWrite>(err: &mut E, number: Option<u8>) -> Result<(), DeviceFault>
    ensures { Sends E.CountedWrite (refused_party number) err.old err.new result }
{
    match number {
        Some(number) => put_machine(err, number, b" refused: "),
        None => put(err, b"machine refused: "),
    }
}

/// What is told of a connection that was refused.
fn put_refused<E: CountedWrite>(
    err: &mut E,
    number: Option<u8>,
    why: Why,
) -> Result<(), DeviceFault>
    ensures { Sends E.CountedWrite (refused_line number why) err.old err.new result }
{
    put_refused_party(err, number)?;
    put(err, name_of_why(why).as_bytes())?;
    put(err, b"\n")
}

/// What is told of a replica that wasn't normal for a minute: why it may never be again.
fn put_not_normal_long<E: CountedWrite>(err: &mut E) -> Result<(), DeviceFault>
    ensures { Sends E.CountedWrite long_line err.old err.new result }
{
    put(
        err,
        b"replica not normal for a minute: if most machines have lost their memory, a new epoch is due\n",
    )
}

/// More than half of a group of 2f+1 machines.
pub(crate) fn majority_of(f: u8) -> &'static str
    ensures { result.now ≡ majority_of f }
{
    match f {
        0 => "one of one",
        1 => "two of three",
        2 => "three of five",
        3 => "four of seven",
        _ => "most",
    }
}

/// What is told of a cold start.
fn put_cold_start<E: CountedWrite>(err: &mut E, f: u8, epoch: u64) -> Result<(), DeviceFault>
    ensures { Sends E.CountedWrite (cold_start_line f epoch) err.old err.new result }
{
    put(err, majority_of(f).as_bytes())?;
    put_epoch(
        err,
        b" have lost their memory: cold start, epoch ",
        epoch,
        b"\n",
    )
}

/// A line with the number of an epoch between two texts.
fn put_epoch<E: CountedWrite>(
    err: &mut E,
    before: &[u8],
    epoch: u64,
    after: &[u8],
) -> Result<(), DeviceFault>
    ensures { Sends E.CountedWrite (numbered_line before.now epoch after.now) err.old err.new result }
{
    put_line_of(err, before, epoch as usize, after)
}

/// What is told of a machine that waits for an epoch.
fn put_waits<E: CountedWrite>(err: &mut E, number: u8, epoch: u64) -> Result<(), DeviceFault>
    ensures { Sends E.CountedWrite (waits_line number epoch) err.old err.new result }
{
    put_machine(err, number, b" waits")?;
    put_epoch(err, b" for an epoch after ", epoch, b"\n")
}

/// What is told of the epoch before, if the machine was normal in one.
fn put_normal_in<E: CountedWrite>(err: &mut E, epoch: Option<u64>) -> Result<(), DeviceFault>
    ensures { Sends E.CountedWrite (normal_in_line epoch) err.old err.new result }
{
    match epoch {
        Some(epoch) => put_epoch(err, b": was normal in ", epoch, b"\n"),
        None => put(err, b"\n"),
    }
}

/// What is told of a machine that is in a later epoch.
fn put_speaker<E: CountedWrite>(
    err: &mut E,
    machine: u8,
    normal_in: Option<u64>,
) -> Result<(), DeviceFault>
    ensures { Sends E.CountedWrite (numbered_line [] machine [] ++ normal_in_line normal_in) err.old err.new result }
{
    put_line_of(err, b"", usize::from(machine), b"")?;
    put_normal_in(err, normal_in)
}

/// What is told of an epoch.
pub(crate) fn put_epoch_text<E: CountedWrite>(
    err: &mut E,
    epoch: u64,
    what: &[u8],
) -> Result<(), DeviceFault>
    ensures { Sends E.CountedWrite (epoch_text epoch what.now) err.old err.new result }
{
    put_line_of(err, b"epoch ", epoch as usize, what)
}

/// What is told of a later epoch that was heard.
fn put_heard<E: CountedWrite>(
    err: &mut E,
    epoch: u64,
    machine: u8,
    normal_in: Option<u64>,
) -> Result<(), DeviceFault>
    ensures { Sends E.CountedWrite (heard_line epoch machine normal_in) err.old err.new result }
{
    put_epoch_text(err, epoch, b" heard from machine ")?;
    put_speaker(err, machine, normal_in)
}

/// Writes the line that tells it. It takes no memory.
pub(crate) fn put_line<E: CountedWrite>(err: &mut E, notice: Notice) -> Result<(), DeviceFault>
    ensures { Sends E.CountedWrite (notice_line notice) err.old err.new result }
{
    match notice {
        Notice::Starts(number) => put_replica(err, number, b" starts\n"),
        Notice::Down(number) => put_replica(err, number, b" down\n"),
        Notice::Normal(number) => put_replica(err, number, b" normal\n"),
        Notice::Store(number) => put_replica(err, number, b" store\n"),
        Notice::Crashed(number) => put_replica(err, number, b" crashed\n"),
        Notice::NoFrame(number) => put_replica(err, number, b" no frame\n"),
        Notice::Hangs(number) => put_replica(err, number, b" hangs\n"),
        Notice::MachineJoined(number) => put_machine(err, number, b" joined\n"),
        Notice::MachineLost(number) => put_machine(err, number, b" lost\n"),
        Notice::MachineForged(number) => {
            put_machine(err, number, b" lost: forged or damaged record\n")
        }
        Notice::MachineRefused(number, why) => put_refused(err, number, why),
        Notice::ReplicaNormalIn(view) => put_view(err, b"replica normal", view),
        Notice::ReplicaNotNormal => put(err, b"replica not normal\n"),
        Notice::NotNormalLong => put_not_normal_long(err),
        Notice::ColdStart(f, epoch) => put_cold_start(err, f, epoch),
        Notice::WaitsAfter(number, epoch) => put_waits(err, number, epoch),
        Notice::EpochHeard {
            epoch,
            machine,
            normal_in,
        } => put_heard(err, epoch, machine, normal_in),
        Notice::OtherProgram(epoch) => {
            put_epoch(
                err,
                b"program of epoch ",
                epoch,
                b" is another: format with it\n",
            )
        }
        Notice::WaitsForOthers(epoch) => {
            put_epoch(err, b"epoch ", epoch, b" waits for other machines\n")
        }
        Notice::ProgramChanged(epoch) => {
            put_epoch(
                err,
                b"program changed in epoch ",
                epoch,
                b": no cold start by itself\n",
            )
        }
        Notice::Driving(view) => put_view(err, b"driving", view),
        Notice::StandingBy(view) => put_view(err, b"standing by", view),
        Notice::Stale(view) => put_view(err, b"stale", view),
        Notice::NoPort(view) => put_view(err, b"no port", view),
        Notice::NoTrace => put(err, b"no trace\n"),
        Notice::Held(position) => put_line_of(err, b"held ", usize::from(position), b"\n"),
        Notice::Stopped(stop, position) => put_stopped(err, stop, position),
        Notice::GoesOn => put(err, b"goes on\n"),
        Notice::ConsoleBegins => put(err, b"console begins\n"),
        Notice::ConsoleEnds => put(err, b"console ends\n"),
        Notice::ConsoleTaken => put(err, b"console taken over\n"),
        Notice::ConsoleRefused => put(err, b"console refused\n"),
        Notice::Door(notice) => put_door(err, notice),
        Notice::Group(notice) => put_group(err, notice),
        Notice::Done(deed) => put_deed(err, deed),
        Notice::Lost(count) => put_line_of(err, b"", count, b" lines lost\n"),
    }
}

/// What is told of a scan that stopped there.
fn put_stopped<E: CountedWrite>(err: &mut E, stop: Stop, position: u16) -> Result<(), DeviceFault>
    ensures { Sends E.CountedWrite (stopped_line stop position) err.old err.new result }
{
    put(err, b"stopped ")?;
    put(err, name_of(stop).as_bytes())?;
    put_line_of(err, b" ", usize::from(position), b"\n")
}

/// Tells the port of 127.0.0.1 at which clients are served, before any change is told. Where the stream fails, what
/// follows is told all the same.
pub fn tell_port<E: CountedWrite>(err: &mut E, port: u16)
    ensures { IsPortTold E.CountedWrite err.old err.new }
{
    let _ = put_line_of(err, b"serving on 127.0.0.1:", usize::from(port), b"\n");
}
