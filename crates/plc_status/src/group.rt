//! What a machine tells of its group.

ghost use Rattle.hex.specs.Hex.{encode_lower};
ghost use Rattle.il_text.specs.Telling.{Sends};
ghost use Rattle.plc_status.specs.Notices.{address_text, by_hand_line, far_line, goes_on_line, group_line, hearing_line};
ghost use Rattle.plc_status.specs.Notices.{not_at_line, octets_text, v4_text, v6_text, waiting_line};

use crate::notice::{majority_of, put_epoch_text, put_line_of, put_machine};
use il_text::{put, put_numbered};
use io_model::{CountedWrite, DeviceFault};
use std::net::{SocketAddr, SocketAddrV4, SocketAddrV6};

/// What a machine tells of its group.
#[derive(Clone, Copy, PartialEq, Eq)]
pub enum GroupNotice {
    /// For a few seconds it heard fewer other machines than make a majority with it: so many of so many.
    NoMajority {
        heard: u8,
        others: u8,
    },
    /// It hears enough of them again.
    Majority,
    /// It waits until it hears as many machines as it wants: it hears so many of so many.
    Waits {
        heard: u8,
        machines: u8,
        wanted: u8,
    },
    /// Machines of a group of 2f+1 have lost their memory: f+1 of them, with this one. An operator begins the next epoch.
    ByHand(u8),
    /// A machine is in this later epoch, with a program whose SHA-256 begins so. This one doesn't follow it.
    EpochRefused {
        epoch: u64,
        machine: u8,
        program: [u8; 8],
    },
    /// A machine is in this epoch, more than one above this machine's: that isn't followed without an operator.
    EpochFarAbove {
        epoch: u64,
        machine: u8,
    },
    /// Nobody answers as the machine of this number at its address.
    NotAt(u8, SocketAddr),
}

/// What is told of a machine that hears so many others of so many.
fn put_hearing<E: CountedWrite>(err: &mut E, heard: u8, others: u8) -> Result<(), DeviceFault>
    ensures { Sends E.CountedWrite (hearing_line heard others) err.old err.new result }
{
    put_numbered(err, b"no majority: hears ", usize::from(heard))?;
    put_line_of(err, b" of ", usize::from(others), b"\n")
}

/// What is told of a machine that waits for others.
fn put_waiting<E: CountedWrite>(
    err: &mut E,
    heard: u8,
    machines: u8,
    wanted: u8,
) -> Result<(), DeviceFault>
    ensures { Sends E.CountedWrite (waiting_line heard machines wanted) err.old err.new result }
{
    put_numbered(err, b"waits: hears ", usize::from(heard))?;
    put_numbered(err, b" of ", usize::from(machines))?;
    put_line_of(err, b" machines, wants ", usize::from(wanted), b"\n")
}

/// What is told of a group that an operator is to begin anew.
fn put_by_hand<E: CountedWrite>(err: &mut E, f: u8) -> Result<(), DeviceFault>
    ensures { Sends E.CountedWrite (by_hand_line f) err.old err.new result }
{
    put(err, majority_of(f).as_bytes())?;
    put(
        err,
        b" have lost their memory: cold start by hand, plc format --next-epoch at each\n",
    )
}

/// The first bytes of a sum.
fn put_sum<E: CountedWrite>(err: &mut E, sum: [u8; 8]) -> Result<(), DeviceFault>
    ensures { Sends E.CountedWrite (encode_lower sum) err.old err.new result }
{
    let mut digits = [0; 16];
    match hex::encode_to_slice(sum, &mut digits) {
        Ok(()) => put(err, &digits),
        Err(_) => unreachable!(),
    }
}

/// What is told of a later epoch that isn't followed.
fn put_goes_on<E: CountedWrite>(
    err: &mut E,
    epoch: u64,
    machine: u8,
    program: [u8; 8],
) -> Result<(), DeviceFault>
    ensures { Sends E.CountedWrite (goes_on_line epoch machine program) err.old err.new result }
{
    put_epoch_text(err, epoch, b" heard from machine ")?;
    put_line_of(err, b"", usize::from(machine), b", program ")?;
    put_sum(err, program)?;
    put(err, b": this group goes on\n")
}

/// What is told of an epoch that's too far above.
fn put_far<E: CountedWrite>(err: &mut E, epoch: u64, machine: u8) -> Result<(), DeviceFault>
    ensures { Sends E.CountedWrite (far_line epoch machine) err.old err.new result }
{
    put_epoch_text(err, epoch, b" heard from machine ")?;
    put_line_of(
        err,
        b"",
        usize::from(machine),
        b": too far above, an operator is needed\n",
    )
}

/// Four octets with dots between them.
fn put_octets<E: CountedWrite>(err: &mut E, octets: [u8; 4]) -> Result<(), DeviceFault>
    ensures { Sends E.CountedWrite (octets_text octets) err.old err.new result }
{
    put_numbered(err, b"", usize::from(octets[0]))?;
    put_numbered(err, b".", usize::from(octets[1]))?;
    put_numbered(err, b".", usize::from(octets[2]))?;
    put_numbered(err, b".", usize::from(octets[3]))
}

/// An address of IPv4 with its port.
fn put_v4<E: CountedWrite>(err: &mut E, address: &SocketAddrV4) -> Result<(), DeviceFault>
    ensures { Sends E.CountedWrite (v4_text address.now) err.old err.new result }
{
    put_octets(err, address.ip().octets())?;
    put_numbered(err, b":", usize::from(address.port()))
}

/// Of an address of IPv6 its port.
fn put_v6<E: CountedWrite>(err: &mut E, address: &SocketAddrV6) -> Result<(), DeviceFault>
    ensures { Sends E.CountedWrite (v6_text address.now) err.old err.new result }
{
    put_numbered(
        err,
        b"its address of IPv6, port ",
        usize::from(address.port()),
    )
}

/// An address with its port; of IPv6 the port alone.
fn put_address<E: CountedWrite>(err: &mut E, address: SocketAddr) -> Result<(), DeviceFault>
    ensures { Sends E.CountedWrite (address_text address) err.old err.new result }
{
    match address {
        SocketAddr::V4(address) => put_v4(err, &address),
        SocketAddr::V6(address) => put_v6(err, &address),
    }
}

/// What is told of a machine that nobody is at its address.
fn put_not_at<E: CountedWrite>(
    err: &mut E,
    number: u8,
    address: SocketAddr,
) -> Result<(), DeviceFault>
    ensures { Sends E.CountedWrite (not_at_line number address) err.old err.new result }
{
    put_machine(err, number, b" isn't at ")?;
    put_address(err, address)?;
    put(err, b"\n")
}

/// Writes the line that tells it.
pub(crate) fn put_group<E: CountedWrite>(
    err: &mut E,
    notice: GroupNotice,
) -> Result<(), DeviceFault>
    ensures { Sends E.CountedWrite (group_line notice) err.old err.new result }
{
    match notice {
        GroupNotice::NoMajority { heard, others } => put_hearing(err, heard, others),
        GroupNotice::Majority => put(err, b"majority\n"),
        GroupNotice::Waits {
            heard,
            machines,
            wanted,
        } => put_waiting(err, heard, machines, wanted),
        GroupNotice::ByHand(f) => put_by_hand(err, f),
        GroupNotice::EpochRefused {
            epoch,
            machine,
            program,
        } => put_goes_on(err, epoch, machine, program),
        GroupNotice::EpochFarAbove { epoch, machine } => put_far(err, epoch, machine),
        GroupNotice::NotAt(number, address) => put_not_at(err, number, address),
    }
}
