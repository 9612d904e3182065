//! The store of a machine is put into another epoch by hand.

use crate::files::{refuse, tell_of};
use crate::stores::{group_at, image_at, print_lines};
use il_text::{Fault, put, put_numbered};
use io_model::CountedWrite;
use plc_group::Group;
use plc_machine::wanted;
use plc_store::{
    ByHand, FileDirectory, Refusal, changed_in, draw, enter_by_hand, epoch_line, stored_in,
};
use plc_words::EpochProgram;
use std::io::Write;
use std::net::TcpStream;
use std::time::Duration;

/// In seconds: so long a machine has to take a connection.
const REACHED_WITHIN: u64 = 1;

/// The store that is to be put into another epoch, and how.
#[derive(Clone, Copy)]
pub(crate) struct Entering<'a> {
    /// The number of the epoch; without it, it's the next one.
    pub(crate) number: Option<u32>,
    /// With which it begins.
    pub(crate) program: EpochProgram<'a>,
    /// Whether what the group has in memory may be lost.
    pub(crate) forgets: bool,
    pub(crate) directory: &'a str,
}

/// Puts the store of a machine of the group of a file into another epoch, and prints that: the status.
pub(crate) fn enter_epoch<W: Write, E: CountedWrite>(
    rt: &HostRuntime,
    group: &str,
    asked: &Entering,
    out: &mut W,
    err: &mut E,
) -> u8 {
    let group = match group_at(rt, group, err) {
        Ok(group) => group,
        Err(status) => return status,
    };
    if let Err(status) = may_forget(rt, &group, asked, err) {
        return status;
    }
    let image = match asked.program {
        EpochProgram::Given(source) => match image_at(rt, source) {
            Ok(image) => Some(image),
            Err(fault) => return tell_of(source, fault, err),
        },
        EpochProgram::Kept | EpochProgram::Changed => None,
    };
    print_lines(
        entered_in(rt, &group, asked, image),
        asked.directory,
        out,
        err,
    )
}

/// Refuses an epoch by which a group may lose what it has in memory, unless the operator has said that it may: one of a
/// number that he gave, and any while a machine drives. The status, which is told.
fn may_forget<E: CountedWrite>(
    rt: &HostRuntime,
    group: &Group,
    asked: &Entering,
    err: &mut E,
) -> Result<(), u8> {
    if asked.forgets {
        return Ok(());
    }
    if asked.number.is_some() {
        return Err(refuse(
            err,
            b"plc: --epoch loses what the group has in memory: --forget\n",
        ));
    }
    match driving_machine(rt, group) {
        Some(machine) => Err(tell_driving(machine, err)),
        None => Ok(()),
    }
}

/// The first machine of a group that takes Modbus clients: only the one that drives does.
fn driving_machine(rt: &HostRuntime, group: &Group) -> Option<usize> {
    let within = Duration::from_secs(REACHED_WITHIN);
    for (number, machine) in group.machines.iter().enumerate() {
        if TcpStream::connect_timeout(rt, &machine.modbus, within).is_ok() {
            return Some(number);
        }
    }
    None
}

/// Tells that a machine drives, and answers the status.
fn tell_driving<E: CountedWrite>(machine: usize, err: &mut E) -> u8 {
    if put_numbered(err, b"plc: machine ", machine).is_ok() {
        let _ = put(
            err,
            b" drives: --forget loses what the group has in memory\n",
        );
    }
    Fault::Commands.status()
}

/// Puts the store of a directory into another epoch, with this image, or as it's asked for: the line of that epoch. There
/// it's known by a number that is drawn now. A store of another group is refused.
fn entered_in(
    rt: &HostRuntime,
    group: &Group,
    asked: &Entering,
    image: Option<Vec<u8>>,
) -> Result<String, Refusal> {
    let mut directory = FileDirectory::take(*rt, rt.alloc(), asked.directory)?;
    if stored_in(rt.alloc(), &directory)?.header.identity != wanted(group).identity {
        return Err(Refusal::OtherGroup);
    }
    let image = match asked.program {
        EpochProgram::Changed => Some(changed_in(rt.alloc(), &directory)?),
        EpochProgram::Kept | EpochProgram::Given(_) => image,
    };
    let into = match asked.number {
        Some(number) => ByHand::Numbered(u64::from(number)),
        None => ByHand::Next,
    };
    let store = enter_by_hand(rt.alloc(), &mut directory, into, image, draw(rt)?)?;
    Ok(epoch_line(rt.alloc(), &store.header.kept)?)
}
