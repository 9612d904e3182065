//! What a machine may do with what its directory holds.

ghost use Rattle.std.specs.Prelude.{◌≡◌, option_map};
ghost use Rattle.plc_epochs.specs.declared.kept.ByHandFault.TheVariants as faults;
ghost use Rattle.plc_store.specs.Judging.{begun, by_kept, entered, has_mark, has_view, is_changed, is_unbegun};
ghost use Rattle.plc_store.specs.Judging.{judgement, refusal_of};
ghost use Rattle.plc_store.specs.Keeping.{by_hand_refusal};
ghost use Rattle.plc_store.specs.declared.judging.Refusal.TheVariants.{Device, Memory};

use crate::directory::DiskFault;
use crate::header::Header;
use crate::marking::front_of;
use crate::reading::StoreFault;
use net_hello::Epoch;
use plc_epochs::{ByHandFault, Kept};
use std::alloc::{AllocError, AllocFailed};
use std::io;

/// How a machine starts.
#[derive(Clone, Copy, Debug, PartialEq, Eq)]
pub enum Start {
    /// It's in no epoch: it waits for one that others are in.
    Waits,
    /// For the first time in the epoch that it has entered: as soon as that is begun its replica is normal in view 0.
    First,
    /// Once more in the epoch that it has begun: its replica recovers from the others.
    Again,
}

/// Why a directory is refused.
#[derive(Clone, Copy, Debug, PartialEq, Eq)]
pub enum Refusal {
    /// Nothing was formatted there.
    NoStore,
    /// Its store is of another format.
    OtherFormat,
    /// Its store was cut, or changed.
    Torn,
    /// Its store is of another group, or the machines of this one agree on something else now.
    OtherGroup,
    /// Its machine is none of the group file's.
    OtherMachine,
    /// It has begun its epoch, and the view that it kept there is gone: only an operator may say what becomes of it.
    ViewGone,
    /// It has begun no epoch yet, and yet there is a view.
    ViewUnstarted,
    /// It would go back in its epochs.
    Backward,
    /// It's in no epoch, so it isn't put into the next one by hand: it waits for one that others are in.
    Waits,
    /// There is no epoch behind the one that it's in.
    LastEpoch,
    /// It has reached the epoch into which it's to be put, or a later one.
    NotAbove,
    /// The program of its group was changed in its epoch, so which one the next epoch begins with has to be said.
    Changed,
    /// No change of the program is kept beside it that was made in its epoch.
    NotChanged,
    /// A change of the program was made in its epoch, and the image is kept nowhere.
    NoImage,
    /// It holds something of a store, so nothing is formatted there.
    Used,
    /// The image of the program has 4 GiB or more.
    TooLong,
    /// Another process has it.
    Taken,
    /// All may write to it, so somebody else could put a link in a file's place.
    Open,
    /// It can't be read or written.
    Device(DiskFault),
    /// No random bytes are to be had, by which a store is known.
    Random,
    Memory,
}

impl From<AllocError> for Refusal {
    ghost from_gives = { λ _ e. e ≡ Memory };

    fn from(_error: AllocError) -> Refusal {
        Refusal::Memory
    }
}

impl<T: Drop> From<AllocFailed<T>> for Refusal {
    ghost from_gives = { λ _ e. e ≡ Memory };

    fn from(_failed: AllocFailed<T>) -> Refusal {
        Refusal::Memory
    }
}

impl From<DiskFault> for Refusal {
    ghost from_gives = { λ fault e. e ≡ Device fault };

    fn from(fault: DiskFault) -> Refusal {
        Refusal::Device(fault)
    }
}

impl From<StoreFault> for Refusal {
    ghost from_gives = { λ fault e. e ≡ refusal_of fault };

    fn from(fault: StoreFault) -> Refusal {
        match fault {
            StoreFault::OtherFormat => Refusal::OtherFormat,
            StoreFault::Torn => Refusal::Torn,
            StoreFault::Memory => Refusal::Memory,
        }
    }
}

impl From<ByHandFault> for Refusal {
    ghost from_gives = { λ fault e. e ≡ by_hand_refusal fault };

    fn from(fault: ByHandFault) -> Refusal {
        match fault {
            ByHandFault::Waits => Refusal::Waits,
            ByHandFault::LastEpoch => Refusal::LastEpoch,
        }
    }
}

/// What std answers for a directory that isn't there is that there's no store.
impl From<io::Error> for Refusal {
    fn from(error: io::Error) -> Refusal {
        match error.kind() {
            io::ErrorKind::NotFound => Refusal::NoStore,
            io::ErrorKind::OutOfMemory => Refusal::Memory,
            _ => Refusal::Device(DiskFault::from(error)),
        }
    }
}

/// What a group file asks of a store.
#[derive(Clone, Copy, PartialEq, Eq)]
pub struct Wanted {
    pub identity: [u8; 32],
    /// How many machines the group has.
    pub machines: u8,
}

/// How a machine starts from a store of this header, in a directory that holds the views of these replicas.
pub fn judge(header: &Header, views: &[u8], wanted: &Wanted) -> Result<Start, Refusal>
    ensures { result ≡ judgement header.now views.now wanted.now }
{
    if header.identity != wanted.identity {
        return Err(Refusal::OtherGroup);
    }
    if header.machine >= wanted.machines {
        return Err(Refusal::OtherMachine);
    }
    by_kept(&header.kept, header.machine, views)
}

fn by_kept(kept: &Kept, machine: u8, views: &[u8]) -> Result<Start, Refusal>
    ensures { result ≡ by_kept kept.now machine views.now }
{
    match kept {
        Kept::Nothing | Kept::Above(_) => Ok(Start::Waits),
        Kept::Entered(epoch) => entered(epoch.number, views),
        Kept::Begun(_) => begun(has_view(views, machine)),
    }
}

fn entered(number: u64, views: &[u8]) -> Result<Start, Refusal>
    ensures { result ≡ entered number views.now }
{
    if views.is_empty() || number > 1 {
        Ok(Start::First)
    } else {
        Err(Refusal::ViewUnstarted)
    }
}

fn begun(has_view: bool) -> Result<Start, Refusal>
    ensures { result ≡ begun has_view }
{
    if has_view {
        Ok(Start::Again)
    } else {
        Err(Refusal::ViewGone)
    }
}

fn has_view(views: &[u8], machine: u8) -> bool
    ensures { result ≡ has_view views.now machine }
{
    views.iter().any(|view| *view == machine)
}

/// Whether the machine of a store that has this has begun no epoch yet.
pub fn is_unbegun(kept: &Kept) -> bool
    ensures { result ≡ is_unbegun kept.now }
{
    !matches!(kept, Kept::Begun(_))
}

/// Whether a change of the program was marked in the epoch that a store has begun, by what the mark's file has: also by
/// a mark that is torn behind its epoch.
pub fn is_changed(kept: &Kept, mark: Option<&[u8]>) -> bool
    ensures { result ≡ is_changed kept.now (option_map (λ bytes. bytes.now) mark.entry) }
{
    match kept {
        Kept::Begun(epoch) => has_mark(epoch, mark),
        _ => false,
    }
}

fn has_mark(epoch: &Epoch, mark: Option<&[u8]>) -> bool
    ensures { result ≡ has_mark epoch.now (option_map (λ bytes. bytes.now) mark.entry) }
{
    match mark {
        Some(bytes) => bytes.starts_with(front_of(epoch).as_slice()),
        None => false,
    }
}
