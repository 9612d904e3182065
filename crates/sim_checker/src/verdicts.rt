//! What is wrong of a run, by what it was seen to do.

ghost use Rattle.std.specs.Prelude.{◌≡◌, ◌↔◌, IsTrue};
ghost use Rattle.sim_checker.specs.Verdicts.{IsAhead, IsBefore, fallen};

/// What is wrong.
#[derive(Clone, Copy, Debug, PartialEq, Eq)]
pub enum Wrong {
    /// Two replicas have other entries at one place.
    TwoHistories,
    /// A replica has executed what no replica has shown.
    Unseen,
    /// The inputs of a scan are older than those of one before.
    InputsFellBack,
    /// The moment of a scan is before that of one before.
    MomentFellBack,
    /// The moment of a scan is ahead of the time since the first one of its epoch.
    MomentJumped,
    /// An output was released that no scan of the history gives.
    OtherOutput,
    /// A read shows less than one before it.
    ReadWentBack,
    /// No takeover in time.
    SlowTakeover,
    /// No outputs in time, behind the end of all faults.
    NoOutputs,
    /// A replica isn't normal in time, behind the end of all faults.
    NotNormal,
    /// A machine that was asked to stop, or leaves its epoch, doesn't end.
    Hangs,
    /// A machine's store is refused.
    Refused,
    /// No outputs in time, behind a power cut of all.
    SlowColdStart,
}

/// What a client wrote, as a scan has it, and the moment of that scan.
#[derive(Clone, Copy)]
pub(crate) struct Sampled {
    /// It rises with each write.
    pub(crate) value: u64,
    /// In milliseconds.
    pub(crate) moment: u64,
}

/// When a scan was submitted, and the moment that it has.
#[derive(Clone, Copy)]
pub(crate) struct Submitted {
    /// In microseconds, by the world's clock.
    pub(crate) at: u64,
    /// In milliseconds.
    pub(crate) moment: u64,
}

/// Where an entry stands: in the history of this epoch, at this place.
#[derive(Clone, Copy)]
pub struct Point {
    pub epoch: u64,
    pub place: u64,
}

/// What is wrong of a scan behind another one, if anything: neither inputs nor moments fall.
pub(crate) fn fallen(before: Sampled, scan: Sampled) -> Option<Wrong>
    ensures { result ≡ fallen before scan }
{
    if scan.value < before.value {
        return Some(Wrong::InputsFellBack);
    }
    if scan.moment < before.moment {
        return Some(Wrong::MomentFellBack);
    }
    None
}

/// Whether a scan's moment is ahead of the time since the first scan of its epoch, by more than clocks differ: a
/// hundredth of that time, and 100 ms.
pub(crate) fn is_ahead(first: Submitted, scan: Submitted) -> bool
    ensures { IsTrue result ↔ IsAhead first scan }
{
    let since = u128::from(scan.at.saturating_sub(first.at));
    let latest = u128::from(first.moment) * 1000 + since + since / 100 + 100_000;
    latest < u128::from(scan.moment) * 1000
}

/// Whether an entry stands before another one: in an epoch before, or in the same one at a place before.
pub(crate) fn is_before(one: Point, other: Point) -> bool
    ensures { IsTrue result ↔ IsBefore one other }
{
    one.epoch < other.epoch || one.epoch == other.epoch && one.place < other.place
}
