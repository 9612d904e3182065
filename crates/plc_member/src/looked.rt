//! What a look at a replica's log leaves for the next one, so that a scan isn't taken for the last one once others may
//! have come in and gone into a checkpoint.

ghost use Rattle.std.specs.Prelude.{◌≡◌};
ghost use Rattle.plc_member.specs.Driving.{standing_in, is_last as is_last_of};

/// What was seen of a log: in which view, how many entries it had, and how many of them were committed.
#[derive(Clone, Copy)]
pub(crate) struct Looked {
    pub(crate) view: u64,
    pub(crate) count: u64,
    pub(crate) committed: u64,
}

impl Looked {
    /// How many of the entries that were seen stand in the log of a replica that is normal in this view: in the same
    /// view all of them, since there a log only grows, and in another one those that were committed.
    pub(crate) fn standing_in(&self, view: u64) -> u64
        ensures { result ≡ standing_in self.now view }
    {
        if view == self.view {
            self.count
        } else {
            self.committed
        }
    }
}

/// Whether the scan at this place, from 0, is the last one of a log of `count` entries of which those that are kept are
/// no scans: `stands` entries were seen and stand, and `is_next_kept` tells whether the log has the one behind them.
pub(crate) fn is_last(place: u64, stands: u64, count: u64, is_next_kept: bool) -> bool
    ensures { result ≡ is_last_of place stands count is_next_kept }
{
    place < stands && place < count && (count <= stands || is_next_kept)
}
