//! How far the inputs of a device came: from the device to the controller, and through a scan.

ghost use Rattle.std.specs.Prelude.{◌≡◌};
ghost use Rattle.field_cycle.specs.Passages.{has_scan, stepped, read_of, is_released};

use crate::link::Moment;

/// How the controller's scans are seen.
#[derive(Clone, Copy)]
pub enum Pace {
    /// Its word that counts them shows another count than before, or the same.
    Counted(bool),
    /// A scan takes so long: none counts them.
    Timed(u64),
}

/// When the controller showed its outputs, and what that says of its scans.
#[derive(Clone, Copy)]
pub struct Showing {
    pub now: Moment,
    pub pace: Pace,
}

impl Showing {
    /// Whether a scan was released since a moment.
    pub fn has_scan(self, since: Moment) -> bool
        ensures { result ≡ has_scan self since }
    {
        match self.pace {
            Pace::Counted(is_other) => is_other,
            Pace::Timed(period) => since.saturating_add(period) <= self.now,
        }
    }
}

/// How far a device's inputs came since there is a connection to it, and one to the controller.
#[derive(Clone, Copy)]
pub enum Passage {
    /// They weren't read yet.
    Unread,
    /// They are to be handed over.
    Read,
    /// The controller had them when it showed its outputs at this moment.
    Handed(Moment),
    /// One scan was released since; it may have begun before it had them.
    Scanned(Moment),
    /// Another one was: it had them.
    Released,
}

impl Passage {
    /// A round has read them.
    pub fn read(self) -> Passage
        ensures { result ≡ read_of self }
    {
        match self {
            Passage::Unread => Passage::Read,
            further => further,
        }
    }

    /// The controller showed its outputs, and all that was to be handed over of the device has been handed over, or
    /// not.
    pub fn step(self, is_handed: bool, showing: Showing) -> Passage
        ensures { result ≡ stepped self is_handed showing }
    {
        match self {
            Passage::Read if is_handed => Passage::Handed(showing.now),
            Passage::Handed(since) if showing.has_scan(since) => Passage::Scanned(showing.now),
            Passage::Scanned(since) if showing.has_scan(since) => Passage::Released,
            same => same,
        }
    }

    /// Whether a scan that had them was released.
    pub fn is_released(self) -> bool
        ensures { result ≡ is_released self }
    {
        matches!(self, Passage::Released)
    }
}
