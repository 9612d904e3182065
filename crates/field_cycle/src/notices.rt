//! What an operator is to be told of a device, or of the controller.

ghost use Rattle.std.specs.Prelude.{◌≡◌, ◌++◌, ◌∷◌, [], None, take};
ghost use Rattle.std.specs.Option.{option_to_list};

use crate::link::LinkFault;

/// What changed of a device, or of the controller.
#[derive(Clone, Copy)]
pub enum Change {
    /// It answers, for the first time.
    Found,
    /// It answers no more, or was not to be had at first.
    Lost(LinkFault),
    /// It answers again.
    Back,
}

/// Changes that aren't told yet, in their order: two at most.
#[derive(Clone, Copy)]
pub struct Notices {
    first: Option<Change>,
    second: Option<Change>,
}

impl Notices {
    ghost use Rattle.field_cycle.specs.Notices.{listed};

    /// None.
    pub fn none() -> Notices
        ensures { listed result ≡ [] }
    {
        Notices {
            first: None,
            second: None,
        }
    }

    /// Puts a change behind the one that waits. Where two wait, it stands in place of the second.
    pub fn put(&mut self, change: Change)
        ensures { listed self.new ≡ take 1 (listed self.old) ++ change ∷ [] }
    {
        *self = match self.first.or(self.second) {
            None => Notices {
                first: Some(change),
                second: None,
            },
            Some(first) => Notices {
                first: Some(first),
                second: Some(change),
            },
        };
    }

    /// The next, which waits no more.
    pub fn take(&mut self) -> Option<Change>
        ensures { listed self.old ≡ option_to_list result ++ listed self.new }
    {
        let next = self.first.or(self.second);
        *self = Notices {
            first: self.first.and(self.second),
            second: None,
        };
        next
    }

    /// Whether none waits.
    pub fn is_empty(&self) -> bool {
        self.first.is_none() && self.second.is_none()
    }
}
