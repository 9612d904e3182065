//! How a replica starts from a store that counts its starts.

ghost use Rattle.std.specs.Prelude.{◌≡◌, IfOk, option_map};
ghost use Rattle.vr_model.specs.Membership.{member};
ghost use Rattle.vr_core.specs.StandsFor.{group_of};
ghost use Rattle.vr_threads.specs.Numbering.{count_in};
ghost use Rattle.vr_threads.specs.Working.{HasStarted};

use crate::numbers::count_in;
use il_loader::Image;
use il_model::Budget;
use std::alloc::{AllocError, Global};
use vr_model::{Config, Stored};
use vr_replica::{Replica, StoreFault, ViewStore};

/// A store that counts the starts of its replica.
pub trait Starts: ViewStore {
    ghost use Rattle.std.specs.Prelude.{◌≡◌, ◌≤◌, Option, Some, None, MatchResult, IfOk, OnErr};
    ghost use Rattle.io_model.specs.Streams.{Failed};
    ghost use Rattle.vr_model.specs.declared.event.Stored.{Stored};

    // How a start leaves it that gave this, or failed.
    ghost begin_gives: { Self → Option Stored → Self → Type 0 };

    /// One start more: the view that is kept, and the number of this start, which is how many there were with it where
    /// each is counted. Before the first start there is no view. It answers a fault only where the store failed in this
    /// call, or no greater number is left.
    fn begin(&mut self) -> Result<Stored, StoreFault>
        ensures first { IfOk result (λ stored. stored.starts ≡ 1 → stored.view ≡ 0) }
        ensures gives { MatchResult result (λ stored. begin_gives self.old (Some stored) self.new)
            (λ _. begin_gives self.old None self.new) }
        ensures device { OnErr result (Failed (Self.faults self.old) (Self.faults self.new)) }
        ensures counts { Self.faults self.old ≤ Self.faults self.new };
}

/// A replica that is to be served.
#[derive(Drop)]
pub(crate) struct Started {
    pub replica: Replica,
    /// With which it is to come up, where it is down and its store did not fail.
    pub nonce: Option<u64>,
    /// The number of this start in its store; none where that failed.
    pub starts: Option<u64>,
}

impl Started {
    /// How many starts its store has counted by this one; none where it failed.
    pub(crate) fn count(&self) -> Option<u64>
        ensures { result ≡ option_map count_in self.now.starts }
    {
        let Some(number) = self.starts else {
            return None;
        };
        Some(count_in(number))
    }
}

/// Counts one start more in the store, and makes the replica. It fails only where memory runs out.
pub(crate) fn start_from<S: Starts>(
    alloc: Global,
    config: Config,
    number: u8,
    image: Image,
    budget: Budget,
    store: &mut S,
) -> Result<Started, AllocError>
    ensures { IfOk result (λ start. HasStarted S.begin_gives
        (member (group_of config.f image budget.instructions) number) store.old store.new start.replica start.nonce
        start.starts) }
{
    match store.begin() {
        Ok(stored) if stored.starts == 1 => Ok(Started {
            replica: Replica::new(alloc, config, number, image, budget)?,
            nonce: None,
            starts: Some(1),
        }),
        Ok(stored) => Ok(Started {
            replica: Replica::down(alloc, config, number, image, budget)?,
            nonce: Some(stored.starts),
            starts: Some(stored.starts),
        }),
        Err(_) => Ok(Started {
            replica: Replica::down(alloc, config, number, image, budget)?,
            nonce: None,
            starts: None,
        }),
    }
}
