//! Which replicas of other machines are there.

use net_peers::Exchange;
use std::sync::Arc;
use vr_threads::Neighbours;

/// The machines of a group, as the links of this one find them.
#[derive(Drop)]
pub(crate) struct Machines {
    pub(crate) exchange: Arc<Exchange>,
}

impl Neighbours for Machines {
    fn near(&self) -> u8 {
        self.exchange.near()
    }

    fn reached(&self) -> u8 {
        self.exchange.reached()
    }
}
