//! What the machines of a run share: what is under way between them, what they run, and what is said of them.

use crate::net::Net;
use crate::trial::Trial;
use node_core::HostSetup;
use sim_checker::{Checker, Journal, Line, Tally, What};
use sim_machine::{Program, Setup};
use std::alloc::{AllocError, Global};
use vr_client::GroupClient;
use vr_model::ClientNumber;

/// What the machines of a run share.
#[derive(Drop)]
pub(crate) struct Site {
    pub(crate) net: Net,
    pub(crate) trial: Trial,
    pub(crate) program: Box<Program>,
    pub(crate) operator: GroupClient,
    pub(crate) checker: Checker,
    pub(crate) tally: Tally,
    pub(crate) journal: Journal,
}

impl Site {
    /// Of a group that runs this program, in which clients count their writes there; the operator is its client of this
    /// number.
    pub(crate) fn new(
        alloc: Global,
        setup: Setup,
        trial: Trial,
        program: Box<Program>,
        operator: ClientNumber,
        counter: Option<u16>,
    ) -> Result<Site, AllocError> {
        let (image, budget) = (&program.image, program.budget);
        let checker = Checker::new(alloc, image, budget, setup.size(), counter)?;
        Ok(Site {
            net: Net::new(alloc, setup),
            trial,
            program,
            operator: GroupClient::new(&setup.config, operator, 1),
            checker,
            tally: Tally::new(),
            journal: Journal::new(alloc, setup.is_told),
        })
    }

    /// Keeps a line of what happened at a machine.
    pub(crate) fn tell(&mut self, machine: u8, what: What, number: u64) {
        self.journal.tell(Line {
            time: self.net.now,
            machine,
            what,
            number,
        });
    }

    /// What the replica's thread of a machine is made of.
    pub(crate) fn host_setup(&self, machine: u8) -> Result<HostSetup, AllocError> {
        Ok(HostSetup {
            config: self.net.setup.config,
            number: machine,
            image: self.program.image.copy(self.net.alloc)?,
            sum: self.program.epoch.image,
            budget: self.program.budget,
            times: self.net.setup.times(),
            is_automatic: true,
        })
    }
}
