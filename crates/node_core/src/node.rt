//! What the driver of a node does: what `plc_node_core` decides is put into deeds.

ghost use Rattle.std.specs.Prelude.{◌≡◌, true};

use crate::host::Shown;
use crate::joints::down;
use io_image::{Release, Staging};
use plc_epochs::Kept;
use plc_machine::{MachineDriver, Pace, client_starts};
use plc_node_core::{
    Action, Answered, Ending, LastAction, Node as Deciding, NodeAction, Role, ScanClient,
    ShownReplica,
};
use std::alloc::{AllocError, Global};
use std::time::Duration;
use vr_model::{ClientNumber, Config, Message, Sends};

/// So many actions of one turn follow each other at most: none is due behind its own end.
const MOST_ACTIONS: u8 = 8;

/// What a node is made of.
#[derive(Clone, Copy)]
pub struct NodeSetup {
    pub config: Config,
    /// Of its machine.
    pub number: u8,
    /// So often its machine was started in its epoch, with this time.
    pub starts: u64,
    pub pace: Pace,
}

/// How a node ends.
#[derive(Clone, Copy, Debug, PartialEq, Eq)]
pub enum Ended {
    Stopped,
    /// The store of its replica failed, or its client's numbers are used up.
    Failed,
    /// It leaves its epoch, and its store is to have this.
    Leaves(Kept),
}

/// What a node is to do.
#[derive(Drop)]
pub enum NodeDeed {
    /// To replicas of its group, in order.
    Send(Sends),
    /// This is released, of a scan that was submitted then.
    Publish(Release, Duration),
    /// The port opens, in this view.
    Open(u64),
    /// The port closes, with each of its sessions.
    Close,
    /// Nothing more is done.
    End(Ended),
}

/// The driver of a node, as a value.
#[derive(Drop)]
pub struct Node {
    deciding: Deciding,
    /// When its scan was submitted that was submitted last.
    submitted: Duration,
    /// What its store is to have, where it leaves its epoch.
    kept: Option<Kept>,
    /// Nothing more is done.
    is_over: bool,
}

/// What a node sees of its replica, whose thread serves it.
fn seen_of(shown: &Shown) -> ShownReplica {
    ShownReplica {
        standing: shown.standing,
        has_failed: shown.has_failed,
        is_over: false,
        seen: shown.seen,
    }
}

/// What a node sees of its replica, whose thread is at its end.
fn unserved() -> ShownReplica {
    ShownReplica {
        standing: down(),
        has_failed: false,
        is_over: true,
        seen: None,
    }
}

impl Node {
    /// Of a machine that stands by; `None` where its starts are used up.
    pub fn new(setup: NodeSetup) -> Option<Node> {
        let client = ClientNumber::new(setup.number)?;
        let starts = client_starts(setup.starts)?;
        let driver = MachineDriver::new(&setup.config, client, starts, setup.pace);
        let scans = ScanClient::new(setup.number, setup.pace.period, driver);
        Some(Node {
            deciding: Deciding::new(Role::new(scans)),
            submitted: Duration::from_millis(0),
            kept: None,
            is_over: false,
        })
    }

    /// Whether its port is open.
    pub fn is_open(&self) -> bool {
        self.deciding.role().is_open()
    }

    /// The view that it leads, if it leads.
    pub fn led(&self) -> Option<u64> {
        self.deciding.role().led()
    }

    /// When it has something to do next, unless something comes before that.
    pub fn next_due(&self, now: Duration) -> Duration {
        self.deciding.role().next_look(now)
    }

    /// It's asked to stop.
    pub fn stop(&mut self, now: Duration, deeds: &mut Vec<NodeDeed>) -> Result<(), AllocError>
        ensures over { self.old.is_over ≡ true → (self.new ≡ self.old) × (deeds.new.items ≡ deeds.old.items) }
    {
        if self.is_over {
            return Ok(());
        }
        self.deciding.end_by(Ending::Stopped, now);
        self.finish(now, deeds)
    }

    /// Its replica's thread says that its life ends, and serves the replica no longer.
    pub fn left(
        &mut self,
        kept: Kept,
        now: Duration,
        deeds: &mut Vec<NodeDeed>,
    ) -> Result<(), AllocError>
        ensures over { self.old.is_over ≡ true → (self.new ≡ self.old) × (deeds.new.items ≡ deeds.old.items) }
    {
        if self.is_over {
            return Ok(());
        }
        self.kept = Some(kept);
        self.deciding.end_by(Ending::Leaves, now);
        self.deciding.look(&unserved(), now);
        self.finish(now, deeds)
    }

    /// A turn: it looks at what its replica shows, and does what is due.
    pub fn turn<S: Staging>(
        &mut self,
        alloc: Global,
        now: Duration,
        shown: &Shown,
        stage: &mut S,
        deeds: &mut Vec<NodeDeed>,
    ) -> Result<(), AllocError>
        ensures over { self.old.is_over ≡ true → (self.new ≡ self.old) × (deeds.new.items ≡ deeds.old.items) }
    {
        if self.is_over {
            return Ok(());
        }
        self.deciding.look(&seen_of(shown), now);
        for _ in 0..MOST_ACTIONS {
            match self.deciding.next_action(now) {
                Some(NodeAction::Does(action)) => self.act(alloc, now, action, stage, deeds)?,
                _ => return self.finish(now, deeds),
            }
        }
        Ok(())
    }

    /// Does this, which is due.
    fn act<S: Staging>(
        &mut self,
        alloc: Global,
        now: Duration,
        action: Action,
        stage: &mut S,
        deeds: &mut Vec<NodeDeed>,
    ) -> Result<(), AllocError> {
        match action {
            Action::Fill => self.deciding.fill(stage, now),
            Action::Submit => {
                if let Some(sends) = self.deciding.submit(alloc, stage, now) {
                    self.submitted = now;
                    deeds.push(NodeDeed::Send(sends))?;
                }
            }
            Action::Again => {
                if let Some(sends) = self.deciding.again(alloc, now) {
                    deeds.push(NodeDeed::Send(sends))?;
                }
            }
            Action::Open(view) => {
                self.deciding.opened();
                deeds.push(NodeDeed::Open(view))?;
            }
            Action::Close => {
                self.deciding.closed();
                deeds.push(NodeDeed::Close)?;
            }
        }
        Ok(())
    }

    /// Does what is due of one that has ended, until that is done.
    fn finish(&mut self, now: Duration, deeds: &mut Vec<NodeDeed>) -> Result<(), AllocError> {
        for _ in 0..MOST_ACTIONS {
            match self.deciding.next_action(now) {
                Some(NodeAction::Ends(LastAction::Close)) => {
                    self.deciding.closed();
                    deeds.push(NodeDeed::Close)?;
                }
                Some(NodeAction::Ends(LastAction::Cut)) => self.deciding.cut(now),
                Some(NodeAction::Ends(LastAction::End(ending))) => return self.end(ending, deeds),
                _ => return Ok(()),
            }
        }
        Ok(())
    }

    /// It's over.
    fn end(&mut self, ending: Ending, deeds: &mut Vec<NodeDeed>) -> Result<(), AllocError> {
        self.is_over = true;
        let ended = match (ending, self.kept) {
            (Ending::Stopped, _) => Ended::Stopped,
            (Ending::Leaves, Some(kept)) => Ended::Leaves(kept),
            _ => Ended::Failed,
        };
        deeds.push(NodeDeed::End(ended))?;
        Ok(())
    }

    /// Takes a message of its group: where it's the reply that is waited for, what it releases is published. A turn
    /// comes behind it at once.
    pub fn reply(&mut self, message: &Message, deeds: &mut Vec<NodeDeed>) -> Result<(), AllocError>
        ensures over { self.old.is_over ≡ true → (self.new ≡ self.old) × (deeds.new.items ≡ deeds.old.items) }
    {
        if self.is_over {
            return Ok(());
        }
        if let Answered::Released(release) = self.deciding.reply(message) {
            deeds.push(NodeDeed::Publish(release, self.submitted))?;
        }
        Ok(())
    }
}
