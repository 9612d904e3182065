//! What submits the commands of a console, and has them told.

ghost use Rattle.std.specs.Prelude.{◌≡◌, IfOk, OnErr};
ghost use Rattle.plc_console.specs.Asking.{way, IsAnswered, IsUnanswered};
ghost use Rattle.plc_console.specs.Sessions.{Notes, deed_done};

use crate::asking::ask;
use crate::others::Others;
use crate::patience::Patience;
use crate::session::Unanswered;
use il_model::{Answer, Command};
use plc_host::Host;
use plc_sight::SnapshotBoard;
use plc_status::{Deed, Journal, Notice};
use std::alloc::AllocError;
use std::ops::Range;
use std::sync::atomic::{AtomicBool, Ordering};
use std::sync::{Arc, Wait};
use std::time::{Clock, Duration};
use vr_client::GroupClient;
use vr_model::{ClientNumber, Config};
use vr_ports::Link;

/// Which client of its group a desk is, and how often it started before: numbers of its requests are above all that
/// were given then.
#[derive(Clone, Copy)]
pub struct DeskClient {
    pub number: ClientNumber,
    pub starts: u32,
}

/// A client of a group, with its link: it submits what a console asks for, and notes what that changed.
#[derive(Drop)]
pub struct Desk<R: Copy + Drop, L: Drop> {
    host: Host<R>,
    client: GroupClient,
    link: L,
    patience: Patience,
    /// So many replicas the group has.
    replicas: u8,
    /// What is done is told there.
    journal: Journal,
    /// Where other consoles give commands, too.
    others: Option<Others>,
    /// Set before the group can know of a change of the program, if that is wanted.
    has_changed: Option<Arc<AtomicBool>>,
    /// Where a replica leaves a snapshot of the controller for those who ask what it has, if one does.
    sight: Option<Arc<SnapshotBoard>>,
}

impl<R: Wait + Clock + Copy + Drop, L: Link + Drop> Desk<R, L> {
    /// Nothing was submitted yet. After each `period` without a reply a command is sent again; what is done goes into
    /// the journal.
    pub fn new(
        host: Host<R>,
        config: Config,
        client: DeskClient,
        link: L,
        period: Duration,
        journal: Journal,
    ) -> Desk<R, L> {
        Desk {
            host,
            client: GroupClient::new(&config, client.number, client.starts),
            link,
            patience: Patience::new(period),
            replicas: config.group_size(),
            journal,
            others: None,
            has_changed: None,
            sight: None,
        }
    }

    /// The same, and this is set before the group can know of a change of the program.
    pub fn telling_changes(self, has_changed: Arc<AtomicBool>) -> Desk<R, L> {
        Desk {
            has_changed: Some(has_changed),
            ..self
        }
    }

    /// The same, and a command is given up that waits while this is set for 10 s: there's no majority. What was given up
    /// may still be done.
    pub fn minding(self, has_no_majority: Arc<AtomicBool>) -> Desk<R, L> {
        Desk {
            patience: self.patience.minding(has_no_majority),
            ..self
        }
    }

    /// The same, and what the controller has is told by the snapshots that a replica leaves there.
    pub fn seeing(self, sight: Arc<SnapshotBoard>) -> Desk<R, L> {
        Desk {
            sight: Some(sight),
            ..self
        }
    }

    /// The same, where other consoles give commands, too.
    pub fn among(self, others: Others) -> Desk<R, L> {
        Desk {
            others: Some(others),
            ..self
        }
    }

    /// What it knows of the controller beside the answers of its commands, where others give commands, too.
    pub(crate) fn others(&self) -> Option<&Others> {
        self.others.as_ref()
    }

    /// Where a replica leaves snapshots of the controller for those who ask what it has, if one does.
    pub(crate) fn sight(&self) -> Result<Option<Arc<SnapshotBoard>>, AllocError> {
        match (&self.sight, &self.others) {
            (Some(sight), _) => Ok(Some(Arc::try_clone(sight)?)),
            (None, Some(others)) => Ok(Some(Arc::try_clone(&others.board)?)),
            (None, None) => Ok(None),
        }
    }

    /// The replicas of which it tells.
    pub(crate) fn replicas(&self) -> Range<u8> {
        match &self.others {
            Some(others) => others.replica..others.replica.saturating_add(1),
            None => 0..self.replicas,
        }
    }

    /// Whether there's no majority, for want of which a command would be given up.
    pub(crate) fn has_no_majority(&self) -> bool {
        self.patience.has_no_majority()
    }

    /// Notes this.
    pub(crate) fn note(&mut self, notice: Notice) {
        self.journal.put(notice);
    }

    /// The link to the group.
    pub(crate) fn link(&self) -> &L {
        &self.link
    }

    /// Submits a command, and notes what that changed. Its answer is that of the first REPLY with its number.
    pub(crate) fn submit(&mut self, command: &Command) -> Result<Answer, Unanswered>
        ensures answered { IfOk result (λ answer. IsAnswered self.old.client command.now
            (way (L.inputs self.old.link) (L.sent self.old.link))
            (way (L.inputs self.new.link) (L.sent self.new.link)) answer self.new.client) }
        ensures unanswered { OnErr result (IsUnanswered self.old.client command.now
            (way (L.inputs self.old.link) (L.sent self.old.link))
            (way (L.inputs self.new.link) (L.sent self.new.link)) self.new.client) }
        ensures noted { IfOk result
            (λ answer. Notes (deed_done command.now answer) self.old.journal self.new.journal) }
        ensures silent { OnErr result (self.new.journal ≡ self.old.journal) }
    {
        if let Command::Change(_) = command {
            tell_change(&self.has_changed);
        }
        let answer = self.ask(command)?;
        note(command, &answer, &mut self.journal);
        Ok(answer)
    }

    /// Submits a command under the client's next number. Its answer is that of the first REPLY with that number.
    fn ask(&mut self, command: &Command) -> Result<Answer, Unanswered>
        ensures answered { IfOk result (λ answer. IsAnswered self.old.client command.now
            (way (L.inputs self.old.link) (L.sent self.old.link))
            (way (L.inputs self.new.link) (L.sent self.new.link)) answer self.new.client) }
        ensures unanswered { OnErr result (IsUnanswered self.old.client command.now
            (way (L.inputs self.old.link) (L.sent self.old.link))
            (way (L.inputs self.new.link) (L.sent self.new.link)) self.new.client) }
        ensures silent { self.new.journal ≡ self.old.journal }
    {
        let Desk {
            host,
            client,
            link,
            patience,
            ..
        } = self;
        ask(host, patience, client, link, command)
    }
}

/// Notes what a command changed that was answered so.
fn note(command: &Command, answer: &Answer, journal: &mut Journal)
    ensures { Notes (deed_done command.now answer.now) journal.old journal.new }
{
    if let Answer::Refused(_) = answer {
        return;
    }
    if let Some(deed) = Deed::of(command) {
        journal.put(Notice::Done(deed));
    }
}

/// Tells that another program may be in force from now on, where that is wanted.
fn tell_change(has_changed: &Option<Arc<AtomicBool>>) {
    if let Some(has_changed) = has_changed {
        has_changed.store(true, Ordering::SeqCst);
    }
}
