//! What an operator is told of a machine's own replica, and of its connections.

ghost use Rattle.std.specs.Prelude.{◌≡◌};
ghost use Rattle.plc_member.specs.Watching.{IsNoted, turn_of};

use net_hello::Refusal;
use net_keys::ChallengeFault;
use net_peers::LinkNotice;
use plc_status::{Journal, Notice, Why};
use std::time::Duration;
use vr_model::Party;
use vr_shown::Shown;

/// In seconds: for so long a replica isn't normal before that is told once more.
const LONG: u64 = 60;

/// What was told of the machine's own replica.
#[derive(Clone, Copy)]
pub(crate) struct Watch {
    /// The view in which it was normal at the last look.
    normal_in: Option<u64>,
    /// Since when it isn't.
    since: Option<Duration>,
    is_told_long: bool,
}

/// What is told of a replica that was normal in this view and is now normal in that one, if in any.
fn turn_of(before: Option<u64>, now: Option<u64>) -> Option<Notice>
    ensures { result ≡ turn_of before now }
{
    match now {
        Some(_) if before == now => None,
        Some(view) => Some(Notice::ReplicaNormalIn(view)),
        None if before.is_some() => Some(Notice::ReplicaNotNormal),
        None => None,
    }
}

/// Notes this, if there is something to be told.
pub(crate) fn note(notice: Option<Notice>, journal: &mut Journal)
    ensures { IsNoted notice journal.old journal.new }
{
    if let Some(notice) = notice {
        journal.put(notice);
    }
}

impl Watch {
    /// Nothing was told.
    pub(crate) fn new() -> Watch {
        Watch {
            normal_in: None,
            since: None,
            is_told_long: false,
        }
    }

    /// Notes what changed of the replica since the last look, and once that it isn't normal for long.
    pub(crate) fn look(&mut self, shown: Shown, now: Duration, journal: &mut Journal) {
        let normal_in = if shown.is_normal() {
            Some(shown.standing.view)
        } else {
            None
        };
        note(turn_of(self.normal_in, normal_in), journal);
        self.normal_in = normal_in;
        if self.is_long(now) {
            journal.put(Notice::NotNormalLong);
        }
    }

    /// Whether it's to be told now that the replica isn't normal for long.
    fn is_long(&mut self, now: Duration) -> bool {
        if self.normal_in.is_some() {
            self.since = None;
            self.is_told_long = false;
            return false;
        }
        let since = self.since.unwrap_or(now);
        self.since = Some(since);
        if self.is_told_long || now.saturating_sub(since) < Duration::from_secs(LONG) {
            return false;
        }
        self.is_told_long = true;
        true
    }
}

/// The machine whose replica this is; none of another party.
fn machine_of(party: Party) -> Option<u8> {
    match party {
        Party::Replica(number) => Some(number),
        Party::Client(_) => None,
    }
}

/// What is told of a refusal.
fn why_of(refusal: Refusal) -> Why {
    match refusal {
        Refusal::OtherVersion => Why::OtherVersion,
        Refusal::OtherGroup => Why::OtherGroup,
        Refusal::OtherEpoch => Why::OtherEpoch,
        Refusal::OtherProgram => Why::OtherProgram,
        Refusal::OwnParty => Why::OwnParty,
        Refusal::NoMember => Why::NoMember,
        Refusal::FewerStarts => Why::FewerStarts,
        Refusal::OtherFresh => Why::OtherFresh,
        Refusal::OtherStore => Why::OtherStore,
        Refusal::OwnStore => Why::OwnStore,
        Refusal::MoreStarts => Why::MoreStarts,
        Refusal::OwnStarts => Why::OwnStarts,
    }
}

/// What is told of who isn't met.
fn why_unmet(fault: ChallengeFault) -> Why {
    match fault {
        ChallengeFault::NoChallenge => Why::NoChallenge,
        ChallengeFault::NoKey => Why::NoKey,
        ChallengeFault::OtherVersion => Why::OtherVersion,
        ChallengeFault::OwnChallenge => Why::OwnChallenge,
        ChallengeFault::OtherMachine => Why::OtherMachine,
        ChallengeFault::OwnMachine => Why::OwnParty,
        ChallengeFault::OtherKey => Why::OtherKey,
        ChallengeFault::Forged => Why::Forged,
    }
}

/// What is told of a change of the connections: of replicas, and of each refusal.
pub(crate) fn told_of(notice: LinkNotice) -> Option<Notice> {
    match notice {
        LinkNotice::Joined(party) => Some(Notice::MachineJoined(machine_of(party)?)),
        LinkNotice::Lost(party) => Some(Notice::MachineLost(machine_of(party)?)),
        LinkNotice::Unmet(machine, fault) => {
            Some(Notice::MachineRefused(machine, why_unmet(fault)))
        }
        LinkNotice::Forged(party) => Some(Notice::MachineForged(machine_of(party)?)),
        LinkNotice::Refused(None, refusal) => Some(Notice::MachineRefused(None, why_of(refusal))),
        LinkNotice::Refused(Some(party), refusal) => {
            Some(Notice::MachineRefused(Some(machine_of(party)?), why_of(refusal)))
        }
    }
}
