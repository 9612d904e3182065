//! A machine that can't go on by itself, and waits for its operator.

ghost use Rattle.std.specs.Prelude.{◌≡◌};
ghost use Rattle.plc_member.specs.Hearing.{by_hand_notice, waits_by_hand};

use crate::keeper::Keeper;
use plc_host::ServiceRuntime;
use plc_status::{GroupNotice, Notice};
use std::net::{Net, TcpListener, TcpStream};

/// Whether a machine waits for its operator, by whether it begins anew by itself, its replica recovers, and those of f
/// others do.
fn waits_by_hand(is_automatic: bool, recovers: bool, others_recover: bool) -> bool
    ensures { result ≡ waits_by_hand is_automatic recovers others_recover }
{
    !is_automatic && (recovers && others_recover)
}

/// What is told of a machine with so many others that waits for its operator, or doesn't: once.
pub(crate) fn by_hand_notice(is_told: bool, waits: bool, others: u8) -> Option<Notice>
    ensures { result ≡ by_hand_notice is_told waits others }
{
    if waits && !is_told {
        Some(Notice::Group(GroupNotice::ByHand(others / 2)))
    } else {
        None
    }
}

impl<R> Keeper<R>
where
    R: ServiceRuntime + Net<Listener = TcpListener, Stream = TcpStream>,
{
    /// Whether the machine waits for its operator, as it stood at the last look: most have lost their memory, and it
    /// doesn't begin anew by itself.
    pub(crate) fn waits_by_hand(&self) -> bool {
        let Some(looked) = self.looked else {
            return false;
        };
        let others_recover = self.others_recover(looked);
        waits_by_hand(
            self.terms.is_automatic,
            self.epochs.cold_start().recovers(),
            others_recover,
        )
    }
}
