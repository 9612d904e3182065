//! Whose the links of a group are.

ghost use Rattle.std.specs.Prelude.{◌+◌, ◌≤◌, ◌↔◌, IfSome, IsNone};
ghost use Rattle.vr_model.specs.Groups.{client_count};
ghost use Rattle.vr_ports.specs.Parties.{IsPartyAt};

use vr_model::{ClientNumber, Party};

/// The party at this place of a group: so many replicas come first, by their numbers, and then the clients by theirs.
/// `None` where there is no client of that number.
pub fn party_at(replicas: u8, place: u16) -> Option<Party>
    ensures some { IfSome result (λ party. IsPartyAt replicas place party) }
    ensures none { IsNone result ↔ (replicas + client_count ≤ place) }
{
    let replicas = u16::from(replicas);
    if place < replicas {
        return Some(Party::Replica(u8::try_from(place).ok()?));
    }
    let number = u8::try_from(place - replicas).ok()?;
    Some(Party::Client(ClientNumber::new(number)?))
}
