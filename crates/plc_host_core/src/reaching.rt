//! What reaches the replica of a host.

ghost use Rattle.std.specs.Prelude.{◌≡◌};
ghost use Rattle.plc_host_core.specs.Reaching.{is_answer, recovering_in};

use vr_model::{Body, Message, Party};

/// Whether a message is an answer to a RECOVERY.
pub fn is_answer(message: &Message) -> bool
    ensures { result ≡ is_answer message.now }
{
    matches!(message.body, Body::RecoveryResponse { .. })
}

/// The replica whose RECOVERY a message is, if it's one.
pub fn recovering_in(message: &Message) -> Option<u8>
    ensures { result ≡ recovering_in message.now }
{
    match (&message.body, message.from) {
        (Body::Recovery { .. }, Party::Replica(number)) => Some(number),
        _ => None,
    }
}
