//! The ways of messages.

ghost use Rattle.std.specs.Prelude.{◌≡◌};
ghost use Rattle.vr_ports.specs.Parties.{Grows};

use std::alloc::AllocError;
use thiserror::Error;
use vr_model::{Message, Sends};

/// What a receive gave.
#[derive(Drop)]
pub enum Input {
    Message(Message),
    /// No message came for a while.
    Nothing,
    /// None will come any more.
    Closed,
}

/// The way of messages to a party and from it. A link tells what it gave and took, or tells nothing.
pub trait Link {
    ghost use Rattle.std.specs.Prelude.{◌≡◌, [], ◌∷◌, List, Option};
    ghost use Rattle.vr_model.specs.declared.message.Message.{Message};
    ghost use Rattle.vr_ports.specs.declared.link.Input.{Input};
    ghost use Rattle.vr_ports.specs.Parties.{Grows};

    // What the receives gave so far, if it tells.
    ghost inputs: { Self → Option (List Input) };

    // What it was handed to send so far, if it tells.
    ghost sent: { Self → Option (List Message) };

    /// Waits for a message, and no longer than the link's own wait.
    fn recv(&mut self) -> Input
        ensures gave { Grows (inputs self.old) (inputs self.new) (result ∷ []) }
        ensures same { sent self.new ≡ sent self.old };

    /// Takes a message to be sent. Where it cannot be sent it is lost.
    fn send(&mut self, message: Message)
        ensures took { Grows (sent self.old) (sent self.new) (message ∷ []) }
        ensures same { inputs self.new ≡ inputs self.old };

    /// How many messages were lost so far because they are too long for a frame: none over a link without frames.
    fn frameless(&self) -> u64 {
        0
    }
}

/// Cuts a link, from any thread: nothing more comes in, and it is closed, at once or when it gave what came before.
pub trait Cutter {
    fn cut(&self);
}

/// The connections of a link could not be made.
#[derive(Clone, Copy, Debug, PartialEq, Eq, Error)]
#[error("no connections")]
pub struct Unlinked;

/// A link that can be cut, and whose connections can be made anew at both ends.
pub trait Relink: Link {
    type Cutter: Cutter + Send + Drop + 'static;

    /// What cuts it. It fails only where memory runs out.
    fn cutter(&self) -> Result<Self::Cutter, AllocError>;

    /// Makes its connections anew, whether or not it was cut; what was on its way is lost. Where it fails, the link is
    /// closed.
    fn renew(&mut self) -> Result<(), Unlinked>;
}

/// Hands each message to the link, in order.
pub fn send_all<L: Link>(link: &mut L, sends: Sends)
    ensures took { Grows (L.sent link.old) (L.sent link.new) sends.items }
    ensures same { L.inputs link.new ≡ L.inputs link.old }
{
    for message in sends {
        link.send(message);
    }
}
