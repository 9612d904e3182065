//! A hello that was accepted.

ghost use Rattle.std.specs.Prelude.{◌≡◌};
ghost use Rattle.net_peers.specs.Heard.{IsAccepted};

use net_hello::Hello;

/// A hello of another end that this end accepted by its own.
#[derive(Clone, Copy)]
pub(crate) struct Accepted {
    pub(crate) own: Hello,
    pub(crate) hello: Hello,
    ghost accepted: { IsAccepted own hello },
}

impl Accepted {
    /// An end with the first of these hellos accepted the other.
    pub(crate) fn new(own: &Hello, hello: &Hello) -> Accepted
        requires { IsAccepted own.now hello.now }
        ensures own { result.own ≡ own.now }
        ensures hello { result.hello ≡ hello.now }
    {
        Accepted {
            own: *own,
            hello: *hello,
        }
    }
}
