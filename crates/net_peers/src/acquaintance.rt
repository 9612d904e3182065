//! What is known of a party by its hellos.

ghost use Rattle.std.specs.Prelude.{◌≡◌, ◌==◌, None, Some};
ghost use Rattle.net_peers.specs.Heard.{known_at, known_by};

use net_hello::{Hello, Known};

/// In milliseconds: for so long behind the end of its connection the starts of a party are known. Whoever was started
/// less often, and was shut out meanwhile, is accepted then.
const REMEMBERING: u64 = 10_000;

/// What is known of a party by its hellos.
#[derive(Clone, Copy, Debug, PartialEq, Eq)]
pub(crate) struct Acquaintance {
    pub(crate) known: Known,
    /// When its connection ended that was the last one; `None` where it has one, or never had.
    pub(crate) ended: Option<u64>,
}

impl Acquaintance {
    /// A party whose machine has this store, as far as it's known; 0 where none was seen.
    pub(crate) fn new(store: u64) -> Acquaintance
        ensures known { result.known ≡ record { store = store; starts = 0 } }
        ensures ended { result.ended ≡ None }
    {
        Acquaintance {
            known: Known { store, starts: 0 },
            ended: None,
        }
    }

    /// What is known of it now.
    pub(crate) fn known(&self, now: u64) -> Known
        ensures { result ≡ known_at self.now.known self.now.ended now }
    {
        match self.ended {
            Some(ended) if now.saturating_sub(ended) >= REMEMBERING => Known {
                starts: 0,
                ..self.known
            },
            _ => self.known,
        }
    }

    /// This hello of it was accepted. Whether no store of its machine was known before.
    pub(crate) fn accept(&mut self, hello: &Hello) -> bool
        ensures known { self.new ≡ record { known = known_by hello.now; ended = None } }
        ensures new_store { result ≡ (self.old.known.store == 0) }
    {
        let is_new = self.known.store == 0;
        self.known = Known {
            store: hello.store,
            starts: hello.starts,
        };
        self.ended = None;
        is_new
    }

    /// Its connection ended.
    pub(crate) fn end(&mut self, now: u64)
        ensures { self.new ≡ record self.old { ended = Some now } }
    {
        self.ended = Some(now);
    }
}
