//! What changed of the connections to other machines.

ghost use Rattle.std.specs.Prelude.{◌≡◌, [], ◌∷◌, ◌++◌, filter, true, false};
ghost use Rattle.std.specs.List.{list_any};
ghost use Rattle.net_peers.specs.Refusals.{is_of_another};

use net_hello::Refusal;
use net_keys::ChallengeFault;
use net_links::is_same;
use std::alloc::Global;
use vr_model::Party;

/// So many refusals are remembered; a further one isn't told. There are twelve causes, and fewer than 16 parties that a
/// link knows.
const MOST_TOLD: usize = 256;

/// What changed of the connections to other machines.
#[derive(Clone, Copy, Debug, PartialEq, Eq)]
pub enum LinkNotice {
    /// A party is connected to this one.
    Joined(Party),
    /// It was, and isn't.
    Lost(Party),
    /// A hello was refused: that of this party, or one of another version, which names none.
    Refused(Option<Party>, Refusal),
    /// Whoever says that it's the machine of this number hasn't proved it.
    Unmet(Option<u8>, ChallengeFault),
    /// A party was connected, and isn't: a record came that was forged or damaged.
    Forged(Party),
}

/// Which refusals were told: each cause is told once for each party, and again only after that one was connected.
#[derive(Drop)]
pub(crate) struct Told {
    refusals: Vec<(Option<Party>, Refusal)>,
}

impl Told {
    /// None was told.
    pub(crate) fn new(alloc: Global) -> Told {
        Told {
            refusals: Vec::new(alloc),
        }
    }

    /// Whether this one is to be told now; from now on it was told.
    pub(crate) fn is_new(&mut self, party: Option<Party>, refusal: Refusal) -> bool {
        add_new(&mut self.refusals, (party, refusal))
    }

    /// The party is connected: what is refused of it is told again, and of others no more than before.
    pub(crate) fn forget(&mut self, party: Party)
        ensures { self.new.refusals.items ≡ filter (is_of_another party) self.old.refusals.items }
    {
        self.refusals.retain(
            |told: &(Option<Party>, Refusal)| -> bool
                ensures { result ≡ is_of_another party told.now }
            { is_of_another(party, told) },
        );
    }
}

/// Whether a hello that was refused is one of another party than this, or names none.
fn is_of_another(party: Party, told: &(Option<Party>, Refusal)) -> bool
    ensures { result ≡ is_of_another party told.now }
{
    match told.0 {
        Some(refused) => !is_same(refused, party),
        None => true,
    }
}

/// Adds it, unless it's there, there are too many, or memory runs out. Whether it was added.
fn add_new<T: PartialEq + Copy>(told: &mut Vec<T>, refused: T) -> bool
    ensures once { list_any (λ x. T.eq x refused) told.old.items ≡ true → result ≡ false }
    ensures added { result ≡ true → told.new.items ≡ told.old.items ++ refused ∷ [] }
    ensures same { result ≡ false → told.new.items ≡ told.old.items }
{
    if told.len() >= MOST_TOLD || told.as_slice().contains(&refused) {
        return false;
    }
    told.push(refused).is_ok()
}
