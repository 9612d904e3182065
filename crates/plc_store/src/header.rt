//! What a store says.

ghost use Rattle.std.specs.Prelude.{◌<◌, ◌^◌, ◌≡◌, ◌↔◌, IfSome, IsSome, vec_len};

use plc_epochs::Kept;
use vr_model::MOST_REPLICAS;

/// By machine: which store was seen of it, or 0 for none.
pub type Seen = [u64; MOST_REPLICAS];

/// Which store it is.
#[derive(Clone, Copy, Debug, PartialEq, Eq)]
pub struct Header {
    /// Of its group: SHA-256 of what its machines have to agree on.
    pub identity: [u8; 32],
    /// What it has of the group's epochs.
    pub kept: Kept,
    /// SHA-256 of the image in this store.
    pub program: [u8; 32],
    /// The machine's place in the group file, from 0.
    pub machine: u8,
    /// What tells it from another store of the same machine, and from a copy of it from an epoch before: drawn when it
    /// was made, and once more with each epoch that it enters; never 0.
    pub store: u64,
    /// Which stores of the other machines were seen in the epoch that it's in.
    pub seen: Seen,
}

/// A store: its header, and the image of the program that its machine begins with.
#[derive(Drop)]
pub struct Store {
    pub header: Header,
    pub image: Vec<u8>,
    ghost short: { vec_len image < 2 ^ 32 },
}

impl Store {
    /// The store of this header and this image; None where the image has 4 GiB or more.
    pub fn new(header: Header, image: Vec<u8>) -> Option<Store>
        ensures short { IsSome result ↔ (vec_len image < 2 ^ 32) }
        ensures value { IfSome result (λ store. (store.header ≡ header) × (store.image ≡ image)) }
    {
        if image.len() < 1 << 32 {
            Some(Store { header, image })
        } else {
            None
        }
    }
}
