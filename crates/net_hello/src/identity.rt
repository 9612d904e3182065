//! What tells one group from another.

ghost use Rattle.std.specs.Prelude.{◌≡◌};
ghost use Rattle.net_hello.specs.Identity.{AreTold, identity_of};

use il_model::Budget;
use sha2::{Digest, Sha256};
use vr_model::Config;

/// The identity of a group: its name, how many machines may fail and how often replicas make checkpoints, the budget of
/// a scan, and 16 bytes that were drawn for it, since names are copied.
pub fn group_identity(name: &str, config: Config, budget: Budget, drawn: &[u8; 16]) -> [u8; 32]
    ensures { result ≡ identity_of (record {
      name = name.now;
      drawn = drawn.now;
      f = config.f;
      budget = budget.instructions;
      every = config.every;
    }) }
{
    let mut hasher = Sha256::new();
    hasher.update(&[config.f]);
    hasher.update(&budget.instructions.to_be_bytes());
    hasher.update(&config.every.to_be_bytes());
    hasher.update(drawn);
    hasher.update(name);
    hasher.finalize()
}

/// The law that other terms are other bytes, before they are hashed.
pub fn terms_are_told()
    ensures { AreTold }
{}
