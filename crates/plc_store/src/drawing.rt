//! The number by which a store is known.

ghost use Rattle.std.specs.Prelude.{◌≡◌, ◌<◌, IfErr, IfOk};
ghost use Rattle.plc_store.specs.declared.judging.Refusal.TheVariants.{Random};

use crate::judging::Refusal;
use std::random::RandomSource;

/// A number that is drawn at random, never 0. It's `Random` where the system gives no random bytes.
pub fn draw<R: RandomSource>(rt: &R) -> Result<u64, Refusal>
    ensures drawn { IfOk result (λ number. 0 < number) }
    ensures refused { IfErr result (λ e. e ≡ Random) }
{
    let mut bytes = [0u8; 8];
    match rt.fill_bytes(&mut bytes) {
        Ok(()) => Ok(u64::from_be_bytes(bytes).max(1)),
        Err(_) => Err(Refusal::Random),
    }
}
