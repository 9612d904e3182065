//! How far a majority has come.

ghost use Rattle.std.specs.Prelude.{◌≡◌, ◌≤◌, ◌==◌, ◌&&◌, not, nat_le, slice_index};
ghost use Rattle.vr_model.specs.Groups.{group_size, how_many};
ghost use Rattle.vr_model.specs.Choices as rules;

use vr_model::{Config, MOST_REPLICAS};

/// How many others have acknowledged up to this op number.
fn count(config: Config, number: u8, acknowledged: &[u64; MOST_REPLICAS], op_number: u64) -> u8
    ensures { result ≡ how_many (λ s. not (s == number) && nat_le op_number (slice_index acknowledged.now s))
        (group_size config.f) }
{
    let mut count = 0;
    for s in 0..config.group_size() {
        if s != number && op_number <= acknowledged[usize::from(s)] {
            count += 1;
        }
    }
    count
}

/// The greatest op number up to this one that f others have acknowledged.
pub fn reached(
    config: Config,
    number: u8,
    acknowledged: &[u64; MOST_REPLICAS],
    op_number: u64,
) -> u64
    ensures bound { result ≤ op_number }
    ensures reached { result ≡ rules.reached config.f number (λ s. slice_index acknowledged.now s) op_number }
{
    let mut reached = 0;
    for s in 0..config.group_size() {
        let place = acknowledged[usize::from(s)].min(op_number);
        if reached < place && config.f <= count(config, number, acknowledged, place) {
            reached = place;
        }
    }
    reached
}
