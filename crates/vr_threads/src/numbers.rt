//! The numbers of a replica's starts.

ghost use Rattle.std.specs.Prelude.{◌≡◌, IfSome, MatchOption};
ghost use Rattle.vr_threads.specs.Numbering.{count_in, number_of, HasNumber};

/// So many numbers there are for the starts of a process.
const NUMBERS: u64 = 1 << 32;

/// The number of a start, of a process with this count, which had started its replica so often before. None where no
/// number is left for it.
pub(crate) fn number_of(count: u64, before: u64) -> Option<u64>
    ensures number { MatchOption result (HasNumber count before → ⊥)
        (λ number. HasNumber count before × (number ≡ number_of count before)) }
    ensures first { IfSome result (λ number. number ≡ 1 → (count ≡ 1) × (before ≡ 0)) }
{
    if count == 0 || count >= NUMBERS || before >= NUMBERS {
        return None;
    }
    if count == 1 && before == 0 {
        return Some(1);
    }
    Some(count * NUMBERS + before)
}

/// How many starts were counted by the one with this number: fewer than 2^32, so a number that's no greater is the
/// count itself, of a store that counts each.
pub(crate) fn count_in(number: u64) -> u64
    ensures { result ≡ count_in number }
{
    if number < NUMBERS {
        number
    } else {
        number / NUMBERS
    }
}
