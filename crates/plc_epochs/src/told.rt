//! What machines of a group have told, one by one.

ghost use Rattle.std.specs.Prelude.{◌≡◌, ◌<◌, None, Some, count_by, is_some, slice_set};
ghost use Rattle.vr_model.specs.Groups.{most_replicas};
ghost use Rattle.plc_epochs.specs.Epochs.{has_told, is_recent, is_recent_of, nothing_told};

use vr_model::MOST_REPLICAS;

/// Milliseconds since a beginning of the machine's own, by a clock that goes on while the machine is suspended.
pub type Moment = u64;

/// Of each machine of a group a nonce that it told, or when something came of it, if anything did.
pub type Told = [Option<u64>; MOST_REPLICAS];

/// What was told within this time is recent, in milliseconds.
pub const RECENT: u64 = 1000;

/// Nothing of any machine.
pub(crate) fn nothing_told() -> Told
    ensures { result ≡ nothing_told }
{
    [None; MOST_REPLICAS]
}

/// This, too, of a machine.
pub(crate) fn with_told(mut told: Told, machine: u8, word: u64) -> Told
    requires { machine < most_replicas }
    ensures { result ≡ slice_set told machine (Some word) }
{
    told[usize::from(machine)] = Some(word);
    told
}

/// Nothing of this machine any more.
pub(crate) fn without_told(mut told: Told, machine: u8) -> Told
    requires { machine < most_replicas }
    ensures { result ≡ slice_set told machine None }
{
    told[usize::from(machine)] = None;
    told
}

/// Of how many machines there is something.
pub(crate) fn count(told: &Told) -> usize
    ensures { result ≡ count_by is_some told.now }
{
    told.iter().filter(|word| word.is_some()).count()
}

/// Whether a machine told this.
pub(crate) fn has_told(told: &Told, machine: u8, word: u64) -> bool
    ensures { result ≡ has_told told.now machine word }
{
    match told.get(usize::from(machine)) {
        Some(Some(said)) => *said == word,
        _ => false,
    }
}

/// Whether it came within the last second.
fn is_recent(came: Option<Moment>, now: Moment) -> bool
    ensures { result ≡ is_recent now came }
{
    match came {
        Some(came) => now.saturating_sub(came) <= RECENT,
        None => false,
    }
}

/// Of how many machines something came within the last second.
pub(crate) fn count_recent(told: &Told, now: Moment) -> usize
    ensures { result ≡ count_by (is_recent now) told.now }
{
    told.iter().filter(|came| is_recent(**came, now)).count()
}

/// Whether something of this machine came within the last second.
pub(crate) fn is_recent_of(told: &Told, machine: u8, now: Moment) -> bool
    ensures { result ≡ is_recent_of told.now machine now }
{
    match told.get(usize::from(machine)) {
        Some(came) => is_recent(*came, now),
        None => false,
    }
}
