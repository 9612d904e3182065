//! What shows of a machine of a group.

ghost use Rattle.std.specs.Prelude.{◌≡◌, ◌<◌, Option};
ghost use Rattle.plc_status.specs.Published.{IsCounted, course_word, machine_words, majority_word};
ghost use Rattle.plc_status.specs.declared.machine.MachineStatus.{MachineStatus as Machine};

/// So many words tell of a machine, or that there is none.
pub(crate) const WORDS: usize = 6;

/// What shows of a machine of a group.
#[derive(Clone, Copy, Debug, PartialEq, Eq)]
pub struct MachineStatus {
    /// The epoch of the group in which it takes part.
    pub epoch: u64,
    /// It drives: the scans of the group are its own, and it shows outputs.
    pub is_driving: bool,
    /// So many other machines it hears: each is connected, and was heard of a moment ago.
    pub heard: u8,
    /// So many other machines the group has.
    pub others: u8,
    /// It hears enough of them for a majority with it, or did a few seconds ago.
    pub has_majority: bool,
    /// So many connections with them ended by a record that was forged or damaged.
    pub forged: u64,
}

/// The word that tells whether a machine drives.
fn course_word(is_driving: bool) -> u64
    ensures { result ≡ course_word is_driving }
{
    if is_driving { 2 } else { 1 }
}

/// The word that tells whether it has a majority.
fn majority_word(is_majority: bool) -> u64
    ensures { result ≡ majority_word is_majority }
{
    if is_majority { 1 } else { 0 }
}

/// The words that are published for it, or for none.
pub(crate) fn machine_words(machine: Option<MachineStatus>) -> [u64; WORDS]
    ensures { result ≡ machine_words machine }
{
    match machine {
        None => [0, 0, 0, 0, 0, 0],
        Some(machine) => [
            course_word(machine.is_driving),
            machine.epoch,
            u64::from(machine.heard),
            u64::from(machine.others),
            majority_word(machine.has_majority),
            machine.forged,
        ],
    }
}

/// The byte that was published as this word.
fn byte_in(word: u64) -> u8
    ensures { word < 256 → result ≡ word }
{
    u8::try_from(word).unwrap_or(u8::MAX)
}

/// What was published as these words.
pub(crate) fn machine_in(words: [u64; WORDS]) -> Option<MachineStatus>
    ensures { (machine : Option Machine) → IsCounted machine → words ≡ machine_words machine → result ≡ machine }
{
    let (epoch, forged) = (words[1], words[5]);
    let (heard, others) = (byte_in(words[2]), byte_in(words[3]));
    let has_majority = words[4] == 1;
    match words[0] {
        1 => Some(MachineStatus {
            epoch,
            is_driving: false,
            heard,
            others,
            has_majority,
            forged,
        }),
        2 => Some(MachineStatus {
            epoch,
            is_driving: true,
            heard,
            others,
            has_majority,
            forged,
        }),
        _ => None,
    }
}
