//! What shows of the scans, as they are counted.

ghost use Rattle.std.specs.Prelude.{◌≡◌, ◌<◌, ◌+◌, ◌-◌, ◌^◌, min, if◌then◌else◌};
ghost use Rattle.plc_status.specs.Scans.{after_scan, bucket_of, halt_notice, halt_place, halt_what, more, no_scan};
ghost use Rattle.plc_status.specs.Scans.{scan_words, with_interval, IsPlaced};
ghost use Rattle.plc_status.specs.declared.scans.ScanStatus.{ScanStatus as Scanned};

use crate::notice::Notice;
use il_model::Stop;

/// In microseconds: the greatest interval of each bucket but the last, which has those above.
pub const BOUNDS: [u64; 12] = [
    1_000, 2_500, 5_000, 10_000, 25_000, 50_000, 100_000, 250_000, 500_000, 1_000_000, 2_500_000,
    5_000_000,
];

/// So many buckets there are.
pub const BUCKETS: usize = 13;

/// The greatest place at which a scan is held or stopped.
const MOST_PLACE: u64 = 65_535;

/// So many words tell of the scans, beside their intervals.
pub(crate) const WORDS: usize = 9;

/// By what a scan was held or stopped, with its place: an instruction, from 0.
#[derive(Clone, Copy, Debug, PartialEq, Eq)]
pub enum Halt {
    Held(u16),
    Stopped(Stop, u16),
}

/// What came of a scan.
#[derive(Clone, Copy, Debug, PartialEq, Eq)]
pub struct Scan {
    /// When it began, in microseconds since the driver did.
    pub at: u64,
    /// It began a period late or more.
    pub is_late: bool,
    /// It released outputs: one that's held doesn't.
    pub is_released: bool,
    /// By what it was held or stopped, if it was.
    pub halt: Option<Halt>,
}

/// What shows of the scans. No count falls; one that is at its end, 2^64-1, stays there.
#[derive(Clone, Copy, Debug, PartialEq, Eq)]
pub struct ScanStatus {
    /// How many were answered.
    pub scans: u64,
    /// How many of them began a period late or more.
    pub late: u64,
    /// How many released outputs.
    pub releases: u64,
    /// When the last of these began, in microseconds since the driver did; 0 where there is none.
    pub released_at: u64,
    /// When the last scan began.
    pub scanned_at: u64,
    /// In microseconds, from the scan before the last one to the last one; 0 where there aren't two.
    pub interval: u64,
    /// All intervals so far, in microseconds.
    pub interval_sum: u64,
    /// How many of them were at most each bound, and above the one before; and how many were above all.
    pub interval_counts: [u64; BUCKETS],
    /// By what the last scan was held or stopped, if it was.
    pub halt: Option<Halt>,
}

impl Halt {
    /// What tells it.
    pub fn notice(self) -> Notice
        ensures { result ≡ halt_notice self }
    {
        match self {
            Halt::Held(position) => Notice::Held(position),
            Halt::Stopped(stop, position) => Notice::Stopped(stop, position),
        }
    }
}

/// One more, or the greatest number.
fn more(count: u64) -> u64
    ensures { result ≡ more count }
{
    count.saturating_add(1)
}

/// One more where this is so.
fn more_if(is_so: bool, count: u64) -> u64
    ensures { result ≡ (if is_so then more count else count) }
{
    if is_so { more(count) } else { count }
}

/// The bucket of an interval.
fn bucket_of(interval: u64) -> usize
    ensures value { result ≡ bucket_of interval }
    ensures within { result < 13 }
{
    BOUNDS.iter().take_while(|bound| **bound < interval).count()
}

impl ScanStatus {
    /// Nothing was scanned.
    pub fn none() -> ScanStatus
        ensures { result ≡ no_scan }
    {
        ScanStatus {
            scans: 0,
            late: 0,
            releases: 0,
            released_at: 0,
            scanned_at: 0,
            interval: 0,
            interval_sum: 0,
            interval_counts: [0; BUCKETS],
            halt: None,
        }
    }

    /// Counts the interval up to this moment.
    fn count_interval(&mut self, at: u64)
        ensures { self.new ≡ with_interval self.old at }
    {
        let interval = at.saturating_sub(self.scanned_at);
        let bucket = bucket_of(interval);
        self.interval_counts[bucket] = more(self.interval_counts[bucket]);
        self.interval_sum = self.interval_sum.saturating_add(interval);
        self.interval = interval;
    }

    /// Counts a scan.
    pub fn scanned(&mut self, scan: Scan)
        ensures { self.new ≡ after_scan self.old scan }
    {
        if self.scans > 0 {
            self.count_interval(scan.at);
        }
        self.scans = more(self.scans);
        self.late = more_if(scan.is_late, self.late);
        self.releases = more_if(scan.is_released, self.releases);
        if scan.is_released {
            self.released_at = scan.at;
        }
        self.scanned_at = scan.at;
        self.halt = scan.halt;
    }

    /// The words that are published for them, beside the counts of intervals.
    pub(crate) fn words(&self) -> [u64; WORDS]
        ensures { result ≡ scan_words self.now }
    {
        [
            self.scans,
            self.late,
            self.releases,
            self.released_at,
            self.scanned_at,
            self.interval,
            self.interval_sum,
            halt_what(self.halt),
            halt_place(self.halt),
        ]
    }

    /// What was published as these words, and these counts of intervals.
    pub(crate) fn from_words(words: [u64; WORDS], interval_counts: [u64; BUCKETS]) -> ScanStatus
        ensures { (scans : Scanned) → IsPlaced scans → words ≡ scan_words scans → interval_counts ≡ scans.interval_counts
            → result ≡ scans }
    {
        ScanStatus {
            scans: words[0],
            late: words[1],
            releases: words[2],
            released_at: words[3],
            scanned_at: words[4],
            interval: words[5],
            interval_sum: words[6],
            interval_counts,
            halt: halt_from(words[7], words[8]),
        }
    }
}

/// The word for what held or stopped a scan.
fn halt_what(halt: Option<Halt>) -> u64
    ensures { result ≡ halt_what halt }
{
    match halt {
        None => 0,
        Some(Halt::Held(_)) => 1,
        Some(Halt::Stopped(Stop::Overflow, _)) => 2,
        Some(Halt::Stopped(Stop::ZeroDivisor, _)) => 3,
        Some(Halt::Stopped(Stop::Budget, _)) => 4,
    }
}

/// The word for its place; 0 where there's none.
fn halt_place(halt: Option<Halt>) -> u64
    ensures { result ≡ halt_place halt }
{
    match halt {
        None => 0,
        Some(Halt::Held(position) | Halt::Stopped(_, position)) => u64::from(position),
    }
}

/// By what a scan was held or stopped that these words tell of, if it was.
fn halt_from(what: u64, place: u64) -> Option<Halt>
    ensures { (halt : _) → halt_place halt < 65536 → what ≡ halt_what halt → place ≡ halt_place halt → result ≡ halt }
{
    if place > MOST_PLACE {
        return None;
    }
    let position = place as u16;
    match what {
        1 => Some(Halt::Held(position)),
        2 => Some(Halt::Stopped(Stop::Overflow, position)),
        3 => Some(Halt::Stopped(Stop::ZeroDivisor, position)),
        4 => Some(Halt::Stopped(Stop::Budget, position)),
        _ => None,
    }
}
