//! The records of a journal's file, and the sum over them.

ghost use Rattle.std.specs.Prelude.{◌≡◌, IfSome, IfNone};
ghost use Rattle.vr_journal.specs.Records.{code, sum_over};
ghost use Rattle.vr_journal.specs.declared.record.Kind.{Kind as KindOf};

/// What the sum over a file's records begins with.
pub const FIRST_SUM: u64 = 0xCBF2_9CE4_8422_2325;

/// What the sum is multiplied by at each byte: it's FNV-1a of 64 bits.
const PRIME: u64 = 0x0000_0100_0000_01B3;

/// What a record says.
#[derive(Clone, Copy, PartialEq, Eq)]
pub enum Kind {
    /// What a file begins with: its generation, and whose it is.
    Head,
    /// A start in which the file is in use: its number.
    Start,
    /// What the replica was when the file was begun.
    Base,
    /// An input that the replica took up since.
    Input,
    /// A time by the wall clock.
    Time,
}

/// A record of a file.
#[derive(Drop)]
pub struct Record {
    pub kind: Kind,
    pub bytes: Vec<u8>,
}

impl Kind {
    /// The byte that tells it.
    pub(crate) fn code(self) -> u8
        ensures { result ≡ code self }
    {
        match self {
            Kind::Head => 0,
            Kind::Start => 1,
            Kind::Base => 2,
            Kind::Input => 3,
            Kind::Time => 4,
        }
    }

    /// The kind that this byte tells, if there is one.
    pub(crate) fn of(byte: u8) -> Option<Kind>
        ensures found { IfSome result (λ kind. code kind ≡ byte) }
        ensures none { IfNone result ((kind : KindOf) → code kind ≡ byte → ⊥) }
    {
        match byte {
            0 => Some(Kind::Head),
            1 => Some(Kind::Start),
            2 => Some(Kind::Base),
            3 => Some(Kind::Input),
            4 => Some(Kind::Time),
            _ => None,
        }
    }
}

/// The sum that goes on over these bytes.
pub(crate) fn sum_over(sum: u64, bytes: &[u8]) -> u64
    ensures { result ≡ sum_over sum bytes.now }
{
    let mut behind = sum;
    for byte in bytes {
        behind = (behind ^ u64::from(*byte)).wrapping_mul(PRIME);
    }
    behind
}
