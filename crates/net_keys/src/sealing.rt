//! Records with their sums.

ghost use Rattle.std.specs.Prelude.{◌≡◌, ◌-◌, ◌^◌, ◌↔◌, true, IfOk, OnOk, OnErr};
ghost use Rattle.net_keys.specs.Sealing.{Opens, Seals, side_byte, sum_of};
ghost use Rattle.net_keys.specs.declared.sealing.RecordFault.TheVariants.{Forged, Last};

use crate::key::front;
use crate::sum_key::SumKey;
use thiserror::Error;

/// So many bytes has a sum.
pub const SUM: usize = 16;

/// An end of a connection, by who began it.
#[derive(Clone, Copy, Debug, PartialEq, Eq)]
pub enum Side {
    /// It dialled the other end.
    Dialler,
    /// It was dialled.
    Listener,
}

/// Why a record isn't sealed, or isn't opened.
#[derive(Clone, Copy, Debug, PartialEq, Eq, Error)]
pub enum RecordFault {
    /// Its sum is another than that of this body at this place: it was made without the key, or changed on its way, or
    /// is of another place or another connection.
    #[error("forged or damaged record")]
    Forged,
    /// No number is left.
    #[error("no number left")]
    Last,
}

fn side_byte(side: Side) -> u8
    ensures { result ≡ side_byte side }
{
    match side {
        Side::Dialler => 0,
        Side::Listener => 1,
    }
}

/// The sum of a record: of the end that seals it, its number, and its body.
pub(crate) fn sum_of(key: &SumKey, side: Side, number: u64, body: &[u8]) -> [u8; SUM]
    ensures { result ≡ sum_of key.now side number body.now }
{
    let mut hmac = key.begin();
    hmac.update(&[side_byte(side)]);
    hmac.update(&number.to_be_bytes());
    hmac.update(body);
    front(&hmac.finalize())
}

/// Whether two sums are one. Each byte is looked at, whatever the others are, so the time that it takes tells nothing.
fn is_one_sum(sum: &[u8; SUM], other: &[u8; SUM]) -> bool
    ensures { (result ≡ true) ↔ (other.now ≡ sum.now) }
{
    let mut are_alike = true;
    for at in 0..SUM {
        are_alike = are_alike & (sum[at] == other[at]);
    }
    are_alike
}

/// What seals the records that go one way over a connection, each under the next number.
#[derive(Drop)]
pub struct Sealer {
    pub(crate) key: SumKey,
    pub(crate) side: Side,
    pub(crate) next: u64,
}

impl Sealer {
    /// The sum of the next record, which has this body. It fails only where no number is left, and changes nothing
    /// then.
    pub fn seal(&mut self, body: &[u8]) -> Result<[u8; SUM], RecordFault>
        ensures sealed { IfOk result (λ sum. Seals self.old self.new body.now sum) }
        ensures err { OnErr result (result ≡ Err Last) }
        ensures last { OnErr result (self.old.next ≡ 2 ^ 64 - 1) }
        ensures same { OnErr result (self.new ≡ self.old) }
    {
        let Some(next) = self.next.checked_add(1) else {
            return Err(RecordFault::Last);
        };
        let sum = sum_of(&self.key, self.side, self.next, body);
        self.next = next;
        Ok(sum)
    }
}

/// What opens the records that come the other way, each under the next number.
#[derive(Drop)]
pub struct Opener {
    pub(crate) key: SumKey,
    pub(crate) side: Side,
    pub(crate) next: u64,
}

impl Opener {
    /// Whether the next record has this body and this sum. It changes nothing where that's refused.
    pub fn open(&mut self, body: &[u8], sum: &[u8; SUM]) -> Result<(), RecordFault>
        ensures opened { OnOk result (Opens self.old self.new body.now sum.now) }
        ensures forged { result ≡ Err Forged → sum.now ≡ sum_of self.old.key self.old.side self.old.next body.now → ⊥ }
        ensures last { result ≡ Err Last → self.old.next ≡ 2 ^ 64 - 1 }
        ensures same { OnErr result (self.new ≡ self.old) }
    {
        if !is_one_sum(&sum_of(&self.key, self.side, self.next, body), sum) {
            return Err(RecordFault::Forged);
        }
        let Some(next) = self.next.checked_add(1) else {
            return Err(RecordFault::Last);
        };
        self.next = next;
        Ok(())
    }
}
