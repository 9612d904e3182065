//! Bits and words as bytes.
ghost use Rattle.std.specs.Prelude.{◌≡◌, ◌+◌, ◌*◌, ◌/◌, ◌≤◌, ◌<◌, ◌++◌, ◌∷◌, [], Bool, List, length, FitsSigned};
ghost use Rattle.std.specs.List.{AllByRecursion};
ghost use Rattle.std.specs.Int.{w16};
ghost use Rattle.modbus_wire.specs.Packing.{bit_value, byte_of, bytes_of_bits, bit_of, bits_of_bytes};
ghost use Rattle.modbus_wire.specs.Packing.{bytes_of_words, word_of, words_of_bytes};
ghost use Rattle.arrayvec.specs.ArrayVec.{array_vec_len};

use crate::adu::{Pdu, pdu_of};
use crate::header::number_at;
use arrayvec::ArrayVec;
use std::marker::Model;

/// Bits of a request or of a reply, 2000 at most: eight to a byte, so that they take no more room than words do.
#[derive(Drop)]
pub struct Bits {
    bytes: Pdu,
    count: u16,
}

impl Model for Bits {
    ghost Value = { List Bool };

    ghost view = { λ b. bits_of_bytes b.bytes.items b.count };

    ghost invariant = { λ b. (b.count ≤ 2000) × (b.count ≤ 8 * length b.bytes.items) };
}

/// Words of a request or of a reply.
pub type Words = ArrayVec<i16, 125>;

fn bit_value(bits: &[bool], place: usize) -> u8
    ensures is { result ≡ bit_value bits.now place }
    ensures small { result ≤ 1 }
{
    if place < bits.len() && bits[place] {
        1
    } else {
        0
    }
}

fn byte_of(bits: &[bool], place: usize) -> u8
    requires { place < 65536 }
    ensures { result ≡ byte_of bits.now place }
{
    bit_value(bits, place)
        + 2 * bit_value(bits, place + 1)
        + 4 * bit_value(bits, place + 2)
        + 8 * bit_value(bits, place + 3)
        + 16 * bit_value(bits, place + 4)
        + 32 * bit_value(bits, place + 5)
        + 64 * bit_value(bits, place + 6)
        + 128 * bit_value(bits, place + 7)
}

/// Adds these bits as bytes, the lowest first, padded with 0.
pub(crate) fn put_bits(pdu: &mut Pdu, bits: &[bool])
    requires { array_vec_len pdu.old + (length bits.now + 7) / 8 ≤ 253 }
    ensures { pdu.new.items ≡ pdu.old.items ++ bytes_of_bits bits.now }
{
    for k in 0..(bits.len() + 7) / 8 {
        pdu.push(byte_of(bits, 8 * k));
    }
}

/// Adds these words, the high byte of each first.
pub(crate) fn put_words(pdu: &mut Pdu, words: &[i16])
    requires { array_vec_len pdu.old + 2 * length words.now ≤ 253 }
    ensures is { pdu.new.items ≡ pdu.old.items ++ bytes_of_words words.now }
    ensures fits { AllByRecursion (FitsSigned w16) words.now }
{
    for word in words {
        let [high, low] = word.to_be_bytes();
        pdu.push(high);
        pdu.push(low);
    }
}

fn bit_of(bytes: &[u8], n: usize) -> bool
    requires { n < 8 * length bytes.now }
    ensures { result ≡ bit_of bytes.now n }
{
    (bytes[n / 8] >> (n % 8)) % 2 == 1
}

/// So many bits of these bytes, the lowest first.
pub fn bits_of(bytes: &[u8], count: usize) -> ArrayVec<bool, 2000>
    requires { (count ≤ 2000) × (count ≤ 8 * length bytes.now) }
    ensures { result.items ≡ bits_of_bytes bytes.now count }
{
    let mut bits = ArrayVec::new();
    for n in 0..count {
        bits.push(bit_of(bytes, n));
    }
    bits
}

impl Bits {
    /// These bits, of which there are 2000 at most.
    #[tactic(auto, using(crate::proofs::Cells::bits_back, crate::proofs::Lengths::length_bytes_of_bits))]
    pub fn new(bits: &[bool]) -> Bits
        requires { length bits.now ≤ 2000 }
        ensures { result ≡ bits.now }
    {
        let mut bytes = Pdu::new();
        put_bits(&mut bytes, bits);
        Bits {
            bytes,
            count: bits.len() as u16,
        }
    }

    /// So many bits of these bytes, the lowest first.
    pub(crate) fn of_bytes(bytes: &[u8], count: usize) -> Bits
        requires { (count ≤ 2000) × (count ≤ 8 * length bytes.now) × (length bytes.now ≤ 253) }
        ensures { result ≡ bits_of_bytes bytes.now count }
    {
        Bits {
            bytes: pdu_of(bytes),
            count: count as u16,
        }
    }

    /// How many there are.
    #[tactic(auto, using(crate::proofs::Lengths::length_bits_of_bytes))]
    pub fn len(&self) -> usize
        ensures { result ≡ length self.now }
    {
        usize::from(self.count)
    }

    /// Each of them by itself.
    pub fn values(&self) -> ArrayVec<bool, 2000>
        ensures { result.items ≡ self.now }
    {
        bits_of(self.bytes.as_slice(), usize::from(self.count))
    }
}

fn word_of(bytes: &[u8], k: usize) -> i16
    requires { 2 * k + 1 < length bytes.now }
    ensures { result ≡ word_of bytes.now k }
{
    number_at(bytes, 2 * k).cast_signed()
}

/// So many words of these bytes.
pub fn words_of(bytes: &[u8], count: usize) -> Words
    requires { (count ≤ 125) × (2 * count ≤ length bytes.now) }
    ensures { result.items ≡ words_of_bytes bytes.now count }
{
    let mut words = ArrayVec::new();
    for k in 0..count {
        words.push(word_of(bytes, k));
    }
    words
}
