//! Replies as values, read and written (V1.1b3, sections 6.1 to 6.6, 6.11, 6.12, 6.16 and 6.17; exceptions, 7).
ghost use Rattle.std.specs.Prelude.{◌≡◌, ◌+◌, ◌*◌, ◌/◌, ◌∷◌, ◌<◌, ◌≤◌, ◌↔◌, length, true, Some, IfSome, IsSome, FitsSigned};
ghost use Rattle.std.specs.Bool.{OnTrue};
ghost use Rattle.std.specs.List.{AllByRecursion};
ghost use Rattle.std.specs.Int.{w16};
ghost use Rattle.modbus_wire.specs.declared.reply.Expected.TheVariants as expects;
ghost use Rattle.modbus_wire.specs.Packing.{bytes_of_bits, bytes_of_words};
ghost use Rattle.modbus_wire.specs.Requests.{counted};
ghost use Rattle.modbus_wire.specs.Replies.{data_reply, expected, suits_by, suits, bytes_by, code_by, reply_bytes};
ghost use Rattle.modbus_wire.specs.Replies.{is_failure, is_shown, done_by, reply_by, reply_of, FitsReply};
ghost use Rattle.modbus_wire.specs.Replies.{AreRepliesReadBack, IsFew};

use crate::adu::{Pdu, pdu_of};
use crate::function::has_bytes;
use crate::packing::{Bits, Words, put_bits, put_words, words_of};
use crate::request::Request;

/// What a server answers to a request.
#[derive(Drop)]
pub enum Reply {
    /// To 01 and 02: as many bits as were asked for.
    Bits(Bits),
    /// To 03, 04 and 23: as many words as were asked for.
    Words(Words),
    /// To 05, 06, 15, 16 and 22: the write is done.
    Done,
    /// It isn't done: the number of an exception, of which `Exception` has some.
    Failed(u8),
}

/// What answers a request that is done.
#[derive(Drop)]
pub(crate) enum Expected {
    ManyBits(usize),
    ManyWords(usize),
    Echo(Pdu),
}

/// A function code, a byte count and bits.
#[tactic(auto, using(crate::proofs::Lengths::length_bytes_of_bits))]
fn bits_shown(code: u8, bits: &[bool]) -> Pdu
    requires { length bits.now ≤ 2000 }
    ensures { result.items ≡ code ∷ counted (bytes_of_bits bits.now) }
{
    let mut reply = pdu_of(&[code, ((bits.len() + 7) / 8) as u8]);
    put_bits(&mut reply, bits);
    reply
}

/// A function code, a byte count and words.
#[tactic(auto, using(crate::proofs::Lengths::length_bytes_of_words))]
fn words_shown(code: u8, words: &[i16]) -> Pdu
    requires { length words.now ≤ 125 }
    ensures is { result.items ≡ code ∷ counted (bytes_of_words words.now) }
    ensures fits { AllByRecursion (FitsSigned w16) words.now }
{
    let mut reply = pdu_of(&[code, (2 * words.len()) as u8]);
    put_words(&mut reply, words);
    reply
}

/// The reply that shows bits to a PDU: its function code, a byte count and the bits.
pub fn bits_reply(pdu: &[u8], bits: &[bool]) -> Pdu
    requires { (0 < length pdu.now) × (length bits.now ≤ 2000) }
    ensures { result.items ≡ data_reply pdu.now (bytes_of_bits bits.now) }
{
    bits_shown(pdu[0], bits)
}

/// The reply that shows words to a PDU: its function code, a byte count and the words.
pub fn words_reply(pdu: &[u8], words: &[i16]) -> Pdu
    requires { (0 < length pdu.now) × (length words.now ≤ 125) }
    ensures { result.items ≡ data_reply pdu.now (bytes_of_words words.now) }
{
    words_shown(pdu[0], words)
}

/// Whether bytes are a function code, so many as a byte count, and as many bytes.
fn is_shown(code: u8, count: usize, bytes: &[u8]) -> bool
    requires { count < 65536 }
    ensures is { result ≡ is_shown code count bytes.now }
    ensures long { OnTrue result (length bytes.now ≡ 2 + count) }
{
    bytes.len() >= 2 && bytes[0] == code && has_bytes(bytes, 1, count)
}

fn is_failure(code: u8, bytes: &[u8]) -> bool
    ensures is { result ≡ is_failure code bytes.now }
    ensures long { OnTrue result (length bytes.now ≡ 2) }
{
    bytes.len() == 2 && bytes[0] == code | 0x80
}

fn bits_in(code: u8, quantity: usize, bytes: &[u8]) -> Option<Reply>
    requires { quantity ≤ 2000 }
    ensures { result ≡ done_by code (expects.ManyBits quantity) bytes.now }
{
    if is_shown(code, (quantity + 7) / 8, bytes) {
        Some(Reply::Bits(Bits::of_bytes(&bytes[2..], quantity)))
    } else {
        None
    }
}

fn words_in(code: u8, quantity: usize, bytes: &[u8]) -> Option<Reply>
    requires { quantity ≤ 125 }
    ensures { result ≡ done_by code (expects.ManyWords quantity) bytes.now }
{
    if is_shown(code, 2 * quantity, bytes) {
        Some(Reply::Words(words_of(&bytes[2..], quantity)))
    } else {
        None
    }
}

impl Expected {
    /// The reply that bytes are, if they are one.
    fn read(&self, code: u8, bytes: &[u8]) -> Option<Reply>
        requires { IsFew self.now }
        ensures { result ≡ reply_by code self.now bytes.now }
    {
        if is_failure(code, bytes) {
            return Some(Reply::Failed(bytes[1]));
        }
        match self {
            Expected::ManyBits(quantity) => bits_in(code, *quantity, bytes),
            Expected::ManyWords(quantity) => words_in(code, *quantity, bytes),
            Expected::Echo(echo) => {
                if bytes == echo.as_slice() {
                    Some(Reply::Done)
                } else {
                    None
                }
            }
        }
    }

    /// The bytes of a reply, if it suits.
    fn write(&self, code: u8, reply: &Reply) -> Option<Pdu>
        requires { IsFew self.now }
        ensures suits { IsSome result ↔ (suits_by self.now reply.now ≡ true) }
        ensures bytes { IfSome result (λ pdu. pdu.items ≡ bytes_by code self.now reply.now) }
        ensures fits { IfSome result (λ pdu. FitsReply reply.now) }
    {
        match (self, reply) {
            (_, Reply::Failed(number)) => Some(pdu_of(&[code | 0x80, *number])),
            (Expected::ManyBits(quantity), Reply::Bits(bits)) if bits.len() == *quantity => {
                Some(bits_shown(code, bits.values().as_slice()))
            }
            (Expected::ManyWords(quantity), Reply::Words(words)) if words.len() == *quantity => {
                Some(words_shown(code, words.as_slice()))
            }
            (Expected::Echo(echo), Reply::Done) => Some(pdu_of(echo.as_slice())),
            _ => None,
        }
    }
}

impl Reply {
    /// The reply that a PDU is to a lawful request. None if it's no reply to it: another function, a wrong length or
    /// byte count, another echo.
    pub fn read(request: &Request, pdu: &[u8]) -> Option<Reply>
        ensures { result ≡ reply_of request.now pdu.now }
    {
        if !request.is_lawful() {
            return None;
        }
        request.expected().read(request.function().code(), pdu)
    }

    /// Its PDU, if it's a reply to this request: as many values as were asked for.
    pub fn write(&self, request: &Request) -> Option<Pdu>
        ensures suits { IsSome result ↔ (suits request.now self.now ≡ true) }
        ensures bytes { IfSome result (λ pdu. pdu.items ≡ reply_bytes request.now self.now) }
        ensures back { IfSome result (λ pdu. reply_of request.now pdu.items ≡ Some self.now) }
    {
        if !request.is_lawful() {
            return None;
        }
        request.expected().write(request.function().code(), self)
    }
}

/// That a reply is read as what was written, whatever its values.
pub fn replies_are_read_back()
    ensures { AreRepliesReadBack }
{}
