//! Requests as values, read and written (V1.1b3, sections 6.1 to 6.6, 6.11, 6.12, 6.16 and 6.17).
ghost use Rattle.std.specs.Prelude.{◌≡◌, ◌+◌, ◌*◌, ◌∷◌, ◌++◌, ◌≤◌, ◌↔◌, length, true, Ok, IfSome, IsSome};
ghost use Rattle.std.specs.Prelude.{FitsSigned};
ghost use Rattle.std.specs.List.{AllByRecursion};
ghost use Rattle.std.specs.Int.{w16};
ghost use Rattle.arrayvec.specs.ArrayVec.{array_vec_len};
ghost use Rattle.byteorder.specs.Endian.{big_bytes};
ghost use Rattle.modbus_wire.specs.declared.request.Request.TheVariants as requests;
ghost use Rattle.modbus_wire.specs.Functions.{HasLength, HasRoom};
ghost use Rattle.modbus_wire.specs.Packing.{bytes_of_words};
ghost use Rattle.modbus_wire.specs.Requests.{function_by, is_count, is_request, two_numbers, counted, bit_number, request_bytes};
ghost use Rattle.modbus_wire.specs.Replies.{expected, IsFew};
ghost use Rattle.modbus_wire.specs.Requests.{value_of, request_of, HasRanges, AreReadBack};

use crate::adu::{Pdu, pdu_of};
use crate::exception::Exception;
use crate::function::{Function, Table};
use crate::header::number_at;
use crate::packing::{Bits, Words, put_bits, put_words, words_of};
use crate::reply::Expected;

/// A request. An address counts from 0, as it does in a PDU; words are in two's complement.
#[derive(Drop)]
pub enum Request {
    /// 01 and 02: so many bits, 1 to 2000, from an address on.
    ReadBits {
        table: Table,
        address: u16,
        quantity: u16,
    },
    /// 03 and 04: so many words, 1 to 125, from an address on.
    ReadWords {
        table: Table,
        address: u16,
        quantity: u16,
    },
    /// 05.
    WriteBit {
        address: u16,
        value: bool,
    },
    /// 06.
    WriteWord {
        address: u16,
        value: i16,
    },
    /// 15: 1 to 1968 bits, from an address on.
    WriteBits {
        address: u16,
        values: Bits,
    },
    /// 16: 1 to 123 words, from an address on.
    WriteWords {
        address: u16,
        values: Words,
    },
    /// 22: the word keeps its bits where `and_mask` has a 1, and has those of `or_mask` elsewhere.
    MaskWord {
        address: u16,
        and_mask: u16,
        or_mask: u16,
    },
    /// 23: 1 to 121 words are written from `write_address` on; then 1 to 125 are read from `address` on.
    WriteReadWords {
        address: u16,
        quantity: u16,
        write_address: u16,
        values: Words,
    },
}

/// A function code and two numbers.
fn head(code: u8, address: u16, number: u16) -> Pdu
    ensures { result.items ≡ code ∷ two_numbers address number }
{
    let [address_high, address_low] = address.to_be_bytes();
    let [number_high, number_low] = number.to_be_bytes();
    pdu_of(&[code, address_high, address_low, number_high, number_low])
}

fn put_number(pdu: &mut Pdu, number: u16)
    requires { array_vec_len pdu.old ≤ 251 }
    ensures { pdu.new.items ≡ pdu.old.items ++ big_bytes 2 number }
{
    let [high, low] = number.to_be_bytes();
    pdu.push(high);
    pdu.push(low);
}

/// Adds a byte count and these words.
#[tactic(auto, using(crate::proofs::Lengths::length_bytes_of_words))]
fn put_counted(pdu: &mut Pdu, words: &[i16])
    requires { (array_vec_len pdu.old + 2 * length words.now ≤ 252) × (length words.now ≤ 125) }
    ensures fits { AllByRecursion (FitsSigned w16) words.now }
    ensures is { pdu.new.items ≡ pdu.old.items ++ counted (bytes_of_words words.now) }
{
    pdu.push((2 * words.len()) as u8);
    put_words(pdu, words);
}

fn is_count(most: usize, count: usize) -> bool
    ensures { result ≡ is_count most count }
{
    1 <= count && count <= most
}

fn bit_number(value: bool) -> u16
    ensures { result ≡ bit_number value }
{
    if value { 0xff00 } else { 0 }
}

/// The request that lays two masks on a word.
fn mask_request(address: u16, and_mask: u16, or_mask: u16) -> Pdu
    ensures { result.items ≡ request_bytes (requests.MaskWord address and_mask or_mask) }
{
    let mut pdu = head(22, address, and_mask);
    put_number(&mut pdu, or_mask);
    pdu
}

/// The request that writes these bits.
#[tactic(auto, using(crate::proofs::Lengths::length_bytes_of_bits))]
fn bits_request(address: u16, values: &Bits) -> Pdu
    requires { length values.now ≤ 1968 }
    ensures { result.items ≡ request_bytes (requests.WriteBits address values.now) }
{
    let mut pdu = head(15, address, values.len() as u16);
    pdu.push(((values.len() + 7) / 8) as u8);
    put_bits(&mut pdu, values.values().as_slice());
    pdu
}

/// The request that writes these words.
fn words_request(address: u16, values: &Words) -> Pdu
    requires { length values.now.items ≤ 123 }
    ensures is { result.items ≡ request_bytes (requests.WriteWords address values.now) }
    ensures fits { AllByRecursion (FitsSigned w16) values.now.items }
{
    let mut pdu = head(16, address, values.len() as u16);
    put_counted(&mut pdu, values.as_slice());
    pdu
}

/// The request that writes these words, and then reads so many.
fn write_read_request(address: u16, quantity: u16, write_address: u16, values: &Words) -> Pdu
    requires { length values.now.items ≤ 121 }
    ensures is { result.items ≡ request_bytes (requests.WriteReadWords address quantity write_address values.now) }
    ensures fits { AllByRecursion (FitsSigned w16) values.now.items }
{
    let mut pdu = head(23, address, quantity);
    put_number(&mut pdu, write_address);
    put_number(&mut pdu, values.len() as u16);
    put_counted(&mut pdu, values.as_slice());
    pdu
}

/// The request that a lawful PDU of this function is.
fn value_of(function: Function, pdu: &[u8]) -> Request
    requires { HasLength function pdu.now × HasRoom function pdu.now }
    ensures { result ≡ value_of function pdu.now }
{
    let address = number_at(pdu, 1);
    match function {
        Function::ReadBits(table) => Request::ReadBits {
            table,
            address,
            quantity: number_at(pdu, 3),
        },
        Function::ReadWords(table) => Request::ReadWords {
            table,
            address,
            quantity: number_at(pdu, 3),
        },
        Function::WriteBit => Request::WriteBit {
            address,
            value: number_at(pdu, 3) == 0xff00,
        },
        Function::WriteWord => Request::WriteWord {
            address,
            value: number_at(pdu, 3).cast_signed(),
        },
        Function::WriteBits => Request::WriteBits {
            address,
            values: Bits::of_bytes(&pdu[6..], usize::from(number_at(pdu, 3))),
        },
        Function::WriteWords => Request::WriteWords {
            address,
            values: words_of(&pdu[6..], usize::from(number_at(pdu, 3))),
        },
        Function::MaskWord => Request::MaskWord {
            address,
            and_mask: number_at(pdu, 3),
            or_mask: number_at(pdu, 5),
        },
        Function::WriteReadWords => Request::WriteReadWords {
            address,
            quantity: number_at(pdu, 3),
            write_address: number_at(pdu, 5),
            values: words_of(&pdu[10..], usize::from(number_at(pdu, 7))),
        },
    }
}

impl Request {
    /// The function that it asks for.
    pub fn function(&self) -> Function
        ensures { result ≡ function_by self.now }
    {
        match self {
            Request::ReadBits { table, .. } => Function::ReadBits(*table),
            Request::ReadWords { table, .. } => Function::ReadWords(*table),
            Request::WriteBit { .. } => Function::WriteBit,
            Request::WriteWord { .. } => Function::WriteWord,
            Request::WriteBits { .. } => Function::WriteBits,
            Request::WriteWords { .. } => Function::WriteWords,
            Request::MaskWord { .. } => Function::MaskWord,
            Request::WriteReadWords { .. } => Function::WriteReadWords,
        }
    }

    /// Whether its quantities are at least 1 and at most what a PDU has room for.
    pub fn is_lawful(&self) -> bool
        ensures { result ≡ is_request self.now }
    {
        match self {
            Request::ReadBits { quantity, .. } => is_count(2000, usize::from(*quantity)),
            Request::ReadWords { quantity, .. } => is_count(125, usize::from(*quantity)),
            Request::WriteBits { values, .. } => is_count(1968, values.len()),
            Request::WriteWords { values, .. } => is_count(123, values.len()),
            Request::WriteReadWords {
                quantity,
                values,
                ..
            } => is_count(125, usize::from(*quantity)) && is_count(121, values.len()),
            Request::WriteBit { .. } | Request::WriteWord { .. } | Request::MaskWord { .. } => true,
        }
    }

    fn bytes(&self) -> Pdu
        requires { is_request self.now ≡ true }
        ensures is { result.items ≡ request_bytes self.now }
        ensures ranges { HasRanges self.now }
    {
        match self {
            Request::ReadBits {
                table,
                address,
                quantity,
            } => head(Function::ReadBits(*table).code(), *address, *quantity),
            Request::ReadWords {
                table,
                address,
                quantity,
            } => head(Function::ReadWords(*table).code(), *address, *quantity),
            Request::WriteBit { address, value } => head(5, *address, bit_number(*value)),
            Request::WriteWord { address, value } => head(6, *address, value.cast_unsigned()),
            Request::WriteBits { address, values } => bits_request(*address, values),
            Request::WriteWords { address, values } => words_request(*address, values),
            Request::MaskWord {
                address,
                and_mask,
                or_mask,
            } => mask_request(*address, *and_mask, *or_mask),
            Request::WriteReadWords {
                address,
                quantity,
                write_address,
                values,
            } => write_read_request(*address, *quantity, *write_address, values),
        }
    }

    /// What answers it where it's done.
    pub(crate) fn expected(&self) -> Expected
        requires { is_request self.now ≡ true }
        ensures is { result ≡ expected self.now }
        ensures few { IsFew result }
    {
        match self {
            Request::ReadBits { quantity, .. } => Expected::ManyBits(usize::from(*quantity)),
            Request::ReadWords { quantity, .. } | Request::WriteReadWords { quantity, .. } => {
                Expected::ManyWords(usize::from(*quantity))
            }
            Request::WriteBit { address, value } => {
                Expected::Echo(head(5, *address, bit_number(*value)))
            }
            Request::WriteWord { address, value } => {
                Expected::Echo(head(6, *address, value.cast_unsigned()))
            }
            Request::WriteBits { address, values } => {
                Expected::Echo(head(15, *address, values.len() as u16))
            }
            Request::WriteWords { address, values } => {
                Expected::Echo(head(16, *address, values.len() as u16))
            }
            Request::MaskWord {
                address,
                and_mask,
                or_mask,
            } => Expected::Echo(mask_request(*address, *and_mask, *or_mask)),
        }
    }

    /// Its PDU, if it is lawful.
    pub fn write(&self) -> Option<Pdu>
        ensures lawful { IsSome result ↔ (is_request self.now ≡ true) }
        ensures bytes { IfSome result (λ pdu. pdu.items ≡ request_bytes self.now) }
        ensures back { IfSome result (λ pdu. request_of pdu.items ≡ Ok self.now) }
    {
        if self.is_lawful() {
            Some(self.bytes())
        } else {
            None
        }
    }

    /// The request that a PDU is. The exception otherwise is `IllegalFunction` for a code that isn't known here, and
    /// `IllegalDataValue` for a wrong length, quantity, byte count or value of a bit. Bits of the last byte past the
    /// quantity say nothing.
    pub fn read(pdu: &[u8]) -> Result<Request, Exception>
        ensures { result ≡ request_of pdu.now }
    {
        if pdu.is_empty() {
            return Err(Exception::IllegalFunction);
        }
        let Some(function) = Function::of_code(pdu[0]) else {
            return Err(Exception::IllegalFunction);
        };
        if !function.is_lawful(pdu) {
            return Err(Exception::IllegalDataValue);
        }
        Ok(value_of(function, pdu))
    }
}

/// That a request is read as what was written, whatever its values.
pub fn requests_are_read_back()
    ensures { AreReadBack }
{}
