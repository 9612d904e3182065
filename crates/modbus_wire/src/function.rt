//! Functions by their codes, and the shape of their requests (V1.1b3, section 6).
ghost use Rattle.std.specs.Prelude.{◌≡◌, ◌+◌, ◌<◌, ◌≤◌, length};
ghost use Rattle.std.specs.Bool.{OnTrue};
ghost use Rattle.modbus_wire.specs.declared.function.Function.TheVariants.{WriteReadWords};
ghost use Rattle.modbus_wire.specs.Functions.{function_of, code_of, quantity_of, is_quantity, has_bytes, is_lawful};
ghost use Rattle.modbus_wire.specs.Functions.{HasLength, HasRoom};

use crate::header::number_at;

/// Which tables of the data model a function reads (V1.1b3, section 4.3).
#[derive(Clone, Copy, Debug, PartialEq, Eq)]
pub enum Table {
    /// Those that a client may write, too: the coils and the holding registers.
    ReadWrite,
    /// Those that it only reads: the discrete inputs and the input registers.
    ReadOnly,
}

/// A function that is known here. A bit is a coil or a discrete input, a word a register of 16 bits.
#[derive(Clone, Copy, Debug, PartialEq, Eq)]
pub enum Function {
    /// 01, Read Coils; 02, Read Discrete Inputs.
    ReadBits(Table),
    /// 03, Read Holding Registers; 04, Read Input Registers.
    ReadWords(Table),
    /// 05, Write Single Coil.
    WriteBit,
    /// 06, Write Single Register.
    WriteWord,
    /// 15, Write Multiple Coils.
    WriteBits,
    /// 16, Write Multiple Registers.
    WriteWords,
    /// 22, Mask Write Register.
    MaskWord,
    /// 23, Read/Write Multiple Registers, which writes first.
    WriteReadWords,
}

fn is_quantity(pdu: &[u8], at: usize, most: u16) -> bool
    requires { at + 2 ≤ length pdu.now }
    ensures { result ≡ is_quantity at most pdu.now }
{
    let quantity = number_at(pdu, at);
    1 <= quantity && quantity <= most
}

/// Whether a byte count stands at a place, and behind it so many bytes.
pub(crate) fn has_bytes(pdu: &[u8], at: usize, count: usize) -> bool
    requires { (at < length pdu.now) × (at < 16) × (count < 65536) }
    ensures { result ≡ has_bytes at count pdu.now }
{
    usize::from(pdu[at]) == count && pdu.len() == at + 1 + count
}

/// What is read, what is written, and its byte count.
fn is_write_read(pdu: &[u8]) -> bool
    ensures is { result ≡ is_lawful WriteReadWords pdu.now }
    ensures shape { OnTrue result (HasLength WriteReadWords pdu.now) }
    ensures room { OnTrue result (HasRoom WriteReadWords pdu.now) }
{
    pdu.len() >= 10
        && is_quantity(pdu, 3, 125)
        && is_quantity(pdu, 7, 121)
        && has_bytes(pdu, 9, 2 * usize::from(number_at(pdu, 7)))
}

impl Function {
    /// The function of a code, if it is known here.
    pub fn of_code(code: u8) -> Option<Function>
        ensures { result ≡ function_of code }
    {
        match code {
            1 => Some(Function::ReadBits(Table::ReadWrite)),
            2 => Some(Function::ReadBits(Table::ReadOnly)),
            3 => Some(Function::ReadWords(Table::ReadWrite)),
            4 => Some(Function::ReadWords(Table::ReadOnly)),
            5 => Some(Function::WriteBit),
            6 => Some(Function::WriteWord),
            15 => Some(Function::WriteBits),
            16 => Some(Function::WriteWords),
            22 => Some(Function::MaskWord),
            23 => Some(Function::WriteReadWords),
            _ => None,
        }
    }

    /// The code of the function.
    pub fn code(self) -> u8
        ensures { result ≡ code_of self }
    {
        match self {
            Function::ReadBits(Table::ReadWrite) => 1,
            Function::ReadBits(Table::ReadOnly) => 2,
            Function::ReadWords(Table::ReadWrite) => 3,
            Function::ReadWords(Table::ReadOnly) => 4,
            Function::WriteBit => 5,
            Function::WriteWord => 6,
            Function::WriteBits => 15,
            Function::WriteWords => 16,
            Function::MaskWord => 22,
            Function::WriteReadWords => 23,
        }
    }

    /// Whether a PDU that begins with the code of this function is a request: by its length, quantity, byte count or
    /// value of a bit. Addresses are for the server to judge.
    pub fn is_lawful(self, pdu: &[u8]) -> bool
        ensures is { result ≡ is_lawful self pdu.now }
        ensures shape { OnTrue result (HasLength self pdu.now) }
        ensures room { OnTrue result (HasRoom self pdu.now) }
        ensures long { OnTrue result (5 ≤ length pdu.now) }
    {
        match self {
            Function::ReadBits(_) => pdu.len() == 5 && is_quantity(pdu, 3, 2000),
            Function::ReadWords(_) => pdu.len() == 5 && is_quantity(pdu, 3, 125),
            Function::WriteBit => pdu.len() == 5 && matches!(number_at(pdu, 3), 0 | 0xff00),
            Function::WriteWord => pdu.len() == 5,
            Function::WriteBits => {
                pdu.len() >= 6
                    && is_quantity(pdu, 3, 1968)
                    && has_bytes(pdu, 5, (usize::from(number_at(pdu, 3)) + 7) / 8)
            }
            Function::WriteWords => {
                pdu.len() >= 6
                    && is_quantity(pdu, 3, 123)
                    && has_bytes(pdu, 5, 2 * usize::from(number_at(pdu, 3)))
            }
            Function::MaskWord => pdu.len() == 7,
            Function::WriteReadWords => is_write_read(pdu),
        }
    }

    /// How many cells a lawful request asks for; of 23, how many it reads.
    pub fn quantity(self, pdu: &[u8]) -> usize
        requires { 5 ≤ length pdu.now }
        ensures { result ≡ quantity_of self pdu.now }
    {
        match self {
            Function::WriteBit | Function::WriteWord | Function::MaskWord => 1,
            Function::ReadBits(_)
            | Function::ReadWords(_)
            | Function::WriteBits
            | Function::WriteWords
            | Function::WriteReadWords => usize::from(number_at(pdu, 3)),
        }
    }
}
