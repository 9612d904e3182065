//! Application data units.
ghost use Rattle.std.specs.Prelude.{◌≡◌, ◌+◌, ◌<◌, ◌≤◌, ◌++◌, length, IfOk, OnOk};
ghost use Rattle.modbus_wire.specs.Frames.{Adu as Unit, frame_of, header_of, IsFramed};
ghost use Rattle.modbus_wire.specs.declared.header.Header.TheVariants.{Size};

use crate::header::number_at;
use arrayvec::ArrayVec;
use byteorder::{BigEndian, ByteOrder};
use std::alloc::AllocError;
use std::marker::Model;

/// A protocol data unit: a function code and its data.
pub type Pdu = ArrayVec<u8, 253>;

/// A request or a reply with the transaction and the unit of its header. Any unit is served.
#[derive(Drop)]
pub struct Adu {
    pub transaction: u16,
    pub unit: u8,
    pub pdu: Pdu,
}

impl Model for Adu {
    ghost use Rattle.modbus_wire.specs.Frames.{Adu as Unit};

    ghost Value = { Unit };

    ghost view = { λ a. record { transaction = a.transaction; unit = a.unit; pdu = a.pdu.items } };
}

/// These bytes as a PDU.
pub fn pdu_of(bytes: &[u8]) -> Pdu
    requires { length bytes.now ≤ 253 }
    ensures { result.items ≡ bytes.now }
{
    match Pdu::try_from(bytes) {
        Ok(pdu) => pdu,
        Err(_) => unreachable!(),
    }
}

/// The unit that these bytes are.
pub(crate) fn adu_of(bytes: &[u8]) -> Adu
    requires { header_of bytes.now ≡ Size (length bytes.now) }
    ensures frame { frame_of result ≡ bytes.now }
    ensures framed { IsFramed result }
{
    Adu {
        transaction: number_at(bytes, 0),
        unit: bytes[6],
        pdu: pdu_of(&bytes[7..]),
    }
}

impl Adu {
    /// Adds its bytes to those of `out`.
    pub fn write_to(&self, out: &mut Vec<u8>) -> Result<(), AllocError>
        requires { length self.now.pdu ≤ 253 }
        ensures { OnOk result (out.new.items ≡ out.old.items ++ frame_of self.now) }
    {
        let mut header = [0; 7];
        BigEndian::write_u16(&mut header, self.transaction);
        BigEndian::write_u16(&mut header[4..], self.pdu.len() as u16 + 1);
        header[6] = self.unit;
        out.extend_from_slice(&header)?;
        out.extend_from_slice(self.pdu.as_slice())
    }
}
