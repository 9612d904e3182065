//! Shifts and rotations of bit strings (IEC 61131-3:2003, 2.5.1.5.3), and their digits.

ghost use Rattle.std.specs.Prelude.{◌≡◌, true, ◌-◌, ◌≤◌, ◌++◌, slice_get};
ghost use Rattle.std.specs.Int.{w16, w32};
ghost use Rattle.il_values.specs.declared.shift.Shift.TheVariants as shifts;
ghost use Rattle.il_values.specs.declared.value.Value.TheVariants as values;
ghost use Rattle.il_values.specs.BitStrings.{shift_list, shift_code, shifted, hex_word, hex_double};
ghost use Rattle.std.specs.Fmt.{digit_glyph};
ghost use Rattle.il_values.specs.Operators.{moved};

use crate::value::{Stop, Value};

/// How a bit string is moved, in the order of its code.
#[derive(Clone, Copy, Debug, PartialEq, Eq)]
pub enum Shift {
    /// To the left; what becomes free is 0.
    Left,
    Right,
    /// To the left; what leaves on one side comes in on the other.
    RotateLeft,
    RotateRight,
}

impl Shift {
    /// The one of a code, which is 64 at least.
    pub fn of_code(code: u8) -> Option<Shift>
        requires { 64 ≤ code }
        ensures { result ≡ slice_get shift_list (code - 64) }
    {
        if code >= 68 {
            return None;
        }
        match code {
            64 => Some(Shift::Left),
            65 => Some(Shift::Right),
            66 => Some(Shift::RotateLeft),
            67 => Some(Shift::RotateRight),
            _ => unreachable!(),
        }
    }

    /// The code.
    pub fn code(self) -> u8
        ensures { result ≡ shift_code self }
    {
        match self {
            Shift::Left => 64,
            Shift::Right => 65,
            Shift::RotateLeft => 66,
            Shift::RotateRight => 67,
        }
    }

    fn word(self, bits: u16, places: u32) -> u16
        ensures { result ≡ shifted self w16 bits places }
    {
        match self {
            Shift::Left => word_left(bits, places),
            Shift::Right => word_right(bits, places),
            Shift::RotateLeft => bits.rotate_left(places),
            Shift::RotateRight => bits.rotate_right(places),
        }
    }

    fn double_word(self, bits: u32, places: u32) -> u32
        ensures { result ≡ shifted self w32 bits places }
    {
        match self {
            Shift::Left => double_word_left(bits, places),
            Shift::Right => double_word_right(bits, places),
            Shift::RotateLeft => bits.rotate_left(places),
            Shift::RotateRight => bits.rotate_right(places),
        }
    }

    /// A WORD moved by so many places; a stop where the number is below 0.
    pub fn move_word(self, bits: u16, places: i16) -> Result<Value, Stop>
        ensures { result ≡ moved self w16 values.Word bits places }
    {
        if places < 0 {
            Err(Stop::Overflow)
        } else {
            Ok(Value::Word(self.word(bits, places as u32)))
        }
    }

    /// A DWORD moved by so many places; a stop where the number is below 0.
    pub fn move_double_word(self, bits: u32, places: i16) -> Result<Value, Stop>
        ensures { result ≡ moved self w32 values.Dword bits places }
    {
        if places < 0 {
            Err(Stop::Overflow)
        } else {
            Ok(Value::Dword(self.double_word(bits, places as u32)))
        }
    }
}

/// A WORD to the left: 0 by 16 places or more.
fn word_left(bits: u16, places: u32) -> u16
    ensures { result ≡ shifted shifts.Left w16 bits places }
{
    if places < 16 { bits << places } else { 0 }
}

/// A WORD to the right: 0 by 16 places or more.
fn word_right(bits: u16, places: u32) -> u16
    ensures { result ≡ shifted shifts.Right w16 bits places }
{
    if places < 16 { bits >> places } else { 0 }
}

/// A DWORD to the left: 0 by 32 places or more.
fn double_word_left(bits: u32, places: u32) -> u32
    ensures { result ≡ shifted shifts.Left w32 bits places }
{
    if places < 32 { bits << places } else { 0 }
}

/// A DWORD to the right: 0 by 32 places or more.
fn double_word_right(bits: u32, places: u32) -> u32
    ensures { result ≡ shifted shifts.Right w32 bits places }
{
    if places < 32 { bits >> places } else { 0 }
}

fn hex_digit(digit: u16) -> u8
    requires { digit ≤ 15 }
    ensures { result ≡ digit_glyph true digit }
{
    if digit < 10 {
        b'0' + digit as u8
    } else {
        b'A' + (digit - 10) as u8
    }
}

/// The four hexadecimal digits of a WORD.
pub fn hex_word(bits: u16) -> [u8; 4]
    ensures { result ≡ hex_word bits }
{
    [
        hex_digit(bits / 4096 % 16),
        hex_digit(bits / 256 % 16),
        hex_digit(bits / 16 % 16),
        hex_digit(bits % 16),
    ]
}

/// The halves of a DWORD, the high one first, whose digits are its own.
pub fn halves(bits: u32) -> (u16, u16)
    ensures { hex_double bits ≡ hex_word result.0 ++ hex_word result.1 }
{
    ((bits / 65536) as u16, (bits % 65536) as u16)
}
