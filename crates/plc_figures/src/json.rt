//! The parts of a JSON text (RFC 8259).

ghost use Rattle.std.specs.Prelude.{◌≡◌, ◌<◌, OnOk};
ghost use Rattle.std.specs.List.{flat_map};
ghost use Rattle.plc_figures.specs.Texts.{code_text, comma, escaped, flag_json, hex_digit, string_json, IsAdded};

use crate::text::put;
use std::alloc::AllocError;

/// The hex digit of a number below 16.
fn hex_digit(number: u8) -> u8
    requires { number < 16 }
    ensures { result ≡ hex_digit number }
{
    if number < 10 {
        b'0' + number
    } else {
        b'a' + (number - 10)
    }
}

/// Adds a byte as a code.
pub fn put_code(out: &mut Vec<u8>, byte: u8) -> Result<(), AllocError>
    ensures { OnOk result (IsAdded out.old.items (code_text byte) out.new.items) }
{
    put(out, b"\\u00")?;
    put(out, &[hex_digit(byte / 16), hex_digit(byte % 16)])?;
    Ok(())
}

/// Adds one character of a string: a byte of ASCII as it is, unless it has to be escaped; any other byte as a code.
fn put_escaped(out: &mut Vec<u8>, byte: u8) -> Result<(), AllocError>
    ensures { OnOk result (IsAdded out.old.items (escaped byte) out.new.items) }
{
    if byte == b'"' {
        put(out, b"\\\"")
    } else if byte == b'\\' {
        put(out, b"\\\\")
    } else if 32 <= byte && byte < 127 {
        put(out, &[byte])
    } else {
        put_code(out, byte)
    }
}

/// Adds the characters of a string.
fn put_characters(out: &mut Vec<u8>, text: &[u8]) -> Result<(), AllocError>
    ensures { OnOk result (IsAdded out.old.items (flat_map escaped text.now) out.new.items) }
{
    for byte in text {
        put_escaped(out, *byte)?;
    }
    Ok(())
}

/// Adds a string.
pub fn put_string(out: &mut Vec<u8>, text: &[u8]) -> Result<(), AllocError>
    ensures { OnOk result (IsAdded out.old.items (string_json text.now) out.new.items) }
{
    put(out, b"\"")?;
    put_characters(out, text)?;
    put(out, b"\"")?;
    Ok(())
}

/// Adds a truth value.
pub fn put_flag(out: &mut Vec<u8>, is_so: bool) -> Result<(), AllocError>
    ensures { OnOk result (IsAdded out.old.items (flag_json is_so) out.new.items) }
{
    if is_so {
        put(out, b"true")
    } else {
        put(out, b"false")
    }
}

/// Adds what stands before an item with this number: nothing before the first.
pub fn put_comma(out: &mut Vec<u8>, number: usize) -> Result<(), AllocError>
    ensures { OnOk result (IsAdded out.old.items (comma number) out.new.items) }
{
    if number > 0 { put(out, b",") } else { Ok(()) }
}
