//! Texts that grow: each call adds to the end, and fails only where memory runs out.

ghost use Rattle.std.specs.Prelude.{◌≡◌, ◌<◌, ◌+◌, ◌/◌, ◌%◌, decimal, OnOk};
ghost use Rattle.std.specs.Fmt.{signed_decimal};
ghost use Rattle.plc_figures.specs.Texts.{digits_six, seconds_text, value_text, IsAdded};

use il_model::{Value, halves, hex_word};
use itoa::Buffer;
use std::alloc::AllocError;

/// Adds these bytes.
pub fn put(out: &mut Vec<u8>, text: &[u8]) -> Result<(), AllocError>
    ensures { OnOk result (IsAdded out.old.items text.now out.new.items) }
{
    out.extend_from_slice(text)?;
    Ok(())
}

/// Adds a number in decimal digits.
pub fn put_number(out: &mut Vec<u8>, number: u64) -> Result<(), AllocError>
    ensures { OnOk result (IsAdded out.old.items (decimal number) out.new.items) }
{
    let mut buffer = Buffer::new();
    put(out, buffer.format(number).as_bytes())?;
    Ok(())
}

/// Adds a small number in decimal digits.
pub fn put_small_number(out: &mut Vec<u8>, number: u8) -> Result<(), AllocError>
    ensures { OnOk result (IsAdded out.old.items (decimal number) out.new.items) }
{
    put_number(out, u64::from(number))
}

/// Adds a number in decimal digits, with its sign where it is below 0.
pub fn put_signed(out: &mut Vec<u8>, number: i64) -> Result<(), AllocError>
    ensures { OnOk result (IsAdded out.old.items (signed_decimal number) out.new.items) }
{
    let mut buffer = Buffer::new();
    put(out, buffer.format(number).as_bytes())?;
    Ok(())
}

/// Adds a value: 0 and 1 for a bit, a whole number, a REAL, as `12.5`, or a bit string, as `16#00FF`.
pub fn put_value(out: &mut Vec<u8>, value: Value) -> Result<(), AllocError>
    ensures { OnOk result (IsAdded out.old.items (value_text value) out.new.items) }
{
    match value {
        Value::Bool(true) => put(out, b"1"),
        Value::Bool(false) => put(out, b"0"),
        Value::Int(number) => put_signed(out, i64::from(number)),
        Value::Dint(number) => put_signed(out, i64::from(number)),
        Value::Time(milliseconds) => put_signed(out, i64::from(milliseconds)),
        Value::Lint(number) => put_signed(out, number),
        Value::Real(number) => {
            let text = number.text();
            put(out, text.as_str().as_bytes())
        }
        Value::Word(bits) => {
            put(out, b"16#")?;
            put(out, &hex_word(bits))
        }
        Value::Dword(bits) => {
            let (high, low) = halves(bits);
            put(out, b"16#")?;
            put(out, &hex_word(high))?;
            put(out, &hex_word(low))
        }
    }
}

/// A digit of a number: that of so many ones.
fn digit(number: u64, ones: u64) -> u8
    requires { 0 < ones }
    ensures { result ≡ 48 + number / ones % 10 }
{
    b'0' + (number / ones % 10) as u8
}

/// Adds the six last digits of a number.
fn put_six(out: &mut Vec<u8>, number: u64) -> Result<(), AllocError>
    ensures { OnOk result (IsAdded out.old.items (digits_six number) out.new.items) }
{
    let digits = [
        digit(number, 100_000),
        digit(number, 10_000),
        digit(number, 1_000),
        digit(number, 100),
        digit(number, 10),
        digit(number, 1),
    ];
    put(out, &digits)?;
    Ok(())
}

/// Adds so many microseconds as seconds, with six digits behind the point.
pub fn put_seconds(out: &mut Vec<u8>, microseconds: u64) -> Result<(), AllocError>
    ensures { OnOk result (IsAdded out.old.items (seconds_text microseconds) out.new.items) }
{
    put_number(out, microseconds / 1_000_000)?;
    put(out, b".")?;
    put_six(out, microseconds % 1_000_000)?;
    Ok(())
}
