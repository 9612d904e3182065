//! The parts of texts of what shows.

ghost use Rattle.std.specs.Prelude.{◌≡◌, ◌<◌, OnOk};
ghost use Rattle.std.specs.List.{flat_map};
ghost use Rattle.field_page.specs.Texts.{digit_of, digits_three, escaped, html_byte, json_byte, label_byte};
ghost use Rattle.field_page.specs.Texts.{millis_text, state_name};
ghost use Rattle.plc_figures.specs.Texts.{IsAdded};

use crate::reading::State;
use plc_figures::{put, put_code, put_number};
use std::alloc::AllocError;

/// Where a name or a line stands, which says what is escaped there.
#[derive(Clone, Copy, PartialEq, Eq)]
pub enum Within {
    /// In a string of JSON (RFC 8259, 7).
    Json,
    /// In the value of a label of Prometheus.
    Label,
    /// In a page.
    Html,
}

/// Adds a text.
pub(crate) fn put_text(out: &mut Vec<u8>, text: &str) -> Result<(), AllocError>
    ensures { OnOk result (IsAdded out.old.items text.now out.new.items) }
{
    put(out, text.as_bytes())?;
    Ok(())
}

/// The word for how one stands.
pub(crate) fn state_name(state: State) -> &'static [u8]
    ensures { result.now ≡ state_name state }
{
    match state {
        State::Unknown => b"unknown",
        State::Answers => b"answers",
        State::Lost => b"lost",
        State::Left => b"not asked",
    }
}

/// Adds a byte of a string of JSON.
fn put_json_byte(out: &mut Vec<u8>, byte: u8) -> Result<(), AllocError>
    ensures { OnOk result (IsAdded out.old.items (json_byte byte) out.new.items) }
{
    if byte == b'"' {
        put(out, b"\\\"")
    } else if byte == b'\\' {
        put(out, b"\\\\")
    } else if byte < 32 {
        put_code(out, byte)
    } else {
        put(out, &[byte])
    }
}

/// Adds a byte of the value of a label.
fn put_label_byte(out: &mut Vec<u8>, byte: u8) -> Result<(), AllocError>
    ensures { OnOk result (IsAdded out.old.items (label_byte byte) out.new.items) }
{
    if byte == b'"' {
        put(out, b"\\\"")
    } else if byte == b'\\' {
        put(out, b"\\\\")
    } else if byte == b'\n' {
        put(out, b"\\n")
    } else {
        put(out, &[byte])
    }
}

/// Adds a byte of a page.
fn put_html_byte(out: &mut Vec<u8>, byte: u8) -> Result<(), AllocError>
    ensures { OnOk result (IsAdded out.old.items (html_byte byte) out.new.items) }
{
    if byte == b'<' {
        put(out, b"&lt;")
    } else if byte == b'&' {
        put(out, b"&amp;")
    } else {
        put(out, &[byte])
    }
}

fn put_byte(out: &mut Vec<u8>, within: Within, byte: u8) -> Result<(), AllocError>
    ensures { OnOk result (IsAdded out.old.items (escaped within byte) out.new.items) }
{
    match within {
        Within::Json => put_json_byte(out, byte),
        Within::Label => put_label_byte(out, byte),
        Within::Html => put_html_byte(out, byte),
    }
}

/// Adds a text that stands there.
pub(crate) fn put_within(out: &mut Vec<u8>, within: Within, text: &[u8]) -> Result<(), AllocError>
    ensures { OnOk result (IsAdded out.old.items (flat_map (escaped within) text.now) out.new.items) }
{
    for byte in text {
        put_byte(out, within, *byte)?;
    }
    Ok(())
}

/// A digit of a number: that of so many ones.
fn digit_of(number: u64, ones: u64) -> u8
    requires { 0 < ones }
    ensures { result ≡ digit_of number ones }
{
    b'0' + (number / ones % 10) as u8
}

/// Adds the three last digits of a number.
fn put_three(out: &mut Vec<u8>, number: u64) -> Result<(), AllocError>
    ensures { OnOk result (IsAdded out.old.items (digits_three number) out.new.items) }
{
    let digits = [
        digit_of(number, 100),
        digit_of(number, 10),
        digit_of(number, 1),
    ];
    put(out, &digits)?;
    Ok(())
}

/// Adds so many milliseconds as seconds, with three digits behind the point.
pub(crate) fn put_millis(out: &mut Vec<u8>, millis: u64) -> Result<(), AllocError>
    ensures { OnOk result (IsAdded out.old.items (millis_text millis) out.new.items) }
{
    put_number(out, millis / 1000)?;
    put(out, b".")?;
    put_three(out, millis % 1000)?;
    Ok(())
}
