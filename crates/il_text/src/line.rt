//! The line that an answer prints.

ghost use Rattle.std.specs.Prelude.{◌≡◌, Some};
ghost use Rattle.std.specs.Fmt.{DisplaysOnOk};
ghost use Rattle.il_text.specs.Lines.{answer_text, bit_text, word_text, bits_text, words_text, stop_name, value_text};
ghost use Rattle.il_values.specs.BitStrings.{hex_word};
ghost use Rattle.il_values.specs.declared.value.Value.TheVariants as values;
ghost use Rattle.il_text.specs.Lines.{line_text};
ghost use Rattle.il_text.specs.Telling.{Puts};

use crate::fault::Fault;
use il_model::{Answer, Stop, Value, halves};
use io_model::{CountedWrite, write_all};
use std::alloc::Global;
use std::fmt;

/// The line of an answer, without its end.
#[derive(Clone, Copy)]
pub struct AnswerLine<'a>(pub &'a Answer);

impl fmt::Display for AnswerLine<'_> {
    ghost output = { λ line. Some (answer_text line.0.now) };

    fn fmt<W: fmt::Write>(&self, f: &mut fmt::Formatter<W>) -> fmt::Result {
        match self.0 {
            Answer::Outputs { count, image } => {
                write!(f, "outputs {count}")?;
                true_bits(f, &image.cells.bits)?;
                words_not_0(f, &image.cells.words)
            }
            Answer::Held(position) => write!(f, "held {position}"),
            Answer::Stopped { stop, position, .. } => {
                let stop = name_of(*stop);
                write!(f, "stopped {stop} {position}")
            }
            Answer::Value(value) => literal(f, *value),
            Answer::Done => f.write_str("done"),
            Answer::Refused(refusal) => {
                let number = refusal.number();
                write!(f, "refused {number}")
            }
        }
    }
}

fn true_bits<W: fmt::Write>(f: &mut fmt::Formatter<W>, bits: &[bool]) -> fmt::Result
    ensures { DisplaysOnOk W.write_str_gives f.old result (Some (bits_text bits.now)) f.new }
{
    for (number, bit) in bits.iter().enumerate() {
        true_bit(f, number, *bit)?;
    }
    Ok(())
}

fn true_bit<W: fmt::Write>(f: &mut fmt::Formatter<W>, number: usize, bit: bool) -> fmt::Result
    ensures { DisplaysOnOk W.write_str_gives f.old result (Some (bit_text (number, bit))) f.new }
{
    if !bit {
        return Ok(());
    }
    let byte = number / 8;
    let place = number % 8;
    write!(f, " QX{byte}.{place}")
}

fn words_not_0<W: fmt::Write>(f: &mut fmt::Formatter<W>, words: &[i16]) -> fmt::Result
    ensures { DisplaysOnOk W.write_str_gives f.old result (Some (words_text words.now)) f.new }
{
    for (number, word) in words.iter().enumerate() {
        word_not_0(f, number, *word)?;
    }
    Ok(())
}

fn word_not_0<W: fmt::Write>(f: &mut fmt::Formatter<W>, number: usize, word: i16) -> fmt::Result
    ensures { DisplaysOnOk W.write_str_gives f.old result (Some (word_text (number, word))) f.new }
{
    if word == 0 {
        return Ok(());
    }
    write!(f, " QW{number}={word}")
}

fn name_of(stop: Stop) -> &'static str
    ensures { result.now ≡ stop_name stop }
{
    match stop {
        Stop::Overflow => "overflow",
        Stop::ZeroDivisor => "zerodivisor",
        Stop::Budget => "budget",
    }
}

/// The four hexadecimal digits of a WORD, by its two bytes.
fn digits<W: fmt::Write>(f: &mut fmt::Formatter<W>, bits: u16) -> fmt::Result
    ensures { DisplaysOnOk W.write_str_gives f.old result (Some (hex_word bits)) f.new }
{
    let high = bits / 256;
    let low = bits % 256;
    write!(f, "{high:02X}{low:02X}")
}

fn word<W: fmt::Write>(f: &mut fmt::Formatter<W>, bits: u16) -> fmt::Result
    ensures { DisplaysOnOk W.write_str_gives f.old result (Some (value_text (values.Word bits))) f.new }
{
    f.write_str("value WORD#16#")?;
    digits(f, bits)
}

fn double_word<W: fmt::Write>(f: &mut fmt::Formatter<W>, bits: u32) -> fmt::Result
    ensures { DisplaysOnOk W.write_str_gives f.old result (Some (value_text (values.Dword bits))) f.new }
{
    let (high, low) = halves(bits);
    f.write_str("value DWORD#16#")?;
    digits(f, high)?;
    digits(f, low)
}

fn literal<W: fmt::Write>(f: &mut fmt::Formatter<W>, value: Value) -> fmt::Result
    ensures { DisplaysOnOk W.write_str_gives f.old result (Some (value_text value)) f.new }
{
    match value {
        Value::Bool(true) => f.write_str("value TRUE"),
        Value::Bool(false) => f.write_str("value FALSE"),
        Value::Int(number) => write!(f, "value INT#{number}"),
        Value::Dint(number) => write!(f, "value DINT#{number}"),
        Value::Lint(number) => write!(f, "value LINT#{number}"),
        Value::Time(milliseconds) => write!(f, "value T#{milliseconds}ms"),
        Value::Real(number) => {
            let text = number.text();
            write!(f, "value REAL#{text}")
        }
        Value::Word(bits) => word(f, bits),
        Value::Dword(bits) => double_word(f, bits),
    }
}

/// Writes the line of an answer.
pub fn put_line<W: CountedWrite>(alloc: Global, answer: &Answer, out: &mut W) -> Result<(), Fault>
    ensures { Puts W.CountedWrite (line_text answer.now) out.old out.new result }
{
    let shown = AnswerLine(answer);
    let line = format!(in alloc; "{shown}\n")?;
    Ok(write_all(out, line.as_str().as_bytes())?)
}
