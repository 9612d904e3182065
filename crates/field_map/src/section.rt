//! The values of one table of the text, by their keys.

ghost use Rattle.std.specs.Prelude.{◌<◌, ◌≤◌, IfOk};

use crate::fault::{FieldFault, Spot, Why};
use crate::layout::Form;
use crate::places::Kind;
use crate::reading::Fallback;
use il_model::{Area, Loc, extended_location_from};
use std::alloc::Global;
use std::net::SocketAddr;
use toml::{Table, Value};

/// One table, and where it stands.
#[derive(Clone, Copy)]
pub(crate) struct Section<'a> {
    pub(crate) alloc: Global,
    pub(crate) spot: Spot,
    pub(crate) table: &'a Table,
}

/// The range of a time in milliseconds: up to a minute.
pub(crate) const TIMES: u32 = 60_000;

impl<'a> Section<'a> {
    /// The fault of a key.
    pub(crate) fn fault(&self, key: &str, why: Why) -> FieldFault {
        FieldFault::of_key(self.alloc, self.spot, key, why)
    }

    /// Refuses each key that isn't one of these.
    pub(crate) fn know(&self, keys: &[&str]) -> Result<(), FieldFault> {
        for key in self.table.keys() {
            if !keys.iter().any(|known| *known == key.as_str()) {
                return Err(self.fault(key.as_str(), Why::Unknown));
            }
        }
        Ok(())
    }

    fn value(&self, key: &str) -> Result<&'a Value, FieldFault> {
        match self.table.get(key) {
            Some(value) => Ok(value),
            None => Err(self.fault(key, Why::Missing)),
        }
    }

    pub(crate) fn has(&self, key: &str) -> bool {
        self.table.get(key).is_some()
    }

    /// A number from 0 to `most`.
    pub(crate) fn number(&self, key: &str, most: u32) -> Result<u32, FieldFault>
        ensures { IfOk result (λ n. n ≤ most) }
    {
        let Some(number) = self.value(key)?.as_integer() else {
            return Err(self.fault(key, Why::Shape));
        };
        match u32::try_from(number) {
            Ok(number) if number <= most => Ok(number),
            _ => Err(self.fault(key, Why::Range)),
        }
    }

    /// A number from 1 to `most`.
    pub(crate) fn some(&self, key: &str, most: u32) -> Result<u32, FieldFault>
        ensures { IfOk result (λ n. (0 < n) × (n ≤ most)) }
    {
        let number = self.number(key, most)?;
        if number == 0 {
            return Err(self.fault(key, Why::Zero));
        }
        Ok(number)
    }

    /// A number from 0 to `most`; this one, where the key isn't there.
    pub(crate) fn number_or(&self, key: &str, most: u32, other: u32) -> Result<u32, FieldFault>
        requires { other ≤ most }
        ensures { IfOk result (λ n. n ≤ most) }
    {
        if !self.has(key) {
            return Ok(other);
        }
        self.number(key, most)
    }

    /// A number from 1 to `most`; this one, where the key isn't there.
    pub(crate) fn some_or(&self, key: &str, most: u32, other: u32) -> Result<u32, FieldFault> {
        if !self.has(key) {
            return Ok(other);
        }
        self.some(key, most)
    }

    pub(crate) fn text(&self, key: &str) -> Result<&'a str, FieldFault> {
        match self.value(key)?.as_str() {
            Some(text) => Ok(text),
            None => Err(self.fault(key, Why::Shape)),
        }
    }

    /// FALSE where the key isn't there.
    pub(crate) fn truth(&self, key: &str) -> Result<bool, FieldFault> {
        if !self.has(key) {
            return Ok(false);
        }
        match self.value(key)?.as_bool() {
            Some(truth) => Ok(truth),
            None => Err(self.fault(key, Why::Shape)),
        }
    }

    pub(crate) fn fallback(&self, key: &str) -> Result<Fallback, FieldFault> {
        match self.text(key)? {
            "hold" => Ok(Fallback::Hold),
            "zero" => Ok(Fallback::Zero),
            _ => Err(self.fault(key, Why::Fallback)),
        }
    }

    /// An address and a port, which is not 0.
    pub(crate) fn address(&self, key: &str, text: &str) -> Result<SocketAddr, FieldFault> {
        match text.parse::<SocketAddr>() {
            Ok(address) if address.port() > 0 => Ok(address),
            _ => Err(self.fault(key, Why::Address)),
        }
    }

    /// What the registers are: each an INT, unless it says that two are a DINT or a REAL.
    pub(crate) fn form(&self) -> Result<Form, FieldFault> {
        if !self.has("as") {
            return Ok(Form::Int);
        }
        match self.text("as")? {
            "int" => Ok(Form::Int),
            "dint" => Ok(Form::Dint),
            "real" => Ok(Form::Real),
            _ => Err(self.fault("as", Why::Form)),
        }
    }

    /// The first word of a double word, where two registers are one value.
    fn double_place(&self, key: &str, number: u16) -> Result<(Kind, usize), FieldFault> {
        match self.form()? {
            Form::Int => Err(self.fault(key, Why::Place)),
            Form::Dint | Form::Real => Ok((Kind::Words, usize::from(number))),
        }
    }

    /// A bit or a word of the area; of a value of 32 bits its double word, too.
    pub(crate) fn place(&self, key: &str, area: Area) -> Result<(Kind, usize), FieldFault> {
        let text = self.text(key)?;
        let there = match extended_location_from(text.as_bytes()) {
            Some(there) if text.starts_with("%") => there,
            _ => return Err(self.fault(key, Why::Place)),
        };
        match there {
            Loc::Bit(found, number) if found == area => Ok((Kind::Bits, usize::from(number))),
            Loc::Word(found, number) if found == area => Ok((Kind::Words, usize::from(number))),
            Loc::Double(found, number, _) if found == area => self.double_place(key, number),
            _ => Err(self.fault(key, Why::Place)),
        }
    }

    /// A text, or the texts of a list.
    pub(crate) fn texts(&self, key: &str) -> Result<Vec<&'a str>, FieldFault> {
        let mut texts = Vec::new(self.alloc);
        let value = self.value(key)?;
        if let Some(text) = value.as_str() {
            texts.push(text)?;
            return Ok(texts);
        }
        let Some(values) = value.as_array() else {
            return Err(self.fault(key, Why::Shape));
        };
        for value in values.iter() {
            match value.as_str() {
                Some(text) => texts.push(text)?,
                None => return Err(self.fault(key, Why::Shape)),
            }
        }
        Ok(texts)
    }

    /// The tables of a list, none where the key isn't there.
    pub(crate) fn tables(&self, key: &str) -> Result<Vec<&'a Table>, FieldFault> {
        let mut tables = Vec::new(self.alloc);
        if !self.has(key) {
            return Ok(tables);
        }
        let Some(values) = self.value(key)?.as_array() else {
            return Err(self.fault(key, Why::Shape));
        };
        for value in values.iter() {
            match value.as_table() {
                Some(table) => tables.push(table)?,
                None => return Err(self.fault(key, Why::Shape)),
            }
        }
        Ok(tables)
    }
}
