//! What a row hands to the calls.

use crate::notation::bytes_of;
use il_model::Budget;
use std::alloc::Global;
use std::io;

/// One scan on inputs that are all FALSE and 0.
const ONE_SCAN: &[u8] = br#"[{"scan": {"ix": [], "iw": [], "moment": 0}}]"#;

/// A text, that of a program before it, the bytes of an image, files of commands and of a schedule, how many replicas
/// may fail, and how many instructions a scan may perform.
#[derive(Drop)]
pub struct Given {
    pub text: Vec<u8>,
    pub old_text: Vec<u8>,
    pub image: Vec<u8>,
    pub commands: Vec<u8>,
    pub schedule: Vec<u8>,
    pub failures: u8,
    pub budget: Budget,
}

fn budget(number: &str) -> io::Result<Budget> {
    let instructions = number.trim_end().parse::<u32>().ok();
    instructions
        .and_then(Budget::new)
        .ok_or(io::Error::from(io::ErrorKind::InvalidData))
}

fn failures(number: &str) -> io::Result<u8> {
    let failures = number.trim_end().parse::<u8>().ok();
    failures.ok_or(io::Error::from(io::ErrorKind::InvalidData))
}

/// The bytes of a section, as it writes them, or as a text.
fn bytes(alloc: Global, title: &str, body: &str) -> io::Result<Vec<u8>> {
    if title.ends_with("in bytes") {
        bytes_of(alloc, body)
    } else {
        Ok(Vec::from_slice(alloc, body.as_bytes())?)
    }
}

impl Given {
    /// This text and no image, for one scan with the budget of a call that names none.
    pub fn new(alloc: Global, text: &str) -> io::Result<Given> {
        Ok(Given {
            text: Vec::from_slice(alloc, text.as_bytes())?,
            old_text: Vec::new(alloc),
            image: Vec::new(alloc),
            commands: Vec::from_slice(alloc, ONE_SCAN)?,
            schedule: Vec::new(alloc),
            failures: 1,
            budget: budget("10000")?,
        })
    }

    /// What the first cell of a table's line hands in, in a table of this title: a text where the title is of no other
    /// section.
    pub fn in_table(alloc: Global, title: &str, cell: &str) -> io::Result<Given> {
        let mut given = Given::new(alloc, "")?;
        if given.take(alloc, title, cell)? {
            Ok(given)
        } else {
            Given::new(alloc, cell)
        }
    }

    /// Where the bytes of a section of this title go; none where it hands in no bytes.
    fn place(&mut self, title: &str) -> Option<&mut Vec<u8>> {
        match title {
            "commands" | "commands in bytes" => Some(&mut self.commands),
            "schedule" => Some(&mut self.schedule),
            "old text" => Some(&mut self.old_text),
            "text in bytes" => Some(&mut self.text),
            "image in bytes" => Some(&mut self.image),
            _ => None,
        }
    }

    /// Takes the bytes that a section hands in; false where it hands in none.
    fn take_bytes(&mut self, alloc: Global, title: &str, body: &str) -> io::Result<bool> {
        match self.place(title) {
            Some(place) => {
                *place = bytes(alloc, title, body)?;
                Ok(true)
            }
            None => Ok(false),
        }
    }

    /// Takes what a section hands in; false where it hands in nothing.
    pub fn take(&mut self, alloc: Global, title: &str, body: &str) -> io::Result<bool> {
        match title {
            "f" => self.failures = failures(body)?,
            "budget" => self.budget = budget(body)?,
            _ => return self.take_bytes(alloc, title, body),
        }
        Ok(true)
    }
}
