//! The rows of a file. A section of a row hands something in, or says what comes out; a table is a row a line.

use crate::calls::{assembled, compared, listed, located, named, ran, reads_back, simulated};
use crate::changes;
use crate::given::Given;
use crate::notation::{bytes_of, lines_of};
use crate::words::asked;
use std::alloc::{AllocError, Global};
use std::io;

/// How many rows a file has, and the names of those that come out otherwise than they say.
#[derive(Drop)]
pub struct Found {
    pub rows: u64,
    pub otherwise: Vec<String>,
}

impl Found {
    fn count(&mut self, alloc: Global, name: &str, is_as_said: bool) -> Result<(), AllocError> {
        self.rows = self.rows.saturating_add(1);
        if !is_as_said {
            self.otherwise.push(String::from_str(alloc, name)?)?;
        }
        Ok(())
    }
}

/// The rows of a file, which stand below the headings of its themes.
pub fn checked(alloc: Global, file: &str) -> io::Result<Found> {
    let mut found = Found {
        rows: 0,
        otherwise: Vec::new(alloc),
    };
    for theme in file.split("\n== ") {
        check_theme(alloc, theme, &mut found)?;
    }
    Ok(found)
}

/// The rows of a theme, behind its heading.
fn check_theme(alloc: Global, theme: &str, found: &mut Found) -> io::Result<()> {
    for row in theme.split("\n=== ").skip(1) {
        match row.split_once("\n--- each ") {
            Some((_, table)) => check_table(alloc, table, found)?,
            None => check_row(alloc, row, found)?,
        }
    }
    Ok(())
}

/// A row: its name, its text, and sections behind them.
fn check_row(alloc: Global, row: &str, found: &mut Found) -> io::Result<()> {
    let mut sections = row.split("\n--- ");
    let head = sections.next().unwrap_or("");
    let (name, text) = head.split_once('\n').unwrap_or((head, ""));
    let mut given = Given::new(alloc, text)?;
    let (mut said, mut is_as_said) = (0u64, true);
    for section in sections {
        let (title, body) = section.split_once('\n').unwrap_or((section, ""));
        if !given.take(alloc, title, body)? {
            said = said.saturating_add(1);
            is_as_said &= comes_out(alloc, &given, title, body)?;
        }
    }
    Ok(found.count(alloc, name, is_as_said && said > 0)?)
}

/// A table: behind its title a row a line, as `what is handed in | what comes out`. Lines that begin with # are remarks.
fn check_table(alloc: Global, table: &str, found: &mut Found) -> io::Result<()> {
    let (title, lines) = table.split_once('\n').unwrap_or((table, ""));
    for line in lines.lines() {
        if !line.is_empty() && !line.starts_with('#') {
            let is_as_said = check_line(alloc, title, line)?;
            found.count(alloc, line, is_as_said)?;
        }
    }
    Ok(())
}

/// Whether a line of a table comes out as it says, with ` / ` between two lines of either side.
fn check_line(alloc: Global, title: &str, line: &str) -> io::Result<bool> {
    let (cell, said) = line.split_once(" | ").unwrap_or((line, ""));
    let cell = cell.trim_end().replace(alloc, " / ", "\n")?;
    let said = said.replace(alloc, " / ", "\n")?;
    let given = Given::in_table(alloc, title, cell.as_str())?;
    comes_out(alloc, &given, title, said.as_str())
}

/// Whether what is given comes out as a section says; false for a section of no kind.
fn comes_out(alloc: Global, given: &Given, title: &str, said: &str) -> io::Result<bool> {
    match title {
        "image" => is_assembled(alloc, given.text.as_slice(), said),
        "words" => asks_for(alloc, given.text.as_slice(), said),
        "every other byte" => {
            let came = changes::what_comes(alloc, given.image.as_slice())?;
            Ok(came.as_str() == said.trim_end())
        }
        _ => Ok(prints(alloc, given, title, lines_of(alloc, said)?.as_bytes())),
    }
}

/// Whether the words of a call ask for this.
fn asks_for(alloc: Global, text: &[u8], said: &str) -> io::Result<bool> {
    let words = str::from_utf8(text).unwrap_or("");
    Ok(asked(alloc, words)?.as_str() == said.trim_end())
}

/// Whether a text is assembled to these bytes.
fn is_assembled(alloc: Global, text: &[u8], said: &str) -> io::Result<bool> {
    let bytes = bytes_of(alloc, said)?;
    Ok(assembled(alloc, text).image == bytes)
}

/// Whether what a section of this title asks for prints these lines.
fn prints(alloc: Global, given: &Given, title: &str, lines: &[u8]) -> bool {
    match title {
        "one scan" | "lines" | "commands" => runs(alloc, given, lines),
        "report" | "schedule" => reports(alloc, given, lines),
        "asm" => assembles(alloc, given, lines),
        "names" => named(alloc, given.text.as_slice()).is(lines),
        "places" => located(alloc, given.text.as_slice()).is(lines),
        "difference" => compares(alloc, given, lines),
        _ => lists_as(alloc, given, title, lines),
    }
}

/// Whether the comparing of two texts prints these lines.
fn compares(alloc: Global, given: &Given, lines: &[u8]) -> bool {
    let (old, new) = (given.old_text.as_slice(), given.text.as_slice());
    compared(alloc, old, new).is(lines)
}

/// Whether `list` prints these lines of an image: the one that is given, or that of the text.
fn lists_as(alloc: Global, given: &Given, title: &str, lines: &[u8]) -> bool {
    let image = given.image.as_slice();
    match title {
        "listing" if image.is_empty() => {
            let assembled = assembled(alloc, given.text.as_slice());
            lists(alloc, assembled.image.as_slice(), lines)
        }
        "listing" | "image in bytes" => lists(alloc, image, lines),
        "every beginning" => all_list(alloc, image, lines),
        _ => false,
    }
}

/// Whether the commands print these lines.
fn runs(alloc: Global, given: &Given, lines: &[u8]) -> bool {
    let image = assembled(alloc, given.text.as_slice()).image;
    ran(alloc, given).is(lines) && reads_back(alloc, image.as_slice())
}

/// Whether the schedule's run prints these lines, however often the replicas make checkpoints.
fn reports(alloc: Global, given: &Given, lines: &[u8]) -> bool {
    [0, 1, 64].iter().all(|every| {
        simulated(alloc, given, *every).is_some_and(|written| written.is(lines))
    })
}

/// Whether `asm` prints these lines. A fault is also that of a run.
fn assembles(alloc: Global, given: &Given, lines: &[u8]) -> bool {
    let written = assembled(alloc, given.text.as_slice());
    let is_good = written.status == 0;
    written.is(lines)
        && reads_back(alloc, written.image.as_slice())
        && (is_good || ran(alloc, given).is(lines))
}

/// Whether `list` prints these lines of an image.
fn lists(alloc: Global, image: &[u8], lines: &[u8]) -> bool {
    let written = listed(alloc, image);
    let is_good = written.status == 0;
    written.is(lines) && (!is_good || reads_back(alloc, image))
}

/// Whether `list` prints these lines of each beginning of an image.
fn all_list(alloc: Global, image: &[u8], lines: &[u8]) -> bool {
    (0..image.len()).all(|end| lists(alloc, &image[..end], lines))
}
