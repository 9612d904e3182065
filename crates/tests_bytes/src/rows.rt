//! The rows of a file. A section of a row hands something in or says what comes out; a table is a row a line. The name
//! of the file says whose rows these are.

use crate::notation::{front, lines_of, plain, spread, told, unreadable};
use crate::{drivers, epochs, fields, frames, groups, keys, replicas};
use std::alloc::{AllocError, Global};
use std::io;

/// How many rows a file has, and those that come out otherwise than they say, each with what came out.
#[derive(Drop)]
pub struct Found {
    pub rows: u64,
    pub otherwise: Vec<String>,
}

impl Found {
    fn count(
        &mut self,
        alloc: Global,
        row: &str,
        said: &str,
        came: io::Result<String>,
    ) -> Result<(), AllocError> {
        self.rows = self.rows.saturating_add(1);
        match came {
            Ok(came) if came.as_str() == said => Ok(()),
            Ok(came) => self.put(format!(in alloc; "{row}: {came}")),
            Err(error) => self.put(format!(in alloc; "{row}: {error}")),
        }
    }

    /// Puts a row that comes out otherwise.
    fn put(&mut self, row: Result<String, AllocError>) -> Result<(), AllocError> {
        Ok(self.otherwise.push(row?)?)
    }
}

/// What a row hands in: the name of its file, and the text of a field.
#[derive(Clone, Copy)]
struct Given<'a> {
    file: &'a str,
    field: &'a str,
}

impl<'a> Given<'a> {
    fn new(file: &'a str) -> Given<'a> {
        Given { file, field: "" }
    }

    /// Takes what a section hands in; false where it hands in nothing.
    fn take(&mut self, title: &str, body: &'a str) -> bool {
        let is_field = title == "field";
        if is_field {
            self.field = body;
        }
        is_field
    }
}

/// The rows of a file, which stand below the headings of its themes.
pub fn checked(alloc: Global, name: &str, text: &str) -> io::Result<Found> {
    let mut found = Found {
        rows: 0,
        otherwise: Vec::new(alloc),
    };
    let file = file_of(name);
    for theme in text.split("\n== ") {
        check_theme(alloc, file, theme, &mut found)?;
    }
    Ok(found)
}

/// A file's name without its folders.
fn file_of(name: &str) -> &str {
    match name.rsplit_once('/') {
        Some((_, file)) => file,
        None => name,
    }
}

/// The rows of a theme, behind its heading.
fn check_theme(alloc: Global, file: &str, theme: &str, found: &mut Found) -> io::Result<()> {
    for row in theme.split("\n=== ").skip(1) {
        check_row(alloc, Given::new(file), row, found)?;
    }
    Ok(())
}

/// A row: its name, and sections behind it.
fn check_row<'a>(
    alloc: Global,
    mut given: Given<'a>,
    row: &'a str,
    found: &mut Found,
) -> io::Result<()> {
    let mut sections = row.split("\n--- ");
    let name = sections.next().unwrap_or("");
    for section in sections {
        check_section(alloc, &mut given, name, section, found)?;
    }
    Ok(())
}

/// A section, which is a table, hands something in or says what comes out.
fn check_section<'a>(
    alloc: Global,
    given: &mut Given<'a>,
    name: &str,
    section: &'a str,
    found: &mut Found,
) -> io::Result<()> {
    let (title, body) = front(section, "\n");
    if let Some(title) = title.strip_prefix("each ") {
        return check_table(alloc, given, title, body, found);
    }
    if given.take(title, body) {
        return Ok(());
    }
    let came = runs(alloc, given, title, body);
    check(alloc, name, &plain(alloc, body)?, came, found)
}

/// Counts a row, which says what comes out.
fn check(
    alloc: Global,
    row: &str,
    said: &String,
    came: io::Result<String>,
    found: &mut Found,
) -> io::Result<()> {
    Ok(found.count(alloc, row, said.as_str(), came)?)
}

/// A table: a row a line, as `what is handed in | what comes out`.
fn check_table(
    alloc: Global,
    given: &Given<'_>,
    title: &str,
    body: &str,
    found: &mut Found,
) -> io::Result<()> {
    for line in lines_of(alloc, body)? {
        check_line(alloc, given, title, line, found)?;
    }
    Ok(())
}

fn check_line(
    alloc: Global,
    given: &Given<'_>,
    title: &str,
    line: &str,
    found: &mut Found,
) -> io::Result<()> {
    let (cell, said) = front(line, " | ");
    let came = comes_out(alloc, given.file, title, cell);
    check(alloc, line, &said_in(alloc, title, said)?, came, found)
}

/// What a line of a table of this title says.
fn said_in(alloc: Global, title: &str, said: &str) -> io::Result<String> {
    match title {
        "byte replaced" | "beginning of records" => spread(alloc, said),
        _ => told(alloc, said),
    }
}

/// What comes out of a cell in a table of this title.
fn comes_out(alloc: Global, file: &str, title: &str, cell: &str) -> io::Result<String> {
    match file {
        "frames.rows" => frames::table(alloc, title, cell),
        "replicas.rows" => groups::table(alloc, title, cell),
        "drivers.rows" => drivers::table(alloc, title, cell),
        "cold_start.rows" => epochs::table(alloc, title, cell),
        "keys.rows" => keys::table(alloc, title, cell),
        _ => Err(unreadable()),
    }
}

/// What a run comes to, whose title says of what it is.
fn runs(alloc: Global, given: &Given<'_>, title: &str, body: &str) -> io::Result<String> {
    let of = front(title, " ").1;
    match given.file {
        "fields.rows" => fields::run(alloc, given.field, body),
        "replicas.rows" | "controllers.rows" | "blocks.rows" => replicas::run(alloc, of, body),
        "drivers.rows" => drivers::run(alloc, of, body),
        "cold_start.rows" => epochs::run(alloc, of, body),
        "keys.rows" => keys::run(alloc, body),
        _ => Err(unreadable()),
    }
}
