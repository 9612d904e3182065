//! Lines and columns.

ghost use Rattle.std.specs.Prelude.{◌≡◌, ◌≤◌, ◌<◌, ◌^◌, ◌+◌, length};
ghost use Rattle.il_reader.specs.Texts.{column_behind, place_at};

use std::fmt;

/// A line and a column, from 1.
#[derive(Clone, Copy, Debug, PartialEq, Eq)]
pub struct Place {
    pub line: usize,
    pub column: usize,
}

impl fmt::Display for Place {
    fn fmt<W: fmt::Write>(&self, f: &mut fmt::Formatter<W>) -> fmt::Result {
        write!(f, "{}:{}", self.line, self.column)
    }
}

#[tactic(auto, unfolding(crate::specs::Texts::column_behind))]
fn column_of(before: &[u8]) -> usize
    requires { length before.now < 2 ^ 32 }
    ensures value { result ≡ column_behind 1 before.now }
    ensures fits { result ≤ 1 + length before.now }
{
    let mut column = 1usize;
    for b in before {
        column = if *b == b'\n' { 1 } else { column + 1 };
    }
    column
}

/// Where the byte stands from which on so many are left.
pub fn place_of(text: &[u8], left: usize) -> Place
    requires { length text.now < 2 ^ 32 }
    ensures { result ≡ place_at text.now left }
{
    let before = &text[..text.len().saturating_sub(left)];
    let line = before.iter().filter(|b| **b == b'\n').count();
    Place {
        line: 1 + line,
        column: column_of(before),
    }
}
