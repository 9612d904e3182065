//! What is asked for.

/// The positions that are asked for: all, those whose instruction stands in a line, or at a line and a column, or one.
/// Lines and columns are from 1, positions from 0.
#[derive(Clone, Copy, Debug, PartialEq, Eq)]
pub enum Asked {
    All,
    Line(usize),
    At(usize, usize),
    Position(usize),
}
