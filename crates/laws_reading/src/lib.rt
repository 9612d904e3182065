//! The laws that the text of an expansion is read as its lines. There is no code here: each function's clause states a
//! law, and its empty body is proved to meet it.
//!
//! A law is used by naming it in a function whose clause rests on it; nothing in the repository does so, and the proofs
//! of `laws_meaning` cite their lemmas:
//!
//! ```rust
//! laws_reading::an_expansion_is_read_as_its_lines();
//! ```
//!
//! Proved, of each unit of a text of units and its expansion beside the units above it (`il_units`): where the text of
//! the expansion is read, each of its words is a token of the sort that it is to be (`specs/Words`), what is read has a
//! line for each line of the expansion, in their order, and apart from its places that line is what the words say
//! (`specs/Lines`); and the sorts of the words tell which lines jump and return (`specs/Sorts`). The sizes of names
//! aren't asked for: an expansion with a name that is too long is no text that is read, and has a fault.
//!
//! Tests (nothing rests on them alone): `units.rows` of `tests_rows` runs such programs.
#![tactic(auto)]

ghost use Rattle.laws_reading.specs.Tokens.{AreAgain};
ghost use Rattle.laws_reading.specs.Laws.{FlatUnitsAreReadAsTheirLines, WordsAreTokens, SortsTell};
ghost use Rattle.laws_reading.specs.Laws.{ExpansionsAreReadAsTheirLines};

/// Each name, literal, location and operator of an extended text, written anywhere with a blank behind it, is one token
/// of the same sign.
pub fn each_token_is_one_again()
    ensures { AreAgain }
{}

/// Where the words of a flat unit are tokens, of sorts that may stand where they stand, and its text is read, it's read
/// as its lines, one by one.
pub fn a_flat_unit_is_read_as_its_lines()
    ensures { FlatUnitsAreReadAsTheirLines }
{}

/// The words of an expansion are such tokens, where its text is read.
pub fn the_words_of_an_expansion_are_tokens()
    ensures { WordsAreTokens }
{}

/// A line of an expansion whose operator is a return has the sort of a return, one that jumps has a label behind its
/// operator, and no other line has either; labels are in capital letters.
pub fn the_sorts_of_words_tell_jumps_and_returns()
    ensures { SortsTell }
{}

/// Where the text of an expansion is read, it's read as its lines, one by one.
pub fn an_expansion_is_read_as_its_lines()
    ensures { ExpansionsAreReadAsTheirLines }
{}
