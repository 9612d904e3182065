//! The tokens of a text (IEC 61131-3:2003, 2.1 and B.1.1).

ghost use Rattle.std.specs.Prelude.{◌≡◌, ◌≢◌, ◌≤◌, ◌<◌, ◌+◌, length, nat_lt, IfSome, true};
ghost use Rattle.std.specs.List.{prefix_len, list_all, list_any};
ghost use Rattle.il_model.specs.Words.{is_well_spelled, name_parts};
ghost use Rattle.il_reader.specs.Tokens.{is_letter_byte, is_number_start, is_blank_byte, solid_piece, is_word_byte};
ghost use Rattle.il_reader.specs.Tokens.{is_literal_byte, is_address_byte, name_of, literal_piece, word_piece, sign_of};
ghost use Rattle.il_reader.specs.Tokens.{comment_len, comment_piece, piece_of, begins_with, is_word_end, is_n, joined};
ghost use Rattle.il_reader.specs.Tokens.{tokens_of, token, begins_letter, dotted_len, name_len};

use crate::fault::FaultKind;
use il_model::{Dialect, LONGEST_DOTTED_NAME, LONGEST_NAME, first_part, is_well_spelled};

/// What the grammar asks for: a line end, a name, a literal, an address, or one of the language's marks.
#[derive(Clone, Copy, PartialEq, Eq)]
pub enum Sign {
    Break,
    Name,
    Literal,
    Address,
    Colon,
    Assign,
    Arrow,
    Comma,
    Semicolon,
    Open,
    Close,
    Dot,
    Ampersand,
}

/// What a token is: a sign, bytes that are none, or the end of the text.
#[derive(Clone, Copy, PartialEq, Eq)]
pub enum Class {
    Sign(Sign),
    Broken(FaultKind),
    End,
}

/// What stands at the front of a text, and how many bytes it takes. White space is no token, and so of no class.
#[derive(Clone, Copy, PartialEq, Eq)]
pub struct Piece {
    pub class: Option<Class>,
    pub len: usize,
}

impl Piece {
    ghost use Rattle.il_reader.specs.Tokens.{blank, sign, broken, end};

    fn blank(len: usize) -> Piece
        ensures { result ≡ blank len }
    {
        Piece { class: None, len }
    }

    fn sign(which: Sign, len: usize) -> Piece
        ensures { result ≡ sign which len }
    {
        Piece {
            class: Some(Class::Sign(which)),
            len,
        }
    }

    fn broken(kind: FaultKind) -> Piece
        ensures { result ≡ broken kind }
    {
        Piece {
            class: Some(Class::Broken(kind)),
            len: 1,
        }
    }

    fn end() -> Piece
        ensures { result ≡ end }
    {
        Piece {
            class: Some(Class::End),
            len: 0,
        }
    }
}

/// A token: its class, a slice of the text, and how many bytes the text has from its first one on.
#[derive(Clone, Copy)]
pub struct Lexeme<'a> {
    pub class: Class,
    pub text: &'a [u8],
    pub left: usize,
}

fn is_letter(b: u8) -> bool
    ensures { result ≡ is_letter_byte b }
{
    (b'A' <= b && b <= b'Z') || (b'a' <= b && b <= b'z') || b == b'_'
}

fn is_word(b: u8) -> bool
    ensures { result ≡ is_word_byte b }
{
    is_letter(b) || (b'0' <= b && b <= b'9')
}

fn is_literal(b: u8) -> bool
    ensures { result ≡ is_literal_byte b }
{
    is_word(b) || b == b'#' || b == b'.' || b == b'+' || b == b'-'
}

fn is_address(b: u8) -> bool
    ensures { result ≡ is_address_byte b }
{
    is_word(b) || b == b'.'
}

fn word_len(bytes: &[u8]) -> usize
    ensures value { result ≡ prefix_len is_word_byte bytes.now }
    ensures fits { result ≤ length bytes.now }
{
    bytes.iter().take_while(|b| is_word(**b)).count()
}

fn literal_len(bytes: &[u8]) -> usize
    ensures value { result ≡ prefix_len is_literal_byte bytes.now }
    ensures fits { result ≤ length bytes.now }
{
    bytes.iter().take_while(|b| is_literal(**b)).count()
}

fn address_len(bytes: &[u8]) -> usize
    ensures value { result ≡ prefix_len is_address_byte bytes.now }
    ensures fits { result ≤ length bytes.now }
{
    bytes.iter().take_while(|b| is_address(**b)).count()
}

fn starts_with(bytes: &[u8], x: u8) -> bool
    ensures { result ≡ begins_with x bytes.now }
{
    match bytes {
        [] => false,
        [b, ..] => *b == x,
    }
}

#[tactic(auto, using(crate::proofs::Tokens::one_more), unfolding(crate::specs::Tokens::comment_len))]
fn comment_end(bytes: &[u8]) -> Option<usize>
    ensures value { result ≡ comment_len bytes.now }
    ensures fits { IfSome result (λ n. n ≤ length bytes.now) }
{
    let mut rest = bytes;
    let mut count = 0usize;
    while let [b, others @ ..] = rest {
        if *b == b'*' && starts_with(others, b')') {
            return Some(count + 2);
        }
        count += 1;
        rest = others;
    }
    None
}

fn starts_letter(bytes: &[u8]) -> bool
    ensures { result ≡ begins_letter bytes.now }
{
    match bytes {
        [] => false,
        [b, ..] => is_letter(*b),
    }
}

#[tactic(auto, unfolding(crate::specs::Tokens::dotted_len))]
fn dotted_len(bytes: &[u8]) -> usize
    ensures value { result ≡ dotted_len bytes.now }
    ensures fits { result ≤ length bytes.now }
{
    let mut rest = bytes;
    let mut count = 0usize;
    while let [b, others @ ..] = rest {
        if !is_word(*b) && !(*b == b'.' && starts_letter(others)) {
            return count;
        }
        count += 1;
        rest = others;
    }
    count
}

fn name_len(dialect: Dialect, bytes: &[u8]) -> usize
    ensures value { result ≡ name_len dialect bytes.now }
    ensures fits { result ≤ length bytes.now }
{
    match dialect {
        Dialect::Plain => word_len(bytes),
        Dialect::Extended => dotted_len(bytes),
    }
}

fn are_well_spelled(name: &[u8]) -> bool
    ensures { result ≡ list_all is_well_spelled (name_parts name.now) }
{
    match first_part(name) {
        (part, Some(rest)) => is_well_spelled(part) && are_well_spelled(rest),
        (part, None) => is_well_spelled(part),
    }
}

fn has_long_part(name: &[u8]) -> bool
    ensures { result ≡ list_any (λ part. nat_lt LONGEST_NAME (length part)) (name_parts name.now) }
{
    match first_part(name) {
        (part, Some(rest)) => part.len() > LONGEST_NAME || has_long_part(rest),
        (part, None) => part.len() > LONGEST_NAME,
    }
}

#[tactic(auto, unfolding(crate::specs::Tokens::name_of))]
fn name_piece(name: &[u8]) -> Piece
    requires { 0 < length name.now }
    ensures value { result ≡ name_of name.now }
    ensures fits { result.len ≤ length name.now }
    ensures moves { 0 < result.len }
{
    if !are_well_spelled(name) {
        Piece::broken(FaultKind::BadToken)
    } else if name.len() > LONGEST_DOTTED_NAME || has_long_part(name) {
        Piece::broken(FaultKind::TooLong)
    } else {
        Piece::sign(Sign::Name, name.len())
    }
}

#[tactic(auto, unfolding(crate::specs::Tokens::literal_piece))]
fn judged_literal(dialect: Dialect, text: &[u8]) -> Piece
    requires { 0 < length text.now }
    ensures value { result ≡ literal_piece dialect text.now }
    ensures fits { result.len ≤ length text.now }
    ensures moves { 0 < result.len }
{
    if dialect.literal(text).is_some() {
        Piece::sign(Sign::Literal, text.len())
    } else {
        Piece::broken(FaultKind::BadLiteral)
    }
}

#[tactic(auto, unfolding(crate::specs::Tokens::word_piece))]
fn word_at(dialect: Dialect, bytes: &[u8]) -> Piece
    requires { 0 < length bytes.now }
    ensures value { result ≡ word_piece dialect bytes.now }
    ensures fits { result.len ≤ length bytes.now }
    ensures moves { 0 < result.len }
{
    let others = &bytes[1..];
    if starts_with(&others[word_len(others)..], b'#') {
        judged_literal(dialect, &bytes[..1 + literal_len(others)])
    } else {
        name_piece(&bytes[..1 + name_len(dialect, others)])
    }
}

fn ends_word(bytes: &[u8]) -> bool
    ensures { result ≡ is_word_end bytes.now }
{
    match bytes {
        [] => true,
        [b, ..] => !is_word(*b) && *b != b'#',
    }
}

fn starts_n(bytes: &[u8]) -> bool
    ensures value { result ≡ is_n bytes.now }
    ensures some { result ≡ true → 0 < length bytes.now }
{
    match bytes {
        [] => false,
        [b, others @ ..] => (*b == b'N' || *b == b'n') && ends_word(others),
    }
}

#[tactic(auto, unfolding(crate::specs::Tokens::sign_of))]
fn sign_at(b: u8, others: &[u8]) -> Piece
    ensures value { result ≡ sign_of b others.now }
    ensures fits { result.len ≤ 1 + length others.now }
    ensures moves { 0 < result.len }
{
    match b {
        b':' if starts_with(others, b'=') => Piece::sign(Sign::Assign, 2),
        b':' => Piece::sign(Sign::Colon, 1),
        b'=' if starts_with(others, b'>') => Piece::sign(Sign::Arrow, 2),
        b',' => Piece::sign(Sign::Comma, 1),
        b';' => Piece::sign(Sign::Semicolon, 1),
        b'(' => Piece::sign(Sign::Open, 1),
        b')' => Piece::sign(Sign::Close, 1),
        b'.' => Piece::sign(Sign::Dot, 1),
        b'&' if starts_n(others) => Piece::sign(Sign::Ampersand, 2),
        b'&' => Piece::sign(Sign::Ampersand, 1),
        b' '..=b'~' => Piece::broken(FaultKind::BadToken),
        _ => Piece::broken(FaultKind::BadByte),
    }
}

fn starts_number(b: u8) -> bool
    ensures { result ≡ is_number_start b }
{
    (b'0' <= b && b <= b'9') || b == b'+' || b == b'-'
}

fn is_blank(b: u8) -> bool
    ensures { result ≡ is_blank_byte b }
{
    b == b' ' || b == b'\t' || b == b'\r'
}

#[tactic(auto, unfolding(crate::specs::Tokens::solid_piece))]
fn solid_at(dialect: Dialect, bytes: &[u8]) -> Piece
    ensures value { result ≡ solid_piece dialect bytes.now }
    ensures fits { result.len ≤ length bytes.now }
    ensures moves { 0 < length bytes.now → 0 < result.len }
{
    match bytes {
        [] => Piece::end(),
        [b, others @ ..] => {
            if is_letter(*b) {
                word_at(dialect, bytes)
            } else if starts_number(*b) {
                judged_literal(dialect, &bytes[..1 + literal_len(others)])
            } else if *b == b'%' {
                Piece::sign(Sign::Address, 1 + address_len(others))
            } else {
                sign_at(*b, others)
            }
        }
    }
}

#[tactic(auto, unfolding(crate::specs::Tokens::piece_of))]
fn piece_at(dialect: Dialect, bytes: &[u8]) -> Piece
    ensures value { result ≡ piece_of dialect bytes.now }
    ensures end { length bytes.now ≡ 0 → result.class ≡ Some Class.End }
    ensures fits { result.len ≤ length bytes.now }
    ensures moves { 0 < length bytes.now → 0 < result.len }
{
    match bytes {
        [] => Piece::end(),
        [b, others @ ..] => {
            if *b == b'\n' {
                Piece::sign(Sign::Break, 1)
            } else if is_blank(*b) {
                Piece::blank(1)
            } else if *b == b'(' && starts_with(others, b'*') {
                comment_at(&others[1..])
            } else {
                solid_at(dialect, bytes)
            }
        }
    }
}

fn comment_at(inside: &[u8]) -> Piece
    ensures value { result ≡ comment_piece (comment_len inside.now) }
    ensures fits { result.len ≤ 2 + length inside.now }
    ensures moves { 0 < result.len }
{
    match comment_end(inside) {
        None => Piece::broken(FaultKind::UnclosedComment),
        Some(n) => Piece::blank(2 + n),
    }
}

/// The first token, and what stands after it.
pub fn next(dialect: Dialect, bytes: &[u8]) -> (Lexeme<'_>, &[u8])
    ensures value { tokens_of dialect bytes.now ≡ joined (token result.0) (tokens_of dialect result.1.now) }
    ensures moves { result.0.class ≢ Class.End → length result.1.now < length bytes.now }
{
    let mut rest = bytes;
    loop {
        let piece = piece_at(dialect, rest);
        let (text, others) = rest.split_at(piece.len);
        match piece.class {
            None => rest = others,
            Some(class) => {
                let left = rest.len();
                return (Lexeme { class, text, left }, others);
            }
        }
    }
}
