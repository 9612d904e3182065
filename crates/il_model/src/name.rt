//! Names.

ghost use Rattle.std.specs.Prelude.{◌≡◌, ◌<◌, IfOk, IfSome, List, ℕ, length, option_map};
ghost use Rattle.std.specs.List.{list_all, list_any};
ghost use Rattle.std.specs.Str.{bytes_eq};
ghost use Rattle.il_model.specs.Words.{same_name, is_first_byte, is_name_byte, begins_name, begins_with};
ghost use Rattle.il_model.specs.Words.{is_well_spelled, is_reserved_operator, is_reserved, is_lawful_name};
ghost use Rattle.il_model.specs.Words.{has_dot, under, name_parts, parts_with, stands_under, split_last, is_part};

use crate::kind::BlockKind;
use crate::limits::LONGEST_NAME;
use crate::location::dot;
use crate::words::mnemonic_from;
use std::alloc::{AllocError, Global};
use std::marker::Model;

/// A name: its bytes, in upper case.
#[derive(Drop)]
pub struct Name {
    bytes: Vec<u8>,
}

impl Model for Name {
    ghost Value = { List ℕ };

    ghost view = { λ n. n.bytes.items };
}

impl Name {
    /// The name of these bytes.
    pub fn of(bytes: Vec<u8>) -> Name
        ensures { result ≡ bytes.items }
    {
        Name { bytes }
    }

    /// The bytes of a name.
    pub fn bytes(&self) -> &[u8]
        ensures { result.now ≡ self.now }
    {
        self.bytes.as_slice()
    }

    /// An equal name.
    pub fn copy(&self, alloc: Global) -> Result<Name, AllocError>
        ensures { IfOk result (λ n. n ≡ self.now) }
    {
        Ok(Name {
            bytes: Vec::from_slice(alloc, self.bytes.as_slice())?,
        })
    }

    /// Whether two names are the same.
    pub fn is(&self, other: &Name) -> bool
        ensures { result ≡ same_name self.now other.now }
    {
        self.bytes.as_slice() == other.bytes.as_slice()
    }
}

/// The words of types and keywords.
static RESERVED: [&[u8]; 11] = [
    b"BOOL",
    b"INT",
    b"DINT",
    b"TIME",
    b"PROGRAM",
    b"END_PROGRAM",
    b"VAR",
    b"END_VAR",
    b"AT",
    b"TRUE",
    b"FALSE",
];

fn is_first_byte(b: u8) -> bool
    ensures { result ≡ is_first_byte b }
{
    (b'A' <= b && b <= b'Z') || b == b'_'
}

fn is_name_byte(b: u8) -> bool
    ensures { result ≡ is_name_byte b }
{
    is_first_byte(b) || (b'0' <= b && b <= b'9')
}

fn begins_name(name: &[u8]) -> bool
    ensures { result ≡ begins_name name.now }
{
    match name {
        [b, ..] => is_first_byte(*b),
        [] => false,
    }
}

fn has_name_bytes(name: &[u8]) -> bool
    ensures { result ≡ list_all is_name_byte name.now }
{
    name.iter().all(|b| is_name_byte(*b))
}

fn begins_with(bytes: &[u8], b: u8) -> bool
    ensures { result ≡ begins_with b bytes.now }
{
    match bytes {
        [c, ..] => *c == b,
        [] => false,
    }
}

/// Whether no two underscores stand side by side and none at the end.
#[tactic(auto, unfolding(crate::specs::Words::is_well_spelled))]
pub fn is_well_spelled(name: &[u8]) -> bool
    ensures { result ≡ is_well_spelled name.now }
{
    let mut rest = name;
    while let [b, others @ ..] = rest {
        if *b == b'_' && (others.is_empty() || begins_with(others, b'_')) {
            return false;
        }
        rest = others;
    }
    true
}

fn has_word(words: &[&[u8]], name: &[u8]) -> bool
    ensures { result ≡ list_any (λ word. bytes_eq word.now name.now) words.now }
{
    words.iter().any(|word| *word == name)
}

/// The conversions of LINT, which aren't reserved: they came later.
static UNRESERVED: [&[u8]; 2] = [b"DINT_TO_LINT", b"LINT_TO_DINT"];

/// Whether a word is an operator that is reserved.
fn is_reserved_operator(name: &[u8]) -> bool
    ensures { result ≡ is_reserved_operator name.now }
{
    mnemonic_from(name).is_some() && !has_word(&UNRESERVED, name)
}

/// Whether a word in upper case is reserved: an operator with or without its letters, a type, a block kind, a keyword;
/// but not LINT and its two conversions.
pub fn is_reserved(name: &[u8]) -> bool
    ensures { result ≡ is_reserved name.now }
{
    is_reserved_operator(name) || BlockKind::of_name(name).is_some() || has_word(&RESERVED, name)
}

/// Whether a name has a dot, as names of version 3 may.
pub fn has_dot(name: &[u8]) -> bool
    ensures { result ≡ has_dot name.now }
{
    name.iter().any(|b| *b == b'.')
}

/// The first part of a name, and what stands behind the dot, where it has one.
#[tactic(auto, using(crate::proofs::NameParts::first_parts, crate::proofs::NameParts::one_part))]
pub fn first_part(name: &[u8]) -> (&[u8], Option<&[u8]>)
    ensures parts { parts_with result.0.now (option_map (λ rest. rest.now) result.1) ≡ name_parts name.now }
    ensures shorter { IfSome result.1 (λ rest. length rest.now < length name.now) }
{
    let before = dot(name);
    if before < name.len() {
        (&name[..before], Some(&name[before + 1..]))
    } else {
        (name, None)
    }
}

/// What stands before the last dot of a name, and behind it; None where it has no dot.
pub fn split_last(name: &[u8]) -> Option<(&[u8], &[u8])>
    ensures { option_map (λ x. (x.0.now, x.1.now)) result ≡ split_last name.now }
{
    let mut found = None;
    for (i, b) in name.iter().enumerate() {
        if *b == b'.' {
            found = Some(i);
        }
    }
    let at = found?;
    Some((&name[..at], &name[at + 1..]))
}

/// A name under another: that one, a dot, and its own.
pub fn under(alloc: Global, front: &[u8], name: &[u8]) -> Result<Vec<u8>, AllocError>
    ensures { IfOk result (λ v. v.items ≡ under front.now name.now) }
{
    let mut bytes = Vec::from_slice(alloc, front)?;
    bytes.push(b'.')?;
    bytes.extend_from_slice(name)?;
    Ok(bytes)
}

/// Whether a name stands under another.
#[tactic(auto, unfolding(crate::specs::Words::stands_under))]
pub fn stands_under(front: &[u8], name: &[u8]) -> bool
    ensures { result ≡ stands_under front.now name.now }
{
    let mut keys = front;
    let mut letters = name;
    while let [k, others @ ..] = keys {
        match letters {
            [b, more @ ..] if *b == *k => letters = more,
            _ => return false,
        }
        keys = others;
    }
    begins_with(letters, b'.')
}

fn is_part(part: &[u8]) -> bool
    ensures { result ≡ is_part part.now }
{
    begins_name(part) && has_name_bytes(part) && is_well_spelled(part) && part.len() <= LONGEST_NAME
}

fn are_parts(name: &[u8]) -> bool
    ensures { result ≡ list_all is_part (name_parts name.now) }
{
    match first_part(name) {
        (part, Some(rest)) => is_part(part) && are_parts(rest),
        (part, None) => is_part(part),
    }
}

/// Whether a variable, an instance or a label may be called so, in upper case.
pub fn is_lawful_name(name: &[u8]) -> bool
    ensures { result ≡ is_lawful_name name.now }
{
    if has_dot(name) {
        are_parts(name)
    } else {
        is_part(name) && !is_reserved(name)
    }
}
