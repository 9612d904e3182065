//! A word that a machine says to another over a connection of its own, and its bytes.

ghost use Rattle.std.specs.Prelude.{◌≡◌, ◌≤◌, ◌++◌, ◌∷◌, ◌*◌, ◌-◌, ◌+◌, length, OnOk, IfOk, IfSome, Some};
ghost use Rattle.std.specs.List.{AllByRecursion, flat_map, list_all};
ghost use Rattle.std.specs.Int.{w64, to_be_bytes};
ghost use Rattle.plc_epochs.specs.declared.visit.Visit.{Visit as Whose};
ghost use Rattle.plc_epochs.specs.Visits.{FitsAnswer, FitsNonce, FitsWord, IsVisit, answer_bytes, nonce_bytes};
ghost use Rattle.plc_epochs.specs.Visits.{visit_bytes, word_bytes, answer_of, is_zero, nonce_of, said_of, told_of};
ghost use Rattle.plc_epochs.specs.Visits.{visit_of, word_by, word_of};

use crate::told::{Told, nothing_told};
use crate::word::{Answer, Word};
use byteorder::{BigEndian, ByteOrder};
use net_hello::Epoch;
use std::alloc::{AllocError, Global};
use vr_model::MOST_REPLICAS;

/// So many bytes has a visit.
pub const VISIT: usize = 153;

/// In the first six bytes of a visit: `PLC-CS`.
const MAGIC: u64 = 0x504C_432D_4353;

/// In the next two.
const VERSION: u64 = 2;

/// So many bytes has the nonce that a machine told.
const NONCE: usize = 9;

/// A word that a machine says to another, over a connection of its own that nobody answers.
#[derive(Clone, Copy)]
pub struct Visit {
    /// Of the group, by `group_identity`.
    pub identity: [u8; 32],
    /// The one that the machine has begun.
    pub epoch: Epoch,
    /// The machine that says it.
    pub from: u8,
    pub word: Word,
}

// ---- writing

fn put_number(out: &mut Vec<u8>, number: u64) -> Result<(), AllocError>
    ensures { OnOk result (out.new.items ≡ out.old.items ++ to_be_bytes w64 number) }
{
    let mut field = [0; 8];
    BigEndian::write_u64(&mut field, number);
    out.extend_from_slice(&field)
}

fn put_nonce(out: &mut Vec<u8>, nonce: Option<u64>) -> Result<(), AllocError>
    ensures bytes { OnOk result (out.new.items ≡ out.old.items ++ nonce_bytes nonce) }
    ensures fits { OnOk result (FitsNonce nonce) }
{
    match nonce {
        None => out.extend_from_slice(&[0; NONCE]),
        Some(nonce) => {
            out.push(1)?;
            put_number(out, nonce)
        }
    }
}

fn put_told(out: &mut Vec<u8>, told: &[Option<u64>]) -> Result<(), AllocError>
    ensures bytes { OnOk result (out.new.items ≡ out.old.items ++ flat_map nonce_bytes told.now) }
    ensures fits { OnOk result (AllByRecursion FitsNonce told.now) }
{
    for nonce in told {
        put_nonce(out, *nonce)?;
    }
    Ok(())
}

fn put_answer(out: &mut Vec<u8>, answer: &Answer) -> Result<(), AllocError>
    ensures bytes { OnOk result (out.new.items ≡ out.old.items ++ answer_bytes answer.now) }
    ensures fits { OnOk result (FitsAnswer answer.now) }
{
    put_number(out, answer.question)?;
    put_number(out, answer.nonce)?;
    out.extend_from_slice(&[0; 55])
}

fn put_word(out: &mut Vec<u8>, word: &Word) -> Result<(), AllocError>
    ensures bytes { OnOk result (out.new.items ≡ out.old.items ++ word_bytes word.now) }
    ensures fits { OnOk result (FitsWord word.now) }
{
    match word {
        Word::Freeze { question } => {
            out.push(0)?;
            put_number(out, *question)?;
            out.extend_from_slice(&[0; 63])
        }
        Word::Frozen(answer) => {
            out.push(1)?;
            put_answer(out, answer)
        }
        Word::Confirm { question, asked } => {
            out.push(2)?;
            put_number(out, *question)?;
            put_told(out, asked)
        }
        Word::StillFrozen(answer) => {
            out.push(3)?;
            put_answer(out, answer)
        }
        Word::Marked { question } => {
            out.push(4)?;
            put_number(out, *question)?;
            out.extend_from_slice(&[0; 63])
        }
    }
}

// ---- reading

fn are_zeros(bytes: &[u8]) -> bool
    ensures { result ≡ list_all is_zero bytes.now }
{
    bytes.iter().all(|byte| *byte == 0)
}

/// What one machine told, if it's spelled so.
fn nonce_of(bytes: &[u8]) -> Option<Option<u64>>
    requires { length bytes.now ≡ 9 }
    ensures { result ≡ nonce_of bytes.now }
{
    let (_, nonce) = bytes.split_at(1);
    match bytes[0] {
        0 if are_zeros(nonce) => Some(None),
        1 => Some(Some(BigEndian::read_u64(nonce))),
        _ => None,
    }
}

/// What each machine told, if it's spelled so.
fn told_of(bytes: &[u8]) -> Option<Told>
    requires { length bytes.now ≡ 63 }
    ensures { result ≡ told_of bytes.now }
{
    let mut told = nothing_told();
    let mut rest = bytes;
    for machine in 0..MOST_REPLICAS {
        let (nonce, others) = rest.split_at(NONCE);
        told[machine] = nonce_of(nonce)?;
        rest = others;
    }
    Some(told)
}

/// An answer to the question under this nonce, if it's spelled so.
fn answer_of(question: u64, rest: &[u8]) -> Option<Answer>
    requires { length rest.now ≡ 63 }
    ensures { result ≡ answer_of question rest.now }
{
    let (nonce, zeros) = rest.split_at(8);
    if !are_zeros(zeros) {
        return None;
    }
    Some(Answer {
        question,
        nonce: BigEndian::read_u64(nonce),
    })
}

/// A word of this kind about this question, if it's spelled so.
fn word_by(kind: u8, question: u64, rest: &[u8]) -> Option<Word>
    requires { length rest.now ≡ 63 }
    ensures { result ≡ word_by kind question rest.now }
{
    match kind {
        0 if are_zeros(rest) => Some(Word::Freeze { question }),
        1 => Some(Word::Frozen(answer_of(question, rest)?)),
        2 => Some(Word::Confirm {
            question,
            asked: told_of(rest)?,
        }),
        3 => Some(Word::StillFrozen(answer_of(question, rest)?)),
        4 if are_zeros(rest) => Some(Word::Marked { question }),
        _ => None,
    }
}

fn word_of(bytes: &[u8]) -> Option<Word>
    requires { length bytes.now ≡ 72 }
    ensures { result ≡ word_of bytes.now }
{
    let (_, rest) = bytes.split_at(1);
    let (question, rest) = rest.split_at(8);
    word_by(bytes[0], BigEndian::read_u64(question), rest)
}

/// These bytes as an array.
fn array_of(bytes: &[u8]) -> [u8; 32]
    requires { length bytes.now ≡ 32 }
    ensures { result ≡ bytes.now }
{
    match <[u8; 32]>::try_from(bytes) {
        Ok(array) => array,
        Err(_) => unreachable!(),
    }
}

/// What is said behind the magic and the version.
#[tactic(auto, unfolding(crate::specs::Visits::said_of))]
fn said_of(bytes: &[u8]) -> Option<Visit>
    requires { length bytes.now ≡ 145 }
    ensures { result ≡ said_of bytes.now }
{
    let (identity, rest) = bytes.split_at(32);
    let (number, rest) = rest.split_at(8);
    let (image, rest) = rest.split_at(32);
    let (_, word) = rest.split_at(1);
    let word = word_of(word)?;
    Some(Visit {
        identity: array_of(identity),
        epoch: Epoch {
            number: BigEndian::read_u64(number),
            image: array_of(image),
        },
        from: rest[0],
        word,
    })
}

#[tactic(auto, unfolding(crate::specs::Visits::visit_of))]
fn visit_of(bytes: &[u8]) -> Option<Visit>
    ensures { result ≡ visit_of bytes.now }
{
    if bytes.len() != VISIT {
        return None;
    }
    let (front, said) = bytes.split_at(8);
    if BigEndian::read_u64(front) != MAGIC * 65536 + VERSION {
        return None;
    }
    said_of(said)
}

impl Visit {
    /// Its 153 bytes. It fails only where memory runs out.
    pub fn spell(&self, alloc: Global) -> Result<Vec<u8>, AllocError>
        ensures { IfOk result (λ bytes. IsVisit self.now bytes.items) }
    {
        let mut bytes = Vec::new(alloc);
        put_number(&mut bytes, MAGIC * 65536 + VERSION)?;
        bytes.extend_from_slice(&self.identity)?;
        put_number(&mut bytes, self.epoch.number)?;
        bytes.extend_from_slice(&self.epoch.image)?;
        bytes.push(self.from)?;
        put_word(&mut bytes, &self.word)?;
        Ok(bytes)
    }

    /// The visit that these bytes are, if they are one: 153 bytes, with the magic and the version.
    pub fn read(bytes: &[u8]) -> Option<Visit>
        ensures found { IfSome result (λ visit. IsVisit visit bytes.now) }
        ensures only { (visit : Whose) → IsVisit visit bytes.now → result ≡ Some visit }
        ensures exact { result ≡ visit_of bytes.now }
    {
        visit_of(bytes)
    }
}
