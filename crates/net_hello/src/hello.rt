//! A hello, and its bytes.

ghost use Rattle.std.specs.Prelude.{◌≡◌, ◌<◌, ◌++◌, ℕ, List, length, Ok, Some, None, IfOk, OnOk, IfSome};
ghost use Rattle.std.specs.Int.{w32, w64, to_be_bytes};
ghost use Rattle.std.proofs.lemmas.Bool.{cases_lt};
ghost use Rattle.vr_model.specs.Groups.{client_count};
ghost use Rattle.net_hello.specs.declared.hello.Hello.{Hello as Whose};
ghost use Rattle.net_hello.specs.Hellos.{FitsHello, FitsKnown, FitsNumbers, FitsParty, IsHello, hello_bytes, known_bytes};
ghost use Rattle.net_hello.specs.Hellos.{client_by, hello_of, known_of, numbers_bytes, party_bytes, party_of, said_of};
ghost use Rattle.net_hello.specs.Hellos.{whole_of};
ghost use Rattle.net_hello.specs.Answering.{answer_to, nothing_known, said_to_strangers};

use byteorder::{BigEndian, ByteOrder};
use std::alloc::{AllocError, Global};
use thiserror::Error;
use vr_model::{ClientNumber, Party};

/// So many bytes has a hello.
pub const HELLO: usize = 118;

/// In the first six bytes of a hello: `PLC-VR`.
const MAGIC: u64 = 0x504C_432D_5652;

/// In the next two.
const VERSION: u64 = 2;

/// From one cold start of a whole group to the next.
#[derive(Clone, Copy, Debug, PartialEq, Eq)]
pub struct Epoch {
    pub number: u64,
    /// The SHA-256 of the image with which it began.
    pub image: [u8; 32],
}

/// What is known of a party, by the hellos of it that were accepted in an epoch.
#[derive(Clone, Copy, Debug, PartialEq, Eq)]
pub struct Known {
    /// The number of its machine's store; 0 where none was seen.
    pub store: u64,
    /// The most starts that it told; 0 where none were seen, or they are forgotten.
    pub starts: u64,
}

/// What each end of a connection says first.
#[derive(Clone, Copy, Debug, PartialEq, Eq)]
pub struct Hello {
    /// Of the group, by `group_identity`.
    pub identity: [u8; 32],
    pub epoch: Epoch,
    /// Who speaks.
    pub party: Party,
    /// How often it was started in this epoch.
    pub starts: u64,
    /// For so many milliseconds its machine shows outputs.
    pub fresh: u32,
    /// The number of its machine's store, which was drawn when that was formatted; never 0.
    pub store: u64,
    /// What it knows of the party that it speaks to.
    pub known: Known,
}

/// What no hello begins with.
#[derive(Clone, Copy, Debug, PartialEq, Eq, Error)]
pub enum HelloFault {
    #[error("no hello")]
    NoHello,
    #[error("another version")]
    OtherVersion,
}

fn party_of(kind: u8, number: u8) -> Option<Party>
    ensures { result ≡ party_of kind number }
{
    match kind {
        0 => Some(Party::Replica(number)),
        1 => client_of(number),
        _ => None,
    }
}

fn client_of(number: u8) -> Option<Party>
    ensures { result ≡ client_by number (cases_lt number client_count) }
{
    let client = ClientNumber::new(number)?;
    Some(Party::Client(client))
}

/// These bytes as an array.
fn array_of(bytes: &[u8]) -> [u8; 32]
    requires { length bytes.now ≡ 32 }
    ensures { result ≡ bytes.now }
{
    match <[u8; 32]>::try_from(bytes) {
        Ok(array) => array,
        Err(_) => unreachable!(),
    }
}

/// What is known of a party.
fn known_of(bytes: &[u8]) -> Known
    requires { length bytes.now ≡ 16 }
    ensures { result ≡ known_of bytes.now }
{
    let (store, starts) = bytes.split_at(8);
    Known {
        store: BigEndian::read_u64(store),
        starts: BigEndian::read_u64(starts),
    }
}

/// What is said behind the magic and the version.
fn said_of(bytes: &[u8]) -> Option<Hello>
    requires { length bytes.now ≡ 110 }
    ensures { result ≡ said_of bytes.now }
{
    let (identity, rest) = bytes.split_at(32);
    let (number, rest) = rest.split_at(8);
    let (image, rest) = rest.split_at(32);
    let party = party_of(rest[0], rest[1])?;
    let (_, rest) = rest.split_at(2);
    let (starts, rest) = rest.split_at(8);
    let (fresh, rest) = rest.split_at(4);
    let (store, known) = rest.split_at(8);
    Some(Hello {
        identity: array_of(identity),
        epoch: Epoch {
            number: BigEndian::read_u64(number),
            image: array_of(image),
        },
        party,
        starts: BigEndian::read_u64(starts),
        fresh: BigEndian::read_u32(fresh),
        store: BigEndian::read_u64(store),
        known: known_of(known),
    })
}

/// Reads what stands behind the magic and the version.
fn whole_of(rest: &[u8]) -> Result<Option<Hello>, HelloFault>
    ensures { result ≡ whole_of rest.now }
{
    if rest.len() < HELLO - 8 {
        return Ok(None);
    }
    if rest.len() > HELLO - 8 {
        return Err(HelloFault::NoHello);
    }
    match said_of(rest) {
        Some(hello) => Ok(Some(hello)),
        None => Err(HelloFault::NoHello),
    }
}

#[tactic(auto, unfolding(crate::specs::Hellos::hello_of))]
fn hello_of(bytes: &[u8]) -> Result<Option<Hello>, HelloFault>
    ensures { result ≡ hello_of bytes.now }
{
    if bytes.len() < 8 {
        return Ok(None);
    }
    let (front, rest) = bytes.split_at(8);
    let front = BigEndian::read_u64(front);
    if front / 65536 != MAGIC {
        return Err(HelloFault::NoHello);
    }
    if front % 65536 != VERSION {
        return Err(HelloFault::OtherVersion);
    }
    whole_of(rest)
}

fn put_party(out: &mut Vec<u8>, party: Party) -> Result<(), AllocError>
    ensures bytes { OnOk result (out.new.items ≡ out.old.items ++ party_bytes party) }
    ensures fits { OnOk result (FitsParty party) }
{
    match party {
        Party::Replica(number) => out.extend_from_slice(&[0, number]),
        Party::Client(client) => out.extend_from_slice(&[1, client.number]),
    }
}

fn put_number(out: &mut Vec<u8>, number: u64) -> Result<(), AllocError>
    ensures { OnOk result (out.new.items ≡ out.old.items ++ to_be_bytes w64 number) }
{
    let mut field = [0; 8];
    BigEndian::write_u64(&mut field, number);
    out.extend_from_slice(&field)
}

fn put_small(out: &mut Vec<u8>, number: u32) -> Result<(), AllocError>
    ensures { OnOk result (out.new.items ≡ out.old.items ++ to_be_bytes w32 number) }
{
    let mut field = [0; 4];
    BigEndian::write_u32(&mut field, number);
    out.extend_from_slice(&field)
}

fn put_known(out: &mut Vec<u8>, known: Known) -> Result<(), AllocError>
    ensures bytes { OnOk result (out.new.items ≡ out.old.items ++ known_bytes known) }
    ensures fits { OnOk result (FitsKnown known) }
{
    put_number(out, known.store)?;
    put_number(out, known.starts)
}

/// The numbers of a hello's party and machine.
fn put_numbers(out: &mut Vec<u8>, hello: &Hello) -> Result<(), AllocError>
    ensures bytes { OnOk result (out.new.items ≡ out.old.items ++ numbers_bytes hello.now) }
    ensures fits { OnOk result (FitsNumbers hello.now) }
{
    put_number(out, hello.starts)?;
    put_small(out, hello.fresh)?;
    put_number(out, hello.store)?;
    put_known(out, hello.known)
}

impl Known {
    /// Nothing is known.
    pub fn nothing() -> Known
        ensures { result ≡ nothing_known }
    {
        Known {
            store: 0,
            starts: 0,
        }
    }
}

/// What is said to an end of another group: of this one's it says nothing but the kind and the number of the party.
pub fn said_to_strangers(party: Party) -> Hello
    ensures { result ≡ said_to_strangers party }
{
    Hello {
        identity: [0; 32],
        epoch: Epoch {
            number: 0,
            image: [0; 32],
        },
        party,
        starts: 0,
        fresh: 0,
        store: 0,
        known: Known::nothing(),
    }
}

impl Hello {
    /// What an end that says this answers to another one's hello, of whose party it knows that. It tells its group and
    /// all else only to an end that has told the same group.
    pub fn answer_to(&self, hello: &Hello, known: Known) -> Hello
        ensures { result ≡ answer_to self.now hello.now known }
    {
        if hello.identity == self.identity {
            Hello { known, ..*self }
        } else {
            said_to_strangers(self.party)
        }
    }

    /// Its bytes. It fails only where memory runs out.
    pub fn spell(&self, alloc: Global) -> Result<Vec<u8>, AllocError>
        ensures { IfOk result (λ bytes. IsHello self.now bytes.items) }
    {
        let mut bytes = Vec::new(alloc);
        put_number(&mut bytes, MAGIC * 65536 + VERSION)?;
        bytes.extend_from_slice(&self.identity)?;
        put_number(&mut bytes, self.epoch.number)?;
        bytes.extend_from_slice(&self.epoch.image)?;
        put_party(&mut bytes, self.party)?;
        put_numbers(&mut bytes, self)?;
        Ok(bytes)
    }

    /// The hello that these bytes are, `None` where they are fewer. A fault is told as soon as the first eight bytes
    /// are there: `OtherVersion` behind the magic, else `NoHello`, as of too many bytes, or of a party that can't be.
    pub fn read(bytes: &[u8]) -> Result<Option<Hello>, HelloFault>
        ensures found { IfOk result (λ found. IfSome found (λ hello. IsHello hello bytes.now)) }
        ensures only { (hello : Whose) → IsHello hello bytes.now → result ≡ Ok (Some hello) }
        ensures prefix { (hello : Whose) (more : List ℕ) → FitsHello hello → 0 < length more
            → bytes.now ++ more ≡ hello_bytes hello → result ≡ Ok None }
        ensures exact { result ≡ hello_of bytes.now }
    {
        hello_of(bytes)
    }
}
