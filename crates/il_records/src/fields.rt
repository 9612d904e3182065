//! The fields of records.

ghost use Rattle.std.specs.Prelude.{◌≡◌};
ghost use Rattle.std.specs.Int.{w8, w16, w32, w64};
ghost use Rattle.il_model.specs.Codes.{constant_of, version_numbered};
ghost use Rattle.il_records.specs.Fields.{Gives, number_at, signed_at, lawful, agrees, count_at, counts_at};
ghost use Rattle.il_records.specs.Fields.{lawful_version, header_at, spelled_name_at, first_value_at, declared_at};
ghost use Rattle.il_records.specs.Fields.{constant_at};

use crate::counts::Counts;
use crate::fault::{LoadError, LoadFault};
use il_model::{
    Constants, Loc, MAGIC, MOST_IMAGE_WORDS, Ty, Value, Version, initial_of, length_in, make,
    plain_code, retained_in, type_in,
};

/// A byte, and the bytes behind it; Truncated where there is none.
pub fn u8_at(bytes: &[u8]) -> Result<(u8, &[u8]), LoadError>
    ensures { Gives (λ x. (x.0, x.1.now)) result (number_at w8 bytes.now) }
{
    if bytes.len() < 1 {
        return Err(LoadError::Fault(LoadFault::Truncated));
    }
    let (front, rest) = bytes.split_at(1);
    Ok((u8::from_be_bytes([front[0]]), rest))
}

/// A number of two bytes, and the bytes behind it; Truncated where they end before.
pub fn u16_at(bytes: &[u8]) -> Result<(u16, &[u8]), LoadError>
    ensures { Gives (λ x. (x.0, x.1.now)) result (number_at w16 bytes.now) }
{
    if bytes.len() < 2 {
        return Err(LoadError::Fault(LoadFault::Truncated));
    }
    let (front, rest) = bytes.split_at(2);
    Ok((u16::from_be_bytes([front[0], front[1]]), rest))
}

fn u32_at(bytes: &[u8]) -> Result<(u32, &[u8]), LoadError>
    ensures { Gives (λ x. (x.0, x.1.now)) result (number_at w32 bytes.now) }
{
    if bytes.len() < 4 {
        return Err(LoadError::Fault(LoadFault::Truncated));
    }
    let (front, rest) = bytes.split_at(4);
    Ok((
        u32::from_be_bytes([front[0], front[1], front[2], front[3]]),
        rest,
    ))
}

fn u64_at(bytes: &[u8]) -> Result<(u64, &[u8]), LoadError>
    ensures { Gives (λ x. (x.0, x.1.now)) result (number_at w64 bytes.now) }
{
    if bytes.len() < 8 {
        return Err(LoadError::Fault(LoadFault::Truncated));
    }
    let (b, rest) = bytes.split_at(8);
    Ok((
        u64::from_be_bytes([b[0], b[1], b[2], b[3], b[4], b[5], b[6], b[7]]),
        rest,
    ))
}

/// A number as an image of this version has it.
fn signed_at(version: Version, bytes: &[u8]) -> Result<(i64, &[u8]), LoadError>
    ensures { Gives (λ x. (x.0, x.1.now)) result (signed_at version bytes.now) }
{
    match version {
        Version::One => {
            let (bits, rest) = u32_at(bytes)?;
            Ok((i64::from(bits.cast_signed()), rest))
        }
        Version::Two | Version::Three => {
            let (bits, rest) = u64_at(bytes)?;
            Ok((bits.cast_signed(), rest))
        }
    }
}

/// A value that is there, or the record's fault.
pub fn lawful<T: Drop>(position: usize, value: Option<T>) -> Result<T, LoadError>
    ensures { Gives (λ x. x) result (lawful position value) }
{
    match value {
        Some(x) => Ok(x),
        None => Err(LoadError::Fault(LoadFault::BadWord { position })),
    }
}

/// A test, and the fault where it fails.
pub fn agrees(fault: LoadFault, test: bool) -> Result<(), LoadError>
    ensures { Gives (λ x. x) result (agrees fault test) }
{
    if test {
        Ok(())
    } else {
        Err(LoadError::Fault(fault))
    }
}

fn count_at(limit: usize, bytes: &[u8]) -> Result<(u16, &[u8]), LoadError>
    ensures { Gives (λ x. (x.0, x.1.now)) result (count_at limit bytes.now) }
{
    let (n, rest) = u16_at(bytes)?;
    agrees(LoadFault::BadCount, usize::from(n) <= limit)?;
    Ok((n, rest))
}

#[tactic(auto, unfolding(crate::specs::Fields::counts_at))]
fn counts_at(version: Version, bytes: &[u8]) -> Result<(Counts, &[u8]), LoadError>
    ensures { Gives (λ x. (x.0, x.1.now)) result (counts_at version bytes.now) }
{
    let (variables, rest) = count_at(version.most_variables(), bytes)?;
    let (instances, rest) = count_at(version.most_instances(), rest)?;
    let (labels, rest) = count_at(version.most_instructions(), rest)?;
    let (constants, rest) = count_at(version.most_constants(), rest)?;
    let (words, rest) = count_at(MOST_IMAGE_WORDS, rest)?;
    Ok((
        Counts {
            variables,
            instances,
            labels,
            constants,
            words,
        },
        rest,
    ))
}

/// The version that a number stands for.
fn lawful_version(number: u16) -> Result<Version, LoadError>
    ensures { Gives (λ x. x) result (lawful_version (version_numbered number)) }
{
    match Version::of_number(number) {
        Some(version) => Ok(version),
        None => Err(LoadError::Fault(LoadFault::BadVersion)),
    }
}

/// The version and how much of each there is, and the bytes behind.
#[tactic(auto, unfolding(crate::specs::Fields::header_at))]
pub fn header_at(bytes: &[u8]) -> Result<(Version, Counts, &[u8]), LoadError>
    ensures { Gives (λ x. (x.0, x.1, x.2.now)) result (header_at bytes.now) }
{
    let (magic, rest) = u32_at(bytes)?;
    agrees(LoadFault::BadMagic, magic == u32::from_be_bytes(MAGIC))?;
    let (number, rest) = u16_at(rest)?;
    let version = lawful_version(number)?;
    let (counts, rest) = counts_at(version, rest)?;
    Ok((version, counts, rest))
}

/// The bytes of a name, which stand behind their number, and those behind it. BadWord, at the position, where no name
/// has so many; Truncated where the bytes end before.
#[tactic(auto, unfolding(crate::specs::Fields::spelled_name_at))]
pub fn spelled_name_at(
    version: Version,
    position: usize,
    bytes: &[u8],
) -> Result<(&[u8], &[u8]), LoadError>
    ensures { Gives (λ x. (x.0.now, x.1.now)) result (spelled_name_at version position bytes.now) }
{
    let (first, rest) = u8_at(bytes)?;
    let n = lawful(position, length_in(version, first))? as usize;
    if rest.len() < n {
        return Err(LoadError::Fault(LoadFault::Truncated));
    }
    Ok(rest.split_at(n))
}

/// The first value of a variable with this type and location, whose record begins at the position.
#[tactic(auto, unfolding(crate::specs::Fields::first_value_at))]
pub fn first_value_at(
    version: Version,
    position: usize,
    ty: Ty,
    location: Option<Loc>,
    bytes: &[u8],
) -> Result<(Value, &[u8]), LoadError>
    ensures { Gives (λ x. (x.0, x.1.now)) result (first_value_at version position ty location bytes.now) }
{
    let (number, rest) = signed_at(version, bytes)?;
    let value = lawful(position, initial_of(ty, location, number))?;
    Ok((value, rest))
}

/// The code of a declaration, in a record that begins at the position: whether what it declares is retained, and the
/// code of its type or kind.
#[tactic(auto, unfolding(crate::specs::Fields::declared_at))]
pub fn declared_at(
    version: Version,
    position: usize,
    bytes: &[u8],
) -> Result<(bool, u8, &[u8]), LoadError>
    ensures { Gives (λ x. ((x.0, x.1), x.2.now)) result (declared_at version position bytes.now) }
{
    let (code, rest) = u8_at(bytes)?;
    let retained = lawful(position, retained_in(version, code))?;
    Ok((retained, plain_code(code), rest))
}

/// The constant that a number stands for, if none of these is the same.
fn constant_of(seen: &Constants, ty: Ty, number: i64) -> Option<Value>
    ensures { result ≡ constant_of seen.now ty number }
{
    let v = make(ty, number)?;
    if seen.place(v).is_some() {
        None
    } else {
        Some(v)
    }
}

/// A constant, where none of these is the same, and the bytes behind it. BadWord, at the place where it begins in an
/// image of `total` bytes, where its type or its number isn't lawful; Truncated where the bytes end before.
#[tactic(auto, unfolding(crate::specs::Fields::constant_at))]
pub fn constant_at<'a>(
    version: Version,
    total: usize,
    seen: &Constants,
    bytes: &'a [u8],
) -> Result<(Value, &'a [u8]), LoadError>
    ensures { Gives (λ x. (x.0, x.1.now)) result (constant_at version total seen.now bytes.entry.now) }
{
    let position = total.saturating_sub(bytes.len());
    let (code, rest) = u8_at(bytes)?;
    let ty = lawful(position, type_in(version, code))?;
    let (number, rest) = signed_at(version, rest)?;
    let value = lawful(position, constant_of(seen, ty, number))?;
    Ok((value, rest))
}
