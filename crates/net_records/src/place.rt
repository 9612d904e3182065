//! Where a stream of records stands, byte by byte.

ghost use Rattle.std.specs.Prelude.{◌≡◌, ◌≤◌, ◌<◌, length, take};
ghost use Rattle.net_records.specs.Records.{IsPlace, bodies_from, place_behind, place_in};

/// Where a stream of records stands.
#[derive(Clone, Copy, Debug, PartialEq, Eq)]
pub(crate) enum Place {
    /// Before a length.
    Length,
    /// Within a length, behind its high byte.
    LowByte(u8),
    /// In a body, of which so many bytes are to come, one at least.
    Body(u16),
}

/// In a body of which so many bytes are to come: before the next length where there are none.
fn place_in(left: u16) -> Place
    ensures is { result ≡ place_in left }
    ensures lawful { IsPlace result }
{
    if left == 0 {
        Place::Length
    } else {
        Place::Body(left)
    }
}

/// How many bytes a turn used, and how many of them it gave.
#[derive(Clone, Copy)]
pub(crate) struct Turn {
    pub(crate) used: usize,
    pub(crate) given: usize,
}

/// Goes on behind the first of these bytes, or, in a body, behind as many as there are and as `out` has room for, which
/// it gives to the front of `out`.
pub(crate) fn go_on(place: &mut Place, bytes: &[u8], out: &mut [u8]) -> Turn
    requires place { IsPlace place.old }
    requires some { 0 < length bytes.now }
    requires room { 0 < length out.old }
    ensures used { (0 < result.used) × (result.used ≤ length bytes.now) }
    ensures fits { result.given ≤ length out.new }
    ensures given { take result.given out.new ≡ bodies_from place.old (take result.used bytes.now) }
    ensures place { place.new ≡ place_behind place.old (take result.used bytes.now) }
    ensures lawful { IsPlace place.new }
{
    match *place {
        Place::Length => {
            *place = Place::LowByte(bytes[0]);
            Turn { used: 1, given: 0 }
        }
        Place::LowByte(high) => {
            *place = place_in(u16::from(high) * 256 + u16::from(bytes[0]));
            Turn { used: 1, given: 0 }
        }
        Place::Body(left) => {
            let count = give(left, bytes, out);
            *place = place_in(left - count as u16);
            Turn {
                used: count,
                given: count,
            }
        }
    }
}

/// Copies so many bytes at most to the front of `out`, and tells how many.
fn give(most: u16, bytes: &[u8], out: &mut [u8]) -> usize
    requires most { 0 < most }
    requires some { 0 < length bytes.now }
    requires room { 0 < length out.old }
    ensures some { 0 < result }
    ensures most { result ≤ most }
    ensures used { result ≤ length bytes.now }
    ensures fits { result ≤ length out.new }
    ensures copied { take result out.new ≡ take result bytes.now }
{
    let count = usize::from(most).min(bytes.len()).min(out.len());
    out[..count].copy_from_slice(&bytes[..count]);
    count
}
