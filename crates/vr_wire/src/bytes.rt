//! Bytes as they are.

ghost use Rattle.vr_wire.specs.Reading.{Gives, taken};

use crate::fault::ReadError;

/// So many bytes, and what is behind them.
pub(crate) fn taken(count: usize, bytes: &[u8]) -> Result<(&[u8], &[u8]), ReadError>
    ensures { Gives (λ x. (x.0.now, x.1.now)) result (taken count bytes.now) }
{
    if bytes.len() < count {
        return Err(ReadError::Malformed);
    }
    Ok(bytes.split_at(count))
}
