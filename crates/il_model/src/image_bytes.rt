//! The bytes that a change of the program brings.

ghost use Rattle.std.specs.Prelude.{◌≡◌, ◌≤◌, ◌↔◌, length, IfOk, IfSome, IsSome};
ghost use Rattle.il_model.specs.Limits.{is_short_image, is_long_image};

use crate::limits::{MOST_IMAGE_BYTES, SHORT_IMAGE_BYTES};
use std::alloc::{AllocError, Global};
use std::marker::Model;

/// Whether bytes have the shorter of the two spellings that the image of a change may have.
pub fn is_short_image(bytes: &[u8]) -> bool
    ensures { result ≡ is_short_image bytes.now }
{
    bytes.len() <= SHORT_IMAGE_BYTES
}

/// Whether they have the longer one.
pub fn is_long_image(bytes: &[u8]) -> bool
    ensures { result ≡ is_long_image bytes.now }
{
    !is_short_image(bytes) && bytes.len() <= MOST_IMAGE_BYTES
}

/// Bytes that are meant as the image of a program, `MOST_IMAGE_BYTES` at most.
#[derive(Debug, Drop)]
pub struct ImageBytes {
    bytes: Vec<u8>,
}

impl Model for ImageBytes {
    ghost use Rattle.std.specs.Prelude.{◌≤◌, ℕ, List, length};
    ghost use Rattle.il_model.specs.declared.limits.TheConstants.{MOST_IMAGE_BYTES};

    ghost Value = { List ℕ };

    ghost view = { λ b. b.bytes.items };

    ghost invariant = { λ b. length b.bytes.items ≤ MOST_IMAGE_BYTES };
}

impl PartialEq for ImageBytes {
    ghost use Rattle.std.specs.Prelude.{nat_eq};
    ghost use Rattle.std.specs.Cmp.{partial_equiv_from_equiv};
    ghost use Rattle.std.specs.Cmp.Lexicographic.{pointwise, nat_list_eq_equiv};

    ghost eq = { pointwise nat_eq };

    ghost laws = { partial_equiv_from_equiv nat_list_eq_equiv };

    fn eq(&self, other: &ImageBytes) -> bool {
        self.bytes.as_slice() == other.bytes.as_slice()
    }
}

impl Eq for ImageBytes {
    ghost use Rattle.std.specs.Cmp.Lexicographic.{nat_list_eq_equiv};

    ghost laws = { nat_list_eq_equiv };
}

impl ImageBytes {
    /// These bytes, or `None` where they are too many.
    pub fn new(bytes: Vec<u8>) -> Option<ImageBytes>
        ensures in_range { IsSome result ↔ (length bytes.items ≤ MOST_IMAGE_BYTES) }
        ensures value { IfSome result (λ b. b ≡ bytes.items) }
    {
        if bytes.len() <= MOST_IMAGE_BYTES {
            Some(ImageBytes { bytes })
        } else {
            None
        }
    }

    /// The bytes.
    pub fn as_slice(&self) -> &[u8]
        ensures value { result.now ≡ self.now }
        ensures bound { length self.now ≤ MOST_IMAGE_BYTES }
    {
        self.bytes.as_slice()
    }

    /// An equal one; it fails only where memory runs out.
    pub fn copy(&self, alloc: Global) -> Result<ImageBytes, AllocError>
        ensures { IfOk result (λ b. b ≡ self.now) }
    {
        Ok(ImageBytes {
            bytes: Vec::from_slice(alloc, self.bytes.as_slice())?,
        })
    }
}
