//! The image of a small program, by its bytes.

use il_loader::{Image, load};
use std::alloc::Global;
use std::test::Fail;

/// `VAR A : BOOL; B AT %QX0.1 : BOOL; END_VAR`, `LD %IX0.0`, `STN A`, `STN B`.
pub const THREE_STORES: &[u8] =
    b"ILPC\0\x01\0\x02\0\0\0\0\0\0\0\x03\x01A\0\xff\xff\0\0\0\0\x01B\0\x10\x01\0\0\0\0\x01\0\0\0\x02\x01\x40\0\x02\x01\x40\x01";

/// The image of these bytes.
pub fn image(alloc: Global, bytes: &[u8]) -> Result<Image, Fail> {
    match load(alloc, bytes) {
        Ok(image) => Ok(image),
        Err(_) => Err(Fail::from("no image")),
    }
}
