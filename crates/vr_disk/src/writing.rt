//! What is to be written.

use vr_journal::File;

/// Bytes that are to be written to a file from a place on, and flushed.
#[derive(Drop)]
pub struct Writing {
    pub file: File,
    pub at: usize,
    pub bytes: Vec<u8>,
}
