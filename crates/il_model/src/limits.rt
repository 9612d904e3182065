//! How much a program, an area, a name and an image may have.

/// A program has at most so many variables.
pub const MOST_VARIABLES: usize = 4096;

/// A program has at most so many function block instances.
pub const MOST_INSTANCES: usize = 1024;

/// A program has at most so many instructions.
pub const MOST_INSTRUCTIONS: usize = 16384;

/// A program of more than `EARLIER_INSTRUCTIONS` has at most so many words: each instruction is one, and each argument
/// of a call another. So it has no more constants either.
pub const MOST_WORDS: usize = 32767;

/// A program whose image is of the first or the second version has at most so many variables.
pub const EARLIER_VARIABLES: usize = 512;

/// Such a program has at most so many function block instances.
pub const EARLIER_INSTANCES: usize = 128;

/// Such a program has at most so many instructions.
pub const EARLIER_INSTRUCTIONS: usize = 4096;

/// Such a program has at most so many constants: five for each instruction, as many as a block has inputs.
pub const EARLIER_CONSTANTS: usize = 20480;

/// An image has at most so many words: nine for each of `EARLIER_INSTRUCTIONS`, as no block has more than eight fields.
pub const MOST_IMAGE_WORDS: usize = 36864;

/// At most so many parentheses are open at an instruction.
pub const MOST_OPEN_PARENTHESES: usize = 16;

/// An area has so many bits.
pub const BITS: usize = 512;

/// An area has so many words.
pub const WORDS: usize = 64;

/// A name without dots, and each part of one with dots, has at most so many characters.
pub const LONGEST_NAME: usize = 32;

/// A name with dots has at most so many bytes.
pub const LONGEST_DOTTED_NAME: usize = 96;

/// An image that a change of the program brings has at most so many bytes.
pub const MOST_IMAGE_BYTES: usize = 1_048_576;

/// One that has more than these is told apart, in frames and in JSON.
pub const SHORT_IMAGE_BYTES: usize = 32768;
