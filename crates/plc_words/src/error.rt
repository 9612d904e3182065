//! Why words ask for no work.

ghost use Rattle.std.specs.Prelude.{◌≡◌};
ghost use Rattle.clap.specs.Values.{kind_of};
ghost use Rattle.plc_words.specs.declared.error.WordsError.TheVariants.{Memory, Version};

use clap::error::ErrorKind;
use std::alloc::{AllocError, Global};
use std::io;
use thiserror::Error;

/// Why the words of a call ask for no work.
#[derive(Debug, Drop, Error)]
pub enum WordsError {
    /// Help was asked for: the text for standard output.
    #[error("{0}")]
    Shown(String),
    /// The version was asked for, which the program itself knows.
    #[error("the version was asked for")]
    Version,
    /// The words are no call of the program: the text for standard error.
    #[error("{0}")]
    Bad(String),
    /// A word is no text in UTF-8.
    #[error("a word is no text in UTF-8")]
    NotText,
    /// Memory ran out.
    #[error("out of memory")]
    Memory,
}

impl WordsError {
    /// What `clap` answers in place of matches.
    pub(crate) fn of(alloc: Global, error: &clap::Error) -> WordsError
        ensures version { kind_of error.now ≡ ErrorKind.DisplayVersion → result ≡ Version }
    {
        let kind = error.kind();
        if kind == ErrorKind::DisplayVersion {
            return WordsError::Version;
        }
        match format!(in alloc; "{error}") {
            Ok(text) if !error.use_stderr() => WordsError::Shown(text),
            Ok(text) if kind != ErrorKind::OutOfMemory => WordsError::Bad(text),
            _ => WordsError::Memory,
        }
    }
}

impl From<AllocError> for WordsError {
    ghost from_gives = { λ _ e. e ≡ Memory };

    fn from(_error: AllocError) -> WordsError {
        WordsError::Memory
    }
}

/// What the system answers when it is asked for the words.
impl From<io::Error> for WordsError {
    fn from(error: io::Error) -> WordsError {
        match error.kind() {
            io::ErrorKind::OutOfMemory => WordsError::Memory,
            _ => WordsError::NotText,
        }
    }
}
