//! A file that isn't there before something is written to it.

use std::io::Write;
use std::rt::Files;
use std::{fs, io};

/// A file that is made, or emptied if it's there, at its first write.
#[derive(Drop)]
pub struct NewFile<'a, R: Files> {
    rt: &'a R,
    path: &'a str,
    file: Option<R::File>,
}

impl<'a, R: Files> NewFile<'a, R> {
    /// The file at this path, not made yet.
    pub fn at(rt: &'a R, path: &'a str) -> NewFile<'a, R> {
        NewFile {
            rt,
            path,
            file: None,
        }
    }
}

impl<R: Files> Write for NewFile<'_, R> {
    fn write(&mut self, bytes: &[u8]) -> io::Result<usize> {
        let mut file = match self.file.take() {
            Some(file) => file,
            None => fs::create(self.rt, self.path)?,
        };
        let written = file.write(bytes);
        self.file = Some(file);
        written
    }

    fn flush(&mut self) -> io::Result<()> {
        match &mut self.file {
            Some(file) => file.flush(),
            None => Ok(()),
        }
    }
}
