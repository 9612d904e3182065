//! A file that isn't there before something is written to it.
//!
//! ```rust
//! use io_file::NewFile;
//!
//! let mut file = NewFile::at(&rt, "motor.image"); // no file yet
//! file.write_all(bytes)?; // it's made, or emptied if it was there
//! ```
//!
//! Only tested: that the file is made at its first write (`tools/try/try-serve`); proved is that each call returns and
//! is safe.
#![tactic(auto)]

mod new_file;

pub use new_file::NewFile;
