//! The scan driver: the client of a replicated controller that has a plant scanned. It samples the staged inputs of
//! `io_image`, submits their scan through `vr_client`, and turns the answer into the release that is published. It is a
//! value: it says what to send, and knows no link, no thread and no pace.
//!
//! ```rust
//! use io_driver::ScanDriver;
//!
//! let mut driver = ScanDriver::new(&config, 0); // client 0, which never started before
//! let sends = driver.sample_and_submit(alloc, &mut staging, 250)?; // the scan of one sample, at moment 250
//! let release = driver.on_reply(&message); // Some where the message is the REPLY to it, and released outputs
//! ```
//!
//! Proved: the `ScanDriver` is a client of the replication rules, and submits a scan of exactly the sample that it
//! took; where none may be submitted, or memory runs out, no sample is taken. A release has the number of the request
//! that waited, and the image of the first REPLY to it.
//!
//! Tests: served controllers scan by it (`tools/try/try-serve`). Nothing rests on them alone.
#![tactic(auto)]

mod driver;

pub use driver::ScanDriver;
