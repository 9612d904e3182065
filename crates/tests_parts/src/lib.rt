//! Worked rows of what can be no row of a file: process images in threads, of which no contract says that each call is one
//! hold of its lock, words that threads show one another, a machine that performs an image without a controller, links
//! within a process, whose connections nobody else can end, and links and timers with histories. A test is a table that
//! is handed to a function with one loop, and what it makes is made and dropped in that function. The crate has tests
//! alone, uses the crates of those parts, and no crate uses it. Bytes, controllers and replicas are rows of
//! `tests_bytes`, what the program prints are rows of `tests_rows`, what a call of it does with its words, files and
//! streams are rows of `tools/try/words`, and what a served controller or a machine of a group does is tried by
//! `tools/try/try-serve` and `tools/try/try-machines`.
#![tactic(auto)]

#[cfg(test)]
mod board_rows;
#[cfg(test)]
mod history_rows;
#[cfg(test)]
mod images;
#[cfg(test)]
mod link_rows;
#[cfg(test)]
mod machine_rows;
#[cfg(test)]
mod process_image_rows;
#[cfg(test)]
mod store_rows;
