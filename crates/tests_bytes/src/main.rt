//! Reads files of rows of what only shows inside of the program: frames between replicas, replicas and controllers by
//! the frames that they take and send, drivers and epochs of machines, cycles of a field, keys between machines. It
//! prints the rows that come out otherwise, and how many each file has, and ends with the status 1 where one does.
//! `data/README.md` tells how a row is written. What shows from outside is tried over the program itself
//! (`tools/try/try-built`). No crate uses it.
#![tactic(auto)]

mod drivers;
mod epochs;
mod fields;
mod frames;
mod groups;
mod keys;
mod notation;
mod replicas;
mod rows;
mod sealed;
mod stores;

use rows::Found;
use std::process::ExitCode;
use std::{env, fs, io};

/// Prints what came of a file: whether each row came out as it says.
fn is_as_said(rt: &HostRuntime, name: &str, found: &Found) -> io::Result<bool> {
    for row in &found.otherwise {
        println!(rt; "otherwise: {row}")?;
    }
    let (rows, otherwise) = (found.rows, found.otherwise.len());
    println!(rt; "{name}: {rows} rows, {otherwise} otherwise")?;
    Ok(otherwise == 0)
}

fn main(rt: HostRuntime) -> io::Result<ExitCode> {
    let words: Vec<String> = env::args(&rt)?.collect(rt.alloc())?;
    let mut status = ExitCode::SUCCESS;
    for file in words.iter().skip(1) {
        let name = file.as_str();
        let text = fs::read_to_string(&rt, name)?;
        let found = rows::checked(rt.alloc(), name, text.as_str())?;
        if !is_as_said(&rt, name, &found)? {
            status = ExitCode::FAILURE;
        }
    }
    Ok(status)
}
