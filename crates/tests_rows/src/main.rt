//! Reads files of rows, checks by the calls of the program that each row comes out as it says, and prints those that
//! don't and how many rows each file has. `data/README.md` tells how a row is written. It uses `plc_tool`,
//! `plc_symbols`, `il_places` and `plc_words`, and no crate uses it.
#![tactic(auto)]

mod calls;
mod changes;
mod given;
mod notation;
mod rows;
mod words;

use std::{env, fs, io};

fn main(rt: HostRuntime) -> io::Result<()> {
    let words: Vec<String> = env::args(&rt)?.collect(rt.alloc())?;
    for file in words.iter().skip(1) {
        let name = file.as_str();
        let text = fs::read_to_string(&rt, name)?;
        let found = rows::checked(rt.alloc(), text.as_str())?;
        for row in &found.otherwise {
            println!(rt; "otherwise: {row}")?;
        }
        let (rows, otherwise) = (found.rows, found.otherwise.len());
        println!(rt; "{name}: {rows} rows, {otherwise} otherwise")?;
    }
    Ok(())
}
