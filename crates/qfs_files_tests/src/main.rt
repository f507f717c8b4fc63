//! Holds rows against `qfs_files::reply_at`: scripts, file histories, and commands that are asked
//! at places of these. The rows are the lines of the input, so they cost no proof. It prints the
//! reply to each command, as lines of replies are printed.
#![tactic(auto)]

mod digits;
mod history;
mod puts;
mod replies;
mod rows;
mod words;

use rows::Rows;
use std::io::{self, BufRead, BufReader, Write};
use words::Bad;

fn main(rt: HostRuntime) -> io::Result<()> {
    let alloc = rt.alloc();
    let mut rows = Rows::new(alloc);
    for (before, line) in BufReader::new(alloc, rt.reader())?.lines(alloc).enumerate() {
        let line = line?;
        match rows.take(alloc, &line) {
            Ok(text) => rt.stdout().write_all(text.as_slice())?,
            Err(Bad::Row) => println!(rt; "line {}: {line}", before + 1)?,
            Err(Bad::NoMemory) => println!(rt; "line {}: no memory", before + 1)?,
        }
    }
    println!(rt; "commands: {}", rows.asked)
}
