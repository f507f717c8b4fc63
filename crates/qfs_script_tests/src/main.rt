//! Holds rows written by hand against the reader and the printer of scripts: which texts are
//! scripts, and of all others which line is the first bad one and what is wrong with it. The rows
//! are the lines of the input, so they cost no proof. It prints each line whose row is taken
//! otherwise, and then how many texts of each kind there were.
#![tactic(auto)]

mod rows;
mod scripts;
mod texts;

use rows::Rows;
use std::io::{self, BufRead, BufReader};

fn main(rt: HostRuntime) -> io::Result<()> {
    let alloc = rt.alloc();
    let mut rows = Rows::new(alloc);
    for (before, line) in BufReader::new(alloc, rt.reader())?.lines(alloc).enumerate() {
        let line = line?;
        let holds = rows.take(alloc, &line)?;
        if !holds {
            println!(rt; "line {}: {line}", before + 1)?;
        }
    }
    println!(rt; "scripts: {}", rows.scripts)?;
    println!(rt; "bad texts: {}", rows.bad)
}
