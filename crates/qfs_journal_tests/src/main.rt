//! Holds rows written by hand against the readers and writers of the metaserver's bytes: records of
//! requests, images of its state, and bytes that are neither. The rows are the lines of the input,
//! so they cost no proof. It prints each line whose row is taken otherwise, and then how many rows
//! there were.
//!
//! A row of bytes that are a record or an image is tried in all of these ways: they are read whole,
//! also before another byte, and written again the same; no shorter front of them is read; and
//! where they are still read with a byte changed, what is read is written again the same.
#![tactic(auto)]

mod digits;
mod fronts;
mod rows;

use rows::Rows;
use std::io::{self, BufRead, BufReader};

fn main(rt: HostRuntime) -> io::Result<()> {
    let alloc = rt.alloc();
    let mut rows = Rows::new(alloc);
    for (before, line) in BufReader::new(alloc, rt.reader())?.lines(alloc).enumerate() {
        let line = line?;
        let holds = rows.take(alloc, &line)?;
        if !holds {
            println!(rt; "line {}: {line}", before + 1)?;
        }
    }
    println!(rt; "records: {}", rows.records)?;
    println!(rt; "images: {}", rows.images)
}
