//! Reading and printing scripts, on texts as a hostile user writes them and on given ones.
//!
//! - `qfs_bench_script measure` makes the texts of `hostile`, and prints for each of them how it is
//!   answered and how many milliseconds of processor time reading it takes;
//! - `qfs_bench_script measure NAME` does so for one of them, and `qfs_bench_script make NAME` only
//!   makes it, so that the memory of both can be compared;
//! - `qfs_bench_script FILE ..` reads the scripts of files, prints each and reads it again, and says
//!   whether it came back the same;
//! - without words it does the same for the script on standard input.
#![tactic(auto)]

mod again;
mod hostile;

use again::show_again;
use hostile::{Hostile, NAMES, hostile_text};
use qfs_script::read;
use std::alloc::Global;
use std::io::Read;
use std::rt::Runtime;
use std::time::{CpuClock, Duration};
use std::{env, fs, io};

fn main(rt: HostRuntime) -> io::Result<()> {
    let alloc = rt.alloc();
    let mut words = Vec::new(alloc);
    for word in env::args(&rt)?.skip(1) {
        words.push(word)?;
    }
    let Some((first, more)) = words.split_first() else {
        let mut text = Vec::new(alloc);
        rt.stdin().read_to_end(&mut text)?;
        return show_again(&rt, alloc, "standard input", text.as_slice());
    };
    match first.as_str() {
        "measure" if more.is_empty() => measure_all(&rt, alloc),
        "measure" => measure_named(&rt, alloc, more),
        "make" => make_named(&rt, alloc, more),
        _ => show_files(&rt, alloc, words.as_slice()),
    }
}

/// Says of each file whether its script comes back the same.
fn show_files<R: Runtime>(rt: &R, alloc: Global, names: &[String]) -> io::Result<()> {
    for name in names {
        let text = fs::read(rt, name.as_str())?;
        show_again(rt, alloc, name.as_str(), text.as_slice())?;
    }
    Ok(())
}

/// Measures all hostile texts.
fn measure_all<R: Runtime + CpuClock>(rt: &R, alloc: Global) -> io::Result<()> {
    for (name, hostile) in NAMES {
        measure(rt, alloc, name, hostile)?;
    }
    Ok(())
}

/// Measures the hostile texts of these names.
fn measure_named<R: Runtime + CpuClock>(rt: &R, alloc: Global, names: &[String]) -> io::Result<()> {
    for (name, hostile) in NAMES {
        if is_among(name, names) {
            measure(rt, alloc, name, hostile)?;
        }
    }
    Ok(())
}

/// Makes the hostile texts of these names, and prints how long they are.
fn make_named<R: Runtime>(rt: &R, alloc: Global, names: &[String]) -> io::Result<()> {
    for (name, hostile) in NAMES {
        if is_among(name, names) {
            let text = hostile_text(alloc, hostile)?;
            println!(rt; "{name}: {} bytes", text.len())?;
        }
    }
    Ok(())
}

/// Whether a name is among others.
fn is_among(name: &str, names: &[String]) -> bool {
    for other in names {
        if other.as_str() == name {
            return true;
        }
    }
    false
}

/// Prints how a hostile text is answered, and how long reading it takes.
fn measure<R: Runtime + CpuClock>(
    rt: &R,
    alloc: Global,
    name: &str,
    hostile: Hostile,
) -> io::Result<()> {
    let text = hostile_text(alloc, hostile)?;
    let start = rt.thread_cpu_time()?;
    let answer = read(alloc, false, text.as_slice());
    let end = rt.thread_cpu_time()?;
    let took = milliseconds(start, end);
    print!(rt; "{name}: {} bytes, {took} ms, ", text.len())?;
    match answer {
        Ok(_script) => println!(rt; "ok"),
        Err(error) => println!(rt; "{error}"),
    }
}

/// Whole milliseconds between two readings.
fn milliseconds(start: Duration, end: Duration) -> u128 {
    end.saturating_sub(start).as_millis()
}
