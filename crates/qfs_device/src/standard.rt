//! Standard input and standard output. What they give and take is beyond every contract, so they
//! tell nothing of it.
ghost use Rattle.std.specs.Prelude.{◌≡◌, None};

use crate::errors::Failed;
use crate::stream::{Sink, Source};
use std::io::{ErrorKind, Read, Write};
use std::rt::{Stdin, Stdout};

/// Standard input as a source. It tells nothing of what is left.
#[derive(Drop)]
pub struct StdSource {
    stdin: Stdin,
    faults: u64,
}

impl StdSource {
    pub fn new(stdin: Stdin) -> StdSource
        ensures { result.faults ≡ 0 }
    {
        StdSource { stdin, faults: 0 }
    }
}

impl Source for StdSource {
    ghost left = { λ _. None };

    ghost faults = { λ source. source.faults };

    /// Reads until a read isn't interrupted. Each error raises the count.
    fn read(&mut self, out: &mut [u8]) -> Result<usize, Failed> {
        for _ in 0..u64::MAX {
            match self.stdin.read(out) {
                Ok(count) => return Ok(count),
                Err(error) => {
                    self.faults = self.faults.saturating_add(1);
                    if error.kind() != ErrorKind::Interrupted {
                        return Err(Failed);
                    }
                }
            }
        }
        self.faults = self.faults.saturating_add(1);
        Err(Failed)
    }
}

/// Standard output as a sink. It tells nothing of what was written.
#[derive(Drop)]
pub struct StdSink {
    stdout: Stdout,
    faults: u64,
}

impl StdSink {
    pub fn new(stdout: Stdout) -> StdSink
        ensures { result.faults ≡ 0 }
    {
        StdSink { stdout, faults: 0 }
    }
}

impl Sink for StdSink {
    ghost written = { λ _. None };

    ghost faults = { λ sink. sink.faults };

    /// Writes until a write isn't interrupted. Each error raises the count, and so does a write
    /// that takes nothing of a piece that isn't empty.
    fn write(&mut self, bytes: &[u8]) -> Result<usize, Failed> {
        for _ in 0..u64::MAX {
            match self.stdout.write(bytes) {
                Ok(0) if !bytes.is_empty() => {
                    self.faults = self.faults.saturating_add(1);
                    return Err(Failed);
                }
                Ok(count) => return Ok(count),
                Err(error) => {
                    self.faults = self.faults.saturating_add(1);
                    if error.kind() != ErrorKind::Interrupted {
                        return Err(Failed);
                    }
                }
            }
        }
        self.faults = self.faults.saturating_add(1);
        Err(Failed)
    }
}
