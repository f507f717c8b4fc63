//! How a run ends.
#![tactic(auto, unfolding(crate::specs::Status::exit_code, crate::specs::Status::script_cause_word, crate::specs::Status::status_text))]

ghost use Rattle.std.specs.Prelude.{◌≡◌, ◌++◌, decimal, OnOk};
ghost use Rattle.qfs_driver.specs.Status.{exit_code, script_cause_word, status_text};

use itoa::Buffer;
use qfs_base::numbers::ServerId;
use qfs_base::script::ScriptCause;
use std::alloc::AllocError;

/// How a run ends.
#[derive(Clone, Copy, PartialEq, Eq)]
pub enum Status {
    /// The output was written whole.
    Ok,
    /// The words are none that the program is run with.
    Usage,
    /// This line of the script is the first that is refused; line 0 stands for the whole script.
    BadScript { line: u32, cause: ScriptCause },
    /// The script has more servers than there are devices.
    TooFewDevices { servers: u16, devices: u64 },
    /// The source of the script failed.
    ReadFault,
    /// The sink of the output failed; a first part of the output was written.
    WriteFault,
    NoMemory,
    /// This server's device failed in a put or a fetch.
    DeviceFault { server: ServerId },
}

/// The word for why a line of a script is refused.
fn cause_text(cause: ScriptCause) -> &'static [u8]
    ensures { result.now ≡ script_cause_word cause }
{
    match cause {
        ScriptCause::TooBig => b"toobig",
        ScriptCause::NotText => b"nottext",
        ScriptCause::Word => b"word",
        ScriptCause::Count => b"count",
        ScriptCause::Number => b"number",
        ScriptCause::Path => b"path",
        ScriptCause::Hex => b"hex",
        ScriptCause::Limit => b"limit",
        ScriptCause::NoOrder => b"noorder",
        ScriptCause::NotYet => b"notyet",
    }
}

/// Appends a word that ends in a blank, and a number.
fn push_count(out: &mut Vec<u8>, word: &[u8], count: u64) -> Result<(), AllocError>
    ensures { OnOk result (out.new.items ≡ out.old.items ++ (word.now ++ decimal count)) }
{
    let mut buffer = Buffer::new();
    out.extend_from_slice(word)?;
    out.extend_from_slice(buffer.format(count).as_bytes())?;
    Ok(())
}

impl Status {
    /// The program's exit code.
    pub fn code(self) -> u8
        ensures { result ≡ exit_code self }
    {
        match self {
            Status::Ok => 0,
            Status::Usage => 2,
            Status::BadScript { .. } => 3,
            Status::TooFewDevices { .. } => 5,
            Status::ReadFault => 6,
            Status::WriteFault => 7,
            Status::NoMemory => 10,
            Status::DeviceFault { .. } => 11,
        }
    }

    /// Appends what is said of it on standard error, without the end of the line. On want of
    /// memory `out` holds a first part of that.
    pub fn push_text(self, out: &mut Vec<u8>) -> Result<(), AllocError>
        ensures { OnOk result (out.new.items ≡ out.old.items ++ status_text self) }
    {
        match self {
            Status::Ok => Ok(()),
            Status::Usage => out.extend_from_slice(b"usage: qfs step N | replay | run | make N"),
            Status::BadScript { line, cause } => {
                push_count(out, b"line ", u64::from(line))?;
                out.extend_from_slice(b": ")?;
                out.extend_from_slice(cause_text(cause))
            }
            Status::TooFewDevices { devices, .. } => push_count(out, b"devices ", devices),
            Status::ReadFault => out.extend_from_slice(b"read"),
            Status::WriteFault => out.extend_from_slice(b"write"),
            Status::NoMemory => out.extend_from_slice(b"memory"),
            Status::DeviceFault { server } => push_count(out, b"device ", u64::from(server)),
        }
    }
}
