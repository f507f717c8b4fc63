//! The script of a run is read whole.
ghost use Rattle.std.specs.Prelude.{◌≤◌, IfOk, IfErr};
ghost use Rattle.qfs_driver.specs.Reading.{ReadsWhole, ReadEnds};

use crate::status::Status;
use qfs_base::script::{Script, ScriptCause};
use qfs_device::{DeviceError, Source, read_all};
use qfs_first::ScriptError;
use std::alloc::Global;

/// The most bytes of a script.
const MOST_SCRIPT_BYTES: usize = 16_777_216;

/// Reads a script to its end. The error is why there is none to run: the source failed, memory is
/// wanting, or the script is refused at a line; a script of more than 16,777,216 bytes is refused
/// at line 0.
pub fn read_script<S: Source>(alloc: Global, source: &mut S) -> Result<Script, Status>
    ensures ok { IfOk result (ReadsWhole (S.left source.old) (S.left source.new)) }
    ensures never_falls { S.faults source.old ≤ S.faults source.new }
    ensures err { IfErr result (ReadEnds (S.left source.old) (S.left source.new)
        (S.faults source.old) (S.faults source.new)) }
{
    let bytes = match read_all(alloc, source, MOST_SCRIPT_BYTES) {
        Ok(bytes) => bytes,
        Err(DeviceError::Failed) => return Err(Status::ReadFault),
        Err(DeviceError::NoMemory) => return Err(Status::NoMemory),
    };
    if bytes.len() > MOST_SCRIPT_BYTES {
        return Err(Status::BadScript {
            line: 0,
            cause: ScriptCause::NotYet,
        });
    }
    match qfs_first::read(alloc, bytes.as_slice()) {
        Ok(script) => Ok(script),
        Err(ScriptError::NoMemory) => Err(Status::NoMemory),
        Err(ScriptError::Bad { line, cause }) => Err(Status::BadScript { line, cause }),
    }
}
