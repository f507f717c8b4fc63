//! Words and ends of lines. Each call appends to `out`; on want of memory `out` holds a part of
//! what was to be appended.
ghost use Rattle.std.specs.Prelude.{◌≡◌, ◌++◌, ◌∷◌, [], decimal, OnOk};
ghost use Rattle.hex.specs.Hex.{encode_lower};
ghost use Rattle.qfs_base.specs.Path.{path_text};
ghost use Rattle.qfs_model_text.specs.Line.{spaced};

use itoa::Buffer;
use qfs_base::path::Path;
use std::alloc::{AllocError, Global};

/// Appends a blank and the word.
pub fn push_word(out: &mut Vec<u8>, word: &[u8]) -> Result<(), AllocError>
    ensures { OnOk result (out.new.items ≡ out.old.items ++ spaced word.now) }
{
    out.push(b' ')?;
    out.extend_from_slice(word)?;
    Ok(())
}

/// Appends the decimal digits of a number.
pub fn push_digits(out: &mut Vec<u8>, number: u64) -> Result<(), AllocError>
    ensures { OnOk result (out.new.items ≡ out.old.items ++ decimal number) }
{
    let mut buffer = Buffer::new();
    out.extend_from_slice(buffer.format(number).as_bytes())?;
    Ok(())
}

/// Appends a blank and the decimal digits of a number.
pub fn push_number(out: &mut Vec<u8>, number: u64) -> Result<(), AllocError>
    ensures { OnOk result (out.new.items ≡ out.old.items ++ spaced (decimal number)) }
{
    out.push(b' ')?;
    push_digits(out, number)
}

/// Appends a blank and the bytes as two small digits each.
pub fn push_hex(alloc: Global, out: &mut Vec<u8>, bytes: &[u8]) -> Result<(), AllocError>
    ensures { OnOk result (out.new.items ≡ out.old.items ++ spaced (encode_lower bytes.now)) }
{
    let text = hex::encode(alloc, bytes)?;
    push_word(out, text.as_bytes())
}

/// Appends a blank and a path as it is written.
pub fn push_path(out: &mut Vec<u8>, path: &Path) -> Result<(), AllocError>
    ensures { OnOk result (out.new.items ≡ out.old.items ++ spaced (path_text path.now)) }
{
    out.push(b' ')?;
    path.print(out)
}

/// Ends the line.
pub fn end_line(out: &mut Vec<u8>) -> Result<(), AllocError>
    ensures { OnOk result (out.new.items ≡ out.old.items ++ 10 ∷ []) }
{
    out.push(b'\n')?;
    Ok(())
}

/// Appends a blank and the decimal digits of a number that may be beyond 64 bits.
pub fn push_total(out: &mut Vec<u8>, number: u128) -> Result<(), AllocError>
    ensures { OnOk result (out.new.items ≡ out.old.items ++ spaced (decimal number)) }
{
    let mut buffer = Buffer::new();
    push_word(out, buffer.format(number).as_bytes())
}
