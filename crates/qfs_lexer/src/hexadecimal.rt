//! Words that tell bytes by hexadecimal digits.
ghost use Rattle.std.specs.Prelude.{◌≡◌, ◌≤◌, ◌↔◌, length, IfOk, IsTrue, ok_or};
ghost use Rattle.std.specs.Result.{result_ok};
ghost use Rattle.hex.specs.Hex.{decode_of};
ghost use Rattle.hex.specs.declared.error.FromHexError.TheVariants.{OutOfMemory};
ghost use Rattle.qfs_base.specs.declared.script.ScriptCause.TheVariants.{Hex};
ghost use Rattle.qfs_model_grammar.specs.Kinds.{bytes_in};
ghost use Rattle.qfs_lexer.specs.Tells.{Tells};

use crate::refusal::Refusal;
use hex::FromHexError;
use qfs_base::listing::Listing;
use qfs_base::script::ScriptCause;
use std::alloc::Global;

/// Whether the error is want of memory.
fn is_no_memory(error: FromHexError) -> bool
    ensures { IsTrue result ↔ (error ≡ OutOfMemory) }
{
    matches!(error, FromHexError::OutOfMemory)
}

/// The bytes of which a word tells each by two hexadecimal digits of either case.
fn decoded(alloc: Global, word: &[u8]) -> Result<Listing<u8>, Refusal>
    ensures { Tells (ok_or (result_ok (decode_of word.now)) Hex) result }
{
    match hex::decode(alloc, word) {
        Ok(bytes) => Ok(Listing::from_vec(bytes)),
        Err(error) => {
            if is_no_memory(error) {
                Err(Refusal::NoMemory)
            } else {
                Err(Refusal::Bad(ScriptCause::Hex))
            }
        }
    }
}

/// Between the least and the most bytes, each of which a word tells by two hexadecimal digits of
/// either case.
#[tactic(auto, using(crate::proofs::HexWords::too_long, crate::proofs::HexWords::too_few, crate::proofs::HexWords::enough, crate::proofs::HexWords::no_bytes, crate::proofs::HexWords::few_of))]
pub fn bytes_in(
    alloc: Global,
    least: usize,
    most: usize,
    word: &[u8],
) -> Result<Listing<u8>, Refusal>
    requires { most ≤ 32 }
    ensures value { Tells (bytes_in least most word.now) result }
    ensures within { IfOk result (λ bytes. (least ≤ length bytes) × (length bytes ≤ most)) }
{
    // Two digits tell a byte, so the bytes of a long word needn't be made.
    if word.len() > 2 * most {
        return Err(Refusal::Bad(ScriptCause::Hex));
    }
    let bytes = decoded(alloc, word)?;
    if bytes.len() < least {
        return Err(Refusal::Bad(ScriptCause::Hex));
    }
    Ok(bytes)
}
