//! Numbers as scripts write them: decimal, without a sign and without leading zeros.
ghost use Rattle.std.specs.Prelude.{◌≡◌, ℕ, ◌<◌, ◌≤◌, ◌^◌, decimal, IfOk, IfSome, MatchOption};
ghost use Rattle.std.specs.Str.{bytes_eq};
ghost use Rattle.qfs_base.specs.Shape.{IsStripe};
ghost use Rattle.qfs_model_grammar.specs.Kinds.{number_of, number_in, stripe_in};

use itoa::Buffer;
use qfs_base::script::ScriptCause;

/// What a text of digits writes, with zeros before it or without. None says that the text writes no
/// number below 2^64.
fn parsed(text: &[u8]) -> Option<u64>
    ensures { (number : ℕ) → number < 2 ^ 64 → decimal number ≡ text.now → result ≡ Some number }
{
    let digits = str::from_utf8(text).ok()?;
    digits.parse::<u64>().ok()
}

/// Whether the text is the number in decimal.
fn is_decimal(text: &[u8], number: u64) -> bool
    ensures { result ≡ bytes_eq (decimal number) text.now }
{
    let mut buffer = Buffer::new();
    buffer.format(number).as_bytes() == text
}

/// The number below 2^64 that a text writes. None says that it writes no such number.
fn number(text: &[u8]) -> Option<u64>
    ensures { MatchOption result ((number : ℕ) → number < 2 ^ 64 → decimal number ≡ text.now → ⊥)
        (λ number. decimal number ≡ text.now) }
{
    let number = parsed(text)?;
    if is_decimal(text, number) {
        Some(number)
    } else {
        None
    }
}

/// The number from the first to the last that a word writes.
#[tactic(auto, using(crate::proofs::NumberTexts::number_within, crate::proofs::NumberTexts::number_outside, crate::proofs::NumberTexts::number_nowhere))]
pub fn number_in(first: u32, last: u32, word: &[u8]) -> Result<u32, ScriptCause>
    ensures value { result ≡ number_in first last word.now }
    ensures within { IfOk result (λ number. (first ≤ number) × (number ≤ last)) }
{
    let Some(number) = number(word) else {
        return Err(ScriptCause::Number);
    };
    if u64::from(first) <= number && number <= u64::from(last) {
        Ok(number as u32)
    } else {
        Err(ScriptCause::Number)
    }
}

/// The bytes of a stripe that a word writes: a power of two from 16 to 65,536.
#[tactic(auto, unfolding(qfs_model_grammar::specs::Kinds::stripe_in, qfs_model_grammar::specs::Said::if_kept))]
pub fn stripe_in(word: &[u8]) -> Result<u32, ScriptCause>
    ensures value { result ≡ stripe_in word.now }
    ensures within { IfOk result IsStripe }
{
    let stripe = number_in(16, 65_536, word)?;
    if stripe.is_power_of_two() {
        Ok(stripe)
    } else {
        Err(ScriptCause::Number)
    }
}
