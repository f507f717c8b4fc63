//! Numbers as scripts and words of the command line write them.
ghost use Rattle.std.specs.Prelude.{◌≡◌, ℕ, ◌<◌, ◌^◌, decimal, IfSome};
ghost use Rattle.std.specs.Str.{bytes_eq};
ghost use Rattle.qfs_first.specs.Numbers.{number_below};

use itoa::Buffer;

/// What a text of digits writes, with zeros before it or without. None says that the text writes no
/// number below 2^64.
fn parsed(text: &[u8]) -> Option<u64>
    ensures { (number : ℕ) → number < 2 ^ 64 → decimal number ≡ text.now → result ≡ Some number }
{
    let digits = str::from_utf8(text).ok()?;
    digits.parse::<u64>().ok()
}

/// Whether the text is the number in decimal.
fn is_decimal(text: &[u8], number: u64) -> bool
    ensures { result ≡ bytes_eq (decimal number) text.now }
{
    let mut buffer = Buffer::new();
    buffer.format(number).as_bytes() == text
}

/// The number below 2^64 that a text writes in decimal, without a sign and without leading zeros.
fn number(text: &[u8]) -> Option<u64>
    ensures { result ≡ number_below (2 ^ 64) text.now }
{
    let number = parsed(text)?;
    if is_decimal(text, number) {
        Some(number)
    } else {
        None
    }
}

/// The number below the bound that a text writes in decimal, without a sign and without leading
/// zeros.
pub fn number_below(bound: u32, text: &[u8]) -> Option<u32>
    ensures value { result ≡ number_below bound text.now }
    ensures within { IfSome result (λ number. number < bound) }
{
    let number = number(text)?;
    if number < u64::from(bound) {
        Some(number as u32)
    } else {
        None
    }
}

/// The number that a word of the command line writes, from which an order is drawn: decimal, below
/// 2^64, without a sign and without leading zeros. None says that the word writes no such number.
pub fn read_seed(word: &str) -> Option<u64>
    ensures { result ≡ number_below (2 ^ 64) word.now }
{
    number(word.as_bytes())
}
