//! The words that the program is run with.
ghost use Rattle.std.specs.Prelude.{◌≡◌, map, string_bytes};
ghost use Rattle.qfs_driver.specs.Words.{seed_of};

use qfs_first::read_seed;

/// The number N of the words `step N`, below 2^64 and without leading zeros. None says that the
/// words are others.
pub fn seed_from(words: &[String]) -> Option<u64>
    ensures { result ≡ seed_of (map string_bytes words.now) }
{
    match words {
        [word, number] if word.as_str() == "step" => read_seed(number.as_str()),
        _ => None,
    }
}
