//! How many words stand behind the first one of a line.
ghost use Rattle.std.specs.Prelude.{◌≡◌, ◌∷◌, [], MatchResult};
ghost use Rattle.qfs_base.specs.declared.script.ScriptCause.TheVariants.{Count};
ghost use Rattle.qfs_model_grammar.specs.Counts.{no_word, one_word, two_words, three_words, four_words};

use crate::lines::Words;
use qfs_base::script::ScriptCause;

/// The next word, where one is to stand.
fn needed<'a>(words: &mut Words<'a>) -> Result<&'a [u8], ScriptCause>
    ensures { MatchResult result (λ word. words.old ≡ word.now ∷ words.new)
        (λ cause. (cause ≡ Count) × (words.old ≡ [])) }
{
    words.next_word().ok_or(ScriptCause::Count)
}

/// No word is left.
#[tactic(auto, unfolding(qfs_model_grammar::specs::Counts::no_word))]
pub fn no_word(words: &mut Words<'_>) -> Result<(), ScriptCause>
    ensures { result ≡ no_word words.old }
{
    match words.next_word() {
        None => Ok(()),
        Some(_) => Err(ScriptCause::Count),
    }
}

/// The only word that is left.
#[tactic(auto, unfolding(qfs_model_grammar::specs::Counts::no_word, qfs_model_grammar::specs::Counts::one_word))]
pub fn one_word<'a>(words: &mut Words<'a>) -> Result<&'a [u8], ScriptCause>
    ensures { MatchResult result (λ word. one_word words.old ≡ Ok word.now)
        (λ cause. one_word words.old ≡ Err cause) }
{
    let first = needed(words)?;
    no_word(words)?;
    Ok(first)
}

/// Two words of a line.
pub type Pair<'a> = (&'a [u8], &'a [u8]);

/// The only two words that are left.
#[tactic(auto, unfolding(qfs_model_grammar::specs::Counts::no_word, qfs_model_grammar::specs::Counts::two_words))]
pub fn two_words<'a>(words: &mut Words<'a>) -> Result<Pair<'a>, ScriptCause>
    ensures { MatchResult result (λ pair. two_words words.old ≡ Ok (pair.0.now, pair.1.now))
        (λ cause. two_words words.old ≡ Err cause) }
{
    let first = needed(words)?;
    let second = needed(words)?;
    no_word(words)?;
    Ok((first, second))
}

/// Three words of a line.
pub type Triple<'a> = (&'a [u8], &'a [u8], &'a [u8]);

/// The only three words that are left.
#[tactic(auto, unfolding(qfs_model_grammar::specs::Counts::no_word, qfs_model_grammar::specs::Counts::three_words))]
pub fn three_words<'a>(words: &mut Words<'a>) -> Result<Triple<'a>, ScriptCause>
    ensures { MatchResult result
        (λ three. three_words words.old ≡ Ok (three.0.now, three.1.now, three.2.now))
        (λ cause. three_words words.old ≡ Err cause) }
{
    let first = needed(words)?;
    let second = needed(words)?;
    let third = needed(words)?;
    no_word(words)?;
    Ok((first, second, third))
}

/// Four words of a line.
pub type Quadruple<'a> = (&'a [u8], &'a [u8], &'a [u8], &'a [u8]);

/// The only four words that are left.
#[tactic(auto, unfolding(qfs_model_grammar::specs::Counts::no_word, qfs_model_grammar::specs::Counts::four_words))]
pub fn four_words<'a>(words: &mut Words<'a>) -> Result<Quadruple<'a>, ScriptCause>
    ensures { MatchResult result
        (λ four. four_words words.old ≡ Ok (four.0.now, four.1.now, four.2.now, four.3.now))
        (λ cause. four_words words.old ≡ Err cause) }
{
    let first = needed(words)?;
    let second = needed(words)?;
    let third = needed(words)?;
    let fourth = needed(words)?;
    no_word(words)?;
    Ok((first, second, third, fourth))
}
