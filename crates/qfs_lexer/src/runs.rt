//! Words that tell runs of equal steps.
ghost use Rattle.std.specs.Prelude.{◌≡◌, ◌≤◌, ◌∷◌, [], length, drop, take_while, position, IfOk};
ghost use Rattle.qfs_lexer.specs.Left.{IsAroundTimes, is_other};
ghost use Rattle.qfs_model_grammar.specs.Kinds.{run_in, run_of, is_digit, is_times, outcome_of_mark};

use crate::limits::MOST_ACTORS;
use crate::numbers::number_in;
use qfs_base::history::{Outcome, Step};
use qfs_base::order::StepRun;
use qfs_base::script::ScriptCause;
use qfs_base::sizes::LONGEST_RUN;

/// Whether a byte is no digit.
fn is_other(byte: u8) -> bool
    ensures { result ≡ is_other byte }
{
    byte < b'0' || b'9' < byte
}

/// The place of the first byte that is no digit.
fn first_other(word: &[u8]) -> Option<usize>
    ensures { result ≡ position is_other word.now }
{
    word.iter().position(|byte| is_other(*byte))
}

/// The digits at the head of a word, and what stands behind them.
#[tactic(auto, using(crate::proofs::RunWords::digits_end_front, crate::proofs::RunWords::digits_end_behind, crate::proofs::RunWords::all_digits_front, crate::proofs::RunWords::all_digits_behind))]
fn cut_digits(word: &[u8]) -> (&[u8], &[u8])
    ensures digits { result.0.now ≡ take_while is_digit word.now }
    ensures behind { result.1.now ≡ drop (length (take_while is_digit word.now)) word.now }
{
    match first_other(word) {
        Some(at) => (&word[..at], &word[at..]),
        None => (word, &word[word.len()..]),
    }
}

/// The place of the first `x`.
fn first_times(text: &[u8]) -> Option<usize>
    ensures { result ≡ position is_times text.now }
{
    text.iter().position(|byte| *byte == b'x')
}

/// The text before the only `x`, and that behind it. None says that the text has none or several.
#[tactic(auto, using(crate::proofs::RunWords::no_times, crate::proofs::RunWords::one_times, crate::proofs::RunWords::more_times))]
fn around_times(text: &[u8]) -> Option<(&[u8], &[u8])>
    ensures { IsAroundTimes text.now result }
{
    let Some(at) = first_times(text) else {
        return None;
    };
    let behind = &text[at + 1..];
    match first_times(behind) {
        Some(_) => None,
        None => Some((&text[..at], behind)),
    }
}

/// How steps ended that have this mark: `f`, `m` or none.
#[tactic(auto, using(crate::proofs::RunWords::mark_failed, crate::proofs::RunWords::mark_no_memory))]
fn outcome_of_mark(mark: &[u8]) -> Option<Outcome>
    ensures { result ≡ outcome_of_mark mark.now }
{
    if mark.is_empty() {
        Some(Outcome::Done)
    } else if mark == b"f".as_slice() {
        Some(Outcome::Failed)
    } else if mark == b"m".as_slice() {
        Some(Outcome::NoMemory)
    } else {
        None
    }
}

/// The run of these words of an actor, a mark and a count.
#[tactic(auto, unfolding(qfs_model_grammar::specs::Kinds::run_of))]
fn run_of(actor: &[u8], mark: &[u8], count: &[u8]) -> Result<StepRun, ScriptCause>
    ensures value { result ≡ run_of actor.now (mark.now ∷ count.now ∷ []) }
    ensures some { IfOk result (λ run. 1 ≤ run.count) }
{
    let actor = number_in(1, MOST_ACTORS, actor)? as u16;
    let outcome = outcome_of_mark(mark).ok_or(ScriptCause::Number)?;
    let count = number_in(1, LONGEST_RUN, count)?;
    let step = Step { actor, outcome };
    Ok(StepRun { step, count })
}

/// The run that a word tells: an actor, 1 to 64, the mark of how its steps ended, an `x`, and how
/// many steps there are, 1 to 4,294,967,295.
#[tactic(auto, using(crate::proofs::RunWords::run_around, crate::proofs::RunWords::no_run))]
pub fn run_in(word: &[u8]) -> Result<StepRun, ScriptCause>
    ensures value { result ≡ run_in word.now }
    ensures some { IfOk result (λ run. 1 ≤ run.count) }
{
    let (digits, behind) = cut_digits(word);
    match around_times(behind) {
        Some((mark, count)) => run_of(digits, mark, count),
        None => Err(ScriptCause::Number),
    }
}
