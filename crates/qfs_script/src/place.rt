//! Behind which line the next one stands, and which lines may stand there.
ghost use Rattle.std.specs.Prelude.{◌≡◌, MatchResult};
ghost use Rattle.qfs_words.specs.Meant.{first_meant};
ghost use Rattle.qfs_model_grammar.specs.FirstWords.{may_stand, may_be_last};
ghost use Rattle.qfs_model_grammar.specs.ReadScript.{first_in};
ghost use Rattle.qfs_script.specs.Meant.{place_meant};
ghost use Rattle.qfs_script.specs.declared.place.LinePlace.TheVariants as At;

use qfs_base::script::ScriptCause;
use qfs_words::{FirstWord, first_word};

/// Behind which line the next one stands.
#[derive(Clone, Copy, PartialEq, Eq)]
pub enum LinePlace {
    Start,
    Qfs,
    Layout,
    Servers,
    Term,
    Audit,
    Phase,
    /// An actor's line, or a command of that actor.
    Actor,
    Order,
}

/// Whether a line that begins so may stand where the text begins.
#[tactic(auto, unfolding(qfs_model_grammar::specs::FirstWords::may_stand, crate::specs::Meant::place_meant, qfs_words::specs::Meant::first_meant))]
fn behind_start(first: FirstWord) -> bool
    ensures { result ≡ may_stand (place_meant At.Start) (first_meant first) }
{
    match first {
        FirstWord::Qfs => true,
        FirstWord::Layout => false,
        FirstWord::Servers => false,
        FirstWord::Term => false,
        FirstWord::Audit => false,
        FirstWord::Phase => false,
        FirstWord::Actor => false,
        FirstWord::Order => false,
        FirstWord::Command(_) => false,
    }
}

/// Whether a line that begins so may stand behind the line `qfs`.
#[tactic(auto, unfolding(qfs_model_grammar::specs::FirstWords::may_stand, crate::specs::Meant::place_meant, qfs_words::specs::Meant::first_meant))]
fn behind_qfs(first: FirstWord) -> bool
    ensures { result ≡ may_stand (place_meant At.Qfs) (first_meant first) }
{
    match first {
        FirstWord::Qfs => false,
        FirstWord::Layout => true,
        FirstWord::Servers => false,
        FirstWord::Term => false,
        FirstWord::Audit => false,
        FirstWord::Phase => false,
        FirstWord::Actor => false,
        FirstWord::Order => false,
        FirstWord::Command(_) => false,
    }
}

/// Whether a line that begins so may stand behind the layout.
#[tactic(auto, unfolding(qfs_model_grammar::specs::FirstWords::may_stand, crate::specs::Meant::place_meant, qfs_words::specs::Meant::first_meant))]
fn behind_layout(first: FirstWord) -> bool
    ensures { result ≡ may_stand (place_meant At.Layout) (first_meant first) }
{
    match first {
        FirstWord::Qfs => false,
        FirstWord::Layout => false,
        FirstWord::Servers => true,
        FirstWord::Term => false,
        FirstWord::Audit => false,
        FirstWord::Phase => false,
        FirstWord::Actor => false,
        FirstWord::Order => false,
        FirstWord::Command(_) => false,
    }
}

/// Whether a line that begins so may stand behind the servers.
#[tactic(auto, unfolding(qfs_model_grammar::specs::FirstWords::may_stand, crate::specs::Meant::place_meant, qfs_words::specs::Meant::first_meant))]
fn behind_servers(first: FirstWord) -> bool
    ensures { result ≡ may_stand (place_meant At.Servers) (first_meant first) }
{
    match first {
        FirstWord::Qfs => false,
        FirstWord::Layout => false,
        FirstWord::Servers => false,
        FirstWord::Term => true,
        FirstWord::Audit => true,
        FirstWord::Phase => true,
        FirstWord::Actor => false,
        FirstWord::Order => false,
        FirstWord::Command(_) => false,
    }
}

/// Whether a line that begins so may stand behind the term.
#[tactic(auto, unfolding(qfs_model_grammar::specs::FirstWords::may_stand, crate::specs::Meant::place_meant, qfs_words::specs::Meant::first_meant))]
fn behind_term(first: FirstWord) -> bool
    ensures { result ≡ may_stand (place_meant At.Term) (first_meant first) }
{
    match first {
        FirstWord::Qfs => false,
        FirstWord::Layout => false,
        FirstWord::Servers => false,
        FirstWord::Term => false,
        FirstWord::Audit => true,
        FirstWord::Phase => true,
        FirstWord::Actor => false,
        FirstWord::Order => false,
        FirstWord::Command(_) => false,
    }
}

/// Whether a line that begins so may stand behind the line `audit`.
#[tactic(auto, unfolding(qfs_model_grammar::specs::FirstWords::may_stand, crate::specs::Meant::place_meant, qfs_words::specs::Meant::first_meant))]
fn behind_audit(first: FirstWord) -> bool
    ensures { result ≡ may_stand (place_meant At.Audit) (first_meant first) }
{
    match first {
        FirstWord::Qfs => false,
        FirstWord::Layout => false,
        FirstWord::Servers => false,
        FirstWord::Term => false,
        FirstWord::Audit => false,
        FirstWord::Phase => true,
        FirstWord::Actor => false,
        FirstWord::Order => false,
        FirstWord::Command(_) => false,
    }
}

/// Whether a line that begins so may stand behind a phase.
#[tactic(auto, unfolding(qfs_model_grammar::specs::FirstWords::may_stand, crate::specs::Meant::place_meant, qfs_words::specs::Meant::first_meant))]
fn behind_phase(first: FirstWord) -> bool
    ensures { result ≡ may_stand (place_meant At.Phase) (first_meant first) }
{
    match first {
        FirstWord::Qfs => false,
        FirstWord::Layout => false,
        FirstWord::Servers => false,
        FirstWord::Term => false,
        FirstWord::Audit => false,
        FirstWord::Phase => true,
        FirstWord::Actor => true,
        FirstWord::Order => true,
        FirstWord::Command(_) => false,
    }
}

/// Whether a line that begins so may stand behind an actor or a command.
#[tactic(auto, unfolding(qfs_model_grammar::specs::FirstWords::may_stand, crate::specs::Meant::place_meant, qfs_words::specs::Meant::first_meant))]
fn behind_actor(first: FirstWord) -> bool
    ensures { result ≡ may_stand (place_meant At.Actor) (first_meant first) }
{
    match first {
        FirstWord::Qfs => false,
        FirstWord::Layout => false,
        FirstWord::Servers => false,
        FirstWord::Term => false,
        FirstWord::Audit => false,
        FirstWord::Phase => true,
        FirstWord::Actor => true,
        FirstWord::Order => true,
        FirstWord::Command(_) => true,
    }
}

/// Whether a line that begins so may stand behind that one.
#[tactic(auto, unfolding(qfs_model_grammar::specs::FirstWords::may_stand, crate::specs::Meant::place_meant, qfs_words::specs::Meant::first_meant))]
fn may_stand(place: LinePlace, first: FirstWord) -> bool
    ensures { result ≡ may_stand (place_meant place) (first_meant first) }
{
    match place {
        LinePlace::Start => behind_start(first),
        LinePlace::Qfs => behind_qfs(first),
        LinePlace::Layout => behind_layout(first),
        LinePlace::Servers => behind_servers(first),
        LinePlace::Term => behind_term(first),
        LinePlace::Audit => behind_audit(first),
        LinePlace::Phase => behind_phase(first),
        LinePlace::Actor => behind_actor(first),
        LinePlace::Order => false,
    }
}

/// Whether the text may end behind such a line.
#[tactic(auto, unfolding(qfs_model_grammar::specs::FirstWords::may_be_last, crate::specs::Meant::place_meant))]
pub fn may_be_last(place: LinePlace) -> bool
    ensures { result ≡ may_be_last (place_meant place) }
{
    match place {
        LinePlace::Start => false,
        LinePlace::Qfs => false,
        LinePlace::Layout => false,
        LinePlace::Servers => false,
        LinePlace::Term => false,
        LinePlace::Audit => false,
        LinePlace::Phase => true,
        LinePlace::Actor => true,
        LinePlace::Order => true,
    }
}

/// The first word of a line that may stand at a place.
#[tactic(auto, using(crate::proofs::Places::first_stands, crate::proofs::Places::first_bars, crate::proofs::Places::no_first))]
pub fn first_in(place: LinePlace, word: &[u8]) -> Result<FirstWord, ScriptCause>
    ensures { MatchResult result (λ first. first_in (place_meant place) word.now ≡ Ok (first_meant first))
        (λ cause. first_in (place_meant place) word.now ≡ Err cause) }
{
    match first_word(word) {
        Some(first) => {
            if may_stand(place, first) {
                Ok(first)
            } else {
                Err(ScriptCause::Word)
            }
        }
        None => Err(ScriptCause::Word),
    }
}
