//! The text of a whole script. Where not said otherwise, `out` holds a part of what was to be
//! appended on want of memory.
#![tactic(auto, unfolding(qfs_model_script::specs::ScriptText::term_word, qfs_model_script::specs::ScriptText::audit_word, qfs_model_script::specs::ScriptText::order_lines))]

ghost use Rattle.std.specs.Prelude.{◌≡◌, ◌++◌, ◌∷◌, [], ◌+◌, ◌≤◌, codes, decimal, length, drop, IfOk, OnOk, OnErr};
ghost use Rattle.qfs_model_script.specs.InScript.{actors_of};
ghost use Rattle.qfs_model_script.specs.Limits.{MOST_ACTORS};
ghost use Rattle.qfs_model_script.specs.ScriptText.{term_word, audit_word, head_lines, actor_lines, phase_lines, order_lines, script_text};
ghost use Rattle.qfs_model_text.specs.Line.{line};
ghost use Rattle.qfs_print.specs.ReadBack.{IsReadBack};
ghost use Rattle.qfs_print.specs.Texts.{actors_in, text_of_lines};

use crate::commands::{push_bare, push_commands, push_numbered, push_pair};
use qfs_base::layout::Layout;
use qfs_base::order::Order;
use qfs_base::script::{Commands, Phase, Script};
use qfs_laws_grammar::printed_scripts_are_read_back;
use qfs_report::push_order;
use std::alloc::{AllocError, Global};

/// Appends the line that gives leases a term, if they have one: 0 ticks say that they last.
fn push_term(out: &mut Vec<u8>, term: u32) -> Result<(), AllocError>
    ensures { OnOk result (out.new.items ≡ out.old.items ++ text_of_lines (term_word term)) }
{
    if term == 0 {
        Ok(())
    } else {
        push_numbered(out, b"term", term)
    }
}

/// Appends the line that asks for an audit, if there is one.
fn push_audit(out: &mut Vec<u8>, audit: bool) -> Result<(), AllocError>
    ensures { OnOk result (out.new.items ≡ out.old.items ++ text_of_lines (audit_word audit)) }
{
    if audit {
        push_bare(out, b"audit")
    } else {
        Ok(())
    }
}

/// Appends the line of the layout.
fn push_layout(out: &mut Vec<u8>, layout: &Layout) -> Result<(), AllocError>
    ensures { OnOk result (out.new.items ≡ out.old.items
        ++ line (codes "layout") (decimal layout.now.s ∷ decimal layout.now.r ∷ [])) }
{
    push_pair(out, b"layout", layout.s, layout.r)
}

/// Appends the lines before the first phase.
fn push_head(out: &mut Vec<u8>, script: &Script) -> Result<(), AllocError>
    ensures { OnOk result (out.new.items ≡ out.old.items ++ text_of_lines (head_lines script.now)) }
{
    out.extend_from_slice(b"qfs 1\n")?;
    push_layout(out, &script.layout)?;
    push_numbered(out, b"servers", u32::from(script.servers))?;
    push_term(out, script.term)?;
    push_audit(out, script.audit)
}

/// Appends the lines of an actor and of its commands.
fn push_actor(
    alloc: Global,
    out: &mut Vec<u8>,
    number: u32,
    commands: &Commands,
) -> Result<(), AllocError>
    ensures { OnOk result (out.new.items ≡ out.old.items
        ++ text_of_lines (actor_lines number (commands.now ∷ []))) }
{
    push_numbered(out, b"actor", number)?;
    push_commands(alloc, out, commands.as_slice())
}

/// Appends the lines of actors, the first of which has this number, up to 65.
fn push_actors(
    alloc: Global,
    out: &mut Vec<u8>,
    number: u32,
    actors: &[Commands],
) -> Result<(), AllocError>
    requires few { number + length actors.now ≤ MOST_ACTORS + 1 }
    ensures { OnOk result (out.new.items
        ≡ out.old.items ++ text_of_lines (actor_lines number actors.now)) }
{
    let mut next = number;
    for commands in actors {
        push_actor(alloc, out, next, commands)?;
        next += 1;
    }
    Ok(())
}

/// Appends the lines of phases; actors are numbered from 1 through all of them.
#[tactic(auto, using(crate::proofs::Lines::actors_left))]
fn push_phases(alloc: Global, out: &mut Vec<u8>, phases: &[Phase]) -> Result<(), AllocError>
    requires few { length (actors_in phases.now) ≤ MOST_ACTORS }
    ensures { OnOk result (out.new.items
        ≡ out.old.items ++ text_of_lines (phase_lines 1 phases.now)) }
{
    let mut next: u32 = 1;
    for phase in phases {
        push_bare(out, b"phase")?;
        push_actors(alloc, out, next, phase.as_slice())?;
        next += phase.len() as u32;
    }
    Ok(())
}

/// Appends the line of a given order, if there is one, in time that grows with its runs.
fn push_given(out: &mut Vec<u8>, order: &Option<Order>) -> Result<(), AllocError>
    ensures { OnOk result (out.new.items
        ≡ out.old.items ++ text_of_lines (order_lines order.now)) }
{
    match order {
        Some(order) => push_order(out, order),
        None => Ok(()),
    }
}

/// The text of a script.
#[tactic(auto, using(crate::proofs::Lines::whole_text))]
fn text_of(alloc: Global, script: &Script) -> Result<Vec<u8>, AllocError>
    requires few { length (actors_of script.now) ≤ MOST_ACTORS }
    ensures { IfOk result (λ text. text.items ≡ script_text script.now) }
{
    let mut text = Vec::new(alloc);
    push_head(&mut text, script)?;
    push_phases(alloc, &mut text, script.phases.as_slice())?;
    push_given(&mut text, &script.order)?;
    Ok(text)
}

/// Appends the text of a script. On want of memory `out` stays as it was.
fn push_text(alloc: Global, script: &Script, out: &mut Vec<u8>) -> Result<(), AllocError>
    requires few { length (actors_of script.now) ≤ MOST_ACTORS }
    ensures ok { OnOk result (out.new.items ≡ out.old.items ++ script_text script.now) }
    ensures err { OnErr result (out.new.items ≡ out.old.items) }
{
    let mut text = text_of(alloc, script)?;
    if out.is_empty() {
        *out = text;
        return Ok(());
    }
    out.append(&mut text)
}

/// Appends the text of a script of at most 64 actors to `out`: the lines of its head, of its phases
/// with their actors and commands, and of its order where one is given. There is one blank between
/// two words, and there are no empty lines and no remarks. Numbers are decimal and without leading
/// zeros, bytes are told by two small digits each, and the order is told by the longest runs of
/// equal steps. Time and memory grow with the bytes of the text. On want of memory `out` stays as
/// it was.
///
/// What was appended is read back to the same script, if this keeps all ranges and limits and its
/// text is no longer than a text may be; for a replay too, if it has an order.
pub fn print(alloc: Global, script: &Script, out: &mut Vec<u8>) -> Result<(), AllocError>
    requires few { length (actors_of script.now) ≤ MOST_ACTORS }
    ensures ok { OnOk result (out.new.items ≡ out.old.items ++ script_text script.now) }
    ensures read_back { OnOk result
        (IsReadBack script.now (drop (length out.old.items) out.new.items)) }
    ensures err { OnErr result (out.new.items ≡ out.old.items) }
{
    printed_scripts_are_read_back();
    push_text(alloc, script, out)
}
