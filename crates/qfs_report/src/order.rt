//! The order line. On want of memory `out` holds a part of what was to be appended.
#![tactic(auto, unfolding(qfs_model_text::specs::Order::outcome_mark))]

ghost use Rattle.std.specs.Prelude.{◌≡◌, ◌++◌, ◌≤◌, List, [], replicate, option_to_list, IfOk, IsTrue, ◌↔◌, OnOk};
ghost use Rattle.qfs_base.specs.declared.history.Step.{Step};
ghost use Rattle.qfs_model_text.specs.Line.{more_words, spaced};
ghost use Rattle.qfs_model_text.specs.Order.{outcome_mark, run_word, runs, runs_after, order_line};
ghost use Rattle.qfs_report.specs.Pending.{IsPending, words_to_come};

use qfs_base::history::{Outcome, Step};
use qfs_base::order::{Order, StepRun};
use qfs_base::sizes::LONGEST_RUN;
use qfs_lines::words::{end_line, push_digits, push_number};
use std::alloc::AllocError;

/// How a step that didn't come out done is marked.
fn mark_text(outcome: Outcome) -> &'static [u8]
    ensures { result.now ≡ outcome_mark outcome }
{
    match outcome {
        Outcome::Done => b"",
        Outcome::Failed => b"f",
        Outcome::NoMemory => b"m",
    }
}

/// Appends a run.
fn push_run(out: &mut Vec<u8>, step: Step, count: u32) -> Result<(), AllocError>
    ensures { OnOk result (out.new.items ≡ out.old.items ++ spaced (run_word step count)) }
{
    push_number(out, u64::from(step.actor))?;
    out.extend_from_slice(mark_text(step.outcome))?;
    out.push(b'x')?;
    push_digits(out, u64::from(count))
}

/// Puts more steps behind `count` equal ones that aren't told yet, and appends a run where it is
/// full. Gives how many are then left to be told.
fn push_equal(out: &mut Vec<u8>, step: Step, count: u32, more: u32) -> Result<u32, AllocError>
    requires { 1 ≤ count }
    ensures some { IfOk result (λ left. 1 ≤ left) }
    ensures told { IfOk result (λ left. (steps : List Step) →
        out.new.items ++ more_words (runs_after step left steps)
        ≡ out.old.items ++ more_words (runs_after step count (replicate more step ++ steps))) }
{
    let room = LONGEST_RUN - count;
    if more <= room {
        return Ok(count + more);
    }
    push_run(out, step, LONGEST_RUN)?;
    Ok(more - room)
}

/// Whether one actor took both steps and they ended alike.
fn is_alike(first: Step, second: Step) -> bool
    ensures { IsTrue result ↔ (first ≡ second) }
{
    first == second
}

/// Puts more steps like this one behind the run that isn't told yet, and appends what ends by them.
/// Gives the run that is then left to be told.
fn push_behind(
    out: &mut Vec<u8>,
    pending: Option<StepRun>,
    step: Step,
    more: u32,
) -> Result<Option<StepRun>, AllocError>
    requires { IsPending pending }
    ensures pending { IfOk result IsPending }
    ensures told { IfOk result (λ left. (steps : List Step) →
        out.new.items ++ more_words (words_to_come left steps)
        ≡ out.old.items ++ more_words (words_to_come pending (replicate more step ++ steps))) }
{
    if more == 0 {
        return Ok(pending);
    }
    match pending {
        None => Ok(Some(StepRun { step, count: more })),
        Some(run) if is_alike(run.step, step) => {
            let count = push_equal(out, step, run.count, more)?;
            Ok(Some(StepRun { step, count }))
        }
        Some(run) => {
            push_run(out, run.step, run.count)?;
            Ok(Some(StepRun { step, count: more }))
        }
    }
}

/// Appends the run that isn't told yet.
#[tactic(auto, unfolding(qfs_model_text::specs::Order::runs, qfs_model_text::specs::Order::runs_after))]
fn push_pending(out: &mut Vec<u8>, pending: Option<StepRun>) -> Result<(), AllocError>
    ensures { OnOk result (out.new.items ≡ out.old.items ++ more_words (words_to_come pending [])) }
{
    match pending {
        Some(run) => push_run(out, run.step, run.count),
        None => Ok(()),
    }
}

/// Appends the run that isn't told yet, with the last step behind it, if there is one.
fn push_last(
    out: &mut Vec<u8>,
    pending: Option<StepRun>,
    last: Option<Step>,
) -> Result<(), AllocError>
    requires { IsPending pending }
    ensures { OnOk result (out.new.items
        ≡ out.old.items ++ more_words (words_to_come pending (option_to_list last))) }
{
    match last {
        Some(step) => {
            let pending = push_behind(out, pending, step, 1)?;
            push_pending(out, pending)
        }
        None => push_pending(out, pending),
    }
}

/// Appends the runs of an order.
fn push_runs(out: &mut Vec<u8>, order: &Order) -> Result<(), AllocError>
    ensures { OnOk result (out.new.items ≡ out.old.items ++ more_words (runs order.now)) }
{
    let (runs, last) = order.parts();
    let mut pending = None;
    for run in runs {
        pending = push_behind(out, pending, run.step, run.count)?;
    }
    push_last(out, pending, last)
}

/// Appends the order line, in time that grows with the runs by which the order is kept.
pub fn push_order(out: &mut Vec<u8>, order: &Order) -> Result<(), AllocError>
    ensures { OnOk result (out.new.items ≡ out.old.items ++ order_line order.now) }
{
    out.extend_from_slice(b"order")?;
    push_runs(out, order)?;
    end_line(out)
}
