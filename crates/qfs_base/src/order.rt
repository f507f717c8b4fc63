//! The one order in which the steps of a run were taken.

ghost use Rattle.std.specs.Prelude.{◌≡◌, ◌<◌, ◌≤◌, ◌-◌, [], ◌∷◌, ◌++◌, length, take, replicate, IsTrue, ◌↔◌, MatchOption, OnOk, OnErr};
ghost use Rattle.qfs_base.specs.Order.{all_steps, run_steps, steps_of_runs, AreRuns, EndsApart, IsFront, LengthensLast};

use crate::history::Step;
use crate::listing::Listing;
use std::alloc::{AllocError, Global};
use std::marker::Model;

/// So many steps of one actor, one after another, that ended alike.
#[derive(Clone, Copy, PartialEq, Eq)]
pub struct StepRun {
    pub step: Step,
    pub count: u32,
}

/// The order of steps. It is kept by its runs of equal steps, so that it takes memory by its runs
/// and not by its steps: no run but the last step goes on the one before it, unless both together
/// would be longer than a run can be. Contracts see the list of its steps.
#[derive(Drop)]
pub struct Order {
    /// All steps but the last.
    runs: Listing<StepRun>,
    last: Option<Step>,
}

impl Model for Order {
    ghost use Rattle.std.specs.Prelude.{List};
    ghost use Rattle.std.specs.Coded.{coded_list};
    ghost use Rattle.qfs_base.specs.declared.history.Step.{Step};

    ghost Value = { List Step };

    ghost use Rattle.std.specs.Prelude.{◌≡◌, None, []};
    ghost use Rattle.qfs_base.specs.Order.{all_steps, AreRuns};

    ghost view = { λ it. all_steps it.runs it.last };

    ghost invariant = { λ it. (it.last ≡ None → it.runs ≡ []) × AreRuns it.runs };
}

impl Order {
    /// The empty order, which takes no memory.
    pub fn new(alloc: Global) -> Order
        ensures { result ≡ [] }
    {
        Order {
            runs: Listing::new(alloc),
            last: None,
        }
    }

    pub fn is_empty(&self) -> bool
        ensures { IsTrue result ↔ (self.now ≡ []) }
    {
        let _ = &self.runs;
        self.last.is_none()
    }

    /// The runs of all steps but the last, and the last step.
    pub fn parts(&self) -> (&[StepRun], Option<Step>)
        ensures steps { all_steps result.0.now result.1 ≡ self.now }
        ensures few { AreRuns result.0.now }
    {
        (self.runs.as_slice(), self.last)
    }

    /// Puts a step at the end. On want of memory the order stays.
    pub fn push(&mut self, step: Step) -> Result<(), AllocError>
        ensures ok { OnOk result (self.new ≡ self.old ++ step ∷ []) }
        ensures err { OnErr result (self.new ≡ self.old) }
    {
        settle(&mut self.runs, self.last)?;
        self.last = Some(step);
        Ok(())
    }

    /// Puts `count` steps like this one at the end. On want of memory the order stays, or has one
    /// of them more.
    pub fn push_run(&mut self, step: Step, count: u32) -> Result<(), AllocError>
        requires some { 1 ≤ count }
        ensures ok { OnOk result (self.new ≡ self.old ++ replicate count step) }
        ensures err { OnErr result (IsFront self.old step self.new) }
    {
        settle(&mut self.runs, self.last)?;
        self.last = Some(step);
        if count == 1 {
            return Ok(());
        }
        push_steps(
            &mut self.runs,
            StepRun {
                step,
                count: count - 1,
            },
        )
    }

    /// Writes another step in place of the last one. It takes no memory.
    pub fn set_last(&mut self, step: Step)
        requires { 0 < length self.old }
        ensures { self.new ≡ take (length self.old - 1) self.old ++ step ∷ [] }
    {
        let _ = &self.runs;
        self.last = Some(step);
    }
}

/// Puts the last step behind the runs of the others, if there is one. On want of memory they stay.
fn settle(runs: &mut Listing<StepRun>, last: Option<Step>) -> Result<(), AllocError>
    requires few { AreRuns runs.old }
    ensures ok { OnOk result (steps_of_runs runs.new ≡ all_steps runs.old last) }
    ensures few { AreRuns runs.new }
    ensures err { OnErr result (runs.new ≡ runs.old) }
{
    match last {
        Some(step) => push_steps(runs, StepRun { step, count: 1 }),
        None => Ok(()),
    }
}

/// How long the last of these runs is with these steps behind it, or None where they don't go on
/// that run.
fn longer(runs: &Listing<StepRun>, more: StepRun) -> Option<u32>
    ensures { MatchOption result (EndsApart runs.now more) (LengthensLast runs.now more) }
{
    match runs.last() {
        Some(run) if run.step == more.step => run.count.checked_add(more.count),
        _ => None,
    }
}

/// Puts some steps behind these runs. On want of memory they stay.
fn push_steps(runs: &mut Listing<StepRun>, more: StepRun) -> Result<(), AllocError>
    requires some { 1 ≤ more.count }
    requires few { AreRuns runs.old }
    ensures ok { OnOk result (steps_of_runs runs.new ≡ steps_of_runs runs.old ++ run_steps more) }
    ensures few { AreRuns runs.new }
    ensures err { OnErr result (runs.new ≡ runs.old) }
{
    match longer(runs, more) {
        Some(count) => {
            runs.set_last(StepRun {
                step: more.step,
                count,
            });
            Ok(())
        }
        None => runs.push(more),
    }
}
