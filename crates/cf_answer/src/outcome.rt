//! The outcome of a line: what a target or a late program comes to at the values that it spells.
ghost use Rattle.std.specs.Prelude.{◌≡◌, IfOk};
ghost use Rattle.cf_tree.specs.CodeView.{code_tree};
ghost use Rattle.cf_eval.specs.Seen.{plains};
ghost use Rattle.cf_late.specs.ChooseRun.{solve_run};
ghost use Rattle.cf_late.specs.Outcomes.{late_of};
ghost use Rattle.cf_answer.specs.Owed.{by_target};
ghost use Rattle.cf_answer.specs.Steps.{OutcomeAnswer, answerer_of};

use crate::answerer::Answerer;
use crate::late::late_outcome;
use cf_eval::{LineFault, Value, read_line, run_on};
use cf_json::as_late;
use cf_late::LateOutcome;
use cf_tree::{NoMemory, Target};
use std::alloc::Global;

// What a target comes to at these values.
#[tactic(auto, using(crate::proofs::OutcomeLemmas::run_told))]
fn run(alloc: Global, target: &Target, values: Vec<Value>) -> Result<LateOutcome, NoMemory>
    ensures { IfOk result (λ o. late_of o ≡ solve_run (code_tree target.now.code) (plains values.items)) }
{
    let outcome = run_on(alloc, target, values)?;
    Ok(as_late(outcome))
}

// What a target comes to at the values that a line spells.
fn target_outcome(alloc: Global, target: &Target, line: &[u8]) -> Result<LateOutcome, LineFault>
    ensures { OutcomeAnswer (by_target target.now) line.now result }
{
    match read_line(alloc, line, target.params()) {
        Ok(values) => match run(alloc, target, values) {
            Ok(outcome) => Ok(outcome),
            Err(NoMemory) => Err(LineFault::NoMemory),
        },
        Err(fault) => Err(fault),
    }
}

/// What is come to at the values that a line spells.
///
/// # Errors
/// `BadInput` exactly where the line spells none. `NoMemory` where memory ran out.
pub fn outcome(alloc: Global, answerer: &Answerer, line: &[u8]) -> Result<LateOutcome, LineFault>
    ensures { OutcomeAnswer (answerer_of answerer.now) line.now result }
{
    match answerer {
        Answerer::Target(target) => target_outcome(alloc, target, line),
        Answerer::Late(late) => late_outcome(alloc, late, line),
    }
}
