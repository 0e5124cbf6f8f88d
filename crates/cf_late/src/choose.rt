//! One choose, eliminated on the numbers of its environment.
ghost use Rattle.std.specs.Prelude.{◌≡◌, IfOk};
ghost use Rattle.cf_tree.specs.CodeView.{code_tree};
ghost use Rattle.cf_tree.specs.RelView.{rel_tree};
ghost use Rattle.cf_eval.specs.Seen.{plains};
ghost use Rattle.cf_late.specs.ChooseRun.{solve_run, late_choose};
ghost use Rattle.cf_late.specs.Fitting.{AreFit};
ghost use Rattle.cf_late.specs.LateChoose.{IsLateChoose};
ghost use Rattle.cf_late.specs.Outcomes.{late_of, IsFitOutcome};

use crate::at::rel_at;
use crate::outcome::LateOutcome;
use cf_choose::{ChooseFault, solve};
use cf_eval::{Outcome, Value, run_code};
use cf_tree::{Base, Code, NoMemory, Rel};
use std::alloc::Global;

/// What the choose of that number comes to where the variables in scope have these values, by
/// level: its relation is solved with the literals of their numbers, and the solution is run.
///
/// # Errors
/// `NoMemory` where memory ran out.
#[tactic(auto, using(crate::proofs::ChooseLaws::choose_ran, crate::proofs::ChooseLaws::choose_refused))]
pub fn late_choose(
    alloc: Global,
    number: u32,
    scope: &[Base],
    outputs: &[Base],
    rel: &Rel,
    values: &[Value],
) -> Result<LateOutcome, NoMemory>
    requires late { IsLateChoose scope.now outputs.now (rel_tree rel.now) }
    requires fit { AreFit (plains values.now) }
    ensures comes { IfOk result (λ o. late_of o ≡ late_choose number scope.now outputs.now (rel_tree rel.now) (plains values.now)) }
    ensures fit { IfOk result IsFitOutcome }
{
    let known = rel_at(alloc, scope.len(), rel, values)?;
    let solved = solve(alloc, scope, outputs, &known);
    drop(known);
    match solved {
        Ok(solved) => run(alloc, solved.into_code(number), values),
        Err(ChooseFault::Refused(refusal)) => Ok(LateOutcome::Refused { number, refusal }),
        Err(ChooseFault::NoMemory) => Err(NoMemory),
    }
}

// The run of the `solve` of a choose.
#[tactic(auto, using(crate::proofs::ChooseLaws::ran, crate::proofs::ChooseLaws::ran_past, crate::proofs::ChooseLaws::given_fit))]
fn run(alloc: Global, code: Code, values: &[Value]) -> Result<LateOutcome, NoMemory>
    ensures comes { IfOk result (λ o. late_of o ≡ solve_run (code_tree code) (plains values.now)) }
    ensures fit { IfOk result IsFitOutcome }
{
    let outcome = run_code(alloc, &code, values);
    drop(code);
    match outcome? {
        Outcome::Values(given) => Ok(LateOutcome::Values(given)),
        Outcome::NoSolution(n) => Ok(LateOutcome::NoSolution(n)),
        Outcome::Overflow => Ok(LateOutcome::Overflow),
    }
}
