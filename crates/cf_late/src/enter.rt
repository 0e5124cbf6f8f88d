//! Chooses that a run enters.
ghost use Rattle.cf_tree.specs.Params.{bases_of};
ghost use Rattle.cf_tree.specs.RelView.{rel_tree};
ghost use Rattle.cf_late.specs.ChooseRun.{late_choose};
ghost use Rattle.cf_late.specs.LateChoose.{IsLateChoose};
ghost use Rattle.cf_late.specs.Answers.{LateAnswer};

use crate::choose::late_choose;
use crate::outcome::LateOutcome;
use crate::stop::Stop;
use crate::values::Values;
use cf_tree::{Base, Param, Rel, bases};
use std::alloc::Global;

// The values that the choose of that number comes to behind these variables.
pub(crate) fn enter(
    alloc: Global,
    number: u32,
    scope: &[Param],
    outputs: &[Base],
    rel: &Rel,
    env: &Values,
) -> Result<Values, Stop>
    requires late { IsLateChoose (bases_of scope.now) outputs.now (rel_tree rel.now) }
    ensures { LateAnswer result (late_choose number (bases_of scope.now) outputs.now (rel_tree rel.now) env.now) }
{
    let scope = bases(alloc, scope)?;
    match late_choose(alloc, number, &scope, outputs, rel, env.items())? {
        LateOutcome::Values(given) => Ok(Values::new(given)),
        LateOutcome::NoSolution(n) => Err(Stop::Unsolved(n)),
        LateOutcome::Overflow => Err(Stop::Overflow),
        LateOutcome::Refused { number, refusal } => Err(Stop::Refused { number, refusal }),
    }
}
