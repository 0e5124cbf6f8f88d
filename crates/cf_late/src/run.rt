//! Runs programs whose chooses are eliminated where they are entered.
ghost use Rattle.std.specs.Prelude.{◌≡◌, ◌<◌, length, map, IfOk};
ghost use Rattle.cf_tree.specs.DefView.{def_tree};
ghost use Rattle.cf_eval.specs.Seen.{plains};
ghost use Rattle.cf_match.specs.Laws.{bodies};
ghost use Rattle.cf_late.specs.Fitting.{AreFit};
ghost use Rattle.cf_late.specs.Outcomes.{late_of, IsFitOutcome};
ghost use Rattle.cf_late.specs.Answers.{LateAnswer};
ghost use Rattle.cf_late.specs.LateRun.{late_run};
ghost use Rattle.cf_late.specs.ProgramLaw.{HaveMainTypes, IsAllowedIn};

use crate::eval::{Caller, eval};
use crate::outcome::LateOutcome;
use crate::stop::Stop;
use crate::values::Values;
use cf_eval::Value;
use cf_program::Late;
use cf_tree::NoMemory;
use std::alloc::Global;

/// What the main function comes to on these values, one for each of its parameters. Each choose is
/// eliminated where it is entered, on the values of its scope. Nothing of a run is kept for
/// another, so that no line gets the elimination of another line's numbers.
///
/// # Errors
/// `NoMemory` where memory ran out.
#[tactic(auto, using(crate::proofs::RunnableLaws::main_stands))]
pub fn run_late(alloc: Global, late: &Late, values: &[Value]) -> Result<LateOutcome, NoMemory>
    requires typed { HaveMainTypes (map def_tree late.now.defs.items) late.now.main (plains values.now) }
    requires fit { AreFit (plains values.now) }
    ensures comes { IfOk result (λ o. late_of o ≡ late_run (bodies (map def_tree late.now.defs.items)) late.now.main (plains values.now)) }
    ensures allowed { IfOk result (λ o. IsAllowedIn (map def_tree late.now.defs.items) late.now.main (plains values.now) (late_of o)) }
    ensures fit { IfOk result IsFitOutcome }
{
    let main = late.main();
    let env = Values::copy_of(alloc, values)?;
    main_outcome(alloc, late, main, env)
}

// What the function of that number comes to in this environment.
fn main_outcome(alloc: Global, late: &Late, main: u32, env: Values) -> Result<LateOutcome, NoMemory>
    requires stands { main < length late.now.defs.items }
    ensures comes { IfOk result (λ o. late_of o ≡ late_run (bodies (map def_tree late.now.defs.items)) main env) }
    ensures fit { IfOk result IsFitOutcome }
{
    match run_main(alloc, late, main, env) {
        Ok(values) => Ok(LateOutcome::Values(values.into_items())),
        Err(Stop::NoMemory) => Err(NoMemory),
        Err(Stop::Overflow) => Ok(LateOutcome::Overflow),
        Err(Stop::Unsolved(n)) => Ok(LateOutcome::NoSolution(n)),
        Err(Stop::Refused { number, refusal }) => Ok(LateOutcome::Refused { number, refusal }),
    }
}

// The values that its body gives.
fn run_main(alloc: Global, late: &Late, main: u32, env: Values) -> Result<Values, Stop>
    requires stands { main < length late.now.defs.items }
    ensures { LateAnswer result (late_run (bodies (map def_tree late.now.defs.items)) main env) }
{
    let caller = Caller {
        alloc,
        late,
        number: main,
    };
    let mut env = env;
    eval(&caller, &late.defs()[main as usize].body, &mut env)
}
