//! The outcomes of late programs.
ghost use Rattle.std.specs.Prelude.{◌≡◌, map, IfOk};
ghost use Rattle.cf_tree.specs.DefView.{def_tree};
ghost use Rattle.cf_eval.specs.Seen.{plains};
ghost use Rattle.cf_late.specs.Fitting.{AreFit};
ghost use Rattle.cf_late.specs.Outcomes.{late_of};
ghost use Rattle.cf_late.specs.ProgramLaw.{HaveMainTypes};
ghost use Rattle.cf_program.specs.Typed.{typed_tree, IsLateTyped};
ghost use Rattle.cf_answer.specs.LateReplies.{main_comes};
ghost use Rattle.cf_answer.specs.Owed.{by_late};
ghost use Rattle.cf_answer.specs.Picked.{main_bases};
ghost use Rattle.cf_answer.specs.Steps.{OutcomeAnswer};

use cf_eval::{LineFault, Value, read_line};
use cf_late::{LateOutcome, run_late};
use cf_program::Late;
use cf_tree::{Base, NoMemory, bases};
use std::alloc::Global;

// The bases of the parameters of main.
fn parameters(alloc: Global, late: &Late) -> Result<Vec<Base>, NoMemory>
    ensures bases { IfOk result (λ bases. bases.items ≡ main_bases (typed_tree late.now)) }
    ensures typed { IsLateTyped late.now }
{
    let main = late.main() as usize;
    bases(alloc, &late.defs()[main].params)
}

// What the program comes to at these values.
fn run(alloc: Global, late: &Late, values: &[Value]) -> Result<LateOutcome, NoMemory>
    requires typed { HaveMainTypes (map def_tree late.now.defs.items) late.now.main (plains values.now) }
    requires fit { AreFit (plains values.now) }
    ensures { IfOk result (λ o. late_of o ≡ main_comes (typed_tree late.now) (plains values.now)) }
{
    run_late(alloc, late, values)
}

/// What a late program comes to at the values that a line spells.
///
/// # Errors
/// `BadInput` exactly where the line spells none. `NoMemory` where memory ran out.
pub fn late_outcome(alloc: Global, late: &Late, line: &[u8]) -> Result<LateOutcome, LineFault>
    ensures { OutcomeAnswer (by_late (typed_tree late.now)) line.now result }
{
    let bases = parameters(alloc, late)?;
    match read_line(alloc, line, &bases) {
        Ok(values) => match run(alloc, late, &values) {
            Ok(outcome) => Ok(outcome),
            Err(NoMemory) => Err(LineFault::NoMemory),
        },
        Err(fault) => Err(fault),
    }
}
