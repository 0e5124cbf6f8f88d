//! The outcome of a target as that of a late program.
ghost use Rattle.std.specs.Prelude.{◌≡◌};
ghost use Rattle.cf_late.specs.Outcomes.{late_of};
ghost use Rattle.cf_json.specs.Outcomes.{run_outcome};

use cf_eval::Outcome;
use cf_late::LateOutcome;

/// What a run of a target came to, as what a late program comes to.
pub fn as_late(outcome: Outcome) -> LateOutcome
    ensures { late_of result ≡ run_outcome outcome }
{
    match outcome {
        Outcome::Values(values) => LateOutcome::Values(values),
        Outcome::NoSolution(number) => LateOutcome::NoSolution(number),
        Outcome::Overflow => LateOutcome::Overflow,
    }
}
