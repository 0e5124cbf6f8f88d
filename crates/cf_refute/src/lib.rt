//! Whether a relation never holds, as far as a search finds out.
#![tactic(auto)]

ghost use Rattle.std.specs.Prelude.{◌≡◌, ◌++◌, IfOk};
ghost use Rattle.cf_tree.specs.RelView.{rel_tree};
ghost use Rattle.cf_tree.specs.Relation.{IsTyped, IsLinear};
ghost use Rattle.cf_close.specs.Problems.{HasNone};
ghost use Rattle.cf_guide.specs.declared.guide.Outcome.TheVariants.{Closed};
ghost use Rattle.cf_read.specs.Reading.{NeverHolds};

use cf_choose::ChooseFault;
use cf_guide::{Finder, Limits, Outcome};
use cf_read::{RelationProblem, read_whole};
use cf_tree::{Base, Rel};
use std::alloc::Global;

/// Looks for a refutation of a relation whose variables have these bases by level, those of `outputs` behind those of
/// `scope`: Closed only where the relation never holds. A model has the columns of the relation's layout.
///
/// # Errors
/// `Refused` where the relation has too many sets or a number in its rows passes the limit, `NoMemory` where memory ran out.
pub fn refute(
    alloc: Global,
    scope: &[Base],
    outputs: &[Base],
    rel: &Rel,
    limits: Limits,
) -> Result<Outcome, ChooseFault>
    requires typed { IsTyped (scope.now ++ outputs.now) (rel_tree rel.now) }
    requires linear { IsLinear (rel_tree rel.now) }
    ensures { IfOk result (λ o. o ≡ Closed → NeverHolds scope.now outputs.now (rel_tree rel.now)) }
{
    match read_whole(alloc, scope, outputs, rel) {
        Ok(asked) => answer(alloc, asked, limits),
        Err(fault) => Err(fault),
    }
}

// What a search for a refutation of the relation's problem finds.
fn answer(alloc: Global, asked: RelationProblem, limits: Limits) -> Result<Outcome, ChooseFault>
    ensures { IfOk result (λ o. o ≡ Closed → HasNone asked.problem) }
{
    let RelationProblem { problem, columns } = asked;
    match Finder::new(alloc, limits, columns).find(alloc, problem) {
        Ok(outcome) => Ok(outcome),
        Err(_) => Err(ChooseFault::NoMemory),
    }
}
