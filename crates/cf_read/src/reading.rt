//! A relation as the problem of the systems of its cases.
ghost use Rattle.std.specs.Prelude.{◌≡◌, ◌++◌, map, IfOk};
ghost use Rattle.cf_tree.specs.RelView.{rel_tree};
ghost use Rattle.cf_tree.specs.Relation.{IsTyped, IsLinear};
ghost use Rattle.cf_linear.specs.Views.{system_of};
ghost use Rattle.cf_close.specs.Problems.{HasNone};
ghost use Rattle.cf_read.specs.Reading.{NeverHolds};
ghost use Rattle.cf_read.specs.Systems.{IsProblemOf};

use crate::conjunctions::problem_of;
use cf_cases::{LEVEL_LIMIT, systems};
use cf_choose::{ChooseFault, counts, layout};
use cf_close::Problem;
use cf_linear::{Refusal, RowFault, System};
use cf_tree::{Base, Rel};
use std::alloc::Global;

/// A problem of which a relation makes a solution wherever it holds, and a column that is behind all of its columns.
#[derive(Drop)]
pub struct RelationProblem {
    pub problem: Problem,
    pub columns: u32,
}

/// The question whether a relation ever holds, where its variables have these bases by level, those of `outputs`
/// behind those of `scope`.
///
/// # Errors
/// `Refused` where the relation passes a limit of its cases, `NoMemory` where memory ran out.
#[tactic(auto, using(crate::proofs::ReadingLaws::read_from))]
pub fn read(
    alloc: Global,
    scope: &[Base],
    outputs: &[Base],
    rel: &Rel,
) -> Result<RelationProblem, ChooseFault>
    requires typed { IsTyped (scope.now ++ outputs.now) (rel_tree rel.now) }
    requires linear { IsLinear (rel_tree rel.now) }
    ensures { IfOk result (λ q. HasNone q.problem → NeverHolds scope.now outputs.now (rel_tree rel.now)) }
{
    if scope.len() >= LEVEL_LIMIT || outputs.len() >= LEVEL_LIMIT {
        return Err(ChooseFault::NoMemory);
    }
    let layout = match layout(alloc, scope, outputs, rel) {
        Ok(layout) => layout,
        Err(_) => return Err(ChooseFault::NoMemory),
    };
    if let Err(fault) = counts(&layout, rel) {
        return Err(fault);
    }
    match systems(alloc, &layout, rel) {
        Ok(systems) => relation_problem(alloc, systems),
        Err(RowFault::Past) => Err(ChooseFault::Refused(Refusal::Past)),
        Err(RowFault::NoMemory) => Err(ChooseFault::NoMemory),
    }
}

// The problem whether one of the systems is satisfied.
fn relation_problem(alloc: Global, systems: Vec<System>) -> Result<RelationProblem, ChooseFault>
    ensures { IfOk result (λ p. IsProblemOf (map system_of systems.items) p.problem) }
{
    let columns = column_behind(&systems);
    match problem_of(alloc, &systems) {
        Ok(problem) => Ok(RelationProblem { problem, columns }),
        Err(_) => Err(ChooseFault::NoMemory),
    }
}

// The greatest of the next columns.
fn column_behind(systems: &[System]) -> u32 {
    let mut columns = 1;
    for system in systems {
        if system.next > columns {
            columns = system.next;
        }
    }
    columns
}
