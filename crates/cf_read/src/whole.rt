//! A relation as the problem of its formula.
ghost use Rattle.std.specs.Prelude.{◌≡◌, ◌++◌, ◌<◌, ◌≤◌, ◌^◌, true, IfOk};
ghost use Rattle.cf_tree.specs.RelView.{rel_tree};
ghost use Rattle.cf_tree.specs.Relation.{IsTyped, IsLinear};
ghost use Rattle.cf_cases.specs.declared.first_systems.TheConstants.{LEVEL_LIMIT};
ghost use Rattle.cf_linear.specs.declared.refusal.TheConstants.{MOST_SETS};
ghost use Rattle.cf_linear.specs.Layout.{set_count, first_free};
ghost use Rattle.cf_linear.specs.Views.{plain_layout};
ghost use Rattle.cf_close.specs.Problems.{HasNone};
ghost use Rattle.cf_formula.specs.FormulaView.{formula_tree};
ghost use Rattle.cf_read.specs.FormulaProblems.{problem_of_formula};
ghost use Rattle.cf_read.specs.Reading.{HasColumns, NeverHolds};

use crate::formulas::problem_of_formula;
use crate::reading::RelationProblem;
use cf_cases::LEVEL_LIMIT;
use cf_choose::{ChooseFault, layout};
use cf_formula::{Written, written};
use cf_linear::{Layout, LimitKind, MOST_SETS, Refusal, RowFault};
use cf_tree::{Base, Rel};
use std::alloc::Global;

/// The question whether a relation ever holds, where its variables have these bases by level, those of `outputs`
/// behind those of `scope`. It is read as one formula, so that the number of its cases is no limit.
///
/// # Errors
/// `Refused` where the relation has too many sets or a number in its rows passes the limit, `NoMemory` where memory ran out.
pub fn read_whole(
    alloc: Global,
    scope: &[Base],
    outputs: &[Base],
    rel: &Rel,
) -> Result<RelationProblem, ChooseFault>
    requires typed { IsTyped (scope.now ++ outputs.now) (rel_tree rel.now) }
    requires linear { IsLinear (rel_tree rel.now) }
    ensures { IfOk result (λ q. HasNone q.problem → NeverHolds scope.now outputs.now (rel_tree rel.now)) }
{
    if scope.len() >= LEVEL_LIMIT || outputs.len() >= LEVEL_LIMIT {
        return Err(ChooseFault::NoMemory);
    }
    let layout = match layout(alloc, scope, outputs, rel) {
        Ok(layout) => layout,
        Err(_) => return Err(ChooseFault::NoMemory),
    };
    if let Err(fault) = check_columns(&layout) {
        return Err(fault);
    }
    match written(alloc, &layout, rel) {
        Ok(written) => whole_problem(alloc, written),
        Err(RowFault::Past) => Err(ChooseFault::Refused(Refusal::Past)),
        Err(RowFault::NoMemory) => Err(ChooseFault::NoMemory),
    }
}

// The problem whether the formula holds.
fn whole_problem(alloc: Global, written: Written) -> Result<RelationProblem, ChooseFault>
    ensures { IfOk result (λ q. q.problem ≡ problem_of_formula (formula_tree written.formula)) }
{
    match problem_of_formula(alloc, &written.formula) {
        Ok(problem) => Ok(RelationProblem {
            problem,
            columns: written.next,
        }),
        Err(_) => Err(ChooseFault::NoMemory),
    }
}

// Whether the relation has few sets, and its columns have numbers.
#[tactic(auto, using(crate::proofs::WholeLaws::columns_are))]
fn check_columns(layout: &Layout) -> Result<(), ChooseFault>
    ensures { IfOk result (λ _. HasColumns (plain_layout layout.now)) }
{
    let sets = layout.inputs.len() as u64 + layout.out_sets.len() as u64;
    if sets > MOST_SETS as u64 {
        return Err(ChooseFault::Refused(Refusal::Limit {
            kind: LimitKind::Sets,
            number: sets,
        }));
    }
    if !has_columns(layout) {
        return Err(ChooseFault::NoMemory);
    }
    Ok(())
}

// Whether the columns of the layout are surely numbers of 32 bits.
fn has_columns(layout: &Layout) -> bool
    requires { set_count (plain_layout layout.now) ≤ MOST_SETS }
    ensures { result ≡ true → first_free (plain_layout layout.now) < 2 ^ 32 }
{
    are_few(layout.numbers.len(), layout.out_numbers.len())
}

fn are_few(numbers: usize, outputs: usize) -> bool
    ensures { result ≡ true → (numbers < LEVEL_LIMIT) × (outputs < LEVEL_LIMIT) }
{
    numbers < LEVEL_LIMIT && outputs < LEVEL_LIMIT
}
