//! Solving a relation for its outputs.
ghost use Rattle.std.specs.Prelude.{◌≡◌, ◌++◌, All, IfOk};
ghost use Rattle.cf_tree.specs.RelView.{rel_tree};
ghost use Rattle.cf_tree.specs.Relation.{IsTyped, IsLinear};
ghost use Rattle.cf_linear.specs.Views.{plain_layout};
ghost use Rattle.cf_choose.specs.Eliminations.{case_refusal, CountIs};
ghost use Rattle.cf_choose.specs.Solved.{IsOutput, IsOf, IsSolvedBy, SolveAnswer};
ghost use Rattle.cf_choose.specs.Solving.{IsEliminatedBy};

use crate::cases::{arms, cases};
use crate::fault::ChooseFault;
use crate::levels::layout;
use crate::solved::{Solved, SolvedParts};
use cf_cases::{LEVEL_LIMIT, count};
use cf_elim::SolvedCase;
use cf_linear::{Layout, LimitKind, MOST_CASES, MOST_SETS, Refusal};
use cf_tree::{Arm, Base, NoMemory, Rel};
use std::alloc::Global;

// The layout of a choose and its cases.
#[derive(Drop)]
struct Eliminated {
    layout: Layout,
    cases: Vec<SolvedCase>,
}

/// The relation with arms that solve it, where the variables in scope have these bases by level and
/// the outputs, behind them, those of `outputs`.
///
/// # Errors
/// `Refused` exactly where the relation passes a limit, with the first one, and `NoMemory` where memory
/// ran out.
pub fn solve(
    alloc: Global,
    scope: &[Base],
    outputs: &[Base],
    rel: &Rel,
) -> Result<Solved, ChooseFault>
    requires typed { IsTyped (scope.now ++ outputs.now) (rel_tree rel.now) }
    requires linear { IsLinear (rel_tree rel.now) }
    requires outputs { All IsOutput outputs.now }
    ensures { SolveAnswer scope.now outputs.now (rel_tree rel.now) result }
{
    if scope.len() >= LEVEL_LIMIT || outputs.len() >= LEVEL_LIMIT {
        return Err(ChooseFault::NoMemory);
    }
    let layout = match layout(alloc, scope, outputs, rel) {
        Ok(layout) => layout,
        Err(_) => return Err(ChooseFault::NoMemory),
    };
    if let Err(fault) = counts(&layout, rel) {
        return Err(fault);
    }
    let cases = match cases(alloc, &layout, rel) {
        Ok(cases) => cases,
        Err(fault) => return Err(fault),
    };
    match with_arms(alloc, scope, outputs, rel, Eliminated { layout, cases }) {
        Ok(solved) => Ok(solved),
        Err(_) => Err(ChooseFault::NoMemory),
    }
}

/// Whether the sets and the cases are within their limits.
///
/// # Errors
/// `Refused` exactly where the sets or else the cases pass their limit.
pub fn counts(layout: &Layout, rel: &Rel) -> Result<(), ChooseFault>
    ensures { CountIs (case_refusal (plain_layout layout.now) (rel_tree rel.now)) result }
{
    let sets = layout.inputs.len() as u64 + layout.out_sets.len() as u64;
    if sets > MOST_SETS as u64 {
        return Err(refused(LimitKind::Sets, sets));
    }
    let cases = count(rel);
    if cases > MOST_CASES {
        return Err(refused(LimitKind::Cases, cases));
    }
    Ok(())
}

fn refused(kind: LimitKind, number: u64) -> ChooseFault
    ensures { result ≡ ChooseFault.Refused (Refusal.Limit kind number) }
{
    ChooseFault::Refused(Refusal::Limit { kind, number })
}

// The choose with the arms of its cases.
fn with_arms(
    alloc: Global,
    scope: &[Base],
    outputs: &[Base],
    rel: &Rel,
    of: Eliminated,
) -> Result<Solved, NoMemory>
    requires { IsEliminatedBy scope.now outputs.now (rel_tree rel.now) of }
    ensures { IfOk result (IsOf scope.now outputs.now (rel_tree rel.now)) }
{
    let arms = arms(alloc, &of.layout, &of.cases)?;
    solved_with(alloc, scope, outputs, rel, of, arms)
}

// The choose that these arms solve.
fn solved_with(
    alloc: Global,
    scope: &[Base],
    outputs: &[Base],
    rel: &Rel,
    of: Eliminated,
    arms: Vec<Arm>,
) -> Result<Solved, NoMemory>
    requires { IsSolvedBy scope.now outputs.now (rel_tree rel.now) of.layout of.cases.items arms.items }
    ensures { IfOk result (IsOf scope.now outputs.now (rel_tree rel.now)) }
{
    let scope = Vec::from_slice(alloc, scope)?;
    let outputs = Vec::from_slice(alloc, outputs)?;
    let rel = rel.try_copy(alloc)?;
    Ok(Solved::new(SolvedParts {
        scope,
        outputs,
        rel,
        layout: of.layout,
        cases: of.cases,
        arms,
    }))
}
