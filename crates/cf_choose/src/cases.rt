//! The eliminations of the cases of a choose, and their arms.
ghost use Rattle.std.specs.Prelude.{◌≡◌, ◌<◌, ◌≤◌, true, map, IfOk};
ghost use Rattle.cf_tree.specs.RelView.{rel_tree};
ghost use Rattle.cf_linear.specs.declared.refusal.TheConstants.{MOST_SETS, MOST_CASES};
ghost use Rattle.cf_linear.specs.Cases.{negation_normal, case_count};
ghost use Rattle.cf_linear.specs.Layout.{set_count};
ghost use Rattle.cf_linear.specs.Views.{plain_layout, system_of};
ghost use Rattle.cf_cases.specs.Holding.{EachOf, IsPlacedRel};
ghost use Rattle.cf_cases.specs.declared.first_systems.TheConstants.{LEVEL_LIMIT};
ghost use Rattle.cf_choose.specs.Eliminations.{CanBegin, HasRoom, CaseIs, EachCaseIs, IsArmFor, AreArmsFor, CasesAre, IsFewSets};

use crate::arms::arm;
use crate::fault::ChooseFault;
use cf_cases::{LEVEL_LIMIT, systems};
use cf_elim::{ElimFault, SolvedCase, eliminate};
use cf_linear::{Layout, Refusal, RowFault, System};
use cf_tree::{Arm, NoMemory, Rel};
use std::alloc::Global;

// The cases of the relation, whose counts of sets and of cases are within the limits, or its first
// refusal.
pub(crate) fn cases(
    alloc: Global,
    layout: &Layout,
    rel: &Rel,
) -> Result<Vec<SolvedCase>, ChooseFault>
    requires sets { set_count (plain_layout layout.now) ≤ MOST_SETS }
    requires placed { IsPlacedRel (plain_layout layout.now) (rel_tree rel.now) }
    requires few { case_count (negation_normal true (rel_tree rel.now)) ≤ MOST_CASES }
    ensures { CasesAre (plain_layout layout.now) (rel_tree rel.now) result }
{
    let systems = match systems(alloc, layout, rel) {
        Ok(systems) => systems,
        Err(RowFault::Past) => return Err(ChooseFault::Refused(Refusal::Past)),
        Err(RowFault::NoMemory) => return Err(ChooseFault::NoMemory),
    };
    each_case(alloc, systems)
}

// The cases of first systems, in order, or the first refusal.
fn each_case(alloc: Global, systems: Vec<System>) -> Result<Vec<SolvedCase>, ChooseFault>
    requires { EachOf CanBegin (map system_of systems.items) }
    ensures { EachCaseIs (map system_of systems.items) result }
{
    let mut left = systems;
    left.reverse();
    let mut cases = Vec::new(alloc);
    while let Some(system) = left.pop() {
        match case(alloc, system) {
            Ok(case) => cases.push(case)?,
            Err(fault) => return Err(fault),
        }
    }
    Ok(cases)
}

// The case of a first system.
fn case(alloc: Global, system: System) -> Result<SolvedCase, ChooseFault>
    requires { CanBegin (system_of system) }
    ensures { CaseIs (system_of system) result }
{
    match eliminate(alloc, system) {
        Ok(case) => Ok(case),
        Err(ElimFault::Refused(refusal)) => Err(ChooseFault::Refused(refusal)),
        Err(ElimFault::NoMemory) => Err(ChooseFault::NoMemory),
    }
}

// The arms of cases, in order.
pub(crate) fn arms(
    alloc: Global,
    layout: &Layout,
    cases: &[SolvedCase],
) -> Result<Vec<Arm>, NoMemory>
    requires { IsFewSets (plain_layout layout.now) }
    ensures { IfOk result (λ v. AreArmsFor (plain_layout layout.now) cases.now v.items) }
{
    let mut arms = Vec::new(alloc);
    for case in cases {
        arms.push(case_arm(alloc, layout, case)?)?;
    }
    Ok(arms)
}

// The arm of a case.
fn case_arm(alloc: Global, layout: &Layout, case: &SolvedCase) -> Result<Arm, NoMemory>
    requires { IsFewSets (plain_layout layout.now) }
    ensures { IfOk result (IsArmFor (plain_layout layout.now) case.now) }
{
    if !has_room(layout, case) {
        return Err(NoMemory);
    }
    Ok(arm(alloc, layout, case.bounds(), case.steps(), case.back())?)
}

// Whether the levels of an arm are numbers of 32 bits.
fn has_room(layout: &Layout, case: &SolvedCase) -> bool
    ensures { result ≡ true → HasRoom layout.now case.now }
{
    is_few(layout.scope as usize)
        && is_few(layout.numbers.len())
        && is_few(layout.out_numbers.len())
        && is_few(case.bounds().len())
        && is_few(case.steps().len())
        && is_few(case.back().len())
}

// Whether as many things have levels.
fn is_few(n: usize) -> bool
    ensures { result ≡ true → n < LEVEL_LIMIT }
{
    n < LEVEL_LIMIT
}
