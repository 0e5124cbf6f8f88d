//! The steps of a choose, written down.
ghost use Rattle.std.specs.Prelude.{◌≡◌, ◌≤◌, ◌<◌, ◌^◌, length, map, IfOk};
ghost use Rattle.cf_tree.specs.ChooseView.{choose_tree};
ghost use Rattle.cf_tree.specs.Params.{bases_of};
ghost use Rattle.cf_tree.specs.RelView.{rel_tree};
ghost use Rattle.cf_choose.specs.Eliminations.{first_of};
ghost use Rattle.cf_choose.specs.Solved.{IsOf};
ghost use Rattle.cf_cert.specs.Laws.{IsLinearChoose};
ghost use Rattle.cf_prove.specs.Acting.{AreTracesOf, IsTargetOf};
ghost use Rattle.cf_prove.specs.Proving.{IsProved, ProveAnswer};

use cf_choose::{ChooseFault, Solved, solve};
use cf_elim::SolvedCase;
use cf_steps::{Act, Head, print_block};
use cf_tree::{Choose, NoMemory, RawTarget, Target, bases};
use std::alloc::Global;

/// The printed block of a choose in a branch, where it has at least one output, and its number is at
/// least 1: the truth variables of the branch, the steps of the elimination of each case, and the target
/// with the choose's scope as its parameters and its outputs as its results.
///
/// # Errors
/// `Refused` exactly where the relation passes a limit, with the first one, as `solve` has it, and
/// `NoMemory` where memory ran out.
pub fn prove(alloc: Global, choose: &Choose<'_>, head: &Head) -> Result<Vec<u8>, ChooseFault>
    requires choose { IsLinearChoose (choose_tree choose.now) }
    requires some { 1 ≤ length choose.now.outputs.now }
    requires numbered { 1 ≤ choose.now.number }
    ensures { ProveAnswer (choose_tree choose.now) head.now.truths.items result }
{
    let scope = bases(alloc, choose.scope)?;
    let solved = match solve(alloc, &scope, choose.outputs, choose.rel) {
        Ok(solved) => solved,
        Err(fault) => return Err(fault),
    };
    match proved(alloc, choose, head, solved) {
        Ok(text) => Ok(text),
        Err(_) => Err(ChooseFault::NoMemory),
    }
}

// The printed block of a choose that is solved, in a branch.
fn proved(
    alloc: Global,
    choose: &Choose<'_>,
    head: &Head,
    solved: Solved,
) -> Result<Vec<u8>, NoMemory>
    requires some { 1 ≤ length choose.now.outputs.now }
    requires numbered { 1 ≤ choose.now.number }
    requires solved { IsOf (bases_of choose.now.scope.now) choose.now.outputs.now (rel_tree choose.now.rel.now) solved }
    ensures { IfOk result (λ v. IsProved (choose_tree choose.now) head.now.truths.items v.items) }
{
    let number = of_32_bits(choose.number);
    let cases = steps(alloc, solved.cases())?;
    let target = target(alloc, choose, solved)?;
    print_block(alloc, number, &head.truths, &cases, &target)
}

// for the proof: the number of a lent choose has 32 bits.
fn of_32_bits(number: u32) -> u32
    ensures { (result ≡ number) × (number < 2 ^ 32) }
{
    number
}

// The steps of the elimination of each case.
fn steps(alloc: Global, cases: &[SolvedCase]) -> Result<Vec<Vec<Act>>, NoMemory>
    ensures { IfOk result (λ v. AreTracesOf (map first_of cases.now) (map (λ c. c.items) v.items)) }
{
    let mut steps = Vec::new(alloc);
    for case in cases {
        let acts = Vec::from_slice(alloc, case.acts())?;
        steps.push(acts)?;
    }
    Ok(steps)
}

// The target with the arms of a choose that is solved.
fn target(alloc: Global, choose: &Choose<'_>, solved: Solved) -> Result<Target, NoMemory>
    requires some { 1 ≤ length choose.now.outputs.now }
    requires numbered { 1 ≤ choose.now.number }
    requires solved { IsOf (bases_of choose.now.scope.now) choose.now.outputs.now (rel_tree choose.now.rel.now) solved }
    ensures { IfOk result (IsTargetOf (choose_tree choose.now)) }
{
    let params = bases(alloc, choose.scope)?;
    let results = Vec::from_slice(alloc, choose.outputs)?;
    let code = solved.into_code(choose.number);
    Ok(Target::new(RawTarget {
        params,
        results,
        code,
    }))
}
