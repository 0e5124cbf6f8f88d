//! The judgement of one block.
ghost use Rattle.std.specs.Prelude.{◌≡◌, ◌↔◌, true, IfOk};
ghost use Rattle.cf_tree.specs.ChooseView.{choose_tree};
ghost use Rattle.cf_tree.specs.CodeTree.{code_solve};
ghost use Rattle.cf_tree.specs.CodeView.{arm_trees};
ghost use Rattle.cf_tree.specs.DefView.{target_tree};
ghost use Rattle.cf_tree.specs.Params.{bases_of};
ghost use Rattle.cf_linear.specs.Views.{plain_layout};
ghost use Rattle.cf_steps.specs.Blocks.{block_tree};
ghost use Rattle.cf_cert.specs.Laws.{IsLinearChoose, AreWithinCases};
ghost use Rattle.cf_cert.specs.Verifying.{target_of, HasFewActs, JudgeIs, IsPlaced, ArmedIs};

use crate::arms::arms;
use crate::fault::{JudgeFault, whole, whole_refusal};
use crate::marks::is_solve;
use crate::verdict::Why;
use cf_cases::{LEVEL_LIMIT, systems};
use cf_choose::{counts, layout};
use cf_linear::{Layout, Refusal, RowFault};
use cf_steps::Block;
use cf_tree::{Arm, Base, Choose, NoMemory, RawTarget, bases, same_bases};
use std::alloc::Global;

// Whether the block certifies the choose, or its first fault.
pub(crate) fn judge(alloc: Global, choose: &Choose<'_>, block: &Block) -> Result<(), JudgeFault>
    requires choose { IsLinearChoose (choose_tree choose.now) }
    requires within { AreWithinCases (block_tree block.now).cases }
    requires few { HasFewActs (block_tree block.now) }
    ensures { JudgeIs (choose_tree choose.now) (block_tree block.now) result }
{
    if block.number != choose.number {
        return Err(whole(Why::Blocks));
    }
    let scope = bases(alloc, choose.scope)?;
    if scope.len() >= LEVEL_LIMIT || choose.outputs.len() >= LEVEL_LIMIT {
        return Err(JudgeFault::NoMemory);
    }
    let layout = layout(alloc, &scope, choose.outputs, choose.rel)?;
    let arms = match block_arms(alloc, choose, block, &layout) {
        Ok(arms) => arms,
        Err(fault) => return Err(fault),
    };
    match is_target(alloc, &block.target, choose, &scope, &arms) {
        Ok(true) => Ok(()),
        Ok(false) => Err(whole(Why::Code)),
        Err(_) => Err(JudgeFault::NoMemory),
    }
}

// The arms that the block's steps make, or its first fault before its code, where the block has the
// choose's number, and this is the choose's layout.
fn block_arms(
    alloc: Global,
    choose: &Choose<'_>,
    block: &Block,
    layout: &Layout,
) -> Result<Vec<Arm>, JudgeFault>
    requires choose { IsLinearChoose (choose_tree choose.now) }
    requires within { AreWithinCases (block_tree block.now).cases }
    requires few { HasFewActs (block_tree block.now) }
    requires placed { IsPlaced (choose_tree choose.now) (block_tree block.now) (plain_layout layout.now) }
    ensures { ArmedIs (choose_tree choose.now) (block_tree block.now) result }
{
    if let Err(fault) = counts(layout, choose.rel) {
        return Err(whole_refusal(fault));
    }
    let systems = match systems(alloc, layout, choose.rel) {
        Ok(systems) => systems,
        Err(RowFault::Past) => return Err(whole(Why::Refused(Refusal::Past))),
        Err(RowFault::NoMemory) => return Err(JudgeFault::NoMemory),
    };
    if block.cases.len() != systems.len() {
        return Err(whole(Why::Blocks));
    }
    arms(alloc, layout, systems, &block.cases)
}

// Whether the target is the one of the choose, over these bases of its scope, with these arms.
fn is_target(
    alloc: Global,
    target: &RawTarget,
    choose: &Choose<'_>,
    scope: &[Base],
    arms: &[Arm],
) -> Result<bool, NoMemory>
    requires { scope.now ≡ bases_of choose.now.scope.now }
    ensures { IfOk result (λ b. (b ≡ true) ↔
        (target_tree target.now ≡ target_of (choose_tree choose.now) (code_solve choose.now.number (arm_trees arms.now)))) }
{
    if !same_bases(&target.params, scope) {
        return Ok(false);
    }
    if !same_bases(&target.results, choose.outputs) {
        return Ok(false);
    }
    is_solve(alloc, &target.code, choose.number, arms)
}
