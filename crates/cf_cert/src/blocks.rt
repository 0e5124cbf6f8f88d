//! The checker of steps files.
ghost use Rattle.std.specs.Prelude.{◌≡◌, ◌≤◌, length, map, Ok, IfOk};
ghost use Rattle.cf_tree.specs.ChooseView.{choose_tree};
ghost use Rattle.cf_cases.specs.Holding.{EachOf};
ghost use Rattle.cf_steps.specs.Blocks.{block_tree, block_trees};
ghost use Rattle.cf_cert.specs.Judging.{IsVerdict};
ghost use Rattle.cf_cert.specs.Laws.{IsLinearChoose, AreWithinCases, HasTypedTarget};
ghost use Rattle.cf_cert.specs.Verifying.{RejectedIs, HaveFewSteps, HasFewActs, EachMeans};

use crate::fault::{JudgeFault, whole};
use crate::judge::judge;
use crate::verdict::{Verdict, Why};
use cf_steps::{Block, Blocks};
use cf_tree::{Choose, NoMemory};
use std::alloc::Global;

/// The verdict on the blocks for these chooses, one block for each in order. Each choose is typed and
/// linear, the blocks have at most as many steps in all as a steps file has bytes, and no number of theirs
/// passes the limit. Where the verdict is Yes, each block's target is well typed, and means solutions of its
/// choose, or that there are none exactly where there are none. No elimination is chosen.
///
/// # Errors
/// `NoMemory` where memory ran out.
pub fn verify(alloc: Global, chooses: &[Choose<'_>], blocks: &Blocks) -> Result<Verdict, NoMemory>
    requires chooses { EachOf IsLinearChoose (map choose_tree chooses.now) }
    requires within { EachOf (λ b. AreWithinCases b.cases) (block_trees blocks.now) }
    requires few { HaveFewSteps (block_trees blocks.now) }
    ensures verdict { IfOk result (IsVerdict (map choose_tree chooses.now) (block_trees blocks.now)) }
    ensures means { result ≡ Ok Verdict.Yes → EachMeans (map choose_tree chooses.now) (block_trees blocks.now) }
    ensures typed { result ≡ Ok Verdict.Yes → EachOf HasTypedTarget (block_trees blocks.now) }
{
    judge_each(alloc, chooses, &blocks.list)
}

// The first fault among the blocks, if there is one.
fn judge_each(alloc: Global, chooses: &[Choose<'_>], blocks: &[Block]) -> Result<Verdict, NoMemory>
    requires chooses { EachOf IsLinearChoose (map choose_tree chooses.now) }
    requires within { EachOf (λ b. AreWithinCases b.cases) (map block_tree blocks.now) }
    requires few { EachOf HasFewActs (map block_tree blocks.now) }
    ensures { IfOk result (IsVerdict (map choose_tree chooses.now) (map block_tree blocks.now)) }
{
    for i in 0..chooses.len() {
        let choose = &chooses[i];
        if i >= blocks.len() {
            return rejected(choose.number, whole(Why::Blocks));
        }
        match judge(alloc, choose, &blocks[i]) {
            Ok(()) => {}
            Err(fault) => return rejected(choose.number, fault),
        }
    }
    match blocks.get(chooses.len()) {
        Some(block) => rejected(block.number, whole(Why::Blocks)),
        None => Ok(Verdict::Yes),
    }
}

// The fault of a block as the verdict.
fn rejected(number: u32, fault: JudgeFault) -> Result<Verdict, NoMemory>
    ensures { RejectedIs number fault result }
{
    match fault {
        JudgeFault::Rejected { case, step, why } => Ok(Verdict::Rejected {
            number,
            case,
            step,
            why,
        }),
        JudgeFault::NoMemory => Err(NoMemory),
    }
}
