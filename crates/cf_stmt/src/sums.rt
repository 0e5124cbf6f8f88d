//! Sums whose parts are not all plain.
ghost use Rattle.std.specs.Prelude.{◌≡◌, ◌+◌, ◌∷◌, ◌++◌, [], IfOk};
ghost use Rattle.cf_tree.specs.CodeTree.{code_more, code_sum, code_var, no_codes};
ghost use Rattle.cf_tree.specs.CodeView.{code_tree};
ghost use Rattle.cf_stmt.specs.BlockView.{block_tree};
ghost use Rattle.cf_stmt.specs.Blocks.{give};
ghost use Rattle.cf_stmt.specs.Made.{append, two_codes};
ghost use Rattle.cf_stmt.specs.SumView.{bound_blocks, ready_codes, sum_left, IsSum};

use crate::block::Block;
use crate::boxed::part;
use cf_tree::{Code, NoMemory, add_u32};
use std::alloc::Global;

// A sum under way: behind how many variables its next part stands, the codes that are ready to be
// added, and the blocks that are bound before that.
#[derive(Drop)]
pub(crate) struct Summing {
    pub(crate) n: u32,
    ready: Vec<Code>,
    bound: Vec<Box<Block>>,
}

// The sum of one code so far, which stands behind `n` variables.
pub(crate) fn sum_of_code(alloc: Global, code: Code, n: u32) -> Result<Summing, NoMemory>
    ensures { IfOk result (λ s. IsSum s n (code_more (code_tree code) no_codes) []) }
{
    let mut ready = Vec::new(alloc);
    ready.push(code)?;
    Ok(Summing {
        n,
        ready,
        bound: Vec::new(alloc),
    })
}

// The sum of one block so far.
pub(crate) fn sum_of_block(alloc: Global, block: Box<Block>, n: u32) -> Result<Summing, NoMemory>
    ensures { IfOk result (λ s. IsSum s (n + 1) (code_more (code_var 0) no_codes) (block_tree block.value ∷ [])) }
{
    let mut ready = Vec::new(alloc);
    ready.push(Code::Var(0))?;
    let mut bound = Vec::new(alloc);
    bound.push(block)?;
    Ok(Summing {
        n: add_u32(n, 1)?,
        ready,
        bound,
    })
}

// One code more, which stands behind the sum's variables.
#[tactic(auto, using(crate::proofs::SumSteps::codes_push))]
pub(crate) fn add_code(sum: Summing, code: Code) -> Result<Summing, NoMemory>
    ensures { IfOk result (λ s. IsSum s sum.n (append (ready_codes sum) (code_more (code_tree code) no_codes)) (bound_blocks sum)) }
{
    let Summing {
        n,
        mut ready,
        bound,
    } = sum;
    ready.push(code)?;
    Ok(Summing { n, ready, bound })
}

// One block more: what is ready is added and bound, and then the block.
pub(crate) fn add_block(alloc: Global, sum: Summing, block: Box<Block>) -> Result<Summing, NoMemory>
    ensures { IfOk result (λ s. IsSum s (sum.n + 2) (two_codes (code_var 1) (code_var 0))
        (bound_blocks sum ++ give (code_sum (ready_codes sum)) ∷ block_tree block.value ∷ [])) }
{
    let Summing {
        n,
        ready,
        mut bound,
    } = sum;
    bound.push(Box::new(alloc, Block::Give(Code::Sum(ready)))?)?;
    bound.push(block)?;
    let mut ready = Vec::new(alloc);
    ready.push(Code::Var(1))?;
    ready.push(Code::Var(0))?;
    Ok(Summing {
        n: add_u32(n, 2)?,
        ready,
        bound,
    })
}

// The block of a sum that is done.
pub(crate) fn sum_done(alloc: Global, sum: Summing) -> Result<Box<Block>, NoMemory>
    ensures { IfOk result (λ b. block_tree b.value ≡ sum_left sum no_codes) }
{
    let mut block = Box::new(alloc, Block::Give(Code::Sum(sum.ready)))?;
    let mut bound = sum.bound;
    while let Some(first) = bound.pop() {
        block = part(alloc, first, block)?;
    }
    Ok(block)
}
