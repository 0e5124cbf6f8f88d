//! Blocks in boxes, made of their parts.
ghost use Rattle.std.specs.Prelude.{◌≡◌, IfOk, OnOk};
ghost use Rattle.cf_tree.specs.CodeTree.{code_more, code_var, count, no_codes};
ghost use Rattle.cf_tree.specs.CodeView.{code_tree, code_trees};
ghost use Rattle.cf_tree.specs.OverParts.{HasList, over_list, HasTwoParts, over_two, HasThreeParts, over_three};
ghost use Rattle.cf_shift.specs.Shifted.{shifted};
ghost use Rattle.cf_stmt.specs.BlockView.{block_tree};
ghost use Rattle.cf_stmt.specs.Blocks.{give, part as a_part, bind as bind_of, join as join_of, test as test_of};
ghost use Rattle.cf_stmt.specs.Made.{append, vars_then};

use crate::block::Block;
use cf_shift::shift;
use cf_tree::{Code, NoMemory, to_u32};
use std::alloc::Global;

// The code itself behind `n` more variables.
pub(crate) fn give(alloc: Global, code: &Code, n: u32) -> Result<Box<Block>, NoMemory>
    ensures { IfOk result (λ b. block_tree b.value ≡ give (shifted n (code_tree code.now))) }
{
    Ok(Box::new(alloc, Block::Give(shift(alloc, code, n)?))?)
}

pub(crate) fn bind(alloc: Global, a: Box<Block>, b: Box<Block>) -> Result<Box<Block>, NoMemory>
    ensures { IfOk result (λ r. block_tree r.value ≡ bind_of (block_tree a.value) (block_tree b.value)) }
{
    Ok(Box::new(alloc, Block::Bind(a, b))?)
}

pub(crate) fn join(alloc: Global, a: Box<Block>, b: Box<Block>) -> Result<Box<Block>, NoMemory>
    ensures { IfOk result (λ r. block_tree r.value ≡ join_of (block_tree a.value) (block_tree b.value)) }
{
    Ok(Box::new(alloc, Block::Join(a, b))?)
}

pub(crate) fn test(
    alloc: Global,
    test: Box<Block>,
    yes: Box<Block>,
    no: Box<Block>,
) -> Result<Box<Block>, NoMemory>
    ensures { IfOk result (λ r. block_tree r.value ≡ test_of (block_tree test.value) (block_tree yes.value) (block_tree no.value)) }
{
    Ok(Box::new(alloc, Block::Test { test, yes, no })?)
}

// An operation on two codes, of which the second stays where it is.
pub(crate) fn part_kept(
    alloc: Global,
    code: &Code,
    first: Box<Block>,
    b: &Code,
    behind: u32,
) -> Result<Box<Block>, NoMemory>
    requires { HasTwoParts (code_tree code.now) }
    ensures { IfOk result (λ r. block_tree r.value ≡
        a_part (block_tree first.value) (give (over_two (code_tree code.now) (code_var 0) (shifted behind (code_tree b.now))))) }
{
    let x = variable(alloc, 0)?;
    let second = Box::new(alloc, shift(alloc, b, behind)?)?;
    part_of(alloc, first, code.over_two(x, second))
}

// An operation on two parts.
pub(crate) fn two_parts(
    alloc: Global,
    code: &Code,
    first: Box<Block>,
    second: Box<Block>,
) -> Result<Box<Block>, NoMemory>
    requires { HasTwoParts (code_tree code.now) }
    ensures { IfOk result (λ r. block_tree r.value ≡
        a_part (block_tree first.value) (a_part (block_tree second.value) (give (over_two (code_tree code.now) (code_var 1) (code_var 0))))) }
{
    let x = variable(alloc, 1)?;
    let y = variable(alloc, 0)?;
    let rest = part_of(alloc, second, code.over_two(x, y))?;
    part(alloc, first, rest)
}

// An operation on three parts.
pub(crate) fn three_parts(
    alloc: Global,
    code: &Code,
    first: Box<Block>,
    second: Box<Block>,
    third: Box<Block>,
) -> Result<Box<Block>, NoMemory>
    requires { HasThreeParts (code_tree code.now) }
    ensures { IfOk result (λ r. block_tree r.value ≡
        a_part (block_tree first.value) (a_part (block_tree second.value) (a_part (block_tree third.value)
        (give (over_three (code_tree code.now) (code_var 2) (code_var 1) (code_var 0)))))) }
{
    let x = variable(alloc, 2)?;
    let y = variable(alloc, 1)?;
    let z = variable(alloc, 0)?;
    let rest = part_of(alloc, third, code.over_three(x, y, z))?;
    let rest = part(alloc, second, rest)?;
    part(alloc, first, rest)
}

pub(crate) fn variable(alloc: Global, level: u32) -> Result<Box<Code>, NoMemory>
    ensures { IfOk result (λ c. code_tree c.value ≡ code_var level) }
{
    Ok(Box::new(alloc, Code::Var(level))?)
}

pub(crate) fn part(alloc: Global, a: Box<Block>, b: Box<Block>) -> Result<Box<Block>, NoMemory>
    ensures { IfOk result (λ r. block_tree r.value ≡ a_part (block_tree a.value) (block_tree b.value)) }
{
    Ok(Box::new(alloc, Block::Part(a, b))?)
}

// A part and then a code.
pub(crate) fn part_of(alloc: Global, a: Box<Block>, code: Code) -> Result<Box<Block>, NoMemory>
    ensures { IfOk result (λ r. block_tree r.value ≡ a_part (block_tree a.value) (give (code_tree code))) }
{
    let last = Box::new(alloc, Block::Give(code))?;
    part(alloc, a, last)
}

// The form over a variable for each of its parts, the last first.
pub(crate) fn over_variables(
    alloc: Global,
    code: &Code,
    parts: &[Code],
) -> Result<Box<Block>, NoMemory>
    requires { HasList (code_tree code.now) }
    ensures { IfOk result (λ b. block_tree b.value ≡ give (over_list (code_tree code.now) (vars_then 0 (count (code_trees parts.now)) no_codes))) }
{
    let all = variables(alloc, parts)?;
    Ok(Box::new(alloc, Block::Give(code.over_list(all)))?)
}

// A variable for each of the parts, the last first.
fn variables(alloc: Global, parts: &[Code]) -> Result<Vec<Code>, NoMemory>
    ensures { IfOk result (λ all. code_trees all.items ≡ vars_then 0 (count (code_trees parts.now)) no_codes) }
{
    let mut all = Vec::with_capacity(alloc, parts.len())?;
    for back in 0..parts.len() {
        push_variable(&mut all, parts.len() - 1 - back)?;
    }
    Ok(all)
}

fn push_variable(all: &mut Vec<Code>, level: usize) -> Result<(), NoMemory>
    ensures { OnOk result (code_trees all.new.items ≡ append (code_trees all.old.items) (code_more (code_var level) no_codes)) }
{
    let code = variable_at(level)?;
    all.push(code)?;
    Ok(())
}

fn variable_at(level: usize) -> Result<Code, NoMemory>
    ensures { IfOk result (λ c. code_tree c ≡ code_var level) }
{
    Ok(Code::Var(to_u32(level)?))
}
