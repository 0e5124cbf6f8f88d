//! Code as statements.
ghost use Rattle.std.specs.Prelude.{◌≡◌, IfOk};
ghost use Rattle.cf_tree.specs.CodeTree.{code_tuple};
ghost use Rattle.cf_tree.specs.CodeView.{code_tree, code_trees, item_tree, item_trees, arm_tree, arm_trees};
ghost use Rattle.cf_stmt.specs.BlockView.{block_tree};
ghost use Rattle.cf_shift.specs.Shifted.{all_shifted};
ghost use Rattle.cf_stmt.specs.Fitting.{fits, plain};
ghost use Rattle.cf_stmt.specs.SumView.{IsBegun, IsMore};
ghost use Rattle.cf_stmt.specs.Made.{plain_or, stay, block_at, bound_parts, sum_block, tuple_block, arms_block, arm_block, items_block, item_block};

use crate::block::Block;
use crate::boxed::{
    bind, give, join, over_variables, part, part_kept, part_of, test, three_parts, two_parts,
    variable,
};
use crate::expression::{all_fit, fits};
use crate::sums::{Summing, add_block, add_code, sum_done, sum_of_block, sum_of_code};
use cf_shift::{shift, shift_all};
use cf_tree::{Arm, Code, Item, NoMemory, add_u32, code_over_one, to_u32};
use std::alloc::Global;

// The block of a code behind `n` more variables.
#[cycle(walk)]
pub(crate) fn block_of(alloc: Global, code: &Code, n: u32) -> Result<Box<Block>, NoMemory>
    ensures { IfOk result (λ b. block_tree b.value ≡ block_at plain n (code_tree code.now)) }
{
    match code {
        Code::Tuple(parts) => {
            if all_fit(parts, 0) {
                return give(alloc, code, n);
            }
            tuple_block(alloc, parts, n)
        }
        Code::Let { value, body, .. } => {
            let a = block_of(alloc, value, n)?;
            let b = block_of(alloc, body, n)?;
            bind(alloc, a, b)
        }
        Code::Solve { number, arms } => {
            let last = Box::new(alloc, Block::Stop(*number))?;
            arms_block(alloc, arms, n, last)
        }
        Code::If { .. } | Code::And(_, _) | Code::Or(_, _) => choice(alloc, code, n),
        _ => operation(alloc, code, n),
    }
}

// The block of a code that evaluates one of its parts or another.
#[cycle(walk)]
fn choice(alloc: Global, code: &Code, n: u32) -> Result<Box<Block>, NoMemory>
    ensures { IfOk result (λ b. block_tree b.value ≡ block_at plain n (code_tree code.now)) }
{
    if fits(code, 0) {
        return give(alloc, code, n);
    }
    match code {
        Code::If { test: t, yes, no } => {
            let t = block_of(alloc, t, n)?;
            let a = block_of(alloc, yes, n)?;
            let b = block_of(alloc, no, n)?;
            test(alloc, t, a, b)
        }
        Code::And(a, b) => {
            let t = block_of(alloc, a, n)?;
            let a = block_of(alloc, b, n)?;
            let b = Box::new(alloc, Block::Give(Code::Truth(false)))?;
            test(alloc, t, a, b)
        }
        Code::Or(a, b) => {
            let t = block_of(alloc, a, n)?;
            let a = Box::new(alloc, Block::Give(Code::Truth(true)))?;
            let b = block_of(alloc, b, n)?;
            test(alloc, t, a, b)
        }
        // for the proof: no other form comes here
        _ => Err(NoMemory),
    }
}

// The block of a code that evaluates all its parts.
#[cycle(walk)]
fn operation(alloc: Global, code: &Code, n: u32) -> Result<Box<Block>, NoMemory>
    ensures { IfOk result (λ b. block_tree b.value ≡ block_at plain n (code_tree code.now)) }
{
    if fits(code, 0) {
        return give(alloc, code, n);
    }
    match code {
        Code::Sum(parts) => sum_block(alloc, parts, n),
        Code::SetOf(parts)
        | Code::Min(parts)
        | Code::Max(parts)
        | Code::Union(parts)
        | Code::Inter(parts) => {
            let last = over_variables(alloc, code, parts)?;
            bound_parts(alloc, parts, n, last)
        }
        code_over_one!(a) => {
            let a = block_of(alloc, a, n)?;
            let x = variable(alloc, 0)?;
            part_of(alloc, a, code.over_one(x))
        }
        _ => operation_in_order(alloc, code, n),
    }
}

// The block of a code on two or three parts, each behind the values of those before.
#[cycle(walk)]
fn operation_in_order(alloc: Global, code: &Code, n: u32) -> Result<Box<Block>, NoMemory>
    ensures { IfOk result (λ b. block_tree b.value ≡ block_at plain n (code_tree code.now)) }
{
    if fits(code, 0) {
        return give(alloc, code, n);
    }
    match code {
        Code::Sub(a, b)
        | Code::Mul(a, b)
        | Code::Diff(a, b)
        | Code::Subset(a, b)
        | Code::Compare {
            left: a,
            right: b,
            ..
        }
        | Code::Fresh { avoid: a, n: b } => {
            let first = block_of(alloc, a, n)?;
            let behind = add_u32(n, 1)?;
            if fits(b, 1) {
                return part_kept(alloc, code, first, b, behind);
            }
            let second = block_of(alloc, b, behind)?;
            two_parts(alloc, code, first, second)
        }
        Code::Slice {
            set: a,
            from: b,
            n: c,
        } => {
            let first = block_of(alloc, a, n)?;
            let second = block_of(alloc, b, add_u32(n, 1)?)?;
            let third = block_of(alloc, c, add_u32(n, 2)?)?;
            three_parts(alloc, code, first, second, third)
        }
        // for the proof: no other form comes here
        _ => Err(NoMemory),
    }
}

// The first values of all, each bound, and then the last block.
#[cycle(walk)]
fn bound_parts(
    alloc: Global,
    codes: &[Code],
    n: u32,
    last: Box<Block>,
) -> Result<Box<Block>, NoMemory>
    ensures { IfOk result (λ b. block_tree b.value ≡ bound_parts plain n (code_trees codes.now) (block_tree last.value)) }
{
    let mut block = last;
    for back in 0..codes.len() {
        let i = codes.len() - 1 - back;
        let first = block_of(alloc, &codes[i], add_u32(n, to_u32(i)?)?)?;
        block = part(alloc, first, block)?;
    }
    Ok(block)
}

#[cycle(walk)]
fn sum_block(alloc: Global, codes: &[Code], n: u32) -> Result<Box<Block>, NoMemory>
    ensures { IfOk result (λ b. block_tree b.value ≡ sum_block plain n (code_trees codes.now)) }
{
    if codes.is_empty() {
        let none = Code::Sum(Vec::new(alloc));
        return Ok(Box::new(alloc, Block::Give(none))?);
    }
    let mut sum = sum_begun(alloc, &codes[0], n)?;
    for i in 1..codes.len() {
        sum = sum_more(alloc, sum, &codes[i])?;
    }
    sum_done(alloc, sum)
}

// The sum of its first code.
#[cycle(walk)]
fn sum_begun(alloc: Global, code: &Code, n: u32) -> Result<Summing, NoMemory>
    ensures { IfOk result (λ s. IsBegun n (code_tree code.now) s) }
{
    if fits(code, 1) {
        return sum_of_code(alloc, shift(alloc, code, n)?, n);
    }
    let block = block_of(alloc, code, n)?;
    sum_of_block(alloc, block, n)
}

// The sum with one code more.
#[cycle(walk)]
fn sum_more(alloc: Global, sum: Summing, code: &Code) -> Result<Summing, NoMemory>
    ensures { IfOk result (λ s. IsMore (code_tree code.now) sum s) }
{
    let n = sum.n;
    if fits(code, 1) {
        return add_code(sum, shift(alloc, code, n)?);
    }
    let block = block_of(alloc, code, add_u32(n, 1)?)?;
    add_block(alloc, sum, block)
}

#[cycle(walk)]
fn tuple_block(alloc: Global, codes: &[Code], n: u32) -> Result<Box<Block>, NoMemory>
    ensures { IfOk result (λ b. block_tree b.value ≡ tuple_block plain n (code_trees codes.now)) }
{
    let mut block = Box::new(alloc, Block::Give(Code::Tuple(Vec::new(alloc))))?;
    for back in 0..codes.len() {
        let code = &codes[codes.len() - 1 - back];
        let first = block_of(alloc, code, n)?;
        block = join(alloc, first, block)?;
    }
    Ok(block)
}

// The values of all, at once where all are plain.
#[cycle(walk)]
fn gives_block(alloc: Global, codes: &[Code], n: u32) -> Result<Box<Block>, NoMemory>
    ensures { IfOk result (λ b. block_tree b.value ≡ plain_or (stay (fits 0) (code_trees codes.now))
        (code_tuple (all_shifted n (code_trees codes.now))) (tuple_block plain n (code_trees codes.now))) }
{
    if all_fit(codes, 0) {
        let all = shift_all(alloc, codes, n)?;
        return Ok(Box::new(alloc, Block::Give(Code::Tuple(all)))?);
    }
    tuple_block(alloc, codes, n)
}

#[cycle(walk)]
fn arms_block(alloc: Global, arms: &[Arm], n: u32, last: Box<Block>) -> Result<Box<Block>, NoMemory>
    ensures { IfOk result (λ b. block_tree b.value ≡ arms_block plain n (arm_trees arms.now) (block_tree last.value)) }
{
    let mut block = last;
    for back in 0..arms.len() {
        let arm = &arms[arms.len() - 1 - back];
        block = arm_block(alloc, arm, n, block)?;
    }
    Ok(block)
}

#[cycle(walk)]
fn arm_block(alloc: Global, arm: &Arm, n: u32, later: Box<Block>) -> Result<Box<Block>, NoMemory>
    ensures { IfOk result (λ b. block_tree b.value ≡ arm_block plain n (arm_tree arm.now) (block_tree later.value)) }
{
    let gives = gives_block(alloc, &arm.gives, n)?;
    let body = items_block(alloc, &arm.items, n, gives)?;
    let bounds = Vec::from_slice(alloc, &arm.bounds)?;
    Ok(Box::new(
        alloc,
        Block::Arm {
            bounds,
            body,
            later,
        },
    )?)
}

#[cycle(walk)]
fn items_block(
    alloc: Global,
    items: &[Item],
    n: u32,
    last: Box<Block>,
) -> Result<Box<Block>, NoMemory>
    ensures { IfOk result (λ b. block_tree b.value ≡ items_block plain n (item_trees items.now) (block_tree last.value)) }
{
    let mut block = last;
    for back in 0..items.len() {
        let item = &items[items.len() - 1 - back];
        block = item_block(alloc, item, n, block)?;
    }
    Ok(block)
}

#[cycle(walk)]
fn item_block(alloc: Global, item: &Item, n: u32, then: Box<Block>) -> Result<Box<Block>, NoMemory>
    ensures { IfOk result (λ b. block_tree b.value ≡ item_block plain n (item_tree item.now) (block_tree then.value)) }
{
    match item {
        Item::Let(code) => {
            let a = block_of(alloc, code, n)?;
            bind(alloc, a, then)
        }
        Item::Need(code) => {
            let t = block_of(alloc, code, n)?;
            let leave = Box::new(alloc, Block::Leave)?;
            test(alloc, t, then, leave)
        }
    }
}
