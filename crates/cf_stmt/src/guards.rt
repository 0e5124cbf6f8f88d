//! Blocks written as by hand: the last arm without a search has guards, nothing stands behind an
//! arm that is never left, and small tests side by side are one.
ghost use Rattle.std.specs.Prelude.{◌≡◌, IfOk, if◌then◌else◌};
ghost use Rattle.cf_stmt.specs.BlockView.{block_tree};
ghost use Rattle.cf_tree.specs.CodeView.{code_tree};
ghost use Rattle.cf_stmt.specs.Blocks.{arm as arm_of, give as give_of, test as test_of};
ghost use Rattle.cf_stmt.specs.Guards.{are_one, both_given, else_none, ends_alike, give_together, guarded, guarded_arm, is_leave, is_none, is_test, never_leaves, single_arm, stop_of, tested};

use crate::block::Block;
use crate::boxed::{bind, join, part, test};
use crate::expression::fit_together;
use cf_tree::{Code, NoMemory};
use std::alloc::Global;

// The block with guards, in all its parts.
#[cycle(guarded)]
pub(crate) fn guarded(alloc: Global, block: Box<Block>) -> Result<Box<Block>, NoMemory>
    ensures { IfOk result (λ b. block_tree b.value ≡ guarded (block_tree block.value)) }
{
    match Box::into_inner(block) {
        Block::Give(code) => Ok(Box::new(alloc, Block::Give(code))?),
        Block::Stop(number) => Ok(Box::new(alloc, Block::Stop(number))?),
        Block::Leave => Ok(Box::new(alloc, Block::Leave)?),
        Block::Bind(a, b) => {
            let a = guarded(alloc, a)?;
            let b = guarded(alloc, b)?;
            bind(alloc, a, b)
        }
        Block::Part(a, b) => {
            let a = guarded(alloc, a)?;
            let b = guarded(alloc, b)?;
            part(alloc, a, b)
        }
        Block::Join(a, b) => {
            let a = guarded(alloc, a)?;
            let b = guarded(alloc, b)?;
            join(alloc, a, b)
        }
        Block::Test { test, yes, no } => {
            let test = guarded(alloc, test)?;
            let no = guarded(alloc, no)?;
            tested(alloc, test, yes, no)
        }
        Block::Arm {
            bounds,
            body,
            later,
        } => {
            let body = guarded(alloc, body)?;
            let later = guarded(alloc, later)?;
            guarded_arm(alloc, bounds, body, later)
        }
    }
}

// The block between two that are guarded, as a test: it takes in the tests behind it as long as they are one.
#[cycle(guarded)]
#[tactic(auto, using(crate::proofs::StandsLaws::not_tested, crate::proofs::StandsLaws::twice_tested))]
fn tested(
    alloc: Global,
    first: Box<Block>,
    yes: Box<Block>,
    no: Box<Block>,
) -> Result<Box<Block>, NoMemory>
    ensures { IfOk result (λ b. block_tree b.value ≡ tested (block_tree first.value) (block_tree yes.value) (block_tree no.value)) }
{
    if !is_test(&yes) {
        let yes = guarded(alloc, yes)?;
        return test(alloc, first, yes, no);
    }
    match Box::into_inner(yes) {
        Block::Test {
            test: second,
            yes: inner,
            no: last,
        } => {
            let second = guarded(alloc, second)?;
            let last = guarded(alloc, last)?;
            tested_twice(alloc, first, second, inner, last, no)
        }
        // for the proof: no other form comes here
        _ => Err(NoMemory),
    }
}

// The same where a second test stands there.
#[cycle(guarded)]
fn tested_twice(
    alloc: Global,
    first: Box<Block>,
    second: Box<Block>,
    yes: Box<Block>,
    last: Box<Block>,
    no: Box<Block>,
) -> Result<Box<Block>, NoMemory>
    ensures { IfOk result (λ b. block_tree b.value ≡
        (if are_one (block_tree first.value) (block_tree second.value) (block_tree last.value) (block_tree no.value)
        then tested (both_given (block_tree first.value) (block_tree second.value)) (block_tree yes.value) (block_tree no.value)
        else test_of (block_tree first.value) (tested (block_tree second.value) (block_tree yes.value) (block_tree last.value)) (block_tree no.value))) }
{
    if are_one(&first, &second, &last, &no) {
        drop(last);
        let both = both_given(alloc, first, second)?;
        return tested(alloc, both, yes, no);
    }
    let yes = tested(alloc, second, yes, last)?;
    test(alloc, first, yes, no)
}

// ---- arms
fn guarded_arm(
    alloc: Global,
    bounds: Vec<u32>,
    body: Box<Block>,
    later: Box<Block>,
) -> Result<Box<Block>, NoMemory>
    ensures { IfOk result (λ b. block_tree b.value ≡ guarded_arm bounds.items (block_tree body.value) (block_tree later.value)) }
{
    if bounds.is_empty() {
        return single_arm(alloc, bounds, body, later);
    }
    arm(alloc, bounds, body, later)
}

// An arm without a search.
fn single_arm(
    alloc: Global,
    bounds: Vec<u32>,
    body: Box<Block>,
    later: Box<Block>,
) -> Result<Box<Block>, NoMemory>
    ensures { IfOk result (λ b. block_tree b.value ≡ single_arm (stop_of (block_tree later.value)) bounds.items (block_tree body.value)
        (block_tree later.value)) }
{
    match stop_of(&later) {
        Some(number) => Ok(with_guards(body, number)),
        None => {
            if never_leaves(&body) {
                return Ok(body);
            }
            arm(alloc, bounds, body, later)
        }
    }
}

fn arm(
    alloc: Global,
    bounds: Vec<u32>,
    body: Box<Block>,
    later: Box<Block>,
) -> Result<Box<Block>, NoMemory>
    ensures { IfOk result (λ b. block_tree b.value ≡ arm_of bounds.items (block_tree body.value) (block_tree later.value)) }
{
    Ok(Box::new(
        alloc,
        Block::Arm {
            bounds,
            body,
            later,
        },
    )?)
}

// The number of a block that has no solution.
fn stop_of(block: &Block) -> Option<u32>
    ensures { result ≡ stop_of (block_tree block.now) }
{
    match block {
        Block::Stop(number) => Some(*number),
        Block::Give(_) => None,
        Block::Leave => None,
        Block::Bind(_, _) | Block::Part(_, _) | Block::Join(_, _) => None,
        Block::Test { .. } => None,
        Block::Arm { .. } => None,
    }
}

fn with_guards(body: Box<Block>, number: u32) -> Box<Block>
    ensures { block_tree result.value ≡ else_none number (block_tree body.value) }
{
    let mut block = body;
    else_none_in(&mut block, number);
    block
}

// Where the arm is left there is no solution at `number`.
#[cycle(else_none)]
fn else_none(block: &mut Block, number: u32)
    ensures { block_tree block.new ≡ else_none number (block_tree block.old) }
{
    match block {
        Block::Give(_) | Block::Stop(_) => {}
        Block::Leave => put(block, Block::Stop(number)),
        Block::Bind(a, b) => {
            else_none_in(a, number);
            else_none_in(b, number);
        }
        Block::Part(a, b) => {
            else_none_in(a, number);
            else_none_in(b, number);
        }
        Block::Join(a, b) => {
            else_none_in(a, number);
            else_none_in(b, number);
        }
        Block::Test { test, yes, no } => {
            else_none_in(test, number);
            else_none_in(yes, number);
            else_none_in(no, number);
        }
        Block::Arm { later, .. } => else_none_in(later, number),
    }
}

// for the proof: the parts of a form are lent with their boxes
#[cycle(else_none)]
fn else_none_in(part: &mut Box<Block>, number: u32)
    ensures { block_tree part.new.value ≡ else_none number (block_tree part.old.value) }
{
    else_none(part, number)
}

fn put<T: Drop>(place: &mut T, value: T)
    ensures { place.new ≡ value }
{
    *place = value;
}

// Whether nothing in it leaves the arm in which it stands.
#[cycle(never_leaves)]
fn never_leaves(block: &Block) -> bool
    ensures { result ≡ never_leaves (block_tree block.now) }
{
    match block {
        Block::Give(_) | Block::Stop(_) => true,
        Block::Leave => false,
        Block::Bind(a, b) | Block::Part(a, b) | Block::Join(a, b) => {
            never_leaves(a) && never_leaves(b)
        }
        Block::Test { test, yes, no } => never_leaves(test)
            && never_leaves(yes)
            && never_leaves(no),
        Block::Arm { later, .. } => never_leaves(later),
    }
}

// ---- tests
fn is_test(block: &Block) -> bool
    ensures { result ≡ is_test (block_tree block.now) }
{
    match block {
        Block::Test { .. } => true,
        Block::Give(_) | Block::Stop(_) | Block::Leave => false,
        Block::Bind(_, _) | Block::Part(_, _) | Block::Join(_, _) => false,
        Block::Arm { .. } => false,
    }
}

// The code of the first, and then that of the second.
fn both_given(alloc: Global, first: Box<Block>, second: Box<Block>) -> Result<Box<Block>, NoMemory>
    ensures { IfOk result (λ b. block_tree b.value ≡ both_given (block_tree first.value) (block_tree second.value)) }
{
    match (Box::into_inner(first), Box::into_inner(second)) {
        (Block::Give(a), Block::Give(b)) => {
            let a = Box::new(alloc, a)?;
            let b = Box::new(alloc, b)?;
            Ok(Box::new(alloc, Block::Give(Code::And(a, b)))?)
        }
        // for the proof: no other form comes here
        _ => Err(NoMemory),
    }
}

// Whether a test, and a second behind it that ends by `last`, are one that ends by `no`.
fn are_one(first: &Block, second: &Block, last: &Block, no: &Block) -> bool
    ensures { result ≡ are_one (block_tree first.now) (block_tree second.now) (block_tree last.now) (block_tree no.now) }
{
    give_together(first, second) && ends_alike(last, no)
}

// Whether both give codes that fit in one test.
fn give_together(a: &Block, b: &Block) -> bool
    ensures { result ≡ give_together (block_tree a.now) (block_tree b.now) }
{
    match a {
        Block::Give(code) => gives_with(code, b),
        Block::Stop(_) | Block::Leave => false,
        Block::Bind(_, _) | Block::Part(_, _) | Block::Join(_, _) => false,
        Block::Test { .. } | Block::Arm { .. } => false,
    }
}

// Whether it gives a code that fits in one test behind this one.
fn gives_with(code: &Code, block: &Block) -> bool
    ensures { result ≡ give_together (give_of (code_tree code.now)) (block_tree block.now) }
{
    match block {
        Block::Give(other) => fit_together(code, other),
        Block::Stop(_) | Block::Leave => false,
        Block::Bind(_, _) | Block::Part(_, _) | Block::Join(_, _) => false,
        Block::Test { .. } | Block::Arm { .. } => false,
    }
}

// Whether both leave the arm, or both have no solution at one number.
fn ends_alike(a: &Block, b: &Block) -> bool
    ensures { result ≡ ends_alike (block_tree a.now) (block_tree b.now) }
{
    match a {
        Block::Leave => is_leave(b),
        Block::Stop(number) => is_none(*number, b),
        Block::Give(_) => false,
        Block::Bind(_, _) | Block::Part(_, _) | Block::Join(_, _) => false,
        Block::Test { .. } | Block::Arm { .. } => false,
    }
}

fn is_leave(block: &Block) -> bool
    ensures { result ≡ is_leave (block_tree block.now) }
{
    match block {
        Block::Leave => true,
        Block::Give(_) | Block::Stop(_) => false,
        Block::Bind(_, _) | Block::Part(_, _) | Block::Join(_, _) => false,
        Block::Test { .. } | Block::Arm { .. } => false,
    }
}

fn is_none(number: u32, block: &Block) -> bool
    ensures { result ≡ is_none number (block_tree block.now) }
{
    match block {
        Block::Stop(n) => number == *n,
        Block::Give(_) | Block::Leave => false,
        Block::Bind(_, _) | Block::Part(_, _) | Block::Join(_, _) => false,
        Block::Test { .. } | Block::Arm { .. } => false,
    }
}
