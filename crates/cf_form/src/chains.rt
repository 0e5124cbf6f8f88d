//! Chains and least and greatest numbers in ordinary code, as lets and tests.
ghost use Rattle.std.specs.Prelude.{◌≡◌, ◌≤◌, ◌+◌, suc, IfOk, map, length, true};
ghost use Rattle.cf_tree.specs.ExprTree.{expr_let, expr_tuple, expr_truth, expr_binary, expr_var};
ghost use Rattle.cf_tree.specs.ExprView.{expr_tree, expr_trees};
ghost use Rattle.cf_tree.specs.declared.raw.BinOp.TheVariants.{And, Compare};
ghost use Rattle.cf_form.specs.Alternatives.{halves};
ghost use Rattle.cf_form.specs.Formed.{comparisons as comparisons_of, chain_body as chain_body_of, pick as pick_of, picked_from as picked_of, best_body as best_body_of};
ghost use Rattle.cf_form.specs.FormShapes.{best_form, chain_form};

use cf_tree::{BinOp, Expr, NoMemory, Order, add_u32, to_u32, without};
use std::alloc::Global;

// The most parts of a `min` or `max` whose form is made. It is as deep as it has parts, a function
// may have a depth of 200, and deep trees are measured and dropped by recursion.
const MOST_PARTS: u32 = 5_000;

/// A chain of formed parts, behind s variables.
pub(crate) fn chain(
    alloc: Global,
    orders: &[Order],
    s: u32,
    parts: Vec<Expr>,
) -> Result<Expr, NoMemory>
    ensures { IfOk result (λ e. expr_tree e ≡ chain_form orders.now s (expr_trees parts.items)) }
{
    match chain_body(alloc, s, orders) {
        Ok(body) => let_tuple(alloc, parts, body),
        Err(fault) => Err(without(parts, fault)),
    }
}

/// The least of formed parts, behind s variables, or the greatest: the picked one stands in this
/// order to the others.
pub(crate) fn best(alloc: Global, order: Order, s: u32, parts: Vec<Expr>) -> Result<Expr, NoMemory>
    ensures { IfOk result (λ e. expr_tree e ≡ best_form order s (expr_trees parts.items)) }
{
    match best_body(alloc, order, s, parts.len()) {
        Ok(body) => let_tuple(alloc, parts, body),
        Err(fault) => Err(without(parts, fault)),
    }
}

// The body, where these parts are bound.
fn let_tuple(alloc: Global, parts: Vec<Expr>, body: Box<Expr>) -> Result<Expr, NoMemory>
    ensures { IfOk result (λ e. expr_tree e ≡ expr_let (length parts.items) (expr_tuple (expr_trees parts.items)) (expr_tree body.value)) }
{
    match to_u32(parts.len()) {
        Ok(count) => {
            let value = Box::new(alloc, Expr::Tuple(parts))?;
            Ok(Expr::Let { count, value, body })
        }
        Err(fault) => Err(without(parts, fault)),
    }
}

// Whether neighbours among the variables from level s on compare so.
fn chain_body(alloc: Global, s: u32, orders: &[Order]) -> Result<Box<Expr>, NoMemory>
    ensures { IfOk result (λ e. expr_tree e.value ≡ chain_body_of s orders.now) }
{
    joined(alloc, comparisons(alloc, s, orders)?)
}

// The comparisons of neighbours, the first of which has level s.
fn comparisons(alloc: Global, s: u32, orders: &[Order]) -> Result<Vec<Expr>, NoMemory>
    ensures { IfOk result (λ es. map expr_tree es.items ≡ comparisons_of s orders.now) }
{
    let mut all = Vec::new(alloc);
    let mut level = s;
    let mut rest = orders;
    while let Some((order, more)) = rest.split_first() {
        let next = add_u32(level, 1)?;
        all.push(compare(alloc, *order, level, next)?)?;
        level = next;
        rest = more;
    }
    Ok(all)
}

fn compare(alloc: Global, order: Order, x: u32, y: u32) -> Result<Expr, NoMemory>
    ensures { IfOk result (λ e. expr_tree e ≡ expr_binary (Compare order) (expr_var x) (expr_var y)) }
{
    let left = Box::new(alloc, Expr::Var(x))?;
    let right = Box::new(alloc, Expr::Var(y))?;
    let op = BinOp::Compare(order);
    Ok(Expr::Binary { op, left, right })
}

// The tests joined, the first half of them to the left.
fn joined(alloc: Global, parts: Vec<Expr>) -> Result<Box<Expr>, NoMemory>
    ensures { IfOk result (λ e. expr_tree e.value ≡ halves (expr_binary And) (expr_truth true) (map expr_tree parts.items)) }
{
    let mut first = parts;
    let half = first.len() / 2;
    if half == 0 {
        return at_most_one(alloc, first);
    }
    match first.split_off(half) {
        Ok(rest) => match joined(alloc, first) {
            Ok(left) => and(alloc, left, joined(alloc, rest)?),
            Err(fault) => Err(without(rest, fault)),
        },
        Err(_) => Err(without(first, NoMemory)),
    }
}

#[tactic(auto, using(crate::proofs::ChainSteps::one_test))]
fn at_most_one(alloc: Global, parts: Vec<Expr>) -> Result<Box<Expr>, NoMemory>
    requires { length parts.items ≤ 1 }
    ensures { IfOk result (λ e. expr_tree e.value ≡ halves (expr_binary And) (expr_truth true) (map expr_tree parts.items)) }
{
    let mut parts = parts;
    match parts.pop() {
        Some(part) => Ok(Box::new(alloc, part)?),
        None => Ok(Box::new(alloc, Expr::Truth(true))?),
    }
}

fn and(alloc: Global, left: Box<Expr>, right: Box<Expr>) -> Result<Box<Expr>, NoMemory>
    ensures { IfOk result (λ e. expr_tree e.value ≡ expr_binary And (expr_tree left.value) (expr_tree right.value)) }
{
    let op = BinOp::And;
    Ok(Box::new(alloc, Expr::Binary { op, left, right })?)
}

// The least or greatest of so many variables from level s on.
#[tactic(auto, using(crate::proofs::ChainSteps::bests))]
fn best_body(alloc: Global, order: Order, s: u32, count: usize) -> Result<Box<Expr>, NoMemory>
    ensures { IfOk result (λ e. expr_tree e.value ≡ best_body_of order s count) }
{
    let count = to_u32(count)?;
    if count > MOST_PARTS {
        return Err(NoMemory);
    }
    let second = add_u32(s, 1)?;
    if count <= 2 {
        return pick(alloc, order, s, second);
    }
    let bound = add_u32(s, count)?;
    let third = add_u32(s, 2)?;
    let body = picked_from(alloc, order, bound, third, count - 3)?;
    let_pick(alloc, order, s, second, body)
}

// The least or greatest of variable x, which is bound last, of the one of level y, and of `more`
// behind that; from the inside out.
#[tactic(auto, using(crate::proofs::ChainSteps::picks))]
fn picked_from(
    alloc: Global,
    order: Order,
    x: u32,
    y: u32,
    more: u32,
) -> Result<Box<Expr>, NoMemory>
    ensures { IfOk result (λ e. expr_tree e.value ≡ picked_of order x y (suc x) more) }
{
    let mut left = more;
    let mut body = pick_at(alloc, order, x, y, left)?;
    while let Some(less) = left.checked_sub(1) {
        body = let_pick_at(alloc, order, x, y, less, body)?;
        left = less;
    }
    Ok(body)
}

// The pick that many levels behind x and y.
fn pick_at(alloc: Global, order: Order, x: u32, y: u32, behind: u32) -> Result<Box<Expr>, NoMemory>
    ensures { IfOk result (λ e. expr_tree e.value ≡ pick_of order (x + behind) (y + behind)) }
{
    pick(alloc, order, add_u32(x, behind)?, add_u32(y, behind)?)
}

fn let_pick_at(
    alloc: Global,
    order: Order,
    x: u32,
    y: u32,
    behind: u32,
    body: Box<Expr>,
) -> Result<Box<Expr>, NoMemory>
    ensures { IfOk result (λ e. expr_tree e.value ≡ expr_let 1 (pick_of order (x + behind) (y + behind)) (expr_tree body.value)) }
{
    match pick_at(alloc, order, x, y, behind) {
        Ok(value) => let_one(alloc, value, body),
        Err(fault) => Err(without(body, fault)),
    }
}

fn let_pick(
    alloc: Global,
    order: Order,
    x: u32,
    y: u32,
    body: Box<Expr>,
) -> Result<Box<Expr>, NoMemory>
    ensures { IfOk result (λ e. expr_tree e.value ≡ expr_let 1 (pick_of order x y) (expr_tree body.value)) }
{
    match pick(alloc, order, x, y) {
        Ok(value) => let_one(alloc, value, body),
        Err(fault) => Err(without(body, fault)),
    }
}

fn let_one(alloc: Global, value: Box<Expr>, body: Box<Expr>) -> Result<Box<Expr>, NoMemory>
    ensures { IfOk result (λ e. expr_tree e.value ≡ expr_let 1 (expr_tree value.value) (expr_tree body.value)) }
{
    let count = 1;
    Ok(Box::new(alloc, Expr::Let { count, value, body })?)
}

fn pick(alloc: Global, order: Order, x: u32, y: u32) -> Result<Box<Expr>, NoMemory>
    ensures { IfOk result (λ e. expr_tree e.value ≡ pick_of order x y) }
{
    let test = Box::new(alloc, compare(alloc, order, x, y)?)?;
    let yes = Box::new(alloc, Expr::Var(x))?;
    let no = Box::new(alloc, Expr::Var(y))?;
    Ok(Box::new(alloc, Expr::If { test, yes, no })?)
}
