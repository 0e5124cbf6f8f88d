//! How many values a code gives, how often a variable stands in it, and what may stand in the place of a variable.
ghost use Rattle.std.specs.Prelude.{◌≡◌, ◌≤◌, ◌&&◌, nat_eq, nat_lt, length};
ghost use Rattle.cf_tree.specs.CodeTree.{count};
ghost use Rattle.cf_tree.specs.CodeView.{code_tree, item_tree, arm_tree, code_trees, item_trees, arm_trees};
ghost use Rattle.cf_range.specs.Settled.{gives_so_many, each_gives_one, arm_gives_so_many, arms_give_so_many, item_binds_one, items_bind_one, up_to, are_none, is_var, uses, all_use, give_uses, gives_use, item_uses, items_use, arm_uses, arms_use, stands_anywhere, all_stand_anywhere, weight, weights, is_any_var, reads_well, may_go, goes};

use crate::range::Range;
use crate::total::is_total;
use cf_shift::code_over_operands;
use cf_tree::{Arm, Code, Item, code_over_one, code_over_three};

/// Whether the code gives so many values wherever it gives any.
#[cycle(counts)]
pub(crate) fn gives_so_many(n: usize, code: &Code) -> bool
    ensures { result ≡ gives_so_many n (code_tree code.now) }
{
    match code {
        Code::Tuple(parts) => are_so_many(n, parts) && each_gives_one(parts),
        Code::And(_, b) | Code::Or(_, b) => n == 1 && gives_so_many(n, b),
        Code::If { yes, no, .. } => gives_so_many(n, yes) && gives_so_many(n, no),
        Code::Let { body, .. } => gives_so_many(n, body),
        Code::Solve { arms, .. } => arms_give_so_many(n, arms),
        _ => n == 1,
    }
}

#[tactic(auto, using(crate::proofs::SettledLists::count_is))]
fn are_so_many(n: usize, parts: &[Code]) -> bool
    ensures { result ≡ nat_eq n (count (code_trees parts.now)) }
{
    n == parts.len()
}

#[cycle(counts)]
fn each_gives_one(parts: &[Code]) -> bool
    ensures { result ≡ each_gives_one (code_trees parts.now) }
{
    for part in parts {
        if !gives_so_many(1, part) {
            return false;
        }
    }
    true
}

#[cycle(counts)]
fn arm_gives_so_many(n: usize, arm: &Arm) -> bool
    ensures { result ≡ arm_gives_so_many n (arm_tree arm.now) }
{
    are_so_many(n, &arm.gives) && each_gives_one(&arm.gives)
}

#[cycle(counts)]
fn arms_give_so_many(n: usize, arms: &[Arm]) -> bool
    ensures { result ≡ arms_give_so_many n (arm_trees arms.now) }
{
    for arm in arms {
        if !arm_gives_so_many(n, arm) {
            return false;
        }
    }
    true
}

fn item_binds_one(item: &Item) -> bool
    ensures { result ≡ item_binds_one (item_tree item.now) }
{
    match item {
        Item::Let(code) => gives_so_many(1, code),
        Item::Need(_) => true,
    }
}

/// Whether each let has one value.
pub(crate) fn items_bind_one(items: &[Item]) -> bool
    ensures { result ≡ items_bind_one (item_trees items.now) }
{
    for item in items {
        if !item_binds_one(item) {
            return false;
        }
    }
    true
}

// Two numbers together, up to a greatest.
fn up_to(most: u32, a: u32, b: u32) -> u32
    requires { most ≤ 15 }
    ensures { result ≡ up_to most a b }
{
    let sum = a.saturating_add(b);
    if most < sum { most } else { sum }
}

pub(crate) fn is_var(level: usize, code: &Code) -> bool
    ensures { result ≡ is_var level (code_tree code.now) }
{
    match code {
        Code::Var(x) => level == *x as usize,
        _ => false,
    }
}

// How often the variable of this level stands in the code, up to 9.
#[cycle(uses)]
fn uses(level: usize, code: &Code) -> u32
    ensures { result ≡ uses level (code_tree code.now) }
{
    match code {
        Code::Lit(_) | Code::Truth(_) => 0,
        Code::Var(x) => { if level == *x as usize { 1 } else { 0 } }
        Code::Tuple(parts) => gives_use(level, parts, 0),
        Code::SetOf(parts)
        | Code::Sum(parts)
        | Code::Min(parts)
        | Code::Max(parts)
        | Code::Union(parts)
        | Code::Inter(parts) => all_use(level, parts, 0),
        code_over_one!(a) => uses(level, a),
        Code::Let {
            value: a,
            body: b,
            ..
        } => up_to(9, uses(level, a), uses(level, b)),
        code_over_operands!(a, b) => up_to(9, uses(level, a), uses(level, b)),
        code_over_three!(a, b, c) => up_to(
            9,
            uses(level, a),
            up_to(9, uses(level, b), uses(level, c)),
        ),
        Code::Solve { arms, .. } => arms_use(level, arms, 0),
    }
}

#[cycle(uses)]
fn all_use(level: usize, parts: &[Code], n: u32) -> u32
    ensures { result ≡ all_use level (code_trees parts.now) n }
{
    let mut sum = n;
    for part in parts {
        sum = up_to(9, sum, uses(level, part));
    }
    sum
}

// A code that is the variable counts as 9.
#[cycle(uses)]
fn give_uses(level: usize, code: &Code) -> u32
    ensures { result ≡ give_uses level (code_tree code.now) }
{
    if is_var(level, code) {
        9
    } else {
        uses(level, code)
    }
}

#[cycle(uses)]
fn gives_use(level: usize, gives: &[Code], n: u32) -> u32
    ensures { result ≡ gives_use level (code_trees gives.now) n }
{
    let mut sum = n;
    for code in gives {
        sum = up_to(9, sum, give_uses(level, code));
    }
    sum
}

#[cycle(uses)]
fn item_uses(level: usize, item: &Item) -> u32
    ensures { result ≡ item_uses level (item_tree item.now) }
{
    match item {
        Item::Let(code) => uses(level, code),
        Item::Need(code) => uses(level, code),
    }
}

#[cycle(uses)]
fn items_use(level: usize, items: &[Item], n: u32) -> u32
    ensures { result ≡ items_use level (item_trees items.now) n }
{
    let mut sum = n;
    for item in items {
        sum = up_to(9, sum, item_uses(level, item));
    }
    sum
}

// How often the variable of this level stands in the arm, up to 9.
#[cycle(uses)]
fn arm_uses(level: usize, arm: &Arm) -> u32
    ensures { result ≡ arm_uses level (arm_tree arm.now) }
{
    gives_use(level, &arm.gives, items_use(level, &arm.items, 0))
}

#[cycle(uses)]
fn arms_use(level: usize, arms: &[Arm], n: u32) -> u32
    ensures { result ≡ arms_use level (arm_trees arms.now) n }
{
    let mut sum = n;
    for arm in arms {
        sum = up_to(9, sum, arm_uses(level, arm));
    }
    sum
}

/// Whether the list is empty.
pub(crate) fn are_none(parts: &[Code]) -> bool
    ensures { result ≡ are_none (code_trees parts.now) }
{
    match parts.first() {
        Some(_) => false,
        None => true,
    }
}

// Whether the code is a number form, a truth value or the empty set, over variables of levels below n.
#[cycle(stands)]
fn stands_anywhere(n: usize, code: &Code) -> bool
    ensures { result ≡ stands_anywhere n (code_tree code.now) }
{
    match code {
        Code::Lit(_) | Code::Truth(_) => true,
        Code::Var(x) => (*x as usize) < n,
        Code::SetOf(parts) => are_none(parts),
        Code::Sum(parts) | Code::Min(parts) | Code::Max(parts) => all_stand_anywhere(n, parts),
        Code::Sub(a, b) | Code::Mul(a, b) => stands_anywhere(n, a) && stands_anywhere(n, b),
        Code::Neg(of) | Code::Div { of, .. } | Code::Mod { of, .. } => stands_anywhere(n, of),
        _ => false,
    }
}

#[cycle(stands)]
fn all_stand_anywhere(n: usize, parts: &[Code]) -> bool
    ensures { result ≡ all_stand_anywhere n (code_trees parts.now) }
{
    for part in parts {
        if !stands_anywhere(n, part) {
            return false;
        }
    }
    true
}

// How many nodes the code has, up to 15.
#[cycle(weight)]
fn weight(code: &Code) -> u32
    ensures { result ≡ weight (code_tree code.now) }
{
    match code {
        Code::Lit(_) | Code::Truth(_) | Code::Var(_) => 1,
        Code::Sum(parts) | Code::Min(parts) | Code::Max(parts) => weights(parts, 1),
        Code::Sub(a, b) | Code::Mul(a, b) => up_to(15, 1, up_to(15, weight(a), weight(b))),
        Code::Neg(of) | Code::Div { of, .. } | Code::Mod { of, .. } => up_to(15, 1, weight(of)),
        _ => 15,
    }
}

#[cycle(weight)]
fn weights(parts: &[Code], n: u32) -> u32
    ensures { result ≡ weights (code_trees parts.now) n }
{
    let mut sum = n;
    for part in parts {
        sum = up_to(15, sum, weight(part));
    }
    sum
}

// Whether a value of few nodes is used at most once.
fn is_short(n: u32, code: &Code) -> bool
    ensures { result ≡ (nat_lt n 2 && nat_lt (weight (code_tree code.now)) 15) }
{
    n < 2 && weight(code) < 15
}

// Whether a negated variable is used fewer than 9 times.
fn is_often_var(n: u32, code: &Code) -> bool
    ensures { result ≡ (nat_lt n 9 && is_any_var (code_tree code.now)) }
{
    n < 9 && is_any_var(code)
}

// Whether a value that is used so often reads better in its place.
fn reads_well(n: u32, code: &Code) -> bool
    ensures { result ≡ reads_well n (code_tree code.now) }
{
    match code {
        Code::Lit(_) | Code::Truth(_) | Code::Var(_) => true,
        Code::SetOf(parts) => are_none(parts),
        Code::Neg(of) => is_short(n, code) || is_often_var(n, of),
        _ => is_short(n, code),
    }
}

fn is_any_var(code: &Code) -> bool
    ensures { result ≡ is_any_var (code_tree code.now) }
{
    match code {
        Code::Var(_) => true,
        _ => false,
    }
}

/// Whether a value may stand in the place of its variable.
pub(crate) fn may_go(ranges: &[Range], value: &Code) -> bool
    ensures { result ≡ may_go ranges.now (code_tree value.now) }
{
    is_total(ranges, value) && stands_anywhere(ranges.len(), value)
}

/// Whether the value of a let of so many variables goes into its place in the body.
pub(crate) fn goes_in(ranges: &[Range], n: u32, value: &Code, body: &Code) -> bool
    ensures { result ≡ (nat_eq n 1 && goes ranges.now (code_tree value.now) (uses (length ranges.now) (code_tree body.now))) }
{
    n == 1 && goes(ranges, value, body)
}

// Whether a value goes into its place in what stands behind it.
fn goes(ranges: &[Range], value: &Code, body: &Code) -> bool
    ensures { result ≡ goes ranges.now (code_tree value.now) (uses (length ranges.now) (code_tree body.now)) }
{
    may_go(ranges, value) && reads_well(uses(ranges.len(), body), value)
}

/// Whether a value that may stand in the place of the variable of this level reads better there, in an arm.
pub(crate) fn goes_in_arm(may: bool, level: usize, value: &Code, arm: &Arm) -> bool
    ensures { result ≡ (may && reads_well (arm_uses level (arm_tree arm.now)) (code_tree value.now)) }
{
    may && reads_well(arm_uses(level, arm), value)
}
