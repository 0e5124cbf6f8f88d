// The quick way through plain arithmetic: numbers of 64 bits, which stay in registers. It answers
// none where a part has no such number, and then the exact way tells why.
ghost use Rattle.std.specs.Prelude.{◌≡◌, ◌+ℤ◌, ◌-ℤ◌, ◌*ℤ◌, neg_ℤ, Some, None, pos, IfSome};
ghost use Rattle.cf_num.specs.Limit.{within};
ghost use Rattle.cf_tree.specs.CodeTree.{code_compare, code_divides};
ghost use Rattle.cf_tree.specs.CodeView.{code_tree, code_trees};
ghost use Rattle.cf_tree.specs.Meaning.{choose_with, chosen};
ghost use Rattle.cf_tree.specs.Numbers.{quotient, remainder, is_multiple};
ghost use Rattle.cf_eval.specs.Choice.{better_of};
ghost use Rattle.cf_eval.specs.Quick.{Finds, FindsTruth, Packs};
ghost use Rattle.cf_eval.specs.Reached.{as_number, met as met_reached, met_value, reached, then_reached, sum_reached, best_reached};
ghost use Rattle.cf_eval.specs.RunAnswers.{seen_or_zero};
ghost use Rattle.cf_eval.specs.Seen.{plains};

use crate::lent::{lent_card, lent_order, lent_subset};
use crate::operate::{Side, compare_numbers, narrow_product, remain};
use crate::value::Value;
use cf_tree::{Code, Order};

// Stands for no number where a number comes back in a register.
pub const UNKNOWN: i64 = i64::MIN;

// The number that the code gives, where plain arithmetic finds it.
#[cycle(quick)]
#[inline(always)]
pub fn known(code: &Code, env: &[Value]) -> Option<i64>
    ensures { Finds result (reached (code_tree code.now) (plains env.now)) }
{
    match code {
        Code::Lit(k) => narrow(*k),
        Code::Var(x) => narrow_value(env.get(*x as usize)),
        _ => {
            let z = packed(code, env);
            if z == UNKNOWN { None } else { Some(z) }
        }
    }
}

// The same in one register.
#[cycle(quick)]
#[inline(never)]
fn packed(code: &Code, env: &[Value]) -> i64
    ensures { Packs result (reached (code_tree code.now) (plains env.now)) }
{
    match found(code, env) {
        Some(z) => z,
        None => UNKNOWN,
    }
}

#[cycle(quick)]
#[inline(always)]
fn found(code: &Code, env: &[Value]) -> Option<i64>
    ensures { Finds result (reached (code_tree code.now) (plains env.now)) }
{
    match code {
        Code::Sum(parts) => sum_of(parts, env),
        Code::Sub(a, b) => match known(a, env) {
            Some(x) => known_minus(x, b, env),
            None => None,
        },
        Code::Mul(a, b) => match known(a, env) {
            Some(x) => known_times(x, b, env),
            None => None,
        },
        Code::Neg(a) => match known(a, env) {
            Some(x) => negated(x),
            None => None,
        },
        Code::Div { of, k } => match known(of, env) {
            Some(x) => divided(x, *k),
            None => None,
        },
        Code::Mod { of, k } => match known(of, env) {
            Some(x) => rest_of(x, *k),
            None => None,
        },
        Code::Min(parts) => best_of(Side::Least, parts, env),
        Code::Max(parts) => best_of(Side::Greatest, parts, env),
        Code::Card(a) => lent_card(a, env),
        _ => None,
    }
}

// The difference of x and the number that the code gives.
#[cycle(quick)]
#[inline(always)]
fn known_minus(x: i64, code: &Code, env: &[Value]) -> Option<i64>
    ensures { Finds result (then_reached (as_number (reached (code_tree code.now) (plains env.now))) (λ y. met_reached (within (x -ℤ y)))) }
{
    match known(code, env) {
        Some(y) => minus(x, y),
        None => None,
    }
}

// The product of x and the number that the code gives.
#[cycle(quick)]
#[inline(always)]
fn known_times(x: i64, code: &Code, env: &[Value]) -> Option<i64>
    ensures { Finds result (then_reached (as_number (reached (code_tree code.now) (plains env.now))) (λ y. met_reached (within (x *ℤ y)))) }
{
    match known(code, env) {
        Some(y) => times(x, y),
        None => None,
    }
}

#[cycle(quick)]
fn sum_of(parts: &[Code], env: &[Value]) -> Option<i64>
    ensures { Finds result (sum_reached (code_trees parts.now) (plains env.now) (pos 0)) }
{
    let mut total: i64 = 0;
    for i in 0..parts.len() {
        let x = known(&parts[i], env)?;
        total = plus(total, x)?;
    }
    Some(total)
}

#[cycle(quick)]
fn best_of(side: Side, parts: &[Code], env: &[Value]) -> Option<i64>
    ensures { Finds result (best_reached (better_of side) (code_trees parts.now) (plains env.now) None) }
{
    let mut best: Option<i64> = None;
    for i in 0..parts.len() {
        let x = known(&parts[i], env)?;
        best = Some(better_narrow(side, best, x));
    }
    chosen_of(best)
}

// The truth value that the code gives, where its parts are numbers that are found, or variables that
// hold sets.
#[inline(always)]
pub fn known_truth(code: &Code, env: &[Value]) -> Option<bool>
    ensures { FindsTruth result (reached (code_tree code.now) (plains env.now)) }
{
    match code {
        Code::Compare { order, left, right } => match known_order(*order, left, right, env) {
            Some(b) => Some(b),
            None => lent_order(*order, left, right, env),
        },
        Code::Divides { k, of } => known_multiple(*k, of, env),
        Code::Subset(a, b) => lent_subset(a, b, env),
        _ => None,
    }
}

// How two numbers stand to each other, where both are found.
#[inline(always)]
fn known_order(order: Order, left: &Code, right: &Code, env: &[Value]) -> Option<bool>
    ensures { FindsTruth result (reached (code_compare order (code_tree left.now) (code_tree right.now)) (plains env.now)) }
{
    let x = known(left, env)?;
    let y = known(right, env)?;
    Some(compare_numbers(order, i128::from(x), i128::from(y)))
}

// Whether k divides the number, where it is found.
#[inline(always)]
fn known_multiple(k: i128, of: &Code, env: &[Value]) -> Option<bool>
    ensures { FindsTruth result (reached (code_divides k (code_tree of.now)) (plains env.now)) }
{
    let x = known(of, env)?;
    Some(is_multiple_of(k, x))
}

// The number, if it has 64 bits.
#[inline(always)]
fn narrow(z: i128) -> Option<i64>
    ensures { Finds result (met_reached (within z)) }
{
    match i64::try_from(z) {
        Ok(n) => Some(n),
        Err(_) => None,
    }
}

#[inline(always)]
fn narrow_value(v: Option<&Value>) -> Option<i64>
    ensures { Finds result (met_value (seen_or_zero v.entry)) }
{
    match v {
        Some(Value::Int(n)) => narrow(*n),
        _ => None,
    }
}

#[inline(always)]
fn plus(x: i64, y: i64) -> Option<i64>
    ensures { IfSome result (λ z. within (x +ℤ y) ≡ Some z) }
{
    x.checked_add(y)
}

#[inline(always)]
fn minus(x: i64, y: i64) -> Option<i64>
    ensures { Finds result (met_reached (within (x -ℤ y))) }
{
    narrow(i128::from(x) - i128::from(y))
}

#[inline(always)]
fn times(x: i64, y: i64) -> Option<i64>
    ensures { Finds result (met_reached (within (x *ℤ y))) }
{
    narrow(narrow_product(x, y))
}

#[inline(always)]
fn negated(x: i64) -> Option<i64>
    ensures { Finds result (met_reached (within (neg_ℤ x))) }
{
    narrow(-i128::from(x))
}

#[inline(always)]
fn divided(x: i64, k: i128) -> Option<i64>
    ensures { Finds result (met_reached (within (quotient x k))) }
{
    match i64::try_from(k) {
        Ok(d) if d > 0 => narrow(i128::from(x.div_euclid(d))),
        _ => None,
    }
}

#[inline(always)]
fn rest_of(x: i64, k: i128) -> Option<i64>
    ensures { Finds result (met_reached (within (remainder x k))) }
{
    narrow(remain(i128::from(x), k))
}

#[inline(always)]
fn is_multiple_of(k: i128, x: i64) -> bool
    ensures { result ≡ is_multiple k x }
{
    remain(i128::from(x), k) == 0
}

// The better of what was chosen so far and x.
#[inline(always)]
fn better_narrow(side: Side, most: Option<i64>, x: i64) -> i64
    ensures { result ≡ choose_with (better_of side) most x }
{
    match most {
        None => x,
        Some(z) => better_of_two(side, z, x),
    }
}

#[inline(always)]
fn better_of_two(side: Side, z: i64, x: i64) -> i64
    ensures { result ≡ better_of side z x }
{
    match side {
        Side::Least => z.min(x),
        Side::Greatest => z.max(x),
    }
}

#[inline(always)]
fn chosen_of(best: Option<i64>) -> Option<i64>
    ensures { Finds result (met_reached (within (chosen best))) }
{
    narrow(i128::from(best.unwrap_or(0)))
}
