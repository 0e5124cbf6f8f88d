//! How often the number of a level counts in a form.
ghost use Rattle.std.specs.Prelude.{◌≡◌, ◌+ℤ◌, ◌-ℤ◌, ◌*ℤ◌, ◌==◌, [], pos, true, if◌then◌else◌, IfSome};
ghost use Rattle.cf_num.specs.Limit.{IsWithin};
ghost use Rattle.cf_tree.specs.Numbers.{absolute};
ghost use Rattle.cf_tree.specs.Relation.{is_fixed as is_fixed_of, val};
ghost use Rattle.cf_tree.specs.RelView.{term_tree};
ghost use Rattle.cf_advice.specs.Factors.{IsFlat, factor as the_factor};

use cf_num::{add, mul, neg, sub};
use cf_tree::Term;

/// How often the number of the level counts in the form; none where it counts inside of a quotient, a remainder or an
/// absolute value, where a product has no fixed side, or where a number passes 2^127 - 1.
#[tactic(auto, using(crate::proofs::FactorLaws::left_value, crate::proofs::FactorLaws::left_flat, crate::proofs::FactorLaws::right_value, crate::proofs::FactorLaws::right_flat))]
pub(crate) fn factor(term: &Term, level: u32) -> Option<i128>
    ensures value { IfSome result (λ k. k ≡ the_factor level (term_tree term.now)) }
    ensures flat { IfSome result (λ _. IsFlat level (term_tree term.now)) }
    ensures fits { IfSome result IsWithin }
{
    match term {
        Term::Lit(_) | Term::Card(_) => Some(0),
        Term::Var(x) => Some(own_factor(*x, level)),
        Term::Neg(a) => {
            let k = factor(a, level)?;
            Some(neg(k))
        }
        Term::Add(a, b) => {
            let j = factor(a, level)?;
            let k = factor(b, level)?;
            let n = sum(j, k)?;
            Some(n)
        }
        Term::Sub(a, b) => {
            let j = factor(a, level)?;
            let k = factor(b, level)?;
            let n = difference(j, k)?;
            Some(n)
        }
        Term::Mul(a, b) => {
            if is_fixed(a) {
                let c = fixed_value(a)?;
                let k = factor(b, level)?;
                let n = product(c, k)?;
                Some(n)
            } else if is_fixed(b) {
                let k = factor(a, level)?;
                let c = fixed_value(b)?;
                let n = product(k, c)?;
                Some(n)
            } else {
                None
            }
        }
        Term::Div(a, _) => {
            let k = factor(a, level)?;
            if is_none(k) { Some(0) } else { None }
        }
        Term::Mod(a, _) => {
            let k = factor(a, level)?;
            if is_none(k) { Some(0) } else { None }
        }
        Term::Abs(a) => {
            let k = factor(a, level)?;
            if is_none(k) { Some(0) } else { None }
        }
    }
}

// How often the number of the level counts in the variable of level `x`.
fn own_factor(x: u32, level: u32) -> i128
    ensures value { result ≡ (if level == x then pos 1 else pos 0) }
    ensures fits { IsWithin result }
{
    if level == x { 1 } else { 0 }
}

// Whether it counts 0 times.
fn is_none(times: i128) -> bool
    ensures { result ≡ true → times ≡ pos 0 }
{
    times == 0
}

fn is_fixed(term: &Term) -> bool
    ensures { result ≡ is_fixed_of (term_tree term.now) }
{
    match term {
        Term::Lit(_) => true,
        Term::Var(_) | Term::Card(_) | Term::Div(_, _) | Term::Mod(_, _) => false,
        Term::Neg(a) | Term::Abs(a) => is_fixed(a),
        Term::Add(a, b) | Term::Sub(a, b) | Term::Mul(a, b) => is_fixed(a) && is_fixed(b),
    }
}

// The value of a form without variables; none where a number passes 2^127 - 1.
fn fixed_value(term: &Term) -> Option<i128>
    ensures value { IfSome result (λ n. n ≡ val (term_tree term.now) []) }
    ensures fits { IfSome result IsWithin }
{
    match term {
        Term::Lit(n) => within(*n),
        Term::Var(_) | Term::Card(_) | Term::Div(_, _) | Term::Mod(_, _) => None,
        Term::Neg(a) => {
            let x = fixed_value(a)?;
            Some(neg(x))
        }
        Term::Add(a, b) => {
            let x = fixed_value(a)?;
            let y = fixed_value(b)?;
            let n = sum(x, y)?;
            Some(n)
        }
        Term::Sub(a, b) => {
            let x = fixed_value(a)?;
            let y = fixed_value(b)?;
            let n = difference(x, y)?;
            Some(n)
        }
        Term::Mul(a, b) => {
            let x = fixed_value(a)?;
            let y = fixed_value(b)?;
            let n = product(x, y)?;
            Some(n)
        }
        Term::Abs(a) => {
            let x = fixed_value(a)?;
            Some(absolute(x))
        }
    }
}

// The number, if it is within the limit.
fn within(n: i128) -> Option<i128>
    ensures value { IfSome result (λ k. k ≡ n) }
    ensures fits { IfSome result IsWithin }
{
    if n == i128::MIN { None } else { Some(n) }
}

#[tactic(auto, using(crate::proofs::FactorLaws::within_is))]
fn sum(x: i128, y: i128) -> Option<i128>
    requires x_in { IsWithin x }
    requires y_in { IsWithin y }
    ensures value { IfSome result (λ n. n ≡ x +ℤ y) }
    ensures fits { IfSome result IsWithin }
{
    add(x, y)
}

#[tactic(auto, using(crate::proofs::FactorLaws::within_is))]
fn difference(x: i128, y: i128) -> Option<i128>
    requires x_in { IsWithin x }
    requires y_in { IsWithin y }
    ensures value { IfSome result (λ n. n ≡ x -ℤ y) }
    ensures fits { IfSome result IsWithin }
{
    sub(x, y)
}

#[tactic(auto, using(crate::proofs::FactorLaws::within_is))]
fn product(x: i128, y: i128) -> Option<i128>
    requires x_in { IsWithin x }
    requires y_in { IsWithin y }
    ensures value { IfSome result (λ n. n ≡ x *ℤ y) }
    ensures fits { IfSome result IsWithin }
{
    mul(x, y)
}

#[tactic(auto, using(crate::proofs::FactorLaws::negative, crate::proofs::FactorLaws::other))]
fn absolute(x: i128) -> i128
    requires { IsWithin x }
    ensures value { result ≡ absolute x }
    ensures fits { IsWithin result }
{
    if x < 0 { neg(x) } else { x }
}
