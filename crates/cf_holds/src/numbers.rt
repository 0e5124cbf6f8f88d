//! The values of number forms.
ghost use Rattle.std.specs.Prelude.{◌≡◌, ◌+ℤ◌, ◌-ℤ◌, ◌*ℤ◌, pos, Some, IfOk, IfSome};
ghost use Rattle.cf_num.specs.Limit.{IsWithin};
ghost use Rattle.cf_tree.specs.Numbers.{absolute};
ghost use Rattle.cf_tree.specs.Relation.{val};
ghost use Rattle.cf_tree.specs.RelView.{term_tree};
ghost use Rattle.cf_tree.specs.Values.{number_of, value_at};
ghost use Rattle.cf_eval.specs.Seen.{plains};

use crate::fault::HoldFault;
use crate::sets::members;
use cf_eval::{Value, divide, number_in, remain};
use cf_num::{add, mul, neg, sub};
use cf_tree::Term;
use std::alloc::Global;

// The value of the number form.
pub(crate) fn value(alloc: Global, term: &Term, values: &[Value]) -> Result<i128, HoldFault>
    ensures value { IfOk result (λ n. n ≡ val (term_tree term.now) (plains values.now)) }
    ensures fits { IfOk result IsWithin }
{
    match term {
        Term::Lit(n) => within(*n),
        Term::Var(x) => number_at(*x, values),
        Term::Card(set) => {
            let members = members(alloc, set, values)?;
            Ok(counted(members.card()))
        }
        Term::Neg(a) => {
            let x = value(alloc, a, values)?;
            Ok(neg(x))
        }
        Term::Add(a, b) => {
            let x = value(alloc, a, values)?;
            let y = value(alloc, b, values)?;
            sum(x, y)
        }
        Term::Sub(a, b) => {
            let x = value(alloc, a, values)?;
            let y = value(alloc, b, values)?;
            difference(x, y)
        }
        Term::Mul(a, b) => {
            let x = value(alloc, a, values)?;
            let y = value(alloc, b, values)?;
            product(x, y)
        }
        Term::Div(a, k) => {
            let x = value(alloc, a, values)?;
            Ok(divide(x, *k))
        }
        Term::Mod(a, k) => {
            let x = value(alloc, a, values)?;
            Ok(remain(x, *k))
        }
        Term::Abs(a) => {
            let x = value(alloc, a, values)?;
            Ok(absolute(x))
        }
    }
}

// The number, if it is within the limit.
pub(crate) fn within(n: i128) -> Result<i128, HoldFault>
    ensures value { IfOk result (λ k. k ≡ n) }
    ensures fits { IfOk result IsWithin }
{
    if n == i128::MIN {
        Err(HoldFault::Past)
    } else {
        Ok(n)
    }
}

// The number of level x, 0 where none stands there.
fn number_at(x: u32, values: &[Value]) -> Result<i128, HoldFault>
    ensures value { IfOk result (λ k. k ≡ number_of (value_at (plains values.now) x)) }
    ensures fits { IfOk result IsWithin }
{
    within(stored(x, values))
}

fn stored(x: u32, values: &[Value]) -> i128
    ensures { result ≡ number_of (value_at (plains values.now) x) }
{
    match values.get(x as usize) {
        Some(value) => number_in(value),
        None => 0,
    }
}

fn counted(n: u64) -> i128
    ensures value { result ≡ pos n }
    ensures fits { IsWithin result }
{
    i128::from(n)
}

#[tactic(auto, using(crate::proofs::NumberLaws::met_value))]
fn sum(x: i128, y: i128) -> Result<i128, HoldFault>
    requires x_in { IsWithin x }
    requires y_in { IsWithin y }
    ensures value { IfOk result (λ n. n ≡ x +ℤ y) }
    ensures fits { IfOk result IsWithin }
{
    met(add(x, y))
}

#[tactic(auto, using(crate::proofs::NumberLaws::met_value))]
fn difference(x: i128, y: i128) -> Result<i128, HoldFault>
    requires x_in { IsWithin x }
    requires y_in { IsWithin y }
    ensures value { IfOk result (λ n. n ≡ x -ℤ y) }
    ensures fits { IfOk result IsWithin }
{
    met(sub(x, y))
}

#[tactic(auto, using(crate::proofs::NumberLaws::met_value))]
fn product(x: i128, y: i128) -> Result<i128, HoldFault>
    requires x_in { IsWithin x }
    requires y_in { IsWithin y }
    ensures value { IfOk result (λ n. n ≡ x *ℤ y) }
    ensures fits { IfOk result IsWithin }
{
    met(mul(x, y))
}

// The result of an operation, if it is within the limit.
fn met(n: Option<i128>) -> Result<i128, HoldFault>
    requires { IfSome n IsWithin }
    ensures value { IfOk result (λ k. n ≡ Some k) }
    ensures fits { IfOk result IsWithin }
{
    match n {
        Some(k) => Ok(k),
        None => Err(HoldFault::Past),
    }
}

#[tactic(auto, using(crate::proofs::NumberLaws::negative, crate::proofs::NumberLaws::other))]
pub(crate) fn absolute(x: i128) -> i128
    requires { IsWithin x }
    ensures value { result ≡ absolute x }
    ensures fits { IsWithin result }
{
    if x < 0 { neg(x) } else { x }
}
