//! The operations of target code on values.
ghost use Rattle.std.specs.Prelude.{◌≡◌, [], ◌*ℤ◌, Some, IfErr, IfOk, IfSome, OnOk, not};
ghost use Rattle.cf_num.specs.Limit.{IsWithin, within};
ghost use Rattle.cf_tree.specs.Numbers.{quotient, remainder, count_of};
ghost use Rattle.cf_tree.specs.Sets.{AreWithin, set_diff, set_fresh, set_of, set_put, set_slice};
ghost use Rattle.cf_tree.specs.Values.{number, number_of, truth_of, elements_of, compared, same_value};
ghost use Rattle.cf_tree.specs.Meaning.{choose_with};
ghost use Rattle.cf_eval.specs.Forms.{is_number_kind, is_numeric};
ghost use Rattle.cf_eval.specs.Reached.{given, as_number, as_set, met as met_reached, met_set};
ghost use Rattle.cf_eval.specs.Seen.{plain, IsFit};
ghost use Rattle.cf_eval.specs.RunAnswers.{NumberAnswer, SetAnswer};
ghost use Rattle.cf_eval.specs.Choice.{better_of};

use crate::given::{Stop, met_number};
use crate::kind::Kind;
use crate::value::Value;
use cf_set::Set;
use cf_tree::{NoMemory, Order};
use std::alloc::Global;

// Which of some numbers is taken.
#[derive(Clone, Copy)]
pub(crate) enum Side {
    Least,
    Greatest,
}

/// The quotient of a number within the limit by `k`, rounded down; 0 where `k` is not positive.
pub fn divide(x: i128, k: i128) -> i128
    requires { IsWithin x }
    ensures value { result ≡ quotient x k }
    ensures fits { IsWithin result }
{
    if k > 0 { cf_num::fdiv(x, k) } else { 0 }
}

/// The remainder of a number within the limit by `k`; the number itself where `k` is not positive.
pub fn remain(x: i128, k: i128) -> i128
    requires { IsWithin x }
    ensures value { result ≡ remainder x k }
    ensures fits { IsWithin result }
{
    if k > 0 { cf_num::modulo(x, k) } else { x }
}

// The product of two numbers of 64 bits, which no limit stops.
#[inline(always)]
pub(crate) fn narrow_product(x: i64, y: i64) -> i128
    ensures exact { result ≡ x *ℤ y }
    ensures value { within (x *ℤ y) ≡ Some result }
    ensures fits { IsWithin result }
{
    i128::from(x) * i128::from(y)
}

// The product of numbers of which one at least has more than 64 bits.
#[cold]
#[inline(never)]
fn wide_product(a: i128, b: i128) -> Result<i128, Stop>
    requires a_in { IsWithin a }
    requires b_in { IsWithin b }
    ensures told { NumberAnswer result (as_number (met_reached (within (a *ℤ b)))) }
    ensures fit { IfOk result IsWithin }
{
    met_number(cf_num::mul(a, b))
}

// The product, met. Most numbers have 64 bits, and take one machine instruction.
#[inline(always)]
pub(crate) fn product(a: i128, b: i128) -> Result<i128, Stop>
    requires a_in { IsWithin a }
    requires b_in { IsWithin b }
    ensures told { NumberAnswer result (as_number (met_reached (within (a *ℤ b)))) }
    ensures fit { IfOk result IsWithin }
{
    match i64::try_from(a) {
        Ok(x) => match i64::try_from(b) {
            Ok(y) => Ok(narrow_product(x, y)),
            Err(_) => wide_product(a, b),
        },
        Err(_) => wide_product(a, b),
    }
}

// The better of what was chosen so far and x.
pub(crate) fn better(side: Side, most: Option<i128>, x: i128) -> i128
    requires most_in { IfSome most IsWithin }
    requires x_in { IsWithin x }
    ensures value { result ≡ choose_with (better_of side) most x }
    ensures fits { IsWithin result }
{
    match (most, side) {
        (None, _) => x,
        (Some(z), Side::Least) => z.min(x),
        (Some(z), Side::Greatest) => z.max(x),
    }
}

// One more element of a set form.
pub(crate) fn push_element(x: i128, items: &mut Vec<i128>) -> Result<(), Stop>
    requires x_in { IsWithin x }
    requires within { AreWithin items.old.items }
    ensures value { OnOk result (set_of items.new.items ≡ set_put x (set_of items.old.items)) }
    ensures within { OnOk result (AreWithin items.new.items) }
    ensures err { IfErr result (λ e. e ≡ Stop.NoMemory) }
{
    items.push(x)?;
    Ok(())
}

pub(crate) fn empty(alloc: Global) -> Result<Set, NoMemory>
    ensures { IfOk result (λ s. s ≡ []) }
{
    Set::from_list(alloc, &[])
}

// The n least numbers from 0 upwards that are not in the set, each of them met.
pub(crate) fn fresh(alloc: Global, avoid: &Set, n: i128) -> Result<Set, Stop>
    ensures told { SetAnswer result (as_set (met_set (set_fresh avoid.now (count_of n)))) }
{
    Ok(Set::fresh(alloc, avoid, n)?)
}

// The elements of the first set that are not in the second, of sets that are given up.
pub(crate) fn difference(alloc: Global, s: Set, t: Set) -> Result<Set, Stop>
    ensures { SetAnswer result (given (set_diff s t)) }
{
    Ok(s.diff(alloc, &t)?)
}

// Some elements of a set that is given up.
pub(crate) fn part(alloc: Global, s: Set, from: i128, n: i128) -> Result<Set, Stop>
    ensures { SetAnswer result (given (set_slice s (count_of from) (count_of n))) }
{
    Ok(s.slice(alloc, from, n)?)
}

/// The number, 0 for another value.
pub fn number_in(v: &Value) -> i128
    ensures { result ≡ number_of (plain v.now) }
{
    match v {
        Value::Int(z) => *z,
        _ => 0,
    }
}

/// The truth, false for another value.
pub fn truth_in(v: &Value) -> bool
    ensures { result ≡ truth_of (plain v.now) }
{
    match v {
        Value::Truth(b) => *b,
        _ => false,
    }
}

// The number of a value that is given up, 0 for another value.
pub(crate) fn into_number(v: Value) -> i128
    requires { IsFit v }
    ensures value { result ≡ number_of (plain v) }
    ensures fits { IsWithin result }
{
    match v {
        Value::Int(z) => z,
        Value::Truth(_) | Value::Elements(_) => 0,
    }
}

// The truth of a value that is given up, false for another value.
pub(crate) fn into_truth(v: Value) -> bool
    ensures { result ≡ truth_of (plain v) }
{
    truth_in(&v)
}

// The set of a value that is given up, the empty set for another value.
pub(crate) fn into_set(alloc: Global, v: Value) -> Result<Set, Stop>
    ensures { SetAnswer result (given (elements_of (plain v))) }
{
    match v {
        Value::Elements(s) => Ok(s),
        Value::Int(_) | Value::Truth(_) => Ok(empty(alloc)?),
    }
}

// Whether two values of one base are the same.
fn same(v: &Value, w: &Value) -> bool
    ensures { result ≡ same_value (plain v.now) (plain w.now) }
{
    match v {
        Value::Int(x) => *x == number_in(w),
        Value::Truth(b) => *b == truth_in(w),
        Value::Elements(s) => match w {
            Value::Elements(t) => s.same(t),
            Value::Int(_) | Value::Truth(_) => s.card() == 0,
        },
    }
}

/// Whether the order holds between two values of one base; only numbers are less or greater.
pub fn compare(order: Order, v: &Value, w: &Value) -> bool
    ensures { result ≡ compared order (plain v.now) (plain w.now) }
{
    match order {
        Order::Eq => same(v, w),
        Order::Ne => !same(v, w),
        Order::Lt => number_in(v) < number_in(w),
        Order::Le => number_in(v) <= number_in(w),
        Order::Gt => number_in(v) > number_in(w),
        Order::Ge => number_in(v) >= number_in(w),
    }
}

// The same of values that are given up.
pub(crate) fn compare_given(order: Order, v: Value, w: Value) -> bool
    ensures { result ≡ compared order (plain v) (plain w) }
{
    compare(order, &v, &w)
}

fn is_number(kind: Kind) -> bool
    ensures { result ≡ is_number_kind kind }
{
    match kind {
        Kind::Number => true,
        Kind::Truth => false,
        Kind::Elements => false,
        Kind::Other => false,
    }
}

// Whether a comparison is that of the numbers of its sides, where the left side is of that kind.
pub(crate) fn numeric(order: Order, left: Kind) -> bool
    ensures { result ≡ is_numeric order left }
{
    match order {
        Order::Eq => is_number(left),
        Order::Ne => is_number(left),
        Order::Lt => true,
        Order::Le => true,
        Order::Gt => true,
        Order::Ge => true,
    }
}

pub(crate) fn compare_numbers(order: Order, x: i128, y: i128) -> bool
    ensures { result ≡ compared order (number x) (number y) }
{
    match order {
        Order::Eq => x == y,
        Order::Ne => x != y,
        Order::Lt => x < y,
        Order::Le => x <= y,
        Order::Gt => x > y,
        Order::Ge => x >= y,
    }
}
