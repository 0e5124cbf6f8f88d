//! The ordinary operations on values.
ghost use Rattle.std.specs.Prelude.{◌≡◌, ◌∷◌, [], map, IfOk, IfSome};
ghost use Rattle.cf_num.specs.Limit.{IsWithin, within};
ghost use Rattle.cf_tree.specs.ExprView.{expr_tree};
ghost use Rattle.cf_tree.specs.Numbers.{absolute};
ghost use Rattle.cf_tree.specs.Sets.{AreWithin, set_of as the_set_of};
ghost use Rattle.cf_tree.specs.Values.{number as a_number, truth as a_truth, elements as a_set, number_of, elements_of, first_of, compared};
ghost use Rattle.cf_eval.specs.Seen.{plain, plains};
ghost use Rattle.cf_late.specs.ChooseRun.{gives};
ghost use Rattle.cf_late.specs.Fitting.{AreFit};
ghost use Rattle.cf_late.specs.Answers.{LateAnswer, met as met_late, of_numbers, of_sets, one_part, decided_by, joined_by};
ghost use Rattle.cf_late.specs.LateRun.{ordinary};

use crate::stop::Stop;
use crate::values::Values;
use cf_eval::{Value, compare, divide, number_in, remain};
use cf_set::Set;
use cf_tree::{BinOp, Expr, NoMemory, Order};
use std::alloc::Global;

fn set_in(alloc: Global, values: Values) -> Result<Set, NoMemory>
    ensures { IfOk result (λ s. s ≡ elements_of (first_of values)) }
{
    match values.first() {
        Value::Elements(set) => Ok(set),
        Value::Int(_) | Value::Truth(_) => Set::from_list(alloc, &[]),
    }
}

// A number, or none where it is past the limit.
fn met(alloc: Global, z: Option<i128>) -> Result<Values, Stop>
    requires { IfSome z IsWithin }
    ensures { LateAnswer result (met_late z) }
{
    match z {
        None => Err(Stop::Overflow),
        Some(z) => Ok(Values::one(alloc, Value::Int(z))?),
    }
}

// A literal, which is within the limit.
pub(crate) fn literal(alloc: Global, z: i128) -> Result<Values, Stop>
    requires { IsWithin z }
    ensures { LateAnswer result (gives (a_number z ∷ [])) }
{
    Ok(Values::one(alloc, Value::Int(z))?)
}

pub(crate) fn truth(alloc: Global, b: bool) -> Result<Values, Stop>
    ensures { LateAnswer result (gives (a_truth b ∷ [])) }
{
    Ok(Values::one(alloc, Value::Truth(b))?)
}

fn size_of(z: i128) -> i128
    requires { IsWithin z }
    ensures value { result ≡ absolute z }
    ensures fits { IsWithin result }
{
    if z < 0 { cf_num::neg(z) } else { z }
}

// The value of a form over one part, of which these are the values.
fn value_over_one(form: &Expr, part: &Values) -> Value
    ensures value { plain result ≡ one_part (expr_tree form.now) (first_of part.now) }
    ensures fit { IsWithin (number_of (plain result)) }
{
    match form {
        Expr::Neg(_) => Value::Int(cf_num::neg(part.number())),
        Expr::Not(_) => Value::Truth(!part.truth()),
        Expr::Abs(_) => Value::Int(size_of(part.number())),
        Expr::Divides { k, .. } => Value::Truth(remain(part.number(), *k) == 0),
        Expr::Div { k, .. } => Value::Int(divide(part.number(), *k)),
        Expr::Mod { k, .. } => Value::Int(remain(part.number(), *k)),
        _ => Value::Int(part.card()),
    }
}

// A form over one part, of which these are the values.
#[tactic(auto, using(crate::proofs::OperationLaws::ordinary_fit))]
pub(crate) fn over_one(alloc: Global, form: &Expr, part: Values) -> Result<Values, Stop>
    ensures { LateAnswer result (ordinary (one_part (expr_tree form.now) (first_of part))) }
{
    let value = value_over_one(form, &part);
    drop(part);
    Ok(Values::one(alloc, value)?)
}

// The sum, the difference or the product of the numbers of two values, none where it is past the
// limit.
fn number_over_two(op: BinOp, left: Values, right: Values) -> Option<i128>
    ensures value { result ≡ within (of_numbers op (number_of (first_of left)) (number_of (first_of right))) }
    ensures fit { IfSome result IsWithin }
{
    let x = left.number();
    let y = right.number();
    match op {
        BinOp::Add => cf_num::add(x, y),
        BinOp::Sub => cf_num::sub(x, y),
        _ => cf_num::mul(x, y),
    }
}

// The value of an operation on two sets.
fn value_over_sets(alloc: Global, op: BinOp, s: &Set, t: &Set) -> Result<Value, NoMemory>
    ensures value { IfOk result (λ v. plain v ≡ of_sets op s.now t.now) }
    ensures fit { IfOk result (λ v. IsWithin (number_of (plain v))) }
{
    match op {
        BinOp::Union => Ok(Value::Elements(s.union(alloc, t)?)),
        BinOp::Inter => Ok(Value::Elements(s.inter(alloc, t)?)),
        BinOp::Diff => Ok(Value::Elements(s.diff(alloc, t)?)),
        _ => Ok(Value::Truth(s.subset(t))),
    }
}

// An operation on the sets of two values.
#[tactic(auto, using(crate::proofs::OperationLaws::ordinary_fit))]
fn over_sets(alloc: Global, op: BinOp, left: Values, right: Values) -> Result<Values, Stop>
    ensures { LateAnswer result (ordinary (of_sets op (elements_of (first_of left)) (elements_of (first_of right)))) }
{
    let s = set_in(alloc, left)?;
    let t = set_in(alloc, right)?;
    let value = value_over_sets(alloc, op, &s, &t);
    drop(s);
    drop(t);
    Ok(Values::one(alloc, value?)?)
}

// Whether the order holds between two values.
fn compares(order: Order, left: Values, right: Values) -> bool
    ensures { result ≡ compared order (first_of left) (first_of right) }
{
    let v = left.first();
    let w = right.first();
    let holds = compare(order, &v, &w);
    drop(v);
    drop(w);
    holds
}

// The set of the numbers of these values.
pub(crate) fn set_of(alloc: Global, values: Values) -> Result<Values, Stop>
    ensures { LateAnswer result (gives (a_set (the_set_of (map number_of values)) ∷ [])) }
{
    let numbers = numbers_in(alloc, values.items())?;
    let set = Set::from_list(alloc, &numbers)?;
    Ok(Values::one(alloc, Value::Elements(set))?)
}

fn numbers_in(alloc: Global, values: &[Value]) -> Result<Vec<i128>, NoMemory>
    requires { AreFit (plains values.now) }
    ensures value { IfOk result (λ zs. zs.items ≡ map number_of (plains values.now)) }
    ensures within { IfOk result (λ zs. AreWithin zs.items) }
{
    let mut numbers = Vec::with_capacity(alloc, values.len())?;
    for value in values {
        numbers.push(number_in(value))?;
    }
    Ok(numbers)
}

// The value of an operation whose left side decides it.
pub(crate) fn decided(op: BinOp, left: &Values) -> Option<bool>
    ensures { result ≡ decided_by op (first_of left.now) }
{
    match op {
        BinOp::And => { if left.truth() { None } else { Some(false) } }
        BinOp::Or => { if left.truth() { Some(true) } else { None } }
        BinOp::Implies => { if left.truth() { None } else { Some(true) } }
        _ => None,
    }
}

// The value of an operation whose left side does not decide it.
pub(crate) fn joined(alloc: Global, op: BinOp, left: Values, right: Values) -> Result<Values, Stop>
    ensures { LateAnswer result (joined_by op (first_of left) right) }
{
    match op {
        BinOp::And | BinOp::Or | BinOp::Implies => Ok(right),
        BinOp::Add | BinOp::Sub | BinOp::Mul => met(alloc, number_over_two(op, left, right)),
        BinOp::Union | BinOp::Inter | BinOp::Diff | BinOp::Subset => {
            over_sets(alloc, op, left, right)
        }
        BinOp::Compare(order) => truth(alloc, compares(order, left, right)),
    }
}
