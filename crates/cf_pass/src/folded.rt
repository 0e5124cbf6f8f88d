// What forms of literals are folded to.
ghost use Rattle.std.specs.Prelude.{◌≡◌, None, pos};
ghost use Rattle.cf_num.specs.Limit.{IsWithin};
ghost use Rattle.cf_tree.specs.CodeView.{code_tree, code_trees};
ghost use Rattle.cf_tree.specs.Meaning.{choose_with, chosen};
ghost use Rattle.cf_tree.specs.Numbers.{quotient, remainder};
ghost use Rattle.cf_pass.specs.Folding.{folded_value};
ghost use Rattle.cf_pass.specs.Literals.{values_of, met_value, IsMet, then_some, better_of, of_two, difference_of, product_of, negated_of, quotient_of, remainder_of, comparison_of, multiple_of, conjunction_of, disjunction_of, negation_of, sum_of, best_of, form_value};

use crate::literal::{Literal, Side, compare, limited_literal, met_literal, read_literal};
use cf_tree::{Code, Order};

// The value of the form, if it is folded.
pub fn folded(code: &Code) -> Option<Literal>
    ensures { values_of result ≡ folded_value (code_tree code.now) }
{
    value(code)
}

// The same, part by part.
fn value(code: &Code) -> Option<Literal>
    ensures { values_of result ≡ form_value (code_tree code.now) }
{
    match code {
        Code::Sum(parts) => sum(parts),
        Code::Sub(a, b) => difference(met_part(a), met_part(b)),
        Code::Mul(a, b) => product(met_part(a), met_part(b)),
        Code::Neg(a) => negated(met_part(a)),
        Code::Div { of, k } => divided(met_part(of), *k),
        Code::Mod { of, k } => remaining(met_part(of), *k),
        Code::Min(parts) => best(Side::Least, parts),
        Code::Max(parts) => best(Side::Greatest, parts),
        Code::Compare { order, left, right } => comparison(*order, met_part(left), met_part(right)),
        Code::Divides { k, of } => multiple(met_part(of), *k),
        Code::And(a, b) => conjunction(met_part(a), read_literal(b)),
        Code::Or(a, b) => disjunction(met_part(a), read_literal(b)),
        Code::Not(a) => negation(met_part(a)),
        Code::Lit(_)
        | Code::Truth(_)
        | Code::Var(_)
        | Code::SetOf(_)
        | Code::Tuple(_)
        | Code::Union(_)
        | Code::Inter(_)
        | Code::Diff(_, _)
        | Code::Subset(_, _)
        | Code::Card(_)
        | Code::Slice { .. }
        | Code::Fresh { .. }
        | Code::If { .. }
        | Code::Let { .. }
        | Code::Solve { .. } => None,
    }
}

// for the proof: a part is read with its box
fn met_part(part: &Box<Code>) -> Option<Literal>
    ensures value { values_of result ≡ met_value (code_tree part.now.value) }
    ensures fits { IsMet result }
{
    met_literal(part)
}

fn difference(v: Option<Literal>, w: Option<Literal>) -> Option<Literal>
    requires v_in { IsMet v }
    requires w_in { IsMet w }
    ensures { values_of result ≡ of_two difference_of (values_of v) (values_of w) }
{
    Some(Literal::Number(cf_num::sub(v?.number(), w?.number())?))
}

fn product(v: Option<Literal>, w: Option<Literal>) -> Option<Literal>
    requires v_in { IsMet v }
    requires w_in { IsMet w }
    ensures { values_of result ≡ of_two product_of (values_of v) (values_of w) }
{
    Some(Literal::Number(cf_num::mul(v?.number(), w?.number())?))
}

fn negated(v: Option<Literal>) -> Option<Literal>
    requires { IsMet v }
    ensures { values_of result ≡ then_some (values_of v) negated_of }
{
    limited_literal(Literal::Number(cf_num::neg(v?.number())))
}

fn divided(v: Option<Literal>, k: i128) -> Option<Literal>
    requires { IsMet v }
    ensures { values_of result ≡ then_some (values_of v) (quotient_of k) }
{
    limited_literal(Literal::Number(divide(v?.number(), k)))
}

fn remaining(v: Option<Literal>, k: i128) -> Option<Literal>
    requires { IsMet v }
    ensures { values_of result ≡ then_some (values_of v) (remainder_of k) }
{
    limited_literal(Literal::Number(remain(v?.number(), k)))
}

fn comparison(order: Order, v: Option<Literal>, w: Option<Literal>) -> Option<Literal>
    ensures { values_of result ≡ of_two (comparison_of order) (values_of v) (values_of w) }
{
    Some(Literal::Truth(compare(order, v?, w?)))
}

fn multiple(v: Option<Literal>, k: i128) -> Option<Literal>
    requires { IsMet v }
    ensures { values_of result ≡ then_some (values_of v) (multiple_of k) }
{
    Some(Literal::Truth(remain(v?.number(), k) == 0))
}

// The right side is met where the left one does not decide.
fn conjunction(v: Option<Literal>, w: Option<Literal>) -> Option<Literal>
    ensures { values_of result ≡ of_two conjunction_of (values_of v) (values_of w) }
{
    let left = v?;
    let right = w?;
    if left.truth() {
        limited_literal(right)
    } else {
        Some(Literal::Truth(false))
    }
}

// The right side is met where the left one does not decide.
fn disjunction(v: Option<Literal>, w: Option<Literal>) -> Option<Literal>
    ensures { values_of result ≡ of_two disjunction_of (values_of v) (values_of w) }
{
    let left = v?;
    let right = w?;
    if left.truth() {
        Some(Literal::Truth(true))
    } else {
        limited_literal(right)
    }
}

fn negation(v: Option<Literal>) -> Option<Literal>
    ensures { values_of result ≡ then_some (values_of v) negation_of }
{
    Some(Literal::Truth(!v?.truth()))
}

fn sum(parts: &[Code]) -> Option<Literal>
    ensures { values_of result ≡ sum_of (code_trees parts.now) (pos 0) }
{
    let mut rest = parts;
    let mut total: i128 = 0;
    while let Some((part, more)) = rest.split_first() {
        total = cf_num::add(total, met_literal(part)?.number())?;
        rest = more;
    }
    Some(Literal::Number(total))
}

fn best(side: Side, parts: &[Code]) -> Option<Literal>
    ensures { values_of result ≡ best_of (better_of side) (code_trees parts.now) None }
{
    let mut rest = parts;
    let mut best: Option<i128> = None;
    while let Some((part, more)) = rest.split_first() {
        best = Some(better(side, best, met_literal(part)?.number()));
        rest = more;
    }
    limited_literal(Literal::Number(number_chosen(best)))
}

fn number_chosen(best: Option<i128>) -> i128
    ensures { result ≡ chosen best }
{
    match best {
        None => 0,
        Some(z) => z,
    }
}

// The better of what was chosen so far and x.
fn better(side: Side, most: Option<i128>, x: i128) -> i128
    ensures { result ≡ choose_with (better_of side) most x }
{
    match (most, side) {
        (None, _) => x,
        (Some(z), Side::Least) => z.min(x),
        (Some(z), Side::Greatest) => z.max(x),
    }
}

fn divide(x: i128, k: i128) -> i128
    requires { IsWithin x }
    ensures { result ≡ quotient x k }
{
    if k > 0 { cf_num::fdiv(x, k) } else { 0 }
}

fn remain(x: i128, k: i128) -> i128
    requires { IsWithin x }
    ensures { result ≡ remainder x k }
{
    if k > 0 { cf_num::modulo(x, k) } else { x }
}
