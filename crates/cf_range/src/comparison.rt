//! Comparisons that are decided: of a variable with itself, and where the ranges of both sides tell.
ghost use Rattle.std.specs.Prelude.{◌≡◌};
ghost use Rattle.cf_tree.specs.CodeView.{code_tree};
ghost use Rattle.cf_range.specs.Settled.{are_one, holds_of_itself, is_below, is_nowhere_below, holds_always, other_order, told_by, gives_number, compares_numbers, known, told, comparison};

use crate::codes::range_of;
use crate::counts::is_var;
use crate::range::Range;
use crate::total::is_total;
use cf_tree::{Code, Order};

/// The comparison, decided where the two sides tell.
pub(crate) fn comparison(ranges: &[Range], order: Order, a: Box<Code>, b: Box<Code>) -> Code
    ensures { code_tree result ≡ comparison ranges.now order (code_tree a.value) (code_tree b.value) }
{
    match told(ranges, order, &a, &b) {
        Some(holds) => {
            drop(a);
            drop(b);
            Code::Truth(holds)
        }
        None => Code::Compare {
            order,
            left: a,
            right: b,
        },
    }
}

// What is told of the comparison, where both sides can be evaluated anywhere.
fn told(ranges: &[Range], order: Order, a: &Code, b: &Code) -> Option<bool>
    ensures { result ≡ told ranges.now order (code_tree a.now) (code_tree b.now) }
{
    if is_total(ranges, a) && is_total(ranges, b) {
        known(ranges, order, a, b)
    } else {
        None
    }
}

fn known(ranges: &[Range], order: Order, a: &Code, b: &Code) -> Option<bool>
    ensures { result ≡ known ranges.now order (code_tree a.now) (code_tree b.now) }
{
    if are_one(a, b) {
        Some(holds_of_itself(order))
    } else if compares_numbers(order, a) {
        told_by(order, range_of(ranges, a), range_of(ranges, b))
    } else {
        None
    }
}

// What a comparison says of a value and itself.
fn holds_of_itself(order: Order) -> bool
    ensures { result ≡ holds_of_itself order }
{
    match order {
        Order::Eq | Order::Le | Order::Ge => true,
        Order::Ne | Order::Lt | Order::Gt => false,
    }
}

// Whether two codes are one variable.
fn are_one(a: &Code, b: &Code) -> bool
    ensures { result ≡ are_one (code_tree a.now) (code_tree b.now) }
{
    match a {
        Code::Var(x) => is_var(*x as usize, b),
        _ => false,
    }
}

// Whether a comparison is one of numbers: == and != compare sets and truth values as well.
fn compares_numbers(order: Order, a: &Code) -> bool
    ensures { result ≡ compares_numbers order (code_tree a.now) }
{
    match order {
        Order::Eq | Order::Ne => gives_number(a),
        Order::Lt | Order::Le | Order::Gt | Order::Ge => true,
    }
}

fn gives_number(code: &Code) -> bool
    ensures { result ≡ gives_number (code_tree code.now) }
{
    match code {
        Code::Lit(_)
        | Code::Sum(_)
        | Code::Sub(..)
        | Code::Mul(..)
        | Code::Neg(_)
        | Code::Div { .. }
        | Code::Mod { .. }
        | Code::Min(_)
        | Code::Max(_)
        | Code::Card(_) => true,
        _ => false,
    }
}

// What two ranges tell of a comparison.
fn told_by(order: Order, r: Range, s: Range) -> Option<bool>
    ensures { result ≡ told_by order r s }
{
    if holds_always(order, r, s) {
        Some(true)
    } else if holds_always(other_order(order), r, s) {
        Some(false)
    } else {
        None
    }
}

// Whether a comparison holds of all numbers of two ranges.
fn holds_always(order: Order, r: Range, s: Range) -> bool
    ensures { result ≡ holds_always order r s }
{
    match order {
        Order::Eq => is_nowhere_below(r, s) && is_nowhere_below(s, r),
        Order::Ne => is_below(r, s) || is_below(s, r),
        Order::Lt => is_below(r, s),
        Order::Le => is_nowhere_below(s, r),
        Order::Gt => is_below(s, r),
        Order::Ge => is_nowhere_below(r, s),
    }
}

fn other_order(order: Order) -> Order
    ensures { result ≡ other_order order }
{
    match order {
        Order::Eq => Order::Ne,
        Order::Ne => Order::Eq,
        Order::Lt => Order::Ge,
        Order::Le => Order::Gt,
        Order::Gt => Order::Le,
        Order::Ge => Order::Lt,
    }
}

// Whether each number of the one range is less than each of the other.
fn is_below(r: Range, s: Range) -> bool
    ensures { result ≡ is_below r s }
{
    r.high < s.low
}

// Whether none is.
fn is_nowhere_below(r: Range, s: Range) -> bool
    ensures { result ≡ is_nowhere_below r s }
{
    r.low >= s.high
}
