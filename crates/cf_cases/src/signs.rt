//! The way and the signs of a case of an atom.
ghost use Rattle.std.specs.Prelude.{◌≡◌, suc, ◌+◌, ◌<◌, ◌^◌, ◌∷◌, min, IfOk};
ghost use Rattle.cf_tree.specs.RelView.{term_tree};
ghost use Rattle.cf_linear.specs.Written.{abs_count};
ghost use Rattle.cf_cases.specs.Picking.{signs_at, way_at};

use cf_tree::{NoMemory, Order, Term};
use std::alloc::Global;

// The order that stands for this one in the case with this index.
pub(crate) fn way_of(order: Order, index: u128) -> Order
    ensures { result ≡ way_at order index }
{
    match order {
        Order::Ne => { if index % 2 == 0 { Order::Lt } else { Order::Gt } }
        Order::Eq | Order::Lt | Order::Le | Order::Gt | Order::Ge => order,
    }
}

// The choice with this index of signs for the forms `abs` of two forms.
pub(crate) fn signs_of_two(
    alloc: Global,
    left: &Term,
    right: &Term,
    index: u128,
) -> Result<Vec<bool>, NoMemory>
    requires { index < 2 ^ 64 }
    ensures { IfOk result (λ signs. signs.items ≡ signs_at (abs_count (term_tree left.now) + abs_count (term_tree right.now)) index) }
{
    let count = total(abs_count(left)?, abs_count(right)?)?;
    signs_at(alloc, count, index)
}

// The choice with this index of signs for the forms `abs` of a form.
pub(crate) fn signs_of(alloc: Global, term: &Term, index: u128) -> Result<Vec<bool>, NoMemory>
    requires { index < 2 ^ 64 }
    ensures { IfOk result (λ signs. signs.items ≡ signs_at (abs_count (term_tree term.now)) index) }
{
    signs_at(alloc, abs_count(term)?, index)
}

/// How many forms `abs` the form holds.
///
/// # Errors
/// `NoMemory` where the number passes what memory holds.
pub fn abs_count(term: &Term) -> Result<usize, NoMemory>
    ensures { IfOk result (λ n. n ≡ abs_count (term_tree term.now)) }
{
    match term {
        Term::Lit(_) | Term::Var(_) | Term::Card(_) => Ok(0),
        Term::Neg(a) | Term::Div(a, _) | Term::Mod(a, _) => abs_count(a),
        Term::Add(a, b) | Term::Sub(a, b) | Term::Mul(a, b) => {
            total(abs_count(a)?, abs_count(b)?)
        }
        Term::Abs(a) => total(abs_count(a)?, 1),
    }
}

// The sum: what is counted is held in memory, so that no memory holds more than a `usize`.
fn total(a: usize, b: usize) -> Result<usize, NoMemory>
    ensures { IfOk result (λ n. n ≡ a + b) }
{
    match a.checked_add(b) {
        Some(n) => Ok(n),
        None => Err(NoMemory),
    }
}

// The choice with this index of `count` signs.
fn signs_at(alloc: Global, count: usize, index: u128) -> Result<Vec<bool>, NoMemory>
    requires { index < 2 ^ 64 }
    ensures { IfOk result (λ signs. signs.items ≡ signs_at count index) }
{
    let mut signs = Vec::new(alloc);
    let mut rest = index;
    let mut left = count;
    while left > 0 {
        left -= 1;
        let (minus, next) = first_sign(left, rest);
        signs.push(minus)?;
        rest = next;
    }
    Ok(signs)
}

// The first sign of the choice with this index, which `left` signs follow, and the index of the
// choice of these.
fn first_sign(left: usize, index: u128) -> (bool, u128)
    requires { index < 2 ^ 64 }
    ensures signs { signs_at (suc left) index ≡ result.0 ∷ signs_at left result.1 }
    ensures small { result.1 < 2 ^ 64 }
{
    let half = choices(left);
    if index < half {
        (false, index)
    } else {
        (true, index - half)
    }
}

// The number of choices of so many signs, or `2^64` where there are more.
fn choices(count: usize) -> u128
    ensures { result ≡ min (2 ^ count) (2 ^ 64) }
{
    if count < 64 {
        1u128 << count
    } else {
        1u128 << 64
    }
}
