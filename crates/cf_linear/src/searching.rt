//! The search over the remainders of one bound.
ghost use Rattle.std.specs.Prelude.{◌≡◌, ◌<◌, ◌+◌, ◌++◌, ◌^◌, [], pos, negsuc, neg_ℤ, unsigned_abs, if◌then◌else◌, true, IfOk};
ghost use Rattle.cf_num.specs.Limit.{IsWithin};
ghost use Rattle.cf_linear.specs.Rows.{AreBelow, put};
ghost use Rattle.cf_linear.specs.Steps.{searches, search_equation, search_bound};
ghost use Rattle.cf_linear.specs.Searching.{equation_start};
ghost use Rattle.cf_linear.specs.Sides.{is_lower};

use crate::row::Row;
use crate::side::Side;
use crate::system::Search;
use cf_num::neg;
use cf_tree::NoMemory;
use std::alloc::Global;

/// The column of a search with its bound: it goes from 0 up to the size of the coefficient, not with it.
///
/// # Errors
/// `NoMemory` where the size has more than 32 bits: such a search is past its limit.
pub fn search_column(column: u32, k: i128) -> Result<Search, NoMemory>
    ensures { IfOk result (λ s. (s.column ≡ column) × (s.bound ≡ unsigned_abs k)) }
{
    let bound = k.unsigned_abs();
    if bound > u32::MAX as u128 {
        return Err(NoMemory);
    }
    Ok(Search {
        column,
        bound: bound as u32,
    })
}

/// `-l + k - p * n` for a lower bound `p * x + l >= 0`, and `m - k - q * n` for an upper bound `-q * x + m >= 0`,
/// k being the column and n the next one.
///
/// # Errors
/// `NoMemory` where memory ran out.
#[tactic(auto, using(crate::proofs::EquationLaws::start_below))]
pub fn search_equation(
    alloc: Global,
    unknown: u32,
    side: Side,
    column: u32,
    row: &Row,
) -> Result<Row, NoMemory>
    requires below { AreBelow column row.now }
    requires room { column + 1 < 2 ^ 32 }
    requires wanted { searches unknown (is_lower side) row.now ≡ true }
    ensures { IfOk result (λ r. r ≡ search_equation unknown (is_lower side) column row.now) }
{
    let mut equation = equation_start(alloc, unknown, side, row)?;
    equation.append(column, side.sign())?;
    equation.append(column + 1, side_coefficient(side, row.entry(unknown)))?;
    Ok(equation)
}

// The coefficient, with the other sign for a lower bound.
fn side_coefficient(side: Side, k: i128) -> i128
    requires { IsWithin k }
    ensures value { result ≡ (if is_lower side then neg_ℤ k else k) }
    ensures fits { IsWithin result }
{
    match side {
        Side::Lower => neg(k),
        Side::Upper => k,
    }
}

// The rest of the bound, with the other signs for a lower one.
#[tactic(auto, using(crate::proofs::PartColumns::comb_first))]
fn equation_start(alloc: Global, unknown: u32, side: Side, row: &Row) -> Result<Row, NoMemory>
    ensures { IfOk result (λ r. r ≡ equation_start unknown (is_lower side) row.now) }
{
    let rest = row.without(alloc, unknown)?;
    match side {
        Side::Lower => rest.negated(alloc),
        Side::Upper => Ok(rest),
    }
}

/// `x - n` for a lower bound, and `-x + n` for an upper one, x being the unknown and n the column after
/// this one.
///
/// # Errors
/// `NoMemory` where memory ran out.
pub fn search_bound(alloc: Global, unknown: u32, side: Side, column: u32) -> Result<Row, NoMemory>
    requires after { unknown < column }
    requires room { column + 1 < 2 ^ 32 }
    ensures { IfOk result (λ r. r ≡ search_bound unknown (is_lower side) column) }
{
    match side {
        Side::Lower => Row::two_at(alloc, 1, unknown, -1, column + 1),
        Side::Upper => Row::two_at(alloc, -1, unknown, 1, column + 1),
    }
}
