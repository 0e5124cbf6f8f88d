//! Rows of which one or the other is at least 0 at all whole numbers.
ghost use Rattle.std.specs.Prelude.{◌≡◌, pos, negsuc, ◌&&◌, not, int_lt, ◌+ℤ◌, IfOk};
ghost use Rattle.std.specs.List.{list_any};
ghost use Rattle.cf_num.specs.Limit.{IsWithin};
ghost use Rattle.cf_linear.specs.Arm.{negated};
ghost use Rattle.cf_linear.specs.Rows.{entry, same_row};
ghost use Rattle.cf_formula.specs.Atoms.{key, are_opposite};
ghost use Rattle.cf_formula.specs.FormulaView.{formula_tree, formula_trees};
ghost use Rattle.cf_formula.specs.Members.{opposes, has_opposite};

use crate::formula::Formula;
use crate::key::has_key;
use cf_linear::Row;
use cf_tree::NoMemory;
use std::alloc::Global;

/// Whether two of the members are such rows that are to be at least 0.
///
/// # Errors
/// `NoMemory` where memory ran out.
#[tactic(auto, using(crate::proofs::OppositeRows::opposite_next, crate::proofs::OppositeRows::opposite_end))]
pub(crate) fn has_opposites(alloc: Global, members: &[Formula]) -> Result<bool, NoMemory>
    ensures { IfOk result (λ b. b ≡ list_any (has_opposite (formula_trees members.now)) (formula_trees members.now)) }
{
    for formula in members {
        if has_opposite(alloc, members, formula)? {
            return Ok(true);
        }
    }
    Ok(false)
}

// Whether the formula has an opposite among the members.
fn has_opposite(alloc: Global, members: &[Formula], formula: &Formula) -> Result<bool, NoMemory>
    ensures { IfOk result (λ b. b ≡ has_opposite (formula_trees members.now) (formula_tree formula.now)) }
{
    match formula {
        Formula::AtLeast(row) => is_opposed(alloc, members, row),
        Formula::Always | Formula::Never | Formula::Equal(_) => Ok(false),
        Formula::Both(_, _) | Formula::Either(_, _) => Ok(false),
    }
}

// Whether a member is opposite to the row.
fn is_opposed(alloc: Global, members: &[Formula], row: &Row) -> Result<bool, NoMemory>
    ensures { IfOk result (λ b. b ≡ list_any (opposes row.now) (formula_trees members.now)) }
{
    let other = opposite_key(alloc, row)?;
    Ok(some_opposes(members, row, &other))
}

// The key that an opposite row has.
pub(crate) fn opposite_key(alloc: Global, row: &Row) -> Result<Row, NoMemory>
    ensures { IfOk result (λ r. r ≡ negated (key row.now)) }
{
    let key = row.without(alloc, 0)?;
    let other = key.negated(alloc)?;
    Ok(other)
}

#[tactic(auto, using(crate::proofs::OppositeRows::opposed_next, crate::proofs::OppositeRows::opposed_end))]
fn some_opposes(members: &[Formula], row: &Row, other: &Row) -> bool
    requires { other.now ≡ negated (key row.now) }
    ensures { result ≡ list_any (opposes row.now) (formula_trees members.now) }
{
    for formula in members {
        if opposes(formula, row, other) {
            return true;
        }
    }
    false
}

fn opposes(formula: &Formula, row: &Row, other: &Row) -> bool
    requires { other.now ≡ negated (key row.now) }
    ensures { result ≡ opposes row.now (formula_tree formula.now) }
{
    match formula {
        Formula::AtLeast(bound) => are_opposite(row, bound, other),
        Formula::Always | Formula::Never | Formula::Equal(_) => false,
        Formula::Both(_, _) | Formula::Either(_, _) => false,
    }
}

// Whether both rows are opposite, where `other` is the key that an opposite of the first one has.
#[tactic(auto, using(crate::proofs::OppositeRows::opposite_keys, crate::proofs::OppositeRows::same_keys))]
fn are_opposite(row: &Row, bound: &Row, other: &Row) -> bool
    requires { other.now ≡ negated (key row.now) }
    ensures { result ≡ are_opposite row.now bound.now }
{
    let is_great = sum_is_great(row.entry(0), bound.entry(0));
    if !has_key(bound, other) {
        return false;
    }
    is_great
}

// Whether the sum is at least -1.
#[tactic(auto, using(crate::proofs::OppositeRows::great_sum, crate::proofs::OppositeRows::small_sum))]
fn sum_is_great(a: i128, b: i128) -> bool
    requires a_in { IsWithin a }
    requires b_in { IsWithin b }
    ensures { result ≡ not (int_lt (a +ℤ b) (negsuc 0)) }
{
    a >= -1 - b
}
