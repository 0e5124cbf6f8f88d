//! The atoms of rows, in normal form.
ghost use Rattle.std.specs.Prelude.{◌≡◌, IfOk};
ghost use Rattle.cf_formula.specs.Atoms.{tight_row, ge, eq, upright};
ghost use Rattle.cf_formula.specs.FormulaView.{formula_tree};

use crate::formula::Formula;
use crate::key::{begins_below, divisor, is_constant, is_divided};
use cf_linear::{Row, divided};
use cf_tree::NoMemory;
use std::alloc::Global;

/// The row that is at least 0 at whole numbers exactly where this one is, divided by the greatest common
/// divisor of its entries but the constant, which is rounded down.
///
/// # Errors
/// `NoMemory` where memory ran out.
#[tactic(auto, using(crate::proofs::TightRows::tight_small, crate::proofs::TightRows::tight_great))]
pub fn tight_row(alloc: Global, row: Row) -> Result<Row, NoMemory>
    ensures { IfOk result (λ r. r ≡ tight_row row) }
{
    let g = divisor(&row);
    if g <= 1 {
        return Ok(row);
    }
    let tight = divided(alloc, &row, g)?;
    Ok(tight)
}

/// The formula of `row >= 0`.
///
/// # Errors
/// `NoMemory` where memory ran out.
pub fn ge(alloc: Global, row: Row) -> Result<Formula, NoMemory>
    ensures { IfOk result (λ f. formula_tree f ≡ ge row) }
{
    if !is_constant(&row) {
        return Ok(Formula::AtLeast(tight_row(alloc, row)?));
    }
    if row.entry(0) < 0 {
        return Ok(Formula::Never);
    }
    Ok(Formula::Always)
}

/// The formula of `row == 0`.
///
/// # Errors
/// `NoMemory` where memory ran out.
pub fn eq(alloc: Global, row: Row) -> Result<Formula, NoMemory>
    ensures { IfOk result (λ f. formula_tree f ≡ eq row) }
{
    if is_constant(&row) {
        if row.entry(0) == 0 {
            return Ok(Formula::Always);
        }
        return Ok(Formula::Never);
    }
    if !is_divided(&row) {
        return Ok(Formula::Never);
    }
    let tight = tight_row(alloc, row)?;
    Ok(Formula::Equal(upright(alloc, tight)?))
}

// The row, with its first entry but the constant above 0, which is 0 exactly where this one is.
fn upright(alloc: Global, row: Row) -> Result<Row, NoMemory>
    ensures { IfOk result (λ r. r ≡ upright row) }
{
    if begins_below(&row) {
        let turned = row.negated(alloc)?;
        return Ok(turned);
    }
    Ok(row)
}
