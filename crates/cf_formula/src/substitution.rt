//! Rows in the places of columns.
ghost use Rattle.std.specs.Prelude.{◌≡◌};
ghost use Rattle.cf_formula.specs.Answers.{SubstAnswer, FormulaAnswer};
ghost use Rattle.cf_formula.specs.SubstitutionView.{pair_of, pairs_of};
ghost use Rattle.cf_formula.specs.Turns.{subst_rows, rows_pass};
ghost use Rattle.cf_linear.specs.Rows.{subst_row, subst_passes};

use crate::atoms::{eq, ge};
use crate::formula::Formula;
use crate::rewriting::Rewriting;
use cf_linear::{Row, RowFault};
use std::alloc::Global;

/// A row in the place of a column.
#[derive(Drop)]
pub struct Replacement {
    pub column: u32,
    pub row: Row,
}

/// Rows in the places of columns. The last one is put first, so that an earlier row takes the place of its
/// column in later rows too.
#[derive(Drop)]
pub struct Substitution {
    pub replacements: Vec<Replacement>,
}

impl Substitution {
    /// The row with the rows in it.
    ///
    /// # Errors
    /// `Past` exactly where a product or a sum that makes an entry passes the limit, and `NoMemory` where
    /// memory ran out.
    pub fn put(&self, alloc: Global, row: &Row) -> Result<Row, RowFault>
        ensures { SubstAnswer (rows_pass (pairs_of self.now.replacements.items) row.now) (subst_rows (pairs_of self.now.replacements.items) row.now) result }
    {
        put_all(alloc, &self.replacements, row)
    }
}

// The row with the rows in it, from the last one on.
fn put_all(alloc: Global, replacements: &[Replacement], row: &Row) -> Result<Row, RowFault>
    ensures { SubstAnswer (rows_pass (pairs_of replacements.now) row.now) (subst_rows (pairs_of replacements.now) row.now) result }
{
    let mut put = row.try_copy(alloc)?;
    let mut i = replacements.len();
    while i > 0 {
        i -= 1;
        put = put_one(alloc, &replacements[i], &put)?;
    }
    Ok(put)
}

fn put_one(alloc: Global, replacement: &Replacement, row: &Row) -> Result<Row, RowFault>
    ensures { SubstAnswer (subst_passes replacement.now.column replacement.now.row row.now)
        (subst_row replacement.now.column replacement.now.row row.now) result }
{
    match row.subst(alloc, replacement.column, &replacement.row) {
        Ok(put) => Ok(put),
        Err(RowFault::Past) => Err(RowFault::Past),
        Err(RowFault::NoMemory) => Err(RowFault::NoMemory),
    }
}

impl Rewriting for Substitution {
    ghost use Rattle.cf_formula.specs.Atoms.{ge, eq};
    ghost use Rattle.cf_formula.specs.SubstitutionView.{pairs_of};
    ghost use Rattle.cf_formula.specs.Turns.{subst_rows, rows_pass};

    ghost low = { λ s r. ge (subst_rows (pairs_of s.replacements.items) r) };

    ghost zero = { λ s r. eq (subst_rows (pairs_of s.replacements.items) r) };

    ghost passes = { λ s r. rows_pass (pairs_of s.replacements.items) r };

    fn at_least(&self, alloc: Global, row: &Row) -> Result<Formula, RowFault> {
        let changed = self.put(alloc, row)?;
        let formula = ge(alloc, changed)?;
        Ok(formula)
    }

    fn equal(&self, alloc: Global, row: &Row) -> Result<Formula, RowFault> {
        let changed = self.put(alloc, row)?;
        let formula = eq(alloc, changed)?;
        Ok(formula)
    }
}
