//! What rows that are at least 0 say of others, each row by itself.
ghost use Rattle.std.specs.Prelude.{◌≡◌, ◌&&◌, not, int_lt, pos, ◌+ℤ◌, false, IfOk};
ghost use Rattle.std.specs.List.{list_any};
ghost use Rattle.cf_num.specs.Limit.{IsWithin};
ghost use Rattle.cf_linear.specs.Arm.{negated};
ghost use Rattle.cf_linear.specs.Rows.{entry, same_row};
ghost use Rattle.cf_formula.specs.Answers.{FormulaAnswer};
ghost use Rattle.cf_formula.specs.Atoms.{key};
ghost use Rattle.cf_formula.specs.Facts.{is_implied, is_excluded, is_contradictory, settled_ge, settled_eq, settled};
ghost use Rattle.cf_formula.specs.FormulaView.{formula_tree};

use crate::formula::Formula;
use crate::key::has_key;
use crate::opposites::opposite_key;
use crate::rewriting::Rewriting;
use cf_linear::{Row, RowFault};
use cf_tree::NoMemory;
use std::alloc::Global;

/// Rows that are at least 0.
#[derive(Drop)]
pub struct Facts {
    pub rows: Vec<Row>,
}

impl Facts {
    /// Whether one of the rows is at least 0 only where the row is.
    ///
    /// # Errors
    /// `NoMemory` where memory ran out.
    pub fn implies(&self, alloc: Global, row: &Row) -> Result<bool, NoMemory>
        ensures { IfOk result (λ b. b ≡ is_implied self.now.rows.items row.now) }
    {
        let wanted = row.without(alloc, 0)?;
        Ok(some_implies(&self.rows, row, &wanted))
    }

    /// Whether one of the rows is at least 0 only where the row is not.
    ///
    /// # Errors
    /// `NoMemory` where memory ran out.
    pub fn excludes(&self, alloc: Global, row: &Row) -> Result<bool, NoMemory>
        ensures { IfOk result (λ b. b ≡ is_excluded self.now.rows.items row.now) }
    {
        let wanted = opposite_key(alloc, row)?;
        Ok(some_excludes(&self.rows, row, &wanted))
    }

    /// Whether one of the rows excludes one of them.
    ///
    /// # Errors
    /// `NoMemory` where memory ran out.
    pub fn is_contradictory(&self, alloc: Global) -> Result<bool, NoMemory>
        ensures { IfOk result (λ b. b ≡ is_contradictory self.now.rows.items) }
    {
        self.excludes_one(alloc, &self.rows)
    }

    /// The formula where each of the rows is at least 0.
    ///
    /// # Errors
    /// `NoMemory` where memory ran out.
    #[tactic(auto, using(crate::proofs::FactCode::never_passes))]
    pub fn settled(&self, alloc: Global, formula: &Formula) -> Result<Formula, NoMemory>
        ensures { IfOk result (λ f. formula_tree f ≡ settled self.now.rows.items (formula_tree formula.now)) }
    {
        match formula.rewritten(alloc, self) {
            Ok(settled) => Ok(settled),
            Err(RowFault::NoMemory) => Err(NoMemory),
            Err(RowFault::Past) => unreachable!(),
        }
    }

    // Whether one of the rows excludes one of the others.
    #[tactic(auto, using(crate::proofs::FactCode::excluded_next, crate::proofs::FactCode::excluded_end))]
    fn excludes_one(&self, alloc: Global, rows: &[Row]) -> Result<bool, NoMemory>
        ensures { IfOk result (λ b. b ≡ list_any (is_excluded self.now.rows.items) rows.now) }
    {
        for row in rows {
            if self.excludes(alloc, row)? {
                return Ok(true);
            }
        }
        Ok(false)
    }

    // The formula of `row >= 0` where the rows hold.
    fn settled_ge(&self, alloc: Global, row: &Row) -> Result<Formula, NoMemory>
        ensures { IfOk result (λ f. formula_tree f ≡ settled_ge self.now.rows.items row.now) }
    {
        if self.implies(alloc, row)? {
            return Ok(Formula::Always);
        }
        if self.excludes(alloc, row)? {
            return Ok(Formula::Never);
        }
        Ok(Formula::AtLeast(row.try_copy(alloc)?))
    }

    // The formula of `row == 0` where the rows hold.
    #[tactic(auto, using(crate::proofs::FactCode::settled_never, crate::proofs::FactCode::settled_always, crate::proofs::FactCode::settled_open))]
    fn settled_eq(&self, alloc: Global, row: &Row) -> Result<Formula, NoMemory>
        ensures { IfOk result (λ f. formula_tree f ≡ settled_eq self.now.rows.items row.now) }
    {
        let turned = row.negated(alloc)?;
        if self.excludes(alloc, row)? {
            return Ok(Formula::Never);
        }
        if self.excludes(alloc, &turned)? {
            return Ok(Formula::Never);
        }
        if !self.implies(alloc, row)? {
            return Ok(Formula::Equal(row.try_copy(alloc)?));
        }
        if !self.implies(alloc, &turned)? {
            return Ok(Formula::Equal(row.try_copy(alloc)?));
        }
        Ok(Formula::Always)
    }
}

impl Rewriting for Facts {
    ghost use Rattle.std.specs.Prelude.{false};
    ghost use Rattle.cf_formula.specs.Facts.{settled_ge, settled_eq};

    ghost low = { λ s r. settled_ge s.rows.items r };

    ghost zero = { λ s r. settled_eq s.rows.items r };

    ghost passes = { λ s r. false };

    fn at_least(&self, alloc: Global, row: &Row) -> Result<Formula, RowFault> {
        let formula = self.settled_ge(alloc, row)?;
        Ok(formula)
    }

    fn equal(&self, alloc: Global, row: &Row) -> Result<Formula, RowFault> {
        let formula = self.settled_eq(alloc, row)?;
        Ok(formula)
    }
}

#[tactic(auto, using(crate::proofs::FactCode::implied_next, crate::proofs::FactCode::implied_end))]
fn some_implies(rows: &[Row], row: &Row, wanted: &Row) -> bool
    requires { wanted.now ≡ key row.now }
    ensures { result ≡ is_implied rows.now row.now }
{
    for bound in rows {
        if implies(bound, row, wanted) {
            return true;
        }
    }
    false
}

// Whether the bound has the key and no greater constant than the row.
fn implies(bound: &Row, row: &Row, wanted: &Row) -> bool
    ensures { result ≡ (same_row (key bound.now) wanted.now && not (int_lt (entry row.now 0) (entry bound.now 0))) }
{
    if !has_key(bound, wanted) {
        return false;
    }
    bound.entry(0) <= row.entry(0)
}

#[tactic(auto, using(crate::proofs::FactCode::opposed_next, crate::proofs::FactCode::opposed_end))]
fn some_excludes(rows: &[Row], row: &Row, wanted: &Row) -> bool
    requires { wanted.now ≡ negated (key row.now) }
    ensures { result ≡ is_excluded rows.now row.now }
{
    for bound in rows {
        if excludes(bound, row, wanted) {
            return true;
        }
    }
    false
}

// Whether the bound has the key, and its constant and the row's have a sum below 0.
fn excludes(bound: &Row, row: &Row, wanted: &Row) -> bool
    ensures { result ≡ (same_row (key bound.now) wanted.now && int_lt (entry bound.now 0 +ℤ entry row.now 0) (pos 0)) }
{
    if !has_key(bound, wanted) {
        return false;
    }
    sum_is_below(bound.entry(0), row.entry(0))
}

// Whether the sum is below 0.
#[tactic(auto, using(crate::proofs::FactCode::sum_below))]
fn sum_is_below(a: i128, b: i128) -> bool
    requires a_in { IsWithin a }
    requires b_in { IsWithin b }
    ensures { result ≡ int_lt (a +ℤ b) (pos 0) }
{
    a < -b
}
