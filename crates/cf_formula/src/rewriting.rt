//! Formulas with other atoms, in normal form.
ghost use Rattle.std.specs.Prelude.{◌≡◌, ◌∷◌, [], Bool, false, IfOk};
ghost use Rattle.cf_linear.specs.Rows.{Row as RowEntries};
ghost use Rattle.cf_formula.specs.Answers.{FormulaAnswer};
ghost use Rattle.cf_formula.specs.Formulas.{Formula as FormulaTree};
ghost use Rattle.cf_formula.specs.FormulaView.{formula_tree, formula_trees};
ghost use Rattle.cf_formula.specs.Members.{conj, disj};
ghost use Rattle.cf_formula.specs.Rewriting.{rewritten, some_atom};

use crate::formula::Formula;
use crate::members::{conj, disj};
use cf_linear::{Row, RowFault};
use cf_tree::{NoMemory, without};
use std::alloc::Global;

/// Formulas that take the places of atoms.
pub trait Rewriting {
    /// The formula in the place of `row >= 0`.
    ghost low: { Self → RowEntries → FormulaTree };

    /// The formula in the place of `row == 0`.
    ghost zero: { Self → RowEntries → FormulaTree };

    /// Whether a number on the way to it passes the limit.
    ghost passes: { Self → RowEntries → Bool };

    /// The formula in the place of `row >= 0`.
    ///
    /// # Errors
    /// `Past` exactly where a number on the way passes the limit, and `NoMemory` where memory ran out.
    fn at_least(&self, alloc: Global, row: &Row) -> Result<Formula, RowFault>
        ensures { FormulaAnswer (passes self.now row.now) (low self.now row.now) result };

    /// The formula in the place of `row == 0`.
    ///
    /// # Errors
    /// `Past` exactly where a number on the way passes the limit, and `NoMemory` where memory ran out.
    fn equal(&self, alloc: Global, row: &Row) -> Result<Formula, RowFault>
        ensures { FormulaAnswer (passes self.now row.now) (zero self.now row.now) result };
}

impl Formula {
    /// The formula with these in the places of its atoms, in normal form.
    ///
    /// # Errors
    /// `Past` exactly where a number on the way to one of them passes the limit, and `NoMemory` where memory
    /// ran out.
    #[tactic(auto, using(crate::proofs::RewritingCode::both_made, crate::proofs::RewritingCode::first_fault, crate::proofs::RewritingCode::second_fault))]
    pub fn rewritten<R: Rewriting>(&self, alloc: Global, by: &R) -> Result<Formula, RowFault>
        ensures { FormulaAnswer (some_atom (R.passes by.now) (formula_tree self.now))
            (rewritten (R.low by.now) (R.zero by.now) (formula_tree self.now)) result }
    {
        match self {
            Formula::Always => Ok(Formula::Always),
            Formula::Never => Ok(Formula::Never),
            Formula::AtLeast(row) => by.at_least(alloc, row),
            Formula::Equal(row) => by.equal(alloc, row),
            Formula::Both(a, b) => match a.rewritten(alloc, by) {
                Ok(first) => match b.rewritten(alloc, by) {
                    Ok(second) => conj_two(alloc, first, second),
                    Err(fault) => Err(without(first, fault)),
                },
                Err(fault) => Err(fault),
            },
            Formula::Either(a, b) => match a.rewritten(alloc, by) {
                Ok(first) => match b.rewritten(alloc, by) {
                    Ok(second) => disj_two(alloc, first, second),
                    Err(fault) => Err(without(first, fault)),
                },
                Err(fault) => Err(fault),
            },
        }
    }
}

fn conj_two(alloc: Global, first: Formula, second: Formula) -> Result<Formula, RowFault>
    ensures { FormulaAnswer false (conj (formula_tree first ∷ formula_tree second ∷ [])) result }
{
    let parts = two(alloc, first, second)?;
    let both = conj(alloc, parts)?;
    Ok(both)
}

fn disj_two(alloc: Global, first: Formula, second: Formula) -> Result<Formula, RowFault>
    ensures { FormulaAnswer false (disj (formula_tree first ∷ formula_tree second ∷ [])) result }
{
    let parts = two(alloc, first, second)?;
    let either = disj(alloc, parts)?;
    Ok(either)
}

fn two(alloc: Global, first: Formula, second: Formula) -> Result<Vec<Formula>, NoMemory>
    ensures { IfOk result (λ v. formula_trees v.items ≡ formula_tree first ∷ formula_tree second ∷ []) }
{
    let mut parts = Vec::new(alloc);
    parts.push(first)?;
    parts.push(second)?;
    Ok(parts)
}
