//! What is to hold.
ghost use Rattle.std.specs.Prelude.{◌≡◌, map, false, OnOk, if◌then◌else◌};
ghost use Rattle.std.specs.List.{list_any};
ghost use Rattle.cf_linear.specs.Rows.{same_row};
ghost use Rattle.cf_formula.specs.Atoms.{ge, eq};
ghost use Rattle.cf_formula.specs.ConditionsView.{conditions_of, ConditionsAnswer, AddAnswer, IsAdded};
ghost use Rattle.cf_formula.specs.FormulaView.{formula_tree, formula_trees};
ghost use Rattle.cf_formula.specs.Rewriting.{with_rows, some_atom};
ghost use Rattle.cf_formula.specs.States.{no_conditions, with_row, add, changed, some_row, nothing_but};
ghost use Rattle.cf_formula.specs.SubstitutionView.{pairs_of};
ghost use Rattle.cf_formula.specs.Turns.{subst_rows, rows_pass};

use crate::formula::Formula;
use crate::rewriting::Rewriting;
use crate::substitution::Substitution;
use cf_linear::{Row, RowFault};
use cf_tree::NoMemory;
use std::alloc::Global;

/// Rows that are to be 0, rows that are to be at least 0, and formulas that are to hold. Dead conditions hold
/// nowhere.
#[derive(Drop)]
pub struct Conditions {
    pub equations: Vec<Row>,
    pub inequalities: Vec<Row>,
    pub pending: Vec<Formula>,
    pub dead: bool,
}

impl Conditions {
    /// The conditions that hold everywhere.
    pub fn none(alloc: Global) -> Conditions
        ensures { conditions_of result ≡ no_conditions }
    {
        nothing_but(alloc, false)
    }

    /// Adds the formula: an `and` part by part, a row unless it is there, and an `or` behind the others.
    ///
    /// # Errors
    /// `NoMemory` where memory ran out.
    pub fn add(&mut self, formula: Formula) -> Result<(), NoMemory>
        ensures { OnOk result (conditions_of self.new ≡ add (formula_tree formula) (conditions_of self.old)) }
    {
        let mut left = Vec::new(*self.pending.allocator());
        self.add_part(formula, &mut left)?;
        while let Some(part) = left.pop() {
            self.add_part(part, &mut left)?;
        }
        Ok(())
    }

    // Adds the formula, or the parts of an `and` to those that are left, where the last one is the next.
    #[tactic(auto, using(crate::proofs::ConditionsCode::part_added, crate::proofs::ConditionsCode::parts_left))]
    fn add_part(&mut self, formula: Formula, left: &mut Vec<Formula>) -> Result<(), NoMemory>
        ensures { OnOk result (IsAdded (formula_tree formula) left.old.items left.new.items (conditions_of self.old) (conditions_of self.new)) }
    {
        match formula {
            Formula::Always => Ok(()),
            Formula::Never => {
                self.dead = true;
                Ok(())
            }
            Formula::AtLeast(row) => {
                add_row(&mut self.inequalities, row)?;
                Ok(())
            }
            Formula::Equal(row) => {
                add_row(&mut self.equations, row)?;
                Ok(())
            }
            Formula::Both(a, b) => {
                left.push(Box::into_inner(b))?;
                left.push(Box::into_inner(a))?;
                Ok(())
            }
            Formula::Either(a, b) => {
                self.pending.push(Formula::Either(a, b))?;
                Ok(())
            }
        }
    }

    /// The conditions with the rows in the places of their columns, written anew.
    ///
    /// # Errors
    /// `Past` exactly where a product or a sum that makes an entry passes the limit, and `NoMemory` where
    /// memory ran out.
    #[tactic(auto, using(crate::proofs::RewritingCode::first_fault, crate::proofs::RewritingCode::second_fault))]
    pub fn put(&self, alloc: Global, by: &Substitution) -> Result<Conditions, RowFault>
        ensures { ConditionsAnswer (some_row (rows_pass (pairs_of by.now.replacements.items)) (conditions_of self.now))
            (changed (subst_rows (pairs_of by.now.replacements.items)) (conditions_of self.now)) result }
    {
        let mut new = nothing_but(alloc, self.dead);
        add_equations(alloc, &self.equations, by, &mut new)?;
        add_inequalities(alloc, &self.inequalities, by, &mut new)?;
        add_pending(alloc, &self.pending, by, &mut new)?;
        Ok(new)
    }
}

// Conditions without a row or a formula.
fn nothing_but(alloc: Global, dead: bool) -> Conditions
    ensures { conditions_of result ≡ nothing_but dead }
{
    Conditions {
        equations: Vec::new(alloc),
        inequalities: Vec::new(alloc),
        pending: Vec::new(alloc),
        dead,
    }
}

// Adds the row to the end, unless it is there.
fn add_row(rows: &mut Vec<Row>, row: Row) -> Result<(), NoMemory>
    ensures { OnOk result (rows.new.items ≡ with_row rows.old.items row) }
{
    if has_row(rows, &row) {
        return Ok(());
    }
    rows.push(row)?;
    Ok(())
}

fn has_row(rows: &[Row], row: &Row) -> bool
    ensures { result ≡ list_any (same_row row.now) rows.now }
{
    rows.iter().any(|r| row.same(r))
}

// Adds the equations with the rows in them.
#[tactic(auto, using(crate::proofs::RewritingCode::first_fault))]
fn add_equations(
    alloc: Global,
    rows: &[Row],
    by: &Substitution,
    to: &mut Conditions,
) -> Result<(), RowFault>
    ensures { AddAnswer (list_any (rows_pass (pairs_of by.now.replacements.items)) rows.now)
        (map (λ r. eq (subst_rows (pairs_of by.now.replacements.items) r)) rows.now) (conditions_of to.old) (conditions_of to.new) result }
{
    let mut rest = rows;
    while let Some((row, more)) = rest.split_first() {
        let formula = by.equal(alloc, row)?;
        to.add(formula)?;
        rest = more;
    }
    Ok(())
}

// Adds the inequalities with the rows in them.
#[tactic(auto, using(crate::proofs::RewritingCode::first_fault))]
fn add_inequalities(
    alloc: Global,
    rows: &[Row],
    by: &Substitution,
    to: &mut Conditions,
) -> Result<(), RowFault>
    ensures { AddAnswer (list_any (rows_pass (pairs_of by.now.replacements.items)) rows.now)
        (map (λ r. ge (subst_rows (pairs_of by.now.replacements.items) r)) rows.now) (conditions_of to.old) (conditions_of to.new) result }
{
    let mut rest = rows;
    while let Some((row, more)) = rest.split_first() {
        let formula = by.at_least(alloc, row)?;
        to.add(formula)?;
        rest = more;
    }
    Ok(())
}

// Adds the formulas with the rows in them.
#[tactic(auto, using(crate::proofs::RewritingCode::first_fault))]
fn add_pending(
    alloc: Global,
    formulas: &[Formula],
    by: &Substitution,
    to: &mut Conditions,
) -> Result<(), RowFault>
    ensures { AddAnswer (list_any (some_atom (rows_pass (pairs_of by.now.replacements.items))) (formula_trees formulas.now))
        (map (with_rows (subst_rows (pairs_of by.now.replacements.items))) (formula_trees formulas.now)) (conditions_of to.old) (conditions_of to.new)
        result }
{
    let mut rest = formulas;
    while let Some((old, more)) = rest.split_first() {
        let formula = old.rewritten(alloc, by)?;
        to.add(formula)?;
        rest = more;
    }
    Ok(())
}
