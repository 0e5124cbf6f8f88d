//! States of a plan.
ghost use Rattle.std.specs.Prelude.{◌≡◌, map, IfOk};
ghost use Rattle.cf_formula.specs.ConditionsView.{conditions_of};
ghost use Rattle.cf_formula.specs.FormulaView.{formula_trees};
ghost use Rattle.cf_formula.specs.Simplifying.{simplified};
ghost use Rattle.cf_formula.specs.StateView.{columns_of, shared_of, state_of};
ghost use Rattle.cf_formula.specs.States.{with_conditions};

use crate::conditions::Conditions;
use crate::formula::Formula;
use cf_linear::Row;
use cf_tree::NoMemory;
use std::alloc::Global;

/// The known and the unknown columns in order, and the number of the next one.
#[derive(Drop)]
pub struct Columns {
    pub known: Vec<u32>,
    pub unknown: Vec<u32>,
    pub next: u32,
}

/// A let that may be used again: its column, which holds the row divided by `k` and rounded down.
#[derive(Drop)]
pub struct Shared {
    pub column: u32,
    pub row: Row,
    pub k: i128,
}

/// The columns; rows over known columns that are at least 0 when the code runs; the lets that may be used again; what
/// is to hold; how many needs were made; and how many tuples the searches have.
#[derive(Drop)]
pub struct State {
    pub columns: Columns,
    pub facts: Vec<Row>,
    pub shared: Vec<Shared>,
    pub conditions: Conditions,
    pub needs: u64,
    pub tuples: u64,
}

impl Columns {
    /// Equal columns.
    ///
    /// # Errors
    /// `NoMemory` where memory ran out.
    pub fn try_copy(&self, alloc: Global) -> Result<Columns, NoMemory>
        ensures { IfOk result (λ new. columns_of new ≡ columns_of self.now) }
    {
        Ok(Columns {
            known: Vec::from_slice(alloc, &self.known)?,
            unknown: Vec::from_slice(alloc, &self.unknown)?,
            next: self.next,
        })
    }
}

impl Conditions {
    /// Equal conditions.
    ///
    /// # Errors
    /// `NoMemory` where memory ran out.
    pub fn try_copy(&self, alloc: Global) -> Result<Conditions, NoMemory>
        ensures { IfOk result (λ new. conditions_of new ≡ conditions_of self.now) }
    {
        Ok(Conditions {
            equations: copy_rows(alloc, &self.equations)?,
            inequalities: copy_rows(alloc, &self.inequalities)?,
            pending: copy_formulas(alloc, &self.pending)?,
            dead: self.dead,
        })
    }
}

impl State {
    /// An equal state.
    ///
    /// # Errors
    /// `NoMemory` where memory ran out.
    pub fn try_copy(&self, alloc: Global) -> Result<State, NoMemory>
        ensures { IfOk result (λ new. state_of new ≡ state_of self.now) }
    {
        Ok(State {
            columns: self.columns.try_copy(alloc)?,
            facts: copy_rows(alloc, &self.facts)?,
            shared: copy_shared(alloc, &self.shared)?,
            conditions: self.conditions.try_copy(alloc)?,
            needs: self.needs,
            tuples: self.tuples,
        })
    }

    /// The state with its pending formulas as its facts and rows settle them.
    ///
    /// # Errors
    /// `NoMemory` where memory ran out.
    pub fn simplified(self, alloc: Global) -> Result<State, NoMemory>
        ensures { IfOk result (λ s. state_of s ≡ with_conditions (state_of self) (simplified (state_of self).facts (state_of self).conditions)) }
    {
        let State {
            columns,
            facts,
            shared,
            conditions,
            needs,
            tuples,
        } = self;
        let conditions = conditions.simplified(alloc, &facts)?;
        Ok(State {
            columns,
            facts,
            shared,
            conditions,
            needs,
            tuples,
        })
    }
}

fn copy_rows(alloc: Global, rows: &[Row]) -> Result<Vec<Row>, NoMemory>
    ensures { IfOk result (λ new. new.items ≡ rows.now) }
{
    let mut all = Vec::new(alloc);
    for row in rows {
        all.push(row.try_copy(alloc)?)?;
    }
    Ok(all)
}

fn copy_formulas(alloc: Global, formulas: &[Formula]) -> Result<Vec<Formula>, NoMemory>
    ensures { IfOk result (λ new. formula_trees new.items ≡ formula_trees formulas.now) }
{
    let mut all = Vec::new(alloc);
    for formula in formulas {
        all.push(formula.try_copy(alloc)?)?;
    }
    Ok(all)
}

fn copy_shared(alloc: Global, shared: &[Shared]) -> Result<Vec<Shared>, NoMemory>
    ensures { IfOk result (λ new. map shared_of new.items ≡ map shared_of shared.now) }
{
    let mut all = Vec::new(alloc);
    for one in shared {
        all.push(one.try_copy(alloc)?)?;
    }
    Ok(all)
}

impl Shared {
    fn try_copy(&self, alloc: Global) -> Result<Shared, NoMemory>
        ensures { IfOk result (λ new. shared_of new ≡ shared_of self.now) }
    {
        Ok(Shared {
            column: self.column,
            row: self.row.try_copy(alloc)?,
            k: self.k,
        })
    }
}
