//! A new column that has the value of a row.
ghost use Rattle.std.specs.Prelude.{◌≡◌, true, All, IfOk};
ghost use Rattle.cf_close.specs.Nodes.{Lacks, NodeLacks, IsDefined};

use crate::fact::{Fact, FactKind, fact_of};
use crate::fault::Fault;
use crate::problem::Conjunction;
use cf_linear::Row;
use std::alloc::Global;

/// Whether no fact of the nodes has the column.
pub(crate) fn all_lack(nodes: &[Conjunction], column: u32) -> bool
    ensures { result ≡ true → All (NodeLacks column) nodes.now }
{
    for node in nodes {
        if !facts_lack(node.facts(), column) {
            return false;
        }
    }
    true
}

/// Whether none of the facts has the column.
pub(crate) fn facts_lack(facts: &[Fact], column: u32) -> bool
    ensures { result ≡ true → All (Lacks column) facts.now }
{
    for fact in facts {
        if !fact_lacks(fact, column) {
            return false;
        }
    }
    true
}

fn fact_lacks(fact: &Fact, column: u32) -> bool
    ensures { result ≡ true → Lacks column fact.now }
{
    fact.row.entry(column) == 0
}

/// The row less the column, as an equation. Unfit where the row has the column.
pub(crate) fn definition(alloc: Global, row: &Row, column: u32) -> Result<Fact, Fault>
    ensures { IfOk result (λ f. IsDefined column row.now f) }
{
    if column == 0 || row.entry(column) != 0 {
        return Err(Fault::Unfit);
    }
    let unit = Row::unit(alloc, column, 1)?;
    match row.combine(alloc, 1, &unit, -1) {
        Ok(less) => Ok(fact_of(FactKind::Equation, less)),
        Err(fault) => Err(Fault::from(fault)),
    }
}
