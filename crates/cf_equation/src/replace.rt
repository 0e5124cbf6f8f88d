//! Rows with a row in the place of a column.
ghost use Rattle.std.specs.Prelude.{◌≡◌, true, false, Err, IfOk};
ghost use Rattle.std.specs.List.{list_any};
ghost use Rattle.cf_linear.specs.Rows.{subst_row, subst_passes};
ghost use Rattle.cf_linear.specs.Steps.{subst_all};

use cf_linear::{Row, RowFault};
use std::alloc::Global;

// The unknowns and the rows that a step leaves.
#[derive(Drop)]
pub(crate) struct Left {
    pub(crate) unknown: Vec<u32>,
    pub(crate) equations: Vec<Row>,
    pub(crate) inequalities: Vec<Row>,
}

// The rows, each with `value` in the place of the column.
pub(crate) fn subst_rows(
    alloc: Global,
    rows: Vec<Row>,
    column: u32,
    value: &Row,
) -> Result<Vec<Row>, RowFault>
    ensures value { IfOk result (λ v. v.items ≡ subst_all column value.now rows.items) }
    ensures fits { IfOk result (λ v. list_any (subst_passes column value.now) rows.items ≡ false) }
    ensures past { result ≡ Err RowFault.Past → list_any (subst_passes column value.now) rows.items ≡ true }
{
    let mut left = rows;
    left.reverse();
    let mut out = Vec::new(alloc);
    while let Some(row) = left.pop() {
        match subst_row(alloc, row, column, value) {
            Ok(new) => out.push(new)?,
            Err(fault) => return Err(fault),
        }
    }
    Ok(out)
}

// The row with `value` in the place of the column. A row without the column stays as it is.
#[tactic(auto, using(crate::proofs::KeptLaws::kept_row, crate::proofs::KeptLaws::kept_fits))]
fn subst_row(alloc: Global, row: Row, column: u32, value: &Row) -> Result<Row, RowFault>
    ensures value { IfOk result (λ r. r ≡ subst_row column value.now row) }
    ensures fits { IfOk result (λ r. subst_passes column value.now row ≡ false) }
    ensures past { result ≡ Err RowFault.Past → subst_passes column value.now row ≡ true }
{
    if row.entry(column) == 0 {
        return Ok(row);
    }
    row.subst(alloc, column, value)
}
