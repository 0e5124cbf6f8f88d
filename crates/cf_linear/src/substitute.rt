//! A row in the place of a column.
ghost use Rattle.std.specs.Prelude.{◌≡◌, ◌<◌, true, false, Err, IfOk};
ghost use Rattle.cf_num.specs.Limit.{IsWithin};
ghost use Rattle.cf_linear.specs.Rows.{without, subst_row, subst_passes};
ghost use Rattle.cf_linear.specs.Steps.{two_at};

use crate::refusal::RowFault;
use crate::row::Row;
use cf_tree::NoMemory;
use std::alloc::Global;

impl Row {
    /// The row without its entry at the column.
    pub fn without(&self, alloc: Global, column: u32) -> Result<Row, NoMemory>
        ensures { IfOk result (λ r. r ≡ without column self.now) }
    {
        let mut out = Row::empty(alloc);
        for i in 0..self.len() {
            let (d, k) = self.at(i);
            if d != column {
                out.append(d, k)?;
            }
        }
        Ok(out)
    }

    /// The row with the row `value` in the place of the column: what is left without the column, and the
    /// column's entry times `value`. Past exactly where a product or a sum that makes an entry passes
    /// the limit.
    pub fn subst(&self, alloc: Global, column: u32, value: &Row) -> Result<Row, RowFault>
        ensures value { IfOk result (λ r. r ≡ subst_row column value.now self.now) }
        ensures fits { IfOk result (λ r. subst_passes column value.now self.now ≡ false) }
        ensures past { result ≡ Err RowFault.Past → subst_passes column value.now self.now ≡ true }
    {
        let rest = self.without(alloc, column)?;
        rest.combine(alloc, 1, value, self.entry(column))
    }

    /// The row with `a` at the column `u` and `b` at the column `v`.
    pub fn two_at(alloc: Global, a: i128, u: u32, b: i128, v: u32) -> Result<Row, NoMemory>
        requires rising { u < v }
        requires a_in { IsWithin a }
        requires b_in { IsWithin b }
        ensures { IfOk result (λ r. r ≡ two_at a u b v) }
    {
        let mut out = Row::empty(alloc);
        out.append(u, a)?;
        out.append(v, b)?;
        Ok(out)
    }
}
